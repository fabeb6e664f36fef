//! What is wrong with a whole job, in words: with its description, its plan, a second plan after it, or its units.
//!
//! `explaining` reports the first fault (`specs/JobWords`): the crate `diagnosis` has the words for a description and a
//! plan; `fault_words` for a second plan that may not follow the first, and for bytes that are no record; `unit_words`
//! for a refused unit or record on air (`specs/UnitWords`), by what its stream declares (`unit_limits`); `text_words`
//! for a description that is no text of the one on air (`specs/TextWords`), and `text_answers` whether one is
//! (`specs/TextAnswers`); `text_records` has the record that puts it on air (`specs/TextRecords`); `line_up_words` for a
//! description with its plan that may not take the place of those on air (`specs/LineUpWords`). `whole_jobs` reads a job
//! in memory, and finds the first refused unit by the multiplexer. `fault_lines` has the line of a fault that a program
//! has found (`specs/FaultLines`).
#![tactic(auto)]

mod explaining;
mod fault_lines;
mod fault_words;
mod line_up_words;
mod next_fronts;
mod text_answers;
mod text_records;
mod text_words;
mod unit_limits;
mod unit_words;
mod whole_jobs;

pub use explaining::explain_job;
pub use fault_lines::fault_line;
pub use line_up_words::{write_line_up_fault, write_waiting};
pub use next_fronts::next_front;
pub use text_answers::text_answer;
pub use text_records::{texts_begin, texts_record};
pub use text_words::write_text_fault;
pub use unit_limits::{UnitLimits, stream_limits};
pub use unit_words::write_air;
pub use whole_jobs::description_of;
