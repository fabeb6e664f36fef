//! What the program `tsjob` does, over any files, a reader and two writers (`run`).
//!
//! `options` is the table of options, with the usage; `arguments` reads the command line by it; `file_mark` finds `--`,
//! and `file_words` has the names of files after it. What it asks for of streams is done by `job_run`. `streaming`
//! writes the units of the streams of a description in a file while the stream arrives; `explained_input` explains the
//! faults of a description. `program` is `run`, for options with `--` before names of files; `made_job` has what it
//! writes in memory. `command` is `run_command`, for words as people type them (`specs/Command`). `rows` has the rows
//! of options that `tsremux` shares.
//!
//! `next_texts` answers questions about new texts, with a front or a record, as `next_asked` reads the options.
//! `reading` returns the bytes of files that a command line names, one after another (`specs/ReadFiles`).
#![tactic(auto)]

mod arguments;
mod command;
mod explained_input;
mod file_mark;
mod file_words;
mod made_job;
mod next_asked;
mod next_texts;
mod options;
mod program;
mod reading;
pub mod rows;
mod streaming;

pub use command::{OUTPUT_WORD, SHORT_NAMES, output_file, run_command, words_but_output};
pub use file_words::option_words;
pub use made_job::{MadeJob, make_job};
pub use program::{report_usage, run};
pub use reading::read_files;
pub use streaming::TERMINAL;
