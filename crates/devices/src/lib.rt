//! What a program does with the reader and the two writers that it is given.
//!
//! A `Device` (`specs/Devices`) is a reader or a writer before a call and after it: the bytes that it still gives or
//! has taken, if known, and the number of its calls that failed. An input is read to its end piece by piece, and a
//! `PieceTaker` takes each piece: a vector of all bytes (`read_whole`), or a type of the caller's. `lines` writes
//! bytes, a text, and lines of a name and numbers; `halt` is why a program ends early, with the line and the status.
//! `specs/Runs` says what a program does that reads its whole input and takes all its memory before the first byte that
//! it writes: to its end, or until a device fails or memory runs out. `options` are the numbers and flags of a command
//! line. `files` opens a file by its name, `output_files` writes one; `saving` writes it whole or not at all
//! (`specs/Saving`); `host` runs a program over the real reader,
//! writers and files. A `Watched` reader reports on a writer of its own how far it has read, in the text of `meter`
//! (`specs/Progress`): `host` uses it if the words ask for it.
#![tactic(auto)]

mod files;
mod halt;
mod host;
mod lines;
mod meter;
mod options;
mod output_files;
mod patient;
mod piece_taker;
mod saving;
mod unfinished;
mod watched;
mod whole_input;

pub use files::{FileFault, NamedFiles};
pub use halt::{Halt, report_halt};
pub use host::{Program, run_program, run_reporting_program};
pub use lines::{report_line, report_text, write_bytes, write_line, write_text};
pub use meter::Meter;
pub use options::{
    flag, is_given, number_given, number_if_given, number_in, number_option, option, text_of,
};
pub use output_files::{NewFile, OutputFiles};
pub use piece_taker::{LONGEST_INPUT, PieceTaker, new_piece, read_piece, size_within, take_input};
pub use saving::{report_of, report_uncreated, save_file, save_named};
pub use watched::Watched;
pub use whole_input::read_whole;
