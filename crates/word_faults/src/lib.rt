//! The options of a program as a table, and the first word of a command line that cannot be taken, in words.
//!
//! `OptionRow`: the name of an option, its value (`ValueKind`) and its line of the usage. The table gives the values
//! that are read (`given_options`, `number_of`, `number_if`, `numbers_of`), the words that the program knows
//! (`KnownWords`), and the usage text (`specs/GivenOptions`, `specs/OptionRows`, `specs/KnownWords`,
//! `specs/OptionUsage`, `specs/CommandLine`). Values that are no plain numbers: `lists` have commas between their parts
//! (`specs/Lists`), `name_lists` name services and the network, `job_values` are moments and words, `scaled` numbers
//! have a unit after them. Their types are plain numbers and texts, those of `given_values`, and buffers.
//!
//! `first_fault` finds the first word that is unknown, is given twice, lacks its value, has a wrong value, or must be
//! given alone and is not; `word_beside` the word beside the options (`specs/WordFaults`). `answer_other_words` reports
//! the fault and how to ask for the usage, or prints the version (`specs/UsageReport`, `faults_name_words`: `specs/NamedWords`);
//! `answer_words` also answers calls for help and says what to type (`specs/Hints`, `hints_are_nearest`:
//! `specs/NearWords`). `sorting` separates options from the words beside them (`specs/SortedWords`); `sorted_command`
//! puts a subcommand first, and `long_words` replaces short names of options (`specs/Commands`).
#![tactic(auto)]

mod commands;
mod faults;
mod hints;
mod job_values;
mod known_words;
mod laws;
mod lists;
mod name_lists;
mod option_row;
mod option_values;
mod other_words;
mod scaled;
mod sorting;
mod usage;
mod version;
mod word_fault;

pub use commands::{Names, ShortName, command_of, long_words, sorted_command};
pub use faults::{first_fault, word_beside};
pub use hints::nearest;
pub use job_values::{base_of, clock_sharing_of, declare_by_of, start_of};
pub use known_words::KnownWords;
pub use laws::{faults_name_words, hints_are_nearest};
pub use lists::buffer_list;
pub use name_lists::{name_list, network_in};
pub use option_row::{OptionRow, Row, ValueKind};
pub use option_values::{given_options, number_if, number_of, numbers_of, subcommand};
pub use other_words::{answer_other_words, answer_words};
pub use scaled::{Scale, scaled_in};
pub use sorting::{are_taken, name_words, option_words, push_words, value_given, words_without};
pub use word_fault::{Reason, WordFault};
