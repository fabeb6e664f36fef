//! A word that cannot be taken, and why.

/// Why a word cannot be taken.
#[derive(Clone, Copy)]
pub enum Reason {
    /// The program does not know it.
    Unknown,
    /// The option is given twice.
    Twice,
    /// No value follows the option.
    NoValue,
    /// The option does not take the value after its `=` (`--NAME=VALUE`), or takes no value.
    BadValue,
    /// The option does not take the value that follows it.
    BadNextWord,
    /// The word allows no other word.
    Alone,
    /// It excludes an option that is given before it.
    Apart,
    /// The option that has to be given is not given.
    Missing,
    /// It asks for help.
    Help,
}

/// A word that cannot be taken.
#[derive(Clone, Copy)]
pub struct WordFault {
    /// Its place among the words, from 0; the number of words if a word is missing.
    pub place: usize,
    pub reason: Reason,
}
