//! What a program knows of its command line, by its table of options.
ghost use Rattle.std.specs.Prelude.{◌≡◌, ◌++◌, IfOk, OnOk, map, option_map, string_bytes};
ghost use Rattle.std.specs.List.{list_any};
ghost use Rattle.std.specs.Str.{bytes_eq};
ghost use Rattle.word_faults.specs.Hints as hints;
ghost use Rattle.word_faults.specs.KnownWords as spec;
ghost use Rattle.word_faults.specs.OptionRows.{is_alone, takes_value, reads, view};

use crate::hints::{meant_words, write_nearest, write_takes};
use crate::option_row::{OptionRow, ValueKind, apart_of, is_value, kind_of};
use std::alloc::{AllocError, Global};

/// What a program knows of its command line: its options, and words beside them.
#[derive(Clone, Copy)]
pub struct KnownWords {
    /// The options.
    pub options: &'static [OptionRow],
    /// The words that are allowed beside options; after `--`, if listed, come names of files.
    pub words: &'static [&'static str],
    /// Whether one more word is allowed beside the options: the name of a file.
    pub names: bool,
    /// The words that have no row in the table and allow no other word.
    pub alone: &'static [&'static str],
    /// The word of the option that has to be given.
    pub required: Option<&'static str>,
    /// The word of an option that these words exclude: it is treated as unknown.
    pub barred: Option<&'static str>,
}

// Returns whether a value follows an option of this kind; none if there is no such option.
fn takes_value(kind: Option<ValueKind>) -> Option<bool>
    ensures { result ≡ takes_value kind }
{
    match kind {
        None | Some(ValueKind::Alone | ValueKind::Word) => None,
        Some(ValueKind::Flag) => Some(false),
        Some(_) => Some(true),
    }
}

// Returns whether a text is a value of an option of this kind.
fn reads(alloc: Global, kind: Option<ValueKind>, text: &str) -> Result<bool, AllocError>
    ensures { IfOk result (λ b. b ≡ reads kind text.now) }
{
    match kind {
        None => Ok(false),
        Some(kind) => is_value(alloc, kind, text),
    }
}

// Returns whether a word allows no other word, by the table.
fn is_alone(kind: Option<ValueKind>) -> bool
    ensures { result ≡ is_alone kind }
{
    match kind {
        Some(ValueKind::Alone) => true,
        _ => false,
    }
}

fn is_one_of(words: &[&str], word: &str) -> bool
    ensures { result ≡ list_any (λ known. bytes_eq known.now word.now) words.now }
{
    words.iter().any(|known| *known == word)
}

// Returns whether a word is among `words`.
fn is_among(words: &[&str], word: &str) -> bool
    ensures { result ≡ spec.is_among (map (λ s. s.now) words.now) word.now }
{
    is_one_of(words, word)
}

// Returns whether a word may be the name of a file.
fn is_name(names: bool, word: &str) -> bool
    ensures { result ≡ spec.is_name names word.now }
{
    names && word != "--"
}

// Returns the value of the option of a word, unless it is this option.
fn kind_but(barred: Option<&'static str>, options: &[OptionRow], word: &str) -> Option<ValueKind>
    ensures { result
        ≡ spec.kind_but (option_map (λ s. s.now) barred.entry) (map view options.now) word.now }
{
    match barred {
        Some(barred) if barred == word => None,
        _ => kind_of(options, word),
    }
}

impl KnownWords {
    /// Returns whether a value follows the option of this word (`--NAME`); none if there is no such option.
    pub(crate) fn takes_value(self, option: &str) -> Option<bool>
        ensures { result ≡ (spec.known_of self).takes_value option.now }
    {
        takes_value(kind_but(self.barred, self.options, option))
    }

    /// Returns whether the option takes this value.
    pub(crate) fn reads(self, alloc: Global, option: &str, value: &str) -> Result<bool, AllocError>
        ensures { IfOk result (λ b. b ≡ (spec.known_of self).reads option.now value.now) }
    {
        reads(alloc, kind_but(self.barred, self.options, option), value)
    }

    /// Returns whether the word is allowed beside the options; for `--`, whether names of files may follow it.
    pub(crate) fn is_word(self, word: &str) -> bool
        ensures { result ≡ (spec.known_of self).is_word word.now }
    {
        is_name(self.names, word) || is_among(self.words, word)
    }

    /// Returns the word of the option that this option excludes; empty if there is none.
    pub(crate) fn apart(self, option: &str) -> &'static str
        ensures { result.now ≡ (spec.known_of self).apart option.now }
    {
        apart_of(self.options, option)
    }

    /// Appends the line that says what an option takes.
    pub(crate) fn write_takes(self, text: &mut String, option: &str) -> Result<(), AllocError>
        ensures { OnOk result (string_bytes text.new
            ≡ string_bytes text.old ++ (spec.known_of self).takes option.now) }
    {
        write_takes(text, self.options, option)
    }

    /// Appends the line with the known word that this word may mean, or with this word as the name of a file; nothing
    /// if neither applies.
    pub(crate) fn write_near(
        self,
        alloc: Global,
        text: &mut String,
        files: bool,
        word: &str,
    ) -> Result<(), AllocError>
        ensures { OnOk result (string_bytes text.new
            ≡ string_bytes text.old ++ hints.meant_line ((spec.known_of self).near word.now) files word.now) }
    {
        let words = meant_words(alloc, self.barred, self.options, self.words, self.alone)?;
        write_nearest(alloc, text, &words, files, word)
    }

    /// Returns whether the word allows no other word.
    pub(crate) fn must_be_alone(self, word: &str) -> bool
        ensures { result ≡ (spec.known_of self).must_be_alone word.now }
    {
        is_among(self.alone, word) || is_alone(kind_but(self.barred, self.options, word))
    }
}
