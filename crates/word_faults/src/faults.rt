//! The first word that cannot be taken.
ghost use Rattle.std.specs.Prelude.{◌≡◌, IfOk, [], false, map, option_map};
ghost use Rattle.word_faults.specs.KnownWords.{known_of};
ghost use Rattle.word_faults.specs.WordFaults as spec;

use crate::known_words::KnownWords;
use crate::word_fault::{Reason, WordFault};
use std::alloc::{AllocError, Global};

/// Returns whether a word is a hyphen, and something after it.
pub(crate) fn is_dashed(word: &str) -> bool
    ensures { result ≡ spec.is_dashed word.now }
{
    match word.as_bytes() {
        [first, _, ..] => *first == b'-',
        _ => false,
    }
}

/// Returns the option of a word, and its value after `=`, if it has one.
pub(crate) fn split_word(word: &str) -> (&str, Option<&str>)
    ensures option { result.0.now ≡ spec.option_in word.now }
    ensures value { option_map (λ s. s.now) result.1 ≡ spec.value_in word.now }
{
    match word.split_once('=') {
        Some((option, value)) => (option, Some(value)),
        None => (word, None),
    }
}

// Returns whether a word asks for help.
fn is_help(word: &str) -> bool
    ensures { result ≡ spec.is_help word.now }
{
    word == "--help" || word == "-h"
}

/// Returns whether a word is this option.
pub(crate) fn is_option(option: &str, word: &str) -> bool
    ensures { result ≡ spec.is_option option.now word.now }
{
    is_dashed(word) && split_word(word).0 == option
}

// Returns whether an option is among words.
fn is_given(option: &str, words: &[&str]) -> bool
    ensures { result ≡ spec.is_given option.now (map (λ s. s.now) words.now) }
{
    for word in words {
        if is_option(option, word) {
            return true;
        }
    }
    false
}

// Returns why the words after an option are not its value.
fn next_reason(
    alloc: Global,
    known: KnownWords,
    option: &str,
    rest: &[&str],
) -> Result<Option<Reason>, AllocError>
    ensures { IfOk result (λ r. r ≡ spec.next_reason (known_of known) option.now (map (λ s. s.now) rest.now)) }
{
    let Some(value) = rest.first() else {
        return Ok(Some(Reason::NoValue));
    };
    if is_dashed(value) {
        return Ok(Some(Reason::NoValue));
    }
    if known.reads(alloc, option, value)? {
        Ok(None)
    } else {
        Ok(Some(Reason::BadNextWord))
    }
}

// Returns why an option that takes a value has none.
fn value_reason(
    alloc: Global,
    known: KnownWords,
    option: &str,
    value: Option<&str>,
    rest: &[&str],
) -> Result<Option<Reason>, AllocError>
    ensures { IfOk result (λ r. r ≡ spec.value_reason (known_of known) option.now
        (option_map (λ s. s.now) value.entry) (map (λ s. s.now) rest.now)) }
{
    let Some(value) = value else {
        return next_reason(alloc, known, option, rest);
    };
    if known.reads(alloc, option, value)? {
        Ok(None)
    } else {
        Ok(Some(Reason::BadValue))
    }
}

// Returns why an option that is known cannot be taken.
fn known_reason(
    alloc: Global,
    known: KnownWords,
    takes_value: bool,
    option: &str,
    value: Option<&str>,
    rest: &[&str],
) -> Result<Option<Reason>, AllocError>
    ensures { IfOk result (λ r. r ≡ spec.known_reason (known_of known) takes_value option.now
        (option_map (λ s. s.now) value.entry) (map (λ s. s.now) rest.now)) }
{
    if takes_value {
        return value_reason(alloc, known, option, value, rest);
    }
    match value {
        Some(_) => Ok(Some(Reason::BadValue)),
        None => Ok(None),
    }
}

// Returns why an option cannot be taken.
fn option_reason(
    alloc: Global,
    known: KnownWords,
    before: &[&str],
    word: &str,
    rest: &[&str],
) -> Result<Option<Reason>, AllocError>
    ensures { IfOk result (λ r. r ≡ spec.option_reason (known_of known)
        ((known_of known).takes_value (spec.option_in word.now)) (map (λ s. s.now) before.now)
        (spec.option_in word.now) (spec.value_in word.now) (map (λ s. s.now) rest.now)) }
{
    let (option, value) = split_word(word);
    match known.takes_value(option) {
        None => Ok(Some(Reason::Unknown)),
        Some(_) if is_given(option, before) => Ok(Some(Reason::Twice)),
        Some(_) if is_given(known.apart(option), before) => Ok(Some(Reason::Apart)),
        Some(takes_value) => known_reason(alloc, known, takes_value, option, value, rest),
    }
}

// Returns whether a word allows no other word.
fn is_alone(known: KnownWords, word: &str) -> bool
    ensures { result ≡ spec.is_alone (known_of known) word.now }
{
    word == "--version" || known.must_be_alone(word)
}

// Returns why a word that allows no other word cannot be taken.
fn alone_reason(before: &[&str], rest: &[&str]) -> Option<Reason>
    ensures { result ≡ spec.alone_reason (map (λ s. s.now) before.now) (map (λ s. s.now) rest.now) }
{
    if before.is_empty() && rest.is_empty() {
        None
    } else {
        Some(Reason::Alone)
    }
}

/// Returns whether the words after a word are names of files.
pub(crate) fn is_file_mark(known: KnownWords, word: &str) -> bool
    ensures { result ≡ spec.is_file_mark (known_of known) word.now }
{
    word == "--" && known.is_word(word)
}

// Returns why the words after a word are no names of files.
fn files_reason(rest: &[&str]) -> Option<Reason>
    ensures { result ≡ spec.files_reason (map (λ s. s.now) rest.now) }
{
    if rest.is_empty() {
        Some(Reason::NoValue)
    } else {
        None
    }
}

// Returns why a word that is no value cannot be taken.
fn reason_at(
    alloc: Global,
    known: KnownWords,
    has_word: bool,
    before: &[&str],
    word: &str,
    rest: &[&str],
) -> Result<Option<Reason>, AllocError>
    ensures { IfOk result (λ r. r ≡ spec.reason_at (known_of known) has_word (map (λ s. s.now) before.now)
        word.now (map (λ s. s.now) rest.now)) }
{
    if is_help(word) {
        Ok(Some(Reason::Help))
    } else if is_alone(known, word) {
        Ok(alone_reason(before, rest))
    } else if is_file_mark(known, word) {
        Ok(files_reason(rest))
    } else if is_dashed(word) {
        option_reason(alloc, known, before, word, rest)
    } else if known.is_word(word) && !has_word {
        Ok(None)
    } else {
        Ok(Some(Reason::Unknown))
    }
}

/// Returns whether a value is to come after a word.
pub(crate) fn wants_value(known: KnownWords, word: &str) -> bool
    ensures { result ≡ spec.wants_value (known_of known) word.now }
{
    if !is_dashed(word) {
        return false;
    }
    let (option, value) = split_word(word);
    known.takes_value(option) == Some(true) && value.is_none()
}

// Returns the first word that cannot be taken.
#[tactic(auto, unfolding(crate::specs::WordFaults::fault_from))]
fn first_word(
    alloc: Global,
    known: KnownWords,
    words: &[&str],
) -> Result<Option<WordFault>, AllocError>
    ensures { IfOk result (λ r. r
        ≡ spec.fault_from (known_of known) [] false false (map (λ s. s.now) words.now)) }
{
    let (mut has_word, mut is_value) = (false, false);
    for place in 0..words.len() {
        let word = words[place];
        if is_value {
            is_value = false;
        } else {
            let (before, rest) = (&words[..place], &words[place + 1..]);
            if let Some(reason) = reason_at(alloc, known, has_word, before, word, rest)? {
                return Ok(Some(WordFault { place, reason }));
            }
            if is_file_mark(known, word) {
                return Ok(None);
            }
            has_word = has_word || !is_dashed(word);
            is_value = wants_value(known, word);
        }
    }
    Ok(None)
}

// Returns the fault of a required option that is not given.
fn missing(required: Option<&str>, words: &[&str]) -> Option<WordFault>
    ensures { result ≡ spec.missing (option_map (λ s. s.now) required.entry) (map (λ s. s.now) words.now) }
{
    let option = required?;
    if is_given(option, words) {
        return None;
    }
    Some(WordFault {
        place: words.len(),
        reason: Reason::Missing,
    })
}

/// Returns the first word that cannot be taken, and why.
pub fn first_fault(
    alloc: Global,
    known: KnownWords,
    words: &[&str],
) -> Result<Option<WordFault>, AllocError>
    ensures { IfOk result (λ r. r ≡ spec.first_fault (known_of known) (map (λ s. s.now) words.now)) }
{
    match first_word(alloc, known, words)? {
        Some(fault) => Ok(Some(fault)),
        None => Ok(missing(known.required, words)),
    }
}

/// Returns the first word that is neither an option nor a value, nor the name of a file.
#[tactic(auto, unfolding(crate::specs::WordFaults::word_from))]
pub fn word_beside<'a>(known: KnownWords, words: &[&'a str]) -> Option<&'a str>
    ensures { option_map (λ s. s.now) result ≡ spec.word_beside (known_of known) (map (λ s. s.now) words.now) }
{
    let mut is_value = false;
    for place in 0..words.len() {
        let word = words[place];
        if is_value {
            is_value = false;
        } else {
            if is_file_mark(known, word) {
                return None;
            }
            if !is_dashed(word) {
                return Some(word);
            }
            is_value = wants_value(known, word);
        }
    }
    None
}
