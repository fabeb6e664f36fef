//! The words of a command line, sorted: options with their values, and words beside them.
ghost use Rattle.std.specs.Prelude.{◌≡◌, ◌++◌, IfOk, OnOk, map, option_map};
ghost use Rattle.word_faults.specs.KnownWords.{known_of};
ghost use Rattle.word_faults.specs.SortedWords as spec;

use crate::faults::{first_fault, is_dashed, is_file_mark, is_option, split_word, wants_value};
use crate::known_words::KnownWords;
use crate::version::asks_version;
use std::alloc::{AllocError, Global};

/// Returns the options before `--`, each with its value.
#[tactic(auto, unfolding(crate::specs::SortedWords::options_from))]
pub fn option_words<'a>(
    alloc: Global,
    known: KnownWords,
    words: &[&'a str],
) -> Result<Vec<&'a str>, AllocError>
    ensures { IfOk result (λ found. map (λ s. s.now) found.items
        ≡ spec.option_words (known_of known) (map (λ s. s.now) words.now)) }
{
    let mut found = Vec::new(alloc);
    let mut is_value = false;
    for place in 0..words.len() {
        let word = words[place];
        if is_value {
            found.push(word)?;
            is_value = false;
        } else {
            if is_file_mark(known, word) {
                return Ok(found);
            }
            is_value = wants_value(known, word);
            if is_dashed(word) {
                found.push(word)?;
            }
        }
    }
    Ok(found)
}

/// Appends words.
pub fn push_words<'a>(found: &mut Vec<&'a str>, words: &[&'a str]) -> Result<(), AllocError>
    ensures { OnOk result (map (λ s. s.now) found.new.items
        ≡ map (λ s. s.now) found.old.items ++ map (λ s. s.now) words.now) }
{
    for word in words {
        found.push(*word)?;
    }
    Ok(())
}

/// Returns the words beside the options, and all words after `--`.
#[tactic(auto, unfolding(crate::specs::SortedWords::names_from))]
pub fn name_words<'a>(
    alloc: Global,
    known: KnownWords,
    words: &[&'a str],
) -> Result<Vec<&'a str>, AllocError>
    ensures { IfOk result (λ found. map (λ s. s.now) found.items
        ≡ spec.name_words (known_of known) (map (λ s. s.now) words.now)) }
{
    let mut found = Vec::new(alloc);
    let mut is_value = false;
    for place in 0..words.len() {
        let word = words[place];
        if is_value {
            is_value = false;
        } else {
            if is_file_mark(known, word) {
                push_words(&mut found, &words[place + 1..])?;
                return Ok(found);
            }
            is_value = wants_value(known, word);
            if !is_dashed(word) {
                found.push(word)?;
            }
        }
    }
    Ok(found)
}

// Returns whether the names of files are none, or `-` alone: then the stream is on standard input.
fn is_input(names: &[&str]) -> bool
    ensures { result ≡ spec.is_input (map (λ s. s.now) names.now) }
{
    match names {
        [] => true,
        [name] => *name == "-",
        _ => false,
    }
}

/// Appends names of files after `--`; nothing if the stream is on standard input.
pub(crate) fn push_marked<'a>(found: &mut Vec<&'a str>, names: &[&'a str]) -> Result<(), AllocError>
    ensures { OnOk result (map (λ s. s.now) found.new.items
        ≡ map (λ s. s.now) found.old.items ++ spec.marked (map (λ s. s.now) names.now)) }
{
    if is_input(names) {
        return Ok(());
    }
    found.push("--")?;
    push_words(found, names)
}

// Returns the value of an option: the value in its word, or the next word.
fn value_by<'a>(value: Option<&'a str>, rest: &[&'a str]) -> Option<&'a str>
    ensures { option_map (λ s. s.now) result
        ≡ spec.value_by (option_map (λ s. s.now) value.entry) (map (λ s. s.now) rest.now) }
{
    match value {
        Some(value) => Some(value),
        None => rest.first().copied(),
    }
}

/// Returns the value that is given to an option (`--NAME`) among options with their values.
#[tactic(auto, unfolding(crate::specs::SortedWords::value_given))]
pub fn value_given<'a>(option: &str, words: &[&'a str]) -> Option<&'a str>
    ensures { option_map (λ s. s.now) result ≡ spec.value_given option.now (map (λ s. s.now) words.now) }
{
    for place in 0..words.len() {
        let word = words[place];
        if is_option(option, word) {
            let (_, value) = split_word(word);
            return value_by(value, &words[place + 1..]);
        }
    }
    None
}

// Returns the words after an option and its value.
fn after_option<'w, 'a>(value: Option<&str>, rest: &'w [&'a str]) -> &'w [&'a str]
    ensures { map (λ s. s.now) result.now
        ≡ spec.after_option (option_map (λ s. s.now) value.entry) (map (λ s. s.now) rest.now) }
{
    match value {
        None if !rest.is_empty() => &rest[1..],
        _ => rest,
    }
}

/// Returns the words without an option (`--NAME`) and its value.
#[tactic(auto, unfolding(crate::specs::SortedWords::words_without))]
pub fn words_without<'a>(
    alloc: Global,
    option: &str,
    words: &[&'a str],
) -> Result<Vec<&'a str>, AllocError>
    ensures { IfOk result (λ left. map (λ s. s.now) left.items
        ≡ spec.words_without option.now (map (λ s. s.now) words.now)) }
{
    let mut left = Vec::new(alloc);
    for place in 0..words.len() {
        let word = words[place];
        if is_option(option, word) {
            let (_, value) = split_word(word);
            push_words(&mut left, after_option(value, &words[place + 1..]))?;
            return Ok(left);
        }
        left.push(word)?;
    }
    Ok(left)
}

/// Returns whether each word can be taken, and the version is not asked for.
pub fn are_taken(alloc: Global, known: KnownWords, words: &[&str]) -> Result<bool, AllocError>
    ensures { IfOk result (λ b. b ≡ spec.are_taken (known_of known) (map (λ s. s.now) words.now)) }
{
    let fault = first_fault(alloc, known, words)?;
    Ok(!asks_version(words) && fault.is_none())
}
