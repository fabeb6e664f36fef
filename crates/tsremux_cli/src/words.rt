//! What the words of the command line ask for.
ghost use Rattle.std.specs.Prelude.{◌≡◌, IfOk, is_some, map, option_map};
ghost use Rattle.std.specs.List.{list_any};
ghost use Rattle.std.specs.Str.{bytes_eq};
ghost use Rattle.std.specs.Prelude.{codes};
ghost use Rattle.tsjob_cli.specs.FileWords as filed;
ghost use Rattle.tsremux_cli.specs.Words as spec;
ghost use Rattle.word_faults.specs.KnownWords.{known_of};
ghost use Rattle.word_faults.specs.SortedWords as sorting;

use crate::options::{hand_words, known_words};
use std::alloc::{AllocError, Global};
use tsjob_cli::{SHORT_NAMES, option_words, words_but_output};
use word_faults::{KnownWords, are_taken, long_words, push_words, sorted_command, value_given};

// Returns the value of an option.
fn value_of<'a>(option: &str, words: &[&'a str]) -> Option<&'a str>
    ensures { option_map (λ s. s.now) result
        ≡ sorting.value_given option.now (filed.option_words (map (λ s. s.now) words.now)) }
{
    value_given(option, option_words(words))
}

// Returns whether an option has a value.
fn is_given(option: &str, words: &[&str]) -> bool
    ensures { result
        ≡ is_some (sorting.value_given option.now (filed.option_words (map (λ s. s.now) words.now))) }
{
    match value_of(option, words) {
        Some(_) => true,
        None => false,
    }
}

/// Returns the file of the description of a service by hand.
pub(crate) fn description_of<'a>(words: &[&'a str]) -> Option<&'a str>
    ensures { option_map (λ s. s.now) result ≡ spec.description_of (map (λ s. s.now) words.now) }
{
    value_of("--description", words)
}

/// Returns the file of its plan.
pub(crate) fn plan_of<'a>(words: &[&'a str]) -> Option<&'a str>
    ensures { option_map (λ s. s.now) result ≡ spec.plan_of (map (λ s. s.now) words.now) }
{
    value_of("--plan", words)
}

/// Returns the file of its records; `None` if they are the input.
pub(crate) fn records_of<'a>(words: &[&'a str]) -> Option<&'a str>
    ensures { option_map (λ s. s.now) result ≡ spec.records_of (map (λ s. s.now) words.now) }
{
    match value_of("--records", words) {
        Some("-") => None,
        name => name,
    }
}

// Returns whether words ask for a service by hand.
fn is_by_hand(words: &[&str]) -> bool
    ensures { result ≡ spec.is_by_hand (map (λ s. s.now) words.now) }
{
    is_given("--description", words) || is_given("--plan", words) || is_given("--records", words)
}

/// Returns what the program knows of these words.
pub(crate) fn known_for(words: &[&str]) -> KnownWords
    ensures { known_of result ≡ spec.known_for (map (λ s. s.now) words.now) }
{
    if is_by_hand(words) {
        hand_words()
    } else {
        known_words()
    }
}

/// Returns words with long names of options. The words for a service by hand keep their order; otherwise the options
/// come first, each with its value, then the names of files after `--`.
pub(crate) fn sorted_words<'a>(alloc: Global, words: &[&'a str]) -> Result<Vec<&'a str>, AllocError>
    ensures { IfOk result (λ sorted. map (λ s. s.now) sorted.items ≡ spec.sorted_words (map (λ s. s.now) words.now)) }
{
    let long = long_words(alloc, &SHORT_NAMES, words)?;
    if is_by_hand(&long) {
        return Ok(long);
    }
    sorted_command(alloc, known_words(), &long)
}

/// Returns whether each of the sorted words can be taken, and the version is not asked for.
pub(crate) fn all_taken(alloc: Global, words: &[&str]) -> Result<bool, AllocError>
    ensures { IfOk result (λ b. b ≡ spec.are_taken (map (λ s. s.now) words.now)) }
{
    are_taken(alloc, known_for(words), words)
}

/// Returns the words for `tsjob`, of sorted words; all words of a service by hand.
pub(crate) fn job_words<'a>(alloc: Global, words: &[&'a str]) -> Result<Vec<&'a str>, AllocError>
    ensures { IfOk result (λ job. map (λ s. s.now) job.items ≡ spec.job_words (map (λ s. s.now) words.now)) }
{
    let mut job = Vec::new(alloc);
    if is_by_hand(words) {
        push_words(&mut job, words)?;
        return Ok(job);
    }
    let left = words_but_output(alloc, words)?;
    job.push("--whole")?;
    push_words(&mut job, &left)?;
    Ok(job)
}

fn have_quiet(words: &[&str]) -> bool
    ensures { result ≡ list_any (λ word. bytes_eq word.now (codes "--quiet")) words.now }
{
    words.iter().any(|word| *word == "--quiet")
}

/// Returns whether only refusals are reported.
pub(crate) fn is_quiet(words: &[&str]) -> bool
    ensures { result ≡ spec.is_quiet (map (λ s. s.now) words.now) }
{
    have_quiet(option_words(words))
}
