//! Words after `--`: the names of files.

ghost use Rattle.std.specs.Prelude.{◌≡◌, IfOk, map};
ghost use Rattle.tsjob_cli.specs.FileWords as spec;

use crate::arguments::read_arguments;
use crate::file_mark::mark_place;
use job_run::JobArguments;
use std::alloc::{AllocError, Global};

/// Returns the words before the names of files.
pub fn option_words<'w, 'a>(words: &'w [&'a str]) -> &'w [&'a str]
    ensures { map (λ s. s.now) result.now ≡ spec.option_words (map (λ s. s.now) words.now) }
{
    let (options, _) = words.split_at(mark_place(words));
    options
}

/// Returns the names of files.
pub(crate) fn file_words<'w, 'a>(words: &'w [&'a str]) -> &'w [&'a str]
    ensures { map (λ s. s.now) result.now ≡ spec.file_words (map (λ s. s.now) words.now) }
{
    let place = mark_place(words);
    let begin = if place < words.len() {
        place + 1
    } else {
        place
    };
    let (_, names) = words.split_at(begin);
    names
}

// Returns the arguments, unless they name the file of a description.
#[tactic(auto, unfolding(crate::specs::FileWords::unless_streamed))]
fn unless_streamed(arguments: Option<JobArguments<'_>>) -> Option<JobArguments<'_>>
    ensures { result ≡ spec.unless_streamed arguments.entry }
{
    let arguments = arguments?;
    if arguments.stream.is_some() {
        None
    } else {
        Some(arguments)
    }
}

/// Returns what the words before the names ask for; `None` if they are a usage error, or no file is named.
#[tactic(auto, unfolding(crate::specs::FileWords::file_arguments))]
pub(crate) fn read_file_arguments<'a>(
    alloc: Global,
    words: &'a [&'a str],
) -> Result<Option<JobArguments<'a>>, AllocError>
    ensures { IfOk result (λ r. r ≡ spec.file_arguments (map (λ s. s.now) words.entry.now)) }
{
    if file_words(words).is_empty() {
        return Ok(None);
    }
    Ok(unless_streamed(read_arguments(alloc, option_words(words))?))
}
