//! Words that people type: short names of options, a subcommand, and names of files without `--` before them.
ghost use Rattle.std.specs.Prelude.{◌≡◌, ◌++◌, IfOk, OnOk, find, map, option_map};
ghost use Rattle.std.specs.Str.{bytes_eq};
ghost use Rattle.word_faults.specs.Commands as spec;
ghost use Rattle.word_faults.specs.SortedWords as sorted;
ghost use Rattle.word_faults.specs.KnownWords.{known_of};

use crate::faults::word_beside;
use crate::known_words::KnownWords;
use crate::sorting::{name_words, option_words, push_marked, push_words};
use std::alloc::{AllocError, Global};

/// The short name of an option, as a word, and its long name. It is generic in how these are held, as a row of a table
/// is.
#[derive(Clone, Copy)]
pub struct Names<Text> {
    /// The short name.
    pub short: Text,
    /// The long name.
    pub long: Text,
}

/// Both names in a constant.
pub type ShortName = Names<&'static str>;

// Returns the first short name that is this word.
fn short_of<'w>(shorts: &'w [ShortName], word: &str) -> Option<&'w ShortName>
    ensures { option_map (λ s. s.now) result ≡ find (λ s. bytes_eq s.short.now word.now) shorts.now }
{
    shorts.iter().find(|known| known.short == word)
}

// Returns the long name of an option that is given by its short one; other words stay as they are.
fn long_word<'a>(shorts: &[ShortName], word: &'a str) -> &'a str
    ensures { result.now ≡ spec.long_word (map spec.short_view shorts.now) word.entry.now }
{
    match short_of(shorts, word) {
        Some(known) => known.long,
        None => word,
    }
}

/// Returns the words, with long names of options in place of short ones before `--`.
#[tactic(auto, unfolding(crate::specs::Commands::long_words))]
pub fn long_words<'a>(
    alloc: Global,
    shorts: &[ShortName],
    words: &[&'a str],
) -> Result<Vec<&'a str>, AllocError>
    ensures { IfOk result (λ long. map (λ s. s.now) long.items
        ≡ spec.long_words (map spec.short_view shorts.now) (map (λ s. s.now) words.now)) }
{
    let mut long = Vec::new(alloc);
    for place in 0..words.len() {
        let word = words[place];
        if word == "--" {
            push_words(&mut long, &words[place..])?;
            return Ok(long);
        }
        long.push(long_word(shorts, word))?;
    }
    Ok(long)
}

/// Returns the subcommand: the first word beside the options, if the program knows it.
pub fn command_of<'a>(known: KnownWords, words: &[&'a str]) -> Option<&'a str>
    ensures { option_map (λ s. s.now) result ≡ spec.command_of (known_of known) (map (λ s. s.now) words.now) }
{
    match word_beside(known, words) {
        Some(word) if known.is_word(word) => Some(word),
        _ => None,
    }
}

// Returns the names after a subcommand, if there is one.
fn names_after<'w, 'a>(command: Option<&str>, names: &'w [&'a str]) -> &'w [&'a str]
    ensures { map (λ s. s.now) result.now
        ≡ spec.names_after (option_map (λ s. s.now) command.entry) (map (λ s. s.now) names.now) }
{
    match command {
        Some(_) if !names.is_empty() => &names[1..],
        _ => names,
    }
}

// Appends a subcommand, if there is one.
fn push_command<'a>(found: &mut Vec<&'a str>, command: Option<&'a str>) -> Result<(), AllocError>
    ensures { OnOk result (map (λ s. s.now) found.new.items
        ≡ map (λ s. s.now) found.old.items ++ spec.command_words (option_map (λ s. s.now) command.entry)) }
{
    match command {
        Some(command) => {
            found.push(command)?;
            Ok(())
        }
        None => Ok(()),
    }
}

// Appends the options, each with its value.
fn push_options<'a>(
    alloc: Global,
    known: KnownWords,
    words: &[&'a str],
    found: &mut Vec<&'a str>,
) -> Result<(), AllocError>
    ensures { OnOk result (map (λ s. s.now) found.new.items
        ≡ map (λ s. s.now) found.old.items ++ sorted.option_words (known_of known) (map (λ s. s.now) words.now)) }
{
    let options = option_words(alloc, known, words)?;
    push_words(found, &options)
}

// Appends the names of files after `--`: the words beside the options without the subcommand.
fn push_names<'a>(
    alloc: Global,
    known: KnownWords,
    words: &[&'a str],
    command: Option<&str>,
    found: &mut Vec<&'a str>,
) -> Result<(), AllocError>
    ensures { OnOk result (map (λ s. s.now) found.new.items
        ≡ map (λ s. s.now) found.old.items ++ sorted.marked (spec.names_after (option_map (λ s. s.now) command.entry)
        (sorted.name_words (known_of known) (map (λ s. s.now) words.now)))) }
{
    let names = name_words(alloc, known, words)?;
    push_marked(found, names_after(command, &names))
}

/// Returns the subcommand, then the options, each with its value, then the names of files after `--`; no names if the
/// stream is on standard input.
pub fn sorted_command<'a>(
    alloc: Global,
    known: KnownWords,
    words: &[&'a str],
) -> Result<Vec<&'a str>, AllocError>
    ensures { IfOk result (λ sorted. map (λ s. s.now) sorted.items
        ≡ spec.sorted_command (known_of known) (map (λ s. s.now) words.now)) }
{
    let command = command_of(known, words);
    let mut sorted = Vec::new(alloc);
    push_command(&mut sorted, command)?;
    push_options(alloc, known, words, &mut sorted)?;
    push_names(alloc, known, words, command, &mut sorted)?;
    Ok(sorted)
}
