//! What to type in place of a word that cannot be taken: what an option takes, or the word that may be meant.
ghost use Rattle.std.specs.Prelude.{◌≡◌, ◌++◌, IfOk, OnOk, codes, map, option_map, string_bytes};
ghost use Rattle.devices.specs.Usage.{range_text};
ghost use Rattle.word_faults.specs.JobValues.{greatest_base};
ghost use Rattle.word_faults.specs.Hints as spec;
ghost use Rattle.word_faults.specs.KnownWords.{meant_words, word_of};
ghost use Rattle.word_faults.specs.OptionRows.{view};

use crate::option_row::{OptionRow, ValueKind, row_of};
use std::alloc::{AllocError, Global};
use std::fmt::Write;
use strsim::osa_distance;

// Appends a range.
fn write_range(text: &mut String, least: u64, greatest: u64) -> Result<(), AllocError>
    ensures { OnOk result (string_bytes text.new ≡ string_bytes text.old ++ range_text least greatest) }
{
    write!(text, "{least}..{greatest}")
}

// Appends the form of a list, and the range of each number of it.
fn write_list(text: &mut String, form: &str, greatest: u16) -> Result<(), AllocError>
    ensures { OnOk result (string_bytes text.new
        ≡ string_bytes text.old ++ (codes " " ++ (form.now ++ (codes ", each " ++ range_text 0 greatest)))) }
{
    write!(text, " {form}, each ")?;
    write_range(text, 0, greatest as u64)
}

// Appends the values of the base of a clock.
fn write_base(text: &mut String) -> Result<(), AllocError>
    ensures { OnOk result (string_bytes text.new
        ≡ string_bytes text.old ++ (codes " " ++ (range_text 0 greatest_base ++ codes "|input"))) }
{
    text.push_str(" ")?;
    write_range(text, 0, 8_589_934_591)?;
    text.push_str("|input")
}

// Appends the value of an option, after a space.
#[tactic(auto, unfolding(crate::specs::Hints::taken_text))]
fn write_value(text: &mut String, kind: ValueKind, form: &str) -> Result<(), AllocError>
    ensures { OnOk result (string_bytes text.new ≡ string_bytes text.old ++ spec.taken_text kind form.now) }
{
    match kind {
        ValueKind::Flag | ValueKind::Alone | ValueKind::Word => text.push_str(" no value"),
        ValueKind::Number {
            least,
            greatest,
            ..
        } if form.is_empty() => write!(text, " {least}..{greatest}"),
        ValueKind::Scaled {
            least,
            greatest,
            ..
        } if form.is_empty() => write!(text, " {least}..{greatest}"),
        ValueKind::Numbers { greatest } => write_list(text, form, greatest),
        ValueKind::Base => write_base(text),
        _ => write!(text, " {form}"),
    }
}

// Appends the unit of numbers, and the end of the line.
#[tactic(auto, unfolding(crate::specs::Hints::unit_text))]
fn write_unit(text: &mut String, unit: &str) -> Result<(), AllocError>
    ensures { OnOk result (string_bytes text.new ≡ string_bytes text.old ++ spec.unit_text unit.now) }
{
    if unit.is_empty() {
        text.push_str("\n")
    } else {
        write!(text, ", in {unit}\n")
    }
}

/// Appends the line that says what the option of a word takes; nothing if there is no such option.
#[tactic(auto, unfolding(crate::specs::Hints::takes_by))]
pub(crate) fn write_takes(
    text: &mut String,
    options: &[OptionRow],
    word: &str,
) -> Result<(), AllocError>
    ensures { OnOk result (string_bytes text.new
        ≡ string_bytes text.old ++ spec.takes_line (map view options.now) word.now) }
{
    let Some(row) = row_of(options, word) else {
        return Ok(());
    };
    write!(text, "{word} takes")?;
    write_value(text, row.value, row.form)?;
    write_unit(text, row.unit)
}

// Returns how many edits turn a word into another.
fn edits_of(alloc: Global, word: &str, other: &str) -> Result<usize, AllocError>
    ensures { IfOk result (λ n. n ≡ spec.edits_of word.now other.now) }
{
    osa_distance(alloc, word, other)
}

// Returns the nearer of two words, the first word if both are as near.
#[tactic(auto, unfolding(crate::specs::Hints::nearer))]
fn nearer<'a>(
    alloc: Global,
    word: &str,
    best: Option<&'a str>,
    other: &'a str,
) -> Result<Option<&'a str>, AllocError>
    ensures { IfOk result (λ r. option_map (λ s. s.now) r
        ≡ spec.nearer word.now (option_map (λ s. s.now) best.entry) other.entry.now) }
{
    let edits = edits_of(alloc, word, other)?;
    let Some(best) = best else {
        return Ok(if edits <= word.len() / 3 {
            Some(other)
        } else {
            None
        });
    };
    let fewest = edits_of(alloc, word, best)?;
    Ok(Some(if edits < fewest { other } else { best }))
}

/// Returns the nearest word, if one is near.
#[tactic(auto, unfolding(crate::specs::Hints::nearest_from))]
pub fn nearest<'a>(
    alloc: Global,
    others: &'a [String],
    word: &str,
) -> Result<Option<&'a str>, AllocError>
    ensures { IfOk result (λ r. option_map (λ s. s.now) r
        ≡ spec.nearest (map (λ s. string_bytes s) others.now) word.now) }
{
    let mut best = None;
    for other in others {
        best = nearer(alloc, word, best, other.as_str())?;
    }
    Ok(best)
}

// Appends the line with a word that may be meant, or with the name of a file.
#[tactic(auto, unfolding(crate::specs::Hints::meant_line))]
fn write_meant(
    text: &mut String,
    near: Option<&str>,
    files: bool,
    word: &str,
) -> Result<(), AllocError>
    ensures { OnOk result (string_bytes text.new ≡ string_bytes text.old
        ++ spec.meant_line (option_map (λ s. s.now) near.entry) files word.now) }
{
    match near {
        Some(other) => write!(text, "did you mean {other}?\n"),
        None if files => write!(text, "did you mean -- {word}?\n"),
        None => Ok(()),
    }
}

/// Appends the line with the word nearest to the unknown word, if one is near; otherwise with the unknown word as the
/// name of a file, if it may be.
pub(crate) fn write_nearest(
    alloc: Global,
    text: &mut String,
    others: &[String],
    files: bool,
    word: &str,
) -> Result<(), AllocError>
    ensures { OnOk result (string_bytes text.new ≡ string_bytes text.old
        ++ spec.meant_line (spec.nearest (map (λ s. string_bytes s) others.now) word.now) files word.now) }
{
    let near = nearest(alloc, others, word)?;
    write_meant(text, near, files, word)
}

// Returns a word after these characters.
fn word_after(alloc: Global, front: &str, word: &str) -> Result<String, AllocError>
    ensures { IfOk result (λ s. string_bytes s ≡ front.now ++ word.now) }
{
    let mut text = String::new(alloc);
    text.push_str(front)?;
    text.push_str(word)?;
    Ok(text)
}

// Appends the word of an option, unless it is this option.
#[tactic(auto, unfolding(crate::specs::KnownWords::word_by))]
fn push_option(
    alloc: Global,
    words: &mut Vec<String>,
    barred: Option<&'static str>,
    row: OptionRow,
) -> Result<(), AllocError>
    ensures { OnOk result (map (λ s. string_bytes s) words.new.items
        ≡ map (λ s. string_bytes s) words.old.items
        ++ word_of (option_map (λ s. s.now) barred.entry) (view row.entry)) }
{
    if let ValueKind::Word = row.value {
        return Ok(());
    }
    let word = word_after(alloc, "--", row.name)?;
    match barred {
        Some(barred) if barred == word.as_str() => {}
        _ => words.push(word)?,
    }
    Ok(())
}

// Appends copies of words.
fn push_copies(alloc: Global, words: &mut Vec<String>, others: &[&str]) -> Result<(), AllocError>
    ensures { OnOk result (map (λ s. string_bytes s) words.new.items
        ≡ map (λ s. string_bytes s) words.old.items ++ map (λ s. s.now) others.now) }
{
    for other in others {
        words.push(word_after(alloc, "", other)?)?;
    }
    Ok(())
}

/// Returns the words that may be meant: the options except the barred one, the words beside options, and the words that
/// take no other.
#[tactic(auto, unfolding(crate::specs::KnownWords::meant_words))]
pub(crate) fn meant_words(
    alloc: Global,
    barred: Option<&'static str>,
    options: &[OptionRow],
    words: &[&str],
    alone: &[&str],
) -> Result<Vec<String>, AllocError>
    ensures { IfOk result (λ all. map (λ s. string_bytes s) all.items
        ≡ meant_words (option_map (λ s. s.now) barred.entry) (map view options.now) (map (λ s. s.now) words.now)
        (map (λ s. s.now) alone.now)) }
{
    let mut all = Vec::new(alloc);
    for row in options {
        push_option(alloc, &mut all, barred, *row)?;
    }
    push_copies(alloc, &mut all, words)?;
    push_copies(alloc, &mut all, alone)?;
    Ok(all)
}
