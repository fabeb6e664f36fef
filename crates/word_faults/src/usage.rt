//! The line of a fault, and the usage or how to ask for it.
ghost use Rattle.std.specs.Prelude.{◌≡◌, ◌+◌, ◌++◌, IfOk, OnOk, map, string_bytes};
ghost use Rattle.word_faults.specs.KnownWords.{known_of};
ghost use Rattle.word_faults.specs.UsageReport as spec;

use crate::faults::{first_fault, split_word};
use crate::known_words::KnownWords;
use crate::word_fault::{Reason, WordFault};
use std::alloc::{AllocError, Global};

// Returns the word at a place.
fn word_at<'a>(words: &[&'a str], place: usize) -> &'a str
    ensures { result.now ≡ spec.word_at (map (λ s. s.now) words.now) place }
{
    match words.get(place) {
        Some(word) => word,
        None => "",
    }
}

// Appends a word and the text after it.
fn write_pair(text: &mut String, word: &str, said: &str) -> Result<(), AllocError>
    ensures { OnOk result (string_bytes text.new ≡ string_bytes text.old ++ (word.now ++ said.now)) }
{
    text.push_str(word)?;
    text.push_str(said)
}

// Appends the line of a reason.
#[tactic(auto, unfolding(crate::specs::UsageReport::reason_line))]
fn write_reason(
    text: &mut String,
    reason: Reason,
    word: &str,
    next: &str,
    required: &str,
    other: &str,
) -> Result<(), AllocError>
    ensures { OnOk result (string_bytes text.new
        ≡ string_bytes text.old ++ spec.reason_line reason word.now next.now required.now other.now) }
{
    match reason {
        Reason::Unknown => write_pair(text, word, ": not known\n"),
        Reason::Twice => write_pair(text, word, ": given twice\n"),
        Reason::NoValue => write_pair(text, word, ": no value\n"),
        Reason::BadValue => write_pair(text, word, ": not a value of this option\n"),
        Reason::BadNextWord => {
            write_pair(text, word, " ")?;
            write_pair(text, next, ": not a value of this option\n")
        }
        Reason::Alone => write_pair(text, word, ": takes no options and no other word\n"),
        Reason::Apart => {
            write_pair(text, word, ": not beside ")?;
            write_pair(text, other, "\n")
        }
        Reason::Missing => write_pair(text, required, ": not given\n"),
        Reason::Help => Ok(()),
    }
}

// Appends the line of a fault.
#[tactic(auto, unfolding(crate::specs::UsageReport::fault_line))]
fn write_fault(
    text: &mut String,
    known: KnownWords,
    words: &[&str],
    fault: Option<WordFault>,
) -> Result<(), AllocError>
    ensures { OnOk result (string_bytes text.new
        ≡ string_bytes text.old ++ spec.fault_line (known_of known) (map (λ s. s.now) words.now) fault) }
{
    let Some(WordFault { place, reason }) = fault else {
        return Ok(());
    };
    let (word, next) = (
        word_at(words, place),
        word_at(words, place.saturating_add(1)),
    );
    let required = known.required.unwrap_or("");
    let (option, _) = split_word(word);
    write_reason(text, reason, word, next, required, known.apart(option))
}

// Returns whether a word is two hyphens and more, or a hyphen and one byte, as options are.
fn has_option_form(word: &str) -> bool
    ensures { result ≡ spec.has_option_form word.now }
{
    match word.as_bytes() {
        [first, second, rest @ ..] => *first == b'-' && (*second == b'-' || rest.is_empty()),
        _ => false,
    }
}

// Returns whether a word may be the name of a file after `--`.
fn names_files(known: KnownWords, word: &str) -> bool
    ensures { result ≡ spec.names_files (known_of known) word.now }
{
    known.is_word("--") && !has_option_form(word)
}

// Appends what to type instead of a word that cannot be taken.
#[tactic(auto, unfolding(crate::specs::UsageReport::hint_by))]
fn write_hint_by(
    alloc: Global,
    text: &mut String,
    known: KnownWords,
    reason: Reason,
    word: &str,
) -> Result<(), AllocError>
    ensures { OnOk result (string_bytes text.new
        ≡ string_bytes text.old ++ spec.hint_by (known_of known) reason word.now) }
{
    match reason {
        Reason::Unknown => known.write_near(alloc, text, names_files(known, word), word),
        Reason::NoValue | Reason::BadValue | Reason::BadNextWord => {
            known.write_takes(text, split_word(word).0)
        }
        Reason::Twice | Reason::Alone | Reason::Apart | Reason::Missing | Reason::Help => Ok(()),
    }
}

// Appends what to type instead of the first word that cannot be taken.
#[tactic(auto, unfolding(crate::specs::UsageReport::hint_line))]
fn write_hint(
    alloc: Global,
    text: &mut String,
    known: KnownWords,
    words: &[&str],
    fault: Option<WordFault>,
) -> Result<(), AllocError>
    ensures { OnOk result (string_bytes text.new
        ≡ string_bytes text.old ++ spec.hint_line (known_of known) (map (λ s. s.now) words.now) fault) }
{
    match fault {
        Some(fault) => write_hint_by(
            alloc,
            text,
            known,
            fault.reason,
            word_at(words, fault.place),
        ),
        None => Ok(()),
    }
}

// Returns whether a line names the fault: it does not if there is none, or if it is a call for help.
fn has_line(fault: Option<WordFault>) -> bool
    ensures { result ≡ spec.has_line fault }
{
    match fault {
        Some(
            WordFault {
                reason: Reason::Help,
                ..
            },
        ) => false,
        Some(_) => true,
        None => false,
    }
}

// Appends how to ask for the usage after the line of a fault; without such a line, the usage.
#[tactic(auto, unfolding(crate::specs::UsageReport::more_text))]
fn write_more(
    text: &mut String,
    program: &str,
    fault: Option<WordFault>,
    usage: &str,
) -> Result<(), AllocError>
    ensures { OnOk result (string_bytes text.new
        ≡ string_bytes text.old ++ spec.more_text program.now usage.now fault) }
{
    if has_line(fault) {
        text.push_str("usage: ")?;
        write_pair(text, program, " --help\n")
    } else {
        text.push_str(usage)
    }
}

/// Returns the line of a fault, what to type instead, and how to ask for the usage.
pub(crate) fn hinted_report(
    alloc: Global,
    program: &str,
    known: KnownWords,
    words: &[&str],
    fault: Option<WordFault>,
    usage: &str,
) -> Result<String, AllocError>
    ensures { IfOk result (λ text. string_bytes text
        ≡ spec.fault_line (known_of known) (map (λ s. s.now) words.now) fault
        ++ (spec.hint_line (known_of known) (map (λ s. s.now) words.now) fault
        ++ spec.more_text program.now usage.now fault)) }
{
    let mut text = String::new(alloc);
    write_fault(&mut text, known, words, fault)?;
    write_hint(alloc, &mut text, known, words, fault)?;
    write_more(&mut text, program, fault, usage)?;
    Ok(text)
}

/// Returns the line of the first word that cannot be taken, and how to ask for the usage; the usage, if no word is at
/// fault or one asks for it.
pub(crate) fn usage_report(
    alloc: Global,
    program: &str,
    known: KnownWords,
    words: &[&str],
    usage: &str,
) -> Result<String, AllocError>
    ensures { IfOk result (λ text. string_bytes text
        ≡ spec.usage_report program.now (known_of known) (map (λ s. s.now) words.now) usage.now) }
{
    let fault = first_fault(alloc, known, words)?;
    let mut text = String::new(alloc);
    write_fault(&mut text, known, words, fault)?;
    write_more(&mut text, program, fault, usage)?;
    Ok(text)
}
