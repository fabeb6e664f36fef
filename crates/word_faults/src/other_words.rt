//! Words that ask for nothing that the program does.
ghost use Rattle.std.specs.Prelude.{◌≡◌, ◌++◌, ◌⊎◌, true, false, map};
ghost use Rattle.devices.specs.Devices.{Device, IsUntouched, writes};
ghost use Rattle.devices.specs.Runs.{LacksMemory};
ghost use Rattle.devices.specs.Usage.{ReportsUsage};
ghost use Rattle.word_faults.specs.KnownWords.{known_of};
ghost use Rattle.word_faults.specs.UsageReport as spec;

use crate::faults::first_fault;
use crate::known_words::KnownWords;
use crate::usage::{hinted_report, usage_report};
use crate::version::{asks_version, is_version, print_text, print_version};
use crate::word_fault::{Reason, WordFault};
use counted_io::Sink;
use devices::{Halt, report_halt, report_text};
use std::alloc::Global;

// Reports the first word that cannot be taken and how to ask for the usage, and returns the status.
fn report_words<E: Sink>(
    alloc: Global,
    program: &str,
    known: KnownWords,
    words: &[&str],
    usage: &str,
    faults: &mut E,
) -> u8
    ensures { (input output : Device) → IsUntouched input → IsUntouched output →
        ReportsUsage (spec.usage_report program.now (known_of known) (map (λ s. s.now) words.now) usage.now) input output
        (writes E.Sink faults.old faults.new) result
        ⊎ LacksMemory input output (writes E.Sink faults.old faults.new) result }
{
    match usage_report(alloc, program, known, words, usage) {
        Ok(text) => {
            report_text(faults, text.as_str());
            2
        }
        Err(_) => report_halt(faults, Halt::Memory),
    }
}

/// Answers words that ask for none of the program's work, and returns the status: `--version` alone prints the program
/// of this name, its version and its kit; otherwise it reports the first word that cannot be taken and how to ask for
/// the usage, or, if no word is at fault or one asks for it, the usage.
pub fn answer_other_words<W: Sink, E: Sink>(
    alloc: Global,
    program: &str,
    known: KnownWords,
    words: &[&str],
    usage: &str,
    output: &mut W,
    faults: &mut E,
) -> u8
    ensures version { (input : Device) → IsUntouched input → spec.is_version (map (λ s. s.now) words.now) ≡ true →
        spec.Prints (spec.version_text program.now) input (writes W.Sink output.old output.new)
        (writes E.Sink faults.old faults.new) result }
    ensures usage { (input : Device) → IsUntouched input → spec.is_version (map (λ s. s.now) words.now) ≡ false →
        ReportsUsage (spec.usage_report program.now (known_of known) (map (λ s. s.now) words.now) usage.now) input
        (writes W.Sink output.old output.new) (writes E.Sink faults.old faults.new) result
        ⊎ LacksMemory input (writes W.Sink output.old output.new) (writes E.Sink faults.old faults.new) result }
{
    if is_version(words) {
        print_version(alloc, program, output, faults)
    } else {
        report_words(alloc, program, known, words, usage, faults)
    }
}

// Reports a word that cannot be taken, what to type instead, and how to ask for the usage; returns the status.
fn report_hinted<E: Sink>(
    alloc: Global,
    program: &str,
    known: KnownWords,
    words: &[&str],
    fault: Option<WordFault>,
    usage: &str,
    faults: &mut E,
) -> u8
    ensures { (input output : Device) → IsUntouched input → IsUntouched output →
        ReportsUsage (spec.fault_line (known_of known) (map (λ s. s.now) words.now) fault
        ++ (spec.hint_line (known_of known) (map (λ s. s.now) words.now) fault
        ++ spec.more_text program.now usage.now fault)) input output (writes E.Sink faults.old faults.new) result
        ⊎ LacksMemory input output (writes E.Sink faults.old faults.new) result }
{
    let Ok(text) = hinted_report(alloc, program, known, words, fault, usage) else {
        return report_halt(faults, Halt::Memory);
    };
    report_text(faults, text.as_str());
    2
}

/// Answers the words of a program that people type, which ask for none of its work, and returns the status: `--version`
/// or `-V` alone prints the program of this name, its version and its kit; if the first word that cannot be taken asks
/// for help, it prints the usage; otherwise it reports that word, what to type instead, and how to ask for the usage.
pub fn answer_words<W: Sink, E: Sink>(
    alloc: Global,
    program: &str,
    known: KnownWords,
    words: &[&str],
    usage: &str,
    output: &mut W,
    faults: &mut E,
) -> u8
    ensures { (input : Device) → IsUntouched input →
        spec.AnswersWords program.now (known_of known) (map (λ s. s.now) words.now) usage.now input
        (writes W.Sink output.old output.new) (writes E.Sink faults.old faults.new) result }
{
    if asks_version(words) {
        return print_version(alloc, program, output, faults);
    }
    match first_fault(alloc, known, words) {
        Ok(fault) if is_help(fault) => print_text(usage, output, faults),
        Ok(fault) => report_hinted(alloc, program, known, words, fault, usage, faults),
        Err(_) => report_halt(faults, Halt::Memory),
    }
}

// Returns whether a word that cannot be taken asks for help.
fn is_help(fault: Option<WordFault>) -> bool
    ensures { result ≡ spec.is_help_fault fault }
{
    match fault {
        Some(
            WordFault {
                reason: Reason::Help,
                ..
            },
        ) => true,
        _ => false,
    }
}
