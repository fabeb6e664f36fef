//! The program for words as people type them: files without `--` before them, short names of options, a file that is
//! written.
ghost use Rattle.std.specs.Prelude.{◌≡◌, ◌⊎◌, IfOk, true, false, codes, map, option_map};
ghost use Rattle.devices.specs.Devices.{reads, writes};
ghost use Rattle.devices.specs.Files.{files_of};
ghost use Rattle.tsjob_cli.specs.Command as spec;
ghost use Rattle.tsjob_cli.specs.Options.{usage_text};
ghost use Rattle.word_faults.specs.KnownWords.{known_of};
ghost use Rattle.word_faults.specs.SortedWords.{are_taken};
ghost use Rattle.word_faults.specs.UsageReport.{AnswersWords};

use crate::explained_input::explain_files;
use crate::file_mark::mark_place;
use crate::file_words::{file_words, option_words};
use crate::made_job::{MadeJob, make_job};
use crate::next_texts::answer_next;
use crate::options::{explain_words, known_for, next_words, sorting_words, usage};
use crate::program::run;
use crate::streaming::{STREAM_TERMINAL, TERMINAL};
use counted_io::{Sink, Source};
use devices::{
    Halt, NamedFiles, OutputFiles, report_halt, report_text, report_uncreated, save_file,
};
use std::alloc::{AllocError, Global};
use word_faults::{
    KnownWords, ShortName, answer_words, are_taken, command_of, long_words, push_words,
    sorted_command, value_given, words_without,
};

/// The word of the option that names the file that is written.
pub const OUTPUT_WORD: &str = "--output";

// The word of the option that names the description of a running stream.
const STREAM_WORD: &str = "--stream";

/// The short names of options.
pub const SHORT_NAMES: [ShortName; 3] = [
    ShortName {
        short: "-o",
        long: "--output",
    },
    ShortName {
        short: "-q",
        long: "--quiet",
    },
    ShortName {
        short: "-v",
        long: "--verbose",
    },
];

// Returns whether these sorted words ask for an explanation.
fn is_explained(words: &[&str]) -> bool
    ensures { result ≡ spec.is_explained (map (λ s. s.now) words.now) }
{
    match command_of(sorting_words(), words) {
        Some("explain") => true,
        _ => false,
    }
}

// Returns whether these words ask about new texts.
fn is_next(words: &[&str]) -> bool
    ensures { result ≡ spec.is_next (map (λ s. s.now) words.now) }
{
    match command_of(sorting_words(), words) {
        Some("next") => true,
        _ => false,
    }
}

// Returns the options and words known before words with long names of options are sorted.
fn sorting_for(words: &[&str]) -> KnownWords
    ensures { known_of result ≡ spec.sorting_for (map (λ s. s.now) words.now) }
{
    if is_next(words) {
        next_words()
    } else {
        sorting_words()
    }
}

// Returns the words with long names of options: the subcommand, the options, then the names of files after `--`.
fn sorted_words<'a>(alloc: Global, words: &[&'a str]) -> Result<Vec<&'a str>, AllocError>
    ensures { IfOk result (λ sorted. map (λ s. s.now) sorted.items ≡ spec.sorted_words (map (λ s. s.now) words.now)) }
{
    let long = long_words(alloc, &SHORT_NAMES, words)?;
    sorted_command(alloc, sorting_for(&long), &long)
}

// Returns the options and words that sorted words may have.
fn known_words(words: &[&str]) -> KnownWords
    ensures { known_of result ≡ spec.known_words (map (λ s. s.now) words.now) }
{
    if is_explained(words) {
        explain_words()
    } else if is_next(words) {
        next_words()
    } else {
        known_for(words)
    }
}

/// Returns the file that is written, by sorted words; `None` if it is standard output.
pub fn output_file<'a>(words: &[&'a str]) -> Option<&'a str>
    ensures { option_map (λ s. s.now) result ≡ spec.output_file (map (λ s. s.now) words.now) }
{
    match value_given(OUTPUT_WORD, option_words(words)) {
        Some("-") => None,
        name => name,
    }
}

/// Returns sorted words without the option that names the file that is written.
pub fn words_but_output<'a>(alloc: Global, words: &[&'a str]) -> Result<Vec<&'a str>, AllocError>
    ensures { IfOk result (λ left. map (λ s. s.now) left.items ≡ spec.words_but_output (map (λ s. s.now) words.now)) }
{
    let (options, names) = words.split_at(mark_place(words));
    let mut left = words_without(alloc, OUTPUT_WORD, options)?;
    push_words(&mut left, names)?;
    Ok(left)
}

// Returns whether the output is text, which may go to a terminal.
fn is_text(words: &[&str]) -> bool
    ensures { result ≡ spec.is_text (map (λ s. s.now) words.now) }
{
    match command_of(sorting_words(), words) {
        Some("describe") => true,
        Some("why") => true,
        Some("explain") => true,
        _ => false,
    }
}

// Returns the report for an output that would be written to a terminal: it advises `-o`, except beside `--stream`.
fn terminal_text(words: &[&str]) -> &'static str
    ensures { result.now ≡ spec.terminal_text (map (λ s. s.now) words.now) }
{
    match value_given(STREAM_WORD, option_words(words)) {
        Some(_) => STREAM_TERMINAL,
        None => TERMINAL,
    }
}

// Writes to standard output and returns the status. A terminal gets text only: anything else is refused.
fn write_output<F: NamedFiles + OutputFiles, R: Source, W: Sink, E: Sink>(
    alloc: Global,
    words: &[&str],
    files: &F,
    input: &mut R,
    output: &mut W,
    faults: &mut E,
) -> u8
    ensures { spec.ToOutput (F.shows files.now) (map (λ s. s.now) words.now)
        (files_of (F.contents_of files.now) (F.opens files.now) F.never_fails)
        (reads R.Source input.old input.new) (writes W.Sink output.old output.new)
        (writes E.Sink faults.old faults.new) result }
{
    if !is_text(words) && files.shows_output() {
        report_text(faults, terminal_text(words));
        return 2;
    }
    run(alloc, words, files, input, output, faults)
}

// Writes what was made to a new file and gives it its name, if it is to be kept; otherwise removes the file. Returns
// the status.
fn save<F: OutputFiles, E: Sink>(
    files: &F,
    file: F::Writer,
    name: &str,
    made: &MadeJob,
    faults: &mut E,
) -> u8
    ensures { spec.Saves (F.keeps files.now name.now) (F.Writer.contents file) name.now
        made.now.bytes.items made.now.status (writes E.Sink faults.old faults.new) result }
{
    if !made.is_kept() {
        files.discard_file(file);
        return made.status;
    }
    save_file(
        files,
        file,
        name,
        made.bytes.as_slice(),
        made.status,
        faults,
    )
}

// Writes to a new file that is to have this name, whole or not at all; returns the status.
fn write_new_file<F: NamedFiles + OutputFiles, R: Source, E: Sink>(
    alloc: Global,
    name: &str,
    words: &[&str],
    files: &F,
    file: F::Writer,
    input: &mut R,
    faults: &mut E,
) -> u8
    ensures { spec.MakesFile (F.keeps files.now name.now) (F.Writer.contents file) name.now
        (map (λ s. s.now) words.now)
        (files_of (F.contents_of files.now) (F.opens files.now) F.never_fails)
        (reads R.Source input.old input.new) (writes E.Sink faults.old faults.new) result }
{
    let made = make_job(alloc, words, files, input, faults);
    save(files, file, name, &made, faults)
}

// Writes to the file of a name, which is created before anything is read; returns the status.
fn write_file<F: NamedFiles + OutputFiles, R: Source, E: Sink>(
    alloc: Global,
    name: &str,
    words: &[&str],
    files: &F,
    input: &mut R,
    faults: &mut E,
) -> u8
    ensures { spec.ToFile (F.creates files.now name.now) (F.keeps files.now name.now) name.now
        (map (λ s. s.now) words.now)
        (files_of (F.contents_of files.now) (F.opens files.now) F.never_fails)
        (reads R.Source input.old input.new) (writes E.Sink faults.old faults.new) result }
{
    match files.create_named(name) {
        Ok(file) => write_new_file(alloc, name, words, files, file, input, faults),
        Err(fault) => report_uncreated(name, fault, faults),
    }
}

// Does what sorted words ask for, which can be taken; returns the status.
fn perform_words<F: NamedFiles + OutputFiles, R: Source, W: Sink, E: Sink>(
    alloc: Global,
    words: &[&str],
    files: &F,
    input: &mut R,
    output: &mut W,
    faults: &mut E,
) -> u8
    ensures { spec.PerformsWords (spec.outputs_of (F.creates files.now) (F.keeps files.now) (F.shows files.now))
        (map (λ s. s.now) words.now)
        (files_of (F.contents_of files.now) (F.opens files.now) F.never_fails)
        (reads R.Source input.old input.new) (writes W.Sink output.old output.new)
        (writes E.Sink faults.old faults.new) result }
{
    let Ok(job) = words_but_output(alloc, words) else {
        return report_halt(faults, Halt::Memory);
    };
    match output_file(words) {
        Some(name) => write_file(alloc, name, &job, files, input, faults),
        None => write_output(alloc, &job, files, input, output, faults),
    }
}

// Answers sorted words that can be taken; returns the status.
fn answer<F: NamedFiles + OutputFiles, R: Source, W: Sink, E: Sink>(
    alloc: Global,
    words: &[&str],
    files: &F,
    input: &mut R,
    output: &mut W,
    faults: &mut E,
) -> u8
    ensures { spec.Answers (spec.outputs_of (F.creates files.now) (F.keeps files.now) (F.shows files.now))
        (map (λ s. s.now) words.now)
        (files_of (F.contents_of files.now) (F.opens files.now) F.never_fails)
        (reads R.Source input.old input.new) (writes W.Sink output.old output.new)
        (writes E.Sink faults.old faults.new) result }
{
    let names = file_words(words);
    if is_next(words) {
        let name = output_file(words);
        answer_next(
            alloc,
            files,
            option_words(words),
            name,
            names,
            output,
            faults,
        )
    } else if is_explained(words) && !names.is_empty() {
        explain_files(alloc, files, names, output, faults)
    } else {
        perform_words(alloc, words, files, input, output, faults)
    }
}

// Runs the program for sorted words.
fn run_sorted<F: NamedFiles + OutputFiles, R: Source, W: Sink, E: Sink>(
    alloc: Global,
    words: &[&str],
    files: &F,
    input: &mut R,
    output: &mut W,
    faults: &mut E,
) -> u8
    ensures taken { are_taken (spec.known_words (map (λ s. s.now) words.now)) (map (λ s. s.now) words.now) ≡ true →
        spec.Answers (spec.outputs_of (F.creates files.now) (F.keeps files.now) (F.shows files.now))
        (map (λ s. s.now) words.now)
        (files_of (F.contents_of files.now) (F.opens files.now) F.never_fails)
        (reads R.Source input.old input.new) (writes W.Sink output.old output.new)
        (writes E.Sink faults.old faults.new) result ⊎ spec.LacksWords (reads R.Source input.old input.new)
        (writes W.Sink output.old output.new) (writes E.Sink faults.old faults.new) result }
    ensures other { are_taken (spec.known_words (map (λ s. s.now) words.now)) (map (λ s. s.now) words.now) ≡ false →
        AnswersWords (codes "tsjob") (spec.known_words (map (λ s. s.now) words.now))
        (map (λ s. s.now) words.now) usage_text
        (reads R.Source input.old input.new) (writes W.Sink output.old output.new)
        (writes E.Sink faults.old faults.new) result }
{
    let known = known_words(words);
    match are_taken(alloc, known, words) {
        Ok(true) => answer(alloc, words, files, input, output, faults),
        Ok(false) => answer_words(alloc, "tsjob", known, words, usage(), output, faults),
        Err(_) => report_halt(faults, Halt::Memory),
    }
}

/// Runs the program for words as people type them, and returns the status of `run`. Words that are neither options nor
/// subcommands are names of files; `-` alone is standard input. The output goes to standard output, or to a file, whole
/// or not at all.
pub fn run_command<F: NamedFiles + OutputFiles, R: Source, W: Sink, E: Sink>(
    alloc: Global,
    words: &[&str],
    files: &F,
    input: &mut R,
    output: &mut W,
    faults: &mut E,
) -> u8
    ensures { spec.Commands (spec.outputs_of (F.creates files.now) (F.keeps files.now) (F.shows files.now))
        (spec.sorted_words (map (λ s. s.now) words.now))
        (files_of (F.contents_of files.now) (F.opens files.now) F.never_fails)
        (reads R.Source input.old input.new) (writes W.Sink output.old output.new)
        (writes E.Sink faults.old faults.new) result }
{
    match sorted_words(alloc, words) {
        Ok(sorted) => run_sorted(alloc, &sorted, files, input, output, faults),
        Err(_) => report_halt(faults, Halt::Memory),
    }
}
