//! The program over any files, a reader and two writers.
ghost use Rattle.std.specs.Prelude.{◌≡◌, true, false, codes, map, option_map};
ghost use Rattle.devices.specs.Devices.{reads, writes};
ghost use Rattle.devices.specs.Files.{files_of};
ghost use Rattle.devices.specs.Lines.{Reports};
ghost use Rattle.tsjob_cli.specs.Command.{outputs_of};
ghost use Rattle.tsremux_cli.specs.Options.{usage_text};
ghost use Rattle.tsremux_cli.specs.Program as spec;
ghost use Rattle.tsremux_cli.specs.Words.{are_taken, known_for, sorted_words};
ghost use Rattle.word_faults.specs.UsageReport.{AnswersWords, unreadable_text};

use crate::options::usage;
use crate::outputs::{remux_to_file, remux_to_output};
use crate::words::{all_taken, job_words, known_for, sorted_words};
use counted_io::{Sink, Source};
use devices::{Halt, NamedFiles, OutputFiles, report_halt, report_text};
use std::alloc::Global;
use tsjob_cli::output_file;
use word_faults::answer_words;

/// Writes that a word is not UTF-8 and how to ask for the usage, and returns the status.
pub fn report_usage<E: Sink>(faults: &mut E) -> u8
    ensures reports { Reports (writes E.Sink faults.old faults.new) (unreadable_text (codes "tsremux")) }
    ensures status { result ≡ 2 }
{
    report_text(faults, "a word is not UTF-8\nusage: tsremux --help\n");
    2
}

// Writes the packets to standard output, or to the file of a name, and returns the status.
fn write_to<F: NamedFiles + OutputFiles, R: Source, W: Sink, E: Sink>(
    alloc: Global,
    name: Option<&str>,
    words: &[&str],
    files: &F,
    input: &mut R,
    output: &mut W,
    faults: &mut E,
) -> u8
    ensures { spec.WritesTo (outputs_of (F.creates files.now) (F.keeps files.now) (F.shows files.now))
        (option_map (λ s. s.now) name.entry) (map (λ s. s.now) words.now)
        (files_of (F.contents_of files.now) (F.opens files.now) F.never_fails)
        (reads R.Source input.old input.new) (writes W.Sink output.old output.new)
        (writes E.Sink faults.old faults.new) result }
{
    match name {
        Some(name) => remux_to_file(alloc, name, words, files, input, faults),
        None => remux_to_output(alloc, words, files, input, output, faults),
    }
}

// Answers sorted words that can be taken, and returns the status.
fn answer<F: NamedFiles + OutputFiles, R: Source, W: Sink, E: Sink>(
    alloc: Global,
    words: &[&str],
    files: &F,
    input: &mut R,
    output: &mut W,
    faults: &mut E,
) -> u8
    ensures { spec.Answers (outputs_of (F.creates files.now) (F.keeps files.now) (F.shows files.now))
        (map (λ s. s.now) words.now)
        (files_of (F.contents_of files.now) (F.opens files.now) F.never_fails)
        (reads R.Source input.old input.new) (writes W.Sink output.old output.new)
        (writes E.Sink faults.old faults.new) result }
{
    let Ok(job) = job_words(alloc, words) else {
        return report_halt(faults, Halt::Memory);
    };
    write_to(
        alloc,
        output_file(words),
        &job,
        files,
        input,
        output,
        faults,
    )
}

// Runs the program for sorted words.
fn run_sorted<F: NamedFiles + OutputFiles, R: Source, W: Sink, E: Sink>(
    alloc: Global,
    words: &[&str],
    files: &F,
    input: &mut R,
    output: &mut W,
    faults: &mut E,
) -> u8
    ensures remux { are_taken (map (λ s. s.now) words.now) ≡ true →
        spec.Answers (outputs_of (F.creates files.now) (F.keeps files.now) (F.shows files.now))
        (map (λ s. s.now) words.now)
        (files_of (F.contents_of files.now) (F.opens files.now) F.never_fails)
        (reads R.Source input.old input.new) (writes W.Sink output.old output.new)
        (writes E.Sink faults.old faults.new) result }
    ensures other { are_taken (map (λ s. s.now) words.now) ≡ false →
        AnswersWords (codes "tsremux") (known_for (map (λ s. s.now) words.now)) (map (λ s. s.now) words.now) usage_text
        (reads R.Source input.old input.new) (writes W.Sink output.old output.new)
        (writes E.Sink faults.old faults.new) result }
{
    match all_taken(alloc, words) {
        Ok(true) => answer(alloc, words, files, input, output, faults),
        Ok(false) => {
            let known = known_for(words);
            answer_words(alloc, "tsremux", known, words, usage(), output, faults)
        }
        Err(_) => report_halt(faults, Halt::Memory),
    }
}

/// Runs the whole program: it reads the input, or named files, writes the packets of one job of these streams to the
/// output or to a file, reports the lines of `tsjob` and the promises that the packets keep, and returns the exit
/// status: 0 all is carried, 1 refused or a warning of a loss, 2 a usage error, 3 a device failed or out of memory.
pub fn run<F: NamedFiles + OutputFiles, R: Source, W: Sink, E: Sink>(
    alloc: Global,
    words: &[&str],
    files: &F,
    input: &mut R,
    output: &mut W,
    faults: &mut E,
) -> u8
    // Words that can be taken: what `tsmux mux` writes of the job that `tsjob` writes for them, or of the files of a
    // service by hand.
    ensures remux { are_taken (sorted_words (map (λ s. s.now) words.now)) ≡ true →
        spec.Answers (outputs_of (F.creates files.now) (F.keeps files.now) (F.shows files.now))
        (sorted_words (map (λ s. s.now) words.now))
        (files_of (F.contents_of files.now) (F.opens files.now) F.never_fails)
        (reads R.Source input.old input.new) (writes W.Sink output.old output.new)
        (writes E.Sink faults.old faults.new) result }
    // Anything else: `--version`, `--help`, or a word that cannot be taken.
    ensures other { are_taken (sorted_words (map (λ s. s.now) words.now)) ≡ false →
        AnswersWords (codes "tsremux") (known_for (sorted_words (map (λ s. s.now) words.now)))
        (sorted_words (map (λ s. s.now) words.now)) usage_text
        (reads R.Source input.old input.new) (writes W.Sink output.old output.new)
        (writes E.Sink faults.old faults.new) result }
{
    match sorted_words(alloc, words) {
        Ok(sorted) => run_sorted(alloc, &sorted, files, input, output, faults),
        Err(_) => report_halt(faults, Halt::Memory),
    }
}
