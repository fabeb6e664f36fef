//! The program over any files, a reader and two writers.

ghost use Rattle.std.specs.Prelude.{◌≡◌, None, Some, true, false, codes, map};
ghost use Rattle.devices.specs.Devices.{reads, writes};
ghost use Rattle.devices.specs.Files.{files_of};
ghost use Rattle.devices.specs.Lines.{Reports};
ghost use Rattle.devices.specs.Runs.{Performs};
ghost use Rattle.job_run.specs.JobArguments.{JobArgumentsView};
ghost use Rattle.tsjob_cli.specs.Arguments.{arguments};
ghost use Rattle.tsjob_cli.specs.Explaining.{ExplainLeads, is_explain};
ghost use Rattle.job_run.specs.Outcomes as spec;
ghost use Rattle.tsjob_cli.specs.FileWords.{file_arguments, file_words};
ghost use Rattle.tsjob_cli.specs.NamedInputs.{ReadsFiles};
ghost use Rattle.tsjob_cli.specs.Options.{known_for, usage_text};
ghost use Rattle.tsjob_cli.specs.StreamedUnits.{StreamsUnits};
ghost use Rattle.word_faults.specs.CommandLine.{Text};
ghost use Rattle.word_faults.specs.UsageReport.{AnswersWords};

use crate::arguments::read_arguments;
use crate::explained_input::{explain_input, is_explain};
use crate::file_words::{file_words, read_file_arguments};
use crate::options::{known_for, usage};
use crate::streaming::stream_units;
use counted_io::{Sink, Source};
use devices::{Halt, NamedFiles, report_halt, report_text};
use job_run::{JobArguments, perform, perform_files};
use std::alloc::Global;
use word_faults::answer_words;

/// Writes the usage, and returns the status.
pub fn report_usage<E: Sink>(faults: &mut E) -> u8
    ensures reports { Reports (writes E.Sink faults.old faults.new) usage_text }
    ensures status { result ≡ 2 }
{
    report_text(faults, usage());
    2
}

// Does what the command line asks for, and returns the status.
fn answer<F: NamedFiles, R: Source, W: Sink, E: Sink>(
    alloc: Global,
    files: &F,
    arguments: &JobArguments<'_>,
    input: &mut R,
    output: &mut W,
    faults: &mut E,
) -> u8
    ensures job { arguments.now.stream ≡ None → spec.PerformsJob arguments.now (reads R.Source input.old input.new)
        (writes W.Sink output.old output.new) (writes E.Sink faults.old faults.new) result }
    ensures stream { (name : Text) → arguments.now.stream ≡ Some name →
        StreamsUnits arguments.now.options (files_of (F.contents_of files.now) (F.opens files.now) F.never_fails) name
        (reads R.Source input.old input.new)
        (writes W.Sink output.old output.new) (writes E.Sink faults.old faults.new) result }
{
    match arguments.stream() {
        Some(name) => {
            let options = arguments.options();
            stream_units(alloc, &options, files, name, input, output, faults)
        }
        None => perform(alloc, arguments, input, output, faults),
    }
}

// Runs the program for streams in files, or reports a usage error.
fn run_on_files<F: NamedFiles, R: Source, W: Sink, E: Sink>(
    alloc: Global,
    words: &[&str],
    files: &F,
    input: &mut R,
    output: &mut W,
    faults: &mut E,
) -> u8
    ensures files { (a : JobArgumentsView) → file_arguments (map (λ s. s.now) words.now) ≡ Some a →
        ReadsFiles a (files_of (F.contents_of files.now) (F.opens files.now) F.never_fails)
        (file_words (map (λ s. s.now) words.now)) (reads R.Source input.old input.new)
        (writes W.Sink output.old output.new) (writes E.Sink faults.old faults.new) result }
    ensures other { file_arguments (map (λ s. s.now) words.now) ≡ None →
        AnswersWords (codes "tsjob") (known_for (map (λ s. s.now) words.now)) (map (λ s. s.now) words.now) usage_text
        (reads R.Source input.old input.new) (writes W.Sink output.old output.new)
        (writes E.Sink faults.old faults.new) result }
{
    match read_file_arguments(alloc, words) {
        Ok(Some(arguments)) => {
            perform_files(alloc, &arguments, files, file_words(words), output, faults)
        }
        Ok(None) => {
            let known = known_for(words);
            answer_words(alloc, "tsjob", known, words, usage(), output, faults)
        }
        Err(_) => report_halt(faults, Halt::Memory),
    }
}

// Runs the program for a transport stream in the input, or reports a usage error.
#[tactic(auto, using(crate::proofs::StreamedUnits::no_memory_for_words, crate::proofs::StreamedUnits::no_memory_for_stream))]
fn run_on_stream<F: NamedFiles, R: Source, W: Sink, E: Sink>(
    alloc: Global,
    words: &[&str],
    files: &F,
    input: &mut R,
    output: &mut W,
    faults: &mut E,
) -> u8
    // A transport stream to what the command line asks for.
    ensures job { (a : JobArgumentsView) → arguments words.now ≡ Some a → a.stream ≡ None →
        spec.PerformsJob a (reads R.Source input.old input.new) (writes W.Sink output.old output.new)
        (writes E.Sink faults.old faults.new) result }
    // A stream that arrives on the input, to the units of the streams of a description in a file.
    ensures stream { (a : JobArgumentsView) (name : Text) → arguments words.now ≡ Some a → a.stream ≡ Some name →
        StreamsUnits a.options (files_of (F.contents_of files.now) (F.opens files.now) F.never_fails) name
        (reads R.Source input.old input.new)
        (writes W.Sink output.old output.new) (writes E.Sink faults.old faults.new) result }
    // Streams in files to what the words before their names ask for.
    ensures files { (a : JobArgumentsView) → arguments words.now ≡ None →
        file_arguments (map (λ s. s.now) words.now) ≡ Some a →
        ReadsFiles a (files_of (F.contents_of files.now) (F.opens files.now) F.never_fails)
        (file_words (map (λ s. s.now) words.now)) (reads R.Source input.old input.new)
        (writes W.Sink output.old output.new) (writes E.Sink faults.old faults.new) result }
    // Anything else: `--version`, `--help`, or a word that cannot be taken.
    ensures other { arguments words.now ≡ None → file_arguments (map (λ s. s.now) words.now) ≡ None →
        AnswersWords (codes "tsjob") (known_for (map (λ s. s.now) words.now)) (map (λ s. s.now) words.now) usage_text
        (reads R.Source input.old input.new) (writes W.Sink output.old output.new)
        (writes E.Sink faults.old faults.new) result }
{
    match read_arguments(alloc, words) {
        Ok(Some(arguments)) => answer(alloc, files, &arguments, input, output, faults),
        Ok(None) => run_on_files(alloc, words, files, input, output, faults),
        Err(_) => report_halt(faults, Halt::Memory),
    }
}

/// Runs the whole program: it reads the input, or files that are named, writes the output, writes warnings or the
/// refusal to the second writer, and returns the exit status: 0 all is carried, or nothing is wrong; 1 refused, a
/// warning of a loss, or a fault; 2 a usage error; 3 a device failed or out of memory.
pub fn run<F: NamedFiles, R: Source, W: Sink, E: Sink>(
    alloc: Global,
    words: &[&str],
    files: &F,
    input: &mut R,
    output: &mut W,
    faults: &mut E,
) -> u8
    // `explain` alone: a description, or a description and a plan, to the words about its faults.
    ensures explain { is_explain (map (λ s. s.now) words.now) ≡ true →
        Performs ExplainLeads (reads R.Source input.old input.new)
        (writes W.Sink output.old output.new) (writes E.Sink faults.old faults.new) result }
    // A transport stream to what the command line asks for.
    ensures job { is_explain (map (λ s. s.now) words.now) ≡ false → (a : JobArgumentsView) →
        arguments words.now ≡ Some a →
        a.stream ≡ None →
        spec.PerformsJob a (reads R.Source input.old input.new) (writes W.Sink output.old output.new)
        (writes E.Sink faults.old faults.new) result }
    // A stream that arrives on the input, to the units of the streams of a description in a file.
    ensures stream { is_explain (map (λ s. s.now) words.now) ≡ false → (a : JobArgumentsView) (name : Text) →
        arguments words.now ≡ Some a → a.stream ≡ Some name →
        StreamsUnits a.options (files_of (F.contents_of files.now) (F.opens files.now) F.never_fails) name
        (reads R.Source input.old input.new)
        (writes W.Sink output.old output.new) (writes E.Sink faults.old faults.new) result }
    // Streams in files to what the words before their names ask for.
    ensures files { is_explain (map (λ s. s.now) words.now) ≡ false → (a : JobArgumentsView) →
        arguments words.now ≡ None →
        file_arguments (map (λ s. s.now) words.now) ≡ Some a →
        ReadsFiles a (files_of (F.contents_of files.now) (F.opens files.now) F.never_fails)
        (file_words (map (λ s. s.now) words.now)) (reads R.Source input.old input.new)
        (writes W.Sink output.old output.new) (writes E.Sink faults.old faults.new) result }
    // Anything else: `--version`, `--help`, or a word that cannot be taken.
    ensures other { is_explain (map (λ s. s.now) words.now) ≡ false → arguments words.now ≡ None →
        file_arguments (map (λ s. s.now) words.now) ≡ None →
        AnswersWords (codes "tsjob") (known_for (map (λ s. s.now) words.now)) (map (λ s. s.now) words.now) usage_text
        (reads R.Source input.old input.new) (writes W.Sink output.old output.new)
        (writes E.Sink faults.old faults.new) result }
{
    if is_explain(words) {
        explain_input(alloc, input, output, faults)
    } else {
        run_on_stream(alloc, words, files, input, output, faults)
    }
}
