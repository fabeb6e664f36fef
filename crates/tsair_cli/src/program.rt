//! The program over any reader and two writers.

ghost use Rattle.std.specs.Prelude.{
  ◌≡◌,
  List,
  ℕ,
  None,
  Option,
  Some,
  IfOk,
  [],
  codes,
  false,
  map,
  option_map,
  true,
};
ghost use Rattle.tsair_cli.specs.FramePassing.{PassesFrames};
ghost use Rattle.devices.specs.Devices.{reads, writes};
ghost use Rattle.devices.specs.Lines.{Reports};
ghost use Rattle.mux_core.specs.NewMux.{Judges};
ghost use Rattle.on_air.specs.Airing.{Run, silence};
ghost use Rattle.on_air.specs.AirStates.{IsOnAir, begin_refusal};
ghost use Rattle.checked_jobs.specs.JobFaults.{plans_view};
ghost use Rattle.tsair_cli.specs.AirRuns as spec;
ghost use Rattle.tsair_cli.specs.Arguments.{asked};
ghost use Rattle.tsair_cli.specs.Options.{known_words, usage_text};
ghost use Rattle.tsair_cli.specs.States.{saving_of};
ghost use Rattle.word_faults.specs.SortedWords.{value_given};
ghost use Rattle.word_faults.specs.UsageReport.{AnswersWords};
ghost use Rattle.tsair_cli.specs.declared.arguments.AirOptions.{AirOptions};

use crate::arguments::{AirOptions, read_arguments};
use crate::ending::report_end;
use crate::front::{read_front, report_front};
use crate::hearing::{Asked, hear_all};
use crate::options::{known_words, usage};
use crate::pass_frames;
use checked_jobs::{JobPlans, report_refusal};
use counted_io::Sink;
use devices::{Halt, OutputFiles, report_halt, report_text};
use held_input::HeldInput;
use on_air::{NewError, OnAir};
use std::alloc::Global;
use word_faults::{answer_words, value_given};

/// Writes the usage, and returns the status.
pub fn report_usage<E: Sink>(faults: &mut E) -> u8
    ensures reports { Reports (writes E.Sink faults.old faults.new) usage_text }
    ensures status { result ≡ 2 }
{
    report_text(faults, usage());
    2
}

/// Returns the run over the plans of a job, before its first slot.
fn begin(alloc: Global, options: AirOptions, plans: JobPlans) -> Result<OnAir, NewError>
    ensures refused { Judges (spec.begin_cause options (plans_view plans [])) (begin_refusal result) }
    ensures begun { (start : Option (List ℕ)) →
        IfOk result (IsOnAir (spec.run_of options (plans_view plans [])) silence start start) }
{
    match plans {
        JobPlans::One(plan) => OnAir::new(alloc, plan, options.terms, options.hex),
        JobPlans::Two(switch) => OnAir::with_switch(
            alloc,
            switch,
            options.periods.unwrap_or(0),
            options.terms,
            options.hex,
        ),
    }
}

/// Reports why no run was begun, and returns the status.
fn report_begin<E: Sink>(faults: &mut E, cause: NewError) -> u8
    ensures report { Reports (writes E.Sink faults.old faults.new) (spec.begin_outcome cause).report }
    ensures status { result ≡ (spec.begin_outcome cause).status }
{
    match cause {
        NewError::Periods => report_refusal(faults, "periods", &[]),
        NewError::Capacity | NewError::Memory => report_halt(faults, Halt::Memory),
    }
}

/// Takes the records of a run, writes all its slots, and returns the status.
fn air<F: OutputFiles, R: HeldInput, W: Sink, E: Sink>(
    alloc: Global,
    asked: Asked<'_>,
    files: &F,
    on_air: &mut OnAir,
    input: &mut R,
    output: &mut W,
    faults: &mut E,
) -> u8
    ensures { (run : Run) → IsOnAir run silence (W.contents output.old) (W.contents output.old) on_air.old →
        spec.AirsRecords (saving_of (F.creates files.now) (F.keeps files.now) (option_map (λ s. s.now) asked.entry.state))
        asked.entry.options run (reads R.Source input.old input.new) (writes W.Sink output.old output.new)
        (writes E.Sink faults.old faults.new) result }
{
    let end = match hear_all(alloc, asked, files, on_air, input, output, faults) {
        Ok(end) => end,
        Err(_) => return report_halt(faults, Halt::Write),
    };
    match on_air.end(output) {
        Ok(()) => report_end(faults, asked.options.terms.slots, on_air.records(), end),
        Err(_) => report_halt(faults, Halt::Write),
    }
}

/// Reads the front of the input, airs the job, and returns the status.
fn air_job<F: OutputFiles, R: HeldInput, W: Sink, E: Sink>(
    alloc: Global,
    options: AirOptions,
    state: Option<&str>,
    files: &F,
    input: &mut R,
    output: &mut W,
    faults: &mut E,
) -> u8
    ensures { spec.AirsJob (saving_of (F.creates files.now) (F.keeps files.now) (option_map (λ s. s.now) state.entry)) options
        (reads R.Source input.old input.new) (writes W.Sink output.old output.new)
        (writes E.Sink faults.old faults.new) result }
{
    let plans = match read_front(alloc, options.periods.is_some(), input) {
        Ok(plans) => plans,
        Err(error) => return report_front(faults, error),
    };
    let mut on_air = match begin(alloc, options, plans) {
        Ok(on_air) => on_air,
        Err(cause) => return report_begin(faults, cause),
    };
    let asked = Asked { options, state };
    let status = air(alloc, asked, files, &mut on_air, input, output, faults);
    // By a call: at the end of a function the drop of each part would be a step of its proof.
    drop(on_air);
    status
}

/// Runs the whole program: it reads the front of the input, writes the slots that each record settles before a read of
/// the next may wait, the versions of its texts to the file that `--state` names, and faults on the second writer. Returns
/// the exit status: 0 good, 1 refused, 2 a usage error, 3 a device failed or out of memory.
pub fn run<F: OutputFiles, R: HeldInput, W: Sink, E: Sink>(
    alloc: Global,
    words: &[&str],
    files: &F,
    input: &mut R,
    output: &mut W,
    faults: &mut E,
) -> u8
    // A job, with its records as they arrive, to packets.
    ensures air { (o : AirOptions) → asked words.now ≡ Some o → o.unframe ≡ false →
        spec.AirsJob (saving_of (F.creates files.now) (F.keeps files.now)
        (value_given (codes "--state") (map (λ s. s.now) words.now))) o
        (reads R.Source input.old input.new) (writes W.Sink output.old output.new)
        (writes E.Sink faults.old faults.new) result }
    // Frames of records, as they arrive, to their whole records.
    ensures unframes { (o : AirOptions) → asked words.now ≡ Some o → o.unframe ≡ true →
        PassesFrames (reads R.Source input.old input.new) (writes W.Sink output.old output.new)
        (writes E.Sink faults.old faults.new) result }
    // Anything else: `--version`, `--help`, or a word that cannot be taken.
    ensures other { asked words.now ≡ None →
        AnswersWords (codes "tsair") known_words (map (λ s. s.now) words.now) usage_text
        (reads R.Source input.old input.new) (writes W.Sink output.old output.new)
        (writes E.Sink faults.old faults.new) result }
{
    match read_arguments(alloc, words) {
        Ok(Some(options)) => if options.unframe {
            pass_frames(alloc, input, output, faults)
        } else {
            let state = value_given("--state", words);
            air_job(alloc, options, state, files, input, output, faults)
        },
        Ok(None) => {
            let known = known_words();
            answer_words(alloc, "tsair", known, words, usage(), output, faults)
        }
        Err(_) => report_halt(faults, Halt::Memory),
    }
}
