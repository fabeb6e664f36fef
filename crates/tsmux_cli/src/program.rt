//! The program over any reader and writers.
ghost use Rattle.std.specs.Prelude.{◌≡◌, ◌⊎◌, Bool, None, Some, true, false, codes, map};
ghost use Rattle.tsmux_cli.specs.Carrying.{Carries};
ghost use Rattle.tsmux_cli.specs.Checking.{Checks};
ghost use Rattle.tsmux_cli.specs.Demultiplexing.{Demultiplexes};
ghost use Rattle.devices.specs.Devices.{reads, writes};
ghost use Rattle.tsmux_cli.specs.Monitoring.{Monitors};
ghost use Rattle.checked_jobs.specs.Multiplexing.{Muxes};
ghost use Rattle.devices.specs.Runs.{LacksMemory, Performs};
ghost use Rattle.tsmux_cli.specs.Planning.{MakesPlan};
ghost use Rattle.devices.specs.Lines.{Reports};
ghost use Rattle.devices.specs.Usage.{ReportsUsage};
ghost use Rattle.tsmux_cli.specs.Options.{known_after, known_words, usage_text};
ghost use Rattle.tsmux_cli.specs.Request.{asked};
ghost use Rattle.word_faults.specs.UsageReport.{Prints, is_version, unreadable_text, usage_report, version_text};
ghost use Rattle.tsmux_cli.specs.declared.request.CarryOptions.{CarryOptions};
ghost use Rattle.tsmux_cli.specs.declared.request.MonitorOptions.{MonitorOptions};
ghost use Rattle.checked_jobs.specs.declared.multiplexing.MuxOptions.{MuxOptions};
ghost use Rattle.tsmux_cli.specs.declared.request.Request.TheVariants.{Carry, Check, Demux, Monitor, Mux, Plan};

use crate::carrying::carry_records;
use crate::checking::check_job;
use crate::demultiplexing::demultiplex;
use crate::monitoring::monitor_stream;
use crate::options::{known_for, usage};
use crate::planning::make_plan;
use crate::request::{Request, requested};
use checked_jobs::multiplex_job;
use counted_io::{Sink, Source};
use devices::{Halt, report_halt, report_text};
use std::alloc::Global;
use word_faults::answer_other_words;

/// Writes that a word is not UTF-8 and how to ask for the usage, and returns the status.
pub fn report_usage<E: Sink>(faults: &mut E) -> u8
    ensures reports { Reports (writes E.Sink faults.old faults.new) (unreadable_text (codes "tsmux")) }
    ensures status { result ≡ 2 }
{
    report_text(faults, "a word is not UTF-8\nusage: tsmux --help\n");
    2
}

/// Runs the whole program: it reads the input, writes the output, reports faults on the second writer, and returns
/// the exit status: 0 good, 1 refused or a fault found, 2 a usage error, 3 a device failed or out of memory.
pub fn run<R: Source, W: Sink, E: Sink>(
    alloc: Global,
    words: &[&str],
    input: &mut R,
    output: &mut W,
    faults: &mut E,
) -> u8
    // `carry`: unit records to packets.
    ensures carry { (c : CarryOptions) → asked words.now ≡ Some (Carry c) →
        Carries c (reads R.Source input.old input.new) (writes W.Sink output.old output.new)
        (writes E.Sink faults.old faults.new) result
        ⊎ LacksMemory (reads R.Source input.old input.new) (writes W.Sink output.old output.new)
        (writes E.Sink faults.old faults.new) result }
    // `plan`: a description to the text of a plan that serves it.
    ensures plan { asked words.now ≡ Some Plan →
        Performs MakesPlan (reads R.Source input.old input.new) (writes W.Sink output.old output.new)
        (writes E.Sink faults.old faults.new) result }
    // `demux`: packets to a line for each finding.
    ensures demux { asked words.now ≡ Some Demux →
        Performs Demultiplexes (reads R.Source input.old input.new) (writes W.Sink output.old output.new)
        (writes E.Sink faults.old faults.new) result }
    // `check`: a job to the verdict on it.
    ensures check { (switch : Bool) → asked words.now ≡ Some (Check switch) →
        Performs (Checks switch) (reads R.Source input.old input.new) (writes W.Sink output.old output.new)
        (writes E.Sink faults.old faults.new) result }
    // `mux`: a job with its units to the packets of its plan, which keep every promise, and measuring them finds
    // nothing.
    ensures mux { (options : MuxOptions) → asked words.now ≡ Some (Mux options) →
        Performs (Muxes options) (reads R.Source input.old input.new) (writes W.Sink output.old output.new)
        (writes E.Sink faults.old faults.new) result }
    // `monitor`: packets to the report on them.
    ensures monitor { (options : MonitorOptions) → asked words.now ≡ Some (Monitor options) →
        Performs (Monitors options) (reads R.Source input.old input.new) (writes W.Sink output.old output.new)
        (writes E.Sink faults.old faults.new) result }
    // `--version` alone.
    ensures version { asked words.now ≡ None → is_version (map (λ s. s.now) words.now) ≡ true →
        Prints (version_text (codes "tsmux")) (reads R.Source input.old input.new)
        (writes W.Sink output.old output.new) (writes E.Sink faults.old faults.new) result }
    // Anything else: the first word that cannot be taken, and how to ask for the usage, or the usage.
    ensures usage { asked words.now ≡ None → is_version (map (λ s. s.now) words.now) ≡ false →
        ReportsUsage (usage_report (codes "tsmux") (known_words (known_after (map (λ s. s.now) words.now)))
        (map (λ s. s.now) words.now) usage_text) (reads R.Source input.old input.new) (writes W.Sink output.old output.new)
        (writes E.Sink faults.old faults.new) result
        ⊎ LacksMemory (reads R.Source input.old input.new) (writes W.Sink output.old output.new)
        (writes E.Sink faults.old faults.new) result }
{
    match requested(alloc, words) {
        Ok(Some(Request::Carry(options))) => carry_records(alloc, options, input, output, faults),
        Ok(Some(Request::Plan)) => make_plan(alloc, input, output, faults),
        Ok(Some(Request::Demux)) => demultiplex(alloc, input, output, faults),
        Ok(Some(Request::Check { switch })) => check_job(alloc, switch, input, output, faults),
        Ok(Some(Request::Mux(options))) => multiplex_job(alloc, options, input, output, faults),
        Ok(Some(Request::Monitor(options))) => {
            monitor_stream(alloc, options, input, output, faults)
        }
        Ok(None) => {
            let known = known_for(words);
            answer_other_words(alloc, "tsmux", known, words, usage(), output, faults)
        }
        Err(_) => report_halt(faults, Halt::Memory),
    }
}
