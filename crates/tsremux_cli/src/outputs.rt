//! Packets of streams to standard output, or to a file.
ghost use Rattle.std.specs.Prelude.{◌≡◌, map};
ghost use Rattle.devices.specs.Devices.{reads, writes};
ghost use Rattle.devices.specs.Files.{files_of};
ghost use Rattle.tsremux_cli.specs.Outputs as spec;

use crate::figures::Remuxed;
use crate::lines::report_held;
use crate::packets::write_packets_for;
use crate::words::is_quiet;
use counted_io::{Sink, Source};
use devices::{NamedFiles, OutputFiles, report_of, report_text, report_uncreated};
use std::alloc::Global;
use tsjob_cli::TERMINAL;

// Reports on standard output if all packets are written, and returns the status.
fn conclude<E: Sink>(alloc: Global, quiet: bool, remuxed: Remuxed, faults: &mut E) -> u8
    ensures { spec.Concludes quiet spec.output_name remuxed (writes E.Sink faults.old faults.new) result }
{
    match remuxed {
        Remuxed::Whole { figures, status } => {
            report_held(alloc, quiet, "standard output", figures, faults);
            status
        }
        Remuxed::Ended { status } => status,
    }
}

// Writes the packets to standard output, and returns the status.
fn write_output<F: NamedFiles, R: Source, W: Sink, E: Sink>(
    alloc: Global,
    words: &[&str],
    files: &F,
    input: &mut R,
    output: &mut W,
    faults: &mut E,
) -> u8
    ensures { spec.WritesOutput (map (λ s. s.now) words.now)
        (files_of (F.contents_of files.now) (F.opens files.now) F.never_fails)
        (reads R.Source input.old input.new) (writes W.Sink output.old output.new)
        (writes E.Sink faults.old faults.new) result }
{
    let remuxed = write_packets_for(alloc, words, files, input, output, faults);
    conclude(alloc, is_quiet(words), remuxed, faults)
}

/// Writes the packets to standard output, unless it is a terminal, and returns the status.
pub(crate) fn remux_to_output<F: NamedFiles + OutputFiles, R: Source, W: Sink, E: Sink>(
    alloc: Global,
    words: &[&str],
    files: &F,
    input: &mut R,
    output: &mut W,
    faults: &mut E,
) -> u8
    ensures { spec.ToOutput (F.shows files.now) (map (λ s. s.now) words.now)
        (files_of (F.contents_of files.now) (F.opens files.now) F.never_fails)
        (reads R.Source input.old input.new) (writes W.Sink output.old output.new)
        (writes E.Sink faults.old faults.new) result }
{
    if files.shows_output() {
        report_text(faults, TERMINAL);
        return 2;
    }
    write_output(alloc, words, files, input, output, faults)
}

// Gives a new file its name if all packets are written, reports on the file, and returns the status.
fn finish<F: OutputFiles, E: Sink>(
    alloc: Global,
    quiet: bool,
    remuxed: Remuxed,
    name: &str,
    files: &F,
    file: F::Writer,
    faults: &mut E,
) -> u8
    ensures { spec.Finishes (F.keeps files.now name.now) quiet name.now remuxed
        (writes E.Sink faults.old faults.new) result }
{
    match remuxed {
        Remuxed::Whole { figures, status } => {
            if files.keep_file(name, file) {
                report_held(alloc, quiet, name, figures, faults);
                status
            } else {
                report_of(name, ": can't be renamed\n", faults);
                3
            }
        }
        Remuxed::Ended { status } => {
            files.discard_file(file);
            status
        }
    }
}

// Writes the packets to a new file that is to have this name, and returns the status.
fn remux_to_new_file<F: NamedFiles + OutputFiles, R: Source, E: Sink>(
    alloc: Global,
    name: &str,
    words: &[&str],
    files: &F,
    file: F::Writer,
    input: &mut R,
    faults: &mut E,
) -> u8
    ensures { spec.WritesNew (F.keeps files.now name.now) (F.Writer.contents file) name.now
        (map (λ s. s.now) words.now)
        (files_of (F.contents_of files.now) (F.opens files.now) F.never_fails)
        (reads R.Source input.old input.new) (writes E.Sink faults.old faults.new) result }
{
    let mut file = file;
    let remuxed = write_packets_for(alloc, words, files, input, &mut file, faults);
    finish(alloc, is_quiet(words), remuxed, name, files, file, faults)
}

/// Writes the packets to the file of a name, which is created before anything is read, and returns the status.
pub(crate) fn remux_to_file<F: NamedFiles + OutputFiles, R: Source, E: Sink>(
    alloc: Global,
    name: &str,
    words: &[&str],
    files: &F,
    input: &mut R,
    faults: &mut E,
) -> u8
    ensures { spec.ToFile (F.creates files.now name.now) (F.keeps files.now name.now) name.now
        (map (λ s. s.now) words.now)
        (files_of (F.contents_of files.now) (F.opens files.now) F.never_fails)
        (reads R.Source input.old input.new) (writes E.Sink faults.old faults.new) result }
{
    match files.create_named(name) {
        Ok(file) => remux_to_new_file(alloc, name, words, files, file, input, faults),
        Err(fault) => report_uncreated(name, fault, faults),
    }
}
