//! Streams to a job, and the job to its packets.
ghost use Rattle.std.specs.Prelude.{map};
ghost use Rattle.devices.specs.Devices.{reads, writes};
ghost use Rattle.devices.specs.Files.{files_of};
ghost use Rattle.tsremux_cli.specs.Remuxing as spec;

use crate::figures::Remuxed;
use crate::muxing::mux_bytes;
use counted_io::{Sink, Source};
use devices::NamedFiles;
use std::alloc::Global;
use tsjob_cli::make_job;

/// Writes the packets of the job that `tsjob` makes for these words.
pub(crate) fn remux<F: NamedFiles, R: Source, W: Sink, E: Sink>(
    alloc: Global,
    words: &[&str],
    files: &F,
    input: &mut R,
    output: &mut W,
    faults: &mut E,
) -> Remuxed
    ensures { spec.Remuxes (map (λ s. s.now) words.now)
        (files_of (F.contents_of files.now) (F.opens files.now) F.never_fails)
        (reads R.Source input.old input.new) (writes W.Sink output.old output.new)
        (writes E.Sink faults.old faults.new) result }
{
    let made = make_job(alloc, words, files, input, faults);
    let status = made.status;
    if !made.is_job() {
        return Remuxed::Ended { status };
    }
    match mux_bytes(alloc, made.bytes.as_slice(), output, faults) {
        Ok(figures) => Remuxed::Whole { figures, status },
        Err(status) => Remuxed::Ended { status },
    }
}
