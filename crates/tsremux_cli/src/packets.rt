//! Words to packets: of streams, or of a service by hand.
ghost use Rattle.std.specs.Prelude.{map};
ghost use Rattle.devices.specs.Devices.{reads, writes};
ghost use Rattle.devices.specs.Files.{files_of};
ghost use Rattle.tsremux_cli.specs.Packets as spec;

use crate::by_hand::mux_by_hand;
use crate::figures::Remuxed;
use crate::remuxing::remux;
use crate::words::{description_of, plan_of, records_of};
use counted_io::{Sink, Source};
use devices::NamedFiles;
use std::alloc::Global;

/// Writes the packets that words ask for.
#[tactic(auto, using(crate::proofs::ByHand::by_hand, crate::proofs::ByHand::of_streams))]
pub(crate) fn write_packets_for<F: NamedFiles, R: Source, W: Sink, E: Sink>(
    alloc: Global,
    words: &[&str],
    files: &F,
    input: &mut R,
    output: &mut W,
    faults: &mut E,
) -> Remuxed
    ensures { spec.WritesFor (map (λ s. s.now) words.now)
        (files_of (F.contents_of files.now) (F.opens files.now) F.never_fails)
        (reads R.Source input.old input.new) (writes W.Sink output.old output.new)
        (writes E.Sink faults.old faults.new) result }
{
    match description_of(words) {
        Some(description) => {
            let plan = plan_of(words);
            let records = records_of(words);
            mux_by_hand(
                alloc,
                description,
                plan,
                records,
                files,
                input,
                output,
                faults,
            )
        }
        None => remux(alloc, words, files, input, output, faults),
    }
}
