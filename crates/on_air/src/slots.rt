//! Writes the settled slots.

ghost use Rattle.std.specs.Prelude.{◌≡◌, ◌≤◌, ◌^◌, ℕ, [], List, Option, OnOk, OnErr, IfErr};
ghost use Rattle.counted_io.specs.Device.{Failed};
ghost use Rattle.mux_core.specs.Buffer.{IsOutput, Took};
ghost use Rattle.slot_contents.specs.Contents.{Content};
ghost use Rattle.mux_core.specs.Histories.{History};
ghost use Rattle.mux_core.specs.WholeJobs.{run_output};
ghost use Rattle.on_air.specs.Airing.{Run, settled, last_of, on_to};
ghost use Rattle.on_air.specs.AirStates.{Carries, GoesOn, with_slots, WroteOn};

use crate::options::Terms;
use clock27::{Rate, release_slot};
use counted_io::Sink;
use mux_core::{Mux, OutputFault, PacketOutput};
use std::alloc::Allocator;

/// Returns the number of slots that a unit due at `due` settles, if units arrive up to `lead` before they are due: no
/// later unit can be sent in them. At most `limit`.
pub(crate) fn settled(rate: Rate, lead: u64, limit: u64, due: u64) -> u64
    ensures value { result ≡ settled rate lead limit due }
    ensures upper { result ≤ limit }
{
    match release_slot(rate, due.max(lead), lead) {
        Some(slot) => slot.min(limit),
        None => 0,
    }
}

/// Returns the number of slots of a whole run, where its input ends.
pub(crate) fn last_slot(rate: Rate, terms: Terms, greatest: u64) -> u64
    ensures value { result ≡ last_of rate terms greatest }
    ensures upper { result ≤ 2 ^ 40 }
{
    let limit = terms.limit();
    match terms.slots {
        Some(_) => limit,
        None => settled(rate, 0, limit, greatest),
    }
}

/// Writes slots until `target` are written; an incomplete last part waits.
pub(crate) fn write_on<A: Allocator, B: Allocator, W: Sink>(
    mux: &mut Mux<A>,
    target: u64,
    packets: &mut PacketOutput<B>,
    to: &mut W,
) -> Result<(), OutputFault>
    requires target { target ≤ 2 ^ 40 }
    // The output carries `content` from the first slot of the run on.
    ensures ok { (run : Run) (h : History) (content : ℕ → Content) (start : Option (List ℕ)) →
        Carries run h mux.old → GoesOn run.scheduled h content →
        IsOutput start (W.contents to.old) packets.old (run_output packets.old.hex content 0 h.slots) →
        OnOk result (WroteOn run (with_slots h (on_to h.slots target)) content packets.old.hex start (W.contents to.new)
        mux.new packets.new) }
    ensures err { (run : Run) (h : History) (content : ℕ → Content) (start : Option (List ℕ)) →
        Carries run h mux.old → GoesOn run.scheduled h content →
        IsOutput start (W.contents to.old) packets.old (run_output packets.old.hex content 0 h.slots) →
        IfErr result (λ fault. Took start (W.contents to.new) fault.sent
        (run_output packets.old.hex content 0 (on_to h.slots target))) }
    ensures clean { OnOk result (W.fault_count to.new ≡ W.fault_count to.old) }
    ensures fault { OnErr result (Failed (W.fault_count to.old) (W.fault_count to.new)) }
{
    let count = target.saturating_sub(mux.now());
    'slots: for _ in 0..count {
        let Ok(()) = mux.write_next(packets.room()) else {
            return Ok(());
        };
        match packets.push(to) {
            Ok(()) => {}
            Err(fault) => return Err(fault),
        }
    }
    Ok(())
}
