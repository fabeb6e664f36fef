//! Units in the buffers of their stream: from the transport buffer into the main buffer, or through a multiplexing
//! buffer into the elementary stream buffer.
ghost use Rattle.std.specs.Prelude.{◌≡◌, ℕ, ◌∷◌, ◌*◌, ◌<◌, ◌≤◌, ◌&&◌, not, nat_le};
ghost use Rattle.std.specs.Prelude.{List, length, take, drop, IfOk, OnOk};
ghost use Rattle.std.specs.List.{list_all};
ghost use Rattle.std.specs.Bool.{OnTrue};
ghost use Rattle.clock27.specs.Units.{byte_units_at_1bps};
ghost use Rattle.unit_timing.specs.Arrived.{is_due, has_left};
ghost use Rattle.unit_timing.specs.PesPacket.{PesPacket};
ghost use Rattle.tstd.specs.Entry.{peak_of, EntersUnit};
ghost use Rattle.tstd.specs.Removal.{removal_time, due_moment};
ghost use Rattle.tstd.specs.BufferState.{IsSound};
ghost use Rattle.tstd.specs.PayloadBytes.{bytes_ahead, residences, last_of, drain_of};

use crate::main_buffer::MainBuffer;
use crate::payload_bytes::PayloadBytes;
use clock27::{BYTE_UNITS_AT_1BPS, SLOT_UNITS_AT_1BPS};
use std::alloc::{AllocError, Allocator};

// Enters a unit of `size` bytes into the buffer; returns whether all its bytes arrive.
fn enter_unit<A: Allocator>(
    walk: &mut PayloadBytes<'_>,
    buffer: &mut MainBuffer<A>,
    size: u64,
) -> bool
    requires sound { IsSound buffer.old }
    requires fullness { buffer.old.fullness ≤ walk.old.transport.byte }
    ensures whole { result ≡ nat_le size (length (bytes_ahead walk.old)) }
    ensures left { bytes_ahead walk.new ≡ drop size (bytes_ahead walk.old) }
    ensures in_time { OnTrue result (0 < size → (limit : ℕ) →
        list_all (λ d. nat_le (d * byte_units_at_1bps) limit) (take size (bytes_ahead walk.old))
        ≡ nat_le (last_of walk.new * byte_units_at_1bps) limit) }
    ensures peak { EntersUnit walk.old walk.new buffer.old buffer.new size }
    ensures residences { residences walk.new ≡ residences walk.old }
    ensures rate { walk.new.rate ≡ walk.old.rate }
    ensures rx { walk.new.rx ≡ walk.old.rx }
    ensures rbx { walk.new.rbx ≡ walk.old.rbx }
    ensures step { walk.new.transport.queue.step ≡ walk.old.transport.queue.step }
    ensures sound { IsSound buffer.new }
    ensures fullness { buffer.new.fullness ≤ walk.new.transport.byte }
{
    let mut taken = 0;
    while taken < size {
        let Some(time) = walk.next() else {
            return false;
        };
        buffer.enter(time);
        taken += 1;
    }
    true
}

// Returns the stamp of a unit that is due at `due` units of 90 kHz, on the scale of a walk, rounded down and rounded
// up to whole moments.
fn moments_of(walk: &PayloadBytes<'_>, due: u64) -> (u128, u128)
    ensures last { result.0 ≡ due_moment walk.now.rate (drain_of walk.now) due }
    ensures first { result.1 ≡ removal_time walk.now.rate (drain_of walk.now) due }
{
    let limit = u128::from(due) * u128::from(walk.rate) * u128::from(walk.rx);
    let whole = limit / BYTE_UNITS_AT_1BPS * u128::from(walk.rbx);
    let rest = limit % BYTE_UNITS_AT_1BPS * u128::from(walk.rbx);
    (
        whole + rest / BYTE_UNITS_AT_1BPS,
        whole + rest.div_ceil(BYTE_UNITS_AT_1BPS),
    )
}

/// Measures the next unit, due at `due` units of 90 kHz, in a run of `slots` slots: whether it is due and late.
pub fn measure_unit<A: Allocator>(
    walk: &mut PayloadBytes<'_>,
    buffer: &mut MainBuffer<A>,
    slots: u64,
    due: u64,
    size: u64,
) -> Result<bool, AllocError>
    requires sound { IsSound buffer.old }
    requires fullness { buffer.old.fullness ≤ walk.old.transport.byte }
    requires positive { 0 < size }
    ensures late { let pes_packet : PesPacket = record { dts = due; size = size; front = 0 } in
        IfOk result (λ late. late ≡ (is_due walk.old.rate slots pes_packet
        && not (has_left walk.old.rate (drain_of walk.old) pes_packet (bytes_ahead walk.old)))) }
    ensures left { OnOk result (bytes_ahead walk.new ≡ drop size (bytes_ahead walk.old)) }
    ensures peak { OnOk result ((pes_packets : List PesPacket) →
        let pes_packet : PesPacket = record { dts = due; size = size; front = 0 } in
        peak_of walk.new buffer.new pes_packets ≡ peak_of walk.old buffer.old (pes_packet ∷ pes_packets)) }
    ensures residences { OnOk result (residences walk.new ≡ residences walk.old) }
    ensures rate { OnOk result (walk.new.rate ≡ walk.old.rate) }
    ensures rx { OnOk result (walk.new.rx ≡ walk.old.rx) }
    ensures rbx { OnOk result (walk.new.rbx ≡ walk.old.rbx) }
    ensures step { OnOk result (walk.new.transport.queue.step ≡ walk.old.transport.queue.step) }
    ensures sound { OnOk result (IsSound buffer.new) }
    ensures fullness { OnOk result (buffer.new.fullness ≤ walk.new.transport.byte) }
{
    let (last, until) = moments_of(walk, due);
    buffer.begin(until)?;
    let whole = enter_unit(walk, buffer, size);
    let in_time = whole && walk.last() <= last;
    let is_due = u128::from(due) * u128::from(walk.rate) <= u128::from(slots) * SLOT_UNITS_AT_1BPS;
    Ok(is_due && !in_time)
}
