//! The units of a stream, one after another.
ghost use Rattle.std.specs.Prelude.{◌≡◌, ℕ, ◌==◌, ◌+◌, ◌<◌, ◌≤◌, Some, None, [], length, sum_by};
ghost use Rattle.std.specs.Prelude.{IfOk, OnOk, if◌then◌else◌};
ghost use Rattle.std.specs.Option.{option_or};
ghost use Rattle.pes_packet.specs.Encoding.{pes_packet_bytes};
ghost use Rattle.unit_timing.specs.Arrived.{first_late};
ghost use Rattle.pes_packet.specs.Units.{units_of};
ghost use Rattle.tstd.specs.Carried.{timed_pes_packets};
ghost use Rattle.tstd.specs.Entry.{peak_of};
ghost use Rattle.tstd.specs.BufferState.{IsSound};
ghost use Rattle.tstd.specs.PayloadBytes.{bytes_ahead, residences, drain_of};

use crate::main_buffer::MainBuffer;
use crate::payload_bytes::PayloadBytes;
use crate::units_in_buffer::measure_unit;
use pes_packet::{Unit, packet_size};
use std::alloc::{AllocError, Allocator};

/// Returns whether a unit is a unit of this stream.
pub fn is_of<B: Allocator>(entry: &(u8, Unit<B>), stream: u8) -> bool
    ensures { result ≡ (entry.now.0 == stream) }
{
    entry.0 == stream
}

// Returns the decoding time of a unit.
fn due_of<B: Allocator>(entry: &(u8, Unit<B>)) -> u64
    ensures { result ≡ entry.now.1.dts }
{
    entry.1.dts
}

// Returns the size in bytes of the PES packet of a unit, whatever the stream_id.
fn size_of<B: Allocator>(entry: &(u8, Unit<B>), base0: u64) -> u64
    ensures size { (id : ℕ) → result ≡ length (pes_packet_bytes id base0 entry.now.1) }
    ensures positive { 0 < result }
{
    packet_size(base0, &entry.1)
}

// Returns the first late unit: `late`, or otherwise this unit if it is late.
fn first_of(late: Option<u64>, is_late: bool, number: u64) -> Option<u64>
    ensures { result ≡ option_or late (if is_late then Some number else None) }
{
    match late {
        Some(first) => Some(first),
        None => { if is_late { Some(number) } else { None } }
    }
}

/// Measures the units of a stream, which pass its buffers in turn, in a run of `slots` slots; returns the number of
/// the first late unit.
pub fn measure_units<A: Allocator, B: Allocator>(
    walk: &mut PayloadBytes<'_>,
    buffer: &mut MainBuffer<A>,
    slots: u64,
    base0: u64,
    stream: u8,
    units: &[(u8, Unit<B>)],
) -> Result<Option<u64>, AllocError>
    requires sound { IsSound buffer.old }
    requires fullness { buffer.old.fullness ≤ walk.old.transport.byte }
    requires carried { (id : ℕ) × (length (bytes_ahead walk.old)
        ≤ sum_by (λ t. t.size) (timed_pes_packets id base0 (units_of stream units.now))) }
    ensures late { IfOk result (λ late. (id : ℕ) →
        late ≡ first_late walk.old.rate (drain_of walk.old) slots 0
        (timed_pes_packets id base0 (units_of stream units.now)) (bytes_ahead walk.old)) }
    ensures peak { OnOk result ((id : ℕ) →
        peak_of walk.new buffer.new []
        ≡ peak_of walk.old buffer.old (timed_pes_packets id base0 (units_of stream units.now))) }
    ensures left { OnOk result (bytes_ahead walk.new ≡ []) }
    ensures residences { OnOk result (residences walk.new ≡ residences walk.old) }
    ensures rate { OnOk result (walk.new.rate ≡ walk.old.rate) }
    ensures rx { OnOk result (walk.new.rx ≡ walk.old.rx) }
    ensures rbx { OnOk result (walk.new.rbx ≡ walk.old.rbx) }
    ensures step { OnOk result (walk.new.transport.queue.step ≡ walk.old.transport.queue.step) }
{
    let mut late = None;
    let mut number = 0;
    for entry in units {
        if !is_of(entry, stream) {
            continue;
        }
        let is_late = measure_unit(walk, buffer, slots, due_of(entry), size_of(entry, base0))?;
        late = first_of(late, is_late, number);
        number += 1;
    }
    Ok(late)
}
