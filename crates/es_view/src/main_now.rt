//! The bytes in the main buffer of a stream, after its last packet.
ghost use Rattle.std.specs.Prelude.{◌≡◌, ◌+◌, ◌<◌, ◌^◌};
ghost use Rattle.tstd.specs.BufferedUnits.{all_buffered, all_bytes, buffered_bytes};
ghost use Rattle.tstd_rows.specs.Held.{Held, IsHeld};
ghost use Rattle.es_view.specs.HeldEvents as spec;

use tstd::BufferedUnit;
use tstd_rows::StreamBuffers;

// Returns the bytes of a unit that are in the buffer at a moment.
fn bytes_at(unit: &BufferedUnit, moment: u128) -> u64
    ensures { result ≡ buffered_bytes moment unit.now }
{
    if moment < unit.until { unit.bytes } else { 0 }
}

// Returns the bytes of all these units that are.
fn all_at(units: &[BufferedUnit], moment: u128) -> u64
    requires { all_bytes units.now < 2 ^ 64 }
    ensures { result ≡ all_buffered moment units.now }
{
    let mut bytes = 0;
    for unit in units {
        bytes += bytes_at(unit, moment);
    }
    bytes
}

// Returns the bytes that wait at a moment: of all these units, and of one more.
fn sum_at(units: &[BufferedUnit], current: &BufferedUnit, moment: u128) -> u64
    requires { all_bytes units.now + current.now.bytes < 2 ^ 64 }
    ensures { result ≡ all_buffered moment units.now + buffered_bytes moment current.now }
{
    all_at(units, moment) + bytes_at(current, moment)
}

/// Returns the bytes in the main buffer when the last byte of the stream so far has left the transport buffer. A call
/// of its own: few windows have no payload byte.
#[inline(never)]
pub(crate) fn main_now(buffers: &StreamBuffers) -> u64
    ensures { (h : Held) → IsHeld buffers.now h → result ≡ spec.main_now h }
{
    let moment = buffers.view.transport.last;
    let main = &buffers.view.main;
    sum_at(main.earlier.as_slice(), &main.current, moment)
}
