//! Whether the packets of a PID carry the units of a stream.
ghost use Rattle.std.specs.Prelude.{◌≡◌, ◌+◌, ◌++◌, ◌&&◌, true, List, ℕ, length, nat_eq, IsTrue};
ghost use Rattle.std.specs.List.{starts_with, concat, list_all};
ghost use Rattle.pes_packet.specs.Encoding.{pes_header_bytes, pes_packet_bytes};
ghost use Rattle.pes_packet.specs.StreamIds.{fits_packet};
ghost use Rattle.tstd.specs.PayloadWalk.{bytes_ahead};
ghost use Rattle.pes_packet.specs.Units.{units_of, pes_packets_of};
ghost use Rattle.tstd.specs.StreamFit.{fits_of};
ghost use Rattle.tstd.specs.PacketLists.{payloads_from};

use crate::payloads::{Payloads, agrees};
use crate::units::is_of;
use arrayvec::ArrayVec;
use pes_packet::{Unit, on_wire, write_header};
use std::alloc::Allocator;

// Returns the header of a unit's PES packet.
#[tactic(auto, using(crate::proofs::CarriedBytes::header_wire))]
fn header_of<B: Allocator>(id: u8, base0: u64, unit: &Unit<B>) -> ArrayVec<u8, 45>
    requires { IsTrue (fits_packet id (length unit.now.bytes)) }
    ensures { result.items ≡ pes_header_bytes id (length unit.now.bytes) unit.now.marks
        (unit.now.pts + base0) (unit.now.dts + base0) }
{
    write_header(
        id,
        unit.bytes.len(),
        unit.marks,
        on_wire(base0, unit.pts),
        on_wire(base0, unit.dts),
    )
}

// Returns whether the bytes of a walk begin with a unit's PES packet, or end inside it and agree so far.
#[tactic(auto, unfolding(pes_packet::specs::Encoding::pes_packet_bytes))]
fn unit_agrees<B: Allocator>(
    payloads: &mut Payloads<'_>,
    id: u8,
    base0: u64,
    unit: &Unit<B>,
) -> bool
    requires { IsTrue (fits_packet id (length unit.now.bytes)) }
    ensures { (more : List ℕ) →
        starts_with nat_eq (pes_packet_bytes id base0 unit.now ++ more) (bytes_ahead payloads.old)
        ≡ (result && starts_with nat_eq more (bytes_ahead payloads.new)) }
{
    let header = header_of(id, base0, unit);
    if !agrees(payloads, header.as_slice()) {
        return false;
    }
    agrees(payloads, unit.bytes.as_slice())
}

// Does the same for an entry of a list of units.
fn entry_agrees<B: Allocator>(
    payloads: &mut Payloads<'_>,
    id: u8,
    base0: u64,
    entry: &(u8, Unit<B>),
) -> bool
    requires { IsTrue (fits_packet id (length entry.now.1.bytes)) }
    ensures { (more : List ℕ) →
        starts_with nat_eq (pes_packet_bytes id base0 entry.now.1 ++ more) (bytes_ahead payloads.old)
        ≡ (result && starts_with nat_eq more (bytes_ahead payloads.new)) }
{
    unit_agrees(payloads, id, base0, &entry.1)
}

/// Returns whether the payloads of a PID are a beginning of the PES packets of a stream's units.
#[tactic(auto, unfolding(crate::specs::PayloadWalk::bytes_ahead))]
pub fn carries<B: Allocator>(
    pid: u16,
    id: u8,
    base0: u64,
    number: u8,
    units: &[(u8, Unit<B>)],
    packets: &[[u8; 188]],
) -> bool
    requires { list_all (fits_of number id) units.now ≡ true }
    ensures { result ≡ starts_with nat_eq
        (concat (pes_packets_of id base0 (units_of number units.now))) (payloads_from pid packets.now) }
{
    let mut payloads = Payloads {
        pid,
        rest: &[],
        packets,
    };
    for entry in units {
        if !is_of(entry, number) {
            continue;
        }
        if !entry_agrees(&mut payloads, id, base0, entry) {
            return false;
        }
    }
    payloads.next().is_none()
}
