//! The weight of each unit of a stream, in 24 bytes.

ghost use Rattle.std.specs.Prelude.{◌≡◌, ◌≤◌, ◌+◌, ◌^◌, ℕ, All, IfOk, length};
ghost use Rattle.pes_packet.specs.Encoding.{pes_packet_bytes};
ghost use Rattle.es_moments.specs.CountedUnits as spec;
ghost use Rattle.es_moments.specs.UnitMoments as at;

use crate::declaration::unit_packets;
use crate::unit::{dts_of, size_of};
use crate::unit_moments::UnitMoment;
use crate::wire_unit::FoundUnit;
use pes_packet::{Unit, field_size, header_sizes, on_wire};
use std::alloc::{AllocError, Allocator};

/// The most bytes of a unit that is weighed.
const MOST_BYTES: usize = 1 << 62;

/// The weight of a unit: when it is due, its bytes with the bytes of its marks, and its packets.
#[derive(Clone, Copy)]
pub(crate) struct UnitWeight {
    pub dts: u64,
    pub size: usize,
    pub packets: u64,
}

// Returns the weight of a unit.
fn weight_of<A: Allocator>(base0: u64, unit: &Unit<A>) -> UnitWeight
    ensures value { (id : ℕ) → result ≡ spec.weight_of id base0 unit.now }
    ensures bound { spec.IsWeight result }
{
    UnitWeight {
        dts: dts_of(unit),
        size: size_of(unit),
        packets: unit_packets(base0, unit),
    }
}

/// Returns the weight of each unit, with the clock's first value `base0`.
pub(crate) fn unit_weights<A: Allocator>(
    alloc: A,
    base0: u64,
    units: &[Unit<A>],
) -> Result<Vec<UnitWeight, A>, AllocError>
    ensures weights { IfOk result (λ ws. (id : ℕ) → ws.items ≡ spec.weights id base0 units.now) }
    ensures bound { IfOk result (λ ws. All spec.IsWeight ws.items) }
{
    let mut weights = Vec::with_capacity(alloc, units.len())?;
    for unit in units {
        weights.push(weight_of(base0, unit))?;
    }
    Ok(weights)
}

// Returns the size of the PES packet of a unit at these moments, header and all.
#[tactic(auto, unfolding(pes_packet::specs::Encoding::pes_packet_bytes))]
fn found_packet_size<A: Allocator>(base0: u64, moment: UnitMoment, unit: &FoundUnit<'_, A>) -> u64
    requires { length unit.now.unit.bytes ≤ 2 ^ 62 }
    ensures size { (id : ℕ) → result ≡ length (pes_packet_bytes id base0 (at.unit_at moment unit.now)) }
    ensures most { result ≤ 2 ^ 62 + 64 }
{
    header_sizes();
    let size = unit.bytes.len() as u64;
    if unit.marks.long {
        return 45 + size;
    }
    let header = if on_wire(base0, moment.pts) == on_wire(base0, moment.dts) {
        14
    } else {
        19
    };
    let extension = unit.marks.size() - field_size(unit.marks.random_access);
    header + extension as u64 + size
}

// Returns the weight of a unit at these moments.
fn found_weight<A: Allocator>(
    base0: u64,
    moment: UnitMoment,
    unit: &FoundUnit<'_, A>,
) -> Result<UnitWeight, AllocError>
    ensures value { IfOk result (λ w. (id : ℕ) → w ≡ spec.weight_of id base0 (at.unit_at moment unit.now)) }
    ensures bound { IfOk result spec.IsWeight }
{
    let bytes = unit.bytes.len();
    if MOST_BYTES < bytes {
        return Err(AllocError);
    }
    let front = field_size(unit.marks.random_access) as u64;
    Ok(UnitWeight {
        dts: moment.dts,
        size: bytes + unit.marks.size(),
        packets: (front + found_packet_size(base0, moment, unit) + 183) / 184,
    })
}

/// Returns the weights of units at these moments, whose bytes stay where they are found.
pub(crate) fn found_weights<A: Allocator>(
    alloc: A,
    base0: u64,
    moments: &[UnitMoment],
    found: &[FoundUnit<'_, A>],
) -> Result<Vec<UnitWeight, A>, AllocError>
    ensures weights { IfOk result (λ ws. (id : ℕ) →
        ws.items ≡ spec.weights id base0 (at.units_at moments.now found.now)) }
    ensures bound { IfOk result (λ ws. All spec.IsWeight ws.items) }
{
    let mut weights = Vec::with_capacity(alloc, found.len())?;
    let mut later = moments;
    for unit in found {
        let Some((moment, rest)) = later.split_first() else {
            return Ok(weights);
        };
        let weight = found_weight(base0, *moment, unit)?;
        weights.push(weight)?;
        later = rest;
    }
    Ok(weights)
}
