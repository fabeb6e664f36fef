//! Units of data streams that are due at one moment, set apart as they come.

ghost use Rattle.std.specs.Prelude.{◌≡◌, ◌≤◌, Some, false};
ghost use Rattle.std.specs.Option.{option_to_list};
ghost use Rattle.es_units.specs.ApartSteps as spec;
ghost use Rattle.es_moments.specs.ApartUnits.{is_same_next};
ghost use Rattle.es_units.specs.UnitSteps.{ended_unit};

use es_moments::apart::{PRIVATE_STREAM_1, apart_by, next_place};
use es_moments::{UnitBytes, WireUnit};

// Returns whether a unit of private_stream_1 is due when the next unit is, if the next unit has bytes.
#[tactic(auto, unfolding(es_moments::specs::ApartUnits::is_same_next, crate::specs::UnitSteps::ended_unit))]
fn is_same<B: UnitBytes>(unit: &WireUnit<B>, next: &WireUnit<B>) -> bool
    ensures { result ≡ is_same_next unit.now (option_to_list (ended_unit false (Some next.now))) }
{
    !next.bytes.is_empty() && unit.stream_id == PRIVATE_STREAM_1 && next.dts == unit.dts
}

/// Returns whether the current unit is due at the same time as the unit just returned.
#[tactic(auto, unfolding(crate::specs::ApartSteps::is_same_after, es_moments::specs::ApartUnits::is_same_next, crate::specs::UnitSteps::ended_unit))]
pub(crate) fn is_same_after<B: UnitBytes>(
    unit: &Option<WireUnit<B>>,
    next: &Option<WireUnit<B>>,
) -> bool
    ensures { result ≡ spec.is_same_after unit.now next.now }
{
    let Some(unit) = unit else {
        return false;
    };
    let Some(next) = next else {
        return false;
    };
    is_same(unit, next)
}

/// Returns the place of the next unit in its row of units with one DTS, counted up to 63; `place` is the place of
/// `unit`, and `same` says whether the next unit is in the same row.
#[tactic(auto, unfolding(crate::specs::ApartSteps::place_past))]
pub fn place_past<B: UnitBytes>(same: bool, place: u8, unit: &Option<WireUnit<B>>) -> u8
    requires { place ≤ 63 }
    ensures value { result ≡ spec.place_past same place unit.now }
    ensures bound { result ≤ 63 }
{
    match unit {
        None => place,
        Some(_) => next_place(same, place),
    }
}

// Returns a unit with a DTS of its own, from its place in its row.
#[tactic(auto, unfolding(crate::specs::ApartSteps::unit_apart))]
fn unit_apart<B: UnitBytes>(same: bool, place: u8, unit: WireUnit<B>) -> WireUnit<B>
    requires { place ≤ 63 }
    ensures { result ≡ spec.unit_apart same place unit }
{
    WireUnit {
        packet: unit.packet,
        stream_id: unit.stream_id,
        dts: apart_by(same, place, unit.dts),
        pts: unit.pts,
        marks: unit.marks,
        bytes: unit.bytes,
    }
}

/// Returns the unit with a DTS of its own, if there is a unit. `place` units of its row are before it, counted up to
/// 63; `same`: whether the next unit is in the same row.
#[tactic(auto, unfolding(crate::specs::ApartSteps::set_apart))]
pub fn set_apart<B: UnitBytes>(
    same: bool,
    place: u8,
    unit: Option<WireUnit<B>>,
) -> Option<WireUnit<B>>
    requires { place ≤ 63 }
    ensures { result ≡ spec.set_apart same place unit }
{
    match unit {
        None => None,
        Some(unit) => Some(unit_apart(same, place, unit)),
    }
}
