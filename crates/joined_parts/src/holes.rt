//! Where a clock has no references for a while, and its streams go on.

ghost use Rattle.std.specs.Prelude.{◌≡◌, IfOk};
ghost use Rattle.std.specs.List.{list_any};
ghost use Rattle.joined_parts.specs.Holes as spec;

use crate::cuts::Cut;
use crate::jumps::is_forward;
use crate::stamps::UnitStamp;
use es_moments::distance;
use std::alloc::{AllocError, Global};

// Returns whether a time lies in the middle half of a gap.
fn is_in_middle(gap: u64, after: u64) -> bool
    ensures { result ≡ spec.is_in_middle gap after }
{
    gap / 4 < after && after < gap - gap / 4
}

// Returns whether a unit of the clock begins between the references of a cut, and is due in the middle of the time
// between them.
fn goes_on(cut: Cut, stamp: UnitStamp) -> bool
    ensures { result ≡ spec.goes_on cut stamp }
{
    cut.pid == stamp.clock
        && (cut.since < stamp.packet
            && (stamp.packet < cut.packet
                && is_in_middle(
                    distance(cut.before, cut.base),
                    distance(cut.before, stamp.dts),
                )))
}

// Returns whether any unit of the clock comes so.
fn any_goes_on(stamps: &[UnitStamp], cut: Cut) -> bool
    ensures { result ≡ list_any (spec.goes_on cut) stamps.now }
{
    stamps.iter().any(|stamp| goes_on(cut, *stamp))
}

// Returns whether time passes between the references of a cut: the clock does not jump there.
fn is_hole(stamps: &[UnitStamp], cut: Cut) -> bool
    ensures { result ≡ spec.is_hole stamps.now cut }
{
    is_forward(cut) && any_goes_on(stamps, cut)
}

fn is_jump(stamps: &[UnitStamp], cut: Cut) -> bool
    ensures { result ≡ spec.is_jump stamps.now cut }
{
    !is_hole(stamps, cut)
}

/// Returns the cuts at which a clock jumps.
pub(crate) fn jumps_of(
    alloc: Global,
    stamps: &[UnitStamp],
    cuts: &[Cut],
) -> Result<Vec<Cut>, AllocError>
    ensures { IfOk result (λ jumps. jumps.items ≡ spec.jumps_of stamps.now cuts.now) }
{
    cuts.iter()
        .filter(|cut| is_jump(stamps, **cut))
        .copied()
        .collect(alloc)
}

/// Returns the cuts between whose references time passes.
pub(crate) fn holes_of(
    alloc: Global,
    stamps: &[UnitStamp],
    cuts: &[Cut],
) -> Result<Vec<Cut>, AllocError>
    ensures { IfOk result (λ holes. holes.items ≡ spec.holes_of stamps.now cuts.now) }
{
    cuts.iter()
        .filter(|cut| is_hole(stamps, **cut))
        .copied()
        .collect(alloc)
}
