//! Frames of sound that begin in one unit and end in the next.

ghost use Rattle.std.specs.Prelude.{◌≡◌, ◌*◌, ◌-◌, IfOk, drop, length, min, option_map, take};
ghost use Rattle.job_units.specs.CrossingFrames as spec;

use pes_packet::Unit;
use sound_frames::{FrameKind, FramePart, FrameWalk};
use std::alloc::{AllocError, Global};

/// No frame has more bytes.
const MOST_FRAME: usize = 8_194;

// Returns whether two frames or more begin in a unit after its front.
#[tactic(auto, unfolding(crate::specs::CrossingFrames::begin_later))]
fn begin_later(parts: &[FramePart]) -> bool
    ensures { result ≡ spec.begin_later parts.now }
{
    match parts.get(0) {
        None => false,
        Some(part) => part.place > 0 && parts.len() > 1,
    }
}

// Returns whether these bytes, the last of a unit, are the beginning of a frame that ends in the next unit.
#[tactic(auto, unfolding(crate::specs::CrossingFrames::is_cut))]
fn is_cut(alloc: Global, kind: FrameKind, bytes: &[u8], next: &[u8]) -> Result<bool, AllocError>
    ensures { IfOk result (λ is. is ≡ spec.is_cut kind bytes.now next.now) }
{
    let mut walk = FrameWalk::new(kind);
    walk.restart();
    let within = walk.take(alloc, bytes)?;
    let after = walk.take(alloc, next)?;
    Ok(within.is_empty() && begin_later(&after))
}

// Returns whether some of the last of these bytes are the beginning of a frame that ends in the next unit.
#[tactic(auto, unfolding(crate::specs::CrossingFrames::has_cut))]
fn has_cut(alloc: Global, kind: FrameKind, bytes: &[u8], next: &[u8]) -> Result<bool, AllocError>
    ensures { IfOk result (λ is. is ≡ spec.has_cut kind bytes.now next.now) }
{
    let mut left = bytes;
    'cuts: while let Some((_, later)) = left.split_first() {
        if is_cut(alloc, kind, left, next)? {
            return Ok(true);
        }
        left = later;
    }
    Ok(false)
}

// Returns the last bytes of a unit, as many as a frame may have.
fn ending(unit: &[u8]) -> &[u8]
    ensures { result.now ≡ drop (length unit.now - spec.most_frame) unit.now }
{
    &unit[unit.len().saturating_sub(MOST_FRAME)..]
}

// Returns the first bytes of a unit, as many as two frames may have.
fn beginning(unit: &[u8]) -> &[u8]
    ensures { result.now ≡ take (min (length unit.now) (2 * spec.most_frame)) unit.now }
{
    &unit[..unit.len().min(2 * MOST_FRAME)]
}

/// Returns whether a frame of sound begins in a unit and ends in the next.
#[tactic(auto, unfolding(crate::specs::CrossingFrames::crosses))]
pub fn crosses(alloc: Global, kind: FrameKind, one: &[u8], next: &[u8]) -> Result<bool, AllocError>
    ensures { IfOk result (λ is. is ≡ spec.crosses kind one.now next.now) }
{
    has_cut(alloc, kind, ending(one), beginning(next))
}

// Returns whether a frame begins in a unit and ends in the next, if there is one.
#[tactic(auto, unfolding(crate::specs::CrossingFrames::crosses_into))]
fn crosses_into(
    alloc: Global,
    kind: FrameKind,
    one: &Unit,
    next: Option<&Unit>,
) -> Result<bool, AllocError>
    ensures { IfOk result (λ is. is ≡ spec.crosses_into kind one.now (option_map (λ u. u.now) next.entry)) }
{
    match next {
        None => Ok(false),
        Some(next) => crosses(alloc, kind, one.bytes.as_slice(), next.bytes.as_slice()),
    }
}

/// Returns whether frames of sound cross the first two of these units.
#[tactic(auto, unfolding(crate::specs::CrossingFrames::do_cross))]
pub(crate) fn do_cross(alloc: Global, kind: FrameKind, units: &[Unit]) -> Result<bool, AllocError>
    ensures { IfOk result (λ is. is ≡ spec.do_cross kind units.now) }
{
    match units.get(0) {
        None => Ok(false),
        Some(one) => crosses_into(alloc, kind, one, units.get(1)),
    }
}
