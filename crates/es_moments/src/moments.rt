//! PTS as moments, and in order of time.

ghost use Rattle.std.specs.Prelude.{◌≡◌, ◌≤◌, ◌+◌, ◌^◌, IfOk};
ghost use Rattle.es_moments.specs.MadeDts as spec;

use crate::stamps::distance;
use clock27::STAMP_MODULUS;
use std::alloc::{AllocError, Allocator};

// Half the range of stamps.
const HALF: u128 = 1 << 32;

// Moments are counted from long before the first moment.
const START: u128 = 1 << 100;

// Returns the moment nearest to another moment when the clock shows a stamp.
#[tactic(auto, unfolding(crate::specs::MadeDts::nearest))]
fn nearest(moment: u128, stamp: u64) -> u128
    requires low { 2 ^ 32 ≤ moment }
    requires high { moment ≤ 2 ^ 101 }
    ensures value { result ≡ spec.nearest moment stamp }
    ensures low { moment ≤ result + 2 ^ 32 }
    ensures high { result ≤ moment + 2 ^ 32 }
{
    let shown = ((moment + HALF) % u128::from(STAMP_MODULUS)) as u64;
    moment - HALF + u128::from(distance(shown, stamp))
}

/// Returns the moments of stamps, each nearest to the moment before it.
pub(crate) fn moments_of<A: Allocator>(alloc: A, stamps: &[u64]) -> Result<Vec<u128, A>, AllocError>
    ensures { IfOk result (λ moments. moments.items ≡ spec.moments_of stamps.now) }
{
    let mut moments = Vec::with_capacity(alloc, stamps.len())?;
    let mut last = START;
    for at in 0..stamps.len() {
        last = nearest(last, stamps[at]);
        moments.push(last)?;
    }
    Ok(moments)
}

/// Returns the moments in order of time.
pub(crate) fn in_order<A: Allocator>(alloc: A, moments: &[u128]) -> Result<Vec<u128, A>, AllocError>
    ensures { IfOk result (λ order. order.items ≡ spec.in_order moments.now) }
{
    let mut order = Vec::from_slice(alloc, moments)?;
    order.sort()?;
    Ok(order)
}
