//! A plan's claims for an item.

ghost use Rattle.std.specs.Prelude.{◌≡◌, ◌^◌, ◌<◌, length, true};
ghost use Rattle.slot_plan.specs.Claims.{stream_claim, program_claim, claimed_multiplexing, multiplexing_claim};
ghost use Rattle.slot_plan.specs.Planned.{is_small_multiplexing};

use slot_plan::{MultiplexingEntry, Plan, ProgramEntry, StreamEntry};
use std::alloc::Allocator;

/// Returns the claim of stream number `i`.
pub fn claim_of_stream<A: Allocator>(plan: &Plan<A>, i: usize) -> StreamEntry
    requires { i < length plan.now.certificate.streams }
    ensures claim { result ≡ stream_claim plan.now i }
    ensures spread { result.spread < 10 ^ 18 }
    ensures start { result.start < 10 ^ 18 }
    ensures peak { result.peak < 10 ^ 18 }
    ensures multiplexing { is_small_multiplexing result.multiplexing ≡ true }
{
    plan.certificate().streams[i]
}

/// Returns the claim of program number `i`.
pub fn claim_of_program<A: Allocator>(plan: &Plan<A>, i: usize) -> ProgramEntry
    requires { i < length plan.now.certificate.programs }
    ensures claim { result ≡ program_claim plan.now i }
    ensures transport_start { result.transport_start < 10 ^ 18 }
    ensures system_start { result.system_start < 10 ^ 18 }
{
    plan.certificate().programs[i]
}

/// Returns a claim on a multiplexing buffer; no claim means no work.
fn claimed_multiplexing(claim: Option<MultiplexingEntry>) -> MultiplexingEntry
    requires { is_small_multiplexing claim ≡ true }
    ensures claim { result ≡ claimed_multiplexing claim }
    ensures start { result.start < 10 ^ 18 }
    ensures peak { result.peak < 10 ^ 18 }
{
    match claim {
        None => MultiplexingEntry { start: 0, peak: 0 },
        Some(claim) => claim,
    }
}

/// Returns the claim on the multiplexing buffer of stream number `i`.
pub fn claim_of_multiplexing<A: Allocator>(plan: &Plan<A>, i: usize) -> MultiplexingEntry
    requires { i < length plan.now.certificate.streams }
    ensures claim { result ≡ multiplexing_claim plan.now i }
    ensures start { result.start < 10 ^ 18 }
    ensures peak { result.peak < 10 ^ 18 }
{
    claimed_multiplexing(claim_of_stream(plan, i).multiplexing)
}
