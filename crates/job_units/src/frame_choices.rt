//! The choice of a lead with which a stream of sound keeps the access units of its units.

ghost use Rattle.std.specs.Prelude.{◌≡◌, ◌≤◌, ◌^◌, IfOk};
ghost use Rattle.job_units.specs.Declarations as spec;

use crate::choices::is_countable;
use crate::declarations::{StreamChoice, UnitCounts};
use given_values::DeclareBy;
use std::alloc::{AllocError, Global};
use stream_choice::{Choice, FrameCounts, choose_framed, is_framing, keeps_framing};
use unit_timing::multiplexing_buffer::MultiplexingBuffer;

// Returns what a stream of these units declares by groups with one main buffer that keeps these access units.
#[tactic(auto, unfolding(crate::specs::Declarations::framed_by_groups))]
fn framed_by_groups(
    greatest_lead: u32,
    sum: u64,
    framing: FrameCounts,
    unit_counts: &UnitCounts,
) -> Option<Choice>
    requires { 2 ^ 17 ≤ sum }
    ensures { result ≡ spec.framed_by_groups greatest_lead sum framing unit_counts.now }
{
    let needs = unit_counts.needs;
    let max_group_packets = unit_counts.max_group_packets.as_slice();
    if !is_framing(needs, framing) || !is_countable(needs, max_group_packets) {
        return None;
    }
    let lead = greatest_lead.min(90_000);
    choose_framed(needs, framing, max_group_packets, sum, lead)
}

// Returns the same if the options allow groups.
#[tactic(auto, unfolding(crate::specs::Declarations::framed_of))]
fn framed_of(
    declare_by: DeclareBy,
    greatest_lead: u32,
    sum: u64,
    framing: FrameCounts,
    unit_counts: &UnitCounts,
) -> Option<Choice>
    requires { 2 ^ 17 ≤ sum }
    ensures { result ≡ spec.framed_of declare_by greatest_lead sum framing unit_counts.now }
{
    match declare_by {
        DeclareBy::Pace => None,
        DeclareBy::Groups | DeclareBy::Either => {
            framed_by_groups(greatest_lead, sum, framing, unit_counts)
        }
    }
}

// Returns whether a choice keeps these access units in an output whose shares have this sum.
fn keeps(sum: u64, framing: FrameCounts, unit_counts: &UnitCounts, chosen: StreamChoice) -> bool
    ensures { result ≡ spec.keeps sum framing unit_counts.now chosen }
{
    let choice = chosen.choice;
    keeps_framing(unit_counts.needs, framing, choice.lead, choice.share, sum)
}

// Returns whether a choice that keeps a stream's access units replaces its first choice: if it asks for less; or, if
// the first one does not keep them, for at most twice as much.
fn replaces(choice: Choice, first: Choice, first_keeps: bool) -> bool
    ensures { result ≡ spec.replaces choice first first_keeps }
{
    if first_keeps {
        choice.share < first.share
    } else {
        u128::from(choice.share) <= 2 * u128::from(first.share)
    }
}

// Returns a choice that declares these access units. The search for a rate begins with a 16th less than its share.
fn framed_with(
    framing: FrameCounts,
    multiplexing: Option<MultiplexingBuffer>,
    choice: Choice,
) -> StreamChoice
    ensures { result ≡ spec.framed_with framing multiplexing choice }
{
    StreamChoice {
        choice: Choice {
            allowance: choice.allowance,
            lead: choice.lead,
            share: choice.share - choice.share / 16,
        },
        multiplexing,
        framing: Some(framing),
    }
}

// Returns the first choice, with the access units if it keeps them.
fn first_framed(framing: FrameCounts, first: StreamChoice, first_keeps: bool) -> StreamChoice
    ensures { result ≡ spec.first_framed framing first first_keeps }
{
    if first_keeps {
        framed_with(framing, first.multiplexing, first.choice)
    } else {
        first
    }
}

// Returns the choice of a stream with these access units; `kept`: the choice that keeps them, if there is one.
#[tactic(auto, unfolding(crate::specs::Declarations::framed_or))]
fn framed_or(
    framing: FrameCounts,
    first: StreamChoice,
    first_keeps: bool,
    kept: Option<Choice>,
) -> StreamChoice
    ensures { result ≡ spec.framed_or framing first first_keeps kept }
{
    match kept {
        None => first_framed(framing, first, first_keeps),
        Some(choice) => {
            if replaces(choice, first.choice, first_keeps) {
                framed_with(framing, None, choice)
            } else {
                first_framed(framing, first, first_keeps)
            }
        }
    }
}

// Returns the choice of a stream by its first choice.
#[tactic(auto, unfolding(crate::specs::Declarations::with_frames))]
fn with_frames(
    declare_by: DeclareBy,
    greatest_lead: u32,
    sum: u64,
    unit_counts: &UnitCounts,
    first: StreamChoice,
) -> StreamChoice
    requires { 2 ^ 17 ≤ sum }
    ensures { result ≡ spec.with_frames declare_by greatest_lead sum (unit_counts.now, first) }
{
    match unit_counts.framing {
        None => first,
        Some(framing) => {
            let first_keeps = keeps(sum, framing, unit_counts, first);
            let kept = framed_of(declare_by, greatest_lead, sum, framing, unit_counts);
            framed_or(framing, first, first_keeps, kept)
        }
    }
}

/// Returns the choices of all streams by their first choices.
pub(crate) fn all_framed(
    alloc: Global,
    declare_by: DeclareBy,
    greatest_lead: u32,
    sum: u64,
    all: &[UnitCounts],
    first: &[StreamChoice],
) -> Result<Vec<StreamChoice>, AllocError>
    requires { 2 ^ 17 ≤ sum }
    ensures { IfOk result (λ chosen. chosen.items ≡ spec.all_framed declare_by greatest_lead sum all.now first.now) }
{
    let mut chosen = Vec::new(alloc);
    let mut all = all;
    let mut first = first;
    'streams: while let Some((unit_counts, later)) = all.split_first() {
        let Some((one, later_first)) = first.split_first() else {
            return Ok(chosen);
        };
        let choice = with_frames(declare_by, greatest_lead, sum, unit_counts, *one);
        chosen.push(choice)?;
        all = later;
        first = later_first;
    }
    Ok(chosen)
}
