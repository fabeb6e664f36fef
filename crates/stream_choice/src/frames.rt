//! Whether the main buffer of a stream holds what waits if access units are removed one by one (ISO/IEC 13818-1,
//! 2.4.2.3), and how long before its DTS a unit may then be sent.

ghost use Rattle.std.specs.Prelude.{◌≡◌, ◌≤◌, ◌<◌, ◌^◌};
ghost use Rattle.stream_choice.specs.Frames as spec;

use crate::frame_counts::FrameCounts;
use crate::needs::Needs;
use unit_timing::shares::PARTS;

// Returns the most bytes of the last `count` access units of a unit that has more; 0 if so many are not summed.
fn left_of(framing: FrameCounts, count: u8) -> u32
    ensures { result ≡ spec.left_of framing count }
{
    match framing
        .left
        .as_slice()
        .get(count.saturating_sub(1) as usize)
    {
        None => 0,
        Some(bytes) => *bytes,
    }
}

// Returns whether the sums of bytes of access units are in the ranges of a description.
fn are_sums(needs: Needs, framing: FrameCounts) -> bool
    ensures { result ≡ spec.are_sums needs framing }
{
    let most = framing.frames.saturating_sub(1);
    0 < left_of(framing, 1) && left_of(framing, most) <= needs.size
}

/// Returns whether the numbers are in the ranges of a description, of two access units or more, the last of which is
/// removed before the next unit is due.
#[tactic(auto, unfolding(crate::specs::Frames::is_framing))]
pub fn is_framing(needs: Needs, framing: FrameCounts) -> bool
    ensures { result ≡ spec.is_framing needs framing }
{
    1 < framing.frames
        && framing.frames <= 64
        && 0 < framing.frame
        && framing.frame <= 90_000
        && 0 < framing.rest
        && framing.rest <= 90_000
        && are_sums(needs, framing)
}

// Returns the most packets of this share that arrive within a lead, in an output whose shares have this sum, if each
// has a slot in a part of its own of the time.
fn framed_packets(lead: u32, share: u64, sum: u64) -> u128
    ensures value { result ≡ spec.framed_packets lead share sum }
    ensures bound { result < 2 ^ 98 }
{
    let parts = u128::from(PARTS);
    let own = parts * u128::from(share) / u128::from(sum.max(1));
    let strays = parts.saturating_sub(own);
    (u128::from(lead) * u128::from(share) + strays) / parts + 1
}

// Returns the most bytes of later units that arrive within a lead.
fn later_bytes(needs: Needs, lead: u32, share: u64, sum: u64) -> u128
    ensures value { result ≡ spec.later_bytes needs lead share sum }
    ensures bound { result < 2 ^ 70 }
{
    let units = u128::from(lead.div_ceil(needs.interval.max(1)));
    let packets = framed_packets(lead, share, sum);
    (units * (19 + u128::from(needs.size))).min(184 * packets)
}

// Returns how long after any moment with `left` access units of a unit left the next unit is due, at most the lead.
fn ahead(framing: FrameCounts, lead: u32, left: u8) -> u32
    ensures value { result ≡ spec.ahead framing lead left }
    ensures most { result ≤ lead }
{
    let others = u64::from(left.saturating_sub(1)) * u64::from(framing.frame);
    (u64::from(framing.rest) + others).min(u64::from(lead)) as u32
}

// Returns the bytes that wait when `left` access units of a unit are left.
#[tactic(auto, unfolding(crate::specs::Frames::framed_bytes))]
fn framed_bytes(
    needs: Needs,
    framing: FrameCounts,
    lead: u32,
    share: u64,
    sum: u64,
    left: u8,
) -> u128
    ensures { result ≡ spec.framed_bytes needs framing lead share sum left }
{
    let bytes = u128::from(left_of(framing, left));
    let ahead = ahead(framing, lead, left);
    if ahead < lead {
        bytes + later_bytes(needs, lead - ahead, share, sum)
    } else {
        bytes
    }
}

/// Returns the most bytes that wait in the main buffer when access units of a unit are left, but not all. `sum` is the sum
/// of all shares of the output.
pub fn most_waiting(needs: Needs, framing: FrameCounts, lead: u32, share: u64, sum: u64) -> u128
    ensures { result ≡ spec.most_waiting needs framing lead share sum }
{
    let mut most = 0;
    for before in 0..framing.frames.saturating_sub(1) {
        most = most.max(framed_bytes(needs, framing, lead, share, sum, before + 1));
    }
    most
}

/// Returns the longest lead, in units of 90 kHz, with which the last access unit of a unit is in the buffers for at most
/// a second (2.4.2.6).
pub fn framed_lead(framing: FrameCounts) -> u32
    ensures value { result ≡ spec.framed_lead framing }
    ensures most { result ≤ 90000 }
{
    let others = u64::from(framing.frames.saturating_sub(1));
    90_000u64.saturating_sub(others * u64::from(framing.frame)) as u32
}

/// Returns whether a stream of this lead and share may declare these access units: their numbers are in the ranges of a
/// description, the last one is in the buffers for at most a second, and the main buffer holds the bytes that wait,
/// however many of a unit's access units are left. `sum` is the sum of all shares of the output.
pub fn keeps_framing(needs: Needs, framing: FrameCounts, lead: u32, share: u64, sum: u64) -> bool
    ensures { result ≡ spec.keeps_framing needs framing lead share sum }
{
    is_framing(needs, framing)
        && lead <= framed_lead(framing)
        && most_waiting(needs, framing, lead, share, sum) <= u128::from(needs.main)
}
