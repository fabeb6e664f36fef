//! The choice of a group and a lead for a stream whose access units leave its main buffer one by one (ISO/IEC 13818-1,
//! 2.4.2.3).

ghost use Rattle.std.specs.Prelude.{◌≡◌, ◌≤◌, ◌<◌, ◌^◌, IfSome};
ghost use Rattle.stream_choice.specs.Ranges.{IsNeeds, IsGroup, AreMaxPackets};
ghost use Rattle.stream_choice.specs.FramedChoices as spec;

use crate::choice::{Choice, better};
use crate::frame_counts::FrameCounts;
use crate::frames::keeps_framing;
use crate::needs::Needs;
use crate::selection::choice_of;
use crate::shares::delay_before;

/// The number of leads that are tried for each group.
const LEADS: u64 = 64;

/// Returns the choice of a group and a lead, if the stream's buffers hold its units and its access units.
fn framed_choice(
    needs: Needs,
    framing: FrameCounts,
    sum: u64,
    group: u8,
    packets: u32,
    lead: u32,
) -> Option<Choice>
    requires ranges { IsNeeds needs }
    requires sum { 2 ^ 17 ≤ sum }
    requires group { IsGroup group packets }
    requires lead { lead ≤ 90000 }
    ensures { result ≡ spec.framed_choice needs framing sum group packets lead }
{
    let delay = delay_before(None, needs, sum);
    let choice = choice_of(needs, group, packets, delay, lead)?;
    if keeps_framing(needs, framing, choice.lead, choice.share, sum) {
        Some(choice)
    } else {
        None
    }
}

/// Returns the choice of a lead by its number, if the lead is not above the greatest.
fn numbered_framed(
    needs: Needs,
    framing: FrameCounts,
    sum: u64,
    max_lead: u32,
    group: u8,
    packets: u32,
    number: u64,
) -> Option<Choice>
    requires ranges { IsNeeds needs }
    requires sum { 2 ^ 17 ≤ sum }
    requires group { IsGroup group packets }
    requires lead { max_lead ≤ 90000 }
    requires number { number < 64 }
    ensures { result ≡ spec.numbered_framed needs framing sum max_lead group packets number }
{
    let lead = (number + 1) * u64::from(needs.interval) / 32;
    if lead <= u64::from(max_lead) {
        framed_choice(needs, framing, sum, group, packets, lead as u32)
    } else {
        None
    }
}

/// Returns the best choice of one group.
fn framed_group(
    needs: Needs,
    framing: FrameCounts,
    sum: u64,
    max_lead: u32,
    group: u8,
    packets: u32,
) -> Option<Choice>
    requires ranges { IsNeeds needs }
    requires sum { 2 ^ 17 ≤ sum }
    requires group { IsGroup group packets }
    requires lead { max_lead ≤ 90000 }
    ensures { result ≡ spec.framed_group needs framing sum max_lead group packets }
{
    let mut best = None;
    for number in 0..LEADS {
        best = better(
            best,
            numbered_framed(needs, framing, sum, max_lead, group, packets, number),
        );
    }
    best
}

/// Returns the group and the lead, at most `max_lead`, that ask for the least share among the pairs with which the
/// stream's buffers hold its units and its access units; `None` if they do so with none. `max_packets` is as in
/// `choose_groups`, and `sum` is the sum of all shares of the output. 64 leads of up to 64 groups are tried, each a
/// 32nd of the distance of units longer.
pub fn choose_framed(
    needs: Needs,
    framing: FrameCounts,
    max_packets: &[u32],
    sum: u64,
    max_lead: u32,
) -> Option<Choice>
    requires ranges { IsNeeds needs }
    requires sum { 2 ^ 17 ≤ sum }
    requires max_packets { AreMaxPackets max_packets.now }
    requires lead { max_lead ≤ 90000 }
    ensures value { result ≡ spec.framed_groups needs framing max_packets.now sum max_lead }
    ensures kept { IfSome result (spec.IsFramedChoice needs framing sum max_lead) }
{
    let mut best = None;
    for i in 0..max_packets.len() {
        best = better(
            best,
            framed_group(needs, framing, sum, max_lead, i as u8 + 1, max_packets[i]),
        );
    }
    best
}
