//! The choice of a group and a lead.

ghost use Rattle.std.specs.Prelude.{◌≡◌, ◌≤◌, ◌<◌, IfSome, IsNone};
ghost use Rattle.stream_choice.specs.Ranges.{IsNeeds, IsGroup, AreMaxPackets};
ghost use Rattle.stream_choice.specs.Choices as spec;
ghost use Rattle.stream_choice.specs.Leads as leads;

use crate::buffers::{drains, holds};
use crate::choice::{Choice, better};
use crate::leads::{LEADS, numbered_lead, sufficient_lead};
use crate::needs::Needs;
use crate::shares::lead_share;
use unit_timing::allowance::Allowance;

/// Returns the choice of a group and a lead; None if the lead is too short or a buffer does not hold the units.
pub fn choice_of(needs: Needs, group: u8, packets: u32, delay: u32, lead: u32) -> Option<Choice>
    requires ranges { IsNeeds needs }
    requires group { IsGroup group packets }
    requires lead { lead ≤ 90000 }
    ensures { result ≡ spec.choice_of needs group packets delay lead }
{
    let share = lead_share(needs, u64::from(group), packets, delay, lead)?;
    let allowance = Allowance::Groups {
        units: group,
        packets,
    };
    if drains(needs, share) && holds(needs, allowance, lead, share) {
        Some(Choice {
            allowance,
            lead,
            share,
        })
    } else {
        None
    }
}

/// Returns the choice of a lead by its number, if it is not above the sufficient lead or the greatest.
fn numbered_choice(
    needs: Needs,
    delay: u32,
    max_lead: u32,
    group: u8,
    packets: u32,
    sufficient: u64,
    number: u64,
) -> Option<Choice>
    requires ranges { IsNeeds needs }
    requires group { IsGroup group packets }
    requires lead { max_lead ≤ 90000 }
    requires sufficient { sufficient ≡ leads.sufficient_lead needs group packets delay }
    requires number { number < 129 }
    ensures { result ≡ spec.numbered_choice needs delay max_lead group packets number }
{
    let lead = numbered_lead(needs, sufficient, max_lead, number);
    if lead <= sufficient && lead <= u64::from(max_lead) {
        choice_of(needs, group, packets, delay, lead as u32)
    } else {
        None
    }
}

/// Returns the best choice of one group.
fn group_choice(needs: Needs, delay: u32, max_lead: u32, group: u8, packets: u32) -> Option<Choice>
    requires ranges { IsNeeds needs }
    requires group { IsGroup group packets }
    requires lead { max_lead ≤ 90000 }
    ensures { result ≡ spec.group_choice needs delay max_lead group packets }
{
    let sufficient = sufficient_lead(needs, u64::from(group), packets, delay);
    let mut best = None;
    for number in 0..LEADS {
        best = better(
            best,
            numbered_choice(needs, delay, max_lead, group, packets, sufficient, number),
        );
    }
    best
}

/// Returns the group and the lead, at most `max_lead`, that ask for the least share among the pairs that the stream's
/// buffers hold; `None` if they hold none. `max_packets[g - 1]` are the most packets of `g` units in a row, and `delay`
/// is the longest time from a packet's slot to its end in the transport buffer; times are in units of 90 kHz.
///
/// Up to 129 leads of up to 64 groups are tried, with as many divisions each as the group has units, twice.
pub fn choose_groups(needs: Needs, max_packets: &[u32], delay: u32, max_lead: u32) -> Option<Choice>
    requires ranges { IsNeeds needs }
    requires max_packets { AreMaxPackets max_packets.now }
    requires lead { max_lead ≤ 90000 }
    ensures value { result ≡ spec.groups_choice needs max_packets.now delay max_lead }
    ensures holds { IfSome result (spec.IsChoice needs max_lead) }
    ensures groups { IfSome result (spec.IsGroupsChoice needs max_packets.now delay) }
    ensures best { IfSome result (spec.IsBest needs max_packets.now delay max_lead) }
    ensures refused { IsNone result → spec.IsRefused needs max_packets.now delay max_lead }
{
    let mut best = None;
    for i in 0..max_packets.len() {
        best = better(
            best,
            group_choice(needs, delay, max_lead, i as u8 + 1, max_packets[i]),
        );
    }
    best
}
