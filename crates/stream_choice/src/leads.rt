//! The leads that are tried.

ghost use Rattle.std.specs.Prelude.{◌≡◌, ◌≤◌, ◌<◌};
ghost use Rattle.stream_choice.specs.Ranges.{IsNeeds, IsGroup};
ghost use Rattle.stream_choice.specs.Leads as spec;

use crate::needs::{Needs, packets_in_row};

/// The number of leads that are tried for each group.
pub const LEADS: u64 = 129;

/// Returns the lead, in units of 90 kHz, that `units` units in a row need to ask for no more than their groups' share.
fn row_lead(needs: Needs, group: u64, packets: u32, units: u64) -> u64
    requires ranges { IsNeeds needs }
    requires group { IsGroup group packets }
    requires units { 1 ≤ units }
    requires units_bound { units ≤ 64 }
    ensures value { result ≡ spec.row_lead needs group packets units }
    ensures upper { result ≤ 5760000 }
{
    let interval = u64::from(needs.interval);
    let time = packets_in_row(needs, packets, units) * group * interval;
    time.div_ceil(u64::from(packets))
        .saturating_sub((units - 1) * interval)
}

/// Returns the least lead that lets no units in a row ask for more than their groups do.
pub fn sufficient_lead(needs: Needs, group: u64, packets: u32, delay: u32) -> u64
    requires ranges { IsNeeds needs }
    requires group { IsGroup group packets }
    ensures value { result ≡ spec.sufficient_lead needs group packets delay }
{
    let mut greatest = 0;
    for before in 0..group {
        greatest = greatest.max(row_lead(needs, group, packets, before + 1));
    }
    let interval = group * u64::from(needs.interval);
    greatest + u64::from(delay) + interval.div_ceil(u64::from(packets))
}

/// Returns a lead by its number: the sufficient one, then distances of units, then even steps to the greatest.
pub fn numbered_lead(needs: Needs, sufficient: u64, max_lead: u32, number: u64) -> u64
    requires ranges { IsNeeds needs }
    requires lead { max_lead ≤ 90000 }
    requires number { number < 129 }
    ensures { result ≡ spec.numbered_lead needs sufficient max_lead number }
{
    if number == 0 {
        sufficient
    } else if number <= 64 {
        number * u64::from(needs.interval)
    } else {
        (number - 64) * u64::from(max_lead) / 64
    }
}
