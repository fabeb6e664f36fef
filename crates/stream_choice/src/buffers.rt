//! Whether a stream's buffers hold its packets.

ghost use Rattle.std.specs.Prelude.{◌≡◌, ◌≤◌, ◌<◌, ◌^◌};
ghost use Rattle.stream_choice.specs.Ranges.{IsNeeds, IsGroup, IsAllowance};
ghost use Rattle.stream_choice.specs.Buffers as spec;
ghost use Rattle.stream_choice.specs.Shares as shares;
ghost use Rattle.unit_timing.specs.PesPacket.{grouped};
ghost use Rattle.unit_timing.specs.Allowances.{packets_within};

use crate::needs::{Needs, packets_of_unit};
use clock27::SLOT_UNITS_AT_1BPS;
use unit_timing::allowance::Allowance;
use unit_timing::shares::PARTS;

/// Returns whether the transport buffer is drained no slower than packets of the share arrive.
pub fn drains(needs: Needs, share: u64) -> bool
    ensures { result ≡ spec.drains needs share }
{
    u128::from(share) * SLOT_UNITS_AT_1BPS <= u128::from(needs.rx) * u128::from(PARTS)
}

/// Returns the most packets of `units` units in a row, in groups and a rest.
fn grouped_packets(needs: Needs, group: u64, packets: u32, units: u64) -> u64
    requires ranges { IsNeeds needs }
    requires group { IsGroup group packets }
    requires units { units ≤ 90000 }
    ensures value { result ≡ grouped group packets (shares.packets_of_unit needs) units }
    ensures upper { result ≤ 2 ^ 38 }
{
    let packets = u64::from(packets);
    let rest = units % group * packets_of_unit(needs);
    let rest = if packets < rest { packets } else { rest };
    units / group * packets + rest
}

/// Returns the most packets of `units` units that wait at once within a lead.
fn packets_within(needs: Needs, allowance: Allowance, units: u64, lead: u32) -> u128
    requires ranges { IsNeeds needs }
    requires allowance { IsAllowance allowance }
    requires units { units ≤ 90000 }
    requires lead { lead ≤ 90000 }
    ensures value { result ≡ packets_within allowance (shares.packets_of_unit needs) units lead }
    ensures upper { result ≤ 2 ^ 38 }
{
    match allowance {
        Allowance::Groups {
            units: group,
            packets,
        } => u128::from(grouped_packets(needs, u64::from(group), packets, units)),
        Allowance::Pace { burst, pace } => {
            u128::from(burst) + u128::from(pace) * u128::from(lead) / SLOT_UNITS_AT_1BPS
        }
    }
}

/// Returns the most packets of this share that arrive within a lead.
fn packets_of_share(lead: u32, share: u64) -> u128
    requires lead { lead ≤ 90000 }
    ensures value { result ≡ spec.packets_of_share lead share }
    ensures upper { result ≤ 2 ^ 42 }
{
    u128::from(lead) * u128::from(share) / u128::from(PARTS) + 2
}

/// Returns the most bytes that wait for their decoding at once.
fn waiting_bytes(needs: Needs, allowance: Allowance, lead: u32, share: u64) -> u128
    requires ranges { IsNeeds needs }
    requires allowance { IsAllowance allowance }
    requires lead { lead ≤ 90000 }
    ensures { result ≡ spec.waiting_bytes needs allowance lead share }
{
    let units = u64::from(lead).div_ceil(u64::from(needs.interval));
    let sizes = u128::from(units * (19 + u64::from(needs.size)));
    let by_units = packets_within(needs, allowance, units, lead);
    let by_share = packets_of_share(lead, share);
    let packets = if by_units < by_share {
        by_units
    } else {
        by_share
    };
    if sizes < 184 * packets {
        sizes
    } else {
        184 * packets
    }
}

/// Returns whether the main buffer holds these bytes.
pub fn holds(needs: Needs, allowance: Allowance, lead: u32, share: u64) -> bool
    requires ranges { IsNeeds needs }
    requires allowance { IsAllowance allowance }
    requires lead { lead ≤ 90000 }
    ensures { result ≡ spec.holds needs allowance lead share }
{
    waiting_bytes(needs, allowance, lead, share) <= u128::from(needs.main)
}
