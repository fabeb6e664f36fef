//! The units that can wait for their decoding times at once: their number, their packets, their bytes.

ghost use Rattle.std.specs.Prelude.{◌≡◌, ◌^◌, ◌<◌, ◌≤◌};
ghost use Rattle.description_parts.specs.Ranges.{IsStream};
ghost use Rattle.unit_timing.specs.Conditions.{waiting_units, waiting_packets, bytes_by_units};
ghost use Rattle.slot_plan.specs.Claims.{led_declaration};

use crate::leads::packets_of_unit;
use clock27::SLOT_UNITS_AT_1BPS;
use slot_plan::StreamDescription;
use unit_timing::allowance::Allowance;

/// Returns the units that can wait at once if they are sent at most `lead` units of 90 kHz before their decoding
/// times, rounded up.
fn waiting_units(stream: &StreamDescription, lead: u64) -> u64
    requires ranges { IsStream stream.now }
    requires lead { lead ≤ 90000 }
    ensures units { result ≡ waiting_units (led_declaration stream.now lead) }
    ensures bound { result ≤ 90000 }
{
    lead.div_ceil(stream.interval as u64)
}

/// Returns the most packets of these units: whole groups, and a rest. By pace it is the burst, and what comes within
/// the lead.
#[tactic(auto, using(description::proofs::Allowed::within_few))]
fn waiting_packets(stream: &StreamDescription, lead: u64) -> u64
    requires ranges { IsStream stream.now }
    requires lead { lead ≤ 90000 }
    ensures packets { result ≡ waiting_packets (led_declaration stream.now lead) }
    ensures bound { result < 2 ^ 40 }
{
    match stream.allowance {
        Allowance::Groups { units, packets } => {
            let (group, most) = (units as u64, packets as u64);
            let waiting = waiting_units(stream, lead);
            waiting / group * most + (waiting % group * packets_of_unit(stream)).min(most)
        }
        Allowance::Pace { burst, pace } => {
            burst as u64 + pace as u64 * lead / SLOT_UNITS_AT_1BPS as u64
        }
    }
}

/// Returns their bytes: by the sizes of the units or by their packets, the smaller.
pub fn bytes_led(stream: &StreamDescription, lead: u64) -> u64
    requires ranges { IsStream stream.now }
    requires lead { lead ≤ 90000 }
    ensures bytes { result ≡ bytes_by_units (led_declaration stream.now lead) }
{
    let sizes = waiting_units(stream, lead) * (19 + stream.size as u64);
    sizes.min(184 * waiting_packets(stream, lead))
}
