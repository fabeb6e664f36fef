//! The slot that releases a unit.
ghost use Rattle.std.specs.Prelude.{◌≡◌, ◌-◌, ◌*◌, ◌<◌, ◌↔◌, IsNone, IfSome};
ghost use Rattle.clock27.specs.Release.{IsReleaseSlot, release};

use crate::rate::Rate;
use crate::units::SLOT_UNITS_AT_1BPS;

/// Returns the first slot that begins no earlier than `lead` before the decoding time `dts`, both
/// in units of 90 kHz; none if the time lies before the lead.
pub fn release_slot(rate: Rate, dts: u64, lead: u64) -> Option<u64>
    ensures early { IsNone result ↔ (dts < lead) }
    ensures least { IfSome result (IsReleaseSlot rate (dts - lead)) }
    ensures exact { IfSome result (λ slot. slot ≡ release rate lead dts) }
{
    let moment = dts.checked_sub(lead)?;
    let needed = u128::from(moment) * u128::from(rate.bits_per_second());
    Some(needed.div_ceil(SLOT_UNITS_AT_1BPS) as u64)
}
