//! The number of slots of a job without `--slots`.
ghost use Rattle.std.specs.Prelude.{◌≡◌, ◌≤◌};
ghost use Rattle.checked_jobs.specs.MuxJobs.{default_slots, greatest_dts};

use clock27::SLOT_UNITS_AT_1BPS;
use pes_packet::Unit;

/// The greatest number of slots of a run.
const MOST_SLOTS: u128 = 1 << 40;

/// Returns the greatest DTS of units, 0 without units.
fn greatest_dts(units: &[(u8, Unit)]) -> u64
    ensures { result ≡ greatest_dts units.now }
{
    units
        .iter()
        .fold(0, |greatest, entry| greatest.max(entry.1.dts))
}

/// Returns the number of slots up to the greatest DTS, 2^40 at most.
pub fn default_slots(rate: u64, units: &[(u8, Unit)]) -> u64
    requires { rate ≤ 100_000_000 }
    ensures { result ≡ default_slots rate units.now }
{
    let ticks = u128::from(greatest_dts(units)) * u128::from(rate);
    let slots = (ticks + SLOT_UNITS_AT_1BPS - 1) / SLOT_UNITS_AT_1BPS;
    slots.min(MOST_SLOTS) as u64
}
