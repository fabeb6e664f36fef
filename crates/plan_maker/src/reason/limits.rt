//! Limits that are shorter than the slots of what recurs within them.

ghost use Rattle.std.specs.Prelude.{◌≡◌, ◌<◌};
ghost use Rattle.std.specs.Option.{option_to_list};
ghost use Rattle.description_parts.specs.Tables.{table_count};
ghost use Rattle.plan_maker.specs.Reasons.{least_limit, pcr_reason, table_reason};

use crate::reason::Reason;
use clock27::SLOT_MS_AT_1BPS;
use slot_plan::{Description, ProgramDescription};

/// Returns the least limit in ms that has time for `slots` slots.
fn least_limit(description: &Description, slots: u64) -> u64
    requires { slots < 100000 }
    ensures { result ≡ least_limit description.now slots }
{
    description.keeps_ranges();
    (SLOT_MS_AT_1BPS as u64 * slots).div_ceil(description.rate().bits_per_second())
}

/// Returns a reason if the PCR limit of program number `i` is shorter than a slot.
pub fn pcr_reason(
    description: &Description,
    i: usize,
    program: &ProgramDescription,
) -> Option<Reason>
    requires { i < 256 }
    ensures { option_to_list result ≡ pcr_reason description.now i program.now }
{
    let given = program.pcr_limit() as u64 * description.rate().bits_per_second();
    if given < SLOT_MS_AT_1BPS as u64 {
        Some(Reason::PcrLimit(i as u8, least_limit(description, 1)))
    } else {
        None
    }
}

/// Returns a reason if the limit of table number `t` is shorter than the slots of a round.
pub fn table_reason(description: &Description, t: usize) -> Option<Reason>
    requires { t < table_count description.now }
    ensures { option_to_list result ≡ table_reason description.now t }
{
    description.keeps_ranges();
    let packets = description.round_packets(t) as u64;
    let given = description.table_limit(t) as u64 * description.rate().bits_per_second();
    if given < packets * SLOT_MS_AT_1BPS as u64 {
        Some(Reason::TableLimit(t as u8, least_limit(description, packets)))
    } else {
        None
    }
}
