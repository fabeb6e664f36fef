//! How often tables have to come.
ghost use Rattle.std.specs.Prelude.{◌≡◌};
ghost use Rattle.tr101290.specs.Limits as spec;

// Ticks of 27 MHz in a millisecond.
const TICKS_PER_MS: u64 = 27_000;

// Returns the milliseconds within which sections of a table_id follow each other on a PID.
#[tactic(auto, unfolding(crate::specs::Limits::milliseconds))]
fn milliseconds(pid: u16, table_id: u8) -> Option<u16>
    ensures { result ≡ spec.milliseconds pid table_id }
{
    if table_id == 0x02 {
        Some(500)
    } else if pid == 0x00 && table_id == 0x00 {
        Some(500)
    } else if pid == 0x10 && (table_id == 0x40 || table_id == 0x41) {
        Some(10_000)
    } else if pid == 0x11 && table_id == 0x42 {
        Some(2_000)
    } else if pid == 0x11 && (table_id == 0x46 || table_id == 0x4A) {
        Some(10_000)
    } else if pid == 0x12 && table_id == 0x4E {
        Some(2_000)
    } else if pid == 0x12 && table_id == 0x4F {
        Some(10_000)
    } else if pid == 0x14 && (table_id == 0x70 || table_id == 0x73) {
        Some(30_000)
    } else {
        None
    }
}

/// Returns the greatest time from one section of a table_id on a PID to the next, in ticks of 27 MHz, for PAT, PMT,
/// NIT, SDT, BAT, EIT of present and following events, TDT and TOT on their own PIDs; `None` for other tables.
pub fn limit_of(pid: u16, table_id: u8) -> Option<u64>
    ensures { result ≡ spec.limit_of pid table_id }
{
    let milliseconds = milliseconds(pid, table_id)?;
    Some(u64::from(milliseconds) * TICKS_PER_MS)
}
