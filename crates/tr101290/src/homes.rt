//! Which tables belong on the PIDs of tables.
ghost use Rattle.std.specs.Prelude.{◌≡◌};
ghost use Rattle.tr101290.specs.Homes as spec;

/// Returns whether sections of a table_id may be on a PID: on the PIDs of PAT, CAT, NIT, SDT, EIT, RST and TDT these
/// tables alone, and stuffing tables (0x72) on all of them but the first two.
pub fn belongs(pid: u16, table_id: u8) -> bool
    ensures { result ≡ spec.belongs pid table_id }
{
    match pid {
        0x00 => table_id == 0x00,
        0x01 => table_id == 0x01,
        0x10 => table_id == 0x40 || table_id == 0x41 || table_id == 0x72,
        0x11 => table_id == 0x42 || table_id == 0x46 || table_id == 0x4A || table_id == 0x72,
        0x12 => (table_id >= 0x4E && table_id <= 0x6F) || table_id == 0x72,
        0x13 => table_id == 0x71 || table_id == 0x72,
        0x14 => table_id == 0x70 || table_id == 0x72 || table_id == 0x73,
        _ => true,
    }
}
