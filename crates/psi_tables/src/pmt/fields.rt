//! Fields of the PMT with reserved bits before them, as they are written.

ghost use Rattle.std.specs.Prelude.{◌≡◌};
ghost use Rattle.psi_tables.specs.ProgramMap.{pid_bytes, info_length_bytes};

/// Returns a PID after three reserved bits.
#[tactic(auto, unfolding(crate::specs::ProgramMap::pid_bytes))]
pub fn pid_bytes(pid: u16) -> [u8; 2]
    ensures { result ≡ pid_bytes pid }
{
    let [high, low] = pid.to_be_bytes();
    [0xe0 + (high & 0x1f), low]
}

/// Returns a number of descriptor bytes after four reserved bits.
#[tactic(auto, unfolding(crate::specs::ProgramMap::info_length_bytes))]
pub fn info_length_bytes(length: usize) -> [u8; 2]
    ensures { result ≡ info_length_bytes length }
{
    let high = (length >> 8 & 0x0f) as u8;
    let low = (length & 0xff) as u8;
    [0xf0 + high, low]
}
