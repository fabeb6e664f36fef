//! Why bytes of frames are dropped.

ghost use Rattle.std.specs.Prelude.{◌≡◌};
ghost use Rattle.tsair_cli.specs.OpenFrames.{fault_of};

use unit_records::UnitFileError;

/// Why bytes of frames are dropped.
#[derive(Clone, Copy)]
pub enum FrameFault {
    /// They are no whole record. All bytes up to the next mark are dropped with them.
    Dropped,
    /// No memory was left for the bytes of the unit. The rest of its record is dropped.
    NoMemory,
}

/// Returns the fault of a record that is refused.
pub(crate) fn fault_of(refusal: UnitFileError) -> FrameFault
    ensures { result ≡ fault_of refusal }
{
    match refusal {
        UnitFileError::Memory => FrameFault::NoMemory,
        UnitFileError::Cut => FrameFault::Dropped,
        UnitFileError::Size => FrameFault::Dropped,
        UnitFileError::Device => FrameFault::Dropped,
    }
}
