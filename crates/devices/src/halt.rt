//! Why a subcommand ends early, with the line and the status.
ghost use Rattle.std.specs.Prelude.{◌≡◌};
ghost use Rattle.devices.specs.Devices.{writes};
ghost use Rattle.devices.specs.Lines.{Reports};
ghost use Rattle.devices.specs.Outcomes.{halted};

use crate::lines::report_line;
use counted_io::Sink;

/// Why a subcommand ends early.
#[derive(Clone, Copy, Debug, PartialEq, Eq)]
pub enum Halt {
    /// A call of the reader failed, or the input is too long.
    Read,
    /// A call of the writer failed.
    Write,
    /// Out of memory.
    Memory,
}

/// Reports why a subcommand ends early, and returns the status.
pub fn report_halt<E: Sink>(faults: &mut E, halt: Halt) -> u8
    ensures status { result ≡ (halted halt).status }
    ensures reports { Reports (writes E.Sink faults.old faults.new) (halted halt).report }
{
    match halt {
        Halt::Read => report_line(faults, "read", &[]),
        Halt::Write => report_line(faults, "write", &[]),
        Halt::Memory => report_line(faults, "memory", &[]),
    }
    3
}
