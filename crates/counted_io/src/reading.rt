//! Reading from a device.
ghost use Rattle.std.specs.Prelude.{◌≡◌, ℕ, ◌≤◌, List, length, OnOk, OnErr, IfOk, IfErr, ◌<◌};
ghost use Rattle.std.specs.Io.{ReadsAtMost};
ghost use Rattle.std.specs.Io.KnownBytes.{ReadConsumes};
ghost use Rattle.counted_io.specs.Device.{CountsFailure, CountsOne, ReadsPart};

use crate::fault::DeviceFault;
use std::io::{self, Read};

/// A reader whose failed calls are counted.
pub trait Source: Read {
    ghost fault_count: { Self → ℕ };

    /// Returns one `read`. A failed one takes no byte and is counted.
    fn read_some(&mut self, part: &mut [u8]) -> io::Result<usize>
        ensures bound { ReadsAtMost result part.new }
        ensures bytes { ReadConsumes (Self.remaining self.old) (Self.remaining self.new)
            result part.new }
        ensures counts { CountsFailure (fault_count self.old) (fault_count self.new) result };

    /// Returns how many calls of `read_some` have failed. The count stops at `u64::MAX`.
    fn faults(&self) -> u64
        ensures { result ≡ fault_count self.now };
}

/// Fills the part as far as the input goes, and says how many bytes were read: fewer than the part holds only where
/// the input ends. The first failed call ends it.
pub fn read_part<R: Source>(from: &mut R, part: &mut [u8]) -> Result<usize, DeviceFault>
    // If the input's bytes are known: which bytes were read, and which remain.
    ensures known { (xs : List ℕ) → R.remaining from.old ≡ Some xs →
        ReadsPart xs (R.remaining from.new) part.new result }

    // For any input.
    ensures bound { IfOk result (λ n. n ≤ length part.new) }
    ensures short { IfErr result (λ fault. fault.taken < length part.new) }

    ensures clean { OnOk result (R.fault_count from.new ≡ R.fault_count from.old) }
    ensures fault { OnErr result (CountsOne (R.fault_count from.old) (R.fault_count from.new)) }
    ensures later { R.fault_count from.old ≤ R.fault_count from.new }
{
    let mut taken = 0;
    while taken < part.len() {
        match from.read_some(&mut part[taken..]) {
            Ok(0) => return Ok(taken),
            Ok(n) => taken += n,
            Err(_) => return Err(DeviceFault { taken }),
        }
    }
    Ok(taken)
}
