//! Writing to a device.
ghost use Rattle.std.specs.Prelude.{◌≡◌, ℕ, ◌≤◌, ◌<◌, length, take, OnOk, OnErr, IfOk, IfErr};
ghost use Rattle.std.specs.Io.{WritesAtMost};
ghost use Rattle.std.specs.Io.KnownBytes.{WriteAppends, Appends};
ghost use Rattle.counted_io.specs.Device.{CountsFailure, CountsOne, taken_of};

use crate::fault::DeviceFault;
use std::io::{self, Write};

/// A writer whose failed calls are counted.
pub trait Sink: Write {
    ghost fault_count: { Self → ℕ };

    /// Makes one `write`, which also fails if the writer takes no byte of a part that has some. A failed call takes no
    /// byte and is counted.
    fn write_some(&mut self, part: &[u8]) -> io::Result<usize>
        ensures bound { WritesAtMost result part.now }
        ensures progress { IfOk result (λ n. 0 < length part.now → 0 < n) }
        ensures bytes { WriteAppends (Self.contents self.old) (Self.contents self.new)
            result part.now }
        ensures counts { CountsFailure (fault_count self.old) (fault_count self.new) result };

    /// Returns how many calls of `write_some` have failed. The count stops at `u64::MAX`.
    fn faults(&self) -> u64
        ensures { result ≡ fault_count self.now };
}

/// Writes the whole part, or says how many bytes of it the writer took before a call failed.
pub fn write_part<W: Sink>(to: &mut W, part: &[u8]) -> Result<(), DeviceFault>
    // What a writer whose bytes are known holds: the part, or its first `taken` bytes.
    ensures bytes { Appends (W.contents to.old) (W.contents to.new)
        (take (taken_of result (length part.now)) part.now) }
    ensures short { IfErr result (λ fault. fault.taken < length part.now) }

    ensures clean { OnOk result (W.fault_count to.new ≡ W.fault_count to.old) }
    ensures fault { OnErr result (CountsOne (W.fault_count to.old) (W.fault_count to.new)) }
    ensures later { W.fault_count to.old ≤ W.fault_count to.new }
{
    let mut taken = 0;
    while taken < part.len() {
        match to.write_some(&part[taken..]) {
            Ok(n) => taken += n,
            Err(_) => return Err(DeviceFault { taken }),
        }
    }
    Ok(())
}
