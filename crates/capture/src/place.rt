//! A place in a capture.
ghost use Rattle.std.specs.Prelude.{◌≡◌, ◌+◌, IfOk};
ghost use Rattle.capture.specs.Captures as spec;

use std::alloc::AllocError;

/// A place in a capture: how many packets, and how many bytes, come before it.
#[derive(Clone, Copy)]
pub struct Place {
    pub packet: usize,
    pub start: usize,
}

// Adds `by` to a number. Refused from 2^64 on, since no memory holds a stream of that size.
fn more(number: usize, by: usize) -> Result<usize, AllocError>
    ensures { IfOk result (λ sum. sum ≡ number + by) }
{
    match number.checked_add(by) {
        Some(sum) => Ok(sum),
        None => Err(AllocError),
    }
}

impl Place {
    /// Before the first byte.
    pub(crate) const FIRST: Place = Place {
        packet: 0,
        start: 0,
    };

    /// Returns the place after packets of 188 bytes with `size` bytes in all.
    pub(crate) fn after_packets(self, size: usize) -> Result<Place, AllocError>
        ensures { IfOk result (λ p. p ≡ spec.after_packets size self) }
    {
        let packet = more(self.packet, size / 188)?;
        let start = more(self.start, size)?;
        Ok(Place { packet, start })
    }

    /// Returns the place after `size` bytes that are in no packet.
    pub(crate) fn after_slip(self, size: usize) -> Result<Place, AllocError>
        ensures { IfOk result (λ p. p ≡ spec.after_slip size self) }
    {
        let packet = self.packet;
        let start = more(self.start, size)?;
        Ok(Place { packet, start })
    }
}
