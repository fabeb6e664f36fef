//! Units as they arrive.
ghost use Rattle.std.specs.Prelude.{◌≡◌, ◌-◌, ◌<◌, ◌^◌};
ghost use Rattle.tstd_rows.specs.DueTimes.{due_on};

use clock27::units::BYTE_TICKS_AT_1BPS;

/// When a unit is due, in whole units of time at the buffer of its stream.
#[derive(Clone, Copy)]
pub struct DueTime {
    /// The first moment at which its bytes are no longer in the main buffer.
    pub until: u128,
    /// The last moment at which its last byte may leave the transport buffer.
    pub deadline: u128,
}

impl DueTime {
    /// Returns the due time `tick` ticks of 27 MHz after a stream's first byte, if a byte takes `step` to leave a
    /// buffer at its own rate, at a buffer drained at `rx` bits a second; in units of `8 / (step * rx)` seconds.
    pub fn on_tick(step: u64, rx: u32, tick: u128) -> DueTime
        requires step { step < 2 ^ 32 }
        requires tick { tick < 2 ^ 61 }
        ensures { result ≡ due_on step rx tick }
    {
        let parts = tick * (u128::from(step) * u128::from(rx));
        DueTime {
            until: parts.div_ceil(BYTE_TICKS_AT_1BPS),
            deadline: parts / BYTE_TICKS_AT_1BPS,
        }
    }
}

/// A unit, as far as it has arrived.
#[derive(Clone, Copy)]
pub struct UnitSeen {
    pub due: DueTime,
    /// The number of its bytes.
    pub bytes: u64,
    /// When the last of these bytes leaves the transport buffer, 0 if no byte has arrived.
    pub left: u128,
}

impl UnitSeen {
    /// Returns how long before its deadline its last byte has left the transport buffer, 0 if it has not.
    pub fn slack(&self) -> u128
        ensures { result ≡ self.now.due.deadline - self.now.left }
    {
        self.due.deadline.saturating_sub(self.left)
    }

    /// Returns how long after its deadline its last byte leaves the transport buffer, 0 if it is in time. A late unit
    /// is not whole in the main buffer when it is decoded.
    pub fn lateness(&self) -> u128
        ensures { result ≡ self.now.left - self.now.due.deadline }
    {
        self.left.saturating_sub(self.due.deadline)
    }
}
