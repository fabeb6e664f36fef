//! Why a unit of video is late.
ghost use Rattle.std.specs.Prelude.{◌≡◌, ◌-◌};
ghost use Rattle.tstd_rows.specs.VideoViewed.{cause_of, unit_cause};

use crate::unit_seen::UnitSeen;

/// Why a unit is not whole in the elementary stream buffer when it is decoded (ISO/IEC 13818-1, 2.4.2.3, the leak
/// method).
#[derive(Clone, Copy)]
pub enum LateCause {
    /// The multiplexing buffer alone makes it late: the multiplex sent its bytes too late, or too many of them at a
    /// time.
    Multiplex,
    /// The elementary stream buffer was full: the stream does not keep to its own video buffer.
    FullBuffer,
}

/// Returns why a unit is late: its last byte leaves the multiplexing buffer at `alone` if the elementary stream buffer
/// is never full, and would enter that buffer at `room` if it were always in the multiplexing buffer in time.
#[tactic(auto, unfolding(crate::specs::VideoViewed::cause_of))]
pub fn late_cause(deadline: u128, alone: u128, room: u128) -> Option<LateCause>
    ensures { result ≡ cause_of deadline alone room }
{
    if deadline < alone {
        Some(LateCause::Multiplex)
    } else if deadline < room {
        Some(LateCause::FullBuffer)
    } else {
        None
    }
}

/// A unit of video, as far as it has arrived. Its last byte leaves the multiplexing buffer at `seen.left` if the
/// elementary stream buffer is never full.
#[derive(Clone, Copy)]
pub struct VideoUnit {
    pub seen: UnitSeen,
    /// When its last byte goes to the elementary stream buffer (no byte goes while that is full); 0 if no byte has
    /// arrived.
    pub entered: u128,
}

impl VideoUnit {
    /// Returns why it is late, if it is.
    pub fn cause(&self) -> Option<LateCause>
        ensures { result ≡ unit_cause self.now }
    {
        late_cause(self.seen.due.deadline, self.seen.left, self.entered)
    }

    /// Returns how long after its deadline its last byte goes to the elementary stream buffer, 0 if it is in time.
    pub fn lateness(&self) -> u128
        ensures { result ≡ self.now.entered - self.now.seen.due.deadline }
    {
        self.entered.saturating_sub(self.seen.due.deadline)
    }
}
