//! The results of a packet.
ghost use Rattle.std.specs.Prelude.{◌≡◌};
ghost use Rattle.tstd_rows.specs.Entering.{nothing_entered};

use crate::excess::Excess;
use crate::unit_seen::UnitSeen;
use crate::video_buffers::VideoEntered;

/// The results of a packet: an excess of the transport buffer that ended before a byte at its front, which may lie on
/// an earlier line than the rest, before another byte of its header, or before a payload byte; an excess of the main
/// buffer that ended; and the unit before a unit that begins. Also the most bytes in each buffer when a byte of the
/// packet entered it, including this byte (0 if none did), and the fewest bytes that a byte found in the main buffer,
/// not counting itself.
#[derive(Clone, Copy)]
pub struct Entered {
    pub lead: Option<Excess>,
    pub header: Option<Excess>,
    pub payload: Option<Excess>,
    pub main: Option<Excess>,
    pub unit: Option<UnitSeen>,
    pub transport_most: u128,
    pub main_most: u64,
    pub main_least: Option<u64>,
    /// The results in the two buffers of video after the transport buffer.
    pub video: VideoEntered,
}

impl Entered {
    /// Returns the empty result: nothing has ended, and nothing was in the buffers.
    #[inline(always)]
    pub fn new() -> Entered
        ensures { result ≡ nothing_entered }
    {
        Entered {
            lead: None,
            header: None,
            payload: None,
            main: None,
            unit: None,
            transport_most: 0,
            main_most: 0,
            main_least: None,
            video: VideoEntered::new(),
        }
    }
}
