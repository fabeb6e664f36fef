//! Both buffers of a stream.
ghost use Rattle.std.specs.Prelude.{◌+◌, ◌*◌, ◌≤◌, ◌^◌};
ghost use Rattle.tstd_rows.specs.VideoBytes.{bytes_in};

use crate::busy_watch::BusyWatch;
use crate::main_watch::MainWatch;
use crate::video_buffers::VideoBuffers;
use crate::viewed_buffers::StreamView;
use std::alloc::Global;

/// The buffers of an elementary stream: the transport buffer is drained at `rx` bits a second. Times are in units of 8
/// / (S * rx) seconds, where S is the step of the arrivals: the stream's constant rate, or 216,000,000 by a clock.
#[derive(Drop)]
pub struct StreamBuffers {
    pub rx: u32,
    pub view: StreamView<Global>,
    /// The size of the main buffer, and its current excess.
    pub main: MainWatch,
    /// How long the transport buffer is not empty.
    pub busy: BusyWatch,
    /// Of video its two buffers after the transport buffer, if they are viewed.
    pub video: Option<VideoBuffers>,
    pub ghost slow: { rx ≤ 200000000 },
    pub ghost paced: { view.transport.step ≤ 2 ^ 28 },
    pub ghost soon: { view.transport.last ≤ 2 ^ 86 + view.transport.bytes * view.transport.step },
    pub ghost fewer: { bytes_in video ≤ view.transport.bytes },
}
