//! When the elementary stream buffer of video has room.
ghost use Rattle.std.specs.Prelude.{◌<◌, ◌^◌, length};
ghost use Rattle.tstd_rows.specs.RoomTimes.{rooms_in};

use std::collections::VecDeque;
use tstd::BufferedUnit;

/// When the elementary stream buffer has room for the next bytes: a time for each byte of its size (ISO/IEC 13818-1,
/// 2.4.2.3, the leak method). Only units that wait are kept: a unit whose bytes are gone is dropped, and a unit
/// removed no later than the unit in front of it is merged with that unit.
#[derive(Drop)]
pub struct EbRooms {
    /// The number of bytes for which there is room at once.
    pub free: u64,
    /// Then the bytes of units that wait: there is room for each from the end of its unit.
    pub waiting: VecDeque<BufferedUnit>,
    /// The bytes of the current unit, which are last.
    pub current: BufferedUnit,
    /// When the last byte so far would have gone if it were always in the multiplexing buffer in time. Times are
    /// limited to 2^128 - 1.
    pub last: u128,
    pub ghost few: { length (rooms_in free waiting.items current) < 2 ^ 64 },
}
