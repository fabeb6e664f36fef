//! What a stream declares of its units.

ghost use Rattle.std.specs.Prelude.{◌≡◌, ◌+◌, ◌<◌, ◌^◌, length, IsTrue};
ghost use Rattle.pes_packet.specs.StreamIds.{fits_packet};
ghost use Rattle.pes_packet.specs.Encoding.{pes_header_bytes};

use arrayvec::ArrayVec;
use clock27::Rate;
use pes_packet::{Unit, write_header};
use std::alloc::Allocator;
use unit_timing::allowance::Allowance;

/// What a stream declares, and the numbers of the output that it is sent in. Times are in units of 90 kHz.
#[derive(Clone, Copy)]
pub struct StreamParameters {
    /// The rate of the output.
    pub rate: Rate,
    /// The clock's value at slot 0, which is added to stamps: below 2^33.
    pub base0: u64,
    /// The PID of its packets.
    pub pid: u16,
    /// stream_id of its PES packets: 189, or 192 to 239.
    pub stream_id: u8,
    /// The maximum time before its DTS at which a unit may be sent.
    pub lead: u32,
    /// The minimum time from one DTS to the next.
    pub interval: u32,
    /// The maximum time from the DTS of a unit to its PTS: at most 5,400,000.
    pub pts_limit: u32,
    /// The maximum size of a unit in bytes, with what its marks take.
    pub size: u32,
    /// The most packets of units in a row: of groups of 1 unit or more, or by pace.
    pub allowance: Allowance,
}

impl StreamParameters {
    // Returns the PES header of a unit.
    pub(crate) fn header<A: Allocator>(&self, unit: &Unit<A>) -> ArrayVec<u8, 45>
        requires base0 { self.now.base0 < 2 ^ 33 }
        requires fits { IsTrue (fits_packet self.now.stream_id (length unit.now.bytes)) }
        requires dts { unit.now.dts < 2 ^ 63 }
        requires pts { unit.now.pts < 2 ^ 63 }
        ensures { result.items ≡ pes_header_bytes self.now.stream_id (length unit.now.bytes) unit.now.marks
            (unit.now.pts + self.now.base0) (unit.now.dts + self.now.base0) }
    {
        write_header(
            self.stream_id,
            unit.bytes.len(),
            unit.marks,
            unit.pts + self.base0,
            unit.dts + self.base0,
        )
    }
}
