//! Streams: their rate, the deadlines of units in a row, their main buffer.

ghost use Rattle.std.specs.Prelude.{◌≡◌, Some};
ghost use Rattle.description_parts.specs.Ranges.{IsStream};
ghost use Rattle.plan_maker.specs.StreamNeeds as spec;
ghost use Rattle.plan_maker.specs.StreamNeeds.{stream_view, stream_at};

use crate::search::numbers::{
    all_narrowed, greater, least, less, lesser, most, narrowed, plus, product, rounded_up,
};
use clock27::{BYTE_UNITS_AT_1BPS, SLOT_UNITS_AT_1BPS};
use plan_checker::{
    ahead_of, bytes_by_units, left_of_unit, packets_in_row, steady_packets, steady_time,
};
use slot_plan::StreamDescription;
use unit_timing::buffers::TB_SIZE;
use unit_timing::framing::FrameDeclaration;

/// The slots by which the search lets a packet be late: the slot that the deadline's condition adds, and two more.
const JITTER: u128 = 3;

/// The data bytes of a packet.
const PACKET_BYTES: u128 = 184;

/// The most bytes of a multiplexing buffer that the search reckons with after a packet: own slots that stray from even
/// spacing by two of their distances at most bring no more at once.
const STRAYED_BYTES: u128 = 4 * 188;

/// A stream, the bytes of its units that can wait for their decoding at once, and the rate of its output in bits/s.
#[derive(Clone, Copy)]
pub struct StreamRate<'a> {
    stream: &'a StreamDescription,
    waiting_bytes: u64,
    rate: u64,
}

impl<'a> StreamRate<'a> {
    /// Returns a stream on an output of that rate.
    pub fn new(stream: &'a StreamDescription, rate: u64) -> StreamRate<'a>
        requires { IsStream stream.now }
        ensures { stream_view result ≡ stream_at stream.now rate }
    {
        StreamRate {
            stream,
            waiting_bytes: bytes_by_units(stream),
            rate,
        }
    }
}

impl StreamRate<'_> {
    /// Returns the drain in bits/s of the buffer before the buffer where units wait for their decoding: the transport
    /// buffer, or the multiplexing buffer with its slower leak.
    fn drain(&self) -> u64
        ensures { result ≡ spec.drain_of (stream_view self.now) }
    {
        match self.stream.multiplexing {
            None => self.stream.rx as u64,
            Some(buffer) => buffer.rbx as u64,
        }
    }

    /// Returns the most bytes before the buffer where units wait, after a packet.
    fn held(&self) -> u128
        ensures { result ≡ spec.most_held self.now.stream.now.multiplexing }
    {
        match self.stream.multiplexing {
            None => TB_SIZE as u128,
            Some(buffer) => most(least(buffer.size as u128, STRAYED_BYTES), TB_SIZE as u128) + 1,
        }
    }

    /// Returns the time of a slot, on the scale of rate times drain.
    fn slot(&self) -> u128
        ensures { result ≡ spec.slot_time (stream_view self.now) }
    {
        product(&[SLOT_UNITS_AT_1BPS, self.drain() as u128])
    }

    /// Returns the time from the first of `units` units in a row to the last one's decoding, less the longest time that
    /// the last packet is in buffers before, on the scale of rate times drain.
    fn time(&self, units: u8) -> u128
        ensures { result ≡ spec.row_time (stream_view self.now) units }
    {
        let interval = self.stream.interval as u128;
        let before = product(&[(units as u128).saturating_sub(1), interval]);
        let lead = plus(before, self.stream.lead as u128);
        let all = product(&[lead, self.rate as u128, self.drain() as u128]);
        let held = self.held();
        all.saturating_sub(product(&[held, self.rate as u128, BYTE_UNITS_AT_1BPS]))
    }

    /// Returns the least own slots of a period for the packets of the long run; None if the output has no rate.
    fn steady_count(&self, period: u64) -> Option<u128>
        ensures { result ≡ spec.steady_count (stream_view self.now) period }
    {
        let needed = product(&[steady_packets(self.stream) as u128, period as u128]);
        let given = product(&[steady_time(self.stream) as u128, self.rate as u128]);
        rounded_up(needed, given)
    }

    /// Returns the least own slots that let the last of `units` units in a row be in time; None if none are enough.
    fn row_count(&self, period: u64, units: u8) -> Option<u128>
        ensures { result ≡ spec.row_count (stream_view self.now) period units }
    {
        let slot = self.slot();
        let packets = packets_in_row(self.stream, units) as u128;
        let sent = product(&[packets, period as u128, slot]);
        match less(self.time(units), product(&[JITTER, slot])) {
            None => None,
            Some(time) => rounded_up(sent, time),
        }
    }

    /// Returns the least own slots for both; None if none are enough.
    fn least_count(&self, period: u64) -> Option<u128>
        ensures { result ≡ spec.least_count (stream_view self.now) period }
    {
        let mut count = self.steady_count(period);
        for before in 0..self.stream.allowance.rows() {
            count = greater(count, self.row_count(period, before + 1));
        }
        count
    }

    /// Returns a number of own slots; None if they bring bytes faster than the last buffer is drained.
    fn paced(&self, period: u64, count: u128) -> Option<u64>
        ensures { result ≡ spec.paced (stream_view self.now) period count }
    {
        let pace = product(&[count, self.rate as u128]);
        if product(&[period as u128, self.drain() as u128]) < pace {
            return None;
        }
        Some(narrowed(count))
    }

    /// Returns the least own slots of a period; None if none are enough.
    pub fn count(&self, period: u64) -> Option<u64>
        ensures { result ≡ spec.stream_count (stream_view self.now) period }
    {
        match self.least_count(period) {
            None => None,
            Some(count) => self.paced(period, count),
        }
    }

    /// Returns the most that the own slots may stray from even spacing, in slots times own slots; None if they are
    /// too few.
    pub fn width(&self, period: u64, count: u64) -> Option<u64>
        ensures { result ≡ spec.stream_width (stream_view self.now) period count }
    {
        let mut width = self.main_width(period, count);
        for before in 0..self.stream.allowance.rows() {
            width = lesser(width, self.row_width(period, count, before + 1));
        }
        all_narrowed(width)
    }

    /// Returns the same for the deadline of the last of `units` units in a row alone.
    fn row_width(&self, period: u64, count: u64, units: u8) -> Option<u128>
        ensures { result ≡ spec.row_width (stream_view self.now) period count units }
    {
        let slot = self.slot();
        if slot == 0 {
            return None;
        }
        let have = product(&[count as u128, self.time(units)]) / slot;
        let packets = packets_in_row(self.stream, units) as u128;
        less(
            have,
            plus(product(&[packets, period as u128]), count as u128),
        )
    }

    /// Returns the same for the main buffer alone: the greatest number where it holds all that can wait at once, of
    /// units and of their access units one by one.
    pub fn main_width(&self, period: u64, count: u64) -> Option<u128>
        ensures { result ≡ spec.main_width (stream_view self.now) period count }
    {
        let stream = self.stream;
        let waiting = self.waiting_bytes as u128;
        let width = self.room_width(
            period,
            count,
            stream.lead as u128,
            waiting,
            stream.main as u128,
        );
        match stream.framing {
            None => width,
            Some(framing) => self.frames_width(period, count, width, framing),
        }
    }

    /// Returns the least of `first` and the numbers of a framing's access units.
    fn frames_width(
        &self,
        period: u64,
        count: u64,
        first: Option<u128>,
        framing: FrameDeclaration,
    ) -> Option<u128>
        ensures { result ≡ spec.frames_width (stream_view self.now) period count first (Some framing) }
    {
        let mut width = first;
        for before in 0..framing.frames.saturating_sub(1) {
            width = lesser(width, self.frame_width(period, count, framing, before + 1));
        }
        width
    }

    /// Returns the same for units that are sent at most `lead` before their decoding times, if `waiting` bytes of
    /// them at once have `room` bytes of room.
    fn room_width(
        &self,
        period: u64,
        count: u64,
        lead: u128,
        waiting: u128,
        room: u128,
    ) -> Option<u128>
        ensures { result ≡ spec.room_width (stream_view self.now) period count lead waiting room }
    {
        if waiting <= room {
            return Some(u128::MAX);
        }
        let room = product(&[period as u128, room / PACKET_BYTES]);
        match rounded_up(product(&[lead, self.rate as u128]), SLOT_UNITS_AT_1BPS) {
            None => None,
            Some(window) => {
                let sent = product(&[window.saturating_sub(1), count as u128]);
                less(room, plus(sent, 1))
            }
        }
    }

    /// Returns the same when `left` access units of a unit are left; None if these find no room.
    fn frame_width(
        &self,
        period: u64,
        count: u64,
        framing: FrameDeclaration,
        left: u8,
    ) -> Option<u128>
        ensures { result ≡ spec.frame_width (stream_view self.now) period count framing left }
    {
        let stream = self.stream;
        let lead = (stream.lead as u64).saturating_sub(ahead_of(stream, framing, left)) as u128;
        match less(stream.main as u128, left_of_unit(framing, left)) {
            None => None,
            Some(room) => match rounded_up(lead, stream.interval as u128) {
                None => None,
                Some(units) => {
                    let waiting = product(&[units, 19 + stream.size as u128]);
                    self.room_width(period, count, lead, waiting, room)
                }
            },
        }
    }
}
