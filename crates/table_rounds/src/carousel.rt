//! A table from slot to slot.

ghost use Rattle.std.specs.Prelude.{◌≡◌, ◌<◌, ◌≤◌, ◌^◌, ◌+◌, ◌*◌, ◌/◌, length, map, slice_index_or};
ghost use Rattle.table_rounds.specs.Tables.{place_in, round_places};
ghost use Rattle.clock27.specs.Units.{slot_seconds_at_1bps};
ghost use Rattle.slot_contents.specs.Contents.{packet_of};
ghost use Rattle.table_rounds.specs.Parts.{places_of};
ghost use Rattle.table_rounds.specs.Carousels as spec;

use crate::parts::write_section_packet;
use crate::section_source::SectionSource;
use arrayvec::ArrayVec;
use clock27::{Rate, SLOT_SECONDS_AT_1BPS};
use std::marker::Model;

/// A table between two of its own slots: the next place, the moment of the round, and the current section.
#[derive(Drop)]
pub struct TableCarousel {
    pid: u16,
    rate: Rate,
    packets_per_section: ArrayVec<u16, 128>,
    section: u8,
    part: u16,
    moment: u64,
    counter: u8,
    bytes: ArrayVec<u8, 4096>,
}

impl Model for TableCarousel {
    ghost use Rattle.std.specs.Prelude.{◌<◌, ◌^◌};
    ghost use Rattle.table_rounds.specs.Carousels.{Carousel};

    ghost Value = { Carousel };

    ghost view = { λ t. record {
      pid = t.pid;
      rate = t.rate;
      packets_per_section = t.packets_per_section.items;
      section = t.section;
      part = t.part;
      moment = t.moment;
      counter = t.counter;
      bytes = t.bytes.items;
    } };

    ghost invariant = { λ t. t.pid < 2 ^ 13 };
}

// Returns the number of packets of a section of this length.
fn places_of(length: u16) -> u16
    ensures { result ≡ places_of length }
{
    ((1 + length as u32 + 183) / 184) as u16
}

// Returns the number of packets of each section of these lengths.
fn places_of_each(lengths: &[u16]) -> ArrayVec<u16, 128>
    requires { length lengths.now ≤ 128 }
    ensures { result.items ≡ map places_of lengths.now }
{
    let mut places = ArrayVec::new();
    for length in lengths {
        places.push(places_of(*length));
    }
    places
}

// Returns the moment at which a slot begins.
fn moment_at(rate: Rate, start: u32, slot: u64) -> u64
    requires { slot < 2 ^ 40 }
    ensures { result ≡ start + slot * slot_seconds_at_1bps / rate }
{
    start as u64 + slot * SLOT_SECONDS_AT_1BPS / rate.bits_per_second()
}

impl TableCarousel {
    /// Returns a table before slot 0 of an output of this rate. Before the first round its moment is `first`, in seconds
    /// since 1970-01-01T00:00:00 UTC. `lengths` has the greatest length of each section over all moments, in bytes.
    pub fn new(pid: u16, rate: Rate, first: u64, lengths: &[u16]) -> TableCarousel
        requires pid { pid < 2 ^ 13 }
        requires sections { length lengths.now ≤ 128 }
        ensures { result ≡ spec.first_carousel pid rate first lengths.now }
    {
        TableCarousel {
            pid,
            rate,
            packets_per_section: places_of_each(lengths),
            section: 0,
            part: 0,
            moment: first,
            counter: 0,
            bytes: ArrayVec::new(),
        }
    }

    /// Returns a table that comes on air later than slot 0, before its first own slot from then on: at the place that it
    /// would have if it had been on air from slot 0 on, by the number of that place in the round under way, with the
    /// moment of the last round. It sends nothing before its next section begins.
    pub fn silent(pid: u16, rate: Rate, lengths: &[u16], number: u32, moment: u64) -> TableCarousel
        requires pid { pid < 2 ^ 13 }
        requires sections { length lengths.now ≤ 128 }
        requires number { number < round_places lengths.now }
        ensures { result ≡ spec.silent_carousel pid rate lengths.now (place_in 0 lengths.now number) moment }
    {
        let mut carousel = TableCarousel::new(pid, rate, moment, lengths);
        for _ in 0..number {
            carousel.advance();
        }
        carousel
    }

    /// Returns the section that begins in the next own slot, if one begins there.
    pub fn next_section(&self) -> Option<u8>
        ensures { result ≡ spec.next_section self.now }
    {
        if self.part == 0 {
            Some(self.section)
        } else {
            None
        }
    }

    /// Returns the moment of the last round that began, before the first round the one that `new` took.
    pub fn moment(&self) -> u64
        ensures { result ≡ self.now.moment }
    {
        self.moment
    }

    /// Returns the packet of an own slot: a part of the current section, or the null packet if the section is shorter
    /// than its places. A round that begins there has the moment of the slot, if slot 0 began at the moment `start`.
    pub fn next<T: SectionSource>(&mut self, source: &T, start: u32, slot: u64) -> [u8; 188]
        requires { slot < 2 ^ 40 }
        ensures packet { result ≡ packet_of (spec.carousel_content (T.bytes source.now) start slot self.old) }
        ensures state { self.new ≡ spec.carousel_after (T.bytes source.now) start slot self.old }
    {
        let mut packet = [0; 188];
        self.write_next(source, start, slot, &mut packet);
        packet
    }

    /// Writes the same over the bytes of `packet`.
    pub fn write_next<T: SectionSource>(
        &mut self,
        source: &T,
        start: u32,
        slot: u64,
        packet: &mut [u8; 188],
    )
        requires { slot < 2 ^ 40 }
        ensures packet { packet.new ≡ packet_of (spec.carousel_content (T.bytes source.now) start slot self.old) }
        ensures state { self.new ≡ spec.carousel_after (T.bytes source.now) start slot self.old }
    {
        self.begin(source, start, slot);
        let sent = write_section_packet(
            packet,
            self.pid,
            self.counter,
            &self.bytes,
            self.part as usize,
        );
        self.count(sent);
        self.advance();
    }

    #[tactic(auto, unfolding(crate::specs::Carousels::begun))]
    // Takes the moment of the round at its first place, and makes the bytes of a section at the first place of the
    // section.
    fn begin<T: SectionSource>(&mut self, source: &T, start: u32, slot: u64)
        requires { slot < 2 ^ 40 }
        ensures { self.new ≡ spec.begun (T.bytes source.now) start slot self.old }
    {
        if self.part == 0 {
            self.moment = self.moment_now(start, slot);
            source.write_section(self.section as usize, self.moment, &mut self.bytes);
        }
    }

    // Returns the moment of the round: the moment of its first slot.
    fn moment_now(&self, start: u32, slot: u64) -> u64
        requires { slot < 2 ^ 40 }
        ensures { result ≡ spec.moment_now start slot self.now }
    {
        if self.section == 0 {
            moment_at(self.rate, start, slot)
        } else {
            self.moment
        }
    }

    fn count(&mut self, sent: bool)
        ensures { self.new ≡ spec.counted sent self.old }
    {
        if sent {
            self.counter = self.counter.wrapping_add(1);
        }
    }

    // Returns the number of packets of the current section.
    fn section_packets(&self) -> u16
        ensures { result ≡ slice_index_or self.now.packets_per_section self.now.section 0 }
    {
        match self.packets_per_section.get(self.section as usize) {
            None => 0,
            Some(packets) => *packets,
        }
    }

    #[tactic(auto, unfolding(crate::specs::Carousels::advanced))]
    fn advance(&mut self)
        ensures { self.new ≡ spec.advanced self.old }
    {
        let next = self.part as u32 + 1;
        if next < self.section_packets() as u32 {
            self.part = next as u16;
        } else {
            self.advance_section();
        }
    }

    #[tactic(auto, unfolding(crate::specs::Carousels::section_advanced))]
    fn advance_section(&mut self)
        ensures { self.new ≡ spec.section_advanced self.old }
    {
        let next = self.section as usize + 1;
        self.part = 0;
        self.section = if next < self.packets_per_section.len() {
            next as u8
        } else {
            0
        };
    }
}
