//! Where sections begin, one after another.
ghost use Rattle.std.specs.Prelude.{◌≡◌, IfOk, OnOk, nat_eq};
ghost use Rattle.std.specs.Map.{lookup};
ghost use Rattle.tr101290.specs.Intervals as spec;

use crate::limits::limit_of;
use crate::parts::has_parts;
use clock27::Rate;
use indexmap::IndexMap;
use std::alloc::{AllocError, Allocator};
use std::hash::{BuildHasherDefault, FoldHasher};
use std::marker::Model;

// How long a packet lasts at 1 bit a second, in ticks of 27 MHz: 188 * 8 * 27,000,000.
const PACKET_TICKS_AT_1BPS: u128 = 40_608_000_000;

/// In what the places of sections are counted.
#[derive(Clone, Copy)]
pub enum TableTiming {
    /// In packets of a stream of this rate.
    ConstantRate(Rate),
    /// In ticks of 27 MHz.
    Ticks,
}

/// A section of a table_id, and of a part of its table if it has parts, begins in a packet of a PID, at a place in
/// time.
#[derive(Clone, Copy)]
pub struct SectionBegin {
    pub pid: u16,
    pub table_id: u8,
    pub part: Option<u16>,
    pub packet: u64,
    pub place: u64,
}

/// The sections of a table_id on a PID: their number, which stops at 2^64 - 1, the place of the last one, the greatest
/// time from one to the next, counted as places are, and the first packet that ends so long a time.
#[derive(Clone, Copy)]
pub struct SectionPlaces {
    pub sections: u64,
    pub last: u64,
    pub greatest: u64,
    pub at: u64,
}

/// A section begins too long after the one before it of its table_id, or of its part: the time between in ticks, and
/// the limit.
#[derive(Clone, Copy)]
pub struct TableError {
    pub section: SectionBegin,
    pub value: u128,
    pub limit: u64,
}

/// Sections by PID and table_id, in the order of their first sections: `pid_of` and `table_id_of` give the two of a
/// key.
pub type TableEntries<A> = IndexMap<u32, SectionPlaces, BuildHasherDefault<FoldHasher>, A>;

/// Sections by PID, table_id and part.
pub(crate) type PartEntries<A> = IndexMap<u64, SectionPlaces, BuildHasherDefault<FoldHasher>, A>;

/// The sections of a stream so far.
#[derive(Drop)]
pub struct TableIntervals<A: Allocator> {
    timing: TableTiming,
    entries: TableEntries<A>,
    parts: PartEntries<A>,
}

impl<A: Allocator> Model for TableIntervals<A> {
    ghost use Rattle.tr101290.specs.Intervals.{IntervalState};

    ghost Value = { IntervalState };

    ghost view = { λ t. record { timing = t.timing; entries = t.entries.entries; parts = t.parts.entries } };
}

/// Returns the key of a PID and a table_id.
pub fn key_of(pid: u16, table_id: u8) -> u32
    ensures { result ≡ spec.key_of pid table_id }
{
    u32::from(pid) * 256 + u32::from(table_id)
}

// Returns the key of a section's part.
fn part_key(section: SectionBegin, part: u16) -> u64
    ensures { result ≡ spec.part_key section part }
{
    u64::from(key_of(section.pid, section.table_id)) * 65_536 + u64::from(part)
}

/// Returns the PID of a key.
pub fn pid_of(key: u32) -> u32
    ensures { result ≡ spec.pid_of key }
{
    key / 256
}

/// Returns the table_id of a key.
pub fn table_id_of(key: u32) -> u8
    ensures { result ≡ spec.table_id_of key }
{
    (key % 256) as u8
}

// Returns the time of packets at a rate, in ticks, rounded up.
fn time_of_packets(rate: Rate, packets: u64) -> u128
    ensures { result ≡ spec.time_of_packets rate packets }
{
    (u128::from(packets) * PACKET_TICKS_AT_1BPS).div_ceil(u128::from(rate.bits_per_second()))
}

/// Returns the time between two places, in ticks, rounded up.
#[tactic(auto, unfolding(crate::specs::Intervals::time_between))]
pub fn time_between(timing: TableTiming, places: u64) -> u128
    ensures { result ≡ spec.time_between timing places }
{
    match timing {
        TableTiming::ConstantRate(rate) => time_of_packets(rate, places),
        TableTiming::Ticks => u128::from(places),
    }
}

// Returns the places after a section.
#[tactic(auto, unfolding(crate::specs::Intervals::places_after))]
fn places_after(before: &Option<SectionPlaces>, section: SectionBegin) -> SectionPlaces
    ensures { result ≡ spec.places_after before.now section }
{
    match before {
        None => SectionPlaces {
            sections: 1,
            last: section.place,
            greatest: 0,
            at: section.packet,
        },
        Some(before) => {
            let gap = section.place.saturating_sub(before.last);
            let longer = gap > before.greatest;
            SectionPlaces {
                sections: before.sections.saturating_add(1),
                last: section.place,
                greatest: if longer { gap } else { before.greatest },
                at: if longer { section.packet } else { before.at },
            }
        }
    }
}

// Returns the error of a time that is beyond its limit.
fn beyond(section: SectionBegin, value: u128, limit: u64) -> Option<TableError>
    ensures { result ≡ spec.beyond section value limit }
{
    if value > u128::from(limit) {
        Some(TableError {
            section,
            value,
            limit,
        })
    } else {
        None
    }
}

/// Returns the error of a section that begins too long after the section before it.
#[tactic(auto, unfolding(crate::specs::Intervals::error_if))]
pub(crate) fn error_if(
    timing: TableTiming,
    section: SectionBegin,
    before: &Option<SectionPlaces>,
    limit: Option<u64>,
) -> Option<TableError>
    ensures { result ≡ spec.error_if timing section before.now limit }
{
    match (before, limit) {
        (Some(before), Some(limit)) => {
            let places = section.place.saturating_sub(before.last);
            beyond(section, time_between(timing, places), limit)
        }
        _ => None,
    }
}

/// Returns the sections of a PID and table_id.
pub(crate) fn places_at<A: Allocator>(entries: &TableEntries<A>, key: u32) -> Option<SectionPlaces>
    ensures { result ≡ lookup (nat_eq key) entries.now.entries }
{
    match entries.get(&key) {
        None => None,
        Some(places) => Some(*places),
    }
}

fn part_places_at<A: Allocator>(parts: &PartEntries<A>, key: u64) -> Option<SectionPlaces>
    ensures { result ≡ lookup (nat_eq key) parts.now.entries }
{
    match parts.get(&key) {
        None => None,
        Some(places) => Some(*places),
    }
}

impl<A: Allocator + Copy> TableIntervals<A> {
    /// Returns the state before the first section.
    pub fn new(alloc: A, timing: TableTiming) -> TableIntervals<A>
        ensures { result ≡ spec.no_section timing }
    {
        TableIntervals {
            timing,
            entries: IndexMap::new(alloc),
            parts: IndexMap::new(alloc),
        }
    }

    /// Returns the unit of places.
    pub fn timing(&self) -> TableTiming
        ensures { result ≡ self.now.timing }
    {
        self.timing
    }

    /// Returns the sections of each PID and table_id.
    pub fn entries(&self) -> &TableEntries<A>
        ensures { result.now.entries ≡ self.now.entries }
    {
        &self.entries
    }

    /// Returns the sections of each PID, table_id and part.
    pub(crate) fn parts(&self) -> &PartEntries<A>
        ensures { result.now.entries ≡ self.now.parts }
    {
        &self.parts
    }

    /// Returns whether a section of a part of a table came.
    pub fn has_part(&self, pid: u16, table_id: u8, part: u16) -> bool
        ensures { result ≡ spec.has_part self.now pid table_id part }
    {
        let key = u64::from(key_of(pid, table_id)) * 65_536 + u64::from(part);
        part_places_at(&self.parts, key).is_some()
    }

    // Returns the sections of a part before this one.
    #[tactic(auto, unfolding(crate::specs::Intervals::part_before))]
    fn part_before(&self, section: SectionBegin) -> Option<SectionPlaces>
        ensures { result ≡ spec.part_before self.now section section.part }
    {
        match section.part {
            None => None,
            Some(part) => part_places_at(&self.parts, part_key(section, part)),
        }
    }

    // Returns the earlier sections after which this section has to recur in time.
    fn before_in(&self, section: SectionBegin) -> Option<SectionPlaces>
        ensures { result ≡ spec.before_in self.now section }
    {
        if has_parts(section.pid, section.table_id) {
            self.part_before(section)
        } else {
            places_at(&self.entries, key_of(section.pid, section.table_id))
        }
    }

    // Takes a section as a section of its part, if it has a part.
    #[tactic(auto, unfolding(crate::specs::Intervals::parts_after))]
    fn take_part(&mut self, section: SectionBegin) -> Result<(), AllocError>
        ensures { OnOk result (self.new ≡ spec.with_part self.old section) }
    {
        let Some(part) = section.part else {
            return Ok(());
        };
        let before = part_places_at(&self.parts, part_key(section, part));
        let places = places_after(&before, section);
        self.parts.insert(part_key(section, part), places)?;
        Ok(())
    }

    /// Takes the next section, and returns its error.
    ///
    /// After an `AllocError` the intervals describe no stream: drop them.
    pub fn take(&mut self, section: SectionBegin) -> Result<Option<TableError>, AllocError>
        ensures intervals { OnOk result (self.new ≡ spec.taken self.old section) }
        ensures error { IfOk result (λ error. error ≡ spec.error_at self.old section) }
    {
        let limit = limit_of(section.pid, section.table_id);
        let error = error_if(self.timing, section, &self.before_in(section), limit);
        self.take_part(section)?;
        let key = key_of(section.pid, section.table_id);
        let places = places_after(&places_at(&self.entries, key), section);
        self.entries.insert(key, places)?;
        Ok(error)
    }
}
