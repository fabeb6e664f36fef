//! How soon sections follow each other.
ghost use Rattle.std.specs.Prelude.{◌≡◌, IfOk, OnOk, nat_eq};
ghost use Rattle.std.specs.Map.{lookup};
ghost use Rattle.tr101290.specs.Distances as spec;

use crate::intervals::{SectionBegin, TableError, TableTiming, key_of};
use clock27::Rate;
use indexmap::IndexMap;
use std::alloc::{AllocError, Allocator};
use std::hash::{BuildHasherDefault, FoldHasher};
use std::marker::Model;

// How long a packet lasts at 1 bit a second, in ticks of 27 MHz: 188 * 8 * 27,000,000.
const PACKET_TICKS_AT_1BPS: u128 = 40_608_000_000;

/// The least time from one section to the next of the same table_id and table_id_extension, in ticks of 27 MHz: 25 ms.
pub const LEAST_DISTANCE: u64 = 675_000;

// The most tables and extensions whose sections are watched.
const MOST_ENDS: usize = 65_536;

/// A whole section: where it begins, its table_id_extension, which is 0 if it has none, and the place of the packet
/// that ends it.
#[derive(Clone, Copy)]
pub struct WholeSection {
    pub begin: SectionBegin,
    pub extension: u16,
    pub end: u64,
}

/// Ends by PID, table_id and table_id_extension.
type EndEntries<A> = IndexMap<u64, u64, BuildHasherDefault<FoldHasher>, A>;

/// Where the last section of each table_id and table_id_extension ends, of service information.
#[derive(Drop)]
pub struct SectionDistances<A: Allocator> {
    timing: TableTiming,
    ends: EndEntries<A>,
}

impl<A: Allocator> Model for SectionDistances<A> {
    ghost use Rattle.tr101290.specs.Distances.{DistanceState};

    ghost Value = { DistanceState };

    ghost view = { λ d. record { timing = d.timing; ends = d.ends.entries } };
}

// Returns whether sections may not follow each other at once.
fn is_spaced(pid: u16, table_id: u8) -> bool
    ensures { result ≡ spec.is_spaced pid table_id }
{
    pid >= 0x10 && pid <= 0x14 && table_id >= 0x40 && table_id <= 0x73 && table_id != 0x72
}

// Returns the key of a section.
fn extension_key(section: WholeSection) -> u64
    ensures { result ≡ spec.extension_key section }
{
    u64::from(key_of(section.begin.pid, section.begin.table_id)) * 65_536
        + u64::from(section.extension)
}

fn whole_ticks(rate: Rate, packets: u64) -> u128
    ensures { result ≡ spec.whole_ticks rate packets }
{
    u128::from(packets) * PACKET_TICKS_AT_1BPS / u128::from(rate.bits_per_second())
}

/// Returns the time between two places, in ticks, rounded down.
#[tactic(auto, unfolding(crate::specs::Distances::time_within))]
pub fn time_within(timing: TableTiming, places: u64) -> u128
    ensures { result ≡ spec.time_within timing places }
{
    match timing {
        TableTiming::ConstantRate(rate) => whole_ticks(rate, places),
        TableTiming::Ticks => u128::from(places),
    }
}

// Returns the error of a section that begins too soon after the section before it, which ended at `before`.
#[tactic(auto, unfolding(crate::specs::Distances::too_soon))]
fn too_soon(timing: TableTiming, section: &WholeSection, before: Option<u64>) -> Option<TableError>
    ensures { result ≡ spec.too_soon timing section.now before }
{
    let before = before?;
    let value = time_within(timing, section.begin.place.saturating_sub(before));
    if value < u128::from(LEAST_DISTANCE) {
        Some(TableError {
            section: section.begin,
            value,
            limit: LEAST_DISTANCE,
        })
    } else {
        None
    }
}

fn end_at<A: Allocator>(ends: &EndEntries<A>, key: u64) -> Option<u64>
    ensures { result ≡ lookup (nat_eq key) ends.now.entries }
{
    match ends.get(&key) {
        None => None,
        Some(end) => Some(*end),
    }
}

impl<A: Allocator + Copy> SectionDistances<A> {
    /// Returns the state before the first section.
    pub fn new(alloc: A, timing: TableTiming) -> SectionDistances<A>
        ensures { result ≡ spec.no_end timing }
    {
        SectionDistances {
            timing,
            ends: IndexMap::new(alloc),
        }
    }

    // Keeps where a section ends, if its key is known or there is room.
    fn keep(&mut self, key: u64, known: bool, end: u64) -> Result<(), AllocError>
        ensures { OnOk result (self.new ≡ spec.kept self.old key known end) }
    {
        if known || self.ends.len() < MOST_ENDS {
            self.ends.insert(key, end)?;
        }
        Ok(())
    }

    /// Takes the next whole section, and returns its error.
    ///
    /// After an `AllocError` the distances describe no stream: drop them.
    pub fn take(&mut self, section: &WholeSection) -> Result<Option<TableError>, AllocError>
        ensures distances { OnOk result (self.new ≡ spec.taken self.old section.now) }
        ensures error { IfOk result (λ error. error ≡ spec.error_at self.old section.now) }
    {
        if !is_spaced(section.begin.pid, section.begin.table_id) {
            return Ok(None);
        }
        let key = extension_key(*section);
        let before = end_at(&self.ends, key);
        self.keep(key, before.is_some(), section.end)?;
        Ok(too_soon(self.timing, section, before))
    }
}
