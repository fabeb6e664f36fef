//! Times without a packet of a PID.
ghost use Rattle.std.specs.Prelude.{◌≡◌, ◌<◌, ◌++◌, IfOk, OnOk, Some, flat_map, nat_eq, slice_get};
ghost use Rattle.std.specs.Map.{lookup};
ghost use Rattle.std.specs.Option.{option_to_list};
ghost use Rattle.indexmap.specs.IndexMap.{index_map_len, insert_entry, set_value_at, values};
ghost use Rattle.packet_times.specs.Gaps as spec;

use events::ClockFault;
use pid_map::{PidEntries, PidMap};
use std::alloc::{AllocError, Global};
use std::marker::Model;
use tr101290::{TableTiming, time_between};

/// The longest time without a packet of a PID of video or audio, in seconds (ETSI TR 101 290, 5.2.1, 1.6).
pub const LONGEST_SECONDS: u8 = 5;

/// The same in ticks of 27 MHz.
pub const LONGEST_GAP: u64 = 135_000_000;

/// The place of the last packet of each PID. Memory does not grow with the length of the stream.
#[derive(Drop)]
pub struct PidGaps {
    timing: TableTiming,
    lasts: PidMap<u64, Global>,
}

impl Model for PidGaps {
    ghost use Rattle.packet_times.specs.Gaps.{GapState};

    ghost Value = { GapState };

    ghost view = { λ g. record { timing = g.timing; lasts = g.lasts.entries } };
}

// Returns how far two places are apart at most that are no more than some seconds apart.
#[tactic(auto, unfolding(crate::specs::Gaps::places_in))]
fn places_in(timing: &TableTiming, seconds: u8) -> u64
    ensures { result ≡ spec.places_in timing.now seconds }
{
    match timing {
        TableTiming::ConstantRate(rate) => u64::from(seconds) * rate.bits_per_second() / 1_504,
        TableTiming::Ticks => u64::from(seconds) * 27_000_000,
    }
}

// Returns the time without a packet of a PID between two places, if it is of more than some seconds.
fn gap_between(
    timing: &TableTiming,
    seconds: u8,
    pid: u16,
    packet: u64,
    apart: u64,
) -> Option<ClockFault>
    ensures { result ≡ spec.gap_between timing.now seconds pid packet apart }
{
    if apart > places_in(timing, seconds) {
        Some(ClockFault {
            pid,
            packet,
            value: time_between(*timing, apart),
            limit: LONGEST_GAP,
        })
    } else {
        None
    }
}

#[tactic(auto, unfolding(crate::specs::Gaps::gap_after))]
fn gap_after(
    timing: &TableTiming,
    pid: u16,
    packet: u64,
    place: u64,
    before: Option<u64>,
) -> Option<ClockFault>
    ensures { result ≡ spec.gap_after timing.now pid packet place before }
{
    match before {
        None => None,
        Some(before) => {
            let apart = place.saturating_sub(before);
            gap_between(timing, LONGEST_SECONDS, pid, packet, apart)
        }
    }
}

// Replaces the place at an index, and returns the place before.
fn replace_at(lasts: &mut PidMap<u64, Global>, index: usize, place: u64) -> u64
    requires { index < index_map_len lasts.old }
    ensures before { slice_get (values lasts.old) index ≡ Some result }
    ensures places { lasts.new.entries ≡ set_value_at lasts.old.entries index place }
{
    let last = lasts.value_mut(index);
    let before = *last;
    *last = place;
    before
}

// Keeps the place of a packet of a PID, and returns the place of the PID's packet before it.
#[tactic(auto, using(crate::proofs::Places::kept_there))]
fn keep(lasts: &mut PidMap<u64, Global>, pid: u16, place: u64) -> Result<Option<u64>, AllocError>
    ensures places { OnOk result (lasts.new.entries ≡ insert_entry nat_eq lasts.old.entries pid place) }
    ensures before { IfOk result (λ before. before ≡ lookup (nat_eq pid) lasts.old.entries) }
{
    match lasts.index_of(pid) {
        Some(index) => Ok(Some(replace_at(lasts, index, place))),
        None => Ok(lasts.insert(pid, place)?),
    }
}

fn push_if(gaps: &mut Vec<ClockFault>, gap: Option<ClockFault>) -> Result<(), AllocError>
    ensures { OnOk result (gaps.new.items ≡ gaps.old.items ++ option_to_list gap) }
{
    if let Some(gap) = gap {
        gaps.push(gap)?;
    }
    Ok(())
}

fn push_stops(
    timing: &TableTiming,
    lasts: &PidEntries<u64, Global>,
    seconds: u8,
    packets: u64,
    place: u64,
    gaps: &mut Vec<ClockFault>,
) -> Result<(), AllocError>
    ensures { OnOk result (gaps.new.items
        ≡ gaps.old.items ++ flat_map (spec.stop_of timing.now seconds packets place) lasts.now.entries) }
{
    for (pid, last) in lasts {
        let apart = place.saturating_sub(*last);
        push_if(gaps, gap_between(timing, seconds, *pid, packets, apart))?;
    }
    Ok(())
}

impl PidGaps {
    /// Returns the state before the first packet.
    pub fn new(alloc: Global, timing: TableTiming) -> PidGaps
        ensures { result ≡ spec.no_packet timing }
    {
        PidGaps {
            timing,
            lasts: PidMap::new(alloc),
        }
    }

    /// Returns the unit of places.
    pub fn timing(&self) -> TableTiming
        ensures { result ≡ self.now.timing }
    {
        self.timing
    }

    /// Takes the packet of a PID at an index and a place, and returns the time since the packet before it of its PID,
    /// if that is too long.
    ///
    /// After an `AllocError` it describes no stream: drop it.
    pub fn take(
        &mut self,
        pid: u16,
        index: u64,
        place: u64,
    ) -> Result<Option<ClockFault>, AllocError>
        ensures places { OnOk result (self.new ≡ spec.taken self.old pid place) }
        ensures gap { IfOk result (λ gap. gap ≡ spec.gap_at self.old pid index place) }
    {
        let before = keep(&mut self.lasts, pid, place)?;
        Ok(gap_after(&self.timing, pid, index, place, before))
    }

    /// Appends the time from the last packet of each PID to the end, after a number of packets, at a place, if it is of
    /// more than some seconds.
    pub fn push_stopped(
        &self,
        seconds: u8,
        packets: u64,
        place: u64,
        gaps: &mut Vec<ClockFault>,
    ) -> Result<(), AllocError>
        ensures { OnOk result (gaps.new.items
            ≡ gaps.old.items ++ spec.stopped self.now seconds packets place) }
    {
        push_stops(
            &self.timing,
            self.lasts.entries(),
            seconds,
            packets,
            place,
            gaps,
        )
    }
}
