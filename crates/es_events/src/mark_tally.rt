//! Counts of the marks of a stream's units.
ghost use Rattle.std.specs.Prelude.{◌≡◌, ◌++◌, OnOk};
ghost use Rattle.ts_packet.specs.Views.{packet_view};
ghost use Rattle.es_events.specs.MarkTallies as spec;

use crate::clocks::Beginning;
use events::{Event, MarkTotals};
use std::alloc::AllocError;
use ts_packet::{Adaptation, Packet};

/// Counts of the marks of a stream's units: units whose header was read, units with random_access_indicator, the DTS of
/// the last access unit and the greatest time from one access unit to the next, in units of 90 kHz, and units with
/// data_alignment_indicator. Numbers stop at 2^64 - 1.
#[derive(Clone, Copy)]
pub struct MarkTally {
    pub units: u64,
    pub access: u64,
    pub last: Option<u64>,
    pub distance: u64,
    pub aligned: u64,
}

// Returns whether a packet has the random_access_indicator.
#[tactic(auto, unfolding(crate::specs::MarkTallies::has_access))]
fn has_access(packet: &Packet<'_>) -> bool
    ensures { result ≡ spec.has_access (packet_view packet.now).adaptation }
{
    match packet.adaptation {
        Some(Adaptation::Flagged(parts)) => parts.random_access_indicator,
        _ => false,
    }
}

// Returns whether the PES header at the front of the payload has the data_alignment_indicator.
#[tactic(auto, unfolding(crate::specs::MarkTallies::is_aligned, crate::specs::MarkTallies::has_alignment))]
fn is_aligned(packet: &Packet<'_>) -> bool
    ensures { result ≡ spec.is_aligned (packet_view packet.now).payload }
{
    let payload = packet.payload.unwrap_or(&[]);
    match payload.get(6) {
        Some(flags) => *flags / 4 % 2 == 1,
        None => false,
    }
}

// Returns the time from one DTS to the next; 0 if the next DTS is the earlier one.
#[tactic(auto, unfolding(crate::specs::MarkTallies::time_since))]
fn time_since(last: Option<u64>, dts: u64) -> u64
    ensures { result ≡ spec.time_since last dts }
{
    let Some(last) = last else {
        return 0;
    };
    let time = (dts % (1 << 33) + (1 << 33) - last % (1 << 33)) % (1 << 33);
    if time < 1 << 32 { time } else { 0 }
}

impl MarkTally {
    /// Returns the counts of nothing.
    pub fn new() -> MarkTally
        ensures { result ≡ spec.none_marked }
    {
        MarkTally {
            units: 0,
            access: 0,
            last: None,
            distance: 0,
            aligned: 0,
        }
    }

    // Counts a unit at which a decoder may begin.
    fn add_access(&mut self, dts: u64)
        ensures { self.new ≡ spec.with_access self.old dts }
    {
        self.access = self.access.saturating_add(1);
        self.distance = self.distance.max(time_since(self.last, dts));
        self.last = Some(dts);
    }

    // Counts a unit of this DTS.
    fn add_unit(&mut self, dts: u64, packet: &Packet<'_>)
        ensures { self.new ≡ spec.with_unit self.old dts (packet_view packet.now) }
    {
        self.units = self.units.saturating_add(1);
        if is_aligned(packet) {
            self.aligned = self.aligned.saturating_add(1);
        }
        if has_access(packet) {
            self.add_access(dts);
        }
    }

    /// Counts the unit that begins with a packet, if a unit begins.
    #[tactic(auto, unfolding(crate::specs::MarkTallies::with_beginning))]
    pub fn add_packet(&mut self, beginning: Beginning, packet: &Packet<'_>)
        ensures { self.new ≡ spec.with_beginning self.old beginning (packet_view packet.now) }
    {
        match beginning {
            Beginning::Nothing => {}
            Beginning::Unread => {}
            Beginning::Stamped(dts) => self.add_unit(dts, packet),
        }
    }
}

// Returns a time in units of 90 kHz as ticks.
fn ticks_of(time: u64) -> u64
    ensures { result ≡ spec.ticks_of time }
{
    time.saturating_mul(300)
}

fn marks_event(pid: u16, tally: &MarkTally) -> Event
    ensures { result ≡ spec.marks_event pid tally.now }
{
    Event::Marks(MarkTotals {
        pid,
        units: tally.units,
        access: tally.access,
        distance: ticks_of(tally.distance),
        aligned: tally.aligned,
    })
}

/// Appends the counts at the end of the stream.
pub fn push_marks(events: &mut Vec<Event>, pid: u16, tally: &MarkTally) -> Result<(), AllocError>
    ensures { OnOk result (events.new.items ≡ events.old.items ++ spec.mark_events pid tally.now) }
{
    events.push(marks_event(pid, tally))?;
    Ok(())
}
