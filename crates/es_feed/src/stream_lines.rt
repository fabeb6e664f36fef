//! How the units of streams fell and came so far, and the lines that say so.

ghost use Rattle.std.specs.Prelude.{◌≡◌, ◌≤◌, ◌+◌, ◌++◌, codes, decimal, length};
ghost use Rattle.arrayvec.specs.ArrayVec.{array_vec_len};
ghost use Rattle.devices.specs.Devices.{writes};
ghost use Rattle.devices.specs.Lines.{Reports};
ghost use Rattle.es_feed.specs.FedLines as feed_lines;
ghost use Rattle.es_feed.specs.StreamLines as spec;

use crate::stops::{StopChange, StreamStops};
use arrayvec::ArrayVec;
use counted_io::{Sink, write_part};
use es_moments::StampFault;
use fed_streams::FeedFault;
use itoa::Buffer;
use std::marker::Model;

/// The room of the line of a stream.
const ROOM: usize = 128;

/// How many numbers of streams there are, with the number of no stream.
const NUMBERS: usize = 256;

/// By how much at most pictures in another order than shown fall, in units of 90 kHz: a second.
const LONGEST_FALL: u64 = 90_000;

/// For how many more units of its stream a unit counts that falls.
const NEAR: u8 = 250;

/// The DTS of a stream do not rise.
pub(crate) const UNORDERED: u8 = 255;

/// The PID of each stream of a description, and how the units of each stream fell and came so far.
#[derive(Drop)]
pub(crate) struct StreamLines<'a> {
    pids: &'a [u16],
    fell: [u8; NUMBERS],
    stops: StreamStops,
}

// A contract sees the PIDs as a list.
impl<'a> Model for StreamLines<'a> {
    ghost use Rattle.es_feed.specs.StreamLines.{LinesView};

    ghost Value = { LinesView };

    ghost view = { λ s. record { pids = s.pids.now; fell = s.fell; stops = s.stops } };
}

/// Returns whether a unit falls by at most a second.
#[tactic(auto, unfolding(crate::specs::StreamLines::is_short_fall, crate::specs::StreamLines::is_short))]
pub(crate) fn is_short_fall(fault: FeedFault) -> bool
    ensures { result ≡ spec.is_short_fall fault }
{
    match fault {
        FeedFault::Stamp(StampFault::DtsNotIncreasing(by)) => by <= LONGEST_FALL,
        _ => false,
    }
}

// Returns how the units of a stream fell, after a report on it.
#[tactic(auto, unfolding(crate::specs::StreamLines::fell_by))]
fn fell_by(fell: u8, fault: FeedFault) -> u8
    ensures { result ≡ spec.fell_by fell fault }
{
    if !is_short_fall(fault) {
        return fell;
    }
    if fell == 0 { NEAR } else { UNORDERED }
}

// Returns how the units of a stream fell, after a unit that does not fall.
#[tactic(auto, unfolding(crate::specs::StreamLines::fell_less))]
fn fell_less(fell: u8) -> u8
    ensures { result ≡ spec.fell_less fell }
{
    if fell == UNORDERED {
        UNORDERED
    } else {
        fell.saturating_sub(1)
    }
}

// Appends bytes to a line.
fn append(line: &mut ArrayVec<u8, ROOM>, bytes: &[u8])
    requires { array_vec_len line.old + length bytes.now ≤ 128 }
    ensures items { line.new.items ≡ line.old.items ++ bytes.now }
    ensures len { array_vec_len line.new ≡ array_vec_len line.old + length bytes.now }
{
    let _ = line.try_extend_from_slice(bytes);
}

// Returns a line that begins with a PID.
fn pid_line(pid: u16) -> ArrayVec<u8, ROOM>
    ensures items { result.items ≡ codes "pid " ++ decimal pid }
    ensures len { array_vec_len result ≤ 43 }
{
    let mut line = ArrayVec::new();
    let mut digits = Buffer::new();
    append(&mut line, b"pid ");
    append(&mut line, digits.format(u128::from(pid)).as_bytes());
    line
}

// Returns the line of a PID whose stream has no DTS that rise.
fn unordered_line(pid: u16) -> ArrayVec<u8, ROOM>
    ensures { result.items ≡ spec.unordered_line pid }
{
    let mut line = pid_line(pid);
    append(
        &mut line,
        b" has no DTS that rise: units that fall are left out\n",
    );
    line
}

// Returns the line of a PID whose stream has stopped.
fn stopped_line(pid: u16) -> ArrayVec<u8, ROOM>
    ensures { result.items ≡ spec.stopped_line pid }
{
    let mut line = pid_line(pid);
    append(
        &mut line,
        b" has stopped: no unit for 10 s, but other streams have units\n",
    );
    line
}

// Returns the line of a PID whose stream has units again.
fn resumed_line(pid: u16, long: u64) -> ArrayVec<u8, ROOM>
    ensures { result.items ≡ spec.resumed_line pid long }
{
    let mut line = pid_line(pid);
    let mut digits = Buffer::new();
    append(&mut line, b" has units again after ");
    append(&mut line, digits.format(u128::from(long)).as_bytes());
    append(&mut line, b"\n");
    line
}

/// Reports that the stream of a PID has no DTS that rise.
pub(crate) fn report_unordered<E: Sink>(faults: &mut E, pid: u16)
    ensures { Reports (writes E.Sink faults.old faults.new) (spec.unordered_line pid) }
{
    let line = unordered_line(pid);
    let _ = write_part(faults, line.as_slice());
}

/// Reports that the stream of a PID has stopped.
pub(crate) fn report_stopped<E: Sink>(faults: &mut E, pid: u16)
    ensures { Reports (writes E.Sink faults.old faults.new) (spec.stopped_line pid) }
{
    let line = stopped_line(pid);
    let _ = write_part(faults, line.as_slice());
}

/// Reports that the stream of a PID has units again.
pub(crate) fn report_resumed<E: Sink>(faults: &mut E, pid: u16, long: u64)
    ensures { Reports (writes E.Sink faults.old faults.new) (spec.resumed_line pid long) }
{
    let line = resumed_line(pid, long);
    let _ = write_part(faults, line.as_slice());
}

impl<'a> StreamLines<'a> {
    /// Returns the streams of these PIDs, before their first record.
    pub(crate) fn new(pids: &'a [u16]) -> StreamLines<'a>
        ensures { result ≡ spec.first_lines pids.now }
    {
        StreamLines {
            pids,
            fell: [0; NUMBERS],
            stops: StreamStops::new(),
        }
    }

    /// Returns the PID of the stream of a number.
    pub(crate) fn pid_at(&self, number: usize) -> u16
        ensures { result ≡ feed_lines.pid_at self.now.pids number }
    {
        match self.pids.get(number) {
            Some(pid) => *pid,
            None => 0,
        }
    }

    /// Returns how the units of the stream of a number fell.
    pub(crate) fn fell_at(&self, number: u8) -> u8
        ensures { result ≡ spec.fell_at self.now number }
    {
        match self.fell.get(number as usize) {
            Some(fell) => *fell,
            None => 0,
        }
    }

    // Takes how a unit of the stream of a number came, unless it is a tick, and returns what it shows.
    #[tactic(auto, unfolding(crate::specs::StreamLines::change_at, crate::specs::StreamLines::stops_at))]
    fn take_pace(&mut self, number: u8, dts: u64) -> Option<StopChange>
        ensures change { result ≡ spec.change_at self.old number dts }
        ensures stops { self.new ≡ record self.old { stops = spec.stops_at self.old number dts } }
    {
        if number as usize >= self.pids.len() {
            return None;
        }
        self.stops.take(number, dts)
    }

    /// Takes a unit of the stream of a number, and returns what it shows.
    pub(crate) fn take_unit(&mut self, number: u8, dts: u64) -> Option<StopChange>
        ensures change { result ≡ spec.change_at self.old number dts }
        ensures lines { self.new ≡ spec.after_unit_of self.old number dts }
    {
        let fell = fell_less(self.fell_at(number));
        let change = self.take_pace(number, dts);
        self.fell[number as usize] = fell;
        change
    }

    /// Takes a report on the stream of a number.
    pub(crate) fn take_fault(&mut self, number: u8, fault: FeedFault)
        ensures { self.new ≡ spec.after_fault self.old number fault }
    {
        let fell = fell_by(self.fell_at(number), fault);
        self.fell[number as usize] = fell;
    }
}
