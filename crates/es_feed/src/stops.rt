//! Streams that stop while other streams go on, by the DTS of their units (`specs/Stops`).

ghost use Rattle.std.specs.Prelude.{◌≡◌, ◌<◌, IfSome, position, length};
ghost use Rattle.es_feed.specs.Stops as spec;

use std::marker::Model;

/// How many numbers of streams there are, with the number of no stream.
const NUMBERS: usize = 256;

/// How many units of a steady stream came in a row at most a second apart.
const STEADY: u8 = 25;

/// The stream has stopped, and its stop was reported.
const STOPPED: u8 = 26;

/// The longest time between two units of a steady stream, in units of 90 kHz: a second.
const LONGEST_GAP: u64 = 90_000;

/// A steady stream without a unit for longer has stopped, in units of 90 kHz: 10 s.
const LONGEST_PAUSE: u64 = 900_000;

/// How the units of a stream came.
#[derive(Clone, Copy)]
pub(crate) struct StreamPace {
    /// How many in a row came at most a second apart, counted up to 25; 26 if the stream has stopped.
    pub steady: u8,
    /// The time at the last unit.
    pub since: u64,
}

const NO_PACE: StreamPace = StreamPace {
    steady: 0,
    since: 0,
};

/// What a unit shows of the streams.
#[derive(Clone, Copy)]
pub(crate) enum StopChange {
    /// The stream of this number has stopped.
    Stops(usize),
    /// The stream of the unit has units again, after so long.
    Resumes(u64),
}

/// How the units of all streams came, and the greatest DTS of the units of steady streams.
#[derive(Drop)]
pub(crate) struct StreamStops {
    paces: [StreamPace; NUMBERS],
    time: u64,
}

// A contract sees the paces as a list.
impl Model for StreamStops {
    ghost use Rattle.es_feed.specs.Stops.{StopsView};

    ghost Value = { StopsView };

    ghost view = { λ s. record { paces = s.paces; time = s.time } };
}

// Returns how many units in a row came at most a second apart, after one more.
#[tactic(auto, unfolding(crate::specs::Stops::steady_after))]
fn steady_after(steady: u8, gap: u64) -> u8
    ensures { result ≡ spec.steady_after steady gap }
{
    if steady == STOPPED {
        return 0;
    }
    if gap > LONGEST_GAP {
        return 0;
    }
    steady.saturating_add(1).min(STEADY)
}

// Returns the pace of a stream after a unit with this DTS.
fn pace_after(time: u64, dts: u64, pace: StreamPace) -> StreamPace
    ensures { result ≡ spec.pace_after time dts pace }
{
    StreamPace {
        steady: steady_after(pace.steady, dts.saturating_sub(pace.since)),
        since: time.max(dts),
    }
}

// Returns the time after a unit of a stream, which has this pace then.
fn time_after(time: u64, pace: StreamPace) -> u64
    ensures { result ≡ spec.time_after time pace }
{
    if pace.steady == STEADY {
        pace.since
    } else {
        time
    }
}

// Returns whether a steady stream has had no unit for over 10 s.
fn has_stopped(time: u64, pace: StreamPace) -> bool
    ensures { result ≡ spec.has_stopped time pace }
{
    pace.steady == STEADY && time.saturating_sub(pace.since) > LONGEST_PAUSE
}

// Returns the first stream that has stopped.
fn stopped_place(time: u64, paces: &[StreamPace]) -> Option<usize>
    ensures { result ≡ position (spec.has_stopped time) paces.now }
{
    paces.iter().position(|pace| has_stopped(time, *pace))
}

impl StreamStops {
    /// Returns the streams before their first unit.
    pub fn new() -> StreamStops
        ensures { result ≡ spec.first_stops }
    {
        StreamStops {
            paces: [NO_PACE; NUMBERS],
            time: 0,
        }
    }

    // Returns the pace of the stream of a number.
    fn pace_at(&self, number: usize) -> StreamPace
        ensures { result ≡ spec.pace_at self.now number }
    {
        match self.paces.get(number) {
            Some(pace) => *pace,
            None => NO_PACE,
        }
    }

    // Returns how long the stream of a unit had stopped, if it had.
    fn resumed(&self, number: u8, dts: u64) -> Option<u64>
        ensures { result ≡ spec.resumed self.now number dts }
    {
        let pace = self.pace_at(number as usize);
        if pace.steady == STOPPED {
            Some(self.time.max(dts).saturating_sub(pace.since))
        } else {
            None
        }
    }

    // Takes the DTS of a unit into the pace of its stream and into the time.
    fn go_on(&mut self, number: u8, dts: u64)
        ensures { self.new ≡ spec.moved self.old number dts }
    {
        let pace = pace_after(self.time, dts, self.pace_at(number as usize));
        self.paces[number as usize] = pace;
        self.time = time_after(self.time, pace);
    }

    // Keeps that the stop of a stream is reported.
    #[tactic(auto, unfolding(crate::specs::Stops::marked))]
    fn mark(&mut self, stopped: Option<usize>)
        requires { IfSome stopped (λ k. k < 256) }
        ensures { self.new ≡ spec.marked stopped self.old }
    {
        let Some(k) = stopped else {
            return;
        };
        let since = self.pace_at(k).since;
        self.paces[k] = StreamPace {
            steady: STOPPED,
            since,
        };
    }

    /// Takes a unit of the stream of a number, and returns what it shows.
    #[tactic(auto, unfolding(crate::specs::Stops::change_of, crate::specs::Stops::after_change))]
    pub fn take(&mut self, number: u8, dts: u64) -> Option<StopChange>
        ensures change { result ≡ spec.change_by self.old number dts }
        ensures stops { self.new ≡ spec.after_unit self.old number dts }
    {
        let resumed = self.resumed(number, dts);
        self.go_on(number, dts);
        if let Some(long) = resumed {
            return Some(StopChange::Resumes(long));
        }
        let stopped = stopped_place(self.time, &self.paces);
        self.mark(stopped);
        match stopped {
            None => None,
            Some(k) => Some(StopChange::Stops(k)),
        }
    }
}
