//! The counts of a stream.
ghost use Rattle.std.specs.Prelude.{◌≡◌};
ghost use Rattle.tstd_rows.specs.Entering.{entered_view};
ghost use Rattle.tstd_rows.specs.Lows.{least_of_both};
ghost use Rattle.es_events.specs.Tallies as spec;

use crate::{TraceRow, Traces};
use tstd_rows::{Entered, TRANSPORT_BYTES, UnitSeen};

/// The counts of a stream. Numbers stop at 2^64 - 1. It is changed in place, so that it is not moved.
#[derive(Clone, Copy)]
pub struct Tally {
    /// Excesses that have ended, of the transport buffer and of the main buffer.
    pub excesses: u64,
    pub main_excesses: u64,
    /// Units, and how many of them were late.
    pub units: u64,
    pub late: u64,
    /// PES packets whose header was not read.
    pub unread: u64,
    /// The window of the last packet; the most bytes that were in each buffer when any of its packets entered, the
    /// least that any of their bytes found in the main buffer, the units that ended in it, how many of them were late,
    /// and the least slack of a unit.
    pub window: u64,
    pub window_transport: u128,
    pub window_main: u64,
    pub window_least: Option<u64>,
    pub window_units: u64,
    pub window_late: u64,
    pub slack: u128,
    /// What the buffers held near the greatest excess of each.
    pub traces: Traces,
}

// Returns the least of two numbers, if any is given.
#[tactic(auto, unfolding(tstd_rows::specs::Lows::least_of_both))]
fn least_of_both(a: Option<u64>, b: Option<u64>) -> Option<u64>
    ensures { result ≡ least_of_both a b }
{
    match (a, b) {
        (None, b) => b,
        (Some(a), None) => Some(a),
        (Some(a), Some(b)) => Some(a.min(b)),
    }
}

impl Tally {
    /// Returns the counts of nothing.
    pub fn new() -> Tally
        ensures { result ≡ spec.none_counted }
    {
        Tally {
            excesses: 0,
            main_excesses: 0,
            units: 0,
            late: 0,
            unread: 0,
            window: 0,
            window_transport: 0,
            window_main: 0,
            window_least: None,
            window_units: 0,
            window_late: 0,
            slack: u128::MAX,
            traces: Traces::new(),
        }
    }

    // Begins a window, unless it is the window of the last packet.
    #[inline(always)]
    fn enter_window(&mut self, window: u64)
        ensures { self.new ≡ spec.in_window self.old window }
    {
        if self.window != window {
            self.window = window;
            self.window_transport = 0;
            self.window_main = 0;
            self.window_least = None;
            self.window_units = 0;
            self.window_late = 0;
            self.slack = u128::MAX;
        }
    }

    /// Counts a packet of a window that has entered the buffers.
    #[inline(always)]
    pub fn add_packet(&mut self, window: u64, entered: &Entered)
        ensures { self.new ≡ spec.with_packet self.old window (entered_view entered.now) }
    {
        self.enter_window(window);
        self.window_transport = self.window_transport.max(entered.transport_most);
        self.window_main = self.window_main.max(entered.main_most);
        self.window_least = least_of_both(self.window_least, entered.main_least);
    }

    /// Counts a unit that has ended in a window. It stays a call of its own: few packets end one.
    #[inline(never)]
    pub fn add_unit(&mut self, window: u64, unit: &UnitSeen)
        ensures { self.new ≡ spec.with_unit self.old window unit.now }
    {
        self.enter_window(window);
        let late = u64::from(unit.lateness() > 0);
        self.units = self.units.saturating_add(1);
        self.late = self.late.saturating_add(late);
        self.window_units = self.window_units.saturating_add(1);
        self.window_late = self.window_late.saturating_add(late);
        self.slack = self.slack.min(unit.slack());
    }

    /// Counts the unit that has ended, if any.
    #[inline(always)]
    #[tactic(auto, unfolding(crate::specs::Tallies::with_unit_if))]
    pub fn add_unit_if(&mut self, window: u64, unit: &Option<UnitSeen>)
        ensures { self.new ≡ spec.with_unit_if self.old window unit.now }
    {
        match unit {
            None => {}
            Some(unit) => self.add_unit(window, unit),
        }
    }

    /// Counts excesses that have ended, and a header that was not read, if `unread`.
    #[inline(always)]
    pub fn add_excesses(&mut self, transport: u64, main: u64, unread: bool)
        ensures { self.new ≡ spec.with_excesses self.old transport main unread }
    {
        self.excesses = self.excesses.saturating_add(transport);
        self.main_excesses = self.main_excesses.saturating_add(main);
        self.unread = self.unread.saturating_add(u64::from(unread));
    }

    /// Takes the row of a packet, or of a part of it; `main` is the size of the main buffer.
    #[inline(always)]
    pub fn add_row(&mut self, main: u64, row: TraceRow)
        ensures { self.new ≡ spec.with_row self.old main row }
    {
        self.traces.add(row, TRANSPORT_BYTES, main);
    }
}
