//! The curves of the page, as the events come.
ghost use Rattle.std.specs.Prelude.{◌≡◌, OnOk};
ghost use Rattle.view_page.specs.Values as spec;
ghost use Rattle.view_page.specs.Values.{AreValues, KeptValues};

use events::{
    ClockFigures, Event, HeldFigures, PidName, RuleEvent, StreamBegin, UnitFigures, WindowFigures,
};
use page_curves::{PidCurves, offset};
use std::alloc::{AllocError, Global};
use view_rows::short;

/// The size of a transport buffer in bytes (ISO/IEC 13818-1, 2.4.2.3).
const TRANSPORT_BYTES: u64 = 512;

/// The greatest time from one clock reference to the next, in microseconds (ISO/IEC 13818-1, 2.7.2).
const INTERVAL: u64 = 100_000;

/// The greatest inaccuracy of a clock reference, in nanoseconds (ISO/IEC 13818-1, 2.4.2.2).
const INACCURACY: u64 = 500;

/// Curves by window: bit rates by PID, the most bytes in the transport buffer of a stream, the most and the least in
/// its main buffer, and the least slack of its units in microseconds; the greatest interval of the clock references of
/// a PID in microseconds, their greatest inaccuracy and the drift of its clock in nanoseconds, as an [`offset`]; the
/// greatest drift of all, ahead or behind; and the number of windows.
#[derive(Drop)]
pub struct Values {
    pub windows: u64,
    pub rates: PidCurves,
    pub transports: PidCurves,
    pub mains: PidCurves,
    pub slacks: PidCurves,
    pub intervals: PidCurves,
    pub inaccuracies: PidCurves,
    pub drifts: PidCurves,
    pub greatest_drift: u64,
}

// Ticks in nanoseconds, rounded down.
fn nanoseconds_of(ticks: u128) -> u64
    ensures { result ≡ spec.nanoseconds_of ticks }
{
    short(u128::from(short(ticks)) * 1_000 / 27)
}

// The drift of a program clock, in nanoseconds.
fn drift_of(clock: &ClockFigures) -> u64
    ensures { result ≡ spec.drift_of clock.now }
{
    offset(nanoseconds_of(clock.ahead), nanoseconds_of(clock.behind))
}

impl Values {
    /// Returns the state before the first event.
    pub fn new(alloc: Global) -> Values
        ensures { AreValues result spec.no_values }
    {
        Values {
            windows: 0,
            rates: PidCurves::new(alloc),
            transports: PidCurves::new(alloc),
            mains: PidCurves::new(alloc),
            slacks: PidCurves::new(alloc),
            intervals: PidCurves::new(alloc),
            inaccuracies: PidCurves::new(alloc),
            drifts: PidCurves::new(alloc),
            greatest_drift: 0,
        }
    }

    // What a PID carries.
    #[tactic(auto, unfolding(crate::specs::Values::name_or))]
    fn name_of(&self, pid: u16) -> PidName
        ensures { (kept : KeptValues) → AreValues self.now kept → result ≡ spec.name_of kept pid }
    {
        match self.mains.name_of(pid) {
            None => PidName::of_pid(pid),
            Some(name) => name,
        }
    }

    // `window`: the bit rate of a PID.
    fn take_window(&mut self, window: &WindowFigures) -> Result<(), AllocError>
        ensures { (kept : KeptValues) → AreValues self.old kept →
            OnOk result (AreValues self.new (spec.with_window kept window.now)) }
    {
        let name = self.name_of(window.pid);
        self.windows = self.windows.max(window.number.saturating_add(1));
        self.rates.open(window.pid, name, 0)?;
        self.rates
            .take(window.pid, window.number, short(window.rate))
    }

    // `stream`: its buffers begin.
    fn take_stream(&mut self, stream: &StreamBegin) -> Result<(), AllocError>
        ensures { (kept : KeptValues) → AreValues self.old kept →
            OnOk result (AreValues self.new (spec.with_stream kept stream.now)) }
    {
        let pid = stream.pid;
        let name = stream.coding;
        self.transports.open(pid, name, TRANSPORT_BYTES)?;
        self.mains.open(pid, name, u64::from(stream.main))?;
        self.slacks.open(pid, name, 0)
    }

    // `held`: what its buffers held, if a byte came.
    fn take_held(&mut self, held: &HeldFigures) -> Result<(), AllocError>
        ensures { (kept : KeptValues) → AreValues self.old kept →
            OnOk result (AreValues self.new (spec.with_held kept held.now)) }
    {
        if held.transport == 0 {
            return Ok(());
        }
        let pid = held.pid;
        let number = held.number;
        self.transports.take(pid, number, short(held.transport))?;
        self.mains.take(pid, number, held.main)?;
        self.mains.take(pid, number, held.main_least)
    }

    // `units`: the least slack of its units.
    fn take_units(&mut self, units: &UnitFigures) -> Result<(), AllocError>
        ensures { (kept : KeptValues) → AreValues self.old kept →
            OnOk result (AreValues self.new (spec.with_units kept units.now)) }
    {
        self.slacks
            .take(units.pid, units.number, short(units.slack) / 27)
    }

    // Whether no inaccuracy of a PID is known so far: it is 0 then.
    fn is_unknown(&self, clock: &ClockFigures) -> bool
        ensures { (kept : KeptValues) → AreValues self.now kept → result ≡ spec.is_unknown kept clock.now }
    {
        clock.inaccuracy == 0 && self.inaccuracies.name_of(clock.pid).is_none()
    }

    // The inaccuracy of the clock references of a PID in a window.
    fn take_known(&mut self, name: PidName, clock: &ClockFigures) -> Result<(), AllocError>
        ensures { (kept : KeptValues) → AreValues self.old kept →
            OnOk result (AreValues self.new (spec.known_inaccuracy kept name clock.now)) }
    {
        self.inaccuracies.open(clock.pid, name, INACCURACY)?;
        self.inaccuracies
            .take(clock.pid, clock.number, short(clock.inaccuracy))
    }

    // The same, if one is known.
    fn take_inaccuracy(&mut self, name: PidName, clock: &ClockFigures) -> Result<(), AllocError>
        ensures { (kept : KeptValues) → AreValues self.old kept →
            OnOk result (AreValues self.new (spec.with_inaccuracy kept name clock.now)) }
    {
        if self.is_unknown(clock) {
            return Ok(());
        }
        self.take_known(name, clock)
    }

    // Their interval.
    fn take_interval(&mut self, name: PidName, clock: &ClockFigures) -> Result<(), AllocError>
        ensures { (kept : KeptValues) → AreValues self.old kept →
            OnOk result (AreValues self.new (spec.with_interval kept name clock.now)) }
    {
        self.intervals.open(clock.pid, name, INTERVAL)?;
        self.intervals
            .take(clock.pid, clock.number, short(clock.interval) / 27)
    }

    // The greatest drift of all so far.
    fn note_drift(&mut self, clock: &ClockFigures)
        ensures { (kept : KeptValues) → AreValues self.old kept →
            AreValues self.new (spec.with_greatest kept clock.now) }
    {
        let ahead = nanoseconds_of(clock.ahead);
        let behind = nanoseconds_of(clock.behind);
        self.greatest_drift = self.greatest_drift.max(ahead).max(behind);
    }

    // The curve of the drift of the program clock.
    fn take_offset(&mut self, name: PidName, clock: &ClockFigures) -> Result<(), AllocError>
        ensures { (kept : KeptValues) → AreValues self.old kept →
            OnOk result (AreValues self.new (spec.with_offset kept name clock.now)) }
    {
        let drift = drift_of(clock);
        self.drifts.open(clock.pid, name, 0)?;
        self.drifts.take(clock.pid, clock.number, drift)
    }

    // The drift of the program clock.
    fn take_drift(&mut self, name: PidName, clock: &ClockFigures) -> Result<(), AllocError>
        ensures { (kept : KeptValues) → AreValues self.old kept →
            OnOk result (AreValues self.new (spec.with_drift kept name clock.now)) }
    {
        self.note_drift(clock);
        self.take_offset(name, clock)
    }

    // The inaccuracy and the drift.
    fn take_places(&mut self, name: PidName, clock: &ClockFigures) -> Result<(), AllocError>
        ensures { (kept : KeptValues) → AreValues self.old kept →
            OnOk result (AreValues self.new (spec.with_places kept name clock.now)) }
    {
        self.take_inaccuracy(name, clock)?;
        self.take_drift(name, clock)
    }

    // All three.
    fn take_figures(&mut self, clock: &ClockFigures) -> Result<(), AllocError>
        ensures { (kept : KeptValues) → AreValues self.old kept →
            OnOk result (AreValues self.new (spec.with_figures kept clock.now)) }
    {
        let name = self.name_of(clock.pid);
        self.take_interval(name, clock)?;
        self.take_places(name, clock)
    }

    // `clock_window`: all three, if a reference follows another one.
    fn take_clock(&mut self, clock: &ClockFigures) -> Result<(), AllocError>
        ensures { (kept : KeptValues) → AreValues self.old kept →
            OnOk result (AreValues self.new (spec.with_clock kept clock.now)) }
    {
        if clock.interval == 0 {
            return Ok(());
        }
        self.take_figures(clock)
    }

    // An event of a check: the clock references of a window.
    #[tactic(auto, unfolding(crate::specs::Values::with_rule))]
    fn take_rule(&mut self, rule: &RuleEvent) -> Result<(), AllocError>
        ensures { (kept : KeptValues) → AreValues self.old kept →
            OnOk result (AreValues self.new (spec.with_rule kept rule.now)) }
    {
        match rule {
            RuleEvent::ClockWindow(clock) => self.take_clock(clock),
            _ => Ok(()),
        }
    }

    /// Takes an event.
    #[tactic(auto, unfolding(crate::specs::Values::with_event))]
    pub fn take(&mut self, event: &Event) -> Result<(), AllocError>
        ensures { (kept : KeptValues) → AreValues self.old kept →
            OnOk result (AreValues self.new (spec.with_event kept event.now)) }
    {
        match event {
            Event::Window(window) => self.take_window(window),
            Event::Stream(stream) => self.take_stream(stream),
            Event::Held(held) => self.take_held(held),
            Event::Units(units) => self.take_units(units),
            Event::Rule(rule) => self.take_rule(rule),
            _ => Ok(()),
        }
    }
}
