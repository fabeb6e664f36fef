//! Totals of the buffers of a stream.
ghost use Rattle.std.specs.Prelude.{◌≡◌};
ghost use Rattle.fault_summary.specs.BufferFigures as spec;

use crate::fault_rows::FaultRows;
use events::{
    BufferKind, BufferTotals, BufferVerdict, Event, FaultTotals, SystemTotals, UnitVerdict,
    WorstBuffer,
};

/// A buffer: whose it is, the most bytes that it held, and its size.
#[derive(Clone, Copy)]
pub struct BufferMost {
    pub number: u16,
    pub buffer: BufferKind,
    pub most: u128,
    pub size: u64,
}

/// How many buffers held bytes, how many of them were over their size, and the buffer with the greatest excess; the
/// units of all streams.
#[derive(Clone, Copy)]
pub struct BufferFigures {
    pub buffers: u64,
    pub over: u64,
    pub worst: Option<BufferMost>,
    pub units: u64,
    pub late: u64,
}

// Returns whether a buffer is further over its size than another one, by the parts of its size.
fn is_further(next: &BufferMost, than: &BufferMost) -> bool
    ensures { result ≡ spec.is_further next.now than.now }
{
    than.most.saturating_mul(u128::from(next.size))
        < next.most.saturating_mul(u128::from(than.size))
}

#[tactic(auto, unfolding(crate::specs::BufferFigures::worst_of))]
fn worst_of(before: Option<BufferMost>, next: BufferMost) -> Option<BufferMost>
    ensures { result ≡ spec.worst_of before next }
{
    match before {
        None => Some(next),
        Some(before) => Some(if is_further(&next, &before) {
            next
        } else {
            before
        }),
    }
}

fn buffer(number: u16, buffer: BufferKind, most: u128, size: u64) -> BufferMost
    ensures { result ≡ spec.buffer number buffer most size }
{
    BufferMost {
        number,
        buffer,
        most,
        size,
    }
}

impl BufferFigures {
    /// Returns the figures of no buffer.
    pub fn new() -> BufferFigures
        ensures { result ≡ spec.no_buffer }
    {
        BufferFigures {
            buffers: 0,
            over: 0,
            worst: None,
            units: 0,
            late: 0,
        }
    }

    // Counts a buffer that held bytes, which is over its size if it has an excess.
    fn with_viewed(self, next: BufferMost, excesses: u128) -> BufferFigures
        ensures { result ≡ spec.with_viewed self next excesses }
    {
        let over = excesses != 0;
        BufferFigures {
            buffers: self.buffers.saturating_add(1),
            over: self.over.saturating_add(u64::from(over)),
            worst: if over {
                worst_of(self.worst, next)
            } else {
                self.worst
            },
            units: self.units,
            late: self.late,
        }
    }

    // Counts a buffer, unless it never held a byte.
    fn with(self, next: BufferMost, excesses: u128) -> BufferFigures
        ensures { result ≡ spec.with_buffer self next excesses }
    {
        if next.most == 0 {
            return self;
        }
        self.with_viewed(next, excesses)
    }

    // Counts the units of a stream.
    fn with_units(self, units: u64, late: u64) -> BufferFigures
        ensures { result ≡ spec.with_units self units late }
    {
        BufferFigures {
            buffers: self.buffers,
            over: self.over,
            worst: self.worst,
            units: self.units.saturating_add(units),
            late: self.late.saturating_add(late),
        }
    }

    // Counts a buffer of a stream, and for a main buffer the units of the stream.
    #[tactic(auto, unfolding(crate::specs::BufferFigures::with_units_of))]
    fn with_totals(self, e: &BufferTotals) -> BufferFigures
        ensures { result ≡ spec.with_totals self e.now }
    {
        let figures = self.with(buffer(e.pid, e.buffer, e.most, e.size), e.excesses);
        match e.buffer {
            BufferKind::Main => figures.with_units(e.units.unwrap_or(0), e.late.unwrap_or(0)),
            _ => figures,
        }
    }

    fn with_system(self, e: &SystemTotals) -> BufferFigures
        ensures { result ≡ spec.with_system self e.now }
    {
        let (transport, system) = (BufferKind::TableTransport, BufferKind::System);
        let first = buffer(e.program, transport, e.transport, e.transport_size);
        let second = buffer(e.program, system, e.main, e.main_size);
        self.with(first, e.transport_excesses)
            .with(second, e.main_excesses)
    }

    /// Counts an event that says what a buffer held.
    #[tactic(auto, unfolding(crate::specs::BufferFigures::with_event))]
    pub fn take(&mut self, event: &Event)
        ensures { self.new ≡ spec.with_event self.old event.now }
    {
        match event {
            Event::Buffer(e) => *self = self.with_totals(e),
            Event::System(e) => *self = self.with_system(e),
            _ => {}
        }
    }

    /// Returns the sentence about units.
    pub fn units(&self) -> UnitVerdict
        ensures { result ≡ spec.unit_verdict self.now }
    {
        UnitVerdict {
            units: self.units,
            late: self.late,
        }
    }

    /// Returns the sentence about buffers, with the times of the worst one by the rows of its faults.
    pub fn buffers(&self, rows: &FaultRows) -> BufferVerdict
        ensures { result ≡ spec.buffer_verdict self.now rows.now }
    {
        BufferVerdict {
            buffers: self.buffers,
            over: self.over,
            worst: worst_in(self.worst, rows),
        }
    }
}

#[tactic(auto, unfolding(crate::specs::BufferFigures::times_by))]
fn times_by(totals: Option<FaultTotals>) -> (Option<u128>, Option<u128>)
    ensures { result ≡ spec.times_by totals }
{
    match totals {
        None => (None, None),
        Some(totals) => (totals.count.from, totals.count.to),
    }
}

fn worst_by(worst: BufferMost, times: (Option<u128>, Option<u128>)) -> WorstBuffer
    ensures { result ≡ spec.worst_by worst times }
{
    WorstBuffer {
        number: worst.number,
        buffer: worst.buffer,
        most: worst.most,
        size: worst.size,
        from: times.0,
        to: times.1,
    }
}

#[tactic(auto, unfolding(crate::specs::BufferFigures::worst_in))]
fn worst_in(worst: Option<BufferMost>, rows: &FaultRows) -> Option<WorstBuffer>
    ensures { result ≡ spec.worst_in worst rows.now }
{
    match worst {
        None => None,
        Some(worst) => {
            let source = worst.buffer.owner(worst.number);
            let totals = rows.get(worst.buffer.excess(), source);
            Some(worst_by(worst, times_by(totals)))
        }
    }
}
