//! What the buffers held around the greatest excess of each.
ghost use Rattle.std.specs.Prelude.{◌≡◌};
ghost use Rattle.es_events.specs.Traces as spec;

use crate::ring::Ring;
use crate::row::TraceRow;

/// How many rows after the greatest excess are kept.
pub const LATER_ROWS: u64 = 32;

/// The rows around the greatest excess of a buffer.
#[derive(Clone, Copy)]
pub struct Trace {
    /// The most bytes that were in the buffer, if that is more than its size; otherwise 0.
    pub greatest: u128,
    /// How many rows are still to come.
    pub later: u64,
    /// The rows, if none is still to come.
    pub ring: Ring,
}

/// The last rows of a stream, and the rows around the greatest excess of its transport buffer and of its main buffer.
#[derive(Clone, Copy)]
pub struct Traces {
    pub ring: Ring,
    pub transport: Trace,
    pub main: Trace,
}

impl Trace {
    /// Returns the trace of a buffer that has held nothing.
    pub fn new() -> Trace
        ensures { result ≡ spec.no_trace }
    {
        Trace {
            greatest: 0,
            later: 0,
            ring: Ring::new(),
        }
    }

    // Takes the last row of a trace. A call of its own: few rows are the last.
    #[inline(never)]
    fn settle(&mut self, ring: &Ring)
        ensures { self.new ≡ spec.settled self.old ring.now }
    {
        self.later = 0;
        self.ring = *ring;
    }

    /// Takes the last row of a ring, where a buffer with `size` bytes held `most`.
    #[inline(always)]
    pub fn see(&mut self, ring: &Ring, size: u64, most: u128)
        ensures { self.new ≡ spec.trace_after self.old ring.now size most }
    {
        if most > u128::from(size) && most > self.greatest {
            self.greatest = most;
            self.later = LATER_ROWS;
        } else if self.later > 1 {
            self.later -= 1;
        } else if self.later == 1 {
            self.settle(ring);
        }
    }

    /// Returns the ring of its rows, among the last rows or kept.
    #[inline(never)]
    pub fn rows<'a>(&'a self, ring: &'a Ring) -> &'a Ring
        ensures { result.now ≡ spec.ring_of self.now ring.now }
    {
        if self.later == 0 { &self.ring } else { ring }
    }
}

impl Traces {
    /// Returns the state before the first row.
    pub fn new() -> Traces
        ensures { result ≡ spec.no_traces }
    {
        Traces {
            ring: Ring::new(),
            transport: Trace::new(),
            main: Trace::new(),
        }
    }

    /// Takes a row of a stream whose buffers have these sizes in bytes.
    #[inline(always)]
    pub fn add(&mut self, row: TraceRow, transport: u64, main: u64)
        ensures { self.new ≡ spec.traces_after self.old row transport main }
    {
        self.ring.add(row);
        self.transport.see(&self.ring, transport, row.transport);
        self.main.see(&self.ring, main, u128::from(row.main));
    }
}
