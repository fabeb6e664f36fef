//! The last rows of a stream.
ghost use Rattle.std.specs.Prelude.{◌≡◌, ◌++◌};
ghost use Rattle.es_events.specs.Rings as spec;

use crate::row::TraceRow;

/// How many rows are kept.
pub const MOST_ROWS: usize = 64;

const NO_ROW: TraceRow = TraceRow {
    packet: 0,
    left: 0,
    transport: 0,
    main: 0,
    least: None,
    begins: false,
};

/// The last 64 rows: the next one is written at a place, after which are the oldest ones, once there are 64.
#[derive(Clone, Copy)]
pub struct Ring {
    pub rows: [TraceRow; MOST_ROWS],
    pub next: usize,
    pub full: bool,
}

impl Ring {
    /// Returns no rows.
    pub fn new() -> Ring
        ensures { result ≡ spec.no_rows }
    {
        Ring {
            rows: [NO_ROW; MOST_ROWS],
            next: 0,
            full: false,
        }
    }

    /// Takes a row in place of the oldest one.
    #[inline(always)]
    pub fn add(&mut self, row: TraceRow)
        ensures { self.new ≡ spec.with_row self.old row }
    {
        let place = self.next % MOST_ROWS;
        self.rows[place] = row;
        self.next = (place + 1) % MOST_ROWS;
        self.full = self.full || place + 1 == MOST_ROWS;
    }

    /// Returns the rows in their order, in two parts.
    pub fn parts(&self) -> (&[TraceRow], &[TraceRow])
        ensures { result.0.now ++ result.1.now ≡ spec.rows_of self.now }
    {
        let place = self.next % MOST_ROWS;
        if self.full {
            (&self.rows[place..], &self.rows[..place])
        } else {
            (&[], &self.rows[..place])
        }
    }
}
