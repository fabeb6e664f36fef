//! When the bytes of a transport stream arrive at a decoder (ISO/IEC 13818-1, 2.4.2.2): at a constant rate, or on the
//! lines that the program clock references of a program give.
//!
//! - [`Row`]: bytes that arrive one after another at an even pace, in whole units of time.
//! - [`Line`]: the clock between two references, which is the time of each byte that lies on it.
//! - [`ProgramClock`]: the references of a program in order, and where they restart.
//! - [`Arrival`]: how the bytes of a stream arrive, and their rows at a buffer; [`ClockLine`] is a single line,
//!   [`ClockLines`] two consecutive lines, also across a clock that restarts.
//! - [`ArrivalClock`]: takes clock references, and gives the line of the bytes between two of them.
//! - [`StampClock`]: takes the arrival time stamps before packets of 192 bytes, and gives a sample of their clock for
//!   each stamp that differs from the stamp before; an [`ArrivalClock`] takes these in place of clock references.
//! - [`laws`]: the arrivals of a constant rate, and facts about each line.
//!
//! A moment is a number of ticks of 27 MHz. At a buffer that is drained at `r` bits a second times are counted in units
//! of `1 / (27,000,000 * r)` seconds, so that a byte takes 216,000,000 to leave it; each arrival is rounded down to a
//! whole unit there, and nothing else is rounded.
#![tactic(auto)]

mod arrival;
mod arrival_clock;
mod clock;
mod clock_line;
pub mod laws;
mod line;
mod row;
mod stamp_clock;

pub use arrival::{Arrival, ClockLines};
pub use arrival_clock::ArrivalClock;
pub use clock::{
    ClockStep, LONGEST_INTERVAL, PCR_PERIOD, Passed, PcrSample, ProgramClock, TimedSample,
};
pub use clock_line::ClockLine;
pub use line::Line;
pub use row::{Row, multiples_below};
pub use stamp_clock::{STAMP_PERIOD, StampClock, StampStep, StampValue};
