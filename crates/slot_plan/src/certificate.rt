//! A plan's claims for its buffers.

use std::alloc::{Allocator, Global};
use std::marker::Model;

/// The most entries of a kind.
pub const MAX_ENTRIES: u32 = 256;

/// A plan's claim for the multiplexing buffer of one stream (ISO/IEC 13818-1, 2.4.2.3), in work as for a transport
/// buffer: in units of 8 / (rate * rate of the leak) seconds.
#[derive(Clone, Copy, PartialEq, Eq)]
pub struct MultiplexingEntry {
    /// The most work at the begin of a period.
    pub start: u64,
    /// The most work right after an own slot.
    pub peak: u64,
}

/// A plan's claim for one stream. `spread` is in slots times own slots a period; `start` and `peak`
/// are work of its transport buffer, counted in units of 8 / (rate * leak rate) seconds.
#[derive(Clone, Copy, PartialEq, Eq)]
pub struct StreamEntry {
    /// The most that the own slots stray from even spacing.
    pub spread: u64,
    /// The most work at the begin of a period.
    pub start: u64,
    /// The most work right after an own slot.
    pub peak: u64,
    /// The claims about its multiplexing buffer, if there are any; no claim means no work.
    pub multiplexing: Option<MultiplexingEntry>,
}

/// A plan's claim for the transport and the system buffer of one program (ISO/IEC 13818-1, 2.4.2),
/// in work as for a stream.
#[derive(Clone, Copy, PartialEq, Eq)]
pub struct ProgramEntry {
    /// The most work of the transport buffer at the begin of a period.
    pub transport_start: u64,
    /// The most work of the transport buffer right after an own slot.
    pub transport_peak: u64,
    /// The most work of the system buffer at the begin of a period.
    pub system_start: u64,
    /// The most work of the system buffer right after an own slot.
    pub system_peak: u64,
}

/// The claims of a plan, one entry for each stream and each program, in their order.
#[derive(Drop)]
pub struct Certificate<A: Allocator = Global> {
    pub streams: Vec<StreamEntry, A>,
    pub programs: Vec<ProgramEntry, A>,
}

impl<A: Allocator> Model for Certificate<A> {
    ghost use Rattle.slot_plan.specs.Planned.{Certified};

    ghost Value = { Certified };

    ghost view = { λ c. record { streams = c.streams.items; programs = c.programs.items } };
}
