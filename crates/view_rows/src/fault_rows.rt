//! Rows of faults, each with the buffer that the fault is about.
ghost use Rattle.std.specs.Prelude.{◌≡◌};
ghost use Rattle.view_rows.specs.FaultRows as spec;

use events::{BufferKind, Fault, FaultKind, FaultSource};
use std::marker::Model;

/// A buffer of a stream, by the PID of the stream and the kind of the buffer.
#[derive(Clone, Copy)]
pub struct FaultBuffer {
    pub pid: u16,
    pub kind: BufferKind,
}

/// A row of a fault: the buffer that held more than its size, if the fault is that, and the cells of the row.
#[derive(Drop)]
pub struct FaultRow {
    pub buffer: Option<FaultBuffer>,
    pub cells: String,
}

impl Model for FaultRow {
    ghost use Rattle.std.specs.Prelude.{string_bytes};
    ghost use Rattle.view_rows.specs.RowTexts.{FaultText};

    ghost Value = { FaultText };

    ghost view = { λ r. record { buffer = r.buffer; cells = string_bytes r.cells } };
}

// Returns the buffer of a kind at the place of a fault, if that place is a stream.
#[tactic(auto, unfolding(crate::specs::FaultRows::buffer_at))]
fn buffer_at(kind: BufferKind, source: FaultSource) -> Option<FaultBuffer>
    ensures { result ≡ spec.buffer_at kind source }
{
    match source {
        FaultSource::Stream(pid) => Some(FaultBuffer { pid, kind }),
        _ => None,
    }
}

/// Returns the buffer that faults of a kind at a place are about, if there is one.
#[tactic(auto, unfolding(crate::specs::FaultRows::buffer_of))]
pub(crate) fn buffer_of(kind: FaultKind, source: FaultSource) -> Option<FaultBuffer>
    ensures { result ≡ spec.buffer_of kind source }
{
    match kind {
        FaultKind::Excess => buffer_at(BufferKind::Transport, source),
        FaultKind::MultiplexingExcess => buffer_at(BufferKind::Multiplexing, source),
        FaultKind::ElementaryExcess => buffer_at(BufferKind::Elementary, source),
        FaultKind::MainExcess => buffer_at(BufferKind::Main, source),
        _ => None,
    }
}

/// Returns the buffer that a fault is about, if there is one.
#[tactic(auto, unfolding(crate::specs::FaultRows::fault_buffer))]
pub(crate) fn fault_buffer(fault: &Option<Fault>) -> Option<FaultBuffer>
    ensures { result ≡ spec.fault_buffer fault.now }
{
    match fault {
        None => None,
        Some(fault) => buffer_of(fault.kind, fault.source),
    }
}
