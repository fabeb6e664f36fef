//! Why a line-up may not take the place of another.

ghost use Rattle.std.specs.Prelude.{◌≡◌};
ghost use Rattle.line_ups.specs.Faults as spec;

use crate::pids::pid_fault;
use crate::shapes::{order_fault, shape_fault};
use crate::slots::slots_fault;
use plan_checker::CheckedPlan;
use slot_plan::Description;
use std::alloc::Allocator;
use thiserror::Error;

/// Why a line-up may not take the place of the one on air. What has a PID is named by it, a table by its number in the
/// new description, a program by its program_number.
#[derive(Clone, Copy, Debug, PartialEq, Eq, Error)]
pub enum LineUpFault {
    #[error("the rate differs")]
    Rate,
    #[error("base0 differs")]
    Clock,
    #[error("transport_stream_id, original_network_id or transponder differs")]
    Stream,
    #[error("PID {0} is of something else, or of another declaration, in the line-up on air")]
    Pid(u16),
    #[error("the period is neither a multiple nor a part of that on air")]
    Period,
    #[error("PID {0} stays and has other slots")]
    Moved(u16),
    #[error("table {0} stays and has other numbers of packets")]
    Shape(usize),
    #[error("program {0} stays and comes later in the list of programs")]
    Order(u16),
}

fn has_same_names(old: &Description, new: &Description) -> bool
    ensures { result ≡ spec.has_same_names old.now new.now }
{
    old.transport_stream_id() == new.transport_stream_id()
        && old.original_network_id() == new.original_network_id()
        && old.is_transponder() == new.is_transponder()
}

// Returns a fault of the rate, of the clock or of the names of the transport stream.
fn whole_fault(old: &Description, new: &Description) -> Option<LineUpFault>
    ensures { result ≡ spec.whole_fault old.now new.now }
{
    if old.rate().bits_per_second() != new.rate().bits_per_second() {
        return Some(LineUpFault::Rate);
    }
    if old.base0() != new.base0() {
        return Some(LineUpFault::Clock);
    }
    if has_same_names(old, new) {
        None
    } else {
        Some(LineUpFault::Stream)
    }
}

fn name_fault(old: &Description, new: &Description) -> Option<LineUpFault>
    ensures { result ≡ spec.name_fault old.now new.now }
{
    whole_fault(old, new).or_else(|| pid_fault(old, new))
}

fn round_fault(old: &Description, new: &Description) -> Option<LineUpFault>
    ensures { result ≡ spec.round_fault old.now new.now }
{
    shape_fault(old, new).or_else(|| order_fault(old, new))
}

/// Returns why a line-up may not take the place of the one on air: the first fault, or nothing if it may.
pub fn line_up_fault<A: Allocator>(
    old: &CheckedPlan<A>,
    new: &CheckedPlan<A>,
) -> Option<LineUpFault>
    ensures { result ≡ spec.line_up_fault old.now new.now }
{
    name_fault(old.description(), new.description())
        .or_else(|| slots_fault(old, new))
        .or_else(|| round_fault(old.description(), new.description()))
}

/// Returns why it may not, whatever its plan is.
pub fn description_fault(old: &Description, new: &Description) -> Option<LineUpFault>
    ensures { result ≡ spec.description_fault old.now new.now }
{
    name_fault(old, new).or_else(|| round_fault(old, new))
}
