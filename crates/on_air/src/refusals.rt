//! Why a record is refused.

ghost use Rattle.std.specs.Prelude.{◌≡◌};
ghost use Rattle.on_air.specs.Airing as spec;

use changed_texts::TextFault;
use description_keys::DescFault;
use line_ups::LineUpFault;
use pes_packet::Unit;
use plan_checker::Refusal;
use std::alloc::Allocator;
use unit_queue::FeedError;

/// A unit that the multiplexer refuses.
#[derive(Clone, Copy)]
pub struct RefusedUnit {
    /// The number of its stream.
    pub stream: u8,
    /// Its bytes, with the bytes of its marks.
    pub size: u64,
    /// Its stamps, in units of 90 kHz.
    pub dts: u64,
    pub pts: u64,
    pub cause: FeedError,
}

/// Returns a unit that the multiplexer refuses for a cause, by its numbers.
pub fn refused_unit<A: Allocator>(stream: u8, unit: &Unit<A>, cause: FeedError) -> RefusedUnit
    ensures { result ≡ spec.refused_unit (stream, unit.now) cause }
{
    let size = unit.bytes.len() + unit.marks.size();
    RefusedUnit {
        stream,
        size: size as u64,
        dts: unit.dts,
        pts: unit.pts,
        cause,
    }
}

/// A record that is too far ahead, with times in units of 90 kHz.
#[derive(Clone, Copy)]
pub struct FarRecord {
    /// The number of its stream; 255 for a tick.
    pub stream: u8,
    /// The greatest DTS before it.
    pub from: u64,
    /// Its own DTS.
    pub to: u64,
    /// How far after `from` its DTS may be.
    pub ahead: u64,
}

/// Why texts are refused.
#[derive(Clone, Copy)]
pub enum TextsRefusal {
    /// They are no description.
    Unread(DescFault),
    /// They differ from the description of the run, or from the texts on air, in more than texts.
    Fault(TextFault),
}

/// Why a line-up, a description with its plan, is refused.
#[derive(Clone, Copy)]
pub enum LineUpRefusal {
    /// The description is refused.
    Unread(DescFault),
    /// A bad line in the plan.
    PlanLine(u32),
    /// A condition that does not hold for the plan.
    Plan(Refusal),
    /// A PID that an earlier line-up had, and the one in force does not have.
    Returned(u16),
    /// What stays would not stay as it is.
    Fault(LineUpFault),
    /// A stream goes on this PID although a unit of it waits.
    Waiting(u16),
}

/// Why a record is refused. It moves nothing, except if the run follows it.
#[derive(Clone, Copy)]
pub enum AirRefusal {
    /// The multiplexer refuses its unit.
    Feed(RefusedUnit),
    /// Its DTS is further after the greatest DTS so far than the terms allow.
    Ahead(FarRecord),
    /// The same, and seven records before it in a row were refused for it, each near the record before it: the run
    /// follows them. `packet` slots were written before it, and time jumps from the DTS `from` to the DTS of the
    /// record, `to`.
    Followed { packet: u64, from: u64, to: u64 },
    /// Its texts can't be put on air.
    Texts(TextsRefusal),
    /// Its line-up can't take the place of the one in force.
    LineUp(LineUpRefusal),
}
