//! Why a unit is refused, in words.

ghost use Rattle.std.specs.Prelude.{◌≡◌, ◌≤◌, ◌++◌, OnOk, string_bytes};
ghost use Rattle.explained_jobs.specs.UnitWords as spec;

use crate::line_up_words::{write_line_up_fault, write_waiting};
use crate::text_words::{write_part, write_text_fault};
use crate::unit_limits::{UnitLimits, declared_limits, limits_at};
use description::Description;
use line_ups::LineUpFault;
use on_air::{AirRefusal, FarRecord, LineUpRefusal, RefusedUnit, TextsRefusal, refused_unit};
use pes_packet::Unit;
use plan_checker::Refusal;
use std::alloc::AllocError;
use std::fmt::Write;
use unit_queue::FeedError;
use unit_timing::allowance::Allowance;

// Appends the value of a key and the least value needed.
fn write_less(key: &str, limit: u64, needed: u64, text: &mut String) -> Result<(), AllocError>
    ensures { OnOk result (string_bytes text.new ≡ string_bytes text.old ++ spec.less_words key.now limit needed) }
{
    write!(text, "{key} {limit} is less than {needed}\n")
}

// Appends the size that a unit needs.
fn write_size(limits: UnitLimits, unit: RefusedUnit, text: &mut String) -> Result<(), AllocError>
    ensures { OnOk result (string_bytes text.new ≡ string_bytes text.old ++ spec.size_words limits unit) }
{
    write_less("size", u64::from(limits.size), unit.size, text)
}

// Appends a PTS before the DTS.
fn write_early(pts: u64, text: &mut String) -> Result<(), AllocError>
    ensures { OnOk result (string_bytes text.new ≡ string_bytes text.old ++ spec.early_words pts) }
{
    write!(text, "PTS {pts} is before its DTS\n")
}

// Appends the limit that a PTS needs.
fn write_far(limits: UnitLimits, unit: RefusedUnit, text: &mut String) -> Result<(), AllocError>
    requires { unit.dts ≤ unit.pts }
    ensures { OnOk result (string_bytes text.new ≡ string_bytes text.old ++ spec.far_words limits unit) }
{
    let needed = unit.pts - unit.dts;
    write_less("pts_limit", u64::from(limits.pts_limit), needed, text)
}

// Appends why a PTS is refused.
#[tactic(auto, unfolding(crate::specs::UnitWords::pts_words))]
fn write_pts(limits: UnitLimits, unit: RefusedUnit, text: &mut String) -> Result<(), AllocError>
    ensures { OnOk result (string_bytes text.new ≡ string_bytes text.old ++ spec.pts_words limits unit) }
{
    if unit.pts < unit.dts {
        write_early(unit.pts, text)
    } else {
        write_far(limits, unit, text)
    }
}

// Appends the interval that a unit does not keep.
fn write_soon(limits: UnitLimits, text: &mut String) -> Result<(), AllocError>
    ensures { OnOk result (string_bytes text.new ≡ string_bytes text.old ++ spec.soon_words limits) }
{
    let interval = limits.interval;
    write!(
        text,
        "less than interval {interval} after the unit before it\n"
    )
}

// Appends the lead that begins before the run.
fn write_begun(lead: u32, dts: u64, text: &mut String) -> Result<(), AllocError>
    ensures { OnOk result (string_bytes text.new ≡ string_bytes text.old ++ spec.begun_words lead dts) }
{
    write!(text, "lead {lead} is greater than DTS {dts}\n")
}

// Appends that slots of a unit are written.
fn write_written(lead: u32, text: &mut String) -> Result<(), AllocError>
    ensures { OnOk result (string_bytes text.new ≡ string_bytes text.old ++ spec.written_words lead) }
{
    write!(
        text,
        "slots of its lead {lead} are already written: it comes too late for --wait\n"
    )
}

// Appends why a unit is late.
#[tactic(auto, unfolding(crate::specs::UnitWords::late_words))]
fn write_late(limits: UnitLimits, unit: RefusedUnit, text: &mut String) -> Result<(), AllocError>
    ensures { OnOk result (string_bytes text.new ≡ string_bytes text.old ++ spec.late_words limits unit) }
{
    if unit.dts < u64::from(limits.lead) {
        write_begun(limits.lead, unit.dts, text)
    } else {
        write_written(limits.lead, text)
    }
}

// Appends how many packets units in a row may have.
#[tactic(auto, unfolding(crate::specs::UnitWords::packets_words))]
fn write_packets(allowance: Allowance, text: &mut String) -> Result<(), AllocError>
    ensures { OnOk result (string_bytes text.new ≡ string_bytes text.old ++ spec.packets_words allowance) }
{
    match allowance {
        Allowance::Groups { units, packets } => write!(
            text,
            "group_packets {packets} is less than the packets of {units} units\n"
        ),
        Allowance::Pace { burst, pace } => write!(
            text,
            "burst_packets {burst} and pace {pace} are less than the packets of units in a row\n"
        ),
    }
}

// Appends why a unit of a stream is refused.
#[tactic(auto, unfolding(crate::specs::UnitWords::cause_words))]
fn write_cause(
    cause: FeedError,
    limits: UnitLimits,
    unit: RefusedUnit,
    text: &mut String,
) -> Result<(), AllocError>
    ensures { OnOk result (string_bytes text.new ≡ string_bytes text.old ++ spec.cause_words cause limits unit) }
{
    match cause {
        FeedError::UnknownStream => text.push_str("no stream has this number\n"),
        FeedError::Empty => text.push_str("no bytes\n"),
        FeedError::TooLarge => write_size(limits, unit, text),
        FeedError::TooSoon => write_soon(limits, text),
        FeedError::BadPts => write_pts(limits, unit, text),
        FeedError::Late => write_late(limits, unit, text),
        FeedError::TooFar => text.push_str("DTS over 4503599627370496\n"),
        FeedError::Full => text.push_str(
            "no room for one more waiting unit of its stream: --room, at most 1048576\n",
        ),
        FeedError::Group | FeedError::Pace => write_packets(limits.allowance, text),
        FeedError::OffAir => text.push_str(
            "no program on air has the stream: it needs on_air = true, or new texts with it first\n",
        ),
    }
}

// Appends which unit it is, and the number of its refusal.
fn write_head(
    index: u64,
    code: u8,
    pid: u16,
    number: u8,
    dts: u64,
    text: &mut String,
) -> Result<(), AllocError>
    ensures { OnOk result (string_bytes text.new ≡ string_bytes text.old ++ spec.unit_head index code pid number dts) }
{
    write!(
        text,
        "unit {index} (code {code}): pid {pid}, stream {number}, DTS {dts}: "
    )
}

// Appends that a unit is of no stream.
fn write_unknown(index: u64, code: u8, number: u8, text: &mut String) -> Result<(), AllocError>
    ensures { OnOk result (string_bytes text.new ≡ string_bytes text.old ++ spec.unknown_words index code number) }
{
    write!(
        text,
        "unit {index} (code {code}): the description has no stream {number}\n"
    )
}

// Appends why a unit is refused.
#[tactic(auto, unfolding(crate::specs::UnitWords::stream_words))]
fn write_unit(
    index: u64,
    unit: RefusedUnit,
    limits: Option<UnitLimits>,
    text: &mut String,
) -> Result<(), AllocError>
    ensures { OnOk result (string_bytes text.new ≡ string_bytes text.old ++ spec.stream_words index unit limits) }
{
    let code = unit.cause.code();
    match limits {
        None => write_unknown(index, code, unit.stream, text),
        Some(limits) => {
            write_head(index, code, limits.pid, unit.stream, unit.dts, text)?;
            write_cause(unit.cause, limits, unit, text)
        }
    }
}

/// Appends why the unit of an index is refused, of the units of all records with the numbers of their streams.
#[tactic(auto, unfolding(crate::specs::UnitWords::entry_words))]
pub fn write_refused(
    description: &Description,
    units: &[(u8, Unit)],
    index: u64,
    cause: FeedError,
    text: &mut String,
) -> Result<(), AllocError>
    ensures { OnOk result (string_bytes text.new
        ≡ string_bytes text.old ++ spec.refused_words description.now units.now index cause) }
{
    match units.get(index as usize) {
        None => Ok(()),
        Some((number, unit)) => {
            let limits = declared_limits(description.streams(), *number);
            write_unit(index, refused_unit(*number, unit, cause), limits, text)
        }
    }
}

// Appends which record is too far ahead, if it is of no stream.
fn write_tick_head(index: u64, number: u8, dts: u64, text: &mut String) -> Result<(), AllocError>
    ensures { OnOk result (string_bytes text.new ≡ string_bytes text.old ++ spec.tick_head index number dts) }
{
    write!(text, "unit {index} (code 11): stream {number}, DTS {dts}: ")
}

// Appends which record is too far ahead.
#[tactic(auto, unfolding(crate::specs::UnitWords::far_head))]
fn write_far_head(
    index: u64,
    far: FarRecord,
    limits: Option<UnitLimits>,
    text: &mut String,
) -> Result<(), AllocError>
    ensures { OnOk result (string_bytes text.new ≡ string_bytes text.old ++ spec.far_head index far limits) }
{
    match limits {
        None => write_tick_head(index, far.stream, far.to, text),
        Some(limits) => write_head(index, 11, limits.pid, far.stream, far.to, text),
    }
}

// Appends how far ahead a record may be.
fn write_ahead(ahead: u64, from: u64, text: &mut String) -> Result<(), AllocError>
    ensures { OnOk result (string_bytes text.new ≡ string_bytes text.old ++ spec.ahead_words ahead from) }
{
    write!(
        text,
        "more than --ahead {ahead} after DTS {from}, the greatest before it\n"
    )
}

// Appends that a run follows a record in spite of a leap.
fn write_leap(
    index: u64,
    packet: u64,
    from: u64,
    to: u64,
    text: &mut String,
) -> Result<(), AllocError>
    ensures { OnOk result (string_bytes text.new ≡ string_bytes text.old ++ spec.leap_line index packet from to) }
{
    write!(text, "leap {index} {packet} {from} {to}\n")
}

// Appends whose texts are refused.
fn write_switch_head(index: u64, text: &mut String) -> Result<(), AllocError>
    ensures { OnOk result (string_bytes text.new ≡ string_bytes text.old ++ spec.switch_head index) }
{
    write!(text, "switch {index} ")
}

// Appends which refusal of a description it is.
fn write_unread(code: u8, item: usize, text: &mut String) -> Result<(), AllocError>
    ensures { OnOk result (string_bytes text.new ≡ string_bytes text.old ++ spec.unread_words code item) }
{
    write!(
        text,
        "description {code} {item}: tsjob explain DESCRIPTION says why\n"
    )
}

/// Appends why texts are refused.
#[tactic(auto, unfolding(crate::specs::UnitWords::refused_texts_words))]
pub(crate) fn write_refused_texts(
    refusal: TextsRefusal,
    text: &mut String,
) -> Result<(), AllocError>
    ensures { OnOk result (string_bytes text.new ≡ string_bytes text.old ++ spec.refused_texts_words refusal) }
{
    match refusal {
        TextsRefusal::Unread(fault) => write_unread(fault.code(), fault.item(), text),
        TextsRefusal::Fault(fault) => write_text_fault(fault, text),
    }
}

// Appends which line of a plan is bad.
fn write_plan_line(line: u32, text: &mut String) -> Result<(), AllocError>
    ensures { OnOk result (string_bytes text.new ≡ string_bytes text.old ++ spec.plan_line_words line) }
{
    write_part(
        "plan",
        line as usize,
        "not as a plan has it: tsmux plan < DESCRIPTION makes one",
        text,
    )
}

// Appends which condition fails, with its numbers.
fn write_numbered_condition(
    code: u8,
    part: u8,
    item: u32,
    left: u128,
    right: u128,
    text: &mut String,
) -> Result<(), AllocError>
    ensures { OnOk result (string_bytes text.new
        ≡ string_bytes text.old ++ spec.numbered_condition code part item left right) }
{
    write!(
        text,
        "refused {code} {part} {item} {left} {right}: tsjob explain DESCRIPTION PLAN says why\n"
    )
}

// Appends which condition a plan does not keep.
fn write_plan(refusal: Refusal, text: &mut String) -> Result<(), AllocError>
    ensures { OnOk result (string_bytes text.new ≡ string_bytes text.old ++ spec.plan_words refusal) }
{
    let code = refusal.condition.code();
    write_numbered_condition(
        code,
        refusal.part,
        refusal.item,
        refusal.left,
        refusal.right,
        text,
    )
}

// Appends why a line-up is refused.
#[tactic(auto, unfolding(crate::specs::UnitWords::refused_line_up_words))]
fn write_refused_line_up(refusal: LineUpRefusal, text: &mut String) -> Result<(), AllocError>
    ensures { OnOk result (string_bytes text.new ≡ string_bytes text.old ++ spec.refused_line_up_words refusal) }
{
    match refusal {
        LineUpRefusal::Unread(fault) => write_unread(fault.code(), fault.item(), text),
        LineUpRefusal::PlanLine(line) => write_plan_line(line, text),
        LineUpRefusal::Plan(refusal) => write_plan(refusal, text),
        LineUpRefusal::Returned(pid) => write_line_up_fault(LineUpFault::Pid(pid), text),
        LineUpRefusal::Fault(fault) => write_line_up_fault(fault, text),
        LineUpRefusal::Waiting(pid) => write_waiting(pid, text),
    }
}

/// Appends why a record is refused on air, by the limits of the streams.
#[tactic(auto, unfolding(crate::specs::UnitWords::air_line))]
pub fn write_air(
    index: u64,
    refusal: AirRefusal,
    streams: &[UnitLimits],
    text: &mut String,
) -> Result<(), AllocError>
    ensures { OnOk result (string_bytes text.new
        ≡ string_bytes text.old ++ spec.air_line streams.now index refusal) }
{
    match refusal {
        AirRefusal::Feed(unit) => {
            let limits = limits_at(streams, unit.stream);
            write_unit(index, unit, limits, text)
        }
        AirRefusal::Ahead(far) => {
            let limits = limits_at(streams, far.stream);
            write_far_head(index, far, limits, text)?;
            write_ahead(far.ahead, far.from, text)
        }
        AirRefusal::Followed { packet, from, to } => write_leap(index, packet, from, to, text),
        AirRefusal::Texts(refusal) => {
            write_switch_head(index, text)?;
            write_refused_texts(refusal, text)
        }
        AirRefusal::LineUp(refusal) => {
            write_switch_head(index, text)?;
            write_refused_line_up(refusal, text)
        }
    }
}
