//! The line for the refusal of a stream.

ghost use Rattle.std.specs.Prelude.{◌≡◌, ◌++◌, OnOk, string_bytes};
ghost use Rattle.job_run.specs.RefusalLine as spec;
ghost use Rattle.job_programs.specs.declared.refusal.JobRefusal.TheVariants as refusals;

use crate::lacking_line::{write_lacking, write_lacking_in};
use description_keys::DescFault;
use diagnosis::write_fault;
use es_moments::{DtsFault, StampFault};
use job_programs::job_options::is_among;
use job_programs::{GreaterBuffers, JobRefusal, NamedNumbers};
use std::alloc::AllocError;
use std::fmt::Write;

// A DTS that is this much lower, in units of 90 kHz (1 s), may begin a second recording.
const FALL: u64 = 90_000;

// Appends a stream_id that no unit may have.
#[tactic(auto, unfolding(crate::specs::RefusalLine::refusal_line))]
fn write_id(packet: u64, pid: u16, id: u8, text: &mut String) -> Result<(), AllocError>
    ensures { OnOk result
        (string_bytes text.new ≡ string_bytes text.old ++ spec.refusal_line (refusals.StreamId packet pid id)) }
{
    write!(
        text,
        "packet {packet} pid {pid} stream_id {id} cannot be written\n"
    )
}

// Appends two stream_ids on one PID.
#[tactic(auto, unfolding(crate::specs::RefusalLine::refusal_line))]
fn write_ids(packet: u64, pid: u16, id: u8, first: u8, text: &mut String) -> Result<(), AllocError>
    ensures { OnOk result (string_bytes text.new
        ≡ string_bytes text.old ++ spec.refusal_line (refusals.OtherStreamId packet pid id first)) }
{
    write!(
        text,
        "packet {packet} pid {pid} stream_id {id} after {first}\n"
    )
}

// Appends why time stamps can't be moments of a run.
#[tactic(auto, unfolding(crate::specs::RefusalLine::stamps_text))]
fn write_stamps(fault: StampFault, text: &mut String) -> Result<(), AllocError>
    ensures { OnOk result (string_bytes text.new ≡ string_bytes text.old ++ spec.stamps_text fault) }
{
    match fault {
        StampFault::DtsNotIncreasing(by) => write!(text, " DTS is {by} before the one before"),
        StampFault::PtsOutOfRange { after, limit } => {
            write!(text, " PTS is {after} after its DTS: not 0 to {limit}")
        }
        StampFault::DtsTooFar => text.push_str(" DTS is too far"),
    }
}

// Returns whether DTS fall by more than a second, as where two recordings were joined.
#[tactic(auto, unfolding(crate::specs::RefusalLine::has_fallen))]
fn has_fallen(fault: StampFault) -> bool
    ensures { result ≡ spec.has_fallen fault }
{
    match fault {
        StampFault::DtsNotIncreasing(by) => by > FALL,
        StampFault::PtsOutOfRange { .. } => false,
        StampFault::DtsTooFar => false,
    }
}

// Appends how to take two recordings that were joined.
#[tactic(auto, unfolding(crate::specs::RefusalLine::fallen_text))]
fn write_fallen(fallen: bool, text: &mut String) -> Result<(), AllocError>
    ensures { OnOk result (string_bytes text.new ≡ string_bytes text.old ++ spec.fallen_text fallen) }
{
    if fallen {
        text.push_str("; --joined takes recordings that were joined\n")
    } else {
        text.push_str("\n")
    }
}

// Returns whether DTS fall with the clock of their stream, one of the streams whose clocks go back.
fn falls_with(falling: &[u16], pid: u16, fault: StampFault) -> bool
    ensures { result ≡ spec.falls_with falling.now pid fault }
{
    has_fallen(fault) && is_among(pid, falling)
}

// Appends how to mend time stamps, if there is a way.
#[tactic(auto, unfolding(crate::specs::RefusalLine::remedy_text))]
fn write_remedy(mended: bool, fallen: bool, text: &mut String) -> Result<(), AllocError>
    ensures { OnOk result (string_bytes text.new ≡ string_bytes text.old ++ spec.remedy_text mended fallen) }
{
    if mended {
        text.push_str("; --make-dts makes DTS from the PTS\n")
    } else {
        write_fallen(fallen, text)
    }
}

// Appends a unit whose time stamps can't be moments of a run.
#[tactic(auto, unfolding(crate::specs::RefusalLine::stamps_line))]
fn write_stamps_of(
    fallen: bool,
    packet: u64,
    pid: u16,
    fault: StampFault,
    mended: bool,
    text: &mut String,
) -> Result<(), AllocError>
    ensures { OnOk result (string_bytes text.new
        ≡ string_bytes text.old ++ spec.stamps_line fallen packet pid fault mended) }
{
    write!(text, "packet {packet} pid {pid}")?;
    write_stamps(fault, text)?;
    write_remedy(mended, fallen, text)
}

// Appends why no DTS can be made from the PTS.
#[tactic(auto, unfolding(crate::specs::RefusalLine::making_text))]
fn write_making(fault: DtsFault, text: &mut String) -> Result<(), AllocError>
    ensures { OnOk result (string_bytes text.new ≡ string_bytes text.old ++ spec.making_text fault) }
{
    match fault {
        DtsFault::SamePts(pts) => write!(text, " two PTS are {pts}\n"),
        DtsFault::PtsTooLate { index, after } => write!(
            text,
            " unit {index} PTS is {after} after its DTS: not 0 to 90000\n"
        ),
    }
}

// Appends a stream whose PTS give no DTS.
#[tactic(auto, unfolding(crate::specs::RefusalLine::refusal_line))]
fn write_making_of(pid: u16, fault: DtsFault, text: &mut String) -> Result<(), AllocError>
    ensures { OnOk result
        (string_bytes text.new ≡ string_bytes text.old ++ spec.refusal_line (refusals.Dts pid fault)) }
{
    write!(text, "pid {pid}")?;
    write_making(fault, text)
}

// Appends that a stream has more units than a queue takes.
#[tactic(auto, unfolding(crate::specs::RefusalLine::refusal_line))]
fn write_count(pid: u16, count: usize, text: &mut String) -> Result<(), AllocError>
    ensures { OnOk result
        (string_bytes text.new ≡ string_bytes text.old ++ spec.refusal_line (refusals.Units pid count)) }
{
    write!(text, "pid {pid} has {count} units: more than 1048576\n")
}

// Appends a unit that is too large for a PES packet of its stream.
#[tactic(auto, unfolding(crate::specs::RefusalLine::refusal_line))]
fn write_size(pid: u16, size: usize, text: &mut String) -> Result<(), AllocError>
    ensures { OnOk result
        (string_bytes text.new ≡ string_bytes text.old ++ spec.refusal_line (refusals.Size pid size)) }
{
    write!(text, "pid {pid} unit of {size} bytes is too large\n")
}

// Appends units that their buffers do not hold.
#[tactic(auto, unfolding(crate::specs::RefusalLine::unfit_text))]
fn write_unfit(pid: u16, size: u32, rx: u32, main: u32, text: &mut String) -> Result<(), AllocError>
    ensures { OnOk result (string_bytes text.new ≡ string_bytes text.old ++ spec.unfit_text pid size rx main) }
{
    write!(
        text,
        "pid {pid} units of up to {size} bytes do not fit rx {rx} and main {main}"
    )
}

// Appends greater buffers that would take units.
#[tactic(auto, unfolding(crate::specs::RefusalLine::greater_text))]
fn write_greater(pid: u16, rx: u32, main: u32, text: &mut String) -> Result<(), AllocError>
    ensures { OnOk result (string_bytes text.new ≡ string_bytes text.old ++ spec.greater_text pid rx main) }
{
    write!(text, "; --buffers {pid}:{rx}:{main} would carry it\n")
}

// Appends the buffers that would take units, if the stream's own buffers do not hold them and greater buffers do.
#[tactic(auto, unfolding(crate::specs::RefusalLine::way_text))]
fn write_way(pid: u16, way: Option<GreaterBuffers>, text: &mut String) -> Result<(), AllocError>
    ensures { OnOk result (string_bytes text.new ≡ string_bytes text.old ++ spec.way_text pid way) }
{
    match way {
        None => text.push_str("\n"),
        Some(buffers) => write_greater(pid, buffers.rx, buffers.main, text),
    }
}

// Appends units that are too large for their buffers.
#[tactic(auto, unfolding(crate::specs::RefusalLine::refusal_line))]
fn write_buffers(
    pid: u16,
    size: u32,
    rx: u32,
    main: u32,
    way: Option<GreaterBuffers>,
    text: &mut String,
) -> Result<(), AllocError>
    ensures { OnOk result
        (string_bytes text.new ≡ string_bytes text.old ++ spec.refusal_line (refusals.Buffers pid size rx main way)) }
{
    write_unfit(pid, size, rx, main, text)?;
    write_way(pid, way, text)
}

// Appends that the description is refused.
#[tactic(auto, unfolding(crate::specs::RefusalLine::refusal_line))]
fn write_description(fault: DescFault, text: &mut String) -> Result<(), AllocError>
    ensures { OnOk result
        (string_bytes text.new ≡ string_bytes text.old ++ spec.refusal_line (refusals.Description fault)) }
{
    text.push_str("the description is refused: ")?;
    write_fault(&[], fault, text)
}

// Appends the first program named.
#[tactic(auto, unfolding(crate::specs::RefusalLine::first_text))]
fn write_first(number: Option<u16>, text: &mut String) -> Result<(), AllocError>
    ensures { OnOk result (string_bytes text.new ≡ string_bytes text.old ++ spec.first_text number) }
{
    match number {
        None => text.push_str("none"),
        Some(number) => write!(text, "{number}"),
    }
}

// Appends a further program.
#[tactic(auto, unfolding(crate::specs::RefusalLine::next_text))]
fn write_next(number: Option<u16>, text: &mut String) -> Result<(), AllocError>
    ensures { OnOk result (string_bytes text.new ≡ string_bytes text.old ++ spec.next_text number) }
{
    match number {
        None => Ok(()),
        Some(number) => write!(text, ", {number}"),
    }
}

// Appends how many programs follow the first four.
#[tactic(auto, unfolding(crate::specs::RefusalLine::more_text))]
fn write_more(count: usize, text: &mut String) -> Result<(), AllocError>
    ensures { OnOk result (string_bytes text.new ≡ string_bytes text.old ++ spec.more_text count) }
{
    if count > 4 {
        write!(text, " and {} more: tsview lists them\n", count - 4)
    } else {
        text.push_str("\n")
    }
}

/// Appends the numbers of programs that are named, and the end of the line.
#[tactic(auto, unfolding(crate::specs::RefusalLine::named_text))]
pub(crate) fn write_named(there: NamedNumbers, text: &mut String) -> Result<(), AllocError>
    ensures { OnOk result (string_bytes text.new ≡ string_bytes text.old ++ spec.named_text there) }
{
    write_first(there.first, text)?;
    write_next(there.second, text)?;
    write_next(there.third, text)?;
    write_next(there.fourth, text)?;
    write_more(there.count, text)
}

// Appends that the stream has no program that the options select.
#[tactic(auto, unfolding(crate::specs::RefusalLine::refusal_line))]
fn write_no_program(there: NamedNumbers, text: &mut String) -> Result<(), AllocError>
    ensures { OnOk result
        (string_bytes text.new ≡ string_bytes text.old ++ spec.refusal_line (refusals.NoProgram there)) }
{
    text.push_str("no PMT: no program that is asked for has one with a stream; the PAT names ")?;
    write_named(there, text)
}

/// Appends the line of a refusal.
#[tactic(auto, unfolding(crate::specs::RefusalLine::refusal_line))]
pub(crate) fn write_refusal(refusal: JobRefusal, text: &mut String) -> Result<(), AllocError>
    ensures { OnOk result (string_bytes text.new ≡ string_bytes text.old ++ spec.refusal_line refusal) }
{
    match refusal {
        JobRefusal::NoPackets => text.push_str("not a transport stream\n"),
        JobRefusal::NoAssociation => {
            text.push_str("no PAT: the stream is empty, or names no programs\n")
        },
        JobRefusal::NoProgram(there) => write_no_program(there, text),
        JobRefusal::NoStream => text.push_str("no stream\n"),
        JobRefusal::Scrambled(pid) => write!(text, "pid {pid} is scrambled\n"),
        JobRefusal::Programs(count) => write!(text, "{count} programs: more than 64\n"),
        JobRefusal::Streams(count) => write!(text, "{count} streams: more than 254\n"),
        JobRefusal::StreamId { packet, pid, id } => write_id(packet, pid, id, text),
        JobRefusal::NoStamps(pid) => { write!(text, "pid {pid} has no PTS in its PES packets\n") }
        JobRefusal::OtherStreamId {
            packet,
            pid,
            id,
            first,
        } => write_ids(packet, pid, id, first, text),
        JobRefusal::Stamps {
            packet,
            pid,
            fault,
            mended,
        } => write_stamps_of(false, packet, pid, fault, mended, text),
        JobRefusal::Dts { pid, fault } => write_making_of(pid, fault, text),
        JobRefusal::Units { pid, count } => write_count(pid, count, text),
        JobRefusal::Size { pid, size } => write_size(pid, size, text),
        JobRefusal::Buffers {
            pid,
            size,
            rx,
            main,
            way_out,
        } => write_buffers(pid, size, rx, main, way_out, text),
        JobRefusal::Lacking {
            program,
            pid,
            kind,
            ..
        } => write_lacking(program, pid, kind, text),
        JobRefusal::Pids => text.push_str("no PID is left for a PMT or a PCR\n"),
        JobRefusal::Description(fault) => write_description(fault, text),
        JobRefusal::Plan(rate) => write!(
            text,
            "no plan at rate {rate}: tsjob why names what prevents one\n"
        ),
        JobRefusal::Declaration(pid) => { write!(text, "pid {pid} breaks its own declaration\n") }
    }
}

// Appends the line of a refusal of one stream, in a recording with streams of these PIDs whose clocks go back.
#[tactic(auto, unfolding(crate::specs::RefusalLine::reason_in))]
pub(crate) fn write_reason_in(
    falling: &[u16],
    refusal: JobRefusal,
    text: &mut String,
) -> Result<(), AllocError>
    ensures { OnOk result
        (string_bytes text.new ≡ string_bytes text.old ++ spec.reason_in falling.now refusal) }
{
    match refusal {
        JobRefusal::Stamps {
            packet,
            pid,
            fault,
            mended,
        } => write_stamps_of(
            falls_with(falling, pid, fault),
            packet,
            pid,
            fault,
            mended,
            text,
        ),
        other => write_refusal(other, text),
    }
}

/// Appends the lines of a refusal in a recording with streams of these PIDs whose clocks go back.
#[tactic(auto, unfolding(crate::specs::RefusalLine::refusal_in))]
pub(crate) fn write_refusal_in(
    falling: &[u16],
    refusal: JobRefusal,
    text: &mut String,
) -> Result<(), AllocError>
    ensures { OnOk result
        (string_bytes text.new ≡ string_bytes text.old ++ spec.refusal_in falling.now refusal) }
{
    match refusal {
        JobRefusal::Lacking {
            program,
            pid,
            kind,
            cause,
        } => write_lacking_in(falling, program, pid, kind, cause, text),
        other => write_reason_in(falling, other, text),
    }
}
