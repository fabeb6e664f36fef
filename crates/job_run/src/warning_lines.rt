//! The lines of warnings: what of a stream is left out or changed.

ghost use Rattle.std.specs.Prelude.{◌≡◌, ◌++◌, IfOk, OnOk, string_bytes};
ghost use Rattle.job_programs.specs.Warnings.{are_damaged};
ghost use Rattle.job_run.specs.WarningLines as spec;

use crate::information_lines::write_information;
use crate::refusal_line::{write_named, write_refusal_in};
use crate::reporting::Reporting;
use es_units::{UnitWarning, UnitWarningCause};
use job_programs::{JobRefusal, NamedNumbers, PacketWarning, ProgramWarning, Warning};
use pes_packet::PesError;
use program_tables::MapPart;
use std::alloc::{AllocError, Global};
use std::fmt::Write;
use stream_programs::TableOmission;

// Appends the line for an item of the tables that is left out.
#[tactic(auto, unfolding(crate::specs::WarningLines::table_line))]
fn write_table(left_out: TableOmission, text: &mut String) -> Result<(), AllocError>
    ensures { OnOk result (string_bytes text.new ≡ string_bytes text.old ++ spec.table_line left_out) }
{
    match left_out {
        TableOmission::NoMap { program } => {
            write!(text, "program {program} has no PMT: left out\n")
        }
        TableOmission::ConditionalAccess { program } => {
            write!(text, "CA descriptors of program {program} left out\n")
        }
        TableOmission::Multiplex { program } => {
            write!(
                text,
                "multiplex descriptors of program {program} left out\n"
            )
        }
        TableOmission::NoPes {
            program,
            pid,
            stream_type,
        } => write!(
            text,
            "pid {pid} of program {program} stream_type {stream_type} has no PES and no sections to repeat: left out\n"
        ),
        TableOmission::Reserved { program, pid } => write!(
            text,
            "pid {pid} of program {program} is reserved: left out\n"
        ),
        TableOmission::Taken {
            program,
            pid,
            holder,
        } => write!(
            text,
            "pid {pid} of program {program} is in program {holder} already: left out\n"
        ),
        TableOmission::SharedOtherwise {
            program,
            pid,
            holder,
        } => write!(
            text,
            "pid {pid} of program {program} has the stream_type and descriptors of program {holder}: its own left out\n"
        ),
        TableOmission::NoStream { program } => {
            write!(text, "program {program} has no stream: left out\n")
        }
    }
}

// Returns why a PES packet is not read.
#[tactic(auto, unfolding(crate::specs::WarningLines::pes_text))]
fn pes_text(error: PesError) -> &'static str
    ensures { result.now ≡ spec.pes_text error }
{
    match error {
        PesError::Marker => "bad-stamp\n",
        _ => "bad-pes\n",
    }
}

// Appends why a finding on a PID is in no unit.
#[tactic(auto, unfolding(crate::specs::WarningLines::reason_text))]
fn write_reason(cause: UnitWarningCause, text: &mut String) -> Result<(), AllocError>
    ensures { OnOk result (string_bytes text.new ≡ string_bytes text.old ++ spec.reason_text cause) }
{
    match cause {
        UnitWarningCause::Counter { expected, found } => {
            write!(text, "counter {found} in place of {expected}\n")
        }
        UnitWarningCause::Scrambled => text.push_str("scrambled\n"),
        UnitWarningCause::Truncated(size) => write!(text, "truncated {size}\n"),
        UnitWarningCause::TruncatedByEnd(size) => write!(text, "truncated {size} by the end\n"),
        UnitWarningCause::Section => text.push_str("section\n"),
        UnitWarningCause::BadSection(_) => text.push_str("bad-section\n"),
        UnitWarningCause::BadPes(error) => text.push_str(pes_text(error)),
        UnitWarningCause::NoUnitBefore(size) => write!(
            text,
            "no stamp and no unit before: {size} bytes left out\n"
        ),
        UnitWarningCause::OtherStreamId { id, size } => write!(
            text,
            "stream_id {id} inside a unit of another: {size} bytes left out\n"
        ),
        UnitWarningCause::PartLost => text.push_str("unit left out: a part of it is lost\n"),
        UnitWarningCause::EmptyUnit => text.push_str("unit without bytes left out\n"),
        UnitWarningCause::Stray => text.push_str("payload in no PES packet\n"),
        UnitWarningCause::OpenEnded => text.push_str(
            "last PES packet has neither length nor end: taken, may be cut\n",
        ),
    }
}

// Appends the line for a stream with a stream_id that can't be written.
#[tactic(auto, unfolding(crate::specs::WarningLines::id_line))]
fn write_id(
    program: u16,
    pid: u16,
    packet: u64,
    id: u8,
    text: &mut String,
) -> Result<(), AllocError>
    ensures { OnOk result (string_bytes text.new ≡ string_bytes text.old ++ spec.id_line program pid packet id) }
{
    write!(
        text,
        "packet {packet} pid {pid} of program {program} stream_id {id} cannot be written: left out\n"
    )
}

// Appends the line for a finding on a PID.
fn write_unit(pid: u16, warning: UnitWarning, text: &mut String) -> Result<(), AllocError>
    ensures { OnOk result (string_bytes text.new ≡ string_bytes text.old ++ spec.unit_line pid warning) }
{
    let packet = warning.packet;
    write!(text, "packet {packet} pid {pid} ")?;
    write_reason(warning.cause, text)
}

// Returns the words about a packet, after its number.
#[tactic(auto, unfolding(crate::specs::WarningLines::packet_text))]
fn packet_text(what: PacketWarning) -> &'static str
    ensures { result.now ≡ spec.packet_text what }
{
    match what {
        PacketWarning::Bad => " bad-packet\n",
        PacketWarning::Errored => " errored\n",
        PacketWarning::AssociationChanges => " PAT changes: the first is used\n",
        PacketWarning::ProgramLoss => {
            " PAT names a program or PMT PID that the first does not: left out\n"
        }
        PacketWarning::NetworkSurplus => {
            " NIT says other or more than one network and its streams: left out\n"
        }
    }
}

// Appends the line for a packet.
#[tactic(auto, unfolding(crate::specs::WarningLines::packet_line))]
fn write_packet(packet: u64, what: PacketWarning, text: &mut String) -> Result<(), AllocError>
    ensures { OnOk result (string_bytes text.new ≡ string_bytes text.old ++ spec.packet_line packet what) }
{
    write!(text, "packet {packet}")?;
    text.push_str(packet_text(what))
}

// Returns the part of a program's map that differs, for the line after the program's number.
#[tactic(auto, unfolding(crate::specs::WarningLines::map_text))]
fn map_text(part: MapPart) -> &'static str
    ensures { result.now ≡ spec.map_text part }
{
    match part {
        MapPart::NamedStreams => " names other streams: the last is used\n",
        MapPart::Descriptors => " has descriptors that the last one has not: left out\n",
    }
}

// Appends the line for the map of a program.
#[tactic(auto, unfolding(crate::specs::WarningLines::map_line))]
fn write_map(program: u16, packet: u64, part: MapPart, text: &mut String) -> Result<(), AllocError>
    ensures { OnOk result (string_bytes text.new ≡ string_bytes text.old ++ spec.map_line program packet part) }
{
    write!(text, "packet {packet} PMT of program {program}")?;
    text.push_str(map_text(part))
}

// Appends that a selected program is missing, before the list of programs.
#[tactic(auto, unfolding(crate::specs::WarningLines::missing_front))]
fn write_missing_front(program: u16, text: &mut String) -> Result<(), AllocError>
    ensures { OnOk result (string_bytes text.new ≡ string_bytes text.old ++ spec.missing_front program) }
{
    write!(text, "program {program} is not there; the PAT names ")
}

// Appends the line for a program that is not there.
#[tactic(auto, unfolding(crate::specs::WarningLines::missing_line))]
fn write_missing(program: u16, named: NamedNumbers, text: &mut String) -> Result<(), AllocError>
    ensures { OnOk result (string_bytes text.new ≡ string_bytes text.old ++ spec.missing_line program named) }
{
    write_missing_front(program, text)?;
    write_named(named, text)
}

// Appends the line for a program.
#[tactic(auto, unfolding(crate::specs::WarningLines::program_line))]
fn write_program(program: u16, what: ProgramWarning, text: &mut String) -> Result<(), AllocError>
    ensures { OnOk result (string_bytes text.new ≡ string_bytes text.old ++ spec.program_line program what) }
{
    match what {
        ProgramWarning::Missing(named) => write_missing(program, named, text),
        ProgramWarning::NoStream => write!(
            text,
            "program {program} has no stream with units: left out\n"
        ),
    }
}

// Appends the line for the buffer size in a stream's own headers.
#[tactic(auto, unfolding(crate::specs::WarningLines::header_line))]
fn write_header_buffer(
    pid: u16,
    said: u32,
    unit: usize,
    counted: u32,
    text: &mut String,
) -> Result<(), AllocError>
    ensures { OnOk result (string_bytes text.new ≡ string_bytes text.old ++ spec.header_line pid said unit counted) }
{
    write!(
        text,
        "pid {pid} says a buffer of {said} bytes and has a unit of {unit}: its level's {counted} declared\n"
    )
}

// Appends the line for the leak that nothing keeps.
#[tactic(auto, unfolding(crate::specs::WarningLines::leak_line))]
fn write_leak(pid: u16, rate: u64, leak: u32, text: &mut String) -> Result<(), AllocError>
    ensures { OnOk result (string_bytes text.new ≡ string_bytes text.old ++ spec.leak_line pid rate leak) }
{
    write!(
        text,
        "pid {pid} asks for {rate} bits/s and its leak gives {leak}: declared without rbx and mb\n"
    )
}

// Appends that a main buffer holds whole PES packets, and may be over if frames of sound are counted.
#[tactic(auto, unfolding(crate::specs::WarningLines::by_packets))]
fn write_by_packets(main: u32, text: &mut String) -> Result<(), AllocError>
    ensures { OnOk result (string_bytes text.new ≡ string_bytes text.old ++ spec.by_packets main) }
{
    write!(
        text,
        ": main of {main} bytes holds whole packets, but may be over by the standard, which counts frames"
    )
}

// Appends how many bytes wait then, if they are more than the main buffer.
#[tactic(auto, unfolding(crate::specs::WarningLines::waiting_text))]
fn write_waiting(main: u32, bytes: u64, text: &mut String) -> Result<(), AllocError>
    ensures { OnOk result (string_bytes text.new ≡ string_bytes text.old ++ spec.waiting_text main bytes) }
{
    if u64::from(main) < bytes {
        write!(
            text,
            " (up to {bytes} bytes wait); fewer frames a PES packet (--frames) would fit\n"
        )
    } else {
        text.push_str("\n")
    }
}

// Appends the line for frames of sound that a main buffer is not known to hold one by one.
#[tactic(auto, unfolding(crate::specs::WarningLines::frames_line))]
fn write_frames(
    pid: u16,
    frames: u8,
    main: u32,
    bytes: u64,
    text: &mut String,
) -> Result<(), AllocError>
    ensures { OnOk result (string_bytes text.new ≡ string_bytes text.old ++ spec.frames_line pid frames main bytes) }
{
    write!(
        text,
        "pid {pid}: up to {frames} frames of sound a PES packet"
    )?;
    write_by_packets(main, text)?;
    write_waiting(main, bytes, text)
}

// Appends the line for frames of sound that cross PES packets.
#[tactic(auto, unfolding(crate::specs::WarningLines::crossing_line))]
fn write_crossing(pid: u16, main: u32, text: &mut String) -> Result<(), AllocError>
    ensures { OnOk result (string_bytes text.new ≡ string_bytes text.old ++ spec.crossing_line pid main) }
{
    write!(text, "pid {pid}: frames of sound cross PES packets")?;
    write_by_packets(main, text)?;
    text.push_str("\n")
}

// Appends the lines for a stream that is left out.
#[tactic(auto, unfolding(crate::specs::WarningLines::left_out_line))]
fn write_left_out(
    falling: &[u16],
    pid: u16,
    why: JobRefusal,
    text: &mut String,
) -> Result<(), AllocError>
    ensures { OnOk result
        (string_bytes text.new ≡ string_bytes text.old ++ spec.left_out_line falling.now pid why) }
{
    write_refusal_in(falling, why, text)?;
    write!(text, "pid {pid} left out\n")
}

// Appends the line of a warning.
#[tactic(auto, unfolding(crate::specs::WarningLines::warning_line))]
fn write_warning(falling: &[u16], warning: Warning, text: &mut String) -> Result<(), AllocError>
    ensures { OnOk result (string_bytes text.new ≡ string_bytes text.old ++ spec.warning_line falling.now warning) }
{
    match warning {
        Warning::Packet { packet, what } => write_packet(packet, what, text),
        Warning::TrailingBytes { size } => write!(text, "rest of {size} bytes\n"),
        Warning::Map {
            program,
            packet,
            part,
        } => write_map(program, packet, part, text),
        Warning::Table(left_out) => write_table(left_out, text),
        Warning::StrayPes { pid, count } => write!(
            text,
            "pid {pid} has {count} PES packets of no program: left out\n"
        ),
        Warning::Program { program, what } => write_program(program, what, text),
        Warning::NoSuchStream { pid } => write!(text, "pid {pid} is no stream\n"),
        Warning::Units { pid, warning: unit } => write_unit(pid, unit, text),
        Warning::NoUnit { program, pid } => write!(
            text,
            "pid {pid} of program {program} has no unit: left out\n"
        ),
        Warning::StreamId { stream, packet, id } => {
            write_id(stream.program, stream.pid, packet, id, text)
        }
        Warning::Information(about) => write_information(about, text),
        Warning::MapMoved { program, from, to } => write!(
            text,
            "PMT of program {program} moved from pid {from} to {to}\n"
        ),
        Warning::HeaderBuffer {
            pid,
            said,
            unit,
            counted,
        } => write_header_buffer(pid, said, unit, counted, text),
        Warning::Leak { pid, rate, leak } => write_leak(pid, rate, leak, text),
        Warning::LeftOut { stream, why } => write_left_out(falling, stream.pid, why, text),
        Warning::Frames {
            pid,
            frames,
            main,
            bytes,
        } => write_frames(pid, frames, main, bytes, text),
        Warning::CrossingFrames { pid, main } => write_crossing(pid, main, text),
        Warning::MadeDts { pid } => write!(
            text,
            "pid {pid} has no DTS that rise: made from its PTS\n"
        ),
    }
}

fn is_unknown_end(cause: UnitWarningCause) -> bool
    ensures { result ≡ spec.is_unknown_end cause }
{
    match cause {
        UnitWarningCause::OpenEnded => true,
        _ => false,
    }
}

// Returns whether a warning is that the end of a PES packet is not known.
fn is_open_ended(warning: &Warning) -> bool
    ensures { result ≡ spec.is_open_ended warning.now }
{
    match warning {
        Warning::Units { warning: unit, .. } => is_unknown_end(unit.cause),
        _ => false,
    }
}

// Returns whether a warning says that a receiver's buffers may hold more than the job declares, or that DTS are made.
fn is_note(warning: &Warning) -> bool
    ensures { result ≡ spec.is_note warning.now }
{
    match warning {
        Warning::HeaderBuffer { .. } | Warning::Leak { .. } | Warning::MadeDts { .. } => true,
        _ => false,
    }
}

// Returns whether a warning is reported.
#[tactic(auto, unfolding(crate::specs::WarningLines::is_reported))]
fn is_reported(reporting: Reporting, warning: &Warning) -> bool
    ensures { result ≡ spec.is_reported reporting warning.now }
{
    !(reporting.whole && is_open_ended(warning))
        && (reporting.all || is_note(warning) || warning.is_damage())
}

/// Returns the warnings that are reported.
pub(crate) fn reported_warnings(
    alloc: Global,
    reporting: Reporting,
    warnings: &[Warning],
) -> Result<Vec<Warning>, AllocError>
    ensures { IfOk result (λ reported. reported.items ≡ spec.reported_warnings reporting warnings.now) }
{
    let mut reported = Vec::new(alloc);
    for warning in warnings {
        if is_reported(reporting, warning) {
            reported.push(*warning)?;
        }
    }
    Ok(reported)
}

// Returns whether a run of packets with this cause has one line: whether they are stray and not scrambled.
fn run_cause(cause: UnitWarningCause) -> Option<bool>
    ensures { result ≡ spec.run_cause cause }
{
    match cause {
        UnitWarningCause::Scrambled => Some(false),
        UnitWarningCause::Stray => Some(true),
        _ => None,
    }
}

// Returns the run of a warning: its PID, and whether its packets are stray.
fn run_of(warning: Warning) -> Option<(u16, bool)>
    ensures { result ≡ spec.run_of warning }
{
    match warning {
        Warning::Units { pid, warning: unit } => match run_cause(unit.cause) {
            None => None,
            Some(stray) => Some((pid, stray)),
        },
        _ => None,
    }
}

// Returns whether a packet is of the same run as the packet in the warning before.
fn goes_on(before: Option<(u16, bool)>, now: Option<(u16, bool)>) -> bool
    ensures { result ≡ spec.goes_on before now }
{
    match before {
        None => false,
        Some((pid, stray)) => match now {
            None => false,
            Some(now) => pid == now.0 && (if stray { now.1 } else { !now.1 }),
        },
    }
}

// Appends the line of a warning, unless its packet is of the same run as the packet of the warning before.
fn write_after(
    falling: &[u16],
    before: Option<(u16, bool)>,
    warning: Warning,
    text: &mut String,
) -> Result<(), AllocError>
    ensures { OnOk result
        (string_bytes text.new ≡ string_bytes text.old ++ spec.line_after falling.now before warning) }
{
    if goes_on(before, run_of(warning)) {
        return Ok(());
    }
    write_warning(falling, warning, text)
}

/// Appends a line for each warning; one for each run of scrambled or of stray packets of a PID. The streams of the PIDs
/// `falling` have clocks that go back.
pub(crate) fn write_warnings(
    falling: &[u16],
    all: &[Warning],
    text: &mut String,
) -> Result<(), AllocError>
    ensures { OnOk result (string_bytes text.new ≡ string_bytes text.old ++ spec.warning_lines falling.now all.now) }
{
    let mut before = None;
    for warning in all {
        write_after(falling, before, *warning, text)?;
        before = run_of(*warning);
    }
    Ok(())
}

/// Returns whether any of the warnings reports a loss.
pub(crate) fn is_damaged(warnings: &[Warning]) -> bool
    ensures { result ≡ are_damaged warnings.now }
{
    warnings.iter().any(|warning| warning.is_damage())
}
