//! What a stream feeds: records on an output, and lines for units that have no moment, lost packets, what else cuts
//! units, new maps and a clock that jumps.

ghost use Rattle.std.specs.Prelude.{◌≡◌, ◌≤◌, ◌++◌, is_some, length};
ghost use Rattle.devices.specs.Devices.{writes};
ghost use Rattle.devices.specs.Lines.{Reports, ReportsAll, WritesLine};
ghost use Rattle.es_feed.specs.FedLines as spec;
ghost use Rattle.es_feed.specs.Records.{Puts};
ghost use Rattle.es_feed.specs.StreamLines as stated;

use crate::pending::PendingBytes;
use crate::records::{flush, put_record};
use crate::stops::StopChange;
use crate::stream_lines::{
    StreamLines, UNORDERED, is_short_fall, report_resumed, report_stopped, report_unordered,
};
use counted_io::Sink;
use devices::{Halt, report_line};
use es_moments::StampFault;
use fed_streams::feed_fault::{OtherStream, SlippedBytes};
use fed_streams::{ClockJump, CutCause, CutUnits, FeedFault, Loss, NewMap, PacketFault, Restart};
use pes_packet::Unit;

// Puts the record of a unit that is fed, where it has a moment.
#[tactic(auto, unfolding(crate::specs::FedLines::fed_record))]
fn put_fed<W: Sink>(
    to: &mut W,
    pending: &mut PendingBytes,
    fed: &(u8, Result<Unit, FeedFault>),
) -> Result<(), Halt>
    ensures { Puts (writes W.Sink to.old to.new) (pending.old.items ++ spec.fed_record fed.now)
        pending.new.items result }
{
    match &fed.1 {
        Ok(unit) => put_record(to, pending, fed.0, unit),
        Err(_) => Ok(()),
    }
}

// Puts the records of all that is fed.
fn put_all_fed<W: Sink>(
    to: &mut W,
    pending: &mut PendingBytes,
    fed: &[(u8, Result<Unit, FeedFault>)],
) -> Result<(), Halt>
    ensures { Puts (writes W.Sink to.old to.new) (pending.old.items ++ spec.fed_records fed.now)
        pending.new.items result }
{
    for one in fed {
        match put_fed(to, pending, one) {
            Ok(()) => {}
            Err(halt) => return Err(halt),
        }
    }
    Ok(())
}

/// Writes the records of all that is fed.
pub(crate) fn write_fed<W: Sink>(
    to: &mut W,
    fed: &[(u8, Result<Unit, FeedFault>)],
) -> Result<(), Halt>
    ensures { WritesLine (spec.fed_records fed.now) (writes W.Sink to.old to.new) result }
{
    let mut pending = PendingBytes::new();
    match put_all_fed(to, &mut pending, fed) {
        Ok(()) => flush(to, &mut pending),
        Err(halt) => Err(halt),
    }
}

// Reports why a unit of a PID has no moment.
#[tactic(auto, unfolding(crate::specs::FedLines::stamp_line))]
fn report_stamp<E: Sink>(faults: &mut E, pid: u16, fault: StampFault)
    ensures { Reports (writes E.Sink faults.old faults.new) (spec.stamp_line pid fault) }
{
    let pid = u128::from(pid);
    match fault {
        StampFault::DtsNotIncreasing(by) => report_line(
            faults,
            "dts-falls",
            &[pid, u128::from(by)],
        ),
        StampFault::PtsOutOfRange { after, .. } => {
            report_line(faults, "pts-range", &[pid, u128::from(after)])
        }
        StampFault::DtsTooFar => report_line(faults, "dts-far", &[pid]),
    }
}

// Reports that packets of a PID are lost.
fn report_loss<E: Sink>(faults: &mut E, pid: u16, loss: Loss)
    ensures { Reports (writes E.Sink faults.old faults.new) (spec.loss_line pid loss) }
{
    let numbers = [
        u128::from(pid),
        u128::from(loss.packet),
        u128::from(loss.expected),
        u128::from(loss.found),
    ];
    report_line(faults, "lost", &numbers);
}

// The name of what cuts units.
#[tactic(auto, unfolding(crate::specs::FedLines::cut_name))]
fn cut_name(cause: CutCause) -> &'static str
    ensures value { result.now ≡ spec.cut_name cause }
    ensures bound { length result.now ≤ 40 }
{
    match cause {
        CutCause::Scrambled => "scrambled",
        CutCause::Truncated => "truncated",
        CutCause::Section => "section",
        CutCause::BadPes => "bad-pes",
        CutCause::NoPts => "no-pts",
    }
}

// Reports what cuts the units of a PID.
fn report_cut<E: Sink>(faults: &mut E, pid: u16, cut: CutUnits)
    ensures { Reports (writes E.Sink faults.old faults.new) (spec.cut_line pid cut) }
{
    let numbers = [u128::from(pid), u128::from(cut.packet)];
    report_line(faults, cut_name(cut.cause), &numbers);
}

// Reports that payload of a PID is in no PES packet.
fn report_stray<E: Sink>(faults: &mut E, pid: u16, packet: u64)
    ensures { Reports (writes E.Sink faults.old faults.new) (spec.stray_line pid packet) }
{
    report_line(faults, "stray", &[u128::from(pid), u128::from(packet)]);
}

// Reports that a program's map is of another version than the one before it.
fn report_map<E: Sink>(faults: &mut E, map: NewMap)
    ensures { Reports (writes E.Sink faults.old faults.new) (spec.map_line map) }
{
    let numbers = [
        u128::from(map.program),
        u128::from(map.packet),
        u128::from(map.before),
        u128::from(map.version),
    ];
    report_line(faults, "map", &numbers);
}

// Reports that a unit of a PID is due so long after the greatest DTS so far.
fn report_ahead<E: Sink>(faults: &mut E, pid: u16, by: u64)
    ensures { Reports (writes E.Sink faults.old faults.new) (spec.ahead_line pid by) }
{
    report_line(faults, "dts-ahead", &[u128::from(pid), u128::from(by)]);
}

// Reports that the clock jumps.
fn report_jump<E: Sink>(faults: &mut E, jump: ClockJump)
    ensures { Reports (writes E.Sink faults.old faults.new) (spec.clock_line jump) }
{
    let numbers = [
        u128::from(jump.pid),
        u128::from(jump.packet),
        u128::from(jump.before),
        u128::from(jump.after),
    ];
    report_line(faults, "clock", &numbers);
}

// Reports that a packet is not read, or that bytes are left at the end.
#[tactic(auto, unfolding(crate::specs::FedLines::packet_line))]
fn report_packet<E: Sink>(faults: &mut E, fault: PacketFault)
    ensures { Reports (writes E.Sink faults.old faults.new) (spec.packet_line fault) }
{
    match fault {
        PacketFault::Bad(packet) => report_line(faults, "bad-packet", &[u128::from(packet)]),
        PacketFault::Errored(packet) => report_line(faults, "errored", &[u128::from(packet)]),
        PacketFault::Rest(size) => report_line(faults, "rest", &[size as u128]),
    }
}

// Reports that the description is of another stream.
fn report_other<E: Sink>(faults: &mut E, other: OtherStream)
    ensures { Reports (writes E.Sink faults.old faults.new) (spec.other_line other) }
{
    let numbers = [
        u128::from(other.program),
        u128::from(other.packet),
        u128::from(other.pid),
        u128::from(other.stream_type),
    ];
    report_line(faults, "other", &numbers);
}

// Reports bytes that are in no packet.
fn report_slip<E: Sink>(faults: &mut E, bytes: SlippedBytes)
    ensures { Reports (writes E.Sink faults.old faults.new) (spec.slip_line bytes) }
{
    report_line(faults, "slip", &[bytes.packet as u128, bytes.size as u128]);
}

// Reports that an encoder restarts.
fn report_restart<E: Sink>(faults: &mut E, restart: Restart)
    ensures { Reports (writes E.Sink faults.old faults.new) (spec.restart_line restart) }
{
    let numbers = [
        u128::from(restart.packet),
        u128::from(restart.stamp),
        u128::from(restart.moment),
    ];
    report_line(faults, "restart", &numbers);
}

// Reports that all streams are silent after a DTS.
fn report_silence<E: Sink>(faults: &mut E, dts: u64)
    ensures { Reports (writes E.Sink faults.old faults.new) (spec.silence_line dts) }
{
    report_line(faults, "silent", &[u128::from(dts)]);
}

// Writes the line of a report on the stream of a PID, a map, the clock, or an encoder.
#[tactic(auto, unfolding(crate::specs::FedLines::fault_line))]
fn report_fault<E: Sink>(faults: &mut E, pid: u16, fault: FeedFault)
    ensures { Reports (writes E.Sink faults.old faults.new) (spec.fault_line pid fault) }
{
    match fault {
        FeedFault::Stamp(fault) => report_stamp(faults, pid, fault),
        FeedFault::Ahead(by) => report_ahead(faults, pid, by),
        FeedFault::Lost(loss) => report_loss(faults, pid, loss),
        FeedFault::Cut(cut) => report_cut(faults, pid, cut),
        FeedFault::Stray(packet) => report_stray(faults, pid, packet),
        FeedFault::Map(map) => report_map(faults, map),
        FeedFault::Clock(jump) => report_jump(faults, jump),
        FeedFault::Other(other) => report_other(faults, other),
        FeedFault::Packet(fault) => report_packet(faults, fault),
        FeedFault::Restarted(restart) => report_restart(faults, restart),
        FeedFault::Silent(dts) => report_silence(faults, dts),
        FeedFault::Slipped(bytes) => report_slip(faults, bytes),
    }
}

// Writes the line of a unit that falls by at most a second, if it has one.
#[tactic(auto, unfolding(crate::specs::StreamLines::fall_lines))]
fn report_fall<E: Sink>(faults: &mut E, fell: u8, pid: u16, fault: FeedFault)
    ensures { ReportsAll (writes E.Sink faults.old faults.new).before (writes E.Sink faults.old faults.new).after
        (stated.fall_lines fell pid fault) }
{
    if fell == UNORDERED {
        return;
    }
    if fell == 0 {
        report_fault(faults, pid, fault);
        return;
    }
    report_unordered(faults, pid);
}

// Writes the line of a report, if it has one.
#[tactic(auto, unfolding(crate::specs::StreamLines::fault_lines))]
fn report_by<E: Sink>(faults: &mut E, fell: u8, pid: u16, fault: FeedFault)
    ensures { ReportsAll (writes E.Sink faults.old faults.new).before (writes E.Sink faults.old faults.new).after
        (stated.fault_lines fell pid fault) }
{
    if is_short_fall(fault) {
        report_fall(faults, fell, pid, fault);
        return;
    }
    report_fault(faults, pid, fault);
}

// Writes the line of what a unit of the stream of a number shows.
#[tactic(auto, unfolding(crate::specs::StreamLines::change_line))]
fn report_shown<E: Sink>(faults: &mut E, lines: &StreamLines<'_>, number: u8, change: StopChange)
    ensures { Reports (writes E.Sink faults.old faults.new) (stated.change_line lines.now.pids number change) }
{
    match change {
        StopChange::Stops(k) => report_stopped(faults, lines.pid_at(k)),
        StopChange::Resumes(long) => report_resumed(faults, lines.pid_at(number as usize), long),
    }
}

// Writes the line of what a unit of the stream of a number shows, and returns whether it shows something.
fn report_change<E: Sink>(
    faults: &mut E,
    lines: &StreamLines<'_>,
    number: u8,
    change: Option<StopChange>,
) -> bool
    ensures reports_all { ReportsAll (writes E.Sink faults.old faults.new).before
        (writes E.Sink faults.old faults.new).after
        (stated.change_lines lines.now.pids number change) }
    ensures found { result ≡ is_some change }
{
    match change {
        None => false,
        Some(shown) => {
            report_shown(faults, lines, number, shown);
            true
        }
    }
}

// Takes a unit of the stream of a number, and writes the line of what it shows. Returns whether there is one.
fn report_unit<E: Sink>(
    faults: &mut E,
    lines: &mut StreamLines<'_>,
    number: u8,
    unit: &Unit,
) -> bool
    ensures reports_all { ReportsAll (writes E.Sink faults.old faults.new).before
        (writes E.Sink faults.old faults.new).after
        (stated.change_lines lines.old.pids number (stated.change_at lines.old number unit.now.dts)) }
    ensures lines { lines.new ≡ stated.after_unit_of lines.old number unit.now.dts }
    ensures found { result ≡ is_some (stated.change_at lines.old number unit.now.dts) }
{
    let change = lines.take_unit(number, unit.dts);
    report_change(faults, lines, number, change)
}

// Takes a report on the stream of a number, and writes its line, if it has one.
fn report_and_take<E: Sink>(
    faults: &mut E,
    lines: &mut StreamLines<'_>,
    number: u8,
    fault: FeedFault,
)
    ensures reports_all { ReportsAll (writes E.Sink faults.old faults.new).before
        (writes E.Sink faults.old faults.new).after
        (stated.fault_lines (stated.fell_at lines.old number) (spec.pid_at lines.old.pids number) fault) }
    ensures lines { lines.new ≡ stated.after_fault lines.old number fault }
{
    report_by(
        faults,
        lines.fell_at(number),
        lines.pid_at(number as usize),
        fault,
    );
    lines.take_fault(number, fault);
}

// Takes a record, and writes its line, if it has one. Returns whether it has one; of units that fall in a stream whose DTS
// do not rise, whether there was one.
#[tactic(auto, unfolding(crate::specs::StreamLines::lines_of, crate::specs::StreamLines::has_line, crate::specs::StreamLines::after_one))]
fn report_one<E: Sink>(
    faults: &mut E,
    lines: &mut StreamLines<'_>,
    fed: &(u8, Result<Unit, FeedFault>),
) -> bool
    ensures reports_all { ReportsAll (writes E.Sink faults.old faults.new).before
        (writes E.Sink faults.old faults.new).after
        (stated.lines_of lines.old fed.now) }
    ensures lines { lines.new ≡ stated.after_one lines.old fed.now }
    ensures found { result ≡ stated.has_line lines.old fed.now }
{
    match &fed.1 {
        Ok(unit) => report_unit(faults, lines, fed.0, unit),
        Err(fault) => {
            report_and_take(faults, lines, fed.0, *fault);
            true
        }
    }
}

/// Reports each unit that has no moment, each loss of packets, whatever else cuts units, each new map and each jump of
/// the clock; of units that fall in a stream whose DTS do not rise, the stream; each stream that stops or has units again.
/// Returns whether there is one.
pub(crate) fn report_faults<E: Sink>(
    faults: &mut E,
    lines: &mut StreamLines<'_>,
    fed: &[(u8, Result<Unit, FeedFault>)],
) -> bool
    ensures reports_all { ReportsAll (writes E.Sink faults.old faults.new).before
        (writes E.Sink faults.old faults.new).after
        (stated.lines_from lines.old fed.now) }
    ensures lines { lines.new ≡ stated.after_lines lines.old fed.now }
    ensures found { result ≡ stated.have_line lines.old fed.now }
{
    let mut found = false;
    for one in fed {
        let reported = report_one(faults, lines, one);
        if reported {
            found = true;
        }
    }
    found
}
