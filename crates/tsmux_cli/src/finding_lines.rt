//! The lines of findings.
//!
//! A line is put into a room on the stack from its end: each part of it before the parts that are already there.
ghost use Rattle.std.specs.Prelude.{◌≡◌, ◌++◌, ◌+◌, ◌≤◌, codes, decimal, drop, OnOk, Option, length, slice_index, map};
ghost use Rattle.pid_findings.specs.Shown.{finding_view, what_view};
ghost use Rattle.tsmux_cli.specs.FindingLines.{dts_of, finding_line, finding_lines, has_fault, is_fault, is_listed};
ghost use Rattle.tsmux_cli.specs.FindingLines.{listed_line};
ghost use Rattle.tsmux_cli.specs.FindingLines.{pes_text, place_text, pts_of, section_text, stamp_text, what_text};

use itoa::write_digits;
use pes_packet::{PesHeader, Stamps};
use pid_findings::{Finding, What};
use std::alloc::AllocError;

/// The room of a line. A line has at most 152 bytes: LF, 45 of its place, and 106 of what was found.
const ROOM: usize = 192;

/// Puts bytes before a place in the room, and returns where they begin.
// Inlined: a word's length is known at each call, and the copy is then a move or two.
#[inline(always)]
fn put(room: &mut [u8; ROOM], end: usize, word: &[u8]) -> usize
    requires { (length word.now ≤ end) × (end ≤ 192) }
    ensures start { result + length word.now ≡ end }
    ensures written { drop result room.new ≡ word.now ++ drop end room.old }
{
    let start = end - word.len();
    room[start..end].copy_from_slice(word);
    start
}

/// Puts a number before a place in the room, and returns where it begins.
fn put_number(room: &mut [u8; ROOM], end: usize, number: u64) -> usize
    requires { (20 ≤ end) × (end ≤ 192) }
    ensures within { (result ≤ end) × (end ≤ result + 20) }
    ensures written { drop result room.new ≡ decimal number ++ drop end room.old }
{
    write_digits(number, room, end)
}

/// Puts `I pid P`, or `I` where the packet has no PID.
fn put_place(room: &mut [u8; ROOM], end: usize, packet: u64, pid: Option<u16>) -> usize
    requires { (45 ≤ end) × (end ≤ 192) }
    ensures within { result ≤ end }
    ensures written { drop result room.new ≡ place_text packet pid ++ drop end room.old }
{
    match pid {
        None => put_number(room, end, packet),
        Some(pid) => {
            let end = put_number(room, end, u64::from(pid));
            let end = put(room, end, b" pid ");
            put_number(room, end, packet)
        }
    }
}

/// Puts a time stamp, or `-`.
fn put_stamp(room: &mut [u8; ROOM], end: usize, stamp: Option<u64>) -> usize
    requires { (20 ≤ end) × (end ≤ 192) }
    ensures within { (result ≤ end) × (end ≤ result + 20) }
    ensures written { drop result room.new ≡ stamp_text stamp ++ drop end room.old }
{
    match stamp {
        None => put(room, end, b"-"),
        Some(stamp) => put_number(room, end, stamp),
    }
}

fn pts_of(stamps: Stamps) -> Option<u64>
    ensures { result ≡ pts_of stamps }
{
    match stamps {
        Stamps::Absent => None,
        Stamps::Pts(pts) => Some(pts),
        Stamps::PtsDts { pts, .. } => Some(pts),
    }
}

fn dts_of(stamps: Stamps) -> Option<u64>
    ensures { result ≡ dts_of stamps }
{
    match stamps {
        Stamps::Absent => None,
        Stamps::Pts(_) => None,
        Stamps::PtsDts { dts, .. } => Some(dts),
    }
}

/// Puts a PES packet: its stream_id, its time stamps and the number of bytes after its header.
fn put_pes(
    room: &mut [u8; ROOM],
    end: usize,
    header: &PesHeader,
    unended: bool,
    size: usize,
) -> usize
    requires { (110 ≤ end) × (end ≤ 192) }
    ensures within { (result ≤ end) × (end ≤ result + 110) }
    ensures written { drop result room.new ≡ pes_text header.now unended size ++ drop end room.old }
{
    let word: &[u8] = if unended { b" open" } else { b"" };
    let end = put(room, end, word);
    let end = put_number(room, end, size as u64);
    let end = put(room, end, b" size ");
    let end = put_stamp(room, end, dts_of(header.stamps));
    let end = put(room, end, b" dts ");
    let end = put_stamp(room, end, pts_of(header.stamps));
    let end = put(room, end, b" pts ");
    let end = put_number(room, end, u64::from(header.id));
    put(room, end, b" pes ")
}

/// Returns the table_id of a section.
fn table_id(section: &[u8]) -> u8
    ensures { result ≡ slice_index section.now 0 }
{
    section.first().copied().unwrap_or(0)
}

/// Puts a name of up to 20 bytes and a number.
fn put_named(room: &mut [u8; ROOM], end: usize, name: &[u8], number: u64) -> usize
    requires name { length name.now ≤ 20 }
    requires room { (110 ≤ end) × (end ≤ 192) }
    ensures within { (result ≤ end) × (end ≤ result + 110) }
    ensures written { drop result room.new ≡ (name.now ++ decimal number) ++ drop end room.old }
{
    let end = put_number(room, end, number);
    put(room, end, name)
}

/// Puts a section.
fn put_section(room: &mut [u8; ROOM], end: usize, section: &[u8]) -> usize
    requires { (110 ≤ end) × (end ≤ 192) }
    ensures within { (result ≤ end) × (end ≤ result + 110) }
    ensures written { drop result room.new
        ≡ section_text (slice_index section.now 0) (length section.now) ++ drop end room.old }
{
    let end = put_number(room, end, section.len() as u64);
    let end = put(room, end, b" size ");
    let end = put_number(room, end, u64::from(table_id(section)));
    put(room, end, b" section ")
}

/// Puts a break of the continuity_counter.
fn put_break(room: &mut [u8; ROOM], end: usize, expected: u8, found: u8) -> usize
    requires { (110 ≤ end) × (end ≤ 192) }
    ensures within { (result ≤ end) × (end ≤ result + 110) }
    ensures written { drop result room.new
        ≡ (codes " counter " ++ decimal expected ++ codes " " ++ decimal found) ++ drop end room.old }
{
    let end = put_number(room, end, u64::from(found));
    let end = put(room, end, b" ");
    let end = put_number(room, end, u64::from(expected));
    put(room, end, b" counter ")
}

/// Puts what was found.
#[tactic(auto, unfolding(crate::specs::FindingLines::what_text))]
fn put_what(room: &mut [u8; ROOM], end: usize, what: &What<'_>) -> usize
    requires { (110 ≤ end) × (end ≤ 192) }
    ensures within { (result ≤ end) × (end ≤ result + 110) }
    ensures written { drop result room.new ≡ what_text (what_view what.now) ++ drop end room.old }
{
    match what {
        What::Duplicate => put(room, end, b" duplicate"),
        What::CounterBreak { expected, found } => put_break(room, end, *expected, *found),
        What::Scrambled => put(room, end, b" scrambled"),
        What::Truncated(part) => put_named(room, end, b" truncated ", part.bytes().len() as u64),
        What::Section(part) => put_section(room, end, part.bytes()),
        What::BadSection(error) => put_named(room, end, b" bad-section ", u64::from(error.code())),
        What::Pes {
            header,
            unended,
            body,
        } => put_pes(room, end, header, *unended, body.bytes().len()),
        What::BadPes(error) => put_named(room, end, b" bad-pes ", u64::from(error.code())),
        What::BadPacket(error) => put_named(room, end, b" bad-packet ", u64::from(error.code())),
        What::Errored => put(room, end, b" errored"),
        What::Stray(_) => end,
    }
}

/// Puts the line of a finding at the end of the room, and returns where it begins.
fn put_finding(room: &mut [u8; ROOM], finding: &Finding<'_>) -> usize
    ensures within { result ≤ 192 }
    ensures written { drop result room.new ≡ finding_line (finding_view finding.now) }
{
    let end = put(room, ROOM, b"\n");
    let end = put_what(room, end, &finding.what);
    put_place(room, end, finding.packet, finding.pid)
}

/// Returns whether a finding has a line: stray payload has none.
#[tactic(auto, unfolding(crate::specs::FindingLines::is_listed))]
fn is_listed(finding: &Finding<'_>) -> bool
    ensures { result ≡ is_listed (finding_view finding.now).what }
{
    match finding.what {
        What::Stray(_) => false,
        _ => true,
    }
}

/// Appends the line of a finding, if it has one.
fn write_finding(
    text: &mut Vec<u8>,
    room: &mut [u8; ROOM],
    finding: &Finding<'_>,
) -> Result<(), AllocError>
    ensures { OnOk result (text.new.items ≡ text.old.items ++ listed_line (finding_view finding.now)) }
{
    if !is_listed(finding) {
        return Ok(());
    }
    let start = put_finding(room, finding);
    text.extend_from_slice(&room[start..])?;
    Ok(())
}

/// Appends the lines of findings.
pub fn write_findings(text: &mut Vec<u8>, found: &[Finding<'_>]) -> Result<(), AllocError>
    ensures { OnOk result
        (text.new.items ≡ text.old.items ++ finding_lines (map finding_view found.now)) }
{
    let mut room = [0; ROOM];
    for finding in found {
        write_finding(text, &mut room, finding)?;
    }
    Ok(())
}

/// Returns whether a finding is a fault.
#[tactic(auto, unfolding(crate::specs::FindingLines::is_fault))]
fn is_fault(finding: &Finding<'_>) -> bool
    ensures { result ≡ is_fault (finding_view finding.now).what }
{
    match finding.what {
        What::Duplicate | What::Scrambled | What::Section(_) | What::Pes { .. } | What::Stray(_) =>
            false,
        What::CounterBreak { .. }
        | What::Truncated(_)
        | What::BadSection(_)
        | What::BadPes(_)
        | What::BadPacket(_)
        | What::Errored => true,
    }
}

/// Returns whether any of the findings is a fault.
pub fn has_fault(found: &[Finding<'_>]) -> bool
    ensures { result ≡ has_fault (map finding_view found.now) }
{
    for finding in found {
        if is_fault(finding) {
            return true;
        }
    }
    false
}
