//! Findings on the PIDs that carry them, where the codings of PIDs change.

ghost use Rattle.std.specs.Prelude.{◌≡◌, ◌<◌, [], IfOk, OnOk, find, map, option_map};
ghost use Rattle.psi_tables.specs.ProgramMap.{pmt_view, stream_loop_of, stream_view, streams_of};
ghost use Rattle.pid_findings.specs.Shown.{finding_view};
ghost use Rattle.joined_parts.specs.Recodings as spec;

use crate::map_streams::add_stream;
use crate::recodings::Recoding;
use crate::whole_maps::{put_section, section_with};
use pid_findings::Finding;
use program_tables::any_map;
use psi_tables::{Pmt, Stream, StreamLoop, Streams};
use stamp_repair::begin_of;
use std::alloc::{AllocError, Global};

// Whether a change of the coding of a PID comes after a packet.
fn is_before(pid: u16, packet: u64, recoding: &Recoding) -> bool
    ensures { result ≡ spec.is_before pid packet recoding.now }
{
    recoding.pid == pid && packet < recoding.packet
}

// The first change of the coding of a PID after a packet.
fn next_recoding(recodings: &[Recoding], packet: u64, pid: u16) -> Option<&Recoding>
    ensures { option_map (λ r. r.now) result ≡ find (spec.is_before pid packet) recodings.now }
{
    recodings
        .iter()
        .find(|recoding| is_before(pid, packet, recoding))
}

// The PID that carries what begins in a packet on a PID.
#[tactic(auto, unfolding(crate::specs::Recodings::pid_with))]
fn carried_pid(recodings: &[Recoding], packet: u64, pid: u16) -> u16
    ensures { result ≡ spec.carried_pid recodings.now packet pid }
{
    match next_recoding(recodings, packet, pid) {
        None => pid,
        Some(recoding) => recoding.to,
    }
}

// Returns the PID that carries what begins in a packet on a PID, if there is one.
#[tactic(auto, unfolding(crate::specs::Recodings::carried_pid_if))]
fn carried_pid_if(recodings: &[Recoding], packet: u64, pid: Option<u16>) -> Option<u16>
    ensures { result ≡ spec.carried_pid_if recodings.now packet pid }
{
    match pid {
        None => None,
        Some(pid) => Some(carried_pid(recodings, packet, pid)),
    }
}

// A stream that a map in a packet names, on the PID that carries it.
fn carried_stream<'a>(recodings: &[Recoding], packet: u64, stream: Stream<'a>) -> Stream<'a>
    ensures { stream_view result ≡ spec.carried_stream recodings.now packet (stream_view stream.entry) }
{
    Stream {
        stream_type: stream.stream_type,
        elementary_pid: carried_pid(recodings, packet, stream.elementary_pid),
        descriptors: stream.descriptors,
    }
}

// Adds streams that a map in a packet names.
#[tactic(auto, unfolding(crate::specs::Recodings::with_carried))]
fn add_carried(recodings: &[Recoding], packet: u64, streams: &mut StreamLoop, more: Streams<'_>)
    ensures { stream_loop_of streams.new
        ≡ spec.with_carried recodings.now packet (stream_loop_of streams.old) (streams_of more.entry) }
{
    for stream in more {
        add_stream(streams, carried_stream(recodings, packet, stream));
    }
}

// Returns whether another PID carries a stream of a map in a packet.
#[tactic(auto, unfolding(crate::specs::Recodings::any_moved))]
fn any_moved(recodings: &[Recoding], packet: u64, streams: Streams<'_>) -> bool
    ensures { result ≡ spec.any_moved recodings.now packet (streams_of streams.entry) }
{
    for stream in streams {
        if carried_pid(recodings, packet, stream.elementary_pid) != stream.elementary_pid {
            return true;
        }
    }
    false
}

// The section of a map in a packet with the PIDs that carry its streams.
fn carried_map(
    alloc: Global,
    recodings: &[Recoding],
    packet: u64,
    pmt: &Pmt<'_>,
) -> Result<Option<Vec<u8>>, AllocError>
    ensures { IfOk result (λ bytes. option_map (λ b. b.items) bytes
        ≡ spec.carried_bytes recodings.now packet (pmt_view pmt.now)) }
{
    let mut all = StreamLoop::new();
    add_carried(recodings, packet, &mut all, pmt.streams);
    section_with(
        alloc,
        pmt.header,
        pmt.pcr_pid,
        pmt.program_info,
        all.streams(),
    )
}

// Returns the section of a map, if there is one and another PID carries a stream of it.
#[tactic(auto, unfolding(crate::specs::Recodings::carried_section))]
fn carried_section(
    alloc: Global,
    recodings: &[Recoding],
    packet: u64,
    pmt: Option<Pmt<'_>>,
) -> Result<Option<Vec<u8>>, AllocError>
    ensures { IfOk result (λ bytes. option_map (λ b. b.items) bytes
        ≡ spec.carried_section recodings.now packet (option_map pmt_view pmt.entry)) }
{
    let Some(pmt) = pmt else {
        return Ok(None);
    };
    if !any_moved(recodings, packet, pmt.streams) {
        return Ok(None);
    }
    carried_map(alloc, recodings, packet, &pmt)
}

// Puts a finding on the PID that carries it.
fn carry_finding(
    alloc: Global,
    recodings: &[Recoding],
    finding: &mut Finding<'_>,
) -> Result<(), AllocError>
    ensures { OnOk result (finding_view finding.new ≡ spec.carried recodings.now (finding_view finding.old)) }
{
    let pid = carried_pid_if(
        recodings,
        begin_of(finding.begun, finding.packet),
        finding.pid,
    );
    let section = carried_section(alloc, recodings, finding.packet, any_map(finding))?;
    put_section(finding, section);
    finding.pid = pid;
    Ok(())
}

/// Puts each finding of a recording on the PID that carries it: if the coding of a PID changes, what the PID carries
/// before is on another PID, which the maps before name.
pub(crate) fn carry_findings(
    alloc: Global,
    recodings: &[Recoding],
    findings: &mut [Finding<'_>],
) -> Result<(), AllocError>
    ensures { OnOk result (map finding_view findings.new
        ≡ map (spec.carried recodings.now) (map finding_view findings.old)) }
{
    for finding in findings.iter_mut() {
        carry_finding(alloc, recodings, finding)?;
    }
    Ok(())
}
