//! Worked streams. The expected findings were worked out by hand from the rules of the standard.

mod memory;
mod rows;
mod streams;

use super::packets::{Packet, packet_of, stream_of};
use demux::{Demux, DemuxError, whole};
use pid_findings::{Finding, Part, What};
use rows::{Row, are_rows};
use std::alloc::{Allocator, Global};
use streams::{DUPLICATE, FIRST, LONG, PAT, PES, PES_AT_0, SECOND, STREAMS, Stream, bytes_of};

// Pushes a piece.
fn push<A: Allocator + Copy>(demux: &mut Demux<A>, piece: &[u8]) -> Result<(), DemuxError> {
    demux.push(piece)
}

// Ends the stream.
fn finish<A: Allocator + Copy>(demux: &mut Demux<A>) -> bool {
    demux.finish().is_ok()
}

// Takes a packet, unless part of a packet waits for its rest: then `None`.
fn take<'a, A: Allocator + Copy>(
    demux: &mut Demux<A>,
    packet: &'a [u8; 188],
    found: &mut Vec<Finding<'a, A>, A>,
) -> Option<Result<(), DemuxError>> {
    if demux.aligned() {
        Some(demux.take(packet, found))
    } else {
        None
    }
}

// Pushes a stream in pieces of this size, and ends it.
fn push_pieces(demux: &mut Demux, bytes: &[u8], size: usize) -> bool {
    for piece in bytes.chunks(size.max(1)) {
        if push(demux, piece).is_err() {
            return false;
        }
    }
    finish(demux)
}

// Returns whether that is found in pieces of this size.
fn is_found_in(alloc: Global, bytes: &[u8], size: usize, rows: &[Row]) -> bool {
    let mut demux = Demux::new(alloc);
    let is_found = push_pieces(&mut demux, bytes, size) && are_rows(demux.findings(), rows);
    drop(demux);
    is_found
}

fn is_found_whole(alloc: Global, bytes: &[u8], rows: &[Row]) -> bool {
    match whole(alloc, bytes) {
        Ok(found) => are_rows(&found, rows),
        Err(_) => false,
    }
}

// Takes the packets of a stream one by one, and pushes the bytes after the last whole packet.
fn take_each<'a>(demux: &mut Demux, bytes: &'a [u8], found: &mut Vec<Finding<'a>>) -> bool {
    let (packets, rest) = bytes.as_chunks::<188>();
    for packet in packets {
        if take(demux, packet, found) != Some(Ok(())) {
            return false;
        }
    }
    push_pieces(demux, rest, 188)
}

// Returns whether that is found packet by packet: what the end of the stream decides comes last.
fn is_found_by_packet(alloc: Global, bytes: &[u8], rows: &[Row]) -> bool {
    let mut demux = Demux::new(alloc);
    let mut found = Vec::new(alloc);
    let taken = take_each(&mut demux, bytes, &mut found);
    let (first, last) = rows.split_at(found.len().min(rows.len()));
    let is_found = taken && are_rows(&found, first) && are_rows(demux.findings(), last);
    drop(demux);
    is_found
}

static SIZES: [usize; 7] = [1, 7, 50, 187, 188, 189, 664];

fn is_found(alloc: Global, stream: &Stream) -> bool {
    let Some(bytes) = bytes_of(alloc, stream) else {
        return false;
    };
    for size in &SIZES {
        if !is_found_in(alloc, &bytes, *size, stream.2) {
            return false;
        }
    }
    is_found_whole(alloc, &bytes, stream.2) && is_found_by_packet(alloc, &bytes, stream.2)
}

#[test]
fn streams_in_any_pieces(rt: HostRuntime) {
    for stream in &STREAMS {
        assert!(rt; is_found(rt.alloc(), stream));
    }
}

// Returns whether a finding is the PES packet, or the section, a slice of its packet or joined from two.
fn is_part(finding: &Finding<'_>, slice: bool, wanted: &[u8]) -> bool {
    match &finding.what {
        What::Pes {
            body: Part::Span(bytes),
            ..
        } => slice && *bytes == wanted,
        What::Section(Part::Span(bytes)) => slice && *bytes == wanted,
        What::Section(Part::Joined(bytes)) => !slice && bytes.as_slice() == wanted,
        _ => false,
    }
}

const SECTION: [u8; 16] = [
    0x00, 0xB0, 0x0D, 0x00, 0x01, 0xC1, 0x00, 0x00, 0x00, 0x01, 0xF0, 0x00, 0x2A, 0xB1, 0x04, 0xB2,
];

// Packets with one finding each, whether the finding is a slice of its packet, and its bytes.
static PARTS: [(&[Packet], bool, &[u8]); 3] = [
    (&[PES], true, &[0x41, 0x42, 0x43]),
    (&[PAT], true, &SECTION),
    (&[FIRST, SECOND], false, &SECTION),
];

fn is_one_part(alloc: Global, bytes: &[u8], slice: bool, wanted: &[u8]) -> bool {
    let mut demux = Demux::new(alloc);
    let mut found = Vec::new(alloc);
    let taken = take_each(&mut demux, bytes, &mut found);
    drop(demux);
    match found.as_slice() {
        [finding] => taken && is_part(finding, slice, wanted),
        _ => false,
    }
}

fn are_parts(alloc: Global) -> bool {
    for (packets, slice, wanted) in &PARTS {
        match stream_of(alloc, packets) {
            Ok(bytes) if is_one_part(alloc, &bytes, *slice, wanted) => {}
            _ => return false,
        }
    }
    true
}

#[test]
fn slices_of_packets(rt: HostRuntime) {
    assert!(rt; are_parts(rt.alloc()));
}

// Pushes a packet in two parts; whether a part waits only between them.
fn push_parts(demux: &mut Demux, packet: &[u8; 188]) -> bool {
    let first = push(demux, &packet[..100]);
    let between = demux.aligned();
    let second = push(demux, &packet[100..]);
    first.is_ok() && second.is_ok() && !between && demux.aligned()
}

// Takes a packet, and pushes it in two parts: the taken packet's findings go to `found` alone. Refuses packets after
// the end.
fn take_and_push(alloc: Global, demux: &mut Demux, packet: &[u8; 188]) -> bool {
    let mut found = Vec::new(alloc);
    let taken = take(demux, packet, &mut found) == Some(Ok(())) && demux.findings().is_empty();
    let pushed = push_parts(demux, packet) && finish(demux);
    let ended = take(demux, packet, &mut found) == Some(Err(DemuxError::Ended));
    taken && pushed && ended && are_rows(&found, &[PES_AT_0])
}

// Findings that are forgotten are gone.
fn forget(demux: &mut Demux) -> bool {
    let is_found = are_rows(demux.findings(), &[DUPLICATE]);
    demux.forget_findings();
    is_found && demux.findings().is_empty()
}

#[test]
fn packets_taken_and_pushed(rt: HostRuntime) {
    let mut demux = Demux::new(rt.alloc());
    let taken = take_and_push(rt.alloc(), &mut demux, &packet_of(&PES));
    let forgotten = forget(&mut demux);
    drop(demux);
    assert!(rt; taken && forgotten);
}

// Returns how many findings there are once the stream has ended, and more is refused.
fn end(demux: &mut Demux) -> usize {
    if finish(demux) && push(demux, &[0x47]) == Err(DemuxError::Ended) {
        demux.findings().len()
    } else {
        9
    }
}

// A stream may be ended twice; the second end finds nothing.
#[test]
fn an_end(rt: HostRuntime) {
    let mut demux = Demux::new(rt.alloc());
    let pushed = push(&mut demux, &packet_of(&LONG)).is_ok() && demux.findings().is_empty();
    let counts = (end(&mut demux), end(&mut demux));
    drop(demux);
    assert!(rt; pushed && counts == (1, 1) && DemuxError::Ended.code() == 2);
}
