//! Refused memory.

use super::rows::{Row, are_rows};
use super::streams::{AGAIN, LONG, MORE, STREAMS, bytes_of};
use super::{finish, packet_of, push, take};
use demux::{Demux, DemuxError};
use linked_list_allocator::LocalHeap;
use pid_findings::{Finding, Kind};
use std::alloc::Global;

// Returns the rest of a piece after a refused push.
fn left_of(piece: &[u8], first: Result<(), DemuxError>) -> &[u8] {
    match first {
        Ok(()) => &[],
        Err(DemuxError::Memory { taken }) => piece.get(taken..).unwrap_or(&[]),
        Err(DemuxError::Ended) => piece,
    }
}

// Pushes a stream while a block of the heap is taken, then the rest of the stream once the block is given back. Returns
// whether memory was refused.
fn push_again(
    heap: &LocalHeap,
    demux: &mut Demux<&LocalHeap>,
    stream: &[u8],
    left: usize,
) -> Option<bool> {
    let size = 65_472usize.saturating_sub(left.saturating_mul(512));
    let block: Vec<u8, &LocalHeap> = Vec::with_capacity(heap, size).ok()?;
    let first = push(demux, stream);
    drop(block);
    if push(demux, left_of(stream, first)).is_ok() {
        Some(first.is_err())
    } else {
        None
    }
}

// Pushes a stream as `push_again` does; `None` if its findings are not there in the end.
fn pushed_again(heap: &LocalHeap, stream: &[u8], left: usize) -> Option<bool> {
    let mut demux = Demux::new(heap);
    let refused = push_again(heap, &mut demux, stream, left);
    let is_found = finish(&mut demux) && are_rows(demux.findings(), STREAMS[0].2);
    drop(demux);
    if is_found { refused } else { None }
}

// Counts the heaps in which memory is refused.
fn refused_pieces(alloc: Global, stream: &[u8]) -> Option<u32> {
    let mut refused = 0u32;
    for left in 0..48usize {
        let heap = LocalHeap::new(alloc, 65_536).ok()?;
        refused = refused.saturating_add(u32::from(pushed_again(&heap, stream, left)?));
    }
    Some(refused)
}

// Returns whether no finding is lost.
fn is_nothing_lost(alloc: Global) -> bool {
    let Some(stream) = bytes_of(alloc, &STREAMS[0]) else {
        return false;
    };
    let refused = refused_pieces(alloc, &stream).unwrap_or(0);
    0 < refused && refused < 48
}

// Takes the greatest block that a heap has, less `left` times 64 bytes.
fn fill<'h>(heap: &'h LocalHeap, left: usize) -> Option<Vec<u8, &'h LocalHeap>> {
    let mut blocks = 0;
    for n in 0..1_024usize {
        let block: Result<Vec<u8, &LocalHeap>, _> = Vec::with_capacity(heap, 64 * n);
        if block.is_ok() {
            blocks = n;
        }
    }
    Vec::with_capacity(heap, 64 * blocks.saturating_sub(left).min(1_023)).ok()
}

// Takes a packet without enough memory, and again with enough. Returns whether it was refused; `None` if it is refused
// otherwise, or again.
fn take_again<'a, 'h>(
    heap: &'h LocalHeap,
    left: usize,
    demux: &mut Demux<&'h LocalHeap>,
    packet: &'a [u8; 188],
    found: &mut Vec<Finding<'a, &'h LocalHeap>, &'h LocalHeap>,
) -> Option<bool> {
    let block = fill(heap, left)?;
    let first = take(demux, packet, found);
    drop(block);
    match first {
        Some(Ok(())) => Some(false),
        Some(Err(DemuxError::Memory { taken: 0 })) if take(demux, packet, found) == Some(Ok(())) =>
            Some(true),
        _ => None,
    }
}

// Takes each packet, twice if memory is refused. Returns whether it was refused; `None` if the finding is missing.
fn take_all<'h>(
    heap: &'h LocalHeap,
    left: usize,
    demux: &mut Demux<&'h LocalHeap>,
    packets: &[[u8; 188]],
) -> Option<bool> {
    let mut found = Vec::with_capacity(heap, 4).ok()?;
    let mut refused = false;
    for packet in packets {
        refused = take_again(heap, left, demux, packet, &mut found)? || refused;
    }
    if are_rows(&found, &[TAKEN]) {
        Some(refused)
    } else {
        None
    }
}

// Ends the stream, twice if memory is refused. Returns whether it was refused; `None` if the finding is missing.
fn finish_again(heap: &LocalHeap, left: usize, demux: &mut Demux<&LocalHeap>) -> Option<bool> {
    let block = fill(heap, left)?;
    let first = finish(demux);
    drop(block);
    if finish(demux) && are_rows(demux.findings(), &[ENDED]) {
        Some(!first)
    } else {
        None
    }
}

const TAKEN: Row = (
    2,
    Some(257),
    ("pes", [224, 0, 359]),
    Some((
        0,
        Kind::Pes {
            stamped: false,
            access: false,
        },
    )),
);

const ENDED: Row = (
    3,
    Some(257),
    ("pes", [224, 1, 175]),
    Some((
        2,
        Kind::Pes {
            stamped: false,
            access: false,
        },
    )),
);

// Returns how many of three packets and their end are refused; `None` if the findings are not there in the end.
fn refused_at(heap: &LocalHeap, left: usize, packets: &[[u8; 188]]) -> Option<u32> {
    let mut demux = Demux::new(heap);
    let taken = take_all(heap, left, &mut demux, packets);
    let ended = finish_again(heap, left, &mut demux);
    drop(demux);
    match (taken, ended) {
        (Some(packet), Some(end)) => Some(u32::from(packet) + u32::from(end)),
        _ => None,
    }
}

fn refused_packets(alloc: Global) -> Option<u32> {
    let packets = [packet_of(&LONG), packet_of(&MORE), packet_of(&AGAIN)];
    let mut refused = 0u32;
    for left in 0..48usize {
        let heap = LocalHeap::new(alloc, 65_536).ok()?;
        refused = refused.saturating_add(refused_at(&heap, left, &packets)?);
    }
    Some(refused)
}

// Tests the same packet by packet, with an end of the stream: a refusal changes nothing, and the call succeeds once
// there is memory.
#[test]
fn refused_memory(rt: HostRuntime) {
    assert!(rt; is_nothing_lost(rt.alloc()) && 0 < refused_packets(rt.alloc()).unwrap_or(0));
}
