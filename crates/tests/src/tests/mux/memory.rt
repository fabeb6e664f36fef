//! Heaps of rising sizes: each call that no program makes alone gives its own answer or Memory, and no other.

use super::measuring::is_measured_in;
use super::runs::{are_driven_in, is_begun_in};
use counted_io::Counted;
use linked_list_allocator::LocalHeap;
use mux_core::{UnitFileError, read_unit};
use std::alloc::Global;

enum Call {
    Measure,
    New,
    WithSwitch,
    Drive,
}

/// Returns whether the call gives its answer in a heap of this size; None if it gives another answer.
fn is_answered(alloc: Global, call: &Call, room: usize) -> Option<bool> {
    match call {
        Call::Measure => is_measured_in(alloc, room),
        Call::New => is_begun_in(alloc, None, room),
        Call::WithSwitch => is_begun_in(alloc, Some(1), room),
        Call::Drive => are_driven_in(alloc, room),
    }
}

/// A call, the least room, how much more each heap has, how many heaps there are, and the least and the most heaps that
/// let the call give its answer.
static ROOMS: [(Call, usize, usize, usize, usize, usize); 4] = [
    (Call::Measure, 64, 16, 64, 1, 63),
    (Call::New, 0, 256, 320, 1, 69),
    (Call::WithSwitch, 0, 256, 320, 1, 69),
    (Call::Drive, 256, 256, 63, 1, 62),
];

/// Returns in how many of these heaps the call gives its answer; None if it gives another answer.
fn answers(alloc: Global, call: &Call, least: usize, more: usize, heaps: usize) -> Option<usize> {
    let mut answers = 0usize;
    let mut room = least;
    for _ in 0..heaps {
        if is_answered(alloc, call, room)? {
            answers = answers.saturating_add(1);
        }
        room = room.saturating_add(more);
    }
    Some(answers)
}

#[test]
fn memory_is_refused(rt: HostRuntime) {
    for (call, room, more, heaps, least, most) in &ROOMS {
        let answers = answers(rt.alloc(), call, *room, *more, *heaps).unwrap_or(usize::MAX);
        assert!(rt; *least <= answers && answers <= *most);
    }
}

/// A record whose size is 4,000,001, one more than a unit may have.
static TOO_LARGE: [u8; 21] = [
    0x00, 0x00, 0x3d, 0x09, 0x01, 0x00, 0x00, 0x00, 0x00, 0x00, 0x00, 0x00, 0x00, 0x00, 0x00, 0x00,
    0x00, 0x00, 0x00, 0x00, 0x00,
];

/// Returns whether the size is refused by its name with hardly any memory.
fn names_the_size(alloc: Global) -> bool {
    match LocalHeap::new(alloc, 256) {
        Ok(heap) => matches!(
            read_unit(&heap, &mut Counted::new(TOO_LARGE.as_slice())),
            Err(UnitFileError::Size)
        ),
        Err(_) => false,
    }
}

#[test]
fn a_size_takes_no_memory(rt: HostRuntime) {
    assert!(rt; names_the_size(rt.alloc()));
}
