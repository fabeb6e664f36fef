//! Loops made by hand.

use descriptor_loops::{Descriptors, has_ca, has_of_multiplex, has_tag, kept_descriptors};
use std::alloc::Global;

// A language, conditional access, one without bytes, and one whose bytes are not all there.
static LOOP: [u8; 18] = [
    0x0a, 4, 0x65, 0x6e, 0x67, 0, 9, 4, 0, 1, 0xe1, 0, 0x6a, 0, 0x48, 3, 1, 2,
];

// Returns whether the next descriptor has this tag and body.
fn comes(left: &mut Descriptors<'_>, tag: u8, body: &[u8]) -> bool {
    match left.next() {
        Some(found) => {
            found.tag == tag && found.body == body && found.size as usize == body.len()
        }
        None => false,
    }
}

fn are_descriptors() -> bool {
    let mut left = Descriptors::of(&LOOP);
    comes(&mut left, 0x0a, &LOOP[2..6])
        && comes(&mut left, 9, &LOOP[8..12])
        && comes(&mut left, 0x6a, &[])
        && left.next().is_none()
}

static TAGS: [(u8, bool); 5] = [
    (0x0a, true),
    (9, true),
    (0x6a, true),
    (0x48, false),
    (4, false),
];

fn are_tags() -> bool {
    for (tag, wanted) in &TAGS {
        if has_tag(*tag, &LOOP) != *wanted {
            return false;
        }
    }
    has_ca(&LOOP) && !has_ca(&LOOP[..6])
}

static KEPT: [u8; 8] = [0x0a, 4, 0x65, 0x6e, 0x67, 0, 0x6a, 0];

fn are_kept(alloc: Global) -> bool {
    match kept_descriptors(alloc, &LOOP) {
        Ok(kept) => kept.as_slice() == KEPT.as_slice(),
        Err(_) => false,
    }
}

// Of a multiplex: buffer utilization, maximum bit rate, smoothing buffer, an STD_descriptor by vbv_delay, a managed HRD
// of AVC and of HEVC. An STD_descriptor by the leak, one without its byte, an HRD that is not managed, and another
// extension speak of no other multiplex.
static MULTIPLEX: [u8; 47] = [
    12, 3, 0xff, 0, 0x10, 14, 3, 0xc0, 0, 1, 16, 6, 0xc0, 0, 1, 0xc0, 0, 2, 17, 1, 0xfe, 17, 1,
    0xff, 17, 0, 42, 2, 0x80, 0, 42, 2, 0x7f, 0, 63, 2, 3, 0xfe, 63, 2, 3, 0x7e, 63, 2, 5, 0xfe,
    0x6a,
];

static OF_NONE: [u8; 17] = [
    17, 1, 0xff, 17, 0, 42, 2, 0x7f, 0, 63, 2, 3, 0x7e, 63, 2, 5, 0xfe,
];

fn are_of_multiplex(alloc: Global) -> bool {
    let known = has_of_multiplex(&MULTIPLEX) && !has_of_multiplex(&OF_NONE);
    match kept_descriptors(alloc, &MULTIPLEX) {
        Ok(kept) => known && kept.as_slice() == OF_NONE.as_slice(),
        Err(_) => false,
    }
}

#[test]
fn a_loop(rt: HostRuntime) {
    let alloc = rt.alloc();
    assert!(rt; are_descriptors() && are_tags() && are_kept(alloc) && are_of_multiplex(alloc));
}
