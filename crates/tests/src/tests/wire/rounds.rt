//! The packets of a round with two sections.

ghost use Rattle.std.specs.Prelude.{◌%◌, ◌<◌, ◌^◌, ◌∷◌, []};

use super::packet_of;
use arrayvec::ArrayVec;
use clock27::Rate;
use table_rounds::{SectionSource, TableCarousel};

/// Sections of one byte, the moment.
#[derive(Drop)]
struct Moments;

impl SectionSource for Moments {
    ghost bytes = { λ s j moment. moment % 256 ∷ [] };

    fn write_section(&self, _section: usize, moment: u64, out: &mut ArrayVec<u8, 4096>) {
        out.clear();
        out.push((moment % 256) as u8);
    }
}

/// The moment of slot 0, slots, and the first bytes of their packets: a round has one moment, by the moment of slot 0
/// when it begins, and the null packet if a section is shorter than its places.
static PACKETS: [(u32, u64, &[u8]); 4] = [
    (7, 1000, b"\x47\x40\x12\x10\x00\x08"),
    (9, 3000, b"\x47\x40\x12\x11\x00\x08"),
    (9, 4000, b"\x47\x1f\xff\x10"),
    (9, 5000, b"\x47\x40\x12\x12\x00\x0e"),
];

fn is_next(turn: &mut TableCarousel, start: u32, slot: u64, front: &[u8]) -> bool {
    slot < 1 << 40 && turn.next(&Moments, start, slot) == packet_of(front)
}

#[test]
fn a_round_has_one_moment(rt: HostRuntime) {
    let Ok(rate) = Rate::new(1_504_000) else {
        return;
    };
    let mut turn = TableCarousel::new(0x12, rate, 7, &[1, 300]);
    for (start, slot, front) in &PACKETS {
        assert!(rt; is_next(&mut turn, *start, *slot, front));
    }
}
