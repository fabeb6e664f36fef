//! Elements in the sections of a table, by their lengths: each section has as many of the next elements as its room holds.

ghost use Rattle.std.specs.Prelude.{◌≡◌, ◌≤◌, ◌+◌, ◌==◌, ◌&&◌, ◌||◌, nat_le, [], length, IfSome};
ghost use Rattle.description_parts.specs.Cuts.{cut, places, taken};

// Returns whether a section with some bytes before its elements takes one more element: it is empty, or it has room.
fn takes_next(room: usize, used: usize, elements: usize, bytes: usize) -> bool
    ensures { result ≡ ((used == 0 && elements == 0) || nat_le bytes room) }
{
    used == 0 && elements == 0 || bytes <= room
}

// Returns how many elements the first section takes.
fn first_taken(lengths: &[u16], room: usize, used: usize) -> usize
    requires few { length lengths.now ≤ 65 }
    requires bound { used ≤ 65535 }
    ensures value { result ≡ taken (λ n. n) room used [] lengths.now }
    ensures bound { result ≤ length lengths.now }
{
    let mut bytes = used;
    for place in 0..lengths.len() {
        let length = lengths[place] as usize;
        if !takes_next(room, used, place, bytes + length) {
            return place;
        }
        bytes += length;
    }
    lengths.len()
}

/// Returns the places of the elements of a section: its first one, and the place after its last one. The first section has a
/// number of bytes before its elements.
pub(crate) fn places_at(
    lengths: &[u16],
    room: usize,
    used: usize,
    part: usize,
) -> Option<(usize, usize)>
    requires few { length lengths.now ≤ 65 }
    requires bound { used ≤ 65535 }
    ensures value { result ≡ places 0 (cut (λ n. n) room used [] lengths.now) part }
    ensures order { IfSome result (λ r. (r.0 ≤ r.1) × (r.1 ≤ length lengths.now)) }
{
    let mut begin = 0;
    let mut before = used;
    for _ in 0..part {
        let count = first_taken(&lengths[begin..], room, before);
        if begin + count == lengths.len() {
            return None;
        }
        begin += count;
        before = 0;
    }
    Some((begin, begin + first_taken(&lengths[begin..], room, before)))
}
