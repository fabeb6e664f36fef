//! Links of a period: from each slot the way to the next slot with content of the same kind.

ghost use Rattle.std.specs.Prelude.{◌≡◌, ◌<◌, option_map};
ghost use Rattle.slot_plan.specs.Links.{AreLinks, slot_key};

use crate::slot::{MAX_SLOTS, Slot};
use std::alloc::Allocator;

/// The kinds of content that a slot may have: 256 streams, 256 PCRs, tables and nothing.
const KINDS: usize = 514;

/// Returns the number of the kind of a slot's content.
fn slot_key(slot: Slot) -> usize
    ensures key { result ≡ slot_key slot }
    ensures bound { result < 514 }
{
    match slot {
        Slot::Stream(number) => 2 * number as usize + 2,
        Slot::Pcr(number) => 2 * number as usize + 3,
        Slot::Table(_) => 1,
        Slot::Null => 0,
    }
}

/// Returns the links of a period, from its last slot to its first: none of more slots than a plan has, or
/// if memory runs out.
pub fn links_of<A: Allocator>(alloc: A, slots: &[Slot]) -> Option<Vec<u32, A>>
    ensures { AreLinks slots.now (option_map (λ links. links.items) result) }
{
    if slots.len() > MAX_SLOTS as usize {
        return None;
    }
    let mut links = Vec::new(alloc);
    let mut first = [slots.len() as u32; KINDS];
    for back in 0..slots.len() {
        let at = slots.len() - 1 - back;
        let key = slot_key(slots[at]);
        if links.push(first[key]).is_err() {
            return None;
        }
        first[key] = at as u32;
    }
    Some(links)
}
