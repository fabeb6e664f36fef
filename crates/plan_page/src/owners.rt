//! What a slot of a plan is for.
ghost use Rattle.std.specs.Prelude.{◌≡◌, ◌≤◌, length};
ghost use Rattle.plan_page.specs.Owners as spec;

use plan_checker::{Period, greatest_gap, own_count};
use slot_plan::{Item, Slot};

/// What a slot is for: an item, or null packets.
#[derive(Clone, Copy)]
pub enum Owner {
    Item(Item),
    Null,
}

impl Owner {
    /// Returns whether it owns a slot.
    #[tactic(auto, unfolding(crate::specs::Owners::owns))]
    pub(crate) fn owns(self, slot: Slot) -> bool
        ensures { result ≡ spec.owns self slot }
    {
        match (self, slot) {
            (Owner::Item(item), _) => item.owns(slot),
            (Owner::Null, Slot::Null) => true,
            (Owner::Null, _) => false,
        }
    }

    /// Returns how many slots it owns.
    pub(crate) fn count_in(self, slots: &[Slot]) -> u64
        ensures count { result ≡ spec.count_in self slots.now }
        ensures bound { result ≤ length slots.now }
    {
        slots.iter().filter(|slot| self.owns(**slot)).count() as u64
    }
}

// The greatest gap of an item that has a slot.
fn item_gap(item: Item, slots: &[Slot], row: u64) -> Option<u64>
    requires short { length slots.now ≤ 65536 }
    requires near { row ≤ 65535 }
    ensures { result ≡ spec.item_gap item slots.now row }
{
    let slots = Period::plain(slots);
    if own_count(&slots, item) > 0 {
        Some(greatest_gap(&slots, item, row))
    } else {
        None
    }
}

/// Returns the most slots from a slot of the owner to its `row`-th slot after that, the period repeated; none for null
/// packets, nor for an item without a slot.
#[tactic(auto, unfolding(crate::specs::Owners::gap_in))]
pub(crate) fn gap_in(owner: Owner, slots: &[Slot], row: u64) -> Option<u64>
    requires short { length slots.now ≤ 65536 }
    requires near { row ≤ 65535 }
    ensures { result ≡ spec.gap_in owner slots.now row }
{
    match owner {
        Owner::Item(item) => item_gap(item, slots, row),
        Owner::Null => None,
    }
}
