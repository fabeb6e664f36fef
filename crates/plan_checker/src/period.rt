//! The slots of a period, walked to the own slots of an item by links.

ghost use Rattle.std.specs.Prelude.{◌≡◌, ◌<◌, length, suc, slice_index_or, option_map};
ghost use Rattle.own_slots.specs.Period.{own};
ghost use Rattle.slot_plan.specs.Items.{marks};
ghost use Rattle.slot_plan.specs.Links.{AreLinks, IsAbsent, key_at};
ghost use Rattle.slot_plan.specs.declared.slot.Slot.TheVariants.{Null};
ghost use Rattle.plan_checker.specs.OwnWalks.{has_kind};

use slot_plan::{Item, Plan, Slot};
use std::alloc::Allocator;
use std::marker::Model;

/// The slots of a period, with their links if there are any.
#[derive(Drop)]
pub struct Period<'a> {
    slots: &'a [Slot],
    links: Option<&'a [u32]>,
}

// A contract sees the slots.
impl<'a> Model for Period<'a> {
    ghost use Rattle.std.specs.Prelude.{List, option_map};
    ghost use Rattle.slot_plan.specs.declared.slot.Slot.{Slot};
    ghost use Rattle.slot_plan.specs.Links.{AreLinks};

    ghost Value = { List Slot };

    ghost view = { λ p. p.slots.now };

    ghost invariant = { λ p. AreLinks p.slots.now (option_map (λ links. links.now) p.links) };
}

/// Returns whether a slot's content is of the kind of the item's own slots.
fn has_kind(item: Item, slot: Slot) -> bool
    ensures { result ≡ has_kind item slot }
{
    match (item, slot) {
        (Item::Stream(own), Slot::Stream(number)) => own == number,
        (Item::Pcr(own), Slot::Pcr(number)) => own == number,
        (Item::Table(_) | Item::System(_), Slot::Table(_)) => true,
        _ => false,
    }
}

/// Returns whether the content of slot number `at` is of the kind of the item's own slots.
fn has_kind_at(slots: &[Slot], item: Item, at: usize) -> bool
    requires { at < length slots.now }
    ensures { result ≡ has_kind item (slice_index_or slots.now at Null) }
{
    has_kind(item, slots[at])
}

/// Returns whether slot number `at` is the item's own.
fn owns_at(slots: &[Slot], item: Item, at: usize) -> bool
    requires { at < length slots.now }
    ensures { result ≡ own (marks item slots.now) at }
{
    item.owns(slots[at])
}

/// Returns where the link of a slot leads; if there are no links, the slot after it.
fn link_of(slots: &[Slot], links: Option<&[u32]>, at: usize) -> usize
    requires linked { AreLinks slots.now (option_map (λ links. links.now) links) }
    requires within { at < length slots.now }
    ensures { IsAbsent slots.now (key_at slots.now at) (suc at) result }
{
    let Some(links) = links else {
        return at + 1;
    };
    match links.get(slots.len() - 1 - at) {
        None => at + 1,
        Some(next) => *next as usize,
    }
}

impl<'a> Period<'a> {
    ghost use Rattle.std.specs.Prelude.{◌≡◌, ◌+◌, ◌*◌, ◌<◌, ◌≤◌, length, option_map};
    ghost use Rattle.own_slots.specs.Period.{own};
    ghost use Rattle.slot_plan.specs.Items.{marks};
    ghost use Rattle.slot_plan.specs.Links.{AreLinks};
    ghost use Rattle.plan_checker.specs.OwnWalks.{IsForeign};

    /// Returns slots without links.
    pub fn plain(slots: &'a [Slot]) -> Period<'a>
        ensures { result ≡ slots.now }
    {
        Period { slots, links: None }
    }

    /// Returns slots with their links, if there are any.
    pub fn linked<A: Allocator>(slots: &'a [Slot], links: &'a Option<Vec<u32, A>>) -> Period<'a>
        requires { AreLinks slots.now (option_map (λ links. links.items) links.now) }
        ensures { result ≡ slots.now }
    {
        match links {
            None => Period { slots, links: None },
            Some(links) => Period {
                slots,
                links: Some(links.as_slice()),
            },
        }
    }

    /// Returns the slots of a plan.
    pub fn of<A: Allocator>(plan: &'a Plan<A>) -> Period<'a>
        ensures { result ≡ plan.now.slots }
    {
        Period {
            slots: plan.slots(),
            links: plan.links(),
        }
    }

    /// Returns the number of slots.
    pub fn len(&self) -> usize
        ensures { result ≡ length self.now }
    {
        self.slots.len()
    }

    /// Returns the number of slots of several periods.
    pub fn slots_in(&self, periods: u64) -> u64
        requires short { length self.now ≤ 65536 }
        requires near { periods < 32768 }
        ensures { result ≡ periods * length self.now }
    {
        periods * self.slots.len() as u64
    }

    /// Returns whether slot number `at` is the item's own.
    pub fn owns(&self, item: Item, at: usize) -> bool
        requires { at < length self.now }
        ensures { result ≡ own (marks item self.now) at }
    {
        owns_at(self.slots, item, at)
    }

    /// Returns a slot after slot number `at`, or the period's end: no slot between is the item's own.
    pub fn next(&self, item: Item, at: usize) -> usize
        requires { at < length self.now }
        ensures { IsForeign item self.now (at + 1) result }
    {
        if has_kind_at(self.slots, item, at) {
            link_of(self.slots, self.links, at)
        } else {
            at + 1
        }
    }
}
