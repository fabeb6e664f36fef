//! A curve of values by windows.
ghost use Rattle.std.specs.Prelude.{◌≡◌, ℕ, ◌+◌, ◌*◌, ◌/◌, ◌==◌, ◌<◌, ◌≤◌, ◌^◌, max, length, vec_len, List, [], ◌∷◌};
ghost use Rattle.std.specs.Prelude.{OnOk};
ghost use Rattle.page_curves.specs.Bounds.{joined, value_if};
ghost use Rattle.page_curves.specs.Slots as spec;
ghost use Rattle.page_curves.specs.Curves.{HasSlots, IsCurve, Sample, next_of, sample};

use crate::bounds::{Bounds, joined};
use crate::slots::{MOST_SLOTS, greatest_of, join_neighbours, slot_at};
use std::alloc::{AllocError, Global};
use std::marker::Model;

/// Values of windows: a slot has the bounds of `span` windows in a row, the first slot the bounds of the windows from 0
/// on.
///
/// After an `AllocError` it may have more slots, which have no values.
#[derive(Drop)]
pub struct Curve {
    span: u64,
    slots: Vec<Option<Bounds>>,
    ghost some: { 0 < span },
    ghost few: { vec_len slots ≤ 512 },
}

impl Model for Curve {
    ghost use Rattle.page_curves.specs.Slots.{CurveView};

    ghost Value = { CurveView };

    ghost view = { λ c. record { span = c.span; slots = c.slots.items } };
}

impl Curve {
    /// Returns a curve without values.
    pub fn new(alloc: Global) -> Curve
        ensures { IsCurve result [] }
    {
        Curve {
            span: 1,
            slots: Vec::new(alloc),
        }
    }

    /// Returns how many windows a slot represents.
    pub fn span(&self) -> u64
        ensures same { result ≡ self.now.span }
        ensures some { 0 < result }
    {
        self.span
    }

    /// Returns the slots, [`MOST_SLOTS`] at most.
    pub fn slots(&self) -> &[Option<Bounds>]
        ensures same { result.now ≡ self.now.slots }
        ensures few { length result.now ≤ 512 }
    {
        &self.slots
    }

    /// Returns the greatest value, 0 if there is no value.
    pub fn greatest(&self) -> u64
        ensures { result ≡ spec.greatest_of self.now.slots }
    {
        greatest_of(&self.slots)
    }

    // Joins the slots in pairs: each slot then represents twice as many windows.
    fn halve(&mut self)
        requires { self.old.span < 2 ^ 63 }
        ensures span { self.new.span ≡ 2 * self.old.span }
        ensures slots { (slot : ℕ) → spec.slot_at self.new.slots slot
            ≡ joined (spec.slot_at self.old.slots (2 * slot)) (spec.slot_at self.old.slots (2 * slot + 1)) }
    {
        join_neighbours(&mut self.slots);
        self.span *= 2;
    }

    // Joins slots until the window of this number lies in one of them.
    fn widen(&mut self, number: u64)
        ensures there { number / self.new.span < 512 }
        ensures slots { (samples : List Sample) → IsCurve self.old samples →
            HasSlots self.new samples (max (number + 1) (next_of samples)) }
    {
        while number / self.span >= MOST_SLOTS as u64 {
            self.halve();
        }
    }

    // Adds slots without values until the slot of this number exists.
    fn reach(&mut self, slot: usize) -> Result<(), AllocError>
        requires { slot < 512 }
        ensures there { OnOk result (slot < length self.new.slots) }
        ensures same { (i : ℕ) → spec.slot_at self.new.slots i ≡ spec.slot_at self.old.slots i }
        ensures span { self.new.span ≡ self.old.span }
    {
        while self.slots.len() <= slot {
            self.slots.push(None)?;
        }
        Ok(())
    }

    // Adds a value to a slot.
    fn put(&mut self, slot: usize, value: u64)
        requires { slot < length self.old.slots }
        ensures slots { (i : ℕ) → spec.slot_at self.new.slots i
            ≡ joined (value_if (slot == i) value) (spec.slot_at self.old.slots i) }
        ensures span { self.new.span ≡ self.old.span }
    {
        let bounds = joined(Some(Bounds::of(value)), slot_at(&self.slots, slot));
        self.slots[slot] = bounds;
    }

    /// Adds the value of a window.
    pub fn take(&mut self, number: u64, value: u64) -> Result<(), AllocError>
        ensures { (samples : List Sample) → IsCurve self.old samples →
            OnOk result (IsCurve self.new (sample number value ∷ samples)) }
    {
        self.widen(number);
        let slot = (number / self.span) as usize;
        self.reach(slot)?;
        self.put(slot, value);
        Ok(())
    }
}
