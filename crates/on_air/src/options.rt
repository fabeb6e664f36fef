//! The terms of a run.

ghost use Rattle.std.specs.Prelude.{◌≡◌, ◌≤◌, ◌^◌};
ghost use Rattle.on_air.specs.Airing.{limit_of};

/// The maximum number of slots of a run.
pub(crate) const MAX_SLOTS: u64 = 1 << 40;

/// The terms of a run.
#[derive(Clone, Copy)]
pub struct Terms {
    /// How much later than a unit with a greater DTS a unit may arrive, in units of 90 kHz. Slots are written this
    /// much later.
    pub wait: u32,
    /// How far after the greatest DTS so far the next DTS may be, in units of 90 kHz.
    pub ahead: u64,
    /// The number of slots to write; without it, as many as the units need. At most 2^40 are written.
    pub slots: Option<u64>,
    /// The number of units of each stream that may wait, from 1 to 1,048,576; without it, as many as the streams need.
    pub room: Option<u64>,
}

impl Terms {
    /// Returns the limit of slots: no slot is written after this number.
    #[tactic(auto, unfolding(crate::specs::Airing::slots_or))]
    pub(crate) fn limit(self) -> u64
        ensures value { result ≡ limit_of self }
        ensures upper { result ≤ 2 ^ 40 }
    {
        match self.slots {
            Some(slots) => slots.min(MAX_SLOTS),
            None => MAX_SLOTS,
        }
    }
}
