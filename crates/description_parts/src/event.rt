//! An event of a service.

ghost use Rattle.std.specs.Prelude.{◌≡◌, ◌<◌, ◌≤◌, length};

use std::marker::Model;

/// An event of a service (EN 300 468, 5.2.4). Times are seconds, the start since 1 January 1970 UTC; a duration is below 100
/// hours, since it is written in six digits.
#[derive(Drop)]
pub struct EventDescription {
    pub(crate) id: u16,
    pub(crate) start: u64,
    pub(crate) duration: u32,
    pub(crate) descriptors: Vec<u8>,
}

impl Model for EventDescription {
    ghost use Rattle.std.specs.Prelude.{◌<◌, ◌≤◌, length};
    ghost use Rattle.description_parts.specs.Described.{DescribedEvent};

    ghost Value = { DescribedEvent };

    ghost view = { λ e. record {
      id = e.id;
      start = e.start;
      duration = e.duration;
      descriptors = e.descriptors.items;
    } };

    ghost invariant = { λ e. (e.duration < 360000) × (length e.descriptors.items ≤ 4000) };
}

impl EventDescription {
    /// Returns event_id.
    pub fn id(&self) -> u16
        ensures { result ≡ self.now.id }
    {
        self.id
    }

    /// Returns when it begins.
    pub fn start(&self) -> u64
        ensures { result ≡ self.now.start }
    {
        self.start
    }

    /// Returns how long it lasts.
    pub fn duration(&self) -> u32
        ensures value { result ≡ self.now.duration }
        ensures six_digits { result < 360000 }
    {
        self.duration
    }

    /// Returns the loop of its descriptors.
    pub fn descriptors(&self) -> &[u8]
        ensures value { result.now ≡ self.now.descriptors }
        ensures fits { length self.now.descriptors ≤ 4000 }
    {
        self.descriptors.as_slice()
    }
}
