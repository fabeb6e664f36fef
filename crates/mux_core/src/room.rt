//! How many units of each stream may wait.

ghost use Rattle.std.specs.Prelude.{◌≡◌};
ghost use Rattle.mux_core.specs.Rooms.{is_room, needed_units, room_in};

use clock27::SLOT_UNITS_AT_1BPS;
use slot_plan::StreamDescription;
use unit_timing::allowance::Allowance;

/// The maximum number of units of a stream that may wait.
pub(crate) const MAX_CAPACITY: usize = 1_048_576;

/// How many units of each stream may wait, because they are not sent whole.
#[derive(Clone, Copy)]
pub enum Room {
    /// So many units of each stream, 1 to 1,048,576.
    Units(usize),
    /// The units of each stream that may be due within this time, in units of 90 kHz, and the next one: as many as its
    /// interval and its pace let there be, at most 1,048,576.
    Due(u64),
}

impl Room {
    /// Returns whether the number of units is from 1 to 1,048,576.
    pub(crate) fn is_room(self) -> bool
        ensures { result ≡ is_room self }
    {
        match self {
            Room::Units(units) => 1 <= units && units <= MAX_CAPACITY,
            Room::Due(_) => true,
        }
    }

    /// Returns how many units of a stream may wait.
    pub(crate) fn units_of(self, stream: &StreamDescription) -> usize
        ensures { result ≡ room_in self stream.now }
    {
        match self {
            Room::Units(units) => units,
            Room::Due(time) => needed_units(time, stream).min(MAX_CAPACITY as u128) as usize,
        }
    }
}

// Returns how many units of a stream may be due within a time, and the next one.
fn needed_units(time: u64, stream: &StreamDescription) -> u128
    ensures { result ≡ needed_units time stream.now }
{
    let spaced = u128::from(time.div_ceil(u64::from(stream.interval.max(1)))) + 1;
    match stream.allowance {
        Allowance::Groups { .. } => spaced,
        Allowance::Pace { burst, pace } => {
            let carried = u128::from(pace) * u128::from(time) / SLOT_UNITS_AT_1BPS;
            spaced.min(u128::from(burst) + carried + 1)
        }
    }
}
