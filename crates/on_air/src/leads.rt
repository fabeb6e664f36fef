//! The greatest lead of a description's streams, and the room for the units that wait.

ghost use Rattle.std.specs.Prelude.{◌≡◌, IsTrue};
ghost use Rattle.mux_core.specs.Rooms.{is_room};
ghost use Rattle.on_air.specs.Airing.{greatest_lead, room_by};

use mux_core::Room;
use slot_plan::StreamDescription;

// The maximum number of units of a stream that may wait.
const MAX_ROOM: u64 = 1_048_576;

/// Returns the greatest lead of all streams, in units of 90 kHz.
pub(crate) fn greatest_lead(streams: &[StreamDescription]) -> u32
    ensures { result ≡ greatest_lead streams.now }
{
    streams.iter().fold(0, |lead, stream| lead.max(stream.lead))
}

/// Returns the room that the terms of a run ask for, from 1 to 1,048,576 units of each stream; otherwise room for the
/// units of each stream that may be due within a lead.
#[tactic(auto, unfolding(crate::specs::Airing::room_by))]
pub(crate) fn room_by(asked: Option<u64>, lead: u64) -> Room
    ensures value { result ≡ room_by asked lead }
    ensures valid { IsTrue (is_room result) }
{
    match asked {
        Some(units) => Room::Units(units.max(1).min(MAX_ROOM) as usize),
        None => Room::Due(lead),
    }
}
