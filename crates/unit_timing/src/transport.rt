//! The transport buffer.
ghost use Rattle.unit_timing.specs.Transport.{LeftLaw, NoneLeavesEarlyLaw, RoomLaw};

/// States that, if the work of each own slot finds room for its packet, the transport buffer never
/// holds more bytes than its room, whichever own slots are used.
pub fn room()
    ensures { RoomLaw }
{}

/// States that the payload bytes of packets before a slot have left by that slot's begin and the peak of work.
pub fn left()
    ensures { LeftLaw }
{}

/// States that no byte leaves it before its packet's slot begins, wherever the buffer begins empty.
pub fn departures()
    ensures { NoneLeavesEarlyLaw }
{}
