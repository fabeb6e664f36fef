//! PES packets that hold several access units.
ghost use Rattle.unit_timing.specs.AccessUnits.{FramedLaw, FrameSizeLaw};

/// States that the main buffer never overflows, although each access unit is removed at its own time, over one plan
/// and over two plans in turn. The condition: the waiting bytes fit the main buffer at each time when only some
/// access units of a packet have been removed.
pub fn main_buffer()
    ensures { FramedLaw }
{}

/// States that packets an interval apart keep the declaration by their greatest access unit.
pub fn frame_sizes()
    ensures { FrameSizeLaw }
{}
