//! Units that have left the transport buffer.
ghost use Rattle.unit_timing.specs.Arrived.{ArrivedLaw, LateLaw};

/// States that in a run of any length each due unit has left the transport buffer whole by its stamp.
pub fn due_units()
    ensures { ArrivedLaw }
{}

/// States that the first late unit is none exactly if each due unit has left, in any order of stamps.
pub fn late_units()
    ensures { LateLaw }
{}
