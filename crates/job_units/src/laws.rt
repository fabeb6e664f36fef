//! The law of the time after a unit's last frame.

ghost use Rattle.job_units.specs.FrameRests.{RestLaw};

/// States that each unit of sound is due no sooner after the last frame of the unit before it than the least time that is
/// found, if this is not 0.
pub fn units_are_apart()
    ensures { RestLaw }
{}
