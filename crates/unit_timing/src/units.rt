//! One unit more.
ghost use Rattle.unit_timing.specs.PesPacket.{SpacedMoreLaw, SizedMoreLaw, GroupMoreLaw};
ghost use Rattle.unit_timing.specs.Levels.{AllowanceMoreLaw};

/// States that a list of units within a declaration stays within it by a further unit exactly if that unit is
/// late enough after the last, is not too large, and is not over: it fits the group that it ends, or the level.
pub fn one_more()
    ensures spaced { SpacedMoreLaw }
    ensures sized { SizedMoreLaw }
    ensures grouped { GroupMoreLaw }
    ensures allowed { AllowanceMoreLaw }
{}
