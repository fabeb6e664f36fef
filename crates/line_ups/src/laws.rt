//! Laws of line-ups, over the definitions alone. Each function does nothing: its contract is the law.

ghost use Rattle.line_ups.specs.Laws.{KeptLaw, MovesOnceLaw};
ghost use Rattle.line_ups.specs.Versions.{SameFollowedLaw, FollowedRangeLaw, FollowedTextLaw, FollowedVersionLaw};

/// States what stays if there is no fault.
pub fn kept()
    ensures { KeptLaw }
{}

/// States that nothing of the old line-up is two things of the new one.
pub fn moves_once()
    ensures { MovesOnceLaw }
{}

/// States that a description with the versions that follow has only other versions, is in range, and shows the version
/// of each sub-table that was on air, or the next one.
pub fn followed()
    ensures same { SameFollowedLaw }
    ensures range { FollowedRangeLaw }
    ensures texts { FollowedTextLaw }
    ensures version { FollowedVersionLaw }
{}
