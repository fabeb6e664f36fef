//! The laws of the definitions. They do nothing: their contracts are the laws.

ghost use Rattle.stamp_repair.specs.LoneLaws.{AllElseStays, EachIsAlone, EachPidAlone, LimitIsExact, LoneIsFound, OrderedStays};

/// States that the findings of a PID alone decide which of its PES packets are found and damaged, if fewer than 256 are
/// found in all.
pub fn each_pid_alone()
    ensures { EachPidAlone }
{}

/// States that each finding keeps its place, and changes only if it is a PES packet that is found.
pub fn all_else_stays()
    ensures { AllElseStays }
{}

/// States that the findings of a PID stay as they are, if no DTS falls by over a second and no PTS by over 10 s.
pub fn ordered_stays()
    ensures { OrderedStays }
{}

/// States that the stamps of each PES packet that is found are alone out of order on its PID: after a PES packet that is
/// not found, if no two of the PID begin in one packet.
pub fn each_is_alone()
    ensures { EachIsAlone }
{}

/// States that a PES packet whose stamps are alone out of order after a PES packet that is not found is found, if fewer
/// than 256 are found in all.
pub fn lone_is_found()
    ensures { LoneIsFound }
{}

/// States that the PES packets found on a PID are all damaged, if they are at most 16 and its clock does not go back, and
/// that otherwise none is.
pub fn limit_is_exact()
    ensures { LimitIsExact }
{}
