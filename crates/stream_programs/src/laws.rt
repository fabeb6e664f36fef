//! Laws of the definitions. Each function does nothing: its contract is the law.

ghost use Rattle.stream_programs.specs.Laws.{EachHasPids, FindingsOfPidZero, FindingsOfTheMap, MapsDecide};
ghost use Rattle.stream_programs.specs.Laws.{PidsAreDistinct};

/// States that the named programs are a function of the findings on PID 0.
pub fn findings_of_pid_zero()
    ensures { FindingsOfPidZero }
{}

/// States that the program map table of a program is a function of the findings on its PID.
pub fn findings_of_the_map()
    ensures { FindingsOfTheMap }
{}

/// States that programs and streams are a function of the findings on the PIDs of the program map tables.
pub fn maps_decide()
    ensures { MapsDecide }
{}

/// States that the PIDs of the found streams and the PIDs that are assigned to maps and PCRs are 32 to 8,190, and that
/// no two are equal.
pub fn pids_are_distinct()
    ensures { PidsAreDistinct }
{}

/// States that each program is assigned a PID for its map and a PID for its PCR.
pub fn each_has_pids()
    ensures { EachHasPids }
{}
