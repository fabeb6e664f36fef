//! Deadlines of units.
ghost use Rattle.unit_timing.specs.Deadline.{StretchLaw, DeadlineLaw, GroupsPaidLaw, PacePaidLaw};

/// States that all units arrive in time, if units that are sent without a pause do.
pub fn stretches()
    ensures { StretchLaw }
{}

/// States that own slots keep each deadline, if their pace pays for the allowed packets of any time.
pub fn paid()
    ensures { DeadlineLaw }
{}

/// States that groups are paid for: the condition on the rate pays for whole groups, that on the lead for the rest.
pub fn groups_paid()
    ensures { GroupsPaidLaw }
{}

/// States that a pace is paid for: the condition on the rate pays for what comes after the burst, that on the lead
/// for the burst.
pub fn pace_paid()
    ensures { PacePaidLaw }
{}
