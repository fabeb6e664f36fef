//! One plan, or two plans in turn: from the conditions on their slots to the promises about the buffers.
ghost use Rattle.unit_timing.specs.PlanLaws.{StreamLaw, DeadlineSwitchLaw, MainSwitchLaw, StreamSwitchLaw};
ghost use Rattle.unit_timing.specs.PlanLaws.{ProgramLaw, ProgramSwitchLaw};

/// States for a stream whose own slots keep the conditions, with units within its declaration, that each
/// due unit leaves whole by its stamp, and neither buffer overflows, in runs of any length.
pub fn stream()
    ensures { StreamLaw }
{}

/// States that over two plans, the first for any number of its periods, each unit is sent in time.
pub fn deadline_switch()
    ensures { DeadlineSwitchLaw }
{}

/// States that over two plans the main buffer never overflows.
pub fn main_switch()
    ensures { MainSwitchLaw }
{}

/// States over two plans the promises of a stream over one plan.
pub fn stream_switch()
    ensures { StreamSwitchLaw }
{}

/// States that the buffers of a program's tables never overflow.
pub fn program()
    ensures { ProgramLaw }
{}

/// States the same over two plans.
pub fn program_switch()
    ensures { ProgramSwitchLaw }
{}
