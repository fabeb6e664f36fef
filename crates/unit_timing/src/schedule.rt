//! The packets of a run.
ghost use Rattle.unit_timing.specs.Schedule.{SlotwiseLaw};

/// States that what each own slot carries, slot by slot, is the units cut into packets, unit by unit.
pub fn slotwise()
    ensures { SlotwiseLaw }
{}
