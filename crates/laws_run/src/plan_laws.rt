//! Laws of the reasons why no plan serves a description. Each function does nothing: its contract is the law.
ghost use Rattle.laws_run.specs.ReasonNumbers.{DrainNumber, LeadNumber, LeakNumber, MainNumber, NoRate, PcrNumber, RateNumber, TableNumber};

/// States of each reason that a description with the reason's number in place of its own no longer has this reason, nor
/// one with a greater number, and that one with any less number has it. Of the load: the items have slots enough at the
/// reason's rate, and at none from the description's own rate up to it.
pub fn reasons()
    ensures pcrs { PcrNumber }
    ensures tables { TableNumber }
    ensures drains { DrainNumber }
    ensures leaks { LeakNumber }
    ensures leads { LeadNumber }
    ensures mains { MainNumber }
    ensures rates { RateNumber }
    ensures none { NoRate }
{}
