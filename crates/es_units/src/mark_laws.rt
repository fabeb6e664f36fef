//! Laws of the definitions. Each function does nothing: its contract is the law.

ghost use Rattle.es_units.specs.MarkLaws.{MarkedByThePid, NothingIsMarked};

/// States that nothing changes if nothing is asked for.
pub fn nothing_is_marked()
    ensures { NothingIsMarked }
{}

/// States that the findings of a PID are marked as asked for this PID alone.
pub fn marked_by_the_pid()
    ensures { MarkedByThePid }
{}
