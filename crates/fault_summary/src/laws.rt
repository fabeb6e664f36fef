//! Laws of the totals of faults. Each function does nothing: its contract is the law.
ghost use Rattle.fault_summary.specs.Laws.{CheckLaw, CountsFaults, RowLaw};

/// States that the row of each check in a summary counts exactly the faults of its events that fail the check, and for
/// check 1.1 (ETSI TR 101 290, 5.2.1) the second packet in a row that does not begin with 0x47, over the whole stream,
/// with the place of the first and of the last of them (`counts`); and that the row of a kind and a source counts
/// exactly their own faults.
pub fn counted()
    ensures checks { CheckLaw }
    ensures counts { CountsFaults }
    ensures rows { RowLaw }
{}
