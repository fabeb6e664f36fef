//! The law of the format. It does nothing: its contract is the law.

ghost use Rattle.unit_records.specs.Laws.{RecordsAreRead};

/// States that a record that is written, whatever follows it, is read by `read_unit` as its stream and its unit, and
/// what follows it is left.
pub fn records_are_read()
    ensures { RecordsAreRead }
{}
