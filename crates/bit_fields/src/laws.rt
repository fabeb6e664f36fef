//! Laws of the definitions. Each function does nothing: its contract is the law.

ghost use Rattle.bit_fields.specs.Laws.{BytesJoin, FieldsJoin};

/// States the number of two strings of bytes in a row, and its bound: `n` bytes make a number
/// below 256 to the power `n`.
pub fn bytes_join()
    ensures { BytesJoin }
{}

/// States the number of two tables of fields in a row: the first is shifted by the widths of the
/// second.
pub fn fields_join()
    ensures { FieldsJoin }
{}
