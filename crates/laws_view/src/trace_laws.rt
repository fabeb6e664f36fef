//! Laws of the rows around the greatest excess of a buffer. Each function does nothing: its contract is the law.
ghost use Rattle.laws_view.specs.KeptRows.{LastLaw, StateLaw, TraceLaw};

/// States that a ring holds the last 64 rows in order; and that each buffer of a stream that ever held more than its
/// size keeps the last 64 rows up to 32 rows after the first row with its greatest fullness, or up to the last row.
/// The row with the greatest fullness is among them, no row before it has as much, and no row after it more.
pub fn kept()
    ensures last { LastLaw }
    ensures around { TraceLaw }
    ensures both { StateLaw }
{}
