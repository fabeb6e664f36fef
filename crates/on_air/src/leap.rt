//! A leap of the stamps of the input: records in a row that all lie further ahead than the terms of a run allow.

ghost use Rattle.std.specs.Prelude.{◌≡◌};
ghost use Rattle.on_air.specs.Leaps.{is_far, is_followed, is_near, leap_with, no_leap};

/// How many records in a row have to leap, each near the record before, until a run follows them.
pub(crate) const LEAP_RECORDS: u8 = 8;

/// The records in a row, so far, that are further ahead than the terms allow, each near the record before.
#[derive(Clone, Copy)]
pub struct Leap {
    /// The number of these records, 8 at most.
    pub(crate) records: u8,
    /// The DTS of the last record, in units of 90 kHz.
    pub(crate) due: u64,
}

/// Returns whether a record that is due at `due` lies more than `ahead` after the greatest DTS so far, in units of 90
/// kHz.
pub(crate) fn is_far(ahead: u64, greatest: u64, due: u64) -> bool
    ensures { result ≡ is_far ahead greatest due }
{
    ahead < due.saturating_sub(greatest)
}

// Returns whether two stamps lie at most `ahead` from each other.
fn is_near(ahead: u64, one: u64, other: u64) -> bool
    ensures { result ≡ is_near ahead one other }
{
    one.saturating_sub(other) <= ahead && other.saturating_sub(one) <= ahead
}

impl Leap {
    /// Returns the leap of no record.
    pub(crate) fn none() -> Leap
        ensures { result ≡ no_leap }
    {
        Leap { records: 0, due: 0 }
    }

    /// Returns the leap with one more record that lies further ahead than the terms allow.
    pub(crate) fn with(self, ahead: u64, due: u64) -> Leap
        ensures { result ≡ leap_with ahead self due }
    {
        let records = if is_near(ahead, self.due, due) {
            if self.records < LEAP_RECORDS {
                self.records + 1
            } else {
                LEAP_RECORDS
            }
        } else {
            1
        };
        Leap { records, due }
    }

    /// Returns whether a run follows these records.
    pub(crate) fn is_followed(self) -> bool
        ensures { result ≡ is_followed self }
    {
        LEAP_RECORDS <= self.records
    }
}
