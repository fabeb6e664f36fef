//! Refused records in a row with one code: which of them have a line.

ghost use Rattle.std.specs.Prelude.{◌≡◌};
ghost use Rattle.tsair_cli.specs.Repeats as spec;

use on_air::AirRefusal;

/// How far the DTS of two records with lines are apart at least, in units of 90 kHz.
const APART: u64 = 90_000;

/// A refused record whose refusal has a code.
#[derive(Clone, Copy)]
pub struct CodedRecord {
    pub code: u8,
    pub dts: u64,
}

/// The last refused record that has a line, if its refusal has a code, and how many records alike were refused after it.
#[derive(Clone, Copy)]
pub struct Repeats {
    pub last: Option<CodedRecord>,
    pub more: u64,
}

/// Returns the code of a refusal, with the DTS of its record.
#[tactic(auto, unfolding(crate::specs::Repeats::coded))]
fn coded(cause: AirRefusal) -> Option<CodedRecord>
    ensures { result ≡ spec.coded cause }
{
    match cause {
        AirRefusal::Feed(unit) => Some(CodedRecord {
            code: unit.cause.code(),
            dts: unit.dts,
        }),
        AirRefusal::Ahead(far) => Some(CodedRecord {
            code: 11,
            dts: far.to,
        }),
        AirRefusal::Followed { .. } => None,
        AirRefusal::Texts(_) => None,
        AirRefusal::LineUp(_) => None,
    }
}

/// Returns the distance of two times.
fn distance(one: u64, other: u64) -> u64
    ensures { result ≡ spec.distance one other }
{
    if one < other {
        other - one
    } else {
        one - other
    }
}

/// Returns whether two refused records are alike: they have one code, and are due within less than a second.
fn are_alike(last: CodedRecord, now: CodedRecord) -> bool
    ensures { result ≡ spec.are_alike last now }
{
    last.code == now.code && distance(last.dts, now.dts) < APART
}

/// Returns whether a refused record with this code is like the last one that has a line.
#[tactic(auto, unfolding(crate::specs::Repeats::is_again))]
fn is_again(last: Option<CodedRecord>, now: Option<CodedRecord>) -> bool
    ensures { result ≡ spec.is_again last now }
{
    match last {
        None => false,
        Some(last) => match now {
            None => false,
            Some(now) => are_alike(last, now),
        },
    }
}

impl Repeats {
    /// Returns that no record was refused.
    pub fn none() -> Repeats
        ensures { result ≡ spec.none_refused }
    {
        Repeats {
            last: None,
            more: 0,
        }
    }

    /// Returns whether a refused record has no line, because it is like the last one that has a line.
    pub fn has(self, cause: AirRefusal) -> bool
        ensures { result ≡ spec.is_repeat self cause }
    {
        is_again(self.last, coded(cause))
    }

    /// Returns these with one more refused record.
    pub fn with(self, cause: AirRefusal) -> Repeats
        ensures { result ≡ spec.with_cause self cause }
    {
        if self.has(cause) {
            return Repeats {
                last: self.last,
                more: self.more.saturating_add(1),
            };
        }
        Repeats {
            last: coded(cause),
            more: 0,
        }
    }
}
