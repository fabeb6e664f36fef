//! Values of options of a job that are a word or a moment.

ghost use Rattle.std.specs.Prelude.{◌≡◌, option_map};
ghost use Rattle.std.specs.List.{list_all};
ghost use Rattle.word_faults.specs.JobValues as spec;

use description_values::moments::moment_of;
use devices::number_in;
use given_values::{ClockBase, ClockSharing, DeclareBy};

/// Returns by what the packets of units are declared; without a word, by either.
#[tactic(auto, unfolding(crate::specs::JobValues::declare_by_of))]
pub fn declare_by_of(text: Option<&str>) -> Option<DeclareBy>
    ensures { result ≡ spec.declare_by_of (option_map (λ s. s.now) text.entry) }
{
    match text {
        None => Some(DeclareBy::Either),
        Some("groups") => Some(DeclareBy::Groups),
        Some("time") => Some(DeclareBy::Pace),
        Some(_) => None,
    }
}

/// Returns which programs share a clock; without a word, those without video.
#[tactic(auto, unfolding(crate::specs::JobValues::clock_sharing_of))]
pub fn clock_sharing_of(text: Option<&str>) -> Option<ClockSharing>
    ensures { result ≡ spec.clock_sharing_of (option_map (λ s. s.now) text.entry) }
{
    match text {
        None => Some(ClockSharing::WithoutVideo),
        Some("each") => Some(ClockSharing::Each),
        Some("one") => Some(ClockSharing::One),
        Some(_) => None,
    }
}

/// Returns the base of the system clock when the run begins; without a text, `ClockBase::Lasting`.
#[tactic(auto, unfolding(crate::specs::JobValues::base_of))]
pub fn base_of(text: Option<&str>) -> Option<ClockBase>
    ensures { result ≡ spec.base_of (option_map (λ s. s.now) text.entry) }
{
    match text {
        None => Some(ClockBase::Lasting),
        Some("input") => Some(ClockBase::Input),
        Some(text) => Some(ClockBase::At(number_in(text, 0, 8_589_934_591)?)),
    }
}

// Returns whether a byte may occur in a moment.
fn is_of_time(byte: u8) -> bool
    ensures { result ≡ spec.is_of_time byte }
{
    byte.is_ascii_digit() || byte == b'-' || byte == b':' || byte == b'T'
}

// Returns whether each byte of a text may occur in a moment.
fn is_of_times(text: &str) -> bool
    ensures { result ≡ list_all spec.is_of_time text.now }
{
    text.bytes().all(|byte| is_of_time(byte))
}

// Returns whether a text names a moment that a description can name.
fn is_moment(text: &str) -> bool
    ensures { result ≡ spec.is_moment text.now }
{
    is_of_times(text) && moment_of(text.as_bytes()).is_some()
}

/// Returns the moment of the first slot, if it is given; none if a description can't name such a moment.
#[tactic(auto, unfolding(crate::specs::JobValues::start_of))]
pub fn start_of<'a>(text: Option<&'a str>) -> Option<Option<&'a str>>
    ensures { option_map (λ o. option_map (λ s. s.now) o) result
        ≡ spec.start_of (option_map (λ s. s.now) text.entry) }
{
    let Some(text) = text else {
        return Some(None);
    };
    if is_moment(text) {
        Some(Some(text))
    } else {
        None
    }
}
