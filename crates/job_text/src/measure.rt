//! The measures of numbers, by their keys.

ghost use Rattle.std.specs.Prelude.{◌≡◌, map, bytes_eq};
ghost use Rattle.std.specs.List.{list_any};
ghost use Rattle.job_text.specs.Notes.{is_among, measure_of};

/// The measure of a number, for the comment beside it.
#[derive(Clone, Copy, PartialEq, Eq)]
pub(crate) enum Measure {
    /// A number that has no comment.
    Plain,
    /// Units of 90 kHz: a distance.
    Ticks,
    /// Units of 90 kHz: a clock.
    Clock,
    /// Bits a second.
    BitRate,
    Bytes,
    Milliseconds,
    Seconds,
    /// EN 300 468, table 87.
    ServiceType,
}

fn is_one_of(key: &str, names: &[&str]) -> bool
    ensures { result ≡ list_any (λ name. bytes_eq name.now key.now) names.now }
{
    names.iter().any(|name| *name == key)
}

fn is_among(key: &str, names: &[&str]) -> bool
    ensures { result ≡ is_among (map (λ name. name.now) names.now) key.now }
{
    is_one_of(key, names)
}

/// Returns the measure of the number at a key.
#[tactic(auto, unfolding(crate::specs::Notes::measure_of))]
pub(crate) fn measure_of(key: &str) -> Measure
    ensures { result ≡ measure_of key.now }
{
    if is_among(
        key,
        &["frame", "frame_rest", "interval", "lead", "pts_limit"],
    ) {
        Measure::Ticks
    } else if is_among(key, &["pace", "rate", "rbx", "rx"]) {
        Measure::BitRate
    } else if is_among(key, &["main", "mb", "size"]) {
        Measure::Bytes
    } else if is_among(key, &["limit", "pcr_limit"]) {
        Measure::Milliseconds
    } else if is_among(key, &["service_type"]) {
        Measure::ServiceType
    } else if is_among(key, &["base0"]) {
        Measure::Clock
    } else if is_among(key, &["duration"]) {
        Measure::Seconds
    } else {
        Measure::Plain
    }
}
