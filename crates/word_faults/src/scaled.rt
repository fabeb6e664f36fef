//! Numbers with a unit after them.

ghost use Rattle.std.specs.Prelude.{◌≡◌, ◌<◌, ◌≤◌, IfSome, option_map};
ghost use Rattle.word_faults.specs.Scaled as spec;

use devices::number_in;

/// In what a number of an option counts, and so the units that may follow it.
#[derive(Clone, Copy)]
pub enum Scale {
    /// Bits a second: `k` for a thousand of them, `M` for a million.
    Bits,
    /// Units of 90 kHz: `ms` for 90 of them, `s` for 90,000.
    Ticks,
    /// Milliseconds: `ms` for each, `s` for a thousand of them.
    Millis,
}

// Returns the text before a unit at its end: the unit by its first character, of ASCII, and its further characters.
fn before_unit<'a>(text: &'a str, first: char, rest: &str) -> Option<&'a str>
    requires { first < 128 }
    ensures { option_map (λ s. s.now) result ≡ spec.before_unit first rest.now text.entry.now }
{
    match text.split_once(first) {
        Some((front, end)) if end == rest => Some(front),
        _ => None,
    }
}

// Returns a number times the factor of its unit.
#[tactic(auto, unfolding(crate::specs::Scaled::times))]
fn times(text: Option<&str>, factor: u64) -> Option<u64>
    requires { factor ≤ 1000000 }
    ensures { result ≡ spec.times factor (option_map (λ s. s.now) text.entry) }
{
    let text = text?;
    match number_in(text, 0, 1_000_000_000) {
        Some(number) => Some(number * factor),
        None => None,
    }
}

// Returns the first number that there is.
fn either(first: Option<u64>, other: Option<u64>) -> Option<u64>
    ensures { result ≡ spec.either first other }
{
    match first {
        Some(number) => Some(number),
        None => other,
    }
}

// Returns the number of a text that ends with a unit.
#[tactic(auto, unfolding(crate::specs::Scaled::unit_value))]
fn unit_value(scale: Scale, text: &str) -> Option<u64>
    ensures { result ≡ spec.unit_value scale text.now }
{
    match scale {
        Scale::Bits => either(
            times(before_unit(text, 'k', ""), 1_000),
            times(before_unit(text, 'M', ""), 1_000_000),
        ),
        Scale::Ticks => either(
            times(before_unit(text, 'm', "s"), 90),
            times(before_unit(text, 's', ""), 90_000),
        ),
        Scale::Millis => either(
            times(before_unit(text, 'm', "s"), 1),
            times(before_unit(text, 's', ""), 1_000),
        ),
    }
}

/// Returns the number of a text, with a unit or as digits alone, if it lies within these limits.
pub fn scaled_in(text: &str, scale: Scale, least: u64, greatest: u64) -> Option<u64>
    ensures value { result ≡ spec.scaled_in scale least greatest text.now }
    ensures lower { IfSome result (λ n. least ≤ n) }
    ensures upper { IfSome result (λ n. n ≤ greatest) }
{
    match unit_value(scale, text) {
        Some(number) if least <= number && number <= greatest => Some(number),
        Some(_) => None,
        None => number_in(text, least, greatest),
    }
}
