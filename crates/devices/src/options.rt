//! Numbers and flags of the command line.
ghost use Rattle.std.specs.Prelude.{◌≡◌, ◌≤◌, false, IfSome, option_map, option_and_then};
ghost use Rattle.std.specs.List.{list_all};
ghost use Rattle.std.specs.Char.{is_ascii_digit};
ghost use Rattle.clap.specs.Words.{first_of, found_of, rows_of, rule_of};
ghost use Rattle.devices.specs.Options as stated;

use clap::{Arg, ArgAction, ArgMatches};
use std::alloc::Global;

/// Returns an option `--NAME VALUE`.
pub fn option<'a>(alloc: Global, name: &'a str) -> Arg<'a>
    ensures rule { rule_of result ≡ stated.option_rule name.entry.now }
    ensures local { result.global ≡ false }
{
    Arg::new(alloc, name).long(name)
}

/// Returns a flag `--NAME`.
pub fn flag<'a>(alloc: Global, name: &'a str) -> Arg<'a>
    ensures rule { rule_of result ≡ stated.flag_rule name.entry.now }
    ensures local { result.global ≡ false }
{
    Arg::new(alloc, name).long(name).action(ArgAction::SetTrue)
}

/// Returns whether a text is decimal digits alone.
fn is_digits(text: &str) -> bool
    ensures { result ≡ list_all is_ascii_digit text.now }
{
    text.bytes().all(|byte| byte.is_ascii_digit())
}

/// Returns whether a text is one decimal digit or more, and nothing else.
fn is_decimal(text: &str) -> bool
    ensures { result ≡ stated.is_decimal text.now }
{
    text.len() > 0 && is_digits(text)
}

/// Returns the number, if it lies within these limits.
fn within(low: u64, high: u64, number: u64) -> Option<u64>
    ensures value { result ≡ stated.within low high number }
    ensures lower { IfSome result (λ n. low ≤ n) }
    ensures upper { IfSome result (λ n. n ≤ high) }
{
    if low <= number && number <= high {
        Some(number)
    } else {
        None
    }
}

/// Returns the value of a text of decimal digits alone, if it lies within these limits.
pub fn number_in(text: &str, low: u64, high: u64) -> Option<u64>
    ensures value { result ≡ option_and_then (stated.within low high) (stated.decimal text.now) }
    ensures lower { IfSome result (λ n. low ≤ n) }
    ensures upper { IfSome result (λ n. n ≤ high) }
{
    if !is_decimal(text) {
        return None;
    }
    let Ok(number) = text.parse::<u64>() else {
        return None;
    };
    within(low, high, number)
}

/// Returns the text of an option or a flag.
pub fn text_of<'a>(matches: &ArgMatches<'a>, id: &str) -> Option<&'a str>
    ensures { option_map (λ s. s.now) result ≡ first_of id.now (rows_of (found_of matches.now)) }
{
    matches.get_str(id)
}

/// Returns the number of an option, `default` if it is not given.
#[tactic(auto, unfolding(crate::specs::Options::number_option))]
pub fn number_option(text: Option<&str>, low: u64, high: u64, default: u64) -> Option<u64>
    requires { default ≤ high }
    ensures value { result ≡ stated.number_option low high default (option_map (λ s. s.now) text.entry) }
    ensures upper { IfSome result (λ n. n ≤ high) }
{
    match text {
        None => Some(default),
        Some(text) => number_in(text, low, high),
    }
}

/// Returns the number of an option that must be given.
#[tactic(auto, unfolding(crate::specs::Options::number_given))]
pub fn number_given(text: Option<&str>, low: u64, high: u64) -> Option<u64>
    ensures value { result ≡ stated.number_given low high (option_map (λ s. s.now) text.entry) }
    ensures lower { IfSome result (λ n. low ≤ n) }
    ensures upper { IfSome result (λ n. n ≤ high) }
{
    match text {
        None => None,
        Some(text) => number_in(text, low, high),
    }
}

/// Returns the number of an option that need not be given; none if it is out of these limits.
#[tactic(auto, unfolding(crate::specs::Options::number_if_given))]
pub fn number_if_given(text: Option<&str>, low: u64, high: u64) -> Option<Option<u64>>
    ensures { result ≡ stated.number_if_given low high (option_map (λ s. s.now) text.entry) }
{
    let Some(text) = text else {
        return Some(None);
    };
    match number_in(text, low, high) {
        None => None,
        Some(number) => Some(Some(number)),
    }
}

/// Returns whether a flag is given.
#[tactic(auto, unfolding(crate::specs::Options::is_given))]
pub fn is_given(text: Option<&str>) -> bool
    ensures { result ≡ stated.is_given (option_map (λ s. s.now) text.entry) }
{
    match text {
        None => false,
        Some(text) => text == "true",
    }
}
