//! Times as a description writes them, and the moments that they name.

ghost use Rattle.std.specs.Prelude.{◌≡◌, ◌<◌, ◌≤◌, ◌+◌, length, true};
ghost use Rattle.toml.specs.View.{view};
ghost use Rattle.description_values.specs.Moments.{has_digit, two_digits, has_two_digits, has_time_shape};
ghost use Rattle.description_values.specs.Moments.{civil_seconds_of};
ghost use Rattle.description_values.specs.Moments.{text_seconds, moment_of, moment_in, moment_at};

use crate::values::within;
use jiff::civil::DateTime;
use toml::Value;

// The last moment that a description can name, 2037-12-31T23:59:59.
const LAST_MOMENT: u64 = 2_145_916_799;

fn is_digit(text: &[u8], place: usize) -> bool
    requires { place < length text.now }
    ensures { result ≡ has_digit text.now place }
{
    b'0' <= text[place] && text[place] <= b'9'
}

fn are_two_digits(text: &[u8], place: usize) -> bool
    requires { place + 1 < length text.now }
    ensures { result ≡ has_two_digits text.now place }
{
    is_digit(text, place) && is_digit(text, place + 1)
}

fn two_digits(text: &[u8], place: usize) -> u8
    requires place { place + 1 < length text.now }
    requires digits { has_two_digits text.now place ≡ true }
    ensures number { result ≡ two_digits text.now place }
    ensures small { result ≤ 99 }
{
    10 * (text[place] - b'0') + (text[place + 1] - b'0')
}

// Returns whether a text of 19 bytes is YYYY-MM-DDThh:mm:ss with digits in their places.
fn has_time_shape(text: &[u8]) -> bool
    ensures { result ≡ has_time_shape text.now }
{
    text.len() == 19
        && (are_two_digits(text, 0) && are_two_digits(text, 2) && text[4] == b'-')
        && (are_two_digits(text, 5) && text[7] == b'-' && are_two_digits(text, 8))
        && text[10] == b'T'
        && (are_two_digits(text, 11) && text[13] == b':' && are_two_digits(text, 14))
        && (text[16] == b':' && are_two_digits(text, 17))
}

// Returns the seconds since 1970 of a civil date and time, if the date and time exist.
fn civil_seconds(year: u16, month: u8, day: u8, hour: u8, minute: u8, second: u8) -> Option<i64>
    requires year { year ≤ 9999 }
    requires month { month ≤ 99 }
    requires day { day ≤ 99 }
    requires hour { hour ≤ 99 }
    requires minute { minute ≤ 99 }
    requires second { second ≤ 99 }
    ensures { result ≡ civil_seconds_of year month day hour minute second }
{
    match DateTime::new(
        year as i16,
        month as i8,
        day as i8,
        hour as i8,
        minute as i8,
        second as i8,
        0,
    ) {
        Ok(time) => Some(time.to_plain().to_second()),
        Err(_) => None,
    }
}

// Returns the seconds since 1970 that a text of the right shape names.
fn text_seconds(text: &[u8]) -> Option<i64>
    requires { has_time_shape text.now ≡ true }
    ensures { result ≡ text_seconds text.now }
{
    let century = two_digits(text, 0);
    let year = two_digits(text, 2);
    let month = two_digits(text, 5);
    let day = two_digits(text, 8);
    let hour = two_digits(text, 11);
    let minute = two_digits(text, 14);
    let second = two_digits(text, 17);
    civil_seconds(
        100 * century as u16 + year as u16,
        month,
        day,
        hour,
        minute,
        second,
    )
}

/// Returns the moment that a text names, in seconds since 1970: YYYY-MM-DDThh:mm:ss, a day of the calendar and a time
/// of the day to 2037; `None` if the text names none.
pub fn moment_of(text: &[u8]) -> Option<u64>
    ensures { result ≡ moment_of text.now }
{
    if !has_time_shape(text) {
        return None;
    }
    match text_seconds(text) {
        None => None,
        Some(seconds) => within(seconds, 0, LAST_MOMENT),
    }
}

fn moment(value: &Value) -> Option<u64>
    ensures { result ≡ moment_in (view value.now) }
{
    match value.as_str() {
        None => None,
        Some(text) => moment_of(text.as_bytes()),
    }
}

/// Returns the moment at a key that has to be there, in seconds since 1970.
pub fn moment_at(table: &Value, key: &str) -> Option<u64>
    ensures { result ≡ moment_at key.now (view table.now) }
{
    match table.get(key) {
        None => None,
        Some(value) => moment(value),
    }
}
