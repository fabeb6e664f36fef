//! The key `shared_with` of a stream.

ghost use Rattle.std.specs.Prelude.{◌≡◌, ◌≤◌, ◌&&◌, length, map};
ghost use Rattle.std.specs.List.{list_all, filter_map};
ghost use Rattle.toml.specs.View.{view};
ghost use Rattle.description_keys.specs.StreamKeys.{is_owned_by, number_in, names_another, are_sharers, has_sharers};
ghost use Rattle.description_keys.specs.StreamKeys.{sharers_of, stream_sharers};
ghost use Rattle.description_values.specs.Values.{is_distinct};

use crate::limits::limit_in;
use crate::owner::{declares, is_owned_by};
use crate::program_numbers::ProgramNumbers;
use arrayvec::ArrayVec;
use description_values::arrays::{array_in, elements};
use description_values::values::{integer_in, is_distinct};
use toml::Value;

fn number_in(value: &Value) -> Option<u16>
    ensures { result ≡ number_in (view value.now) }
{
    Some(integer_in(value, 1, 65_535)? as u16)
}

fn names_another(document: &Value, stream: &Value, value: &Value) -> bool
    ensures { result ≡ names_another (view document.now) (view stream.now) (view value.now) }
{
    match number_in(value) {
        None => false,
        Some(number) => declares(document, number) && !is_owned_by(number, stream),
    }
}

fn each_names_another(document: &Value, stream: &Value, values: &[Value]) -> bool
    ensures { result ≡ list_all (λ v. names_another (view document.now) (view stream.now) (view v)) values.now }
{
    values
        .iter()
        .all(|value| names_another(document, stream, value))
}

fn all_name_another(document: &Value, stream: &Value, values: &[Value]) -> bool
    ensures { result ≡ list_all (names_another (view document.now) (view stream.now)) (map view values.now) }
{
    each_names_another(document, stream, values)
}

fn numbers_in(values: &[Value]) -> ArrayVec<u16, 63>
    requires { length values.now ≤ 63 }
    ensures { result.items ≡ filter_map number_in (map view values.now) }
{
    let mut numbers = ArrayVec::new();
    for value in values {
        if let Some(number) = number_in(value) {
            numbers.push(number);
        }
    }
    numbers
}

fn are_sharers_in(document: &Value, stream: &Value, values: &[Value]) -> bool
    requires { length values.now ≤ 63 }
    ensures { result ≡ (list_all (names_another (view document.now) (view stream.now)) (map view values.now)
        && is_distinct (filter_map number_in (map view values.now))) }
{
    all_name_another(document, stream, values) && is_distinct(numbers_in(values).as_slice())
}

// Returns whether a value is an array of up to 15 numbers, with `transponder` up to 63, of declared programs, each once and
// not the stream's own.
fn are_sharers(document: &Value, stream: &Value, value: &Value) -> bool
    ensures { result ≡ are_sharers (view document.now) (view stream.now) (view value.now) }
{
    match array_in(value) {
        None => false,
        Some(values) => values.len() <= limit_in(document, 15, 63)
            && are_sharers_in(document, stream, values),
    }
}

/// Returns whether the key is absent, or has what it may have.
pub fn has_sharers(document: &Value, stream: &Value) -> bool
    ensures { result ≡ has_sharers (view document.now) (view stream.now) }
{
    match stream.get("shared_with") {
        None => true,
        Some(value) => are_sharers(document, stream, value),
    }
}

fn sharers_of(values: &[Value]) -> ProgramNumbers
    ensures { result ≡ sharers_of (map view values.now) }
{
    let numbers = if values.len() <= 63 {
        numbers_in(values)
    } else {
        ArrayVec::new()
    };
    ProgramNumbers { numbers }
}

/// Returns the numbers at the key; none if it is absent, or has more than it may have.
pub fn sharers(stream: &Value) -> ProgramNumbers
    ensures { result ≡ stream_sharers (view stream.now) }
{
    sharers_of(elements(stream, "shared_with"))
}
