//! Arrays of tables and of sections.

ghost use Rattle.std.specs.Prelude.{◌≡◌, map, option_map};
ghost use Rattle.std.specs.List.{list_all};
ghost use Rattle.toml.specs.View.{view};
ghost use Rattle.description_values.specs.Values.{array_in, elements_in, elements, has_length, is_table, are_tables};
ghost use Rattle.description_values.specs.Values.{tables_at, is_section, are_sections, sections_at};

use crate::private_section::section_of;
use toml::Value;

/// Returns the elements of an array.
pub fn array_in(value: &Value) -> Option<&[Value]>
    ensures { option_map (λ values. map view values.now) result ≡ array_in (view value.now) }
{
    match value.as_array() {
        None => None,
        Some(array) => Some(array.as_slice()),
    }
}

/// Returns the elements of an array, none if the value is no array.
pub fn elements_in(value: &Value) -> &[Value]
    ensures { map view result.now ≡ elements_in (view value.now) }
{
    match array_in(value) {
        None => &[],
        Some(values) => values,
    }
}

/// Returns the elements of the array at a key, none if there is no array.
pub fn elements<'a>(table: &'a Value, key: &str) -> &'a [Value]
    ensures { map view result.now ≡ elements key.now (view table.now) }
{
    match table.get(key) {
        None => &[],
        Some(value) => elements_in(value),
    }
}

fn is_table(value: &Value) -> bool
    ensures { result ≡ is_table (view value.now) }
{
    value.is_table()
}

fn is_section(value: &Value) -> bool
    ensures { result ≡ is_section (view value.now) }
{
    section_of(value).is_some()
}

fn each_is_table(values: &[Value]) -> bool
    ensures { result ≡ list_all (λ v. is_table (view v)) values.now }
{
    values.iter().all(|value| is_table(value))
}

fn each_is_section(values: &[Value]) -> bool
    ensures { result ≡ list_all (λ v. is_section (view v)) values.now }
{
    values.iter().all(|value| is_section(value))
}

fn all_tables(values: &[Value]) -> bool
    ensures { result ≡ list_all is_table (map view values.now) }
{
    each_is_table(values)
}

fn all_sections(values: &[Value]) -> bool
    ensures { result ≡ list_all is_section (map view values.now) }
{
    each_is_section(values)
}

fn has_length(values: &[Value], low: usize, high: usize) -> bool
    ensures { result ≡ has_length low high (map view values.now) }
{
    low <= values.len() && values.len() <= high
}

// Returns whether a value is an array of `low` to `high` tables.
fn are_tables(value: &Value, low: usize, high: usize) -> bool
    ensures { result ≡ are_tables low high (view value.now) }
{
    match array_in(value) {
        None => false,
        Some(values) => has_length(values, low, high) && all_tables(values),
    }
}

/// Returns whether there is an array of `low` to `high` tables at a key; `absent` if the key is absent.
pub fn tables_at(absent: bool, table: &Value, key: &str, low: usize, high: usize) -> bool
    ensures { result ≡ tables_at absent key.now low high (view table.now) }
{
    match table.get(key) {
        None => absent,
        Some(value) => are_tables(value, low, high),
    }
}

// Returns whether a value is an array of 1 to 8 sections.
fn are_sections(value: &Value) -> bool
    ensures { result ≡ are_sections (view value.now) }
{
    match array_in(value) {
        None => false,
        Some(values) => has_length(values, 1, 8) && all_sections(values),
    }
}

/// Returns whether there is an array of 1 to 8 sections at a key.
pub fn sections_at(table: &Value, key: &str) -> bool
    ensures { result ≡ sections_at key.now (view table.now) }
{
    match table.get(key) {
        None => false,
        Some(value) => are_sections(value),
    }
}
