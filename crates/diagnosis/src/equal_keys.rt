//! Keys whose values are equal and may not be.

ghost use Rattle.std.specs.Prelude.{◌≡◌, ◌+◌, ◌++◌, OnOk, drop, map, option_map, string_bytes};
ghost use Rattle.diagnosis.specs.EqualKeys as spec;

use crate::key_places::{has_key, is_blank, unindented, write_row};
use std::alloc::AllocError;

/// Keys whose values may not be equal.
#[derive(Clone, Copy)]
pub enum EqualKeys {
    /// `clock_pid`, `pmt_pid`, `pcr_pid` and `pid`.
    Pids,
    /// `number` of programs.
    Numbers,
}

/// The number of a line, from 1, and the line.
type Row<'a> = (usize, &'a str);

// Returns whether a value ends before this byte.
fn ends_value(byte: u8) -> bool
    ensures { result ≡ spec.ends_value byte }
{
    is_blank(byte) || byte == b'\r' || byte == b'#'
}

/// Returns the bytes up to a space, a tab, the end of a line or a comment.
pub fn first_word(bytes: &[u8]) -> &[u8]
    ensures { result.now ≡ spec.first_word bytes.entry.now }
{
    for (i, byte) in bytes.iter().enumerate() {
        if ends_value(*byte) {
            return &bytes[..i];
        }
    }
    bytes
}

// Returns the value after an equals sign.
fn after_equals(bytes: &[u8]) -> Option<&[u8]>
    ensures { option_map (λ s. s.now) result ≡ spec.after_equals bytes.entry.now }
{
    let (_, value) = bytes.split_first()?;
    Some(first_word(unindented(value)))
}

// Returns the value of a key on its line.
fn key_value<'a>(key: &[u8], line: &'a [u8]) -> Option<&'a [u8]>
    ensures { option_map (λ s. s.now) result ≡ spec.key_value key.now line.entry.now }
{
    if has_key(key, line) {
        after_equals(unindented(&unindented(line)[key.len()..]))
    } else {
        None
    }
}

// Returns the value on a line with a key of this kind.
#[tactic(auto, unfolding(crate::specs::EqualKeys::value_on))]
fn value_on(keys: EqualKeys, line: &str) -> Option<&[u8]>
    ensures { option_map (λ s. s.now) result ≡ spec.value_on keys line.entry.now }
{
    let line = line.as_bytes();
    match keys {
        EqualKeys::Pids => key_value(b"clock_pid", line)
            .or(key_value(b"pmt_pid", line))
            .or(key_value(b"pcr_pid", line))
            .or(key_value(b"pid", line)),
        EqualKeys::Numbers => key_value(b"number", line),
    }
}

// Returns whether `other` is a value and equals `value`.
fn is_value(value: &[u8], other: Option<&[u8]>) -> bool
    ensures { result ≡ spec.is_value value.now (option_map (λ s. s.now) other.entry) }
{
    match other {
        Some(other) => value == other,
        None => false,
    }
}

// Returns the first line with this value, from the line at an index on.
fn row_with<'a>(keys: EqualKeys, value: &[u8], first: usize, lines: &[&'a str]) -> Option<Row<'a>>
    ensures { option_map (λ row. (row.0, row.1.now)) result
        ≡ spec.row_with keys value.now (first + 1) (map (λ s. s.now) (drop first lines.now)) }
{
    for i in first..lines.len() {
        let line = lines[i];
        if is_value(value, value_on(keys, line)) {
            return Some((i + 1, line));
        }
    }
    None
}

// Returns the first line with this value, if there is a value.
fn row_like<'a>(
    keys: EqualKeys,
    value: Option<&[u8]>,
    first: usize,
    lines: &[&'a str],
) -> Option<Row<'a>>
    ensures { option_map (λ row. (row.0, row.1.now)) result
        ≡ spec.row_like keys (option_map (λ s. s.now) value.entry) (first + 1)
        (map (λ s. s.now) (drop first lines.now)) }
{
    match value {
        Some(value) => row_with(keys, value, first, lines),
        None => None,
    }
}

// Returns the first line whose value occurs again, and the next line that has it.
fn equal_rows<'a>(keys: EqualKeys, lines: &[&'a str]) -> Option<(Row<'a>, Row<'a>)>
    ensures { option_map (λ rows. ((rows.0.0, rows.0.1.now), (rows.1.0, rows.1.1.now))) result
        ≡ spec.equal_rows keys 1 (map (λ s. s.now) lines.now) }
{
    for (i, line) in lines.iter().enumerate() {
        if let Some(other) = row_like(keys, value_on(keys, line), i + 1, lines) {
            return Some(((i + 1, line), other));
        }
    }
    None
}

// Appends the places of both lines.
#[tactic(auto, unfolding(crate::specs::EqualKeys::both_places))]
fn write_places(rows: Option<(Row<'_>, Row<'_>)>, text: &mut String) -> Result<(), AllocError>
    ensures { OnOk result (string_bytes text.new ≡ string_bytes text.old ++ spec.both_places
        (option_map (λ rows. ((rows.0.0, rows.0.1.now), (rows.1.0, rows.1.1.now))) rows.entry)) }
{
    match rows {
        None => Ok(()),
        Some((first, second)) => {
            write_row(Some(first), text)?;
            write_row(Some(second), text)
        }
    }
}

// Returns the sentence for equal values.
#[tactic(auto, unfolding(crate::specs::EqualKeys::equal_words))]
fn equal_words(keys: EqualKeys) -> &'static str
    ensures { result.now ≡ spec.equal_words keys }
{
    match keys {
        EqualKeys::Pids => "two PIDs are equal\n",
        EqualKeys::Numbers => "two program numbers are equal\n",
    }
}

/// Appends the line of two keys that are equal.
pub fn write_equal(lines: &[&str], keys: EqualKeys, text: &mut String) -> Result<(), AllocError>
    ensures { OnOk result (string_bytes text.new
        ≡ string_bytes text.old ++ spec.equal_line (map (λ s. s.now) lines.now) keys) }
{
    write_places(equal_rows(keys, lines), text)?;
    text.push_str(equal_words(keys))
}
