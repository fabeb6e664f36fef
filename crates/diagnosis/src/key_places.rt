//! The place of a description's key in its text.

ghost use Rattle.std.specs.Prelude.{◌≡◌, ◌++◌, IfOk, OnOk, map, nat_eq, option_map, string_bytes};
ghost use Rattle.std.specs.List.{starts_with};
ghost use Rattle.diagnosis.specs.KeyPlaces as spec;

use std::alloc::{AllocError, Global};
use std::fmt::Write;

/// Returns the lines of a text.
pub fn lines_of<'a>(alloc: Global, text: &'a str) -> Result<Vec<&'a str>, AllocError>
    ensures { IfOk result (λ lines. map (λ s. s.now) lines.items ≡ spec.lines_of text.entry.now) }
{
    text.split('\n').collect(alloc)
}

/// Returns whether a byte is a space or a tab.
pub fn is_blank(byte: u8) -> bool
    ensures { result ≡ spec.is_blank byte }
{
    byte == b' ' || byte == b'\t'
}

/// Returns a line without the spaces and tabs before it.
#[tactic(auto, unfolding(crate::specs::KeyPlaces::unindented))]
pub fn unindented(line: &[u8]) -> &[u8]
    ensures { result.now ≡ spec.unindented line.entry.now }
{
    let mut rest = line;
    'blanks: while let Some((byte, later)) = rest.split_first() {
        if !is_blank(*byte) {
            return rest;
        }
        rest = later;
    }
    rest
}

/// Returns whether a line begins with a word, after spaces and tabs.
pub fn begins(line: &[u8], word: &[u8]) -> bool
    ensures { result ≡ spec.begins line.now word.now }
{
    unindented(line).starts_with(word)
}

/// Returns whether a line begins with this key and an equals sign.
pub fn has_key(key: &[u8], line: &[u8]) -> bool
    ensures { result ≡ spec.has_key key.now line.now }
{
    let line = unindented(line);
    line.starts_with(key) && begins(&line[key.len()..], b"=")
}

// Returns whether a table is the last of its name: `own` if it has this name, `left` tables of this name to go.
fn is_last(own: bool, left: u128) -> bool
    ensures { result ≡ spec.is_last own left }
{
    left == 1 && own
}

// Returns how many tables of this name follow a table; `own` if it has this name.
fn heads_after(own: bool, left: u128) -> u128
    ensures { result ≡ spec.heads_after own left }
{
    if own { left.saturating_sub(1) } else { left }
}

// Returns whether a line has this key, inside its table.
fn is_found(inside: bool, key: &[u8], line: &[u8]) -> bool
    ensures { result ≡ spec.is_found inside key.now line.now }
{
    inside && has_key(key, line)
}

// Returns a key's line and its number: `at_once` if the lines begin inside its table, otherwise after `heads` heads of
// its name.
fn key_row<'a>(
    head: &[u8],
    key: &[u8],
    at_once: bool,
    heads: u128,
    lines: &[&'a str],
) -> Option<(usize, &'a str)>
    ensures { option_map (λ row. (row.0, row.1.now)) result
        ≡ spec.key_row head.now key.now at_once heads 1 (map (λ s. s.now) lines.now) }
{
    let mut inside = at_once;
    let mut left = heads;
    for (i, line) in lines.iter().enumerate() {
        let bytes = line.as_bytes();
        if begins(bytes, b"[") {
            let own = begins(bytes, head);
            inside = is_last(own, left);
            left = heads_after(own, left);
        } else if is_found(inside, key, bytes) {
            return Some((i + 1, line));
        }
    }
    None
}

/// Returns the line of a key of the document, which is before all heads.
pub fn top_row<'a>(key: &str, lines: &[&'a str]) -> Option<(usize, &'a str)>
    ensures { option_map (λ row. (row.0, row.1.now)) result ≡ spec.top_row key.now (map (λ s. s.now) lines.now) }
{
    key_row(b"", key.as_bytes(), true, 0, lines)
}

/// Returns the line of a key of the table with this number.
pub fn table_row<'a>(
    head: &str,
    item: usize,
    key: &str,
    lines: &[&'a str],
) -> Option<(usize, &'a str)>
    ensures { option_map (λ row. (row.0, row.1.now)) result
        ≡ spec.table_row head.now item key.now (map (λ s. s.now) lines.now) }
{
    key_row(
        head.as_bytes(),
        key.as_bytes(),
        false,
        item as u128 + 1,
        lines,
    )
}

/// Appends the number and the column of a line, and the line itself.
pub fn write_place(
    number: usize,
    column: u128,
    line: &str,
    text: &mut String,
) -> Result<(), AllocError>
    ensures { OnOk result (string_bytes text.new
        ≡ string_bytes text.old ++ spec.place_words number column line.now) }
{
    write!(text, "line {number}, column {column}: {line}: ")
}

// Returns the column at which a line begins.
fn column_of(line: &[u8]) -> u128
    ensures { result ≡ spec.column_of line.now }
{
    line.len().saturating_sub(unindented(line).len()) as u128 + 1
}

/// Appends the place of a key, if it is on a line of its own.
#[tactic(auto, unfolding(crate::specs::KeyPlaces::row_words))]
pub fn write_row(row: Option<(usize, &str)>, text: &mut String) -> Result<(), AllocError>
    ensures { OnOk result (string_bytes text.new
        ≡ string_bytes text.old ++ spec.row_words (option_map (λ row. (row.0, row.1.now)) row.entry)) }
{
    match row {
        None => Ok(()),
        Some((number, line)) => write_place(number, column_of(line.as_bytes()), line, text),
    }
}
