//! Bytes as characters by the tables of EN 300 468, annex A.

ghost use Rattle.std.specs.Prelude.{◌≡◌, ◌≤◌, IfOk, length, map};
ghost use Rattle.dvb_texts.specs.CharacterTables as spec;

use crate::character_tables::{
    ISO_6937, ISO_6937_MARKED, ISO_8859_2, ISO_8859_3, ISO_8859_4, ISO_8859_5, ISO_8859_6,
    ISO_8859_7, ISO_8859_8, ISO_8859_9, ISO_8859_10, ISO_8859_11, ISO_8859_13, ISO_8859_14,
    ISO_8859_15,
};
use std::alloc::{AllocError, Allocator};

/// The replacement for a character that can't be read.
pub(crate) const UNREAD: char = '\u{fffd}';

// Returns the character of a byte, by a table.
#[tactic(auto, unfolding(crate::specs::CharacterTables::table_character))]
fn table_character(table: &[char; 96], byte: u8) -> char
    ensures { result ≡ spec.table_character table.now byte }
{
    if byte < 0xa0 {
        byte as char
    } else {
        table[(byte - 0xa0) as usize]
    }
}

fn by_table<A: Allocator>(
    alloc: A,
    table: &[char; 96],
    bytes: &[u8],
) -> Result<Vec<char, A>, AllocError>
    ensures { IfOk result (λ cs. cs.items ≡ spec.by_table table.now bytes.now) }
{
    let mut characters = Vec::new(alloc);
    for byte in bytes {
        characters.push(table_character(table, *byte))?;
    }
    Ok(characters)
}

// Returns the character of a byte of ISO/IEC 8859-1.
#[tactic(auto, unfolding(crate::specs::CharacterTables::latin_character))]
fn latin_character(byte: u8) -> char
    ensures { result ≡ spec.latin_character byte }
{
    byte as char
}

fn latin_characters<A: Allocator>(alloc: A, bytes: &[u8]) -> Result<Vec<char, A>, AllocError>
    ensures { IfOk result (λ cs. cs.items ≡ map spec.latin_character bytes.now) }
{
    bytes
        .iter()
        .map(|byte| latin_character(*byte))
        .collect(alloc)
}

// Returns the character of a byte by a table that is not read.
#[tactic(auto, unfolding(crate::specs::CharacterTables::unread_character))]
fn unread_character(byte: u8) -> char
    ensures { result ≡ spec.unread_character byte }
{
    if byte < 0xa0 { byte as char } else { UNREAD }
}

/// Returns the characters of a table that is not read.
pub(crate) fn unread_characters<A: Allocator>(
    alloc: A,
    bytes: &[u8],
) -> Result<Vec<char, A>, AllocError>
    ensures { IfOk result (λ cs. cs.items ≡ map spec.unread_character bytes.now) }
{
    bytes
        .iter()
        .map(|byte| unread_character(*byte))
        .collect(alloc)
}

/// Returns the characters of a part of ISO/IEC 8859.
#[tactic(auto, unfolding(crate::specs::CharacterTables::by_part))]
pub(crate) fn by_part<A: Allocator>(
    alloc: A,
    part: u8,
    bytes: &[u8],
) -> Result<Vec<char, A>, AllocError>
    ensures { IfOk result (λ cs. cs.items ≡ spec.by_part part bytes.now) }
{
    match part {
        1 => latin_characters(alloc, bytes),
        2 => by_table(alloc, &ISO_8859_2, bytes),
        3 => by_table(alloc, &ISO_8859_3, bytes),
        4 => by_table(alloc, &ISO_8859_4, bytes),
        5 => by_table(alloc, &ISO_8859_5, bytes),
        6 => by_table(alloc, &ISO_8859_6, bytes),
        7 => by_table(alloc, &ISO_8859_7, bytes),
        8 => by_table(alloc, &ISO_8859_8, bytes),
        9 => by_table(alloc, &ISO_8859_9, bytes),
        10 => by_table(alloc, &ISO_8859_10, bytes),
        11 => by_table(alloc, &ISO_8859_11, bytes),
        13 => by_table(alloc, &ISO_8859_13, bytes),
        14 => by_table(alloc, &ISO_8859_14, bytes),
        15 => by_table(alloc, &ISO_8859_15, bytes),
        _ => unread_characters(alloc, bytes),
    }
}

// Returns whether a pair has this mark and this letter.
fn is_pair(pair: &((u8, u8), char), mark: u8, letter: u8) -> bool
    ensures { result ≡ spec.is_pair pair.now mark letter }
{
    pair.0.0 == mark && pair.0.1 == letter
}

// Returns the character of a diacritical mark and a letter.
fn marked(pairs: &[((u8, u8), char)], mark: u8, letter: u8) -> char
    ensures { result ≡ spec.marked pairs.now mark letter }
{
    for pair in pairs {
        if is_pair(pair, mark, letter) {
            return pair.1;
        }
    }
    UNREAD
}

// Returns the character of two bytes of UTF-16.
#[tactic(auto, unfolding(crate::specs::CharacterTables::wide_character))]
fn wide_character(high: u8, low: u8) -> char
    ensures { result ≡ spec.wide_character high low }
{
    if 0xd8 <= high && high < 0xe0 {
        return UNREAD;
    }
    match char::from_u32(u32::from(high) * 256 + u32::from(low)) {
        Some(character) => character,
        None => UNREAD,
    }
}

// Returns whether a byte and the next byte are one character.
#[tactic(auto, unfolding(crate::specs::CharacterTables::is_double))]
fn is_double(wide: bool, byte: u8) -> bool
    ensures { result ≡ spec.is_double wide byte }
{
    if wide {
        true
    } else {
        0xc1 <= byte && byte < 0xd0
    }
}

#[tactic(auto, unfolding(crate::specs::CharacterTables::double_character))]
fn double_character(wide: bool, first: u8, second: u8) -> char
    ensures { result ≡ spec.double_character wide first second }
{
    if wide {
        wide_character(first, second)
    } else {
        marked(&ISO_6937_MARKED, first, second)
    }
}

#[tactic(auto, unfolding(crate::specs::CharacterTables::single_character))]
fn single_character(wide: bool, byte: u8) -> char
    ensures { result ≡ spec.single_character wide byte }
{
    if wide {
        UNREAD
    } else {
        table_character(&ISO_6937, byte)
    }
}

// Returns the character that begins with a byte, and the bytes after it.
#[tactic(auto, unfolding(crate::specs::CharacterTables::next_character))]
fn next_character(wide: bool, first: u8, rest: &[u8]) -> (char, &[u8])
    ensures value { (result.0, result.1.now) ≡ spec.next_character wide first rest.now }
    ensures bound { length result.1.now ≤ length rest.now }
{
    match rest {
        [] => (single_character(wide, first), rest),
        [second, later @ ..] => {
            if is_double(wide, first) {
                (double_character(wide, first, *second), later)
            } else {
                (single_character(wide, first), rest)
            }
        }
    }
}

/// Returns the characters of ISO/IEC 10646 in two bytes each, if `wide`; otherwise the characters of ISO/IEC 6937.
pub(crate) fn in_doubles<A: Allocator>(
    alloc: A,
    wide: bool,
    bytes: &[u8],
) -> Result<Vec<char, A>, AllocError>
    ensures { IfOk result (λ cs. cs.items ≡ spec.in_doubles wide bytes.now) }
{
    let mut characters = Vec::new(alloc);
    let mut left = bytes;
    while let Some((first, rest)) = left.split_first() {
        let next = next_character(wide, *first, rest);
        characters.push(next.0)?;
        left = next.1;
    }
    Ok(characters)
}
