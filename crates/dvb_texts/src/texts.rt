//! Texts of service information as characters (EN 300 468, annex A).

ghost use Rattle.std.specs.Prelude.{◌≡◌, ◌≤◌, ◌++◌, [], if◌then◌else◌, None, Some, IfOk, length, option_map};
ghost use Rattle.std.specs.Char.{is_control, encode_utf8};
ghost use Rattle.std.specs.Str.{NoCharPasses, chars, is_utf8};
ghost use Rattle.std.specs.String.{string_bytes};
ghost use Rattle.dvb_tables.specs.CharacterCoding.{text_bytes};
ghost use Rattle.dvb_texts.specs.Texts as spec;

use crate::character_sets::{UNREAD, by_part, in_doubles, unread_characters};
use dvb_tables::{UTF_8, is_plain};
use std::alloc::{AllocError, Allocator};

// First bytes of a text (EN 300 468, table A.3): ISO/IEC 10646 in two bytes, and a part of ISO/IEC 8859 by two more
// bytes.
const UTF_16: u8 = 0x11;

const NAMED_PART: u8 = 0x10;

// The least first byte that names no character table.
const FIRST_CHARACTER: u8 = 0x20;

// Returns the characters of a text whose bytes are UTF-8.
fn utf8_text(bytes: &[u8]) -> Option<&str>
    ensures { option_map (λ text. text.now) result ≡ (if is_utf8 bytes.now then Some bytes.now else None) }
{
    match str::from_utf8(bytes) {
        Ok(text) => Some(text),
        Err(_) => None,
    }
}

fn utf8_characters<A: Allocator>(alloc: A, text: &str) -> Result<Vec<char, A>, AllocError>
    ensures { IfOk result (λ cs. cs.items ≡ chars text.now) }
{
    text.chars().collect(alloc)
}

// Returns the characters of UTF-8.
#[tactic(auto, unfolding(crate::specs::Texts::by_utf8))]
fn by_utf8<A: Allocator>(alloc: A, bytes: &[u8]) -> Result<Vec<char, A>, AllocError>
    ensures { IfOk result (λ cs. cs.items ≡ spec.by_utf8 bytes.now) }
{
    match utf8_text(bytes) {
        Some(text) => utf8_characters(alloc, text),
        None => unread_characters(alloc, bytes),
    }
}

// Returns the characters of a text that names no table: UTF-8 if its bytes are, otherwise the default table.
#[tactic(auto, unfolding(crate::specs::Texts::by_default_table))]
fn by_default_table<A: Allocator>(alloc: A, bytes: &[u8]) -> Result<Vec<char, A>, AllocError>
    ensures { IfOk result (λ cs. cs.items ≡ spec.by_default_table bytes.now) }
{
    match utf8_text(bytes) {
        Some(text) => utf8_characters(alloc, text),
        None => in_doubles(alloc, false, bytes),
    }
}

// Returns the characters of the part of ISO/IEC 8859 that two bytes name.
#[tactic(auto, unfolding(crate::specs::Texts::by_named_part))]
fn by_named_part<A: Allocator>(alloc: A, bytes: &[u8]) -> Result<Vec<char, A>, AllocError>
    ensures { IfOk result (λ cs. cs.items ≡ spec.by_named_part bytes.now) }
{
    match bytes {
        [zero, part, rest @ ..] => {
            if *zero == 0 {
                by_part(alloc, *part, rest)
            } else {
                unread_characters(alloc, rest)
            }
        }
        _ => unread_characters(alloc, bytes),
    }
}

#[tactic(auto, unfolding(crate::specs::Texts::by_selected_table))]
fn by_selected_table<A: Allocator>(
    alloc: A,
    selector: u8,
    bytes: &[u8],
) -> Result<Vec<char, A>, AllocError>
    ensures { IfOk result (λ cs. cs.items ≡ spec.by_selected_table selector bytes.now) }
{
    if selector == UTF_8 {
        return by_utf8(alloc, bytes);
    }
    if selector == UTF_16 {
        return in_doubles(alloc, true, bytes);
    }
    if selector == NAMED_PART {
        return by_named_part(alloc, bytes);
    }
    if 1 <= selector && selector <= 11 {
        return by_part(alloc, selector + 4, bytes);
    }
    unread_characters(alloc, bytes)
}

#[tactic(auto, unfolding(crate::specs::Texts::read_characters))]
fn read_characters<A: Allocator>(alloc: A, bytes: &[u8]) -> Result<Vec<char, A>, AllocError>
    ensures { IfOk result (λ cs. cs.items ≡ spec.read_characters bytes.now) }
{
    match bytes {
        [] => Ok(Vec::new(alloc)),
        [first, rest @ ..] => {
            if *first < FIRST_CHARACTER {
                by_selected_table(alloc, *first, rest)
            } else {
                by_default_table(alloc, bytes)
            }
        }
    }
}

// Returns a character as it is shown: a control code of two bytes as the code of one byte, and a question mark for an
// unreadable character.
#[tactic(auto, unfolding(crate::specs::Texts::shown_character))]
fn shown_character(character: char) -> char
    ensures { result ≡ spec.shown_character character }
{
    let code = character as u32;
    if 0xe080 <= code && code < 0xe0a0 {
        return (code - 0xe000) as u8 as char;
    }
    if character == UNREAD { '?' } else { character }
}

#[tactic(auto, unfolding(crate::specs::Texts::characters))]
fn characters<A: Allocator + Copy>(alloc: A, bytes: &[u8]) -> Result<Vec<char, A>, AllocError>
    ensures { IfOk result (λ cs. cs.items ≡ spec.characters bytes.now) }
{
    let read = read_characters(alloc, bytes)?;
    read.iter()
        .map(|character| shown_character(*character))
        .collect(alloc)
}

/// Returns whether a character of a text of service information can't be read.
#[tactic(auto, unfolding(crate::specs::Texts::has_unread))]
pub fn has_unread<A: Allocator>(alloc: A, bytes: &[u8]) -> Result<bool, AllocError>
    ensures { IfOk result (λ has. has ≡ spec.has_unread bytes.now) }
{
    let read = read_characters(alloc, bytes)?;
    Ok(read.iter().any(|character| *character == UNREAD))
}

// Returns whether a text has at most `max_bytes` bytes as it is written: one more than its own if it is marked as
// UTF-8.
#[tactic(auto, unfolding(crate::specs::Texts::fits))]
fn fits(max_bytes: usize, text: &[u8]) -> bool
    ensures { result ≡ spec.fits max_bytes text.now }
{
    if is_plain(text) {
        text.len() <= max_bytes
    } else {
        text.len() < max_bytes
    }
}

// Adds a character if it fits, and says whether it does.
fn push_fitting<A: Allocator>(
    max_bytes: usize,
    text: &mut String<A>,
    character: char,
) -> Result<bool, AllocError>
    ensures room { IfOk result (λ has. has ≡ spec.fits max_bytes (string_bytes text.old ++ encode_utf8 character)) }
    ensures text { IfOk result (λ has. string_bytes text.new ≡
        (if has then string_bytes text.old ++ encode_utf8 character else string_bytes text.old)) }
{
    let before = text.len();
    text.push(character)?;
    let has_room = fits(max_bytes, text.as_bytes());
    if !has_room {
        text.truncate(before);
    }
    Ok(has_room)
}

// Returns the first characters, as many as fit.
fn fitting<A: Allocator>(
    alloc: A,
    max_bytes: usize,
    characters: &[char],
) -> Result<String<A>, AllocError>
    ensures { IfOk result (λ text. string_bytes text ≡ spec.fitting max_bytes [] (spec.printable characters.now)) }
{
    let mut text = String::new(alloc);
    for character in characters {
        if character.is_control() {
            continue;
        }
        if !push_fitting(max_bytes, &mut text, *character)? {
            return Ok(text);
        }
    }
    Ok(text)
}

/// Returns a text of service information as characters, without control characters, cut before the first character that
/// would make it longer than `max_bytes` bytes as a descriptor writes it (`dvb_tables::Text`).
///
/// The first byte names a table: parts of ISO/IEC 8859, ISO/IEC 10646, or UTF-8. A text without a table is UTF-8 if all
/// of it is, and otherwise ISO/IEC 6937. A question mark replaces each character that can't be read: from any other
/// table, or missing in its table.
#[tactic(auto, unfolding(crate::specs::Texts::decode_text), using(crate::proofs::FittingText::decoded_within))]
pub fn decode_text<A: Allocator + Copy>(
    alloc: A,
    bytes: &[u8],
    max_bytes: usize,
) -> Result<String<A>, AllocError>
    ensures value { IfOk result (λ text. string_bytes text ≡ spec.decode_text max_bytes bytes.now) }
    ensures within { IfOk result (λ text. length (text_bytes (string_bytes text)) ≤ max_bytes) }
    ensures printable { IfOk result (λ text. NoCharPasses is_control (string_bytes text)) }
{
    let characters = characters(alloc, bytes)?;
    fitting(alloc, max_bytes, &characters)
}
