//! The first key or table of a text that no description has.

ghost use Rattle.std.specs.Prelude.{◌≡◌, ◌+◌, ◌++◌, IfOk, OnOk, [], map, option_map, string_bytes};
ghost use Rattle.description_keys.specs.KeyRows.{rule_of, view};
ghost use Rattle.description_keys.specs.Refusals.{names_of as keys_of};
ghost use Rattle.description_keys.specs.Rules.{names_in};
ghost use Rattle.word_faults.specs.Hints.{nearest as nearest_of};
ghost use Rattle.diagnosis.specs.UnknownWords as spec;

use crate::equal_keys::first_word;
use crate::key_places::{begins, unindented, write_row};
use description_keys::keys::keys;
use description_keys::known_keys::is_known;
use description_keys::{KeyPart, KeyRow};
use std::alloc::{AllocError, Global};
use std::fmt::Write;
use std::str;
use word_faults::nearest;

/// The number of a line, from 1, the line, and the part that it is in; no part if its head is unknown.
type UnknownRow<'a> = (usize, &'a str, Option<KeyPart>);

// Returns the part that a head begins, if a description has this head.
fn part_on(word: &[u8]) -> Option<KeyPart>
    ensures { result ≡ spec.part_on word.now }
{
    if word == b"[network]".as_slice() {
        Some(KeyPart::Network)
    } else if word == b"[[program]]".as_slice() {
        Some(KeyPart::Program)
    } else if word == b"[[stream]]".as_slice() {
        Some(KeyPart::Stream)
    } else if word == b"[[event]]".as_slice() {
        Some(KeyPart::Event)
    } else if word == b"[[table]]".as_slice() {
        Some(KeyPart::Table)
    } else if word == b"[[network.stream]]".as_slice() {
        Some(KeyPart::NetworkStream)
    } else {
        None
    }
}

// Returns the bytes before an equals sign; none if there is none.
fn before_equals(line: &str) -> Option<&[u8]>
    ensures { option_map (λ s. s.now) result ≡ spec.before_equals line.entry.now }
{
    match line.split_once('=') {
        Some((front, _)) => Some(front.as_bytes()),
        None => None,
    }
}

// Returns the first word of a line: a head, or a key before an equals sign; empty for any other line.
fn word_on(line: &str) -> &[u8]
    ensures { result.now ≡ spec.word_on line.entry.now }
{
    let bytes = line.as_bytes();
    if begins(bytes, b"[") {
        return first_word(unindented(bytes));
    }
    match before_equals(line) {
        Some(front) => first_word(unindented(front)),
        None => b"",
    }
}

// Returns whether a word is a bare key: not empty, and without quotation marks before it.
fn is_bare(word: &[u8]) -> bool
    ensures { result ≡ spec.is_bare word.now }
{
    match word {
        [first, ..] => *first != b'"' && *first != b'\'',
        [] => false,
    }
}

// Returns whether a part has no key with the name of a word.
fn has_unknown_key(part: KeyPart, word: &[u8]) -> bool
    ensures { result ≡ spec.has_unknown_key part word.now }
{
    is_bare(word) && !is_known(part, word)
}

// Returns the first line with a key or a head that no description has.
#[tactic(auto, unfolding(crate::specs::UnknownWords::unknown_row))]
fn unknown_row<'a>(lines: &[&'a str]) -> Option<UnknownRow<'a>>
    ensures { option_map (λ row. (row.0, (row.1.now, row.2))) result
        ≡ spec.unknown_row spec.document 1 (map (λ s. s.now) lines.now) }
{
    let mut part = KeyPart::Document;
    for i in 0..lines.len() {
        let line = lines[i];
        let word = word_on(line);
        if begins(line.as_bytes(), b"[") {
            match part_on(word) {
                None => return Some((i + 1, line, None)),
                Some(next) => part = next,
            }
        } else if has_unknown_key(part, word) {
            return Some((i + 1, line, Some(part)));
        }
    }
    None
}

// Copies of names.
fn copies_of(alloc: Global, names: &[&str]) -> Result<Vec<String>, AllocError>
    ensures { IfOk result (λ all. map (λ s. string_bytes s) all.items ≡ map (λ s. s.now) names.now) }
{
    let mut all = Vec::new(alloc);
    for name in names {
        let mut copy = String::new(alloc);
        copy.push_str(name)?;
        all.push(copy)?;
    }
    Ok(all)
}

// Copies of the names of a part's keys, among these rows.
fn key_names(alloc: Global, part: KeyPart, rows: &[KeyRow]) -> Result<Vec<String>, AllocError>
    ensures { IfOk result (λ all. map (λ s. string_bytes s) all.items
        ≡ names_in part (map (λ row. rule_of (view row)) rows.now)) }
{
    let mut all = Vec::new(alloc);
    for row in rows {
        if row.0.is_part(part) {
            let mut copy = String::new(alloc);
            copy.push_str(row.2)?;
            all.push(copy)?;
        }
    }
    Ok(all)
}

// Copies of the names of a part's keys.
fn part_names(alloc: Global, part: KeyPart) -> Result<Vec<String>, AllocError>
    ensures { IfOk result (λ all. map (λ s. string_bytes s) all.items ≡ keys_of part) }
{
    key_names(alloc, part, keys())
}

// Copies of the names that may be meant in a part; of heads if there is no part.
#[tactic(auto, unfolding(crate::specs::UnknownWords::names_of))]
fn meant_names(alloc: Global, part: Option<KeyPart>) -> Result<Vec<String>, AllocError>
    ensures { IfOk result (λ all. map (λ s. string_bytes s) all.items ≡ spec.names_of part) }
{
    match part {
        None => copies_of(
            alloc,
            &[
                "[network]",
                "[[network.stream]]",
                "[[program]]",
                "[[stream]]",
                "[[event]]",
                "[[table]]",
            ],
        ),
        Some(part) => part_names(alloc, part),
    }
}

// Appends the name that may be meant, and the end of the line.
#[tactic(auto, unfolding(crate::specs::UnknownWords::meant_words))]
fn write_meant(near: Option<&str>, text: &mut String) -> Result<(), AllocError>
    ensures { OnOk result (string_bytes text.new
        ≡ string_bytes text.old ++ spec.meant_words (option_map (λ s. s.now) near.entry)) }
{
    match near {
        Some(near) => write!(text, "; did you mean {near}?\n"),
        None => text.push_str("\n"),
    }
}

// Appends the nearest name that may be meant, if one is near, and the end of the line.
fn write_near(
    alloc: Global,
    part: Option<KeyPart>,
    word: &str,
    text: &mut String,
) -> Result<(), AllocError>
    ensures { OnOk result (string_bytes text.new ≡ string_bytes text.old
        ++ spec.meant_words (nearest_of (spec.names_of part) word.now)) }
{
    let names = meant_names(alloc, part)?;
    write_meant(nearest(alloc, &names, word)?, text)
}

// Returns the kind of an unknown word: a table, or a key.
fn kind_of(part: Option<KeyPart>) -> &'static str
    ensures { result.now ≡ spec.kind_of part }
{
    match part {
        None => "unknown table ",
        Some(_) => "unknown key ",
    }
}

// Appends which kind of word is unknown, and the word.
fn write_pair(kind: &str, word: &str, text: &mut String) -> Result<(), AllocError>
    ensures { OnOk result (string_bytes text.new ≡ string_bytes text.old ++ (kind.now ++ word.now)) }
{
    text.push_str(kind)?;
    text.push_str(word)
}

// Appends an unknown word, and the name that may be meant.
fn write_named(
    alloc: Global,
    part: Option<KeyPart>,
    word: &str,
    text: &mut String,
) -> Result<(), AllocError>
    ensures { OnOk result (string_bytes text.new ≡ string_bytes text.old ++ spec.named_words part word.now) }
{
    write_pair(kind_of(part), word, text)?;
    write_near(alloc, part, word, text)
}

// Appends that a key is unknown.
fn write_unnamed(text: &mut String) -> Result<(), AllocError>
    ensures { OnOk result (string_bytes text.new ≡ string_bytes text.old ++ spec.unnamed_words) }
{
    text.push_str("unknown key\n")
}

// Appends the line for the bytes of an unknown word.
fn write_word(
    alloc: Global,
    part: Option<KeyPart>,
    word: &[u8],
    text: &mut String,
) -> Result<(), AllocError>
    ensures { OnOk result (string_bytes text.new ≡ string_bytes text.old ++ spec.word_words part word.now) }
{
    match str::from_utf8(word) {
        Ok(word) => write_named(alloc, part, word, text),
        Err(_) => write_unnamed(text),
    }
}

/// Appends the line of the first key or table that no description has; its place only if it is on a line of its own.
pub(crate) fn write_unknown(
    alloc: Global,
    lines: &[&str],
    text: &mut String,
) -> Result<(), AllocError>
    ensures { OnOk result (string_bytes text.new
        ≡ string_bytes text.old ++ spec.unknown_line (map (λ s. s.now) lines.now)) }
{
    let Some((number, line, part)) = unknown_row(lines) else {
        return write_unnamed(text);
    };
    write_row(Some((number, line)), text)?;
    write_word(alloc, part, word_on(line), text)
}
