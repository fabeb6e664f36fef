//! A key with its value, on a line.

ghost use Rattle.std.specs.Prelude.{◌≡◌, ◌++◌, OnOk, codes, map, pos, string_bytes};
ghost use Rattle.hex.specs.Hex.{encode_lower};
ghost use Rattle.toml_writer.specs.Text.{string_text};
ghost use Rattle.std.specs.List.{flat_map};
ghost use Rattle.toml.specs.Data.{string, integer, boolean, array};
ghost use Rattle.job_text.specs.KeyLines.{key_line, named_line, noted_line, number_line, field_line, table_header, header, hex_line, list_line};
ghost use Rattle.job_text.specs.Notes.{type_note};
ghost use Rattle.job_text.specs.KeyLines.{next_number, array_line, digits_of, next_digits};
ghost use Rattle.job_text.specs.KeyLines.{number_if_any, number_lines, set_line};

use crate::measure::measure_of;
use crate::note::{write_name_note, write_note, write_type_note};
use std::alloc::{AllocError, Allocator, Global};
use std::fmt;
use std::fmt::Write;
use stream_coding::ProfileLevel;

// A string in the first of TOML's forms that needs no escape.
#[derive(Clone, Copy)]
struct Quoted<'a> {
    text: &'a str,
}

impl fmt::Display for Quoted<'_> {
    ghost use Rattle.std.specs.Prelude.{Some};
    ghost use Rattle.toml_writer.specs.Text.{string_text};

    ghost output = { λ q. Some (string_text q.text.now) };

    fn fmt<W: fmt::Write>(&self, f: &mut fmt::Formatter<W>) -> fmt::Result {
        toml_writer::write_string(f, self.text)
    }
}

#[tactic(auto, unfolding(crate::specs::KeyLines::key_line))]
pub(crate) fn write_number<A: Allocator>(
    text: &mut String<A>,
    key: &str,
    number: u64,
) -> Result<(), AllocError>
    ensures { OnOk result (string_bytes text.new ≡ string_bytes text.old ++ number_line (key.now, number)) }
{
    text.push_str(key)?;
    text.push_str(" = ")?;
    write!(text, "{number}")?;
    write_note(text, measure_of(key), number)?;
    text.push_str("\n")
}

/// Appends the line of a stream_type, with the profile and level in the stream's headers.
#[tactic(auto, unfolding(crate::specs::KeyLines::noted_line))]
pub(crate) fn write_type<A: Allocator>(
    text: &mut String<A>,
    stream_type: u64,
    said: ProfileLevel,
) -> Result<(), AllocError>
    ensures { OnOk result (string_bytes text.new ≡ string_bytes text.old
        ++ noted_line (codes "type") (integer (pos stream_type)) (type_note stream_type said)) }
{
    write!(text, "type = {stream_type}")?;
    write_type_note(text, stream_type, said)?;
    text.push_str("\n")
}

// Appends a key with its number.
fn write_field<A: Allocator>(text: &mut String<A>, field: &(&str, u64)) -> Result<(), AllocError>
    ensures { OnOk result (string_bytes text.new ≡ string_bytes text.old ++ field_line field.now) }
{
    let (key, number) = field;
    write_number(text, key, *number)
}

/// Appends each key with its number.
pub(crate) fn write_numbers<A: Allocator>(
    text: &mut String<A>,
    fields: &[(&str, u64)],
) -> Result<(), AllocError>
    ensures { OnOk result (string_bytes text.new ≡ string_bytes text.old ++ flat_map field_line fields.now) }
{
    for field in fields {
        write_field(text, field)?;
    }
    Ok(())
}

/// Appends a key with its number, and no line without a number.
pub(crate) fn write_if_any<A: Allocator>(
    text: &mut String<A>,
    key: &str,
    number: Option<u16>,
) -> Result<(), AllocError>
    ensures { OnOk result (string_bytes text.new ≡ string_bytes text.old
        ++ number_lines (number_if_any key.now number)) }
{
    match number {
        None => Ok(()),
        Some(number) => write_number(text, key, number as u64),
    }
}

#[tactic(auto, unfolding(crate::specs::KeyLines::key_line))]
pub(crate) fn write_flag<A: Allocator>(
    text: &mut String<A>,
    key: &str,
    flag: bool,
) -> Result<(), AllocError>
    ensures { OnOk result (string_bytes text.new ≡ string_bytes text.old ++ key_line key.now (boolean flag)) }
{
    write!(text, "{key} = {flag}\n")
}

/// Appends a key with `true`, and no line if the flag is not set.
pub(crate) fn write_set<A: Allocator>(
    text: &mut String<A>,
    key: &str,
    flag: bool,
) -> Result<(), AllocError>
    ensures { OnOk result (string_bytes text.new ≡ string_bytes text.old ++ set_line key.now flag) }
{
    if flag {
        write_flag(text, key, true)
    } else {
        Ok(())
    }
}

#[tactic(auto, unfolding(crate::specs::KeyLines::key_line))]
pub(crate) fn write_string<A: Allocator>(
    text: &mut String<A>,
    key: &str,
    value: &str,
) -> Result<(), AllocError>
    ensures { OnOk result (string_bytes text.new ≡ string_bytes text.old ++ key_line key.now (string value.now)) }
{
    let value = Quoted { text: value };
    write!(text, "{key} = {value}\n")
}

/// Appends bytes as pairs of lower-case hexadecimal digits, and no line if there are none.
#[tactic(auto, unfolding(crate::specs::KeyLines::hex_line))]
pub(crate) fn write_hex<A: Allocator + Clone>(
    text: &mut String<A>,
    key: &str,
    bytes: &[u8],
) -> Result<(), AllocError>
    ensures { OnOk result (string_bytes text.new ≡ string_bytes text.old ++ hex_line key.now bytes.now) }
{
    if bytes.is_empty() {
        return Ok(());
    }
    let digits = hex::encode(text.allocator().clone()?, bytes)?;
    write_string(text, key, digits.as_str())
}

/// Appends bytes as pairs of lower-case hexadecimal digits, with the name in them as a comment.
#[tactic(auto, unfolding(crate::specs::KeyLines::noted_line))]
pub(crate) fn write_named<A: Allocator + Clone>(
    text: &mut String<A>,
    key: &str,
    bytes: &[u8],
    name: &str,
) -> Result<(), AllocError>
    ensures { OnOk result (string_bytes text.new ≡ string_bytes text.old ++ named_line key.now bytes.now name.now) }
{
    let digits = hex::encode(text.allocator().clone()?, bytes)?;
    let value = Quoted {
        text: digits.as_str(),
    };
    write!(text, "{key} = {value}")?;
    write_name_note(text, name)?;
    text.push_str("\n")
}

// Appends the numbers of an array after its first.
fn write_next_numbers<A: Allocator>(text: &mut String<A>, numbers: &[u16]) -> Result<(), AllocError>
    ensures { OnOk result (string_bytes text.new ≡ string_bytes text.old ++ flat_map next_number numbers.now) }
{
    for number in numbers {
        write!(text, ", {number}")?;
    }
    Ok(())
}

// Appends a key with the array of a number and the numbers after it.
fn write_array<A: Allocator>(
    text: &mut String<A>,
    key: &str,
    first: u16,
    others: &[u16],
) -> Result<(), AllocError>
    ensures { OnOk result (string_bytes text.new ≡ string_bytes text.old ++ array_line key.now first others.now) }
{
    write!(text, "{key} = [{first}")?;
    write_next_numbers(text, others)?;
    write!(text, "]\n")
}

/// Appends numbers as an array, and no line if there are none.
#[tactic(auto, using(crate::proofs::FlatArrays::list_written), unfolding(crate::specs::KeyLines::list_line))]
pub(crate) fn write_list<A: Allocator>(
    text: &mut String<A>,
    key: &str,
    numbers: &[u16],
) -> Result<(), AllocError>
    ensures { OnOk result (string_bytes text.new ≡ string_bytes text.old ++ list_line key.now numbers.now) }
{
    match numbers.split_first() {
        None => Ok(()),
        Some((first, others)) => write_array(text, key, *first, others),
    }
}

// Appends the sums of an array after its first.
fn write_next_sums<A: Allocator>(text: &mut String<A>, sums: &[u32]) -> Result<(), AllocError>
    ensures { OnOk result (string_bytes text.new ≡ string_bytes text.old ++ flat_map next_number sums.now) }
{
    for sum in sums {
        write!(text, ", {sum}")?;
    }
    Ok(())
}

// Appends a key with the array of a sum and the sums after it.
fn write_sums_array<A: Allocator>(
    text: &mut String<A>,
    key: &str,
    first: u32,
    others: &[u32],
) -> Result<(), AllocError>
    ensures { OnOk result (string_bytes text.new ≡ string_bytes text.old ++ array_line key.now first others.now) }
{
    write!(text, "{key} = [{first}")?;
    write_next_sums(text, others)?;
    write!(text, "]\n")
}

/// Appends sums of bytes as an array, and no line if there are none.
#[tactic(auto, using(crate::proofs::FlatArrays::list_written), unfolding(crate::specs::KeyLines::list_line))]
pub(crate) fn write_sums<A: Allocator>(
    text: &mut String<A>,
    key: &str,
    sums: &[u32],
) -> Result<(), AllocError>
    ensures { OnOk result (string_bytes text.new ≡ string_bytes text.old ++ list_line key.now sums.now) }
{
    match sums.split_first() {
        None => Ok(()),
        Some((first, others)) => write_sums_array(text, key, *first, others),
    }
}

/// Appends bytes as pairs of lower-case hexadecimal digits, also if there are none.
pub(crate) fn write_digits(
    alloc: Global,
    text: &mut String,
    key: &str,
    bytes: &[u8],
) -> Result<(), AllocError>
    ensures { OnOk result (string_bytes text.new
        ≡ string_bytes text.old ++ key_line key.now (string (encode_lower bytes.now))) }
{
    let digits = hex::encode(alloc, bytes)?;
    write_string(text, key, digits.as_str())
}

// Appends bytes as a string of digits after another string.
fn write_next(alloc: Global, text: &mut String, bytes: &[u8]) -> Result<(), AllocError>
    ensures { OnOk result (string_bytes text.new ≡ string_bytes text.old ++ next_digits bytes.now) }
{
    let digits = hex::encode(alloc, bytes)?;
    let value = Quoted {
        text: digits.as_str(),
    };
    write!(text, ", {value}")
}

// Appends the strings of an array after its first.
fn write_next_digits(alloc: Global, text: &mut String, parts: &[Vec<u8>]) -> Result<(), AllocError>
    ensures { OnOk result (string_bytes text.new
        ≡ string_bytes text.old ++ flat_map (λ b. next_digits b.items) parts.now) }
{
    for part in parts {
        write_next(alloc, text, part)?;
    }
    Ok(())
}

// Appends a key with the first string of an array.
fn write_first(alloc: Global, text: &mut String, key: &str, bytes: &[u8]) -> Result<(), AllocError>
    ensures { OnOk result (string_bytes text.new
        ≡ string_bytes text.old ++ (key.now ++ (codes " = [" ++ string_text (encode_lower bytes.now)))) }
{
    let digits = hex::encode(alloc, bytes)?;
    let value = Quoted {
        text: digits.as_str(),
    };
    write!(text, "{key} = [{value}")
}

// Appends a key with an array of strings of digits.
fn write_digits_array(
    alloc: Global,
    text: &mut String,
    key: &str,
    first: &[u8],
    others: &[Vec<u8>],
) -> Result<(), AllocError>
    ensures { OnOk result (string_bytes text.new ≡ string_bytes text.old
        ++ ((key.now ++ (codes " = [" ++ string_text (encode_lower first.now)))
        ++ (flat_map (λ b. next_digits b.items) others.now ++ codes "]\n"))) }
{
    write_first(alloc, text, key, first)?;
    write_next_digits(alloc, text, others)?;
    write!(text, "]\n")
}

/// Appends bytes as strings of digits, in an array.
#[tactic(auto, using(crate::proofs::FlatArrays::digits_all), unfolding(crate::specs::KeyLines::key_line))]
pub(crate) fn write_digits_list(
    alloc: Global,
    text: &mut String,
    key: &str,
    parts: &[Vec<u8>],
) -> Result<(), AllocError>
    ensures { OnOk result (string_bytes text.new
        ≡ string_bytes text.old ++ key_line key.now (array (digits_of (map (λ b. b.items) parts.now)))) }
{
    match parts.split_first() {
        None => write!(text, "{key} = []\n"),
        Some((first, others)) => write_digits_array(alloc, text, key, first, others),
    }
}

/// Appends the header of a table.
#[tactic(auto, unfolding(crate::specs::KeyLines::table_header))]
pub(crate) fn write_table_header<A: Allocator>(
    text: &mut String<A>,
    key: &str,
) -> Result<(), AllocError>
    ensures { OnOk result (string_bytes text.new ≡ string_bytes text.old ++ table_header key.now) }
{
    write!(text, "\n[{key}]\n")
}

/// Appends the header of an element of an array of tables.
#[tactic(auto, unfolding(crate::specs::KeyLines::header))]
pub(crate) fn write_header<A: Allocator>(text: &mut String<A>, key: &str) -> Result<(), AllocError>
    ensures { OnOk result (string_bytes text.new ≡ string_bytes text.old ++ header key.now) }
{
    write!(text, "\n[[{key}]]\n")
}
