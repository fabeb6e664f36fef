//! The parts of a line.
ghost use Rattle.std.specs.Prelude.{◌≡◌, ◌++◌, IfOk, OnOk, flat_map, string_bytes};
ghost use Rattle.std.specs.Str.{chars};
ghost use Rattle.event_lines.specs.FieldViews.{value_view};
ghost use Rattle.event_lines.specs.ReportLines as spec;

use std::alloc::{AllocError, Global};
use std::fmt::Write;
use std::marker::Model;

/// The value of a field.
#[derive(Clone, Copy)]
pub enum FieldValue {
    Number(u128),
    /// A number below 0, without its sign.
    Below(u128),
    Word(&'static str),
    /// A moment in ticks, which is written in seconds.
    Seconds(u128),
}

/// A field of a line.
#[derive(Drop)]
pub struct Field {
    pub name: &'static str,
    pub value: FieldValue,
}

impl Model for Field {
    ghost use Rattle.event_lines.specs.FieldViews.{FieldView, value_view};

    ghost Value = { FieldView };

    ghost view = { λ f. record { name = f.name.now; value = value_view f.value } };
}

/// Returns a field with a number.
#[tactic(auto, unfolding(crate::specs::FieldViews::value_view))]
pub(crate) fn number(name: &'static str, value: u128) -> Field
    ensures { result ≡ spec.number_field name.now value }
{
    Field {
        name,
        value: FieldValue::Number(value),
    }
}

/// Returns a field with the difference of two numbers, at least one 0.
#[tactic(auto, unfolding(crate::specs::FieldViews::value_view))]
pub(crate) fn signed(name: &'static str, above: u128, below: u128) -> Field
    ensures { result ≡ spec.signed_field name.now above below }
{
    if below > 0 {
        Field {
            name,
            value: FieldValue::Below(below),
        }
    } else {
        number(name, above)
    }
}

/// Returns a field with a word.
#[tactic(auto, unfolding(crate::specs::FieldViews::value_view))]
pub(crate) fn word(name: &'static str, value: &'static str) -> Field
    ensures { result ≡ spec.word_field name.now value.now }
{
    Field {
        name,
        value: FieldValue::Word(value),
    }
}

/// Returns a field with a moment in seconds.
#[tactic(auto, unfolding(crate::specs::FieldViews::value_view))]
pub(crate) fn seconds(name: &'static str, ticks: u128) -> Field
    ensures { result ≡ spec.seconds_field name.now ticks }
{
    Field {
        name,
        value: FieldValue::Seconds(ticks),
    }
}

/// Appends a moment in seconds, rounded down to milliseconds.
pub fn write_seconds(text: &mut String, ticks: u128) -> Result<(), AllocError>
    ensures { OnOk result (string_bytes text.new ≡ string_bytes text.old ++ spec.seconds_text ticks) }
{
    let millis = ticks / 27_000;
    let (whole, tenths) = (millis / 1_000, millis / 100 % 10);
    let (hundredths, thousandths) = (millis / 10 % 10, millis % 10);
    write!(text, "{whole}.{tenths}{hundredths}{thousandths}")
}

#[tactic(auto, unfolding(crate::specs::ReportLines::value_text, crate::specs::FieldViews::value_view))]
fn write_value(text: &mut String, json: bool, value: FieldValue) -> Result<(), AllocError>
    ensures { OnOk result (string_bytes text.new ≡ string_bytes text.old ++ spec.value_text json (value_view value)) }
{
    match value {
        FieldValue::Number(number) => write!(text, "{number}"),
        FieldValue::Below(number) => write!(text, "-{number}"),
        FieldValue::Word(word) => {
            if json {
                write!(text, "\"{word}\"")
            } else {
                text.push_str(word)
            }
        }
        FieldValue::Seconds(ticks) => write_seconds(text, ticks),
    }
}

/// Appends the name of a field.
pub(crate) fn write_name(text: &mut String, json: bool, name: &str) -> Result<(), AllocError>
    ensures { OnOk result (string_bytes text.new ≡ string_bytes text.old ++ spec.name_text json name.now) }
{
    if json {
        write!(text, ",\"{name}\":")
    } else {
        write!(text, " {name} ")
    }
}

/// Appends a field.
pub(crate) fn write_field(text: &mut String, json: bool, field: &Field) -> Result<(), AllocError>
    ensures { OnOk result (string_bytes text.new ≡ string_bytes text.old ++ spec.field_text json (field.now)) }
{
    write_name(text, json, field.name)?;
    write_value(text, json, field.value)
}

/// Appends a field with a number, if there is one.
#[tactic(auto, unfolding(crate::specs::ReportLines::number_text))]
pub(crate) fn write_number_if(
    text: &mut String,
    json: bool,
    name: &'static str,
    value: Option<u64>,
) -> Result<(), AllocError>
    ensures { OnOk result (string_bytes text.new ≡ string_bytes text.old ++ spec.number_text json name.now value) }
{
    match value {
        None => Ok(()),
        Some(value) => write_field(text, json, &number(name, u128::from(value))),
    }
}

/// Appends fields.
pub(crate) fn write_fields(
    text: &mut String,
    json: bool,
    fields: &[Field],
) -> Result<(), AllocError>
    ensures { OnOk result (string_bytes text.new
        ≡ string_bytes text.old ++ flat_map (spec.field_text json) (fields.now)) }
{
    for field in fields {
        write_field(text, json, field)?;
    }
    Ok(())
}

/// Appends how a line of a word begins.
pub(crate) fn write_first(text: &mut String, json: bool, word: &str) -> Result<(), AllocError>
    ensures { OnOk result (string_bytes text.new ≡ string_bytes text.old ++ spec.first_text json word.now) }
{
    if json {
        text.push_str("{\"line\":\"")?;
        write!(text, "{word}\"")
    } else {
        text.push_str(word)
    }
}

/// Appends how a line ends.
pub(crate) fn write_last(text: &mut String, json: bool) -> Result<(), AllocError>
    ensures { OnOk result (string_bytes text.new ≡ string_bytes text.old ++ spec.last_text json) }
{
    if json {
        text.push_str("}\n")
    } else {
        text.push_str("\n")
    }
}

fn write_escaped(text: &mut String, character: char) -> Result<(), AllocError>
    ensures { OnOk result (string_bytes text.new ≡ string_bytes text.old ++ spec.escaped character) }
{
    if character == '"' || character == '\\' {
        text.push_str("\\")?;
    }
    text.push(character)
}

fn write_each_escaped(text: &mut String, characters: &[char]) -> Result<(), AllocError>
    ensures { OnOk result (string_bytes text.new ≡ string_bytes text.old ++ flat_map spec.escaped characters.now) }
{
    for character in characters {
        write_escaped(text, *character)?;
    }
    Ok(())
}

fn characters_of(alloc: Global, text: &str) -> Result<Vec<char>, AllocError>
    ensures { IfOk result (λ cs. cs.items ≡ chars text.now) }
{
    text.chars().collect(alloc)
}

/// Appends a text between quotation marks.
pub(crate) fn write_quoted(alloc: Global, text: &mut String, quoted: &str) -> Result<(), AllocError>
    ensures { OnOk result (string_bytes text.new ≡ string_bytes text.old ++ spec.quoted quoted.now) }
{
    let characters = characters_of(alloc, quoted)?;
    text.push_str("\"")?;
    write_each_escaped(text, &characters)?;
    text.push_str("\"")
}

/// Appends a line without its end.
pub(crate) fn write_line(
    text: &mut String,
    json: bool,
    word: &str,
    fields: &[Field],
) -> Result<(), AllocError>
    ensures { OnOk result (string_bytes text.new
        ≡ string_bytes text.old ++ spec.line_of json word.now (fields.now)) }
{
    write_first(text, json, word)?;
    write_fields(text, json, fields)
}
