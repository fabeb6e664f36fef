//! The comment beside a number, for people.

ghost use Rattle.std.specs.Prelude.{◌≡◌, ◌/◌, ◌++◌, ◌<◌, ◌≤◌, OnOk, string_bytes};
ghost use Rattle.std.specs.List.{list_all};
ghost use Rattle.job_text.specs.Notes as spec;
ghost use Rattle.job_text.specs.declared.measure.Measure.TheVariants.{Seconds};

use crate::measure::Measure;
use crate::profile_words::write_said;
use std::alloc::{AllocError, Allocator};
use std::fmt::Write;
use stream_coding::ProfileLevel;

// Appends the last three digits of a number after a comma.
#[tactic(auto, unfolding(crate::specs::Notes::group))]
fn write_group<A: Allocator>(text: &mut String<A>, number: u64) -> Result<(), AllocError>
    ensures { OnOk result (string_bytes text.new ≡ string_bytes text.old ++ spec.group number) }
{
    let (hundreds, tens, ones) = (number / 100 % 10, number / 10 % 10, number % 10);
    write!(text, ",{hundreds}{tens}{ones}")
}

// Appends the last six digits of a number in groups.
fn write_two_groups<A: Allocator>(text: &mut String<A>, number: u64) -> Result<(), AllocError>
    ensures { OnOk result (string_bytes text.new ≡ string_bytes text.old
        ++ (spec.group (number / 1_000) ++ spec.group number)) }
{
    write_group(text, number / 1_000)?;
    write_group(text, number)
}

// Appends a number, its digits in groups of three.
#[tactic(auto, unfolding(crate::specs::Notes::grouped))]
fn write_grouped<A: Allocator>(text: &mut String<A>, number: u64) -> Result<(), AllocError>
    ensures { OnOk result (string_bytes text.new ≡ string_bytes text.old ++ spec.grouped number) }
{
    if number < 1_000 {
        write!(text, "{number}")
    } else if number < 1_000_000 {
        write!(text, "{}", number / 1_000)?;
        write_group(text, number)
    } else if number < 1_000_000_000 {
        write!(text, "{}", number / 1_000_000)?;
        write_two_groups(text, number)
    } else {
        write!(text, "{}", number / 1_000_000_000)?;
        write_group(text, number / 1_000_000)?;
        write_two_groups(text, number)
    }
}

// Appends thousandths after a point, if there are any.
#[tactic(auto, unfolding(crate::specs::Notes::thousandths))]
fn write_thousandths<A: Allocator>(text: &mut String<A>, number: u64) -> Result<(), AllocError>
    ensures { OnOk result (string_bytes text.new ≡ string_bytes text.old ++ spec.thousandths number) }
{
    if number == 0 {
        return Ok(());
    }
    let (hundreds, tens, ones) = (number / 100 % 10, number / 10 % 10, number % 10);
    write!(text, ".{hundreds}{tens}{ones}")
}

// Appends a number of parts of a whole.
#[tactic(auto, unfolding(crate::specs::Notes::quotient))]
fn write_quotient<A: Allocator>(
    text: &mut String<A>,
    whole: u64,
    number: u64,
) -> Result<(), AllocError>
    requires some { 0 < whole }
    requires small { whole ≤ 90_000 }
    ensures { OnOk result (string_bytes text.new ≡ string_bytes text.old ++ spec.quotient whole number) }
{
    write_grouped(text, number / whole)?;
    write_thousandths(text, number % whole * 1_000 / whole)
}

// Appends a time in milliseconds, or in seconds.
fn write_time<A: Allocator>(
    text: &mut String<A>,
    whole: u64,
    number: u64,
    unit: &str,
) -> Result<(), AllocError>
    requires some { 0 < whole }
    requires small { whole ≤ 90_000 }
    ensures { OnOk result (string_bytes text.new ≡ string_bytes text.old
        ++ spec.note (spec.quotient whole number ++ unit.now)) }
{
    text.push_str(" # ")?;
    write_quotient(text, whole, number)?;
    text.push_str(unit)
}

// Appends a number of bytes, or of bits a second.
fn write_amount<A: Allocator>(
    text: &mut String<A>,
    number: u64,
    unit: &str,
) -> Result<(), AllocError>
    ensures { OnOk result (string_bytes text.new ≡ string_bytes text.old
        ++ spec.note (spec.grouped number ++ unit.now)) }
{
    text.push_str(" # ")?;
    write_grouped(text, number)?;
    text.push_str(unit)
}

// Appends two digits.
#[tactic(auto, unfolding(crate::specs::Notes::two_digits))]
fn write_two_digits<A: Allocator>(text: &mut String<A>, number: u64) -> Result<(), AllocError>
    ensures { OnOk result (string_bytes text.new ≡ string_bytes text.old ++ spec.two_digits number) }
{
    let (tens, ones) = (number / 10 % 10, number % 10);
    write!(text, "{tens}{ones}")
}

// Appends a number of seconds as hours, minutes and seconds.
fn write_duration<A: Allocator>(text: &mut String<A>, number: u64) -> Result<(), AllocError>
    ensures { OnOk result (string_bytes text.new ≡ string_bytes text.old
        ++ spec.number_note Seconds number) }
{
    text.push_str(" # ")?;
    write!(text, "{}", number / 3_600)?;
    text.push_str(":")?;
    write_two_digits(text, number / 60 % 60)?;
    text.push_str(":")?;
    write_two_digits(text, number % 60)
}

// Returns the name of a stream_type, empty if it has none.
#[tactic(auto, unfolding(crate::specs::Notes::stream_type_name))]
fn stream_type_name(stream_type: u64) -> &'static str
    ensures { result.now ≡ spec.stream_type_name stream_type }
{
    match stream_type {
        1 => "MPEG-1 video",
        2 => "MPEG-2 video",
        3 => "MPEG-1 audio",
        4 => "MPEG-2 audio",
        6 => "private data: its descriptors say which",
        15 => "AAC audio, ADTS",
        17 => "AAC audio, LATM",
        21 => "metadata",
        27 => "H.264 video",
        33 => "JPEG 2000 video",
        36 => "H.265 video",
        129 => "AC-3 audio",
        135 => "Enhanced AC-3 audio",
        _ => "",
    }
}

// Returns the name of a service_type, empty if it has none.
#[tactic(auto, unfolding(crate::specs::Notes::service_type_name))]
fn service_type_name(service_type: u64) -> &'static str
    ensures { result.now ≡ spec.service_type_name service_type }
{
    match service_type {
        1 => "digital television",
        2 => "digital radio",
        3 => "teletext",
        10 => "digital radio, advanced codec",
        12 => "data broadcast",
        17 => "digital television, MPEG-2 HD",
        22 => "digital television, H.264 SD",
        25 => "digital television, H.264 HD",
        31 => "digital television, H.265",
        _ => "",
    }
}

// Appends a name, if there is one.
#[tactic(auto, unfolding(crate::specs::Notes::note_if_any))]
fn write_name<A: Allocator>(text: &mut String<A>, name: &str) -> Result<(), AllocError>
    ensures { OnOk result (string_bytes text.new ≡ string_bytes text.old ++ spec.note_if_any name.now) }
{
    if name.is_empty() {
        return Ok(());
    }
    text.push_str(" # ")?;
    text.push_str(name)
}

// Returns whether a comment may have all these bytes.
fn are_named(bytes: &[u8]) -> bool
    ensures { result ≡ list_all spec.is_named bytes.now }
{
    bytes.iter().all(|byte| 32 <= *byte && *byte != 127)
}

/// Appends the comment beside descriptors: the name in them, if it has characters and no control character.
#[tactic(auto, unfolding(crate::specs::Notes::name_note))]
pub(crate) fn write_name_note<A: Allocator>(
    text: &mut String<A>,
    name: &str,
) -> Result<(), AllocError>
    ensures { OnOk result (string_bytes text.new ≡ string_bytes text.old ++ spec.name_note name.now) }
{
    if name.is_empty() || !are_named(name.as_bytes()) {
        return Ok(());
    }
    text.push_str(" # ")?;
    text.push_str(name)
}

/// Appends the comment beside a stream_type, if it has a name: its name, and what the headers of the stream say.
#[tactic(auto, unfolding(crate::specs::Notes::type_note))]
pub(crate) fn write_type_note<A: Allocator>(
    text: &mut String<A>,
    stream_type: u64,
    said: ProfileLevel,
) -> Result<(), AllocError>
    ensures { OnOk result (string_bytes text.new ≡ string_bytes text.old ++ spec.type_note stream_type said) }
{
    let name = stream_type_name(stream_type);
    if name.is_empty() {
        return Ok(());
    }
    text.push_str(" # ")?;
    text.push_str(name)?;
    write_said(text, said)
}

/// Appends the comment beside a number, if its measure has one.
pub(crate) fn write_note<A: Allocator>(
    text: &mut String<A>,
    measure: Measure,
    number: u64,
) -> Result<(), AllocError>
    ensures { OnOk result (string_bytes text.new ≡ string_bytes text.old ++ spec.number_note measure number) }
{
    match measure {
        Measure::Plain => Ok(()),
        Measure::Ticks => write_time(text, 90, number, " ms"),
        Measure::Clock => write_time(text, 90_000, number, " s"),
        Measure::BitRate => write_amount(text, number, " bits/s"),
        Measure::Bytes => write_amount(text, number, " bytes"),
        Measure::Milliseconds => text.push_str(" # ms"),
        Measure::Seconds => write_duration(text, number),
        Measure::ServiceType => write_name(text, service_type_name(number)),
    }
}
