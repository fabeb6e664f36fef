//! A table of options: a row is the name of an option, its value, and its line of the usage.
ghost use Rattle.std.specs.Prelude.{◌≡◌, IfOk, find, map, option_map};
ghost use Rattle.std.specs.Str.{bytes_eq};
ghost use Rattle.word_faults.specs.OptionRows as spec;

use crate::job_values::{base_of, clock_sharing_of, declare_by_of, start_of};
use crate::lists::{buffer_list, number_list};
use crate::name_lists::{name_list, network_in};
use crate::scaled::{Scale, scaled_in};
use devices::number_in;
use pes_packet::is_unit_id;
use std::alloc::{AllocError, Global};

/// What follows the word of an option.
#[derive(Clone, Copy)]
pub enum ValueKind {
    /// Nothing: the option is given or not.
    Flag,
    /// No value, and no other word is allowed beside it.
    Alone,
    /// No option, but a word that is allowed beside the options; the usage has no line for it.
    Word,
    /// A number of this range, and its default, if there is one.
    Number {
        least: u64,
        greatest: u64,
        default: Option<u64>,
    },
    /// The same, and a unit may follow the number.
    Scaled {
        scale: Scale,
        least: u64,
        greatest: u64,
        default: Option<u64>,
    },
    /// Numbers up to this one, with commas between them.
    Numbers {
        greatest: u16,
    },
    /// Buffers of PIDs, `PID:RX:MAIN,..`.
    Buffers,
    /// A stream_id of units: 189, or 192 to 239.
    StreamId,
    /// A moment, `YYYY-MM-DDThh:mm:ss`.
    Moment,
    /// How packets are declared, `groups|time`.
    Declare,
    /// Which programs share a clock, `each|one`.
    Clock,
    /// The value of the system clock when a run begins: a number of its range, or the word `input`.
    Base,
    /// A network, `ID:NAME[:ORIGINAL]`.
    Network,
    /// Names of services, `N:NAME[:PROVIDER],..`.
    Names,
    /// The name of a file.
    File,
}

/// An option of a program. It is generic in how its texts are held: a constant of a type that is not, and holds a
/// reference, has no name in a specification.
#[derive(Clone, Copy)]
pub struct Row<Text> {
    /// Its name: its word without the two hyphens.
    pub name: Text,
    /// Its value.
    pub value: ValueKind,
    /// How the usage writes its value; a number without a form has its range.
    pub form: Text,
    /// The unit of the numbers of its value; empty if it has none.
    pub unit: Text,
    /// The word of the option that this option excludes; empty if there is none.
    pub apart: Text,
    /// What it is for, in a line.
    pub help: Text,
}

/// A row of a table that is a constant.
pub type OptionRow = Row<&'static str>;

// Returns the name after the two hyphens of a word.
fn name_in(word: &str) -> Option<&[u8]>
    ensures { option_map (λ s. s.now) result ≡ spec.name_in word.now }
{
    word.as_bytes().strip_prefix(b"--")
}

// Returns the row of this name.
fn row_named<'a>(options: &'a [OptionRow], name: &[u8]) -> Option<&'a OptionRow>
    ensures { option_map (λ row. row.now) result ≡ find (λ row. bytes_eq row.name.now name.now) options.now }
{
    options.iter().find(|row| row.name.as_bytes() == name)
}

/// Returns the value of the option of this name; none if there is no such option.
#[tactic(auto, unfolding(crate::specs::OptionRows::kind_named))]
pub(crate) fn kind_named(options: &[OptionRow], name: &[u8]) -> Option<ValueKind>
    ensures { result ≡ spec.kind_named (map spec.view options.now) name.now }
{
    match row_named(options, name) {
        Some(row) => Some(row.value),
        None => None,
    }
}

/// Returns the row of the option of this word.
pub(crate) fn row_of<'a>(options: &'a [OptionRow], word: &str) -> Option<&'a OptionRow>
    ensures { option_map (λ row. spec.view row.now) result ≡ spec.row_of (map spec.view options.now) word.now }
{
    match name_in(word) {
        Some(name) => row_named(options, name),
        None => None,
    }
}

/// Returns the word of the option that the option of this word excludes; empty if there is none.
#[tactic(auto, unfolding(crate::specs::OptionRows::apart_of))]
pub(crate) fn apart_of(options: &[OptionRow], word: &str) -> &'static str
    ensures { result.now ≡ spec.apart_of (map spec.view options.now) word.now }
{
    match row_of(options, word) {
        Some(row) => row.apart,
        None => "",
    }
}

/// Returns the value of the option of this word; none if there is no such option.
pub(crate) fn kind_of(options: &[OptionRow], word: &str) -> Option<ValueKind>
    ensures { result ≡ spec.kind_of (map spec.view options.now) word.now }
{
    match name_in(word) {
        Some(name) => kind_named(options, name),
        None => None,
    }
}

// Returns whether a text is a stream_id of units.
fn is_id(text: &str) -> bool
    ensures { result ≡ spec.is_id text.now }
{
    match number_in(text, 0, 255) {
        Some(id) => is_unit_id(id as u8),
        None => false,
    }
}

/// Returns whether a text is a value of this kind.
#[tactic(auto, unfolding(crate::specs::OptionRows::is_value))]
pub(crate) fn is_value(alloc: Global, kind: ValueKind, text: &str) -> Result<bool, AllocError>
    ensures { IfOk result (λ b. b ≡ spec.is_value kind text.now) }
{
    match kind {
        ValueKind::Flag | ValueKind::Alone | ValueKind::Word => Ok(false),
        ValueKind::Number {
            least,
            greatest,
            ..
        } => Ok(number_in(text, least, greatest).is_some()),
        ValueKind::Scaled {
            scale,
            least,
            greatest,
            ..
        } => Ok(scaled_in(text, scale, least, greatest).is_some()),
        ValueKind::Numbers { greatest } => Ok(number_list(alloc, greatest, Some(text))?.is_some()),
        ValueKind::Buffers => Ok(buffer_list(alloc, Some(text))?.is_some()),
        ValueKind::StreamId => Ok(is_id(text)),
        ValueKind::Moment => Ok(start_of(Some(text)).is_some()),
        ValueKind::Declare => Ok(declare_by_of(Some(text)).is_some()),
        ValueKind::Clock => Ok(clock_sharing_of(Some(text)).is_some()),
        ValueKind::Base => Ok(base_of(Some(text)).is_some()),
        ValueKind::Network => Ok(network_in(alloc, text)?.is_some()),
        ValueKind::Names => Ok(name_list(alloc, Some(text))?.is_some()),
        ValueKind::File => Ok(true),
    }
}
