//! The key `lcn` of a program: its logical_channel_number (IEC 62216).

ghost use Rattle.std.specs.Prelude.{◌≡◌, ◌≤◌, IfSome};
ghost use Rattle.std.specs.List.{list_any};
ghost use Rattle.toml.specs.View.{view};
ghost use Rattle.description_keys.specs.ProgramKeys.{program_channel, channel_of, has_channel, is_other};
ghost use Rattle.description_keys.specs.ProgramKeys.{takes_channel, is_taken, refuses_channel};

use crate::owner::{has_number, program_number};
use description_values::arrays::elements;
use description_values::values::optional_integer;
use toml::Value;

// Returns the number, if the program has one: 1 to 1,023; `None` if the key is refused.
fn channel(program: &Value) -> Option<Option<u16>>
    ensures value { result ≡ program_channel (view program.now) }
    ensures bound { IfSome result (λ o. IfSome o (λ n. n ≤ 1023)) }
{
    match optional_integer(program, "lcn", 1, 1_023)? {
        None => Some(None),
        Some(channel) => Some(Some(channel as u16)),
    }
}

/// Returns the number, 1 to 1,023; `None` also if the key is refused.
pub fn channel_of(program: &Value) -> Option<u16>
    ensures value { result ≡ channel_of (view program.now) }
    ensures bound { IfSome result (λ n. n ≤ 1023) }
{
    match channel(program) {
        None => None,
        Some(channel) => channel,
    }
}

fn has_channel(channel: u16, program: &Value) -> bool
    ensures { result ≡ has_channel channel (view program.now) }
{
    channel_of(program) == Some(channel)
}

fn is_other(program: &Value, other: &Value) -> bool
    ensures { result ≡ is_other (view program.now) (view other.now) }
{
    match program_number(program) {
        None => true,
        Some(number) => !has_number(number, other),
    }
}

// Returns whether a program of another number has the channel.
fn takes_channel(program: &Value, channel: u16, other: &Value) -> bool
    ensures { result ≡ takes_channel (view program.now) channel (view other.now) }
{
    has_channel(channel, other) && is_other(program, other)
}

fn one_takes_channel(program: &Value, channel: u16, others: &[Value]) -> bool
    ensures { result ≡ list_any (λ v. takes_channel (view program.now) channel (view v)) others.now }
{
    others
        .iter()
        .any(|other| takes_channel(program, channel, other))
}

fn is_taken(document: &Value, program: &Value, channel: u16) -> bool
    ensures { result ≡ is_taken (view document.now) (view program.now) channel }
{
    one_takes_channel(program, channel, elements(document, "program"))
}

/// Returns whether the key is refused: out of its range, without a network, or the channel of another program.
pub(crate) fn refuses_channel(document: &Value, program: &Value) -> bool
    ensures { result ≡ refuses_channel (view document.now) (view program.now) }
{
    match channel(program) {
        None => true,
        Some(None) => false,
        Some(Some(channel)) => {
            document.get("network").is_none() || is_taken(document, program, channel)
        }
    }
}
