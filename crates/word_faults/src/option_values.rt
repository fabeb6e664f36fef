//! The values that a command line gives to the options of a table, as `clap` reads them.
ghost use Rattle.std.specs.Prelude.{◌≡◌, ◌≤◌, true, false, max, min, unwrap_or, IfOk, IfSome, map, option_map};
ghost use Rattle.clap.specs.Words.{FailsBy, app_of, fault_of, found_of, is_simple_and_free, matches_of, rows_of};
ghost use Rattle.clap.specs.declared.builder.command.Command.TheViews.{out-Command as fields_of};
ghost use Rattle.devices.specs.Options as stated;
ghost use Rattle.devices.specs.Options.{number_option};
ghost use Rattle.word_faults.specs.GivenOptions as spec;
ghost use Rattle.word_faults.specs.OptionRows.{view};

use crate::lists::number_list;
use crate::option_row::{OptionRow, ValueKind, kind_named};
use crate::scaled::{Scale, scaled_in};
use clap::error::ErrorKind;
use clap::{Arg, ArgMatches, Command, Error};
use devices::{flag, number_given, number_in, option, text_of};
use std::alloc::{AllocError, Global};

// Returns a command line with the option of one more row.
fn with_option<'a>(
    alloc: Global,
    command: Command<'a>,
    row: OptionRow,
) -> Result<Command<'a>, AllocError>
    requires { (fields_of command).has_globals ≡ false }
    ensures app { IfOk result (λ c. app_of c ≡ spec.with_option (app_of command.entry) (view row.entry)) }
    ensures local { IfOk result (λ c. (fields_of c).has_globals ≡ false) }
{
    match row.value {
        ValueKind::Alone => Ok(command),
        ValueKind::Word => command.arg(Arg::new(alloc, row.name)),
        ValueKind::Flag => command.arg(flag(alloc, row.name)),
        _ => command.arg(option(alloc, row.name)),
    }
}

// Returns a command line with the options of all rows.
#[tactic(auto, unfolding(crate::specs::GivenOptions::with_options))]
fn with_options<'a>(
    alloc: Global,
    mut command: Command<'a>,
    options: &[OptionRow],
) -> Result<Command<'a>, AllocError>
    requires { (fields_of command).has_globals ≡ false }
    ensures app { IfOk result (λ c. app_of c ≡ spec.with_options (app_of command.entry) (map view options.now)) }
    ensures local { IfOk result (λ c. (fields_of c).has_globals ≡ false) }
{
    for row in options {
        command = with_option(alloc, command, *row)?;
    }
    Ok(command)
}

// Returns a command line of these options alone.
fn command_of<'a>(
    alloc: Global,
    program: &'static str,
    options: &[OptionRow],
) -> Result<Command<'a>, AllocError>
    ensures { IfOk result (λ c. app_of c ≡ spec.app_of_options program.now (map view options.now)) }
{
    with_options(
        alloc,
        Command::new(alloc, program).no_binary_name(true),
        options,
    )
}

/// Returns the command line of a subcommand with the options of a table.
pub fn subcommand<'a>(
    alloc: Global,
    name: &'static str,
    options: &[OptionRow],
) -> Result<Command<'a>, AllocError>
    ensures app { IfOk result (λ c. app_of c ≡ spec.subcommand_by name.now (map view options.now)) }
    ensures local { IfOk result (λ c. (fields_of c).has_globals ≡ false) }
{
    with_options(alloc, Command::new(alloc, name), options)
}

// Returns the matches that `clap` finds in the words.
fn matches_for<'a>(
    alloc: Global,
    program: &'static str,
    options: &[OptionRow],
    words: &'a [&'a str],
) -> Result<ArgMatches<'a>, Error>
    requires { is_simple_and_free (spec.app_of_options program.now (map view options.now)) ≡ true }
    ensures ok { IfOk result (λ m. rows_of (found_of m)
        ≡ matches_of (spec.app_of_options program.now (map view options.now)) (map (λ s. s.now) words.entry.now)) }
    ensures fault { FailsBy
        (fault_of (spec.app_of_options program.now (map view options.now)) (map (λ s. s.now) words.entry.now)) result }
{
    command_of(alloc, program, options)?.try_get_matches_from(words)
}

/// Returns the values that the words give to the options of a table; none if the words are a usage error.
pub fn given_options<'a>(
    alloc: Global,
    program: &'static str,
    options: &[OptionRow],
    words: &'a [&'a str],
) -> Result<Option<ArgMatches<'a>>, AllocError>
    requires { is_simple_and_free (spec.app_of_options program.now (map view options.now)) ≡ true }
    ensures { IfOk result (λ r. option_map (λ m. rows_of (found_of m)) r
        ≡ spec.given_options program.now (map view options.now) (map (λ s. s.now) words.entry.now)) }
{
    match matches_for(alloc, program, options, words) {
        Ok(matches) => Ok(Some(matches)),
        Err(error) => match error.kind() {
            ErrorKind::OutOfMemory => Err(AllocError),
            _ => Ok(None),
        },
    }
}

// Returns the number of an option; `default` if it is not given.
#[tactic(auto, unfolding(devices::specs::Options::number_option))]
fn number_or(text: Option<&str>, least: u64, greatest: u64, default: u64) -> Option<u64>
    ensures value { result ≡ number_option least greatest default (option_map (λ s. s.now) text.entry) }
    ensures lower { IfSome result (λ n. min least default ≤ n) }
    ensures upper { IfSome result (λ n. n ≤ max greatest default) }
{
    match text {
        None => Some(default),
        Some(text) => number_in(text, least, greatest),
    }
}

// Returns the number of an option that may have a unit; the default if it is not given.
fn scaled_or(
    scale: Scale,
    text: Option<&str>,
    least: u64,
    greatest: u64,
    default: Option<u64>,
) -> Option<u64>
    ensures value { result ≡ spec.scaled_or scale least greatest default (option_map (λ s. s.now) text.entry) }
    ensures lower { IfSome result (λ n. min least (unwrap_or default least) ≤ n) }
    ensures upper { IfSome result (λ n. n ≤ max greatest (unwrap_or default 0)) }
{
    match text {
        None => default,
        Some(text) => scaled_in(text, scale, least, greatest),
    }
}

// Returns the number of an option that may have a unit and need not be given.
fn scaled_if(scale: Scale, text: Option<&str>, least: u64, greatest: u64) -> Option<Option<u64>>
    ensures value { result ≡ spec.scaled_if scale least greatest (option_map (λ s. s.now) text.entry) }
    ensures lower { IfSome result (λ given. IfSome given (λ n. least ≤ n)) }
    ensures upper { IfSome result (λ given. IfSome given (λ n. n ≤ greatest)) }
{
    let Some(text) = text else {
        return Some(None);
    };
    match scaled_in(text, scale, least, greatest) {
        Some(number) => Some(Some(number)),
        None => None,
    }
}

// Returns the number of an option; if it is not given, its default, if any.
fn plain_or(text: Option<&str>, least: u64, greatest: u64, default: Option<u64>) -> Option<u64>
    ensures value { result ≡ spec.plain_or least greatest default (option_map (λ s. s.now) text.entry) }
    ensures lower { IfSome result (λ n. min least (unwrap_or default least) ≤ n) }
    ensures upper { IfSome result (λ n. n ≤ max greatest (unwrap_or default 0)) }
{
    match default {
        Some(default) => number_or(text, least, greatest, default),
        None => number_given(text, least, greatest),
    }
}

// Returns the number of an option of this kind.
#[tactic(auto, unfolding(crate::specs::GivenOptions::number_by, crate::specs::GivenOptions::lowest_by, crate::specs::GivenOptions::greatest_by))]
fn number_by(kind: Option<ValueKind>, text: Option<&str>) -> Option<u64>
    ensures value { result ≡ spec.number_by kind (option_map (λ s. s.now) text.entry) }
    ensures lower { IfSome result (λ n. spec.lowest_by kind ≤ n) }
    ensures upper { IfSome result (λ n. n ≤ spec.greatest_by kind) }
{
    match kind {
        Some(
            ValueKind::Number {
                least,
                greatest,
                default,
            },
        ) => plain_or(text, least, greatest, default),
        Some(
            ValueKind::Scaled {
                scale,
                least,
                greatest,
                default,
            },
        ) => scaled_or(scale, text, least, greatest, default),
        _ => None,
    }
}

/// Returns the number of an option by its row: its default if the option is not given, none if its text is no number of
/// its range.
pub fn number_of(options: &[OptionRow], matches: &ArgMatches<'_>, name: &str) -> Option<u64>
    ensures value { result ≡ spec.number_of (map view options.now) name.now (rows_of (found_of matches.now)) }
    ensures lower { IfSome result (λ n. spec.lowest_of (map view options.now) name.now ≤ n) }
    ensures upper { IfSome result (λ n. n ≤ spec.greatest_of (map view options.now) name.now) }
{
    number_by(kind_named(options, name.as_bytes()), text_of(matches, name))
}

// Returns the number of an option that need not be given.
#[tactic(auto, unfolding(devices::specs::Options::number_if_given))]
fn number_if_given(text: Option<&str>, least: u64, greatest: u64) -> Option<Option<u64>>
    ensures value { result ≡ stated.number_if_given least greatest (option_map (λ s. s.now) text.entry) }
    ensures lower { IfSome result (λ given. IfSome given (λ n. least ≤ n)) }
    ensures upper { IfSome result (λ given. IfSome given (λ n. n ≤ greatest)) }
{
    let Some(text) = text else {
        return Some(None);
    };
    match number_in(text, least, greatest) {
        Some(number) => Some(Some(number)),
        None => None,
    }
}

// Returns the number of an option of this kind that need not be given.
#[tactic(auto, unfolding(crate::specs::GivenOptions::number_if_by, crate::specs::GivenOptions::least_by, crate::specs::GivenOptions::greatest_by))]
fn number_if_by(kind: Option<ValueKind>, text: Option<&str>) -> Option<Option<u64>>
    ensures value { result ≡ spec.number_if_by kind (option_map (λ s. s.now) text.entry) }
    ensures lower { IfSome result (λ given. IfSome given (λ n. spec.least_by kind ≤ n)) }
    ensures upper { IfSome result (λ given. IfSome given (λ n. n ≤ spec.greatest_by kind)) }
{
    match kind {
        Some(
            ValueKind::Number {
                least,
                greatest,
                ..
            },
        ) => number_if_given(text, least, greatest),
        Some(
            ValueKind::Scaled {
                scale,
                least,
                greatest,
                ..
            },
        ) => scaled_if(scale, text, least, greatest),
        _ => None,
    }
}

/// Returns the number of an option that need not be given, by its row; none if its text is no number of its range.
pub fn number_if(options: &[OptionRow], matches: &ArgMatches<'_>, name: &str) -> Option<Option<u64>>
    ensures value { result ≡ spec.number_if (map view options.now) name.now (rows_of (found_of matches.now)) }
    ensures lower { IfSome result (λ given. IfSome given (λ n. spec.least_of (map view options.now) name.now ≤ n)) }
    ensures upper { IfSome result (λ given. IfSome given (λ n. n ≤ spec.greatest_of (map view options.now) name.now)) }
{
    number_if_by(kind_named(options, name.as_bytes()), text_of(matches, name))
}

// Returns the numbers of an option of this kind.
#[tactic(auto, unfolding(crate::specs::GivenOptions::numbers_by))]
fn numbers_by(
    alloc: Global,
    kind: Option<ValueKind>,
    text: Option<&str>,
) -> Result<Option<Vec<u16>>, AllocError>
    ensures { IfOk result
        (λ r. option_map (λ numbers. numbers.items) r ≡ spec.numbers_by kind (option_map (λ s. s.now) text.entry)) }
{
    match kind {
        Some(ValueKind::Numbers { greatest }) => number_list(alloc, greatest, text),
        _ => Ok(None),
    }
}

/// Returns the numbers of an option that is a list, by its row: no numbers if the option is not given, none if a part
/// of its text is no number of its range.
pub fn numbers_of(
    alloc: Global,
    options: &[OptionRow],
    matches: &ArgMatches<'_>,
    name: &str,
) -> Result<Option<Vec<u16>>, AllocError>
    ensures { IfOk result (λ r. option_map (λ numbers. numbers.items) r
        ≡ spec.numbers_of (map view options.now) name.now (rows_of (found_of matches.now))) }
{
    numbers_by(
        alloc,
        kind_named(options, name.as_bytes()),
        text_of(matches, name),
    )
}
