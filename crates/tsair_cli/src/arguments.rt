//! What the command line asks for.

ghost use Rattle.std.specs.Prelude.{◌≡◌, IfOk};
ghost use Rattle.clap.specs.Words.{found_of, rows_of};
ghost use Rattle.tsair_cli.specs.Arguments as spec;

use crate::options::OPTIONS;
use clap::ArgMatches;
use devices::{is_given, text_of};
use on_air::Terms;
use std::alloc::{AllocError, Global};
use word_faults::{given_options, number_if, number_of};

/// The options of a run.
#[derive(Clone, Copy)]
pub struct AirOptions {
    /// Its terms: `--wait`, `--ahead`, `--slots` and `--room`.
    pub terms: Terms,
    /// The number of periods of the first plan before the second; if it is not given, there is one plan.
    pub periods: Option<u64>,
    /// Whether packets are written as lines of hexadecimal digits, and not as bytes.
    pub hex: bool,
    /// Whether the first record that is refused ends the run.
    pub stop: bool,
    /// Whether frames are read, and their records written, in place of a job.
    pub unframe: bool,
}

// Returns the terms of the run; none if a number is out of its range.
#[tactic(auto, unfolding(crate::specs::Arguments::terms_of))]
fn terms_of(matches: &ArgMatches<'_>) -> Option<Terms>
    ensures { result ≡ spec.terms_of (rows_of (found_of matches.now)) }
{
    let wait = number_of(&OPTIONS, matches, "wait")? as u32;
    let ahead = number_of(&OPTIONS, matches, "ahead")?;
    let slots = number_if(&OPTIONS, matches, "slots")?;
    let room = number_if(&OPTIONS, matches, "room")?;
    Some(Terms {
        wait,
        ahead,
        slots,
        room,
    })
}

// Returns the values of the options; none if one is out of its range.
#[tactic(auto, unfolding(crate::specs::Arguments::options_of))]
fn options_of(matches: &ArgMatches<'_>) -> Option<AirOptions>
    ensures { result ≡ spec.options_of (rows_of (found_of matches.now)) }
{
    let terms = terms_of(matches)?;
    let periods = number_if(&OPTIONS, matches, "switch")?;
    Some(AirOptions {
        terms,
        periods,
        hex: is_given(text_of(matches, "hex")),
        stop: is_given(text_of(matches, "stop")),
        unframe: is_given(text_of(matches, "unframe")),
    })
}

/// Returns the options that the words give; none if they are a usage error.
pub(crate) fn read_arguments(
    alloc: Global,
    words: &[&str],
) -> Result<Option<AirOptions>, AllocError>
    ensures { IfOk result (λ r. r ≡ spec.asked words.now) }
{
    match given_options(alloc, "tsair", &OPTIONS, words)? {
        Some(matches) => Ok(options_of(&matches)),
        None => Ok(None),
    }
}

/// Returns whether the words ask for bytes that are no text: records, or packets that are not lines of digits.
pub fn writes_bytes(alloc: Global, words: &[&str]) -> Result<bool, AllocError>
    ensures { IfOk result (λ is. is ≡ spec.writes_bytes words.now) }
{
    match read_arguments(alloc, words)? {
        Some(options) => Ok(options.unframe || !options.hex),
        None => Ok(false),
    }
}
