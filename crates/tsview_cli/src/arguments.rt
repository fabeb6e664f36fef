//! What the command line asks for.

ghost use Rattle.std.specs.Prelude.{◌≡◌, ◌≤◌, IfOk, IfSome, option_map};
ghost use Rattle.clap.specs.Words.{found_of, rows_of};
ghost use Rattle.tsview_cli.specs.Arguments as spec;

use crate::options::OPTIONS;
use crate::request::{Asked, Request};
use arrival::Arrival;
use clap::ArgMatches;
use clock27::Rate;
use devices::{is_given, text_of};
use event_lines::LineForm;
use std::alloc::{AllocError, Global};
use ts_report::{ViewChoice, ViewOptions, ViewRequest, ViewSpan};
use word_faults::{buffer_list, given_options, number_if, number_of, numbers_of};

// Returns how packets arrive: at this rate, or without a rate by clock references.
#[tactic(auto, unfolding(crate::specs::Arguments::arrival_of))]
fn arrival_at(bits: Option<u64>) -> Arrival
    requires lower { IfSome bits (λ n. 100000 ≤ n) }
    requires upper { IfSome bits (λ n. n ≤ 100000000) }
    ensures { result ≡ spec.arrival_of bits }
{
    let Some(bits) = bits else {
        return Arrival::Unknown;
    };
    let Ok(rate) = Rate::new(bits) else {
        unreachable!()
    };
    Arrival::AtRate(rate)
}

// Returns how packets arrive; `None` if the rate is out of its range.
fn arrival_in(matches: &ArgMatches<'_>) -> Option<Arrival>
    ensures { result ≡ spec.arrival_in (rows_of (found_of matches.now)) }
{
    let rate = number_if(&OPTIONS, matches, "rate")?;
    Some(arrival_at(rate))
}

// Returns the values of the options; `None` if any value is out of its range.
#[tactic(auto, unfolding(crate::specs::Arguments::options_of))]
fn options_of(matches: &ArgMatches<'_>) -> Option<ViewOptions>
    ensures { result ≡ spec.options_of (rows_of (found_of matches.now)) }
{
    let arrival = arrival_in(matches)?;
    let window = number_of(&OPTIONS, matches, "window")? as u32;
    Some(ViewOptions {
        arrival,
        origin: 0,
        window,
    })
}

// Returns the requested part of the stream; `None` if an end is out of its range.
#[tactic(auto, unfolding(crate::specs::Arguments::span_of))]
fn span_of(matches: &ArgMatches<'_>) -> Option<ViewSpan>
    ensures { result ≡ spec.span_of (rows_of (found_of matches.now)) }
{
    let from = number_if(&OPTIONS, matches, "from")?;
    let to = number_if(&OPTIONS, matches, "to")?;
    Some(ViewSpan { from, to })
}

// Returns whether stamps time the arrival; `None` if a rate is given too.
#[tactic(auto, unfolding(crate::specs::Arguments::stamps_beside))]
fn stamps_beside(arrival: &Arrival, stamps: bool) -> Option<bool>
    ensures { result ≡ spec.stamps_beside arrival.now stamps }
{
    match arrival {
        Arrival::Unknown | Arrival::OnLines(_) => Some(stamps),
        Arrival::AtRate(_) => { if stamps { None } else { Some(false) } }
    }
}

fn stamps_in(matches: &ArgMatches<'_>, arrival: &Arrival) -> Option<bool>
    ensures { result ≡ spec.stamps_in (rows_of (found_of matches.now)) arrival.now }
{
    stamps_beside(arrival, is_given(text_of(matches, "arrival-stamps")))
}

// Returns the request for lines or for a page; `None` if the options ask for a page of JSON objects.
#[tactic(auto, unfolding(crate::specs::Arguments::requested))]
fn requested(page: bool, form: LineForm, request: ViewRequest) -> Option<Request>
    ensures { result ≡ spec.requested page form request }
{
    if !page {
        return Some(Request::Lines(request, form));
    }
    if form.json {
        drop(request);
        return None;
    }
    Some(Request::Page(request))
}

// Returns the programs to view and their buffers; `None` if the value of an option is not a list.
#[tactic(auto, unfolding(crate::specs::Arguments::choice_of))]
fn choice_of(alloc: Global, matches: &ArgMatches<'_>) -> Result<Option<ViewChoice>, AllocError>
    ensures { IfOk result (λ r. r ≡ spec.choice_of (rows_of (found_of matches.now))) }
{
    let Some(programs) = numbers_of(alloc, &OPTIONS, matches, "program")? else {
        return Ok(None);
    };
    let Some(buffers) = buffer_list(alloc, text_of(matches, "buffers"))? else {
        return Ok(None);
    };
    Ok(Some(ViewChoice { programs, buffers }))
}

fn form_of(matches: &ArgMatches<'_>) -> LineForm
    ensures { result ≡ spec.form_of (rows_of (found_of matches.now)) }
{
    LineForm {
        json: is_given(text_of(matches, "json")),
        quiet: is_given(text_of(matches, "quiet")),
    }
}

// Adds the options that are lists.
#[tactic(auto, unfolding(crate::specs::Arguments::request_with))]
fn request_with(
    alloc: Global,
    matches: &ArgMatches<'_>,
    options: ViewOptions,
    span: ViewSpan,
    stamps: bool,
) -> Result<Option<Request>, AllocError>
    ensures { IfOk result (λ r. r ≡ spec.request_with (rows_of (found_of matches.now)) options span stamps) }
{
    let Some(choice) = choice_of(alloc, matches)? else {
        return Ok(None);
    };
    let page = is_given(text_of(matches, "page"));
    let form = form_of(matches);
    let request = ViewRequest {
        options,
        choice,
        span,
        stamps,
    };
    Ok(requested(page, form, request))
}

// Returns all that the options ask for.
#[tactic(auto, unfolding(crate::specs::Arguments::request_of))]
fn request_of(alloc: Global, matches: &ArgMatches<'_>) -> Result<Option<Request>, AllocError>
    ensures { IfOk result (λ r. r ≡ spec.request_of (rows_of (found_of matches.now))) }
{
    let Some(options) = options_of(matches) else {
        return Ok(None);
    };
    let Some(span) = span_of(matches) else {
        return Ok(None);
    };
    let Some(stamps) = stamps_in(matches, &options.arrival) else {
        return Ok(None);
    };
    request_with(alloc, matches, options, span, stamps)
}

// Returns the name of the file with the stream; `None` if the stream is the input.
fn file_of<'a>(matches: &ArgMatches<'a>) -> Option<&'a str>
    ensures { option_map (λ s. s.now) result ≡ spec.file_of (rows_of (found_of matches.now)) }
{
    match text_of(matches, "file") {
        Some("-") => None,
        file => file,
    }
}

// Returns the request, and the file with the stream.
#[tactic(auto, unfolding(crate::specs::Arguments::asked_of))]
fn asked_of<'a>(alloc: Global, matches: &ArgMatches<'a>) -> Result<Option<Asked<'a>>, AllocError>
    ensures { IfOk result (λ r. r ≡ spec.asked_of (rows_of (found_of matches.now))) }
{
    let Some(request) = request_of(alloc, matches)? else {
        return Ok(None);
    };
    let file = file_of(matches);
    Ok(Some(Asked { request, file }))
}

/// Returns what the words ask for; `None` if they are a usage error.
pub(crate) fn read_arguments<'a>(
    alloc: Global,
    words: &'a [&'a str],
) -> Result<Option<Asked<'a>>, AllocError>
    ensures { IfOk result (λ r. r ≡ spec.asked words.entry.now) }
{
    match given_options(alloc, "tsview", &OPTIONS, words)? {
        Some(matches) => asked_of(alloc, &matches),
        None => Ok(None),
    }
}
