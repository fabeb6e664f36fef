//! What the command line asks for.

ghost use Rattle.std.specs.Prelude.{◌≡◌, ◌≤◌, IfOk, IfSome, map, option_map};
ghost use Rattle.clap.specs.Words.{found_of, rows_of};
ghost use Rattle.word_faults.specs.NameLists.{network_if_given};
ghost use Rattle.given_values.specs.GivenNames.{network_name_view};
ghost use Rattle.tsjob_cli.specs.Arguments as spec;
ghost use Rattle.tsjob_cli.specs.Subcommands.{subcommand_of};

use crate::file_mark::has_mark;
use crate::options::OPTIONS;
use clap::ArgMatches;
use devices::{is_given, text_of};
use given_values::NetworkName;
use job_run::{JobArguments, Reporting, Subcommand};
use std::alloc::{AllocError, Global};
use word_faults::{
    base_of, buffer_list, clock_sharing_of, declare_by_of, given_options, name_list, network_in,
    number_if, number_of, numbers_of, start_of,
};

// Returns the subcommand of this name; without a name, the whole job.
#[tactic(auto, unfolding(crate::specs::Subcommands::subcommand_of))]
pub(crate) fn subcommand_of(text: Option<&str>) -> Option<Subcommand>
    ensures { result ≡ subcommand_of (option_map (λ s. s.now) text.entry) }
{
    match text {
        None => Some(Subcommand::Whole),
        Some("describe") => Some(Subcommand::Describe),
        Some("units") => Some(Subcommand::Units),
        Some("why") => Some(Subcommand::Why),
        Some(_) => None,
    }
}

// Returns the network, if the option is given; `None` if its value is no network.
#[tactic(auto, unfolding(word_faults::specs::NameLists::network_if_given))]
fn network_if_given<'a>(
    alloc: Global,
    text: Option<&'a str>,
) -> Result<Option<Option<NetworkName<'a>>>, AllocError>
    ensures { IfOk result (λ r. option_map (option_map network_name_view) r
        ≡ network_if_given (option_map (λ s. s.now) text.entry)) }
{
    let Some(text) = text else {
        return Ok(Some(None));
    };
    match network_in(alloc, text)? {
        Some(network) => Ok(Some(Some(network))),
        None => Ok(None),
    }
}

// Returns the file of a description, if it is named; `None` if it is named without `units`.
#[tactic(auto, unfolding(crate::specs::Arguments::stream_of))]
fn stream_of<'a>(subcommand: Subcommand, text: Option<&'a str>) -> Option<Option<&'a str>>
    ensures { option_map (λ o. option_map (λ s. s.now) o) result
        ≡ spec.stream_of subcommand (option_map (λ s. s.now) text.entry) }
{
    let Some(name) = text else {
        return Some(None);
    };
    match subcommand {
        Subcommand::Units => Some(Some(name)),
        Subcommand::Whole | Subcommand::Describe | Subcommand::Why => None,
    }
}

// Returns the rate; `None` if its text is no number of its range.
#[tactic(auto, unfolding(crate::specs::Arguments::rate_in))]
fn rate_in(matches: &ArgMatches<'_>) -> Option<Option<u64>>
    ensures { result ≡ spec.rate_in (rows_of (found_of matches.now)) }
{
    number_if(&OPTIONS, matches, "rate")
}

// Returns the greatest time between clock references, in ms.
#[tactic(auto, unfolding(crate::specs::Arguments::limit_in))]
fn limit_in(matches: &ArgMatches<'_>) -> Option<u8>
    ensures { result ≡ spec.limit_in (rows_of (found_of matches.now)) }
{
    let pcr_limit = number_of(&OPTIONS, matches, "pcr")? as u8;
    Some(pcr_limit)
}

// Returns the greatest lead of a unit, in units of 90 kHz.
#[tactic(auto, unfolding(crate::specs::Arguments::lead_in))]
fn lead_in(matches: &ArgMatches<'_>) -> Option<u32>
    ensures { result ≡ spec.lead_in (rows_of (found_of matches.now)) }
{
    let lead = number_of(&OPTIONS, matches, "lead")? as u32;
    Some(lead)
}

// Returns a number of frames, if there is one.
fn frames_of(given: Option<u64>) -> Option<u8>
    requires { IfSome given (λ frames. frames ≤ 64) }
    ensures { result ≡ given }
{
    match given {
        None => None,
        Some(frames) => Some(frames as u8),
    }
}

// Returns the most frames of sound of a PES packet; `None` if its text is no number of its range.
#[tactic(auto, unfolding(crate::specs::Arguments::frames_in))]
fn frames_in(matches: &ArgMatches<'_>) -> Option<Option<u8>>
    ensures { result ≡ spec.frames_in (rows_of (found_of matches.now)) }
{
    let given = number_if(&OPTIONS, matches, "frames")?;
    let frames = frames_of(given);
    Some(frames)
}

// Returns the programs that are taken.
#[tactic(auto, unfolding(crate::specs::Arguments::programs_in))]
fn programs_in(alloc: Global, matches: &ArgMatches<'_>) -> Result<Option<Vec<u16>>, AllocError>
    ensures { IfOk result
        (λ r. option_map (λ numbers. numbers.items) r ≡ spec.programs_in (rows_of (found_of matches.now))) }
{
    numbers_of(alloc, &OPTIONS, matches, "program")
}

// Returns the PIDs that are left out.
#[tactic(auto, unfolding(crate::specs::Arguments::without_in))]
fn without_in(alloc: Global, matches: &ArgMatches<'_>) -> Result<Option<Vec<u16>>, AllocError>
    ensures { IfOk result
        (λ r. option_map (λ numbers. numbers.items) r ≡ spec.without_in (rows_of (found_of matches.now))) }
{
    numbers_of(alloc, &OPTIONS, matches, "without")
}

// Returns the PIDs whose units are aligned.
#[tactic(auto, unfolding(crate::specs::Arguments::aligned_in))]
fn aligned_in(alloc: Global, matches: &ArgMatches<'_>) -> Result<Option<Vec<u16>>, AllocError>
    ensures { IfOk result
        (λ r. option_map (λ numbers. numbers.items) r ≡ spec.aligned_in (rows_of (found_of matches.now))) }
{
    numbers_of(alloc, &OPTIONS, matches, "aligned")
}

// Returns which lines are reported.
#[tactic(auto, unfolding(crate::specs::Arguments::reporting_in))]
fn reporting_in(matches: &ArgMatches<'_>) -> Reporting
    ensures { result ≡ spec.reporting_in (rows_of (found_of matches.now)) }
{
    Reporting {
        whole: is_given(text_of(matches, "whole")),
        quiet: is_given(text_of(matches, "quiet")),
        all: is_given(text_of(matches, "verbose")),
    }
}

// Returns the options with one value each.
#[tactic(auto, unfolding(crate::specs::Arguments::values_of))]
fn values_of<'a>(alloc: Global, matches: &ArgMatches<'a>) -> Option<JobArguments<'a>>
    ensures { result ≡ spec.values_of (rows_of (found_of matches.now)) }
{
    let subcommand = subcommand_of(text_of(matches, "subcommand"))?;
    let stream = stream_of(subcommand, text_of(matches, "stream"))?;
    let rate = rate_in(matches)?;
    let start = start_of(text_of(matches, "start"))?;
    let pcr_limit = limit_in(matches)?;
    let lead = lead_in(matches)?;
    let frames = frames_in(matches)?;
    let declare_by = declare_by_of(text_of(matches, "declare"))?;
    let clock = clock_sharing_of(text_of(matches, "clock"))?;
    let base = base_of(text_of(matches, "base"))?;
    Some(JobArguments {
        subcommand,
        stream,
        reporting: reporting_in(matches),
        rate,
        start,
        pcr_limit,
        lead,
        declare_by,
        make_dts: is_given(text_of(matches, "make-dts")),
        strict: is_given(text_of(matches, "strict")),
        lenient: is_given(text_of(matches, "lenient")),
        base,
        clock,
        network: None,
        names: Vec::new(alloc),
        programs: Vec::new(alloc),
        without: Vec::new(alloc),
        buffers: Vec::new(alloc),
        mark_access: is_given(text_of(matches, "mark-access")),
        aligned: Vec::new(alloc),
        joined: is_given(text_of(matches, "joined")),
        frames,
    })
}

// Adds the options that are lists.
#[tactic(auto, unfolding(crate::specs::Arguments::arguments_of))]
fn arguments_of<'a>(
    alloc: Global,
    matches: &ArgMatches<'a>,
) -> Result<Option<JobArguments<'a>>, AllocError>
    ensures { IfOk result (λ r. r ≡ spec.arguments_of (rows_of (found_of matches.now))) }
{
    let Some(values) = values_of(alloc, matches) else {
        return Ok(None);
    };
    let Some(programs) = programs_in(alloc, matches)? else {
        return Ok(None);
    };
    let Some(without) = without_in(alloc, matches)? else {
        return Ok(None);
    };
    let Some(buffers) = buffer_list(alloc, text_of(matches, "buffers"))? else {
        return Ok(None);
    };
    let Some(network) = network_if_given(alloc, text_of(matches, "network"))? else {
        return Ok(None);
    };
    let Some(names) = name_list(alloc, text_of(matches, "name"))? else {
        return Ok(None);
    };
    let Some(aligned) = aligned_in(alloc, matches)? else {
        return Ok(None);
    };
    Ok(Some(JobArguments {
        network,
        names,
        programs,
        without,
        buffers,
        aligned,
        ..values
    }))
}

// Reads a subcommand and options; `None` if they are a usage error.
fn read_options<'a>(
    alloc: Global,
    words: &'a [&'a str],
) -> Result<Option<JobArguments<'a>>, AllocError>
    ensures { IfOk result (λ r. r ≡ spec.options_in (map (λ s. s.now) words.entry.now)) }
{
    match given_options(alloc, "tsjob", &OPTIONS, words)? {
        Some(matches) => arguments_of(alloc, &matches),
        None => Ok(None),
    }
}

/// Returns the request of the words; `None` if they are a usage error, or names of files may be among them.
pub fn read_arguments<'a>(
    alloc: Global,
    words: &'a [&'a str],
) -> Result<Option<JobArguments<'a>>, AllocError>
    ensures { IfOk result (λ r. r ≡ spec.arguments words.entry.now) }
{
    if has_mark(words) {
        return Ok(None);
    }
    read_options(alloc, words)
}
