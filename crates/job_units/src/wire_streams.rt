//! The streams of a transport stream, their units with the stamps on the wire.

ghost use Rattle.std.specs.Prelude.{◌≡◌, ◌++◌, IfOk, IfErr, OnOk, Ok, All, flat_map, map, option_to_list};
ghost use Rattle.es_units.specs.PidPlaces.{AreLinks, pids_in};
ghost use Rattle.std.specs.List.{list_any};
ghost use Rattle.pid_findings.specs.Shown.{finding_view};
ghost use Rattle.job_programs.specs.Answers.{Answers, Refuses};
ghost use Rattle.job_units.specs.OddStreams.{odd_stream};
ghost use Rattle.job_units.specs.WireStreams as spec;
ghost use Rattle.job_programs.specs.JobOptions.{is_selected_stream};
ghost use Rattle.es_units.specs.CarriedUnits.{carried_units};
ghost use Rattle.job_programs.specs.FoundUnits.{IsCarried};

use crate::odd_streams::odd_stream;
use crate::stream_kinds::named_stream;
use es_moments::{
    DtsError, FoundUnit, apart_units, dts_are_made, first_other, units_with_made_dts, written_id,
};
use es_units::{PidLinks, UnitWarning, UnitWarningCause, found_units, unit_warnings};
use job_programs::job_options::is_among;
use job_programs::warnings::push_pid_warnings;
use job_programs::{JobError, JobOptions, JobRefusal, NamedStream, Warning, WireStream};
use pid_findings::Finding;
use std::alloc::{AllocError, Global};
use stream_coding::is_ac3;
use stream_programs::FoundStream;

// Returns the refusal of the first unit of another stream_id.
#[tactic(auto, unfolding(crate::specs::WireStreams::other_id_refusal))]
fn other_id_refusal(pid: u16, first: u8, units: &[FoundUnit<'_>]) -> Option<JobRefusal>
    ensures { result ≡ spec.other_id_refusal pid first units.now }
{
    let at = first_other(first, units)?;
    let unit = units.get(at)?;
    Some(JobRefusal::OtherStreamId {
        packet: unit.packet,
        pid,
        id: unit.stream_id,
        first,
    })
}

// Returns the stream_id that is written for the stream_id of the first unit.
#[tactic(auto, unfolding(crate::specs::WireStreams::id_of))]
fn id_of(is_ac3: bool, first: &FoundUnit<'_>) -> Result<u8, JobRefusal>
    ensures { result ≡ spec.id_of is_ac3 first.now }
{
    match written_id(first.stream_id, is_ac3) {
        Some(id) => Ok(id),
        None => Err(JobRefusal::NoStream),
    }
}

// Returns the stream_id that is written for all of these units.
#[tactic(auto, unfolding(crate::specs::WireStreams::common_id, job_programs::specs::Answers::unless))]
fn common_id(pid: u16, is_ac3: bool, units: &[FoundUnit<'_>]) -> Result<u8, JobRefusal>
    ensures { result ≡ spec.common_id pid is_ac3 units.now }
{
    let Some((first, _)) = units.split_first() else {
        return Err(JobRefusal::NoStream);
    };
    match other_id_refusal(pid, first.stream_id, units) {
        Some(refusal) => Err(refusal),
        None => id_of(is_ac3, first),
    }
}

// Returns the units with their DTS: made from their PTS if `make_dts`; units of a data stream each get a DTS of their
// own.
#[tactic(auto, unfolding(crate::specs::WireStreams::with_stamps, crate::specs::WireStreams::dts_refusal, job_programs::specs::Answers::unless, job_programs::specs::Answers::Refuses))]
fn with_stamps<'f>(
    alloc: Global,
    make_dts: bool,
    pid: u16,
    units: Vec<FoundUnit<'f>>,
) -> Result<Vec<FoundUnit<'f>>, JobError>
    ensures value { IfOk result (λ with_stamps. spec.with_stamps make_dts pid units.entry.items
        ≡ Ok with_stamps.items) }
    ensures refused { IfErr result (Refuses (spec.with_stamps make_dts pid units.entry.items)) }
{
    if !make_dts {
        return Ok(apart_units(alloc, units)?);
    }
    match units_with_made_dts(alloc, units) {
        Ok(made) => Ok(made),
        Err(DtsError::Fault(fault)) => Err(JobError::Refused(JobRefusal::Dts { pid, fault })),
        Err(DtsError::Memory) => Err(JobError::Memory),
    }
}

// Returns a stream with its units.
#[tactic(auto, unfolding(crate::specs::WireStreams::stream_of, crate::specs::WireStreams::with_units, job_programs::specs::Answers::and_then, job_programs::specs::Answers::Answers, job_programs::specs::Answers::Refuses))]
fn stream_of<'f>(
    alloc: Global,
    make_dts: bool,
    stream: FoundStream,
    units: Vec<FoundUnit<'f>>,
) -> Result<WireStream<'f>, JobError>
    ensures { Answers (spec.stream_of make_dts stream units.entry.items) result }
{
    let is_ac3 = is_ac3(stream.stream_type, &stream.descriptors);
    let stream_id = common_id(stream.pid, is_ac3, &units)?;
    let units = with_stamps(alloc, make_dts, stream.pid, units)?;
    Ok(WireStream {
        program: stream.program,
        pid: stream.pid,
        stream_type: stream.stream_type,
        stream_id,
        descriptors: stream.descriptors,
        shared_with: stream.shared_with,
        units,
    })
}

// Returns whether a stream with these units can be carried: there are any, and their stream_id can be written.
#[tactic(auto, unfolding(crate::specs::WireStreams::is_written))]
fn is_written(stream: &FoundStream, units: &[FoundUnit<'_>]) -> bool
    ensures { result ≡ spec.is_written stream.now units.now }
{
    let Some((first, _)) = units.split_first() else {
        return false;
    };
    let is_ac3 = is_ac3(stream.stream_type, &stream.descriptors);
    written_id(first.stream_id, is_ac3).is_some()
}

// Returns whether DTS of units are made without being asked for.
#[tactic(auto, unfolding(crate::specs::WireStreams::makes_itself))]
fn makes_itself(
    alloc: Global,
    options: &JobOptions<'_>,
    units: &[FoundUnit<'_>],
) -> Result<bool, AllocError>
    ensures { IfOk result (λ made. made ≡ spec.makes_itself options.now units.now) }
{
    if options.make_dts || options.strict {
        return Ok(false);
    }
    dts_are_made(alloc, units)
}

// Returns a stream with these units, if it can be carried.
#[tactic(auto, unfolding(crate::specs::WireStreams::stream_if_any, job_programs::specs::Answers::and_then, job_programs::specs::Answers::Answers, job_programs::specs::Answers::Refuses))]
fn stream_if_any<'f>(
    alloc: Global,
    make_dts: bool,
    stream: FoundStream,
    units: Vec<FoundUnit<'f>>,
) -> Result<Option<WireStream<'f>>, JobError>
    ensures { Answers (spec.stream_if_any make_dts stream units.entry.items) result }
{
    if !is_written(&stream, &units) {
        return Ok(None);
    }
    Ok(Some(stream_of(alloc, make_dts, stream, units)?))
}

/// Returns whether a stream is selected: the options do not leave it out.
#[tactic(auto, unfolding(job_programs::specs::JobOptions::is_selected_stream))]
pub fn is_selected_stream(without: &[u16], stream: &FoundStream) -> bool
    ensures { result ≡ is_selected_stream without.now stream.now }
{
    !is_among(stream.pid, without)
}

// Returns whether a warning is about a PES packet without a PTS and without a unit before it.
#[tactic(auto, unfolding(crate::specs::WireStreams::is_unstamped, crate::specs::WireStreams::is_unstamped_cause))]
fn is_unstamped(warning: &UnitWarning) -> bool
    ensures { result ≡ spec.is_unstamped warning.now }
{
    match warning.cause {
        UnitWarningCause::NoUnitBefore(_) => true,
        _ => false,
    }
}

// Returns whether any warning is about a PES packet without a PTS and without a unit before it.
fn has_unstamped(found: &[UnitWarning]) -> bool
    ensures { result ≡ list_any spec.is_unstamped found.now }
{
    found.iter().any(|warning| is_unstamped(warning))
}

// Returns whether any warning is about a scrambled packet.
fn has_scrambled(found: &[UnitWarning]) -> bool
    ensures { result ≡ list_any spec.is_of_scrambled found.now }
{
    found.iter().any(|warning| warning.cause.is_scrambled())
}

// Returns why a stream without a unit is a loss: it has no PES packet with a PTS, or scrambled packets.
#[tactic(auto, unfolding(crate::specs::WireStreams::why_no_unit))]
fn why_no_unit(pid: u16, found: &[UnitWarning]) -> Option<JobRefusal>
    ensures { result ≡ spec.why_no_unit pid found.now }
{
    if has_unstamped(found) {
        Some(JobRefusal::NoStamps(pid))
    } else if has_scrambled(found) {
        Some(JobRefusal::Scrambled(pid))
    } else {
        None
    }
}

// Returns the warning about a stream without a unit.
#[tactic(auto, unfolding(crate::specs::WireStreams::without_unit))]
fn no_unit_warning(stream: NamedStream, found: &[UnitWarning]) -> Warning
    ensures { result ≡ spec.no_unit_warning stream found.now }
{
    match why_no_unit(stream.pid, found) {
        None => Warning::NoUnit {
            program: stream.program,
            pid: stream.pid,
        },
        Some(why) => Warning::LeftOut { stream, why },
    }
}

// Appends the warnings about a stream that can't be carried.
#[tactic(auto, unfolding(crate::specs::WireStreams::why_not_carried))]
fn push_empty_stream_warnings(
    alloc: Global,
    count: u64,
    stream: NamedStream,
    findings: &[Finding<'_>],
    links: &PidLinks<Global>,
    warnings: &mut Vec<Warning>,
) -> Result<(), AllocError>
    requires links { AreLinks links.now (pids_in (map finding_view findings.now)) }
    ensures { OnOk result (warnings.new.items ≡ warnings.old.items
        ++ spec.why_not_carried count (map finding_view findings.now) stream
        (carried_units stream.pid (map finding_view findings.now))) }
{
    let pid = stream.pid;
    let units = found_units(alloc, pid, findings, links)?;
    match units.first() {
        Some(first) => {
            warnings.push(Warning::StreamId {
                stream,
                packet: first.packet,
                id: first.stream_id,
            })?;
            Ok(())
        }
        None => {
            let found = unit_warnings(alloc, pid, count, findings, links)?;
            warnings.push(no_unit_warning(stream, &found))?;
            push_pid_warnings(alloc, pid, count, findings, links, warnings)
        }
    }
}

// Appends the warning about a stream that is left out for a reason.
#[tactic(auto, unfolding(crate::specs::WireStreams::left_out_for))]
fn push_left_out(
    stream: NamedStream,
    why: Option<JobRefusal>,
    warnings: &mut Vec<Warning>,
) -> Result<(), AllocError>
    ensures { OnOk result (warnings.new.items ≡ warnings.old.items ++ spec.left_out_for stream why) }
{
    let Some(why) = why else {
        return Ok(());
    };
    warnings.push(Warning::LeftOut { stream, why })?;
    Ok(())
}

// Appends the warning about a stream whose DTS are made without being asked for.
#[tactic(auto, unfolding(crate::specs::WireStreams::made_for))]
fn push_made(pid: u16, made: bool, warnings: &mut Vec<Warning>) -> Result<(), AllocError>
    ensures { OnOk result (warnings.new.items ≡ warnings.old.items ++ spec.made_for pid made) }
{
    if made {
        warnings.push(Warning::MadeDts { pid })?;
    }
    Ok(())
}

// Appends a stream, unless it is left out for this reason.
#[tactic(auto, unfolding(crate::specs::WireStreams::unless_odd))]
fn push_unless<'f>(
    odd: Option<JobRefusal>,
    stream: WireStream<'f>,
    streams: &mut Vec<WireStream<'f>>,
) -> Result<(), AllocError>
    ensures { OnOk result (streams.new.items ≡ streams.old.items ++ option_to_list (spec.unless_odd odd stream.entry)) }
{
    if odd.is_none() {
        streams.push(stream)?;
    }
    Ok(())
}

// Appends a stream, or the warning why a job cannot carry it.
fn push_unless_odd<'f>(
    alloc: Global,
    options: &JobOptions<'_>,
    named: NamedStream,
    stream: WireStream<'f>,
    findings: &[Finding<'_>],
    links: &PidLinks<Global>,
    streams: &mut Vec<WireStream<'f>>,
    warnings: &mut Vec<Warning>,
) -> Result<(), AllocError>
    requires links { AreLinks links.now (pids_in (map finding_view findings.now)) }
    ensures streams { OnOk result (streams.new.items ≡ streams.old.items ++ option_to_list
        (spec.unless_odd (odd_stream options.now (map finding_view findings.now) stream.entry) stream.entry)) }
    ensures warnings { OnOk result (warnings.new.items ≡ warnings.old.items
        ++ spec.left_out_for named (odd_stream options.now (map finding_view findings.now) stream.entry)) }
{
    let odd = odd_stream(alloc, options, &stream, findings, links)?;
    push_left_out(named, odd, warnings)?;
    push_unless(odd, stream, streams)
}

// Appends a stream with its units, or the warnings why it is left out.
#[tactic(auto, unfolding(crate::specs::WireStreams::carried_stream, crate::specs::WireStreams::found_stream, crate::specs::WireStreams::makes_dts, crate::specs::WireStreams::kept_stream, crate::specs::WireStreams::left_out_warnings, crate::specs::WireStreams::warnings_by, job_programs::specs::Answers::Answers, job_programs::specs::Answers::Refuses))]
fn push_stream<'f>(
    alloc: Global,
    options: &JobOptions<'_>,
    count: u64,
    stream: FoundStream,
    findings: &'f [Finding<'_>],
    links: &PidLinks<Global>,
    streams: &mut Vec<WireStream<'f>>,
    warnings: &mut Vec<Warning>,
) -> Result<(), AllocError>
    requires links { AreLinks links.now (pids_in (map finding_view findings.now)) }
    ensures streams { OnOk result (streams.new.items ≡ streams.old.items
        ++ spec.carried_stream options.now (map finding_view findings.now) stream) }
    ensures warnings { OnOk result (warnings.new.items ≡ warnings.old.items
        ++ spec.left_out_warnings options.now count (map finding_view findings.now) stream) }
{
    let named = named_stream(&stream);
    let pid = stream.pid;
    let units = found_units(alloc, pid, findings, links)?;
    let made = makes_itself(alloc, options, &units)?;
    match stream_if_any(alloc, options.make_dts || made, stream, units) {
        Ok(Some(stream)) => {
            push_made(pid, made, warnings)?;
            push_unless_odd(
                alloc, options, named, stream, findings, links, streams, warnings,
            )
        }
        Ok(None) => { push_empty_stream_warnings(alloc, count, named, findings, links, warnings) }
        Err(JobError::Refused(why)) => push_left_out(named, Some(why), warnings),
        Err(JobError::Memory) => Err(AllocError),
    }
}

// Returns the streams that a job can carry, each with its units, and the warnings about streams left out.
fn carried_streams<'f>(
    alloc: Global,
    options: &JobOptions<'_>,
    count: u64,
    selected: Vec<FoundStream>,
    findings: &'f [Finding<'_>],
    links: &PidLinks<Global>,
    warnings: &mut Vec<Warning>,
) -> Result<Vec<WireStream<'f>>, AllocError>
    requires links { AreLinks links.now (pids_in (map finding_view findings.now)) }
    ensures streams { IfOk result (λ streams. streams.items
        ≡ spec.carried_streams options.now (map finding_view findings.now) selected.items) }
    ensures warnings { OnOk result (warnings.new.items ≡ warnings.old.items
        ++ flat_map (spec.left_out_warnings options.now count (map finding_view findings.now)) selected.items) }
{
    let mut streams = Vec::new(alloc);
    for stream in selected {
        push_stream(
            alloc,
            options,
            count,
            stream,
            findings,
            links,
            &mut streams,
            warnings,
        )?;
    }
    Ok(streams)
}

// Returns the selected streams.
fn selected(without: &[u16], found: Vec<FoundStream>) -> Vec<FoundStream>
    ensures { result.items ≡ spec.selected without.now found.items }
{
    let mut selected = found;
    selected.retain(|stream| is_selected_stream(without, stream));
    selected
}

/// Returns the selected streams that a job can carry, each with its units and a stream_id that can be written, and the
/// warnings about streams left out.
#[tactic(auto, using(crate::proofs::CarriedStreams::all_carried))]
pub fn wire_streams<'f>(
    alloc: Global,
    options: &JobOptions<'_>,
    count: u64,
    found: Vec<FoundStream>,
    findings: &'f [Finding<'_>],
    links: &PidLinks<Global>,
    warnings: &mut Vec<Warning>,
) -> Result<Vec<WireStream<'f>>, AllocError>
    requires links { AreLinks links.now (pids_in (map finding_view findings.now)) }
    ensures streams { IfOk result (λ streams. streams.items
        ≡ spec.wire_streams options.now (map finding_view findings.now) found.items) }
    ensures warnings { OnOk result (warnings.new.items ≡ warnings.old.items
        ++ spec.all_left_out_warnings options.now count (map finding_view findings.now) found.items) }
    ensures carried { IfOk result (λ streams. All (IsCarried options.now.make_dts (map finding_view findings.now))
        streams.items) }
{
    let selected = selected(options.without, found);
    carried_streams(alloc, options, count, selected, findings, links, warnings)
}
