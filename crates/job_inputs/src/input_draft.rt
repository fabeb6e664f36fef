//! What a job is made of before the bytes of its units are taken.

ghost use Rattle.std.specs.Prelude.{◌≡◌, ◌++◌, IfOk, OnOk, All, filter, map};
ghost use Rattle.es_units.specs.PidPlaces.{AreLinks, pids_in};
ghost use Rattle.pid_findings.specs.Shown.{finding_view};
ghost use Rattle.job_inputs.specs.InputDrafts as drafts;
ghost use Rattle.job_units.specs.Moments as moments;
ghost use Rattle.job_inputs.specs.JobInput as spec;
ghost use Rattle.job_programs.specs.JobOptions.{is_selected_program};
ghost use Rattle.job_programs.specs.FoundUnits.{IsCarried, IsMoved};
ghost use Rattle.job_programs.specs.Answers.{Leads};

use crate::earliest::earliest_of;
use crate::job_tables::{JobTable, job_tables, reported};
use crate::lacking_programs::stream_refusal;
use es_units::PidLinks;
use job_programs::clock_base::base0_of;
use job_programs::information::information_of;
use job_programs::job_events::push_information_warnings;
use job_programs::job_network::push_network_warnings;
use job_programs::job_options::is_selected_program;
use job_programs::job_programs::job_programs;
use job_programs::named_numbers::numbers_named;
use job_programs::option_warnings::push_option_warnings;
use job_programs::packets::no_packets;
use job_programs::warnings::{
    push_association_warnings, push_map_warnings, push_packet_warnings, push_stray_warnings,
    push_stream_warnings, push_table_warnings,
};
use job_programs::{
    JobError, JobInformation, JobOptions, JobProgram, JobRefusal, StreamMoments, Warning,
    WireStream,
};
use job_units::moved_streams::{first_base, moved_streams};
use job_units::wire_streams::wire_streams;
use pid_findings::Finding;
use program_tables::{Association, MapPart, named_programs};
use psi_tables::Program;
use std::alloc::{AllocError, Global};
use std::marker::Model;
use stream_programs::{FoundPrograms, ProgramPids, assigned_pids, found_programs};

/// The input of a job before the bytes of its units and the declarations of its streams are added.
#[derive(Drop)]
pub(crate) struct InputDraft {
    pub information: JobInformation,
    pub base0: u64,
    pub programs: Vec<JobProgram>,
    pub streams: Vec<StreamMoments>,
    pub tables: Vec<JobTable>,
    /// The warnings about the stream.
    pub warnings: Vec<Warning>,
}

// A contract sees its parts as lists.
impl Model for InputDraft {
    ghost use Rattle.job_inputs.specs.InputDrafts.{InputDraftView};

    ghost Value = { InputDraftView };

    ghost view = { λ d. record {
      information = d.information;
      base0 = d.base0;
      programs = d.programs.items;
      streams = d.streams.items;
      tables = d.tables.items;
      warnings = d.warnings.items;
    } };
}

/// Returns the programs that are taken.
pub(crate) fn selected_programs(
    alloc: Global,
    selected: &[u16],
    named: &[Program],
) -> Result<Vec<Program>, AllocError>
    ensures { IfOk result (λ taken. taken.items ≡ filter (is_selected_program selected.now) named.now) }
{
    named
        .iter()
        .filter(|program| is_selected_program(selected, program))
        .copied()
        .collect(alloc)
}

// Returns the warnings about packets and about tables that change.
#[tactic(auto, unfolding(crate::specs::JobInput::change_warnings))]
fn change_warnings(
    alloc: Global,
    options: &JobOptions<'_>,
    association: &Association,
    named: &[Program],
    findings: &[Finding<'_>],
) -> Result<Vec<Warning>, AllocError>
    ensures { IfOk result (λ warnings. warnings.items
        ≡ spec.change_warnings options.now association.now named.now (map finding_view findings.now)) }
{
    let mut warnings = Vec::new(alloc);
    push_packet_warnings(findings, &mut warnings)?;
    push_association_warnings(options, association, findings, &mut warnings)?;
    push_map_warnings(alloc, MapPart::NamedStreams, named, findings, &mut warnings)?;
    push_map_warnings(alloc, MapPart::Descriptors, named, findings, &mut warnings)?;
    Ok(warnings)
}

// Returns the warnings about packets, about the tables, about what options name, and about the network.
#[tactic(auto, unfolding(crate::specs::JobInput::table_warnings))]
fn table_warnings(
    alloc: Global,
    options: &JobOptions<'_>,
    association: &Association,
    named: &[Program],
    findings: &[Finding<'_>],
    found: &FoundPrograms,
) -> Result<Vec<Warning>, AllocError>
    ensures { IfOk result (λ warnings. warnings.items ≡ spec.table_warnings options.now association.now named.now
        (map finding_view findings.now) found.now) }
{
    let mut warnings = change_warnings(alloc, options, association, named, findings)?;
    push_table_warnings(&found.left_out, &mut warnings)?;
    push_stray_warnings(alloc, options.without, association, findings, &mut warnings)?;
    push_option_warnings(
        options.programs,
        options.without,
        options.buffers,
        options.names,
        options.aligned,
        association,
        &found.streams,
        &mut warnings,
    )?;
    let id = association.transport_stream_id;
    push_network_warnings(alloc, options.network, id, findings, &mut warnings)?;
    Ok(warnings)
}

// Adds the moments of streams whose units are as on the wire.
#[tactic(auto, unfolding(crate::specs::JobInput::with_streams, job_programs::specs::Answers::unless, job_programs::specs::Answers::and_then, job_programs::specs::Answers::Leads, crate::specs::InputDrafts::finished, job_programs::specs::Answers::Refuses), using(job_programs::proofs::AndThen::then_refuses))]
fn with_streams(
    alloc: Global,
    options: &JobOptions<'_>,
    findings: &[Finding<'_>],
    links: &PidLinks<Global>,
    transport_stream_id: u16,
    programs: Vec<JobProgram>,
    tables: Vec<JobTable>,
    warnings: Vec<Warning>,
    streams: Vec<WireStream<'_>>,
) -> Result<InputDraft, JobError>
    requires links { AreLinks links.now (pids_in (map finding_view findings.now)) }
    requires carried { All (IsCarried options.now.make_dts (map finding_view findings.now)) streams.items }
    ensures value { Leads (spec.with_streams options.now (map finding_view findings.now) transport_stream_id
        programs.items tables.items warnings.items streams.entry.items)
        (drafts.finished options.now (map finding_view findings.now)) result }
    ensures streams { IfOk result (λ d. All (IsMoved options.now.make_dts (map finding_view findings.now))
        (map (moments.timed_stream (map finding_view findings.now)) d.streams)) }
{
    if let Some(refusal) = stream_refusal(options.strict, options.lenient, &warnings, &streams) {
        return Err(JobError::Refused(refusal));
    }
    let earliest = earliest_of(&programs, &tables, &streams);
    let base0 = base0_of(
        options.base,
        first_base(alloc, earliest, &programs, &streams)?,
    );
    let moved = moved_streams(
        alloc,
        options.make_dts,
        earliest,
        &programs,
        streams,
        findings,
        links,
    )?;
    let information = information_of(alloc, options, transport_stream_id, findings, &programs)?;
    Ok(InputDraft {
        information,
        base0,
        programs,
        streams: moved,
        tables,
        warnings,
    })
}

// Adds the streams of programs that have PIDs.
#[tactic(auto, unfolding(crate::specs::JobInput::with_pids, crate::specs::JobInput::with_found, crate::specs::JobInput::job_warnings, crate::specs::JobInput::stream_warnings, job_programs::specs::Answers::Leads, job_programs::specs::Answers::Refuses))]
fn with_pids(
    alloc: Global,
    options: &JobOptions<'_>,
    count: u64,
    findings: &[Finding<'_>],
    association: &Association,
    named: &[Program],
    found: FoundPrograms,
    assigned: Vec<ProgramPids>,
) -> Result<InputDraft, JobError>
    ensures value { Leads (spec.with_pids options.now count (map finding_view findings.now) association.now
        named.now found assigned.items) (drafts.finished options.now (map finding_view findings.now)) result }
    ensures streams { IfOk result (λ d. All (IsMoved options.now.make_dts (map finding_view findings.now))
        (map (moments.timed_stream (map finding_view findings.now)) d.streams)) }
{
    let mut warnings = table_warnings(alloc, options, association, named, findings, &found)?;
    let links = PidLinks::new(alloc, findings)?;
    let streams = wire_streams(
        alloc,
        options,
        count,
        found.streams,
        findings,
        &links,
        &mut warnings,
    )?;
    let programs = job_programs(alloc, &streams, found.programs, assigned, &mut warnings)?;
    push_stream_warnings(alloc, count, &streams, findings, &links, &mut warnings)?;
    push_information_warnings(alloc, &programs, findings, &mut warnings)?;
    let tables = job_tables(
        alloc,
        options.without,
        count,
        findings,
        &programs,
        &streams,
        &found.tables,
    )?;
    let reported = reported(&tables, warnings);
    let id = association.transport_stream_id;
    with_streams(
        alloc, options, findings, &links, id, programs, tables, reported, streams,
    )
}

// Adds the PIDs of the programs found.
#[tactic(auto, unfolding(crate::specs::JobInput::with_programs, job_programs::specs::Answers::and_then, job_programs::specs::Answers::unless, job_programs::specs::Answers::Leads, job_programs::specs::Answers::Refuses))]
fn with_programs(
    alloc: Global,
    options: &JobOptions<'_>,
    count: u64,
    findings: &[Finding<'_>],
    association: &Association,
    named: &[Program],
    found: FoundPrograms,
) -> Result<InputDraft, JobError>
    ensures value { Leads (spec.with_programs options.now count (map finding_view findings.now) association.now
        named.now found) (drafts.finished options.now (map finding_view findings.now)) result }
    ensures streams { IfOk result (λ d. All (IsMoved options.now.make_dts (map finding_view findings.now))
        (map (moments.timed_stream (map finding_view findings.now)) d.streams)) }
{
    if found.programs.is_empty() {
        return Err(JobError::Refused(JobRefusal::NoProgram(numbers_named(&association.programs))));
    }
    let Some(assigned) = assigned_pids(alloc, &found)? else {
        return Err(JobError::Refused(JobRefusal::Pids));
    };
    with_pids(
        alloc,
        options,
        count,
        findings,
        association,
        named,
        found,
        assigned,
    )
}

// Adds the programs of an association.
#[tactic(auto, unfolding(crate::specs::JobInput::with_association, job_programs::specs::Answers::Leads, job_programs::specs::Answers::Refuses))]
fn with_association(
    alloc: Global,
    options: &JobOptions<'_>,
    count: u64,
    findings: &[Finding<'_>],
    association: &Association,
) -> Result<InputDraft, JobError>
    ensures value { Leads (spec.with_association options.now count (map finding_view findings.now) association.now)
        (drafts.finished options.now (map finding_view findings.now)) result }
    ensures streams { IfOk result (λ d. All (IsMoved options.now.make_dts (map finding_view findings.now))
        (map (moments.timed_stream (map finding_view findings.now)) d.streams)) }
{
    let named = selected_programs(alloc, options.programs, &association.programs)?;
    let found = found_programs(alloc, &named, findings)?;
    with_programs(alloc, options, count, findings, association, &named, found)
}

/// Returns what a job of these findings is made of, step by step, but for the bytes of its units.
#[tactic(auto, unfolding(crate::specs::JobInput::job_input, job_programs::specs::Answers::unless, job_programs::specs::Answers::and_then, job_programs::specs::Answers::Leads, job_programs::specs::Answers::Refuses))]
pub(crate) fn input_draft(
    alloc: Global,
    options: &JobOptions<'_>,
    count: u64,
    findings: &[Finding<'_>],
) -> Result<InputDraft, JobError>
    ensures value { Leads (spec.job_input options.now count (map finding_view findings.now))
        (drafts.finished options.now (map finding_view findings.now)) result }
    ensures streams { IfOk result (λ d. All (IsMoved options.now.make_dts (map finding_view findings.now))
        (map (moments.timed_stream (map finding_view findings.now)) d.streams)) }
{
    if let Some(refusal) = no_packets(count, findings) {
        return Err(JobError::Refused(refusal));
    }
    match named_programs(alloc, findings)? {
        Some(association) => with_association(alloc, options, count, findings, &association),
        None => Err(JobError::Refused(JobRefusal::NoAssociation)),
    }
}
