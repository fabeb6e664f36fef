//! The marks that the options of a job ask for, set on the findings of a stream.

ghost use Rattle.std.specs.Prelude.{◌≡◌, IfOk, Some, map};
ghost use Rattle.pid_findings.specs.Shown.{finding_view};
ghost use Rattle.job_inputs.specs.AskedMarks as spec;

use crate::input_draft::selected_programs;
use es_units::{Marking, TypedPid};
use job_programs::JobOptions;
use pid_findings::Finding;
use program_tables::{Association, named_programs};
use std::alloc::{AllocError, Global};
use stream_programs::{FoundStream, found_programs};

// Returns the PID of a stream, and its stream_type.
fn typed_pid(stream: &FoundStream) -> TypedPid
    ensures { result ≡ spec.typed_pid stream.now }
{
    TypedPid {
        pid: stream.pid,
        stream_type: stream.stream_type,
    }
}

// Returns the PID and the stream_type of each stream.
fn typed_pids(alloc: Global, streams: &[FoundStream]) -> Result<Vec<TypedPid>, AllocError>
    ensures { IfOk result (λ types. types.items ≡ map spec.typed_pid streams.now) }
{
    streams
        .iter()
        .map(|stream| typed_pid(stream))
        .collect(alloc)
}

// Returns the PID and the stream_type of each stream of the selected programs.
#[tactic(auto, unfolding(crate::specs::AskedMarks::types_by))]
fn types_in(
    alloc: Global,
    options: &JobOptions<'_>,
    association: &Association,
    findings: &[Finding<'_>],
) -> Result<Vec<TypedPid>, AllocError>
    ensures { IfOk result (λ types. types.items
        ≡ spec.types_by options.now (map finding_view findings.now) (Some association.now)) }
{
    let named = selected_programs(alloc, options.programs, &association.programs)?;
    let found = found_programs(alloc, &named, findings)?;
    typed_pids(alloc, &found.streams)
}

// Returns the streams whose access points are marked: all of the selected programs, if the option asks for it.
#[tactic(auto, unfolding(crate::specs::AskedMarks::marking_of, crate::specs::AskedMarks::types_by))]
fn access_of(
    alloc: Global,
    options: &JobOptions<'_>,
    findings: &[Finding<'_>],
) -> Result<Vec<TypedPid>, AllocError>
    ensures { IfOk result (λ types. types.items
        ≡ (spec.marking_of options.now (map finding_view findings.now)).access) }
{
    if !options.mark_access {
        return Ok(Vec::new(alloc));
    }
    match named_programs(alloc, findings)? {
        None => Ok(Vec::new(alloc)),
        Some(association) => types_in(alloc, options, &association, findings),
    }
}

// Returns the marks that the options ask for.
#[tactic(auto, unfolding(crate::specs::AskedMarks::marking_of))]
fn marking_of(
    alloc: Global,
    options: &JobOptions<'_>,
    findings: &[Finding<'_>],
) -> Result<Marking, AllocError>
    ensures { IfOk result (λ m. m ≡ spec.marking_of options.now (map finding_view findings.now)) }
{
    let access = access_of(alloc, options, findings)?;
    let aligned = Vec::from_slice(alloc, options.aligned)?;
    Ok(Marking { access, aligned })
}

/// Sets the marks that the options ask for on the findings of a stream.
pub fn mark_as_asked(
    alloc: Global,
    options: &JobOptions<'_>,
    findings: Vec<Finding<'static>>,
) -> Result<Vec<Finding<'static>>, AllocError>
    ensures { IfOk result (λ marked. map finding_view marked.items
        ≡ spec.as_asked options.now (map finding_view findings.entry.items)) }
{
    let mut findings = findings;
    let marking = marking_of(alloc, options, &findings)?;
    marking.mark_all(&mut findings);
    Ok(findings)
}
