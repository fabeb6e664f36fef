//! Programs that would be written without a picture, or without sound.

ghost use Rattle.std.specs.Prelude.{◌≡◌};
ghost use Rattle.std.specs.List.{list_any};
ghost use Rattle.job_programs.specs.JobStreams.{is_stream_of};
ghost use Rattle.job_inputs.specs.LackingPrograms as spec;

use crate::nothing_carried::nothing_carried;
use job_programs::job_stream::is_stream_of;
use job_programs::{JobRefusal, LeftOutCause, NamedStream, StreamKind, Warning, WireStream};
use job_units::stream_kinds::kind_of;

// Returns why a stream is left out, if the refusal is about a stream.
#[tactic(auto, unfolding(crate::specs::LackingPrograms::cause_of))]
fn cause_of(why: JobRefusal) -> Option<LeftOutCause>
    ensures { result ≡ spec.cause_of why }
{
    match why {
        JobRefusal::Scrambled(_) => Some(LeftOutCause::Scrambled),
        JobRefusal::StreamId { packet, id, .. } => Some(LeftOutCause::StreamId { packet, id }),
        JobRefusal::NoStamps(_) => Some(LeftOutCause::NoStamps),
        JobRefusal::OtherStreamId {
            packet,
            id,
            first,
            ..
        } => Some(LeftOutCause::OtherStreamId { packet, id, first }),
        JobRefusal::Stamps {
            packet,
            fault,
            mended,
            ..
        } => Some(LeftOutCause::Stamps {
            packet,
            fault,
            mended,
        }),
        JobRefusal::Dts { fault, .. } => Some(LeftOutCause::Dts(fault)),
        JobRefusal::Units { count, .. } => Some(LeftOutCause::Units(count)),
        JobRefusal::Size { size, .. } => Some(LeftOutCause::Size(size)),
        JobRefusal::Buffers {
            size,
            rx,
            main,
            way_out,
            ..
        } => Some(LeftOutCause::Buffers {
            size,
            rx,
            main,
            way_out,
        }),
        _ => None,
    }
}

// Returns whether a stream is of this kind.
#[tactic(auto, unfolding(crate::specs::LackingPrograms::is_kind))]
fn is_kind(kind: StreamKind, of: Option<StreamKind>) -> bool
    ensures { result ≡ spec.is_kind kind of }
{
    match of {
        None => false,
        Some(StreamKind::Picture) => match kind {
            StreamKind::Picture => true,
            StreamKind::Sound => false,
        },
        Some(StreamKind::Sound) => match kind {
            StreamKind::Picture => false,
            StreamKind::Sound => true,
        },
    }
}

// Returns whether a stream is a program's, and of this kind.
fn is_of(program: u16, kind: StreamKind, stream: &WireStream<'_>) -> bool
    ensures { result ≡ spec.is_of program kind stream.now }
{
    is_stream_of(program, stream) && is_kind(kind, kind_of(stream.stream_type, &stream.descriptors))
}

// Returns whether a stream of a program is carried.
fn has_stream(program: u16, streams: &[WireStream<'_>]) -> bool
    ensures { result ≡ list_any (is_stream_of program) streams.now }
{
    streams.iter().any(|stream| is_stream_of(program, stream))
}

// Returns whether a stream of a program of this kind is carried.
fn has_kind(program: u16, kind: StreamKind, streams: &[WireStream<'_>]) -> bool
    ensures { result ≡ list_any (spec.is_of program kind) streams.now }
{
    streams.iter().any(|stream| is_of(program, kind, stream))
}

// Returns the refusal for a stream of this kind that is left out, if its program would be written without.
#[tactic(auto, unfolding(crate::specs::LackingPrograms::lacking_kind))]
fn lacking_kind(
    streams: &[WireStream<'_>],
    program: u16,
    pid: u16,
    kind: StreamKind,
    cause: LeftOutCause,
) -> Option<JobRefusal>
    ensures { result ≡ spec.lacking_kind streams.now program pid kind cause }
{
    if has_stream(program, streams) && !has_kind(program, kind, streams) {
        Some(JobRefusal::Lacking {
            program,
            pid,
            kind,
            cause,
        })
    } else {
        None
    }
}

// Returns the refusal for a stream that is left out for this cause, if its program lacks it.
#[tactic(auto, unfolding(crate::specs::LackingPrograms::lacking_stream, crate::specs::LackingPrograms::lacking_if))]
fn lacking_stream(
    streams: &[WireStream<'_>],
    stream: NamedStream,
    cause: LeftOutCause,
) -> Option<JobRefusal>
    ensures { result ≡ spec.lacking_stream streams.now stream cause }
{
    match stream.kind {
        None => None,
        Some(kind) => lacking_kind(streams, stream.program, stream.pid, kind, cause),
    }
}

// Returns the refusal for a stream that is left out for this reason, if its program lacks it.
#[tactic(auto, unfolding(crate::specs::LackingPrograms::lacking_for))]
fn lacking_for(
    streams: &[WireStream<'_>],
    stream: NamedStream,
    why: JobRefusal,
) -> Option<JobRefusal>
    ensures { result ≡ spec.lacking_for streams.now stream (spec.cause_of why) }
{
    match cause_of(why) {
        None => None,
        Some(cause) => lacking_stream(streams, stream, cause),
    }
}

// Returns the refusal for a warning about a stream that its program lacks.
#[tactic(auto, unfolding(crate::specs::LackingPrograms::lacking_by))]
fn lacking_by(streams: &[WireStream<'_>], warning: Warning) -> Option<JobRefusal>
    ensures { result ≡ spec.lacking_by streams.now warning }
{
    match warning {
        Warning::StreamId { stream, packet, id } => {
            lacking_stream(streams, stream, LeftOutCause::StreamId { packet, id })
        }
        Warning::LeftOut { stream, why } => lacking_for(streams, stream, why),
        _ => None,
    }
}

// Returns the refusal for the first warning about a stream that its program lacks.
fn first_lacking(streams: &[WireStream<'_>], warnings: &[Warning]) -> Option<JobRefusal>
    ensures { result ≡ spec.first_lacking streams.now warnings.now }
{
    for warning in warnings {
        if let Some(refusal) = lacking_by(streams, *warning) {
            return Some(refusal);
        }
    }
    None
}

// Returns the same, unless programs may lack pictures and sound.
fn lacking_unless(
    lenient: bool,
    streams: &[WireStream<'_>],
    warnings: &[Warning],
) -> Option<JobRefusal>
    ensures { result ≡ spec.lacking_unless lenient streams.now warnings.now }
{
    if lenient {
        None
    } else {
        first_lacking(streams, warnings)
    }
}

/// Returns the refusal of a transport stream for its streams that are not carried: none is carried; if `strict`, one is
/// not; unless `lenient`, a program would be written without a picture, or without sound, that can't be carried.
#[tactic(auto, unfolding(crate::specs::LackingPrograms::stream_refusal))]
pub(crate) fn stream_refusal(
    strict: bool,
    lenient: bool,
    warnings: &[Warning],
    streams: &[WireStream<'_>],
) -> Option<JobRefusal>
    ensures { result ≡ spec.stream_refusal strict lenient warnings.now streams.now }
{
    match nothing_carried(strict, warnings, streams) {
        Some(refusal) => Some(refusal),
        None => lacking_unless(lenient, streams, warnings),
    }
}
