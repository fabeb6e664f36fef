//! Why no stream is carried, or a stream is not.

ghost use Rattle.std.specs.Prelude.{◌≡◌};
ghost use Rattle.job_inputs.specs.LackingPrograms as spec;

use job_programs::{JobRefusal, Warning, WireStream};

// Returns the refusal for a warning that a stream is not carried.
#[tactic(auto, unfolding(crate::specs::LackingPrograms::why_nothing))]
fn why_nothing(warning: Warning) -> Option<JobRefusal>
    ensures { result ≡ spec.why_nothing warning }
{
    match warning {
        Warning::StreamId { stream, packet, id } => Some(JobRefusal::StreamId {
            packet,
            pid: stream.pid,
            id,
        }),
        Warning::LeftOut { why, .. } => Some(why),
        _ => None,
    }
}

// Returns the refusal for the first warning that has one.
fn first_why(warnings: &[Warning]) -> Option<JobRefusal>
    ensures { result ≡ spec.first_why warnings.now }
{
    for warning in warnings {
        if let Some(refusal) = why_nothing(*warning) {
            return Some(refusal);
        }
    }
    None
}

/// Returns the refusal of a transport stream if no stream can be carried: each cannot be written, is scrambled or does
/// not fit a job. If `strict`, a single stream that is not carried is refused too.
#[tactic(auto, unfolding(crate::specs::LackingPrograms::nothing_carried))]
pub(crate) fn nothing_carried(
    strict: bool,
    warnings: &[Warning],
    streams: &[WireStream<'_>],
) -> Option<JobRefusal>
    ensures { result ≡ spec.nothing_carried strict warnings.now streams.now }
{
    if streams.is_empty() || strict {
        first_why(warnings)
    } else {
        None
    }
}
