//! An elementary stream of a job.

ghost use Rattle.std.specs.Prelude.{◌≡◌};
ghost use Rattle.job_programs.specs.JobStreams as spec;

use crate::job_options::is_among;
use es_moments::{FoundUnit, UnitMoment};
use pes_packet::Unit;
use std::marker::Model;

/// An elementary stream that has units.
#[derive(Drop)]
pub struct JobStream<U> {
    /// The number of its program.
    pub program: u16,
    pub pid: u16,
    pub stream_type: u8,
    pub stream_id: u8,
    /// The descriptors of the stream in the program map.
    pub descriptors: Vec<u8>,
    /// The numbers of further programs that share it.
    pub shared_with: Vec<u16>,
    pub units: Vec<U>,
}

/// A stream whose units have the stamps on the wire, and their bytes in place in the findings.
pub type WireStream<'f> = JobStream<FoundUnit<'f>>;

/// A stream with the moments of its units, without their bytes.
pub type StreamMoments = JobStream<UnitMoment>;

/// A stream whose units are at moments of a run.
pub type TimedStream = JobStream<Unit>;

// A contract sees its bytes and units as lists.
impl<U> Model for JobStream<U> {
    ghost use Rattle.job_programs.specs.JobStreams.{JobStreamView, stream_code};

    ghost Value = { JobStreamView U };

    ghost coded = { stream_code U.code };

    ghost view = { λ s. record {
      program = s.program;
      pid = s.pid;
      stream_type = s.stream_type;
      stream_id = s.stream_id;
      descriptors = s.descriptors.items;
      shared_with = s.shared_with.items;
      units = s.units.items;
    } };
}

/// Returns whether a program has a stream, as its own or a shared one.
#[tactic(auto, unfolding(crate::specs::JobStreams::is_stream_of))]
pub fn is_stream_of<U>(number: u16, stream: &JobStream<U>) -> bool
    ensures { result ≡ spec.is_stream_of number stream.now }
{
    stream.program == number || is_among(number, &stream.shared_with)
}
