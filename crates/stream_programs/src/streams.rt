//! Which streams of a program map table are kept.

ghost use Rattle.std.specs.Prelude.{◌≡◌, OnErr, OnOk};
ghost use Rattle.std.specs.List.{list_any};
ghost use Rattle.stream_programs.specs.Streams as spec;

use crate::omission::TableOmission;
use std::alloc::{AllocError, Allocator, Global};
use std::marker::Model;

/// An elementary stream of a program.
///
/// Several programs may have it (regional services with one picture): it belongs to the first program that names it,
/// and later programs share it.
#[derive(Drop)]
pub struct FoundStream<A: Allocator = Global> {
    /// program_number of its program.
    pub program: u16,
    pub stream_type: u8,
    pub pid: u16,
    /// Its whole descriptors except descriptors of conditional access and of a multiplex.
    pub descriptors: Vec<u8, A>,
    /// The program_numbers of further programs whose program map tables name it.
    pub shared_with: Vec<u16, A>,
}

// A contract sees the descriptors as a list of bytes.
impl<A: Allocator> Model for FoundStream<A> {
    ghost use Rattle.stream_programs.specs.Streams.{FoundStreamView};

    ghost Value = { FoundStreamView };

    ghost view = { λ s. record {
      program = s.program;
      stream_type = s.stream_type;
      pid = s.pid;
      descriptors = s.descriptors.items;
      shared_with = s.shared_with.items;
    } };
}

// Returns whether streams of a type have no PES packets that a job carries: sections (ISO/IEC 13818-1, table 2-34; SCTE
// 35 for 0x86), and DSM-CC (0x08), which has its own stream_id.
#[tactic(auto, unfolding(crate::specs::Streams::has_no_pes))]
fn has_no_pes(stream_type: u8) -> bool
    ensures { result ≡ spec.has_no_pes stream_type }
{
    stream_type == 0x05
        || stream_type == 0x08
        || stream_type >= 0x0a && stream_type <= 0x0d
        || stream_type == 0x13
        || stream_type == 0x14
        || stream_type >= 0x16 && stream_type <= 0x19
        || stream_type == 0x86
}

/// Returns whether a PID is kept for tables (below 32) or null packets (ISO/IEC 13818-1, table 2-3; EN 300 468, 5.1.3).
#[tactic(auto, unfolding(crate::specs::Streams::is_reserved))]
pub(crate) fn is_reserved(pid: u16) -> bool
    ensures { result ≡ spec.is_reserved pid }
{
    pid < 32 || pid >= 8191
}

/// Returns the program of the stream that has a PID.
pub(crate) fn holder<A: Allocator>(pid: u16, streams: &[FoundStream<A>]) -> Option<u16>
    ensures { result ≡ spec.holder pid streams.now }
{
    for stream in streams {
        if stream.pid == pid {
            return Some(stream.program);
        }
    }
    None
}

impl<A: Allocator> FoundStream<A> {
    // Returns whether both entries have the same PID, stream_type and descriptors.
    #[tactic(auto, unfolding(crate::specs::Streams::is_alike))]
    fn is_alike(&self, other: &FoundStream<A>) -> bool
        ensures { result ≡ spec.is_alike self.now other.now }
    {
        self.pid == other.pid
            && self.stream_type == other.stream_type
            && self.descriptors.as_slice() == other.descriptors.as_slice()
    }

    fn push_sharer(&mut self, number: u16) -> Result<(), AllocError>
        ensures ok { OnOk result (self.new ≡ spec.with_sharer number self.old) }
        ensures err { OnErr result (self.new ≡ self.old) }
    {
        self.shared_with.push(number)?;
        Ok(())
    }
}

/// Returns whether any of these streams has the same entry as `other`, from another program's map.
pub(crate) fn has_alike<A: Allocator>(streams: &[FoundStream<A>], other: &FoundStream<A>) -> bool
    ensures { result ≡ list_any (spec.is_alike other.now) streams.now }
{
    streams.iter().any(|stream| other.is_alike(stream))
}

/// Adds a program to the programs that share the stream of a PID.
pub(crate) fn share<A: Allocator>(
    number: u16,
    pid: u16,
    streams: &mut Vec<FoundStream<A>, A>,
) -> Result<(), AllocError>
    ensures ok { OnOk result (streams.new.items ≡ spec.shared_by number pid streams.old.items) }
    ensures err { OnErr result (streams.new.items ≡ streams.old.items) }
{
    for k in 0..streams.len() {
        if streams[k].pid == pid {
            let stream = &mut streams[k];
            return stream.push_sharer(number);
        }
    }
    Ok(())
}

/// Returns why a stream is left out; `holder`: the program that already has its PID.
#[tactic(auto, unfolding(crate::specs::Streams::omission_of))]
pub(crate) fn omission_of(
    program: u16,
    stream_type: u8,
    pid: u16,
    holder: Option<u16>,
) -> Option<TableOmission>
    ensures { result ≡ spec.omission_of program stream_type pid holder }
{
    if has_no_pes(stream_type) {
        return Some(TableOmission::NoPes {
            program,
            pid,
            stream_type,
        });
    }
    if is_reserved(pid) {
        return Some(TableOmission::Reserved { program, pid });
    }
    match holder {
        None => None,
        Some(holder) => Some(TableOmission::Taken {
            program,
            pid,
            holder,
        }),
    }
}
