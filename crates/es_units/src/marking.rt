//! The marks that are asked for, set on findings.

ghost use Rattle.std.specs.Prelude.{◌≡◌, ◌==◌, map};
ghost use Rattle.std.specs.List.{list_any};
ghost use Rattle.pid_findings.specs.Shown.{finding_view, part_bytes, what_view};
ghost use Rattle.es_units.specs.Marking as spec;

use pes_packet::{PesFlags, PesHeader};
use pid_findings::{Finding, Kind, What};
use std::alloc::Global;
use std::marker::Model;
use std::mem;
use stream_coding::is_access_point;

/// A PID, and the stream_type of its stream (ISO/IEC 13818-1, table 2-34).
#[derive(Clone, Copy)]
pub struct TypedPid {
    pub pid: u16,
    pub stream_type: u8,
}

/// The marks that are asked for.
#[derive(Drop)]
pub struct Marking {
    /// The PIDs whose access points are marked, with their stream_types.
    pub access: Vec<TypedPid>,
    /// The PIDs whose PES packets are aligned.
    pub aligned: Vec<u16>,
}

// A contract sees its lists.
impl Model for Marking {
    ghost use Rattle.es_units.specs.Marking.{MarkingView};

    ghost Value = { MarkingView };

    ghost view = { λ m. record { access = m.access.items; aligned = m.aligned.items } };
}

// The stream_type of a PID.
fn type_of(pid: u16, types: &[TypedPid]) -> Option<u8>
    ensures { result ≡ spec.type_of pid types.now }
{
    for typed in types {
        if typed.pid == pid {
            return Some(typed.stream_type);
        }
    }
    None
}

// Whether a decoder may begin with these bytes of a stream of this stream_type.
#[tactic(auto, unfolding(crate::specs::Marking::can_begin))]
fn can_begin(stream_type: Option<u8>, body: &[u8]) -> bool
    ensures { result ≡ spec.can_begin stream_type body.now }
{
    match stream_type {
        None => false,
        Some(stream_type) => is_access_point(stream_type, body),
    }
}

// Returns whether a decoder may begin with a finding of a PID.
#[tactic(auto, unfolding(crate::specs::Marking::is_begin))]
fn is_begin(types: &[TypedPid], pid: Option<u16>, what: &What<'_>) -> bool
    ensures { result ≡ spec.is_begin types.now pid (what_view what.now) }
{
    let Some(pid) = pid else {
        return false;
    };
    match what {
        What::Pes { body, .. } => can_begin(type_of(pid, types), body.bytes()),
        _ => false,
    }
}

// What begins, with the random_access_indicator.
#[tactic(auto, unfolding(crate::specs::Marking::with_access))]
fn with_access(begun: Option<(u64, Kind)>) -> Option<(u64, Kind)>
    ensures { result ≡ spec.with_access begun }
{
    match begun {
        None => None,
        Some((packet, Kind::Table(id))) => Some((packet, Kind::Table(id))),
        Some((packet, Kind::Pes { stamped, .. })) => Some((
            packet,
            Kind::Pes {
                stamped,
                access: true,
            },
        )),
    }
}

// Returns whether a PID is in a list.
fn is_among(pids: &[u16], pid: u16) -> bool
    ensures { result ≡ list_any (λ p. p == pid) pids.now }
{
    pids.iter().any(|other| *other == pid)
}

// Whether a finding of a PID is aligned.
#[tactic(auto, unfolding(crate::specs::Marking::is_aligned))]
fn is_aligned(pids: &[u16], pid: Option<u16>) -> bool
    ensures { result ≡ spec.is_aligned pids.now pid }
{
    match pid {
        None => false,
        Some(pid) => is_among(pids, pid),
    }
}

// A header that says so.
fn aligned_header(header: PesHeader) -> PesHeader
    ensures { result ≡ spec.aligned_header header }
{
    let PesFlags {
        priority,
        copyright,
        original,
        ..
    } = header.flags;
    PesHeader {
        id: header.id,
        len: header.len,
        stamps: header.stamps,
        flags: PesFlags {
            priority,
            aligned: true,
            copyright,
            original,
        },
        data_length: header.data_length,
        private_data: header.private_data,
    }
}

// Returns what a finding has, with such a header if it is a PES packet.
#[tactic(auto, unfolding(crate::specs::Marking::with_alignment))]
fn with_alignment<'a>(what: What<'a>) -> What<'a>
    ensures { what_view result ≡ spec.with_alignment (what_view what.entry) }
{
    match what {
        What::Pes {
            header,
            unended,
            body,
        } => What::Pes {
            header: aligned_header(header),
            unended,
            body,
        },
        other => other,
    }
}

impl Marking {
    /// Returns a marking that marks nothing.
    pub fn none(alloc: Global) -> Marking
        ensures { result ≡ spec.no_marking }
    {
        Marking {
            access: Vec::new(alloc),
            aligned: Vec::new(alloc),
        }
    }

    // Marks a finding.
    fn mark(&self, finding: &mut Finding<'_>)
        ensures { finding_view finding.new ≡ spec.marked self.now (finding_view finding.old) }
    {
        if is_begin(&self.access, finding.pid, &finding.what) {
            finding.begun = with_access(finding.begun);
        }
        if is_aligned(&self.aligned, finding.pid) {
            let what = mem::replace(&mut finding.what, What::Duplicate);
            finding.what = with_alignment(what);
        }
    }

    /// Marks all findings.
    pub fn mark_all(&self, findings: &mut [Finding<'_>])
        ensures { map finding_view findings.new ≡ spec.all_marked self.now (map finding_view findings.old) }
    {
        for finding in findings.iter_mut() {
            self.mark(finding);
        }
    }
}
