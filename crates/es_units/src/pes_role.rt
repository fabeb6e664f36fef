//! The role of a finding among the units of a PID.

ghost use Rattle.std.specs.Prelude.{◌≡◌, ◌↔◌, false, IsTrue, Some};
ghost use Rattle.demux.specs.Laws.{has_pid};
ghost use Rattle.pid_findings.specs.Shown.{finding_view};
ghost use Rattle.es_units.specs.CarriedUnits as spec;
ghost use Rattle.es_units.specs.Shown.{role_view};

use pes_packet::{Marks, Stamps};
use pid_findings::{Finding, Kind, What};
use std::alloc::Allocator;

/// The first PES packet of a unit.
#[derive(Clone, Copy)]
pub(crate) struct UnitStart<'f> {
    pub packet: u64,
    pub stream_id: u8,
    pub dts: u64,
    pub pts: u64,
    pub marks: Marks,
    pub body: &'f [u8],
}

/// The role of a finding among the units of a PID.
#[derive(Clone, Copy)]
pub(crate) enum PesRole<'f> {
    /// A duplicate packet, stray payload, padding_stream, or a finding of no PID or of another one.
    Ignored,
    /// A PES packet with a PTS: the first of a unit.
    Start(UnitStart<'f>),
    /// A PES packet without a PTS: more bytes of a unit of this stream_id.
    Continuation(u8, &'f [u8]),
    /// Anything else, and whether a PES packet without a PTS is cut short: the unit ends.
    Interruption(bool),
}

/// padding_stream (ISO/IEC 13818-1, table 2-22).
pub(crate) const PADDING_STREAM: u8 = 0xbe;

// Returns the role of a PES packet with these marks and stamps.
#[tactic(auto, unfolding(crate::specs::CarriedUnits::pes_role))]
fn pes_role<'f>(
    packet: u64,
    stream_id: u8,
    marks: Marks,
    stamps: Stamps,
    body: &'f [u8],
) -> PesRole<'f>
    ensures { role_view result ≡ spec.pes_role packet stream_id marks stamps body.now }
{
    let (dts, pts) = match stamps {
        Stamps::Absent => {
            if stream_id == PADDING_STREAM {
                return PesRole::Ignored;
            }
            return PesRole::Continuation(stream_id, body);
        }
        Stamps::Pts(pts) => (pts, pts),
        Stamps::PtsDts { pts, dts } => (dts, pts),
    };
    PesRole::Start(UnitStart {
        packet,
        stream_id,
        dts,
        pts,
        marks,
        body,
    })
}

/// Returns the packet of the finding's first byte.
#[tactic(auto, unfolding(crate::specs::CarriedUnits::first_packet))]
pub(crate) fn first_packet(packet: u64, begun: Option<(u64, Kind)>) -> u64
    ensures { result ≡ spec.first_packet packet begun }
{
    match begun {
        None => packet,
        Some((first, _)) => first,
    }
}

// Returns whether a PES packet without a readable PTS begins.
#[tactic(auto, unfolding(crate::specs::CarriedUnits::is_unstamped))]
fn is_unstamped(begun: Option<(u64, Kind)>) -> bool
    ensures { result ≡ spec.is_unstamped begun }
{
    match begun {
        Some((_, Kind::Pes { stamped, .. })) => !stamped,
        _ => false,
    }
}

// Returns whether a PES packet begins whose first packet has the random_access_indicator.
#[tactic(auto, unfolding(crate::specs::CarriedUnits::is_access_point))]
fn is_access_point(begun: Option<(u64, Kind)>) -> bool
    ensures { result ≡ spec.is_access_point begun }
{
    match begun {
        Some((_, Kind::Pes { access, .. })) => access,
        _ => false,
    }
}

/// Returns whether a finding is of a PID. A finding of another PID is ignored.
#[tactic(auto, unfolding(crate::specs::CarriedUnits::role_of))]
pub(crate) fn is_on<A: Allocator>(pid: u16, finding: &Finding<'_, A>) -> bool
    ensures on { IsTrue result ↔ (finding.now.pid ≡ Some pid) }
    ensures same { result ≡ has_pid pid finding.now.pid }
    ensures other { result ≡ false → spec.role_of pid (finding_view finding.now) ≡ spec.Ignored }
{
    finding.pid == Some(pid)
}

/// Returns the role of a finding among the units of a PID.
#[tactic(auto, unfolding(crate::specs::CarriedUnits::role_of, crate::specs::CarriedUnits::role_of_what))]
pub(crate) fn role_of<'f, A: Allocator>(pid: u16, finding: &'f Finding<'_, A>) -> PesRole<'f>
    ensures { role_view result ≡ spec.role_of pid (finding_view finding.now) }
{
    if finding.pid != Some(pid) {
        return PesRole::Ignored;
    }
    match &finding.what {
        What::Duplicate => PesRole::Ignored,
        What::BadPacket(_) => PesRole::Ignored,
        What::Errored => PesRole::Ignored,
        What::Stray(_) => PesRole::Ignored,
        What::Pes { header, body, .. } => pes_role(
            first_packet(finding.packet, finding.begun),
            header.id,
            header.marks(is_access_point(finding.begun)),
            header.stamps,
            body.bytes(),
        ),
        What::Truncated(_) => PesRole::Interruption(is_unstamped(finding.begun)),
        _ => PesRole::Interruption(false),
    }
}
