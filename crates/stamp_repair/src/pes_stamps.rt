//! The stamps of PES packets.

ghost use Rattle.std.specs.Prelude.{◌≡◌};
ghost use Rattle.pid_findings.specs.Shown.{finding_view, what_view};
ghost use Rattle.stamp_repair.specs.PesStamps as spec;

use pes_packet::Stamps;
use pid_findings::{Finding, Kind, What};

/// The stamps of a PES packet.
#[derive(Clone, Copy)]
pub struct PesStamp {
    /// The packet of its first byte.
    pub packet: u64,
    /// When it is decoded, in units of 90 kHz modulo 2^33.
    pub dts: u64,
    /// When it is presented.
    pub pts: u64,
}

/// Returns the packet of a finding's first byte.
#[tactic(auto, unfolding(crate::specs::PesStamps::begin_of))]
pub fn begin_of(begun: Option<(u64, Kind)>, packet: u64) -> u64
    ensures { result ≡ spec.begin_of begun packet }
{
    match begun {
        None => packet,
        Some((first, _)) => first,
    }
}

// Returns the stamps of a PES packet that begins in a packet.
#[tactic(auto, unfolding(crate::specs::PesStamps::stamp_of))]
fn stamp_of(packet: u64, stamps: Stamps) -> Option<PesStamp>
    ensures { result ≡ spec.stamp_of packet stamps }
{
    match stamps {
        Stamps::Absent => None,
        Stamps::Pts(pts) => Some(PesStamp {
            packet,
            dts: pts,
            pts,
        }),
        Stamps::PtsDts { pts, dts } => Some(PesStamp { packet, dts, pts }),
    }
}

// Returns the stamps of what is found, if it is a PES packet.
#[tactic(auto, unfolding(crate::specs::PesStamps::stamp_in))]
fn stamp_in(packet: u64, what: &What<'_>) -> Option<PesStamp>
    ensures { result ≡ spec.stamp_in packet (what_view what.now) }
{
    match what {
        What::Pes { header, .. } => stamp_of(packet, header.stamps),
        _ => None,
    }
}

/// Returns the stamps of a finding, if it is a PES packet that has any.
pub fn stamp_at(finding: &Finding<'_>) -> Option<PesStamp>
    ensures { result ≡ spec.stamp_at (finding_view finding.now) }
{
    stamp_in(begin_of(finding.begun, finding.packet), &finding.what)
}
