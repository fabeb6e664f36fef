//! Whether a stream has packets of 188 bytes (ISO/IEC 13818-1, 2.4.3.2).

ghost use Rattle.std.specs.Prelude.{◌≡◌, map};
ghost use Rattle.pid_findings.specs.Shown.{finding_view};
ghost use Rattle.job_programs.specs.Packets as spec;

use crate::refusal::JobRefusal;
use pid_findings::{Finding, What};

// Returns whether a finding is of 188 bytes that are no transport packet.
#[tactic(auto, unfolding(crate::specs::Packets::is_bad))]
fn is_bad(finding: &Finding<'_>) -> bool
    ensures { result ≡ spec.is_bad (finding_view finding.now).what }
{
    matches!(finding.what, What::BadPacket(_))
}

// Counts the pieces of 188 bytes that are no transport packets.
fn bad_packets(findings: &[Finding<'_>]) -> usize
    ensures { result ≡ spec.bad_packets (map finding_view findings.now) }
{
    findings.iter().filter(|finding| is_bad(finding)).count()
}

/// Refuses `count` packets of 188 bytes if more than half of them are no transport packets.
#[tactic(auto, unfolding(crate::specs::Packets::no_packets))]
pub fn no_packets(count: u64, findings: &[Finding<'_>]) -> Option<JobRefusal>
    ensures { result ≡ spec.no_packets count (map finding_view findings.now) }
{
    if count / 2 < bad_packets(findings) as u64 {
        Some(JobRefusal::NoPackets)
    } else {
        None
    }
}
