//! Which PIDs have PES packets of private_stream_1, none of them with a stamp.

ghost use Rattle.std.specs.Prelude.{◌≡◌, IfOk, OnOk, map, nat_eq};
ghost use Rattle.std.specs.Map.{lookup};
ghost use Rattle.pid_findings.specs.OpenUnits.{is_stamped};
ghost use Rattle.pid_findings.specs.Shown.{finding_view, what_view};
ghost use Rattle.stamp_repair.specs.DataTimes as spec;

use pes_packet::Stamps;
use pid_findings::{Finding, What};
use pid_map::PidMap;
use std::alloc::{AllocError, Global};
use std::marker::Model;

/// private_stream_1 (ISO/IEC 13818-1, table 2-22).
pub(crate) const PRIVATE_STREAM: u8 = 0xbd;

/// Whether any PES packet of private_stream_1 has a PTS, for each PID with such packets.
#[derive(Drop)]
pub(crate) struct SeenStamps {
    seen: PidMap<bool, Global>,
}

// A contract sees its entries.
impl Model for SeenStamps {
    ghost use Rattle.stamp_repair.specs.DataTimes.{SeenStamps};

    ghost Value = { SeenStamps };

    ghost view = { λ s. s.seen.entries };
}

// Whether a header has a PTS.
fn is_stamped(stamps: Stamps) -> bool
    ensures { result ≡ is_stamped stamps }
{
    match stamps {
        Stamps::Absent => false,
        _ => true,
    }
}

// Returns whether a finding, if it is a PES packet of private_stream_1, has a PTS.
#[tactic(auto, unfolding(crate::specs::DataTimes::data_pts))]
fn data_pts(what: &What<'_>) -> Option<bool>
    ensures { result ≡ spec.data_pts (what_view what.now) }
{
    match what {
        What::Pes { header, .. } => {
            if header.id == PRIVATE_STREAM {
                Some(is_stamped(header.stamps))
            } else {
                None
            }
        }
        _ => None,
    }
}

impl SeenStamps {
    // Returns whether a PES packet with a PTS was seen on a PID, if it has any.
    fn of(&self, pid: u16) -> Option<bool>
        ensures { result ≡ lookup (nat_eq pid) self.now }
    {
        self.seen.entries().get(&pid).copied()
    }

    /// Returns whether a PID has such packets, and none of them has a PTS.
    #[tactic(auto, unfolding(crate::specs::DataTimes::is_unstamped))]
    pub(crate) fn is_unstamped(&self, pid: u16) -> bool
        ensures { result ≡ spec.is_unstamped self.now pid }
    {
        !self.of(pid).unwrap_or(true)
    }

    // Sees such a packet on a PID.
    fn see(&mut self, pid: u16, stamped: bool) -> Result<(), AllocError>
        ensures { OnOk result (self.new ≡ spec.with_seen self.old pid stamped) }
    {
        let before = self.of(pid).unwrap_or(false);
        self.seen.insert(pid, stamped || before)?;
        Ok(())
    }

    // Sees a finding of a PID.
    #[tactic(auto, unfolding(crate::specs::DataTimes::seen_by))]
    fn take(&mut self, pid: Option<u16>, pts: Option<bool>) -> Result<(), AllocError>
        ensures { OnOk result (self.new ≡ spec.seen_by self.old pid pts) }
    {
        match (pid, pts) {
            (Some(pid), Some(stamped)) => self.see(pid, stamped),
            _ => Ok(()),
        }
    }
}

/// Returns the PIDs with PES packets of private_stream_1 in findings.
pub(crate) fn seen_in(alloc: Global, findings: &[Finding<'_>]) -> Result<SeenStamps, AllocError>
    ensures { IfOk result (λ seen. seen ≡ spec.seen_in (map finding_view findings.now)) }
{
    let mut seen = SeenStamps {
        seen: PidMap::new(alloc),
    };
    for finding in findings {
        let pts = data_pts(&finding.what);
        seen.take(finding.pid, pts)?;
    }
    Ok(seen)
}
