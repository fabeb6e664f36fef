//! The numbers of PES packets, by PID.

ghost use Rattle.std.specs.Prelude.{◌≡◌, ◌<◌, ◌-◌, ◌^◌, [], ℕ, IfOk, Some, length, map, slice_index};
ghost use Rattle.pid_findings.specs.Shown.{finding_view, what_view};
ghost use Rattle.stream_programs.specs.PesCounts as counted;
ghost use Rattle.stream_programs.specs.StrayPids as spec;

use pid_findings::{Finding, What};
use std::alloc::{AllocError, Allocator};

/// How many numbers 16 bits have; a PID has 13.
const PID_NUMBERS: usize = 65_536;

/// Returns whether a finding is a PES packet.
#[tactic(auto, unfolding(crate::specs::StrayPids::is_pes))]
pub(crate) fn is_pes<A: Allocator>(what: &What<'_, A>) -> bool
    ensures { result ≡ spec.is_pes (what_view what.now) }
{
    matches!(what, What::Pes { .. })
}

// Returns the PID of a finding that is a PES packet.
#[tactic(auto, unfolding(crate::specs::PesCounts::pes_pid))]
fn pes_pid<A: Allocator>(finding: &Finding<'_, A>) -> Option<u16>
    ensures { result ≡ counted.pes_pid (finding_view finding.now) }
{
    if is_pes(&finding.what) {
        finding.pid
    } else {
        None
    }
}

// Returns a count of 0 for each PID.
fn no_counts<A: Allocator + Clone>(alloc: A) -> Result<Vec<usize, A>, AllocError>
    ensures { IfOk result (λ counts. counted.AreCounts counts.items []) }
{
    Ok(vec![in alloc; 0usize; PID_NUMBERS]?)
}

// Counts a finding that is a PES packet.
#[tactic(auto, unfolding(crate::specs::PesCounts::counted_on))]
fn count_pes<A: Allocator>(finding: &Finding<'_, A>, counts: &mut Vec<usize, A>)
    requires size { length counts.old.items ≡ 65_536 }
    requires room { (pid : ℕ) → pid < 65_536 → slice_index counts.old.items pid < 2 ^ 64 - 1 }
    ensures counts { counts.new.items ≡ counted.counted_with counts.old.items (finding_view finding.now) }
    ensures fits { (pid : ℕ) → counted.pes_pid (finding_view finding.now) ≡ Some pid → pid < 65_536 }
{
    if let Some(pid) = pes_pid(finding) {
        counts[pid as usize] += 1;
    }
}

/// Counts the PES packets of each PID, from the last finding to the first.
pub fn pes_counts<A: Allocator + Copy>(
    alloc: A,
    findings: &[Finding<'_, A>],
) -> Result<Vec<usize, A>, AllocError>
    ensures { IfOk result (λ counts. counted.AreCounts counts.items (map finding_view findings.now)) }
{
    let mut counts = no_counts(alloc)?;
    let mut left = findings.len();
    'findings: while left > 0 {
        left -= 1;
        count_pes(&findings[left], &mut counts);
    }
    Ok(counts)
}
