//! The original network of a stream's services (EN 300 468, 5.2.3).

ghost use Rattle.std.specs.Prelude.{◌≡◌, map};
ghost use Rattle.pid_findings.specs.Shown.{finding_view};
ghost use Rattle.ts_services.specs.Networks as spec;

use crate::service_description::sdt_found;
use pid_findings::Finding;
use std::alloc::Allocator;

// Returns the network_id in a finding's table.
#[tactic(auto, unfolding(crate::specs::Networks::network_found))]
fn network_found<A: Allocator>(finding: &Finding<'_, A>) -> Option<u16>
    ensures { result ≡ spec.network_found (finding_view finding.now) }
{
    match sdt_found(finding) {
        None => None,
        Some(sdt) => Some(sdt.original_network_id),
    }
}

/// Returns original_network_id of the first service description section in force.
pub fn original_network<A: Allocator>(findings: &[Finding<'_, A>]) -> Option<u16>
    ensures { result ≡ spec.network (map finding_view findings.now) }
{
    for finding in findings {
        if let Some(network) = network_found(finding) {
            return Some(network);
        }
    }
    None
}
