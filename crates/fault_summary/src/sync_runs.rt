//! Packets in a row that do not begin with 0x47.
ghost use Rattle.std.specs.Prelude.{◌≡◌};
ghost use Rattle.fault_summary.specs.SyncRuns as spec;

use events::{CheckCounts, Fault, FaultKind};

/// Packets in a row that do not begin with 0x47: the number of the packet after the last of them, and how many they
/// are.
#[derive(Clone, Copy)]
pub struct SyncRun {
    pub next: u64,
    pub packets: u64,
}

#[tactic(auto, unfolding(crate::specs::SyncRuns::is_sync_byte))]
fn is_sync_byte(kind: FaultKind) -> bool
    ensures { result ≡ spec.is_sync_byte kind }
{
    matches!(kind, FaultKind::SyncByte)
}

fn run_length(run: SyncRun, packet: u64) -> u64
    ensures { result ≡ spec.run_length run packet }
{
    if run.next == packet {
        run.packets.saturating_add(1)
    } else {
        1
    }
}

fn loss_of(fault: &Fault) -> Fault
    ensures { result ≡ spec.loss_of fault.now }
{
    Fault {
        kind: FaultKind::Slip,
        ..*fault
    }
}

/// Counts a loss of synchronization, if the fault is the second packet of a run.
pub(crate) fn count_loss(counts: &mut CheckCounts, run: SyncRun, fault: &Fault)
    ensures { counts.new ≡ spec.with_loss counts.old run fault.now }
{
    if is_sync_byte(fault.kind) && run_length(run, fault.packet) == 2 {
        counts.take(&loss_of(fault));
    }
}

impl SyncRun {
    /// Returns the run before the first packet.
    pub fn new() -> SyncRun
        ensures { result ≡ spec.no_run }
    {
        SyncRun {
            next: 0,
            packets: 0,
        }
    }

    /// Returns the run after a fault.
    pub fn after(self, fault: &Fault) -> SyncRun
        ensures { result ≡ spec.with_fault self fault.now }
    {
        if is_sync_byte(fault.kind) {
            SyncRun {
                next: fault.packet.saturating_add(1),
                packets: run_length(self, fault.packet),
            }
        } else {
            self
        }
    }
}
