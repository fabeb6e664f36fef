//! The counts of each PID.
ghost use Rattle.std.specs.Prelude.{◌≡◌, ◌<◌, OnOk, Some, slice_get};
ghost use Rattle.indexmap.specs.IndexMap.{index_map_len, set_value_at, values};
ghost use Rattle.monitor.specs.Counts.{duplicate_counted, finding_counts_of, one_more_packet, scrambled_counted, packet_counted};

use pid_map::{PidEntries, PidMap};
use std::alloc::{AllocError, Allocator};

/// The number of packets of a PID, and how many of them have payload_unit_start_indicator.
#[derive(Clone, Copy)]
pub(crate) struct PacketCounts {
    pub packets: u64,
    pub starts: u64,
}

/// The number of duplicate packets of a PID, and of scrambled packets.
#[derive(Clone, Copy)]
pub(crate) struct FindingCounts {
    pub duplicates: u64,
    pub scrambled: u64,
}

pub(crate) type PacketCountsByPid<A> = PidEntries<PacketCounts, A>;

pub(crate) type FindingCountsByPid<A> = PidEntries<FindingCounts, A>;

// Counts a packet of the PID at an index.
#[tactic(auto, unfolding(crate::specs::Counts::one_more, crate::specs::Counts::one_more_packet))]
fn count_at<A: Allocator>(packet_counts: &mut PidMap<PacketCounts, A>, index: usize, start: bool)
    requires { index < index_map_len packet_counts.old }
    ensures { (counts : PacketCounts) → slice_get (values packet_counts.old) index ≡ Some counts →
        packet_counts.new.entries ≡ set_value_at packet_counts.old.entries index (one_more_packet counts start) }
{
    let counts = packet_counts.value_mut(index);
    counts.packets = counts.packets.saturating_add(1);
    if start {
        counts.starts = counts.starts.saturating_add(1);
    }
}

/// Counts a packet of a PID. The counts stop at 2^64 - 1.
#[tactic(auto, unfolding(crate::specs::Counts::packet_counts_or_zero, crate::specs::Counts::one_more, crate::specs::Counts::one_more_packet), using(crate::proofs::CountedPids::counted_there, crate::proofs::CountedPids::counts_there))]
pub(crate) fn count_packet<A: Allocator + Clone>(
    packet_counts: &mut PidMap<PacketCounts, A>,
    pid: u16,
    start: bool,
) -> Result<(), AllocError>
    ensures { OnOk result (packet_counts.new.entries ≡ packet_counted packet_counts.old.entries pid start) }
{
    match packet_counts.index_of(pid) {
        Some(index) => {
            count_at(packet_counts, index, start);
            Ok(())
        }
        None => {
            let starts = if start { 1 } else { 0 };
            packet_counts.insert(pid, PacketCounts { packets: 1, starts })?;
            Ok(())
        }
    }
}

// Returns the counts of a PID so far.
#[tactic(auto, unfolding(crate::specs::Counts::finding_counts_or_zero))]
pub(crate) fn finding_counts_so_far<A: Allocator>(
    finding_counts: &FindingCountsByPid<A>,
    pid: u16,
) -> FindingCounts
    ensures { result ≡ finding_counts_of pid finding_counts.now.entries }
{
    match finding_counts.get(&pid) {
        Some(counts) => *counts,
        None => FindingCounts {
            duplicates: 0,
            scrambled: 0,
        },
    }
}

/// Counts a duplicate.
#[tactic(auto, unfolding(crate::specs::Counts::one_more))]
pub(crate) fn count_duplicate<A: Allocator + Clone>(
    finding_counts: &mut FindingCountsByPid<A>,
    pid: u16,
) -> Result<(), AllocError>
    ensures { OnOk result (finding_counts.new.entries ≡ duplicate_counted pid finding_counts.old.entries) }
{
    let before = finding_counts_so_far(finding_counts, pid);
    let duplicates = before.duplicates.saturating_add(1);
    finding_counts.insert(
        pid,
        FindingCounts {
            duplicates,
            ..before
        },
    )?;
    Ok(())
}

/// Counts a scrambled packet.
#[tactic(auto, unfolding(crate::specs::Counts::one_more))]
pub(crate) fn count_scrambled<A: Allocator + Clone>(
    finding_counts: &mut FindingCountsByPid<A>,
    pid: u16,
) -> Result<(), AllocError>
    ensures { OnOk result (finding_counts.new.entries ≡ scrambled_counted pid finding_counts.old.entries) }
{
    let before = finding_counts_so_far(finding_counts, pid);
    let scrambled = before.scrambled.saturating_add(1);
    finding_counts.insert(
        pid,
        FindingCounts {
            scrambled,
            ..before
        },
    )?;
    Ok(())
}
