//! The report of a stream.
ghost use Rattle.std.specs.Prelude.{◌≡◌, ◌++◌, OnOk, map};
ghost use Rattle.std.specs.List.{Any, Contains};
ghost use Rattle.std.specs.List.Sorted.{IsStrictlySortedBy};
ghost use Rattle.std.specs.declared.cmp.Ordering.TheVariants.{Equal};
ghost use Rattle.monitor.specs.InOrder.{in_order};
ghost use Rattle.monitor.specs.Reports.{late_fault};

use crate::fault::{Rule, StreamFault};
use crate::recurrence::LatePacket;
use std::alloc::{AllocError, Allocator, Global};
use std::marker::Model;
use thiserror::Error;

/// Why there is no report.
#[derive(Clone, Copy, Debug, PartialEq, Eq, Error)]
pub enum ReportError {
    #[error("out of memory")]
    Memory,
}

/// The counts of a PID. Each count stops at 2^64 - 1.
#[derive(Clone, Copy)]
pub struct PidCounts {
    pub pid: u16,
    /// its packets, except packets with transport_error_indicator
    pub packets: u64,
    /// packets with payload_unit_start_indicator
    pub starts: u64,
    /// packets that repeat the packet before
    pub duplicates: u64,
    /// packets with transport_scrambling_control
    pub scrambled: u64,
}

/// The report of a stream: the number of its whole packets, the counts of each PID in the order of each PID's first
/// packet, and the faults.
#[derive(Drop)]
pub struct Report<A: Allocator = Global> {
    packets: u64,
    pids: Vec<PidCounts, A>,
    faults: Vec<StreamFault, A>,
}

impl<A: Allocator> Model for Report<A> {
    ghost use Rattle.std.specs.List.{Any, Contains};
    ghost use Rattle.std.specs.List.Sorted.{IsStrictlySortedBy};
    ghost use Rattle.monitor.specs.Reports.{ReportView};

    ghost Value = { ReportView };

    ghost view = { λ r. record { packets = r.packets; pids = r.pids.items; faults = r.faults.items } };
}

impl<A: Allocator> Report<A> {
    /// Returns a report of these counts and faults.
    pub(crate) fn new(
        packets: u64,
        pids: Vec<PidCounts, A>,
        faults: Vec<StreamFault, A>,
    ) -> Report<A>
        ensures { result ≡ record { packets = packets; pids = pids.items; faults = faults.items } }
    {
        Report {
            packets,
            pids,
            faults,
        }
    }

    /// Returns the number of whole packets.
    pub fn packets(&self) -> u64
        ensures { result ≡ self.now.packets }
    {
        self.packets
    }

    /// Returns the counts of each PID.
    pub fn pids(&self) -> &[PidCounts]
        ensures { result.now ≡ self.now.pids }
    {
        self.pids.as_slice()
    }

    /// Returns the faults.
    pub fn faults(&self) -> &[StreamFault]
        ensures { result.now ≡ self.now.faults }
    {
        self.faults.as_slice()
    }
}

// Returns the values in order, each once.
fn each_once<T: Ord + Drop, A: Allocator>(mut values: Vec<T, A>) -> Vec<T, A>
    ensures order { IsStrictlySortedBy T.cmp result.items }
    ensures kept { (x : T) → Contains values.items x → Any (λ y. T.cmp x y ≡ Equal) result.items }
    ensures only { (x : T) → Contains result.items x → Contains values.items x }
{
    values.sort_unstable();
    values.dedup();
    values
}

/// Returns the faults by packet, then by the number of the rule, then by PID, each once.
pub(crate) fn in_order<A: Allocator>(faults: Vec<StreamFault, A>) -> Vec<StreamFault, A>
    ensures { result.items ≡ in_order faults.items }
{
    each_once(faults)
}

/// Appends a fault for each packet where an item was late.
pub(crate) fn append_late<A: Allocator>(
    faults: &mut Vec<StreamFault, A>,
    rule: Rule,
    late: &[LatePacket],
) -> Result<(), AllocError>
    ensures { OnOk result (faults.new.items ≡ faults.old.items ++ map (late_fault rule) late.now) }
{
    for one in late {
        faults.push(StreamFault {
            packet: one.packet,
            rule,
            pid: Some(one.pid),
        })?;
    }
    Ok(())
}
