//! What has to recur within a time, for each PID.
ghost use Rattle.std.specs.Prelude.{◌≡◌, ◌<◌, IfOk, OnOk, Some, nat_eq, slice_get};
ghost use Rattle.std.specs.Map.{lookup};
ghost use Rattle.indexmap.specs.IndexMap.{index_map_len, insert_entry, set_value_at, values};
ghost use Rattle.monitor.specs.Gaps.{is_long};
ghost use Rattle.monitor.specs.Recurrences.{marked, no_marks};

use clock27::SLOT_MS_AT_1BPS;
use pid_map::PidMap;
use std::alloc::{AllocError, Allocator};
use std::marker::Model;

/// A packet of a PID at which a gap ends that is too long.
#[derive(Clone, Copy)]
pub(crate) struct LatePacket {
    pub pid: u16,
    pub packet: u64,
}

/// The last packet of each PID with the item watched, and the packets where it was late.
#[derive(Drop)]
pub(crate) struct RecurrenceWatch<A: Allocator> {
    limit_times_rate: u64,
    last: PidMap<u64, A>,
    late: Vec<LatePacket, A>,
}

impl<A: Allocator> Model for RecurrenceWatch<A> {
    ghost use Rattle.monitor.specs.Recurrences.{RecurrenceState};

    ghost Value = { RecurrenceState };

    ghost view = { λ r. record { limit_times_rate = r.limit_times_rate; last = r.last.entries; late = r.late.items } };
}

/// Returns whether a gap of `gap` packets lasts longer than a limit: its milliseconds multiplied by the rate in bits a
/// second.
pub(crate) fn is_long(limit_times_rate: u64, gap: u64) -> bool
    ensures { result ≡ is_long limit_times_rate gap }
{
    gap as u128 * SLOT_MS_AT_1BPS > limit_times_rate as u128
}

// Replaces the last packet at an index by this packet, and returns the replaced packet.
fn replace_at<A: Allocator>(last: &mut PidMap<u64, A>, index: usize, packet: u64) -> u64
    requires { index < index_map_len last.old }
    ensures before { slice_get (values last.old) index ≡ Some result }
    ensures entries { last.new.entries ≡ set_value_at last.old.entries index packet }
{
    let last = last.value_mut(index);
    let before = *last;
    *last = packet;
    before
}

// Replaces the last packet of a PID by this packet, and returns the replaced packet.
#[tactic(auto, using(crate::proofs::CountedPids::last_there, crate::proofs::CountedPids::replaced_there))]
fn replace<A: Allocator + Clone>(
    last: &mut PidMap<u64, A>,
    pid: u16,
    packet: u64,
) -> Result<Option<u64>, AllocError>
    ensures before { IfOk result (λ before. before ≡ lookup (nat_eq pid) last.old.entries) }
    ensures entries { OnOk result (last.new.entries ≡ insert_entry nat_eq last.old.entries pid packet) }
{
    match last.index_of(pid) {
        Some(index) => Ok(Some(replace_at(last, index, packet))),
        None => {
            let before = last.insert(pid, packet)?;
            Ok(before)
        }
    }
}

impl<A: Allocator + Copy> RecurrenceWatch<A> {
    /// Returns the state before the first one.
    pub fn new(alloc: A, limit_times_rate: u64) -> RecurrenceWatch<A>
        ensures { result ≡ no_marks limit_times_rate }
    {
        RecurrenceWatch {
            limit_times_rate,
            last: PidMap::new(alloc),
            late: Vec::new(alloc),
        }
    }

    /// Notes it at a packet of a PID.
    #[tactic(auto, unfolding(crate::specs::Recurrences::late_at))]
    pub fn mark(&mut self, pid: u16, packet: u64) -> Result<(), AllocError>
        ensures { OnOk result (self.new ≡ marked self.old pid packet) }
    {
        match replace(&mut self.last, pid, packet)? {
            None => Ok(()),
            Some(before) => {
                if is_long(self.limit_times_rate, packet.saturating_sub(before)) {
                    self.late.push(LatePacket { pid, packet })?;
                }
                Ok(())
            }
        }
    }

    /// Returns the packets at which it came too late.
    pub fn late(&self) -> &[LatePacket]
        ensures { result.now ≡ self.now.late }
    {
        self.late.as_slice()
    }
}
