//! Continuity counters that do not follow (ETSI TR 101 290, 5.2.1, indicator 1.4).
ghost use Rattle.std.specs.Prelude.{◌≡◌, ◌<◌, [], IfOk, None, OnOk, Option, Some, option_map, slice_get};
ghost use Rattle.std.specs.Prelude.{nat_eq};
ghost use Rattle.std.specs.Map.{lookup};
ghost use Rattle.indexmap.specs.IndexMap.{index_map_len, insert_entry, set_value_at, values};
ghost use Rattle.pid_findings.specs.Marks.{LastView, break_at, mark, seen};
ghost use Rattle.pid_findings.specs.Shown.{entry_with, mark_broken};
ghost use Rattle.tr101290.specs.Continuity as spec;

use pid_findings::{Last, Mark, keep, mark_of};
use pid_map::PidMap;
use std::alloc::{AllocError, Allocator};
use std::marker::Model;
use ts_packet::Packet;

/// A packet whose continuity_counter is wrong: the packet's index, the counter expected, and the counter found.
#[derive(Clone, Copy)]
pub struct ContinuityError {
    pub pid: u16,
    pub packet: u64,
    pub expected: u8,
    pub found: u8,
}

// The PID of null packets (ISO/IEC 13818-1, table 2-3).
const NULL_PID: u16 = 8191;

/// The last packet of each PID. Memory does not grow with the length of the stream.
#[derive(Drop)]
pub struct ContinuityWatch<A: Allocator> {
    lasts: PidMap<Option<Last>, A>,
}

impl<A: Allocator> Model for ContinuityWatch<A> {
    ghost use Rattle.tr101290.specs.Continuity.{Lasts};

    ghost Value = { Lasts };

    ghost view = { λ w. w.lasts.entries };
}

fn error_by(pid: u16, packet: u64, mark: Mark) -> Option<ContinuityError>
    ensures { result ≡ option_map (spec.error_of pid packet) (mark_broken mark) }
{
    match mark {
        Mark::Breaks(expected, found) => Some(ContinuityError {
            pid,
            packet,
            expected,
            found,
        }),
        _ => None,
    }
}

// Marks a packet of the PID at an index, and keeps it.
#[tactic(auto, unfolding(pid_findings::specs::Marks::mark))]
fn step_at<A: Allocator>(
    lasts: &mut PidMap<Option<Last>, A>,
    at: usize,
    index: u64,
    packet: &Packet<'_>,
    bytes: &[u8; 188],
) -> Mark
    requires { at < index_map_len lasts.old }
    ensures next { (last : Option LastView) → slice_get (values lasts.old) at ≡ Some last → lasts.new.entries
        ≡ set_value_at lasts.old.entries at (Some (seen (mark last (entry_with index bytes.now packet.now)))) }
    ensures broken { (last : Option LastView) → slice_get (values lasts.old) at ≡ Some last →
        mark_broken result ≡ break_at last (entry_with index bytes.now packet.now) }
{
    let last = lasts.value_mut(at);
    let mark = mark_of(last, index, packet, bytes);
    keep(last, mark, index, packet, bytes);
    mark
}

// Keeps the first packet of a PID. A call of its own: few packets need it.
#[inline(never)]
#[tactic(auto, unfolding(pid_findings::specs::Marks::mark, pid_findings::specs::Marks::is_repeat, pid_findings::specs::Marks::break_at))]
fn begin<A: Allocator + Clone>(
    lasts: &mut PidMap<Option<Last>, A>,
    index: u64,
    packet: &Packet<'_>,
    bytes: &[u8; 188],
) -> Result<(), AllocError>
    ensures { OnOk result (lasts.new.entries ≡ insert_entry nat_eq lasts.old.entries packet.now.header.pid
        (Some (seen (mark None (entry_with index bytes.now packet.now))))) }
{
    let mut last = None;
    keep(&mut last, Mark::Follows, index, packet, bytes);
    lasts.insert(packet.header.pid, last)?;
    Ok(())
}

impl<A: Allocator + Copy> ContinuityWatch<A> {
    /// Returns the state before the first packet.
    pub fn new(alloc: A) -> ContinuityWatch<A>
        ensures { result ≡ [] }
    {
        ContinuityWatch {
            lasts: PidMap::new(alloc),
        }
    }

    /// Takes the packet at an index, which is not known to be wrong, and returns the error of its counter, if there is
    /// one.
    ///
    /// After an `AllocError` nothing is known of the PID: drop the watch.
    #[tactic(auto, unfolding(crate::specs::Continuity::after, crate::specs::Continuity::error_at, pid_findings::specs::Marks::break_at), using(crate::proofs::LastPackets::last_there, crate::proofs::LastPackets::kept_there))]
    pub fn take(
        &mut self,
        index: u64,
        packet: &Packet<'_>,
        bytes: &[u8; 188],
    ) -> Result<Option<ContinuityError>, AllocError>
        ensures next { OnOk result (self.new ≡ spec.after self.old (entry_with index bytes.now packet.now)) }
        ensures error { IfOk result (λ error. error ≡ spec.error_at self.old (entry_with index bytes.now packet.now)) }
    {
        let pid = packet.header.pid;
        if pid == NULL_PID {
            return Ok(None);
        }
        match self.lasts.index_of(pid) {
            Some(at) => {
                let mark = step_at(&mut self.lasts, at, index, packet, bytes);
                Ok(error_by(pid, index, mark))
            }
            None => {
                begin(&mut self.lasts, index, packet, bytes)?;
                Ok(None)
            }
        }
    }
}
