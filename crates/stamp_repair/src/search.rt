//! The search for time stamps that are alone out of order.

ghost use Rattle.std.specs.Prelude.{◌≡◌, IfOk, OnOk, map, nat_eq};
ghost use Rattle.std.specs.Map.{lookup};
ghost use Rattle.pid_findings.specs.Shown.{finding_view};
ghost use Rattle.stamp_repair.specs.LoneStamps as spec;

use crate::pes_stamps::{PesStamp, stamp_at};
use es_moments::distance;
use pid_findings::Finding;
use pid_map::PidMap;
use std::alloc::{AllocError, Global};
use std::marker::Model;

// Half the number of stamps: a stamp that is later by less is after another one.
const HALF: u64 = 1 << 32;

// The least time by which a DTS is out of order, in units of 90 kHz: 1 s.
const DTS_FALL: u64 = 90_000;

// The least time by which a PTS is out of order: 10 s.
const PTS_FALL: u64 = 900_000;

// The most PES packets that are found.
const MAX_FOUND: usize = 256;

/// The last two stamps of a PID, without stamps that are alone out of order.
#[derive(Clone, Copy)]
pub struct LastStamps {
    pub before: Option<PesStamp>,
    pub last: PesStamp,
}

/// A PES packet whose stamps are alone out of order.
#[derive(Clone, Copy)]
pub struct LonePes {
    pub pid: u16,
    /// The packet of its first byte.
    pub packet: u64,
}

// A search for such PES packets.
#[derive(Drop)]
struct LoneSearch {
    last: PidMap<LastStamps, Global>,
    lone: Vec<LonePes>,
}

// A contract sees its entries as lists.
impl Model for LoneSearch {
    ghost use Rattle.stamp_repair.specs.LoneStamps.{SearchView};

    ghost Value = { SearchView };

    ghost view = { λ s. record { last = s.last.entries; lone = s.lone.items } };
}

// Returns whether a stamp is before another one by more than a time.
fn falls_by(time: u64, before: u64, stamp: u64) -> bool
    ensures { result ≡ spec.falls_by time before stamp }
{
    distance(before, stamp) >= HALF && distance(stamp, before) > time
}

// Returns whether a stamp is alone out of order by more than a time.
fn is_alone(time: u64, before: u64, stamp: u64, next: u64) -> bool
    ensures { result ≡ spec.is_alone time before stamp next }
{
    (falls_by(time, before, stamp) || falls_by(time, stamp, next)) && !falls_by(time, before, next)
}

// Returns whether the stamps of a PES packet are alone out of order.
fn is_lone(before: PesStamp, stamp: PesStamp, next: PesStamp) -> bool
    ensures { result ≡ spec.is_lone before stamp next }
{
    is_alone(DTS_FALL, before.dts, stamp.dts, next.dts)
        || is_alone(PTS_FALL, before.pts, stamp.pts, next.pts)
}

// Returns whether the last stamps of a PID are alone out of order.
#[tactic(auto, unfolding(crate::specs::LoneStamps::is_last_lone))]
fn is_last_lone(before: Option<PesStamp>, last: PesStamp, next: PesStamp) -> bool
    ensures { result ≡ spec.is_last_lone before last next }
{
    match before {
        None => false,
        Some(before) => is_lone(before, last, next),
    }
}

// Returns the last PES packet of a PID, if its stamps are alone out of order.
#[tactic(auto, unfolding(crate::specs::LoneStamps::lone_at))]
fn lone_at(pid: u16, last: Option<LastStamps>, next: PesStamp) -> Option<LonePes>
    ensures { result ≡ spec.lone_at pid last next }
{
    let LastStamps { before, last } = last?;
    if is_last_lone(before, last, next) {
        Some(LonePes {
            pid,
            packet: last.packet,
        })
    } else {
        None
    }
}

// Returns the last stamps of a PID after these.
#[tactic(auto, unfolding(crate::specs::LoneStamps::next_last))]
fn next_last(last: Option<LastStamps>, next: PesStamp) -> LastStamps
    ensures { result ≡ spec.next_last last next }
{
    match last {
        None => LastStamps {
            before: None,
            last: next,
        },
        Some(LastStamps { before, last }) => LastStamps {
            before: if is_last_lone(before, last, next) {
                before
            } else {
                Some(last)
            },
            last: next,
        },
    }
}

// Adds a PES packet, if there is one, and room for it.
#[tactic(auto, unfolding(crate::specs::LoneStamps::with_lone))]
fn add_lone(lone: &mut Vec<LonePes>, next: Option<LonePes>) -> Result<(), AllocError>
    ensures { OnOk result (lone.new.items ≡ spec.with_lone lone.old.items next) }
{
    let Some(next) = next else {
        return Ok(());
    };
    if lone.len() < MAX_FOUND {
        lone.push(next)?;
    }
    Ok(())
}

impl LoneSearch {
    // Returns the state before the first finding.
    fn new(alloc: Global) -> LoneSearch
        ensures { result ≡ spec.no_stamps }
    {
        LoneSearch {
            last: PidMap::new(alloc),
            lone: Vec::new(alloc),
        }
    }

    // Returns the last stamps of a PID.
    fn last_of(&self, pid: u16) -> Option<LastStamps>
        ensures { result ≡ lookup (nat_eq pid) self.now.last }
    {
        self.last.entries().get(&pid).copied()
    }

    // Takes the stamps of the next PES packet of a PID.
    fn take_stamp(&mut self, pid: u16, next: PesStamp) -> Result<(), AllocError>
        ensures { OnOk result (self.new ≡ spec.with_stamp self.old pid next) }
    {
        let last = self.last_of(pid);
        add_lone(&mut self.lone, lone_at(pid, last, next))?;
        self.last.insert(pid, next_last(last, next))?;
        Ok(())
    }

    // Takes the next finding.
    #[tactic(auto, unfolding(crate::specs::LoneStamps::with_stamp_if))]
    fn take(&mut self, finding: &Finding<'_>) -> Result<(), AllocError>
        ensures { OnOk result (self.new ≡ spec.with_finding self.old (finding_view finding.now)) }
    {
        match (finding.pid, stamp_at(finding)) {
            (Some(pid), Some(next)) => self.take_stamp(pid, next),
            _ => Ok(()),
        }
    }
}

// Returns the search after all findings.
fn searched(alloc: Global, findings: &[Finding<'_>]) -> Result<LoneSearch, AllocError>
    ensures { IfOk result (λ s. s ≡ spec.search_after spec.no_stamps (map finding_view findings.now)) }
{
    let mut search = LoneSearch::new(alloc);
    for finding in findings {
        search.take(finding)?;
    }
    Ok(search)
}

/// Returns the PES packets whose stamps are alone out of order.
pub(crate) fn all_lone(alloc: Global, findings: &[Finding<'_>]) -> Result<Vec<LonePes>, AllocError>
    ensures { IfOk result (λ all. all.items ≡ spec.all_lone (map finding_view findings.now)) }
{
    let search = searched(alloc, findings)?;
    Ok(search.lone)
}
