//! The PIDs that have packets, beside the PIDs that tables name.
ghost use Rattle.std.specs.Prelude.{◌≡◌, ◌++◌, IfOk, OnOk, [], option_to_list};
ghost use Rattle.tr101290.specs.Packets as spec;

use crate::pid_windows::PidEntries;
use std::alloc::{AllocError, Global};
use stream_programs::PidList;

// Returns whether a PID is in a list.
#[tactic(auto, unfolding(stream_programs::specs::FreePids::is_taken))]
fn is_among(pid: u16, pids: &PidList<Global>) -> bool
    ensures { result ≡ spec.is_among pid pids.now }
{
    pids.has(pid)
}

// Returns whether no table has to name a PID.
fn is_reserved(pid: u16) -> bool
    ensures { result ≡ spec.is_reserved pid }
{
    pid < 32 || pid == 8191
}

// Appends a PID with packets that has to be named and is not.
fn push_unreferenced(
    referenced: &PidList<Global>,
    pid: u16,
    pids: &mut Vec<u16>,
) -> Result<(), AllocError>
    ensures { OnOk result (pids.new.items ≡ pids.old.items ++ spec.unreferenced referenced.now pid) }
{
    if !is_reserved(pid) && !is_among(pid, referenced) {
        pids.push(pid)?;
    }
    Ok(())
}

// Returns the PIDs with packets that have to be in a list and are not.
fn unreferenced_by(
    alloc: Global,
    referenced: &PidList<Global>,
    packets: &PidEntries<Global>,
) -> Result<Vec<u16>, AllocError>
    ensures { IfOk result (λ pids. pids.items ≡ spec.unreferenced_pids referenced.now packets.now.entries) }
{
    let mut pids = Vec::new(alloc);
    for (pid, _) in packets {
        push_unreferenced(referenced, *pid, &mut pids)?;
    }
    Ok(pids)
}

/// Returns the PIDs with packets that tables have to name and do not, in the order of their first packets.
pub fn unreferenced_pids(
    alloc: Global,
    referenced: &[u16],
    packets: &PidEntries<Global>,
) -> Result<Vec<u16>, AllocError>
    ensures { IfOk result (λ pids. pids.items ≡ spec.unreferenced_pids referenced.now packets.now.entries) }
{
    let referenced = PidList::of(alloc, referenced)?;
    unreferenced_by(alloc, &referenced, packets)
}

// Appends a PID that has no packet, once.
fn push_missing(
    packets: &PidEntries<Global>,
    pid: u16,
    pids: &mut PidList<Global>,
) -> Result<(), AllocError>
    ensures { OnOk result (pids.new ≡ spec.with_missing packets.now.entries pids.old pid) }
{
    if packets.get(&pid).is_none() && !is_among(pid, pids) {
        pids.add(pid)?;
    }
    Ok(())
}

/// Returns the PIDs that are named and have no packet, each once, in the order of their names.
#[tactic(auto, unfolding(crate::specs::Packets::missing_pids))]
pub fn missing_pids(
    alloc: Global,
    referenced: &[u16],
    packets: &PidEntries<Global>,
) -> Result<Vec<u16>, AllocError>
    ensures { IfOk result (λ pids. pids.items ≡ spec.missing_pids packets.now.entries [] referenced.now) }
{
    let mut pids = PidList::new(alloc);
    for pid in referenced {
        push_missing(packets, *pid, &mut pids)?;
    }
    Ok(pids.into_pids())
}
