//! What the end of a stream decides, one PID after another.

ghost use Rattle.std.specs.Prelude.{◌≡◌, ◌<◌, ◌++◌, ℕ, Some, OnOk, length, map, slice_get, true};
ghost use Rattle.pid_findings.specs.Findings.{ended};
ghost use Rattle.pid_findings.specs.Machine.{PidState};
ghost use Rattle.pid_findings.specs.Shown.{finding_view, with_pid};
ghost use Rattle.demux.specs.Stream.{ended_found, held_found};
ghost use Rattle.es_feed.specs.StreamFeeding as spec;

use crate::unit_feed::UnitFeed;
use demux::Demux;
use fed_streams::FeedFault;
use pes_packet::Unit;
use pid_findings::Finding;
use std::alloc::{AllocError, Global};

// Marks findings, and feeds them.
fn take_findings(
    alloc: &Global,
    feed: &mut UnitFeed,
    findings: Vec<Finding<'static>>,
    fed: &mut Vec<(u8, Result<Unit, FeedFault>)>,
) -> Result<(), AllocError>
    ensures feed { OnOk result (feed.new ≡ spec.after_marked feed.old (map finding_view findings.entry.items)) }
    ensures fed { OnOk result (fed.new.items ≡ fed.old.items
        ++ spec.fed_marked feed.old (map finding_view findings.entry.items)) }
{
    let mut found = findings;
    feed.mark(&mut found);
    feed.take_all(alloc, found.as_slice(), fed)
}

/// Feeds what the end of the stream decides of the bytes of a packet that is not whole.
pub(crate) fn take_held(
    alloc: &Global,
    demux: &Demux,
    feed: &mut UnitFeed,
    fed: &mut Vec<(u8, Result<Unit, FeedFault>)>,
) -> Result<(), AllocError>
    ensures feed { OnOk result (feed.new ≡ spec.after_marked feed.old (held_found demux.now.packets demux.now.held)) }
    ensures fed { OnOk result (fed.new.items ≡ fed.old.items
        ++ spec.fed_marked feed.old (held_found demux.now.packets demux.now.held)) }
{
    let mut found: Vec<Finding<'static>> = Vec::new(*alloc);
    demux.end_of_packet(*alloc, &mut found)?;
    take_findings(alloc, feed, found, fed)
}

// Feeds what the end of the stream decides of the PID at an index.
fn take_end(
    alloc: &Global,
    demux: &Demux,
    index: usize,
    feed: &mut UnitFeed,
    fed: &mut Vec<(u8, Result<Unit, FeedFault>)>,
) -> Result<(), AllocError>
    requires { index < length demux.now.states }
    ensures feed { (entry : ℕ × PidState) → slice_get demux.now.states index ≡ Some entry →
        OnOk result (feed.new ≡ spec.after_marked feed.old
        (map (with_pid entry.0 demux.now.packets) (ended true entry.1.open_unit))) }
    ensures fed { (entry : ℕ × PidState) → slice_get demux.now.states index ≡ Some entry →
        OnOk result (fed.new.items ≡ fed.old.items ++ spec.fed_marked feed.old
        (map (with_pid entry.0 demux.now.packets) (ended true entry.1.open_unit))) }
{
    let mut found: Vec<Finding<'static>> = Vec::new(*alloc);
    demux.end_of_pid(index, &mut found)?;
    take_findings(alloc, feed, found, fed)
}

/// Feeds what the end of the stream decides of the PIDs, in the order of each PID's first packet. The bytes of one open
/// unit are copied at a time.
pub(crate) fn take_ends(
    alloc: &Global,
    demux: &Demux,
    feed: &mut UnitFeed,
    fed: &mut Vec<(u8, Result<Unit, FeedFault>)>,
) -> Result<(), AllocError>
    ensures feed { OnOk result (feed.new ≡ spec.after_marked feed.old
        (ended_found demux.now.packets demux.now.states)) }
    ensures fed { OnOk result (fed.new.items ≡ fed.old.items
        ++ spec.fed_marked feed.old (ended_found demux.now.packets demux.now.states)) }
{
    for i in 0..demux.pids() {
        take_end(alloc, demux, i, feed, fed)?;
    }
    Ok(())
}
