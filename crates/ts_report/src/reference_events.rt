//! PIDs that no table names, and PIDs that are named and have no packet.
ghost use Rattle.std.specs.Prelude.{◌≡◌, ◌++◌, OnOk, filter, is_some};
ghost use Rattle.ts_report.specs.ReferenceEvents as spec;

use events::Event;
use packet_times::LONGEST_GAP;
use std::alloc::{AllocError, Global};
use tr101290::{
    PidWindow, TableTiming, missing_pids, referenced_pids, time_between, unreferenced_pids,
};
use ts_tables::NamedStreams;
use ts_watch::table_names::TableNames;
use ts_watch::table_watch::TableWatch;

// Appends a PID that the first tables do not name, if no section names it.
fn push_unnamed(events: &mut Vec<Event>, names: &TableNames, pid: u16) -> Result<(), AllocError>
    ensures { OnOk result (events.new.items ≡ events.old.items ++ spec.unreferenced_event names.now pid) }
{
    if !names.has(pid) {
        events.push(Event::Unreferenced(pid))?;
    }
    Ok(())
}

fn push_unreferenced(
    events: &mut Vec<Event>,
    names: &TableNames,
    pids: &[u16],
) -> Result<(), AllocError>
    ensures { OnOk result (events.new.items
        ≡ events.old.items ++ spec.unreferenced_events names.now pids.now) }
{
    for pid in pids {
        push_unnamed(events, names, *pid)?;
    }
    Ok(())
}

fn push_missing(events: &mut Vec<Event>, pids: &[u16]) -> Result<(), AllocError>
    ensures { OnOk result (events.new.items ≡ events.old.items ++ spec.missing_events pids.now) }
{
    for pid in pids {
        events.push(Event::Missing(*pid))?;
    }
    Ok(())
}

// Returns the PIDs that the section of a number, or a later one, names.
fn named_since(names: &TableNames, section: u64, found: Vec<u16>) -> Vec<u16>
    ensures { result.items ≡ filter (spec.is_named names.now section) found.items }
{
    let mut pids = found;
    pids.retain(|pid| names.names(section, *pid));
    pids
}

// Returns the PIDs that a table in force may name; none if the stream is not long enough.
fn expected_pids(alloc: Global, long: bool, names: &TableNames, found: Vec<u16>) -> Vec<u16>
    ensures { result.items ≡ spec.expected_pids long names.now found.items }
{
    if long {
        named_since(names, names.oldest(), found)
    } else {
        Vec::new(alloc)
    }
}

/// Returns whether the first tables are known.
pub(crate) fn is_known(named: &NamedStreams) -> bool
    ensures { result ≡ is_some named.now.streams }
{
    match named.found() {
        None => false,
        Some(_) => true,
    }
}

/// Returns the place after the first tables: `next`, where the next packet comes, when they become known.
pub(crate) fn known_after(
    known: Option<u64>,
    before: bool,
    named: &NamedStreams,
    next: Option<u64>,
) -> Option<u64>
    ensures { result ≡ spec.known_after known before named.now next }
{
    if before || !is_known(named) {
        known
    } else {
        next
    }
}

/// Returns whether a stream lasts for 5 s from its first tables to its end, or the place of one of both is not known.
#[tactic(auto, unfolding(crate::specs::ReferenceEvents::is_long))]
pub(crate) fn is_long(timing: TableTiming, known: Option<u64>, end: Option<u64>) -> bool
    ensures { result ≡ spec.is_long timing known end }
{
    match (known, end) {
        (Some(known), Some(end)) => {
            time_between(timing, end.saturating_sub(known)) >= u128::from(LONGEST_GAP)
        }
        _ => true,
    }
}

/// Appends each PID with packets that no table names, and, if the stream is long enough, each PID without a packet that
/// the first tables name and a table in force may name.
#[tactic(auto, unfolding(crate::specs::ReferenceEvents::events_by))]
pub fn push_references(
    alloc: Global,
    events: &mut Vec<Event>,
    long: bool,
    named: &NamedStreams,
    tables: &TableWatch,
    totals: &PidWindow<Global>,
) -> Result<(), AllocError>
    ensures { OnOk result (events.new.items
        ≡ events.old.items ++ spec.reference_events long named.now tables.now totals.now) }
{
    let Some(referenced) = referenced_pids(alloc, named)? else {
        return Ok(());
    };
    let unreferenced = unreferenced_pids(alloc, &referenced, totals.counts())?;
    push_unreferenced(events, tables.names(), &unreferenced)?;
    let missing = missing_pids(alloc, &referenced, totals.counts())?;
    push_missing(events, &expected_pids(alloc, long, tables.names(), missing))
}
