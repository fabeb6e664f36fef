//! Clock references that never come, or stop before the end of the input.
ghost use Rattle.std.specs.Prelude.{◌≡◌, ◌++◌, [], IfOk, OnOk};
ghost use Rattle.ts_report.specs.StoppedClocks as spec;

use crate::stopped_tables::push_stopped_tables;
use arrival::{Arrival, LONGEST_INTERVAL, PcrSample};
use es_events::clocks::Clocks;
use es_events::view_options::ViewOptions;
use events::{ClockFault, Event, FaultKind};
use std::alloc::{AllocError, Global};
use stream_programs::{FoundProgram, PidList};
use tr101290::{GREATEST_INTERVAL, time_between};
use ts_tables::NamedStreams;
use ts_watch::rule_watch::place_at;
use ts_watch::table_names::TableNames;
use ts_watch::table_watch::TableWatch;

// Appends the PID of the clock references of a program, if it has one, once.
fn add_clock(pids: &mut PidList<Global>, pid: u16) -> Result<(), AllocError>
    ensures { OnOk result (pids.new ≡ spec.with_clock pids.old pid) }
{
    if pid != 8191 && !pids.has(pid) {
        pids.add(pid)?;
    }
    Ok(())
}

#[tactic(auto, unfolding(crate::specs::StoppedClocks::with_clocks))]
fn clocks_of(alloc: Global, programs: &[FoundProgram]) -> Result<Vec<u16>, AllocError>
    ensures { IfOk result (λ pids. pids.items ≡ spec.with_clocks [] programs.now) }
{
    let mut pids = PidList::new(alloc);
    for program in programs {
        add_clock(&mut pids, program.pcr_pid)?;
    }
    Ok(pids.into_pids())
}

// Returns the PIDs of the clock references of the programs that the first tables name.
#[tactic(auto, unfolding(crate::specs::StoppedClocks::clocks_in))]
fn clocks_in(alloc: Global, named: &NamedStreams) -> Result<Vec<u16>, AllocError>
    ensures { IfOk result (λ pids. pids.items ≡ spec.clocks_in named.now.streams) }
{
    match named.found() {
        None => Ok(Vec::new(alloc)),
        Some(found) => clocks_of(alloc, &found.programs),
    }
}

fn clocks_since(names: &TableNames, section: u64, found: Vec<u16>) -> Vec<u16>
    ensures { result.items ≡ spec.clocks_since names.now section found.items }
{
    let mut pids = found;
    pids.retain(|pid| names.names_clock(section, *pid));
    pids
}

// Returns the PIDs of these that a PMT of a program in force may have as PCR_PID.
fn expected_clocks(
    alloc: Global,
    names: &TableNames,
    named: &NamedStreams,
) -> Result<Vec<u16>, AllocError>
    ensures { IfOk result (λ pids. pids.items ≡ spec.expected_clocks names.now named.now.streams) }
{
    let pids = clocks_in(alloc, named)?;
    Ok(clocks_since(names, names.oldest(), pids))
}

// Returns the place of a reference: its packet at a constant rate, otherwise its moment.
#[tactic(auto, unfolding(crate::specs::StoppedClocks::reference_place))]
fn reference_place(arrival: &Arrival, sample: &PcrSample) -> u64
    ensures { result ≡ spec.reference_place arrival.now sample.now }
{
    match arrival {
        Arrival::AtRate(_) => sample.byte / 188,
        Arrival::Unknown | Arrival::OnLines(_) => sample.byte,
    }
}

#[tactic(auto, unfolding(crate::specs::StoppedClocks::last_place))]
fn last_place(options: &ViewOptions, last: &Option<PcrSample>) -> u64
    ensures { result ≡ spec.last_place options.now last.now }
{
    match last {
        None => options.origin,
        Some(sample) => reference_place(&options.arrival, sample),
    }
}

// Returns the time from the last reference to a place.
fn time_without(
    options: &ViewOptions,
    tables: &TableWatch,
    place: u64,
    last: &Option<PcrSample>,
) -> u128
    ensures { result ≡ spec.time_without options.now tables.now.times.intervals.timing place last.now }
{
    let timing = tables.times().intervals().timing();
    time_between(timing, place.saturating_sub(last_place(options, last)))
}

// Returns the longest time without a reference that is no fault at the end: a second, if the rate of the last packets is
// not known.
#[tactic(auto, unfolding(crate::specs::StoppedClocks::longest_without))]
fn longest_without(arrival: &Arrival) -> u64
    ensures { result ≡ spec.longest_without arrival.now }
{
    match arrival {
        Arrival::AtRate(_) => GREATEST_INTERVAL,
        Arrival::Unknown | Arrival::OnLines(_) => LONGEST_INTERVAL,
    }
}

// Appends the event of a time without a reference that is too long.
fn push_beyond(
    events: &mut Vec<Event>,
    longest: u64,
    pid: u16,
    packets: u64,
    value: u128,
) -> Result<(), AllocError>
    ensures { OnOk result (events.new.items ≡ events.old.items ++ spec.beyond_events longest pid packets value) }
{
    if value > u128::from(longest) {
        let fault = ClockFault {
            pid,
            packet: packets,
            value,
            limit: GREATEST_INTERVAL,
        };
        events.push(Event::ClockFault(FaultKind::PcrRepetition, fault))?;
    }
    Ok(())
}

fn push_clocks(
    events: &mut Vec<Event>,
    options: &ViewOptions,
    tables: &TableWatch,
    clocks: &Clocks,
    packets: u64,
    place: u64,
    pids: &[u16],
) -> Result<(), AllocError>
    ensures { OnOk result (events.new.items ≡ events.old.items
        ++ spec.clocks_events options.now tables.now.times.intervals.timing clocks.now packets place pids.now) }
{
    for pid in pids {
        let longest = longest_without(&options.arrival);
        let value = time_without(options, tables, place, &clocks.last(*pid));
        push_beyond(events, longest, *pid, packets, value)?;
    }
    Ok(())
}

// Appends each PID of the clock references of a program that has had none for too long.
#[tactic(auto, unfolding(crate::specs::StoppedClocks::clocks_by))]
fn push_stopped_clocks(
    alloc: Global,
    events: &mut Vec<Event>,
    options: &ViewOptions,
    named: &NamedStreams,
    tables: &TableWatch,
    clocks: &Clocks,
    packets: u64,
) -> Result<(), AllocError>
    ensures { OnOk result (events.new.items ≡ events.old.items
        ++ spec.stopped_clocks options.now named.now tables.now clocks.now packets) }
{
    let pids = expected_clocks(alloc, tables.names(), named)?;
    match place_at(&options.arrival, packets) {
        None => Ok(()),
        Some(place) => push_clocks(events, options, tables, clocks, packets, place, &pids),
    }
}

/// Appends each table that has not come for too long at the end of the input, after a number of packets, and each PID of
/// the clock references of a program that has had none for too long.
pub fn push_stops(
    alloc: Global,
    events: &mut Vec<Event>,
    options: &ViewOptions,
    named: &NamedStreams,
    tables: &TableWatch,
    clocks: &Clocks,
    packets: u64,
) -> Result<(), AllocError>
    ensures { OnOk result (events.new.items ≡ events.old.items
        ++ spec.stops options.now named.now tables.now clocks.now packets) }
{
    push_stopped_tables(alloc, events, options, tables, packets)?;
    push_stopped_clocks(alloc, events, options, named, tables, clocks, packets)
}
