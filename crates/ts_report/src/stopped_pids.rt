//! PIDs of video and audio that stop before the end of the input.
ghost use Rattle.std.specs.Prelude.{◌≡◌, ◌++◌, IfOk, OnOk};
ghost use Rattle.ts_report.specs.StoppedPids as spec;

use arrival::Arrival;
use es_events::view_options::ViewOptions;
use events::{ClockFault, Event};
use packet_times::{LONGEST_SECONDS, PidGaps, push_gaps};
use std::alloc::{AllocError, Global};
use ts_tables::NamedStreams;
use ts_watch::rule_watch::place_at;
use ts_watch::table_names::TableNames;

// Returns the longest time that is no fault, in seconds: a second more, if the rate of the last packets is not known.
#[tactic(auto, unfolding(crate::specs::StoppedPids::longest_seconds))]
fn longest_seconds(arrival: &Arrival) -> u8
    ensures { result ≡ spec.longest_seconds arrival.now }
{
    match arrival {
        Arrival::AtRate(_) => LONGEST_SECONDS,
        Arrival::Unknown | Arrival::OnLines(_) => LONGEST_SECONDS + 1,
    }
}

fn stops_since(names: &TableNames, section: u64, found: Vec<ClockFault>) -> Vec<ClockFault>
    ensures { result.items ≡ spec.stops_since names.now section found.items }
{
    let mut pauses = found;
    pauses.retain(|pause| names.names(section, pause.pid));
    pauses
}

// Returns the pauses, up to the end, of PIDs that a table in force may name.
fn stops_at(
    alloc: Global,
    options: &ViewOptions,
    names: &TableNames,
    gaps: &PidGaps,
    packets: u64,
    place: u64,
) -> Result<Vec<ClockFault>, AllocError>
    ensures { IfOk result (λ pauses. pauses.items ≡ spec.stops_at options.now names.now gaps.now packets place) }
{
    let seconds = longest_seconds(&options.arrival);
    let mut pauses = Vec::new(alloc);
    gaps.push_stopped(seconds, packets, place, &mut pauses)?;
    Ok(stops_since(names, names.oldest(), pauses))
}

/// Appends each PID of video or audio that has had no packet for too long at the end of the input, after a number of
/// packets, if a table in force may name it.
#[tactic(auto, unfolding(crate::specs::StoppedPids::stopped_pids_by))]
pub fn push_stopped_pids(
    alloc: Global,
    events: &mut Vec<Event>,
    options: &ViewOptions,
    named: &NamedStreams,
    names: &TableNames,
    gaps: &PidGaps,
    packets: u64,
) -> Result<(), AllocError>
    ensures { OnOk result (events.new.items
        ≡ events.old.items ++ spec.stopped_pids options.now named.now names.now gaps.now packets) }
{
    match place_at(&options.arrival, packets) {
        None => Ok(()),
        Some(place) => {
            let pauses = stops_at(alloc, options, names, gaps, packets, place)?;
            push_gaps(events, named, &pauses)
        }
    }
}
