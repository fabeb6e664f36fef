//! Tables that stop before the end of the input.
ghost use Rattle.std.specs.Prelude.{◌≡◌, ◌++◌, IfOk, OnOk, filter};
ghost use Rattle.ts_report.specs.StoppedEvents as spec;

use es_events::view_options::ViewOptions;
use events::Event;
use pid_findings::Finding;
use std::alloc::{AllocError, Global};
use tr101290::{TableError, push_stopped};
use ts_watch::rule_watch::place_at;
use ts_watch::table_names::TableNames;
use ts_watch::table_watch::{TableTimes, TableWatch, error_event};

// Returns the sections that are open at the end, as if none came before them.
fn open_sections(
    alloc: Global,
    tables: &TableWatch,
    options: &ViewOptions,
) -> Result<TableTimes, AllocError>
    ensures { IfOk result (λ opened. opened ≡ spec.open_sections options.now tables.now) }
{
    let demux = tables.demux();
    let mut opened = TableTimes::new(alloc, tables.times().intervals().timing());
    // A section that is open is no event: it is the only one of its PID.
    let mut unused = Vec::new(alloc);
    for i in 0..demux.pids() {
        let mut ends: Vec<Finding<'static>> = Vec::new(alloc);
        demux.end_of_pid(i, &mut ends)?;
        opened.take_all(options, ends.as_slice(), &mut unused)?;
    }
    Ok(opened)
}

// Returns whether a table has to come: a PMT only if the PAT in force names its program.
#[tactic(auto, unfolding(crate::specs::StoppedEvents::is_expected_part))]
fn is_expected(names: &TableNames, error: &TableError) -> bool
    ensures { result ≡ spec.is_expected names.now error.now }
{
    match error.section.part {
        None => true,
        Some(part) => error.section.table_id != 0x02 || names.has_program(error.section.pid, part),
    }
}

fn expected_errors(names: &TableNames, found: Vec<TableError>) -> Vec<TableError>
    ensures { result.items ≡ filter (spec.is_expected names.now) found.items }
{
    let mut errors = found;
    errors.retain(|error| is_expected(names, error));
    errors
}

fn push_errors(events: &mut Vec<Event>, errors: &[TableError]) -> Result<(), AllocError>
    ensures { OnOk result (events.new.items ≡ events.old.items ++ spec.errors_events errors.now) }
{
    for error in errors {
        events.push(error_event(error))?;
    }
    Ok(())
}

fn push_at(
    alloc: Global,
    events: &mut Vec<Event>,
    options: &ViewOptions,
    tables: &TableWatch,
    packets: u64,
    place: u64,
) -> Result<(), AllocError>
    ensures { OnOk result (events.new.items ≡ events.old.items
        ++ spec.errors_events (spec.stopped_errors options.now tables.now packets place)) }
{
    let opened = open_sections(alloc, tables, options)?;
    let mut errors = Vec::new(alloc);
    let intervals = tables.times().intervals();
    push_stopped(intervals, opened.intervals(), packets, place, &mut errors)?;
    push_errors(events, &expected_errors(tables.names(), errors))
}

/// Appends each table, and each part that has to recur by itself, that has not come for too long at the end of the input,
/// after a number of packets.
#[tactic(auto, unfolding(crate::specs::StoppedEvents::stopped_by))]
pub(crate) fn push_stopped_tables(
    alloc: Global,
    events: &mut Vec<Event>,
    options: &ViewOptions,
    tables: &TableWatch,
    packets: u64,
) -> Result<(), AllocError>
    ensures { OnOk result (events.new.items ≡ events.old.items ++ spec.stopped_events options.now tables.now packets) }
{
    match place_at(&options.arrival, packets) {
        None => Ok(()),
        Some(place) => push_at(alloc, events, options, tables, packets, place),
    }
}
