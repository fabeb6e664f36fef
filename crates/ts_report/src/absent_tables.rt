//! Tables that are never whole.
ghost use Rattle.std.specs.Prelude.{◌≡◌, ◌++◌, OnOk, map};
ghost use Rattle.pid_findings.specs.Shown.{finding_view};
ghost use Rattle.program_tables.specs.KnownTables.{known_in};
ghost use Rattle.ts_report.specs.AbsentTables as spec;

use events::{AbsentTable, Event, RuleEvent};
use pid_findings::Finding;
use program_tables::KnownTables;
use psi_tables::Program;
use std::alloc::{AllocError, Global};
use ts_tables::NamedStreams;
use ts_watch::table_watch::TableWatch;

// Appends the event of a table, unless the input has it.
fn push_unless(events: &mut Vec<Event>, has: bool, pid: u16, table: u8) -> Result<(), AllocError>
    ensures { OnOk result (events.new.items ≡ events.old.items ++ spec.absent_unless has pid table) }
{
    if !has {
        events.push(Event::Rule(RuleEvent::NoTable(AbsentTable { pid, table })))?;
    }
    Ok(())
}

// Appends the event of each of these programs that has no whole PMT and that the PAT in force names.
fn push_maps(
    events: &mut Vec<Event>,
    known: &KnownTables,
    programs: &[Program],
    findings: &[Finding<'_>],
    tables: &TableWatch,
) -> Result<(), AllocError>
    requires { known.now ≡ known_in (map finding_view findings.now) }
    ensures { OnOk result (events.new.items
        ≡ events.old.items ++ spec.maps_events (map finding_view findings.now) tables.now programs.now) }
{
    for program in programs {
        let has = known.has_map(*program, findings)
            || tables.has_map(program.pid, program.program_number)
            || !tables
                .names()
                .has_program(program.pid, program.program_number);
        push_unless(events, has, program.pid, 0x02)?;
    }
    Ok(())
}

fn push_tables(
    alloc: Global,
    events: &mut Vec<Event>,
    findings: &[Finding<'_>],
    tables: &TableWatch,
) -> Result<(), AllocError>
    ensures { OnOk result (events.new.items
        ≡ events.old.items ++ spec.absent_tables (map finding_view findings.now) tables.now) }
{
    let mut known = KnownTables::new(alloc);
    known.take(0, findings)?;
    push_unless(events, known.has_association(), 0x00, 0x00)?;
    push_maps(events, &known, known.programs(), findings, tables)
}

/// Appends an event if no PAT is whole among the first packets of a stream, and one for each program that this PAT and
/// the PAT in force name and that never has a whole PMT; `stream`: whether the input is a transport stream.
pub fn push_absent(
    alloc: Global,
    events: &mut Vec<Event>,
    stream: bool,
    named: &NamedStreams,
    tables: &TableWatch,
) -> Result<(), AllocError>
    ensures { OnOk result (events.new.items
        ≡ events.old.items ++ spec.absent_events stream named.now tables.now) }
{
    if !stream {
        return Ok(());
    }
    push_tables(alloc, events, named.findings(), tables)
}
