//! The lines for tables that no job is made of.

ghost use Rattle.std.specs.Prelude.{◌≡◌, ◌++◌, IfOk, OnOk, string_bytes};
ghost use Rattle.std.specs.List.{list_any};
ghost use Rattle.other_tables.specs.TableKinds.{is_loss};
ghost use Rattle.job_run.specs.TableLines as spec;

use job_inputs::JobInput;
use other_tables::{OtherTable, TableKind};
use std::alloc::{AllocError, Global};
use std::fmt::Write;

// Returns the name of a table.
#[tactic(auto, unfolding(crate::specs::TableLines::kind_name))]
fn kind_name(kind: TableKind) -> &'static str
    ensures { result.now ≡ spec.kind_name kind }
{
    match kind {
        TableKind::ConditionalAccess => "CAT, ECM or EMM",
        TableKind::Objects => "DSM-CC",
        TableKind::Network => "NIT",
        TableKind::Services => "SDT of other streams or BAT",
        TableKind::Events => "EIT",
        TableKind::Time => "TOT",
        TableKind::Running => "RST",
        TableKind::Applications => "AIT",
        TableKind::Splices => "SCTE 35",
        TableKind::Private => "another table",
    }
}

// Appends the line of a table.
#[tactic(auto, unfolding(crate::specs::TableLines::other_table_line))]
fn write_other_table(table: &OtherTable, text: &mut String) -> Result<(), AllocError>
    ensures { OnOk result (string_bytes text.new ≡ string_bytes text.old ++ spec.other_table_line table.now) }
{
    let OtherTable { pid, kind, count } = *table;
    write!(text, "pid {pid} has {count} sections of ")?;
    text.push_str(kind_name(kind))?;
    text.push_str(": left out\n")
}

/// Appends a line for each table.
pub(crate) fn write_other_tables(tables: &[OtherTable], text: &mut String) -> Result<(), AllocError>
    ensures { OnOk result (string_bytes text.new ≡ string_bytes text.old ++ spec.other_table_lines tables.now) }
{
    for table in tables {
        write_other_table(table, text)?;
    }
    Ok(())
}

// Returns whether a table is reported: it is not carried, and `all` is set or a viewer loses something without it.
fn is_reported(all: bool, input: &JobInput, table: &OtherTable) -> bool
    ensures { result ≡ spec.is_reported all input.now table.now }
{
    !input.carries_table(table.pid) && (all || table.kind.is_loss())
}

/// Returns the tables that are reported.
pub(crate) fn reported_tables(
    alloc: Global,
    all: bool,
    input: &JobInput,
    tables: &[OtherTable],
) -> Result<Vec<OtherTable>, AllocError>
    ensures { IfOk result (λ reported. reported.items ≡ spec.reported_tables all input.now tables.now) }
{
    tables
        .iter()
        .filter(|table| is_reported(all, input, table))
        .copied()
        .collect(alloc)
}

/// Returns whether a viewer loses anything without these tables.
pub(crate) fn are_missed(tables: &[OtherTable]) -> bool
    ensures { result ≡ list_any (λ t. is_loss t.kind) tables.now }
{
    tables.iter().any(|table| table.kind.is_loss())
}
