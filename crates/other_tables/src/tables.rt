//! The PIDs with tables that no job is made of.

ghost use Rattle.std.specs.Prelude.{◌≡◌, ◌<◌, ◌-◌, ◌^◌, ◌++◌, [], ℕ, IfOk, OnOk, Some, length, map, option_to_list};
ghost use Rattle.std.specs.Prelude.{slice_index};
ghost use Rattle.pid_findings.specs.Shown.{finding_view, what_view};
ghost use Rattle.other_tables.specs.OtherTables as spec;
ghost use Rattle.other_tables.specs.PidCounts as counted;

use crate::kinds::{TableKind, kind_of};
use pid_findings::{Finding, What};
use std::alloc::{AllocError, Global};

/// How many numbers 16 bits have; a PID has 13.
const PID_NUMBERS: usize = 65_536;

/// A table that no job is made of.
#[derive(Clone, Copy)]
pub struct OtherTable {
    pub pid: u16,
    /// What the first of its sections is of.
    pub kind: TableKind,
    /// How many sections of such tables the PID has.
    pub count: usize,
}

// Returns the table of a finding's section, if no job is made of that table.
#[tactic(auto, unfolding(crate::specs::OtherTables::kind_at))]
fn kind_at(what: &What<'_>) -> Option<TableKind>
    ensures { result ≡ spec.kind_at (what_view what.now) }
{
    match what {
        What::Section(part) => match part.bytes() {
            [table_id, ..] => kind_of(*table_id),
            [] => None,
        },
        _ => None,
    }
}

// Returns the PID of a finding with a section of a table that no job is made of.
#[tactic(auto, unfolding(crate::specs::PidCounts::table_pid))]
fn table_pid(finding: &Finding<'_>) -> Option<u16>
    ensures { result ≡ counted.table_pid (finding_view finding.now) }
{
    if kind_at(&finding.what).is_some() {
        finding.pid
    } else {
        None
    }
}

// Returns a count of 0 for each PID.
fn no_counts(alloc: Global) -> Result<Vec<usize>, AllocError>
    ensures { IfOk result (λ counts. counted.AreCounts counts.items []) }
{
    Ok(vec![in alloc; 0usize; PID_NUMBERS]?)
}

// Returns, for each PID, that no table is found on it.
fn none_seen(alloc: Global) -> Result<Vec<bool>, AllocError>
    ensures { IfOk result (λ seen. counted.AreSeen seen.items []) }
{
    Ok(vec![in alloc; false; PID_NUMBERS]?)
}

// Counts a finding that is a section of a table that no job is made of.
#[tactic(auto, unfolding(crate::specs::PidCounts::counted_on))]
fn count_section(finding: &Finding<'_>, counts: &mut Vec<usize>)
    requires size { length counts.old.items ≡ 65_536 }
    requires room { (pid : ℕ) → pid < 65_536 → slice_index counts.old.items pid < 2 ^ 64 - 1 }
    ensures counts { counts.new.items ≡ counted.counted_with counts.old.items (finding_view finding.now) }
    ensures fits { (pid : ℕ) → counted.table_pid (finding_view finding.now) ≡ Some pid → pid < 65_536 }
{
    if let Some(pid) = table_pid(finding) {
        counts[pid as usize] += 1;
    }
}

// Counts the sections of such tables on each PID, from the last finding to the first.
fn section_counts(alloc: Global, findings: &[Finding<'_>]) -> Result<Vec<usize>, AllocError>
    ensures { IfOk result (λ counts. counted.AreCounts counts.items (map finding_view findings.now)) }
{
    let mut counts = no_counts(alloc)?;
    let mut left = findings.len();
    'findings: while left > 0 {
        left -= 1;
        count_section(&findings[left], &mut counts);
    }
    Ok(counts)
}

// Returns the table that a finding is the first section of, with the count of its PID.
#[tactic(auto, unfolding(crate::specs::PidCounts::table_with, crate::specs::PidCounts::table_of))]
fn table_with(counts: &[usize], seen: &[bool], finding: &Finding<'_>) -> Option<OtherTable>
    requires counts { length counts.now ≡ 65_536 }
    requires seen { length seen.now ≡ 65_536 }
    ensures { option_to_list result ≡ counted.table_with counts.now seen.now (finding_view finding.now) }
{
    let kind = kind_at(&finding.what)?;
    let pid = finding.pid?;
    if seen[pid as usize] {
        return None;
    }
    let count = counts[pid as usize];
    Some(OtherTable { pid, kind, count })
}

// Notes that a table is found on the PID of a finding.
#[tactic(auto, unfolding(crate::specs::PidCounts::seen_on))]
fn note_seen(finding: &Finding<'_>, seen: &mut Vec<bool>)
    requires { length seen.old.items ≡ 65_536 }
    ensures seen { seen.new.items ≡ counted.seen_with seen.old.items (finding_view finding.now) }
    ensures fits { (pid : ℕ) → counted.table_pid (finding_view finding.now) ≡ Some pid → pid < 65_536 }
{
    if let Some(pid) = table_pid(finding) {
        seen[pid as usize] = true;
    }
}

// Appends the table that a finding is the first section of.
fn push_table(
    counts: &[usize],
    seen: &[bool],
    finding: &Finding<'_>,
    found: &mut Vec<OtherTable>,
) -> Result<(), AllocError>
    requires counts { length counts.now ≡ 65_536 }
    requires seen { length seen.now ≡ 65_536 }
    ensures { OnOk result (found.new.items ≡ found.old.items
        ++ counted.table_with counts.now seen.now (finding_view finding.now)) }
{
    if let Some(table) = table_with(counts, seen, finding) {
        found.push(table)?;
    }
    Ok(())
}

/// Returns the PIDs with sections of tables that no job is made of, in the order of their first such section.
#[tactic(auto, unfolding(crate::specs::OtherTables::other_tables))]
pub fn other_tables(alloc: Global, findings: &[Finding<'_>]) -> Result<Vec<OtherTable>, AllocError>
    ensures { IfOk result (λ found. found.items ≡ spec.other_tables (map finding_view findings.now)) }
{
    let counts = section_counts(alloc, findings)?;
    let mut seen = none_seen(alloc)?;
    let mut found = Vec::new(alloc);
    for finding in findings {
        push_table(&counts, &seen, finding, &mut found)?;
        note_seen(finding, &mut seen);
    }
    Ok(found)
}
