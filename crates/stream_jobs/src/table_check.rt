//! Whether a description has the private tables of a job.

ghost use Rattle.std.specs.Prelude.{◌≡◌, IfNone, IsTrue, map, option_map};
ghost use Rattle.stream_jobs.specs.Jobs.{IsTable, TablesInTurn};
ghost use Rattle.stream_jobs.specs.Jobs as spec;

use description_parts::{MapEntry, PrivateTable};
use description_values::PrivateSection;
use job_inputs::JobTable;

// Returns whether these are the declared sections.
#[tactic(auto, unfolding(crate::specs::Jobs::are_sections))]
fn are_sections(declared: &[PrivateSection], sections: &[Vec<u8>]) -> bool
    ensures { result ≡ spec.are_sections declared.now (map (λ b. b.items) sections.now) }
{
    let mut ones = declared;
    let mut rest = sections;
    'sections: while let Some((one, later_ones)) = ones.split_first() {
        let Some((section, later)) = rest.split_first() else {
            return false;
        };
        if one.as_bytes() != section.as_slice() {
            return false;
        }
        ones = later_ones;
        rest = later;
    }
    rest.is_empty()
}

// Returns whether a table has the entry of this one in the map of its program.
#[tactic(auto, unfolding(crate::specs::Jobs::has_entry))]
fn has_entry(declared: Option<&MapEntry>, table: &JobTable) -> bool
    ensures { result ≡ spec.has_entry (option_map (λ e. e.now) declared.entry) table.now }
{
    match declared {
        None => false,
        Some(entry) => {
            entry.program == table.program
                && entry.stream_type == table.stream_type
                && entry.descriptors.as_bytes() == table.descriptors.as_slice()
        }
    }
}

// Returns whether the PID, the sections and the entry of a table are the declared ones.
#[tactic(auto, unfolding(crate::specs::Jobs::is_table))]
fn has_parts(declared: &PrivateTable, table: &JobTable) -> bool
    ensures { result ≡ spec.is_table declared.now table.now }
{
    declared.pid() == table.pid
        && are_sections(declared.sections(), &table.sections)
        && has_entry(declared.entry(), table)
}

// Returns whether a table is the declared one.
#[tactic(auto, using(crate::proofs::TableAgreement::table_is))]
fn is_table(declared: &PrivateTable, table: &JobTable) -> bool
    ensures value { result ≡ spec.is_table declared.now table.now }
    ensures table { IsTrue result → IsTable declared.now table.now }
{
    has_parts(declared, table)
}

/// Returns the PID of the first table that is not the declared one in its place.
#[tactic(auto, unfolding(crate::specs::Jobs::TablesInTurn, crate::specs::Jobs::first_other_table))]
pub(crate) fn first_other_table(declared: &[PrivateTable], tables: &[JobTable]) -> Option<u16>
    ensures value { result ≡ spec.first_other_table declared.now tables.now }
    ensures are { IfNone result (TablesInTurn declared.now tables.now) }
{
    let mut ones = declared;
    let mut rest = tables;
    'tables: while let Some((one, later_ones)) = ones.split_first() {
        let Some((table, later)) = rest.split_first() else {
            return None;
        };
        if !is_table(one, table) {
            return Some(table.pid);
        }
        ones = later_ones;
        rest = later;
    }
    None
}
