//! The sections of a table, by their table_id.

ghost use Rattle.std.specs.Prelude.{◌≡◌};
ghost use Rattle.pid_findings.specs.Shown.{what_view};
ghost use Rattle.service_information.specs.FirstFindings as spec;

use pid_findings::What;

/// Returns whether it is a section with this table_id.
#[tactic(auto, unfolding(crate::specs::FirstFindings::has_table_id))]
pub(crate) fn has_table_id(id: u8, what: &What<'_>) -> bool
    ensures { result ≡ spec.has_table_id id (what_view what.now) }
{
    match what {
        What::Section(part) => match part.bytes() {
            [table_id, ..] => *table_id == id,
            [] => false,
        },
        _ => false,
    }
}
