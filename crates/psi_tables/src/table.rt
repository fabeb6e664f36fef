//! What the readers of tables share.

ghost use Rattle.std.specs.Prelude.{◌≡◌, ◌≤◌};
ghost use Rattle.psi_tables.specs.Views.{section_view};
ghost use Rattle.psi_tables.specs.Tables.{table_header_at};

use crate::error::SectionError;
use crate::section::{LongHeader, Section};

/// Returns the fields of the long form of a section with this table_id.
///
/// Refusals: `Syntax` for another table_id or the short form, then `Length` for a section_length over
/// the greatest of the table.
#[tactic(auto, unfolding(crate::specs::Tables::table_header_at, crate::specs::Tables::form_at))]
pub fn table_header_at(
    table_id: u8,
    greatest_length: usize,
    section: &Section<'_>,
) -> Result<LongHeader, SectionError>
    requires { 9 ≤ greatest_length }
    ensures { result ≡ table_header_at table_id greatest_length (section_view section.now) }
{
    if section.header.table_id == table_id {
        match section.header.long {
            None => Err(SectionError::Syntax),
            Some(header) => {
                if greatest_length - 9 < section.body.len() {
                    Err(SectionError::Length)
                } else {
                    Ok(header)
                }
            }
        }
    } else {
        Err(SectionError::Syntax)
    }
}
