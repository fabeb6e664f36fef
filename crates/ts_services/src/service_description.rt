//! The service description tables in force that findings have (EN 300 468, 5.2.3).

ghost use Rattle.std.specs.Prelude.{◌≡◌, option_map};
ghost use Rattle.psi_tables.specs.Views.{section_view};
ghost use Rattle.pid_findings.specs.Shown.{finding_view};
ghost use Rattle.dvb_tables.specs.ServiceDescription.{sdt_at, sdt_view};
ghost use Rattle.ts_services.specs.ServiceDescriptions as spec;

use dvb_tables::Sdt;
use pid_findings::Finding;
use program_tables::section_on;
use psi_tables::Section;
use std::alloc::Allocator;

/// The PID of service description sections.
pub(crate) const SDT_PID: u16 = 0x11;

// Returns a table that is in force now.
#[tactic(auto, unfolding(crate::specs::ServiceDescriptions::sdt_of_section, crate::specs::ServiceDescriptions::in_force))]
fn sdt_of_section<'f>(section: &Section<'f>) -> Option<Sdt<'f>>
    ensures { option_map sdt_view result ≡ spec.in_force (sdt_at (section_view section.now)) }
{
    match Sdt::read(section) {
        Err(_) => None,
        Ok(sdt) => {
            if sdt.header.current_next {
                Some(sdt)
            } else {
                None
            }
        }
    }
}

#[tactic(auto, unfolding(crate::specs::ServiceDescriptions::sdt_in, crate::specs::ServiceDescriptions::sdt_of_section))]
fn sdt_in(bytes: &[u8]) -> Option<Sdt<'_>>
    ensures { option_map sdt_view result ≡ spec.sdt_in bytes.now }
{
    match Section::read(bytes) {
        Err(_) => None,
        Ok((section, _)) => sdt_of_section(&section),
    }
}

/// Returns the table that a finding has.
#[tactic(auto, unfolding(crate::specs::ServiceDescriptions::sdt_found))]
pub(crate) fn sdt_found<'f, A: Allocator>(finding: &'f Finding<'_, A>) -> Option<Sdt<'f>>
    ensures { option_map sdt_view result ≡ spec.sdt_found (finding_view finding.now) }
{
    match section_on(SDT_PID, finding) {
        None => None,
        Some(bytes) => sdt_in(bytes),
    }
}
