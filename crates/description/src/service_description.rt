//! The service description sections of a description (EN 300 468, 5.2.3).

ghost use Rattle.std.specs.Prelude.{◌≡◌, ◌<◌, ◌≤◌, ◌+◌, ◌++◌, [], ◌∷◌, IsTrue, length, map, option_map};
ghost use Rattle.std.specs.Prelude.{slice_get, sum_by};
ghost use Rattle.psi_tables.specs.Encoding.{section_bytes};
ghost use Rattle.psi_tables.specs.declared.writing.TheConstants.{GREATEST_TABLE_LENGTH};
ghost use Rattle.dvb_tables.specs.declared.service_loop.TheConstants.{GREATEST_SERVICE_LOOP};
ghost use Rattle.dvb_tables.specs.ServiceDescription.{sdt_section};
ghost use Rattle.dvb_tables.specs.Services.{service_loop_of, services_of, services_bytes};
ghost use Rattle.description_parts.specs.Tables.{service_length, sdt_parts};
ghost use Rattle.description.specs.SectionBytes as spec;

use crate::description::Description;
use crate::section_bytes::part_header;
use arrayvec::ArrayVec;
use description_parts::table_kind::is_scheduled;
use description_parts::{ProgramDescription, laws};
use dvb_tables::{RunningStatus, Sdt, Service, ServiceLoop, Services};
use psi_tables::LongHeader;

/// Returns running_status of a program's service, and of its present event.
pub(crate) fn program_status(program: &ProgramDescription) -> RunningStatus
    ensures { result ≡ spec.program_status program.now }
{
    if program.is_on_air() {
        program.running_status()
    } else {
        RunningStatus::NotRunning
    }
}

// Adds the service of a program, for which there is room.
fn push_service_of(entries: &mut ServiceLoop, program: &ProgramDescription, has_eit: bool)
    requires { length (services_bytes (service_loop_of entries.old)) + service_length program.now
        ≤ GREATEST_SERVICE_LOOP }
    ensures value { service_loop_of entries.new ≡ service_loop_of entries.old
        ++ spec.service_says has_eit program.now ∷ [] }
    ensures length { length (services_bytes (service_loop_of entries.new))
        ≡ length (services_bytes (service_loop_of entries.old)) + service_length program.now }
{
    let entry = Service {
        service_id: program.number(),
        eit_schedule: program.eit_schedule(),
        eit_present_following: is_scheduled(has_eit, program),
        running_status: program_status(program),
        free_ca_mode: program.free_ca(),
        descriptors: program.service_descriptors(),
    };
    match entries.push(&entry) {
        Ok(()) => {}
        Err(_) => unreachable!(),
    }
}

fn program_services(programs: &[ProgramDescription], has_eit: bool) -> ServiceLoop
    requires { sum_by service_length programs.now ≤ GREATEST_SERVICE_LOOP }
    ensures value { service_loop_of result ≡ map (spec.service_says has_eit) programs.now }
    ensures length { length (services_bytes (service_loop_of result)) ≡ sum_by service_length programs.now }
{
    let mut entries = ServiceLoop::new();
    for program in programs {
        push_service_of(&mut entries, program, has_eit);
    }
    entries
}

impl Description {
    // Writes a section of the service description table under a version, of these programs' services.
    fn write_sdt(
        &self,
        part: &[ProgramDescription],
        version: u8,
        number: u8,
        last: u8,
        out: &mut ArrayVec<u8, 4096>,
    )
        requires room { sum_by service_length part.now ≤ GREATEST_SERVICE_LOOP }
        requires version { version < 32 }
        ensures { out.new.items ≡ section_bytes (sdt_section (spec.sdt_of self.now part.now version number last)) }
    {
        let entries = program_services(part, self.has_eit());
        let header = part_header(self.transport_stream_id(), version, number, last);
        write_section(header, self.original_network_id(), entries.services(), out);
    }

    // Returns the programs whose services a section of the table has.
    fn sdt_part(&self, section: usize) -> Option<&[ProgramDescription]>
        ensures { option_map (λ s. s.now) result ≡ slice_get (sdt_parts self.now) section }
    {
        self.contents.sdt_part(section)
    }

    /// Writes the section of a number of the service description table under a version; nothing if there is no such
    /// section.
    pub(crate) fn write_sdt_at(&self, version: u8, section: u8, out: &mut ArrayVec<u8, 4096>)
        requires sdt { IsTrue self.now.has_sdt }
        requires version { version < 32 }
        ensures { out.new.items ≡ spec.sdt_part_bytes self.now version section }
    {
        self.keeps_ranges();
        laws::sdt_parts();
        let last = self.service_sections() - 1;
        match self.sdt_part(section as usize) {
            None => out.clear(),
            Some(part) => self.write_sdt(part, version, section, last as u8, out),
        }
    }
}

#[tactic(auto, using(dvb_tables::proofs::BodyLengths::sdt_body_length))]
fn write_section(
    header: LongHeader,
    original_network_id: u16,
    services: Services<'_>,
    out: &mut ArrayVec<u8, 4096>,
)
    requires version { header.version_number < 32 }
    requires room { 12 + length (services_bytes (services_of services)) ≤ GREATEST_TABLE_LENGTH }
    ensures { out.new.items ≡ section_bytes (sdt_section (record {
      header = header;
      original_network_id = original_network_id;
      services = services_of services.entry;
    })) }
{
    let section = Sdt {
        header,
        original_network_id,
        services,
    };
    match section.write_to(out) {
        Ok(()) => {}
        Err(_) => unreachable!(),
    }
}
