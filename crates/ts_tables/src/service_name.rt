//! The name of one program's service.
ghost use Rattle.std.specs.Prelude.{◌≡◌, IfOk, OnOk, map, option_map, string_bytes};
ghost use Rattle.pid_findings.specs.Shown.{finding_view};
ghost use Rattle.ts_services.specs.Services.{found_service_view};
ghost use Rattle.ts_tables.specs.ServiceNames as spec;

use dvb_texts::decode_text;
use pid_findings::Finding;
use std::alloc::{AllocError, Global};
use std::marker::Model;
use stream_programs::FoundProgram;
use ts_services::{FoundService, FoundServices, last_service};

// The most bytes of a name in a service descriptor.
const MOST_BYTES: usize = 255;

/// A program, and the name of its service, where one is known.
#[derive(Drop)]
pub struct ServiceName {
    pub program: u16,
    pub name: Option<String>,
}

impl Model for ServiceName {
    ghost use Rattle.std.specs.Prelude.{option_map, string_bytes};
    ghost use Rattle.ts_tables.specs.ServiceNames.{NameState};

    ghost Value = { NameState };

    ghost view = { λ n. record { program = n.program; name = option_map string_bytes n.name } };
}

// A text, if it has a character.
#[tactic(auto, unfolding(crate::specs::ServiceNames::some_text))]
fn some_text(text: String) -> Option<String>
    ensures { option_map string_bytes result ≡ spec.some_text (string_bytes text) }
{
    if text.is_empty() { None } else { Some(text) }
}

// The name of a service.
#[tactic(auto, unfolding(crate::specs::ServiceNames::name_of))]
fn name_of(alloc: Global, service: Option<FoundService<'_>>) -> Result<Option<String>, AllocError>
    ensures { IfOk result (λ name. option_map string_bytes name
        ≡ spec.name_of (option_map found_service_view service.entry)) }
{
    match service {
        None => Ok(None),
        Some(service) => Ok(some_text(decode_text(alloc, service.name, MOST_BYTES)?)),
    }
}

// Returns the name that findings give a program's service.
fn name_in(
    alloc: Global,
    findings: &[Finding<'_>],
    program: u16,
) -> Result<Option<String>, AllocError>
    ensures { IfOk result (λ name. option_map string_bytes name
        ≡ spec.name_in (map finding_view findings.now) program) }
{
    name_of(alloc, last_service(program, findings))
}

impl ServiceName {
    /// Returns what the first packets say of a program.
    pub(crate) fn first(
        alloc: Global,
        services: &FoundServices<'_, '_>,
        program: &FoundProgram,
    ) -> Result<ServiceName, AllocError>
        ensures { IfOk result (λ name. name ≡ spec.first_name services.now program.now) }
    {
        Ok(ServiceName {
            program: program.number,
            name: name_of(alloc, services.of(program.number))?,
        })
    }

    /// Takes later findings in place of earlier ones.
    pub(crate) fn take(&mut self, alloc: Global, findings: &[Finding<'_>]) -> Result<(), AllocError>
        ensures { OnOk result (self.new ≡ spec.with_later (map finding_view findings.now) self.old) }
    {
        if let Some(name) = name_in(alloc, findings, self.program)? {
            self.name = Some(name);
        }
        Ok(())
    }
}
