//! The names of the services of programs.
ghost use Rattle.std.specs.Prelude.{◌≡◌, IfOk, OnOk, map, option_map};
ghost use Rattle.pid_findings.specs.Shown.{finding_view};
ghost use Rattle.demux.specs.FoundSoFar.{with_found};
ghost use Rattle.demux.specs.Stream.{pushed};
ghost use Rattle.ts_tables.specs.ServiceNames as spec;

use crate::named_streams::NamedStreams;
use crate::service_name::ServiceName;
use demux::Demux;
use pid_findings::Finding;
use std::alloc::{AllocError, Global};
use std::marker::Model;
use stream_programs::FoundProgram;
use ts_services::{FoundServices, found_services};

/// The names of the services of the programs of a stream's first tables, as its service description tables say them.
///
/// After an `AllocError` they describe no stream: drop them.
#[derive(Drop)]
pub struct ServiceNames {
    alloc: Global,
    demux: Demux,
    names: Option<Vec<ServiceName>>,
}

impl Model for ServiceNames {
    ghost use Rattle.std.specs.Prelude.{option_map};
    ghost use Rattle.ts_tables.specs.ServiceNames.{NamesState};

    ghost Value = { NamesState };

    ghost view = { λ n. record { demux = n.demux; names = option_map (λ names. names.items) n.names } };
}

// Returns the name of the service of each program.
fn names_by(
    alloc: Global,
    services: &FoundServices<'_, '_>,
    programs: &[FoundProgram],
) -> Result<Vec<ServiceName>, AllocError>
    ensures { IfOk result (λ names. names.items ≡ map (spec.first_name services.now) programs.now) }
{
    let mut names = Vec::new(alloc);
    for program in programs {
        names.push(ServiceName::first(alloc, services, program)?)?;
    }
    Ok(names)
}

// What the first packets say of programs.
fn first_names(
    alloc: Global,
    findings: &[Finding<'_>],
    programs: &[FoundProgram],
) -> Result<Vec<ServiceName>, AllocError>
    ensures { IfOk result (λ names. names.items ≡ map (spec.first_name (map finding_view findings.now)) programs.now) }
{
    let services = found_services(alloc, findings)?;
    names_by(alloc, &services, programs)
}

// Takes later findings for each program.
fn take_each(
    alloc: Global,
    names: &mut [ServiceName],
    findings: &[Finding<'_>],
) -> Result<(), AllocError>
    ensures { OnOk result (names.new ≡ map (spec.with_later (map finding_view findings.now)) names.old) }
{
    for at in 0..names.len() {
        names[at].take(alloc, findings)?;
    }
    Ok(())
}

// The name of a program's service.
#[tactic(auto, unfolding(crate::specs::ServiceNames::name_among))]
fn name_among<'n>(program: u16, names: &'n [ServiceName]) -> Option<&'n str>
    ensures { option_map (λ name. name.now) result ≡ spec.name_among program names.now }
{
    for name in names {
        if name.program == program {
            return name.name.as_deref();
        }
    }
    None
}

fn is_description(bytes: &[u8; 188]) -> bool
    ensures { result ≡ spec.is_description bytes.now }
{
    bytes[1] % 32 == 0 && bytes[2] == 0x11
}

impl ServiceNames {
    /// Returns the state before the first packet.
    pub fn new(alloc: Global) -> ServiceNames
        ensures { result ≡ spec.none_taken }
    {
        ServiceNames {
            alloc,
            demux: Demux::new(alloc),
            names: None,
        }
    }

    // The programs, once they are known.
    #[tactic(auto, unfolding(crate::specs::ServiceNames::begun))]
    fn begin(&mut self, named: &NamedStreams) -> Result<(), AllocError>
        ensures { OnOk result (self.new ≡ record self.old { names = spec.begun named.now self.old.names }) }
    {
        if self.names.is_some() {
            return Ok(());
        }
        if let Some(found) = named.found() {
            self.names = Some(first_names(self.alloc, named.findings(), &found.programs)?);
        }
        Ok(())
    }

    /// Takes the next packet of a stream that names these programs.
    pub fn take(&mut self, named: &NamedStreams, bytes: &[u8; 188]) -> Result<(), AllocError>
        ensures { OnOk result (self.new ≡ spec.taken self.old named.now bytes.now) }
    {
        self.begin(named)?;
        if !is_description(bytes) {
            return Ok(());
        }
        let Ok(()) = self.demux.push(bytes) else {
            return Err(AllocError);
        };
        if let Some(names) = &mut self.names {
            take_each(self.alloc, names, self.demux.findings())?;
        }
        self.demux.forget_findings();
        Ok(())
    }

    /// Returns the name of a program's service, if it is known.
    #[tactic(auto, unfolding(crate::specs::ServiceNames::known_name))]
    pub fn name(&self, program: u16) -> Option<&str>
        ensures { option_map (λ name. name.now) result ≡ spec.known_name program self.now.names }
    {
        match &self.names {
            None => None,
            Some(names) => name_among(program, names),
        }
    }
}
