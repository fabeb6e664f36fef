//! What the description of a job says of a program's service.

ghost use Rattle.std.specs.Prelude.{◌≡◌, ◌++◌, IfOk, OnOk, Some, is_some, option_map, string_bytes};
ghost use Rattle.ts_services.specs.Services.{service, found_service_view};
ghost use Rattle.job_programs.specs.GivenNames.{name_given};
ghost use Rattle.job_programs.specs.GivenLoops.{is_loop};
ghost use Rattle.job_programs.specs.Information as spec;

use crate::given_loops::{given_service, is_loop_of, kept_loop};
use crate::given_names::name_given;
use crate::job_programs::JobProgram;
use dvb_tables::RunningStatus;
use dvb_texts::decode_text;
use given_values::ServiceName;
use std::alloc::{AllocError, Global};
use std::marker::Model;
use ts_services::{FoundService, FoundServices};

/// The most bytes of a service's name and provider, as written in a descriptor.
const LONGEST_NAME: usize = 100;

/// The most bytes of a service's descriptors.
const MOST_BYTES: usize = 1_004;

/// The type of a service without a service description: digital television (EN 300 468, table 87).
const TELEVISION: u8 = 1;

/// A service: its status, its texts as characters, and all of its descriptors if these texts do not give exactly these.
#[derive(Drop)]
pub struct NamedService {
    pub running_status: RunningStatus,
    pub service_type: u8,
    pub provider: String,
    pub name: String,
    pub descriptors: Option<Vec<u8>>,
}

// A contract sees its texts and its descriptors as lists.
impl Model for NamedService {
    ghost use Rattle.std.specs.Prelude.{option_map, string_bytes};
    ghost use Rattle.job_programs.specs.Information.{NamedServiceView};

    ghost Value = { NamedServiceView };

    ghost view = { λ s. record {
      running_status = s.running_status;
      service_type = s.service_type;
      provider = string_bytes s.provider;
      name = string_bytes s.name;
      descriptors = option_map (λ b. b.items) s.descriptors;
    } };
}

impl NamedService {
    /// Returns whether a description has these descriptors of the service.
    pub fn has_loop(&self, descriptors: &[u8]) -> bool
        ensures { result ≡ is_loop descriptors.now (spec.service_loop self.now) }
    {
        let given = given_service(self.service_type, &self.provider, &self.name);
        is_loop_of(descriptors, &self.descriptors, &given)
    }
}

// Returns whether the service of a program is described.
fn is_described(services: &FoundServices<'_, '_>, number: u16) -> bool
    ensures { result ≡ is_some (service number services.now) }
{
    match services.of(number) {
        Some(_) => true,
        None => false,
    }
}

// Returns whether the service of a program is given a name.
fn is_named(names: &[ServiceName<'_>], number: u16) -> bool
    ensures { result ≡ is_some (name_given number names.now) }
{
    match name_given(number, names) {
        Some(_) => true,
        None => false,
    }
}

// Returns whether the service of a program is described, or an option names it.
#[tactic(auto, unfolding(crate::specs::Information::has_service))]
fn has_service(names: &[ServiceName<'_>], services: &FoundServices<'_, '_>, number: u16) -> bool
    ensures { result ≡ spec.has_service names.now services.now number }
{
    is_described(services, number) || is_named(names, number)
}

/// Returns whether the stream describes the service of any of these programs, or an option names it.
#[tactic(auto, unfolding(crate::specs::Information::has_services))]
pub(crate) fn has_services(
    names: &[ServiceName<'_>],
    services: &FoundServices<'_, '_>,
    programs: &[JobProgram],
) -> bool
    ensures { result ≡ spec.has_services names.now services.now programs.now }
{
    programs
        .iter()
        .any(|program| has_service(names, services, program.number))
}

// Returns a service that is found.
#[tactic(auto, unfolding(crate::specs::Information::named_service, crate::specs::Information::service_by))]
fn service_found(alloc: Global, service: FoundService<'_>) -> Result<NamedService, AllocError>
    ensures { IfOk result (λ named. named
        ≡ spec.named_service (Some (found_service_view service.entry))) }
{
    let provider = decode_text(alloc, service.provider, LONGEST_NAME)?;
    let name = decode_text(alloc, service.name, LONGEST_NAME)?;
    let given = given_service(service.service_type, &provider, &name);
    Ok(NamedService {
        running_status: service.running_status,
        service_type: service.service_type,
        provider,
        name,
        descriptors: kept_loop(alloc, MOST_BYTES, &given, service.descriptors)?,
    })
}

// Returns a service, or a television service without a name.
#[tactic(auto, unfolding(crate::specs::Information::named_service))]
fn named_service(
    alloc: Global,
    service: Option<FoundService<'_>>,
) -> Result<NamedService, AllocError>
    ensures { IfOk result (λ named. named ≡ spec.named_service (option_map found_service_view service.entry)) }
{
    match service {
        Some(service) => service_found(alloc, service),
        None => Ok(NamedService {
            running_status: RunningStatus::Running,
            service_type: TELEVISION,
            provider: String::new(alloc),
            name: String::new(alloc),
            descriptors: None,
        }),
    }
}

/// Returns the bytes of a text as a text of its own.
pub(crate) fn copied(alloc: Global, text: &str) -> Result<String, AllocError>
    ensures { IfOk result (λ copy. string_bytes copy ≡ text.now) }
{
    let mut copy = String::new(alloc);
    copy.push_str(text)?;
    Ok(copy)
}

// Returns a service with the name of the option, and with its provider if the option has one.
#[tactic(auto, unfolding(crate::specs::Information::renamed))]
fn renamed(
    alloc: Global,
    given: &ServiceName<'_>,
    service: NamedService,
) -> Result<NamedService, AllocError>
    ensures { IfOk result (λ named. named ≡ spec.renamed given.now service) }
{
    let provider = given.provider;
    let name = copied(alloc, given.name)?;
    match provider {
        Some(provider) => Ok(NamedService {
            running_status: service.running_status,
            service_type: service.service_type,
            provider: copied(alloc, provider)?,
            name,
            descriptors: None,
        }),
        None => Ok(NamedService {
            name,
            descriptors: None,
            ..service
        }),
    }
}

// Returns the service of a program.
#[tactic(auto, unfolding(crate::specs::Information::service_with))]
fn service_of(
    alloc: Global,
    names: &[ServiceName<'_>],
    number: u16,
    services: &FoundServices<'_, '_>,
) -> Result<NamedService, AllocError>
    ensures { IfOk result (λ named. named ≡ spec.service_of names.now services.now number) }
{
    let named = named_service(alloc, services.of(number))?;
    match name_given(number, names) {
        Some(given) => renamed(alloc, given, named),
        None => Ok(named),
    }
}

// Appends the service of each program.
fn push_services(
    alloc: Global,
    names: &[ServiceName<'_>],
    programs: &[JobProgram],
    services: &FoundServices<'_, '_>,
    named: &mut Vec<NamedService>,
) -> Result<(), AllocError>
    ensures { OnOk result (named.new.items ≡ named.old.items
        ++ spec.services_of names.now services.now programs.now) }
{
    for program in programs {
        named.push(service_of(alloc, names, program.number, services)?)?;
    }
    Ok(())
}

/// Returns the service of each program.
pub(crate) fn services_of(
    alloc: Global,
    names: &[ServiceName<'_>],
    programs: &[JobProgram],
    services: &FoundServices<'_, '_>,
) -> Result<Vec<NamedService>, AllocError>
    ensures { IfOk result (λ named. named.items ≡ spec.services_of names.now services.now programs.now) }
{
    let mut named = Vec::new(alloc);
    push_services(alloc, names, programs, services, &mut named)?;
    Ok(named)
}
