//! The services of a stream (EN 300 468, 5.2.3 and 6.2.33).

ghost use Rattle.std.specs.Prelude.{◌≡◌, map, option_map};
ghost use Rattle.pid_findings.specs.Shown.{finding_view};
ghost use Rattle.dvb_tables.specs.Services.{service_view, services_of};
ghost use Rattle.descriptor_loops.specs.Descriptors.{descriptor_view};
ghost use Rattle.ts_services.specs.Services as spec;

use crate::service_description::{SDT_PID, sdt_found};
use descriptor_loops::{Descriptor, Descriptors};
use dvb_tables::{RunningStatus, Service, Services};
use pid_findings::Finding;
use program_tables::sections::is_on;
use std::alloc::Allocator;

// The tag of a service descriptor.
const SERVICE: u8 = 0x48;

/// What a service descriptor says, and the status and the descriptors of its service. The texts are still coded
/// (EN 300 468, annex A).
#[derive(Clone, Copy)]
pub struct FoundService<'f> {
    pub running_status: RunningStatus,
    pub service_type: u8,
    pub provider: &'f [u8],
    pub name: &'f [u8],
    /// All descriptors of the service, in their order.
    pub descriptors: &'f [u8],
}

/// Returns the bytes after a byte with their number, and what follows them, if there are as many.
#[tactic(auto, unfolding(crate::specs::Services::length_prefixed))]
pub fn length_prefixed(bytes: &[u8]) -> Option<(&[u8], &[u8])>
    ensures { option_map (λ p. (p.0.now, p.1.now)) result ≡ spec.length_prefixed bytes.now }
{
    match bytes {
        [size, rest @ ..] => {
            if rest.len() < *size as usize {
                return None;
            }
            Some(rest.split_at(*size as usize))
        }
        _ => None,
    }
}

// Returns the service of an entry with a service descriptor of this service_type.
#[tactic(auto, unfolding(crate::specs::Services::with_provider))]
fn named<'f>(entry: Service<'f>, service_type: u8, rest: &'f [u8]) -> Option<FoundService<'f>>
    ensures { option_map spec.found_service_view result ≡ spec.with_provider (service_view entry.entry) service_type
        (spec.length_prefixed rest.now) }
{
    let (provider, after) = length_prefixed(rest)?;
    let (name, _) = length_prefixed(after)?;
    Some(FoundService {
        running_status: entry.running_status,
        service_type,
        provider,
        name,
        descriptors: entry.descriptors,
    })
}

// Returns what an entry and the body of its service descriptor say.
#[tactic(auto, unfolding(crate::specs::Services::service_in))]
fn service_in<'f>(entry: Service<'f>, body: &'f [u8]) -> Option<FoundService<'f>>
    ensures { option_map spec.found_service_view result ≡ spec.service_in (service_view entry.entry) body.now }
{
    match body {
        [service_type, rest @ ..] => named(entry, *service_type, rest),
        _ => None,
    }
}

// Returns what an entry and a descriptor of it say of a service.
#[tactic(auto, unfolding(crate::specs::Services::of_descriptor))]
fn of_descriptor<'f>(entry: Service<'f>, descriptor: Descriptor<'f>) -> Option<FoundService<'f>>
    ensures { option_map spec.found_service_view result
        ≡ spec.of_descriptor (service_view entry.entry) (descriptor_view descriptor.entry) }
{
    if descriptor.tag == SERVICE {
        service_in(entry, descriptor.body)
    } else {
        None
    }
}

/// Returns what an entry and its first service descriptor say.
#[tactic(auto, unfolding(crate::specs::Services::in_descriptors))]
pub(crate) fn service_by(entry: Service<'_>) -> Option<FoundService<'_>>
    ensures { option_map spec.found_service_view result ≡ spec.service_by (service_view entry.entry) }
{
    for descriptor in Descriptors::of(entry.descriptors) {
        if let Some(service) = of_descriptor(entry, descriptor) {
            return Some(service);
        }
    }
    None
}

#[tactic(auto, unfolding(crate::specs::Services::of_entry))]
fn of_entry<'f>(number: u16, entry: Service<'f>) -> Option<FoundService<'f>>
    ensures { option_map spec.found_service_view result ≡ spec.of_entry number (service_view entry.entry) }
{
    if entry.service_id == number {
        service_by(entry)
    } else {
        None
    }
}

// Returns what the entry of a program says.
#[tactic(auto, unfolding(crate::specs::Services::in_entries))]
fn in_entries<'f>(number: u16, entries: Services<'f>) -> Option<FoundService<'f>>
    ensures { option_map spec.found_service_view result ≡ spec.in_entries number (services_of entries.entry) }
{
    for entry in entries {
        if let Some(service) = of_entry(number, entry) {
            return Some(service);
        }
    }
    None
}

/// Returns what a finding says of a program.
#[tactic(auto, unfolding(crate::specs::Services::service_found))]
pub(crate) fn service_found<'f, A: Allocator>(
    number: u16,
    finding: &'f Finding<'_, A>,
) -> Option<FoundService<'f>>
    ensures { option_map spec.found_service_view result ≡ spec.service_found number (finding_view finding.now) }
{
    match sdt_found(finding) {
        None => None,
        Some(sdt) => in_entries(number, sdt.services),
    }
}

/// Returns what the service descriptor of a program says, in the last service description section in force that
/// has one.
pub fn last_service<'f, A: Allocator>(
    number: u16,
    findings: &'f [Finding<'_, A>],
) -> Option<FoundService<'f>>
    ensures { option_map spec.found_service_view result ≡ spec.service number (map finding_view findings.now) }
{
    let mut last = None;
    for finding in findings {
        if !is_on(SDT_PID, finding) {
            continue;
        }
        last = service_found(number, finding).or(last);
    }
    last
}
