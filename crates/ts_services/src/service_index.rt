//! The last description of each service among findings, found in one pass.

ghost use Rattle.std.specs.Prelude.{◌≡◌, IfOk, OnOk, map, nat_eq, option_map};
ghost use Rattle.std.specs.Map.{lookup};
ghost use Rattle.pid_findings.specs.Shown.{finding_view};
ghost use Rattle.dvb_tables.specs.ServiceDescription.{sdt_view};
ghost use Rattle.dvb_tables.specs.Services.{service_view, services_of};
ghost use Rattle.ts_services.specs.ServicePlaces as spec;
ghost use Rattle.ts_services.specs.Services.{found_service_view, service};

use crate::service_description::sdt_found;
use crate::services::{FoundService, service_by, service_found};
use dvb_tables::{Sdt, Service, Services};
use indexmap::IndexMap;
use pid_findings::Finding;
use std::alloc::{AllocError, Allocator, Global};
use std::hash::{BuildHasherDefault, FoldHasher};
use std::marker::Model;

/// By service_id: a place among findings.
type Places<A> = IndexMap<u16, usize, BuildHasherDefault<FoldHasher>, A>;

/// The last description of each service among findings.
#[derive(Drop)]
pub struct FoundServices<'f, 'p, A: Allocator = Global> {
    findings: &'f [Finding<'p, A>],
    /// The places of the last findings whose service description sections describe a service.
    places: Places<A>,
}

// A contract sees the findings.
impl<'f, 'p, A: Allocator> Model for FoundServices<'f, 'p, A> {
    ghost use Rattle.std.specs.Prelude.{◌≡◌, List, map};
    ghost use Rattle.pid_findings.specs.Shown.{finding_view};
    ghost use Rattle.pid_findings.specs.Views.{FindingView};
    ghost use Rattle.ts_services.specs.ServicePlaces.{services_in};

    ghost Value = { List FindingView };

    ghost view = { λ s. map finding_view s.findings.now };

    ghost invariant = { λ s. s.places.entries ≡ services_in (map finding_view s.findings.now) };
}

// Notes the place of a finding, if an entry of its table describes a service.
#[tactic(auto, unfolding(crate::specs::ServicePlaces::with_said))]
fn note_entry<A: Allocator + Copy>(
    places: &mut Places<A>,
    at: usize,
    entry: Service<'_>,
) -> Result<(), AllocError>
    ensures { OnOk result (places.new.entries ≡ spec.with_entry places.old.entries at (service_view entry.entry)) }
{
    if service_by(entry).is_some() {
        places.insert(entry.service_id, at)?;
    }
    Ok(())
}

// Notes the place of a finding for each entry of its table.
#[tactic(auto, unfolding(crate::specs::ServicePlaces::with_entries))]
fn note_entries<A: Allocator + Copy>(
    places: &mut Places<A>,
    at: usize,
    entries: Services<'_>,
) -> Result<(), AllocError>
    ensures { OnOk result (places.new.entries ≡ spec.with_entries places.old.entries at (services_of entries.entry)) }
{
    for entry in entries {
        note_entry(places, at, entry)?;
    }
    Ok(())
}

// Notes the place of a finding, if it has a table.
#[tactic(auto, unfolding(crate::specs::ServicePlaces::with_table))]
fn note_table<A: Allocator + Copy>(
    places: &mut Places<A>,
    at: usize,
    table: Option<Sdt<'_>>,
) -> Result<(), AllocError>
    ensures { OnOk result (places.new.entries
        ≡ spec.with_table places.old.entries at (option_map sdt_view table.entry)) }
{
    match table {
        None => Ok(()),
        Some(sdt) => note_entries(places, at, sdt.services),
    }
}

// Returns the places among findings.
fn places_in<A: Allocator + Copy>(
    alloc: A,
    findings: &[Finding<'_, A>],
) -> Result<Places<A>, AllocError>
    ensures { IfOk result (λ places. places.entries ≡ spec.services_in (map finding_view findings.now)) }
{
    let mut places = IndexMap::new(alloc);
    for (at, finding) in findings.iter().enumerate() {
        note_table(&mut places, at, sdt_found(finding))?;
    }
    Ok(places)
}

/// Returns the last description of each service among findings.
pub fn found_services<'f, 'p, A: Allocator + Copy>(
    alloc: A,
    findings: &'f [Finding<'p, A>],
) -> Result<FoundServices<'f, 'p, A>, AllocError>
    ensures { IfOk result (λ services. services ≡ map finding_view findings.now) }
{
    let places = places_in(alloc, findings)?;
    Ok(FoundServices { findings, places })
}

// Returns the place for a service.
fn place_of<A: Allocator>(places: &Places<A>, number: u16) -> Option<usize>
    ensures { result ≡ lookup (nat_eq number) places.now.entries }
{
    match places.get(&number) {
        None => None,
        Some(at) => Some(*at),
    }
}

// Returns what the finding at a place says of a service.
#[tactic(auto, unfolding(crate::specs::ServicePlaces::service_there))]
fn service_there<'f, A: Allocator>(
    number: u16,
    at: Option<usize>,
    findings: &'f [Finding<'_, A>],
) -> Option<FoundService<'f>>
    ensures { option_map found_service_view result ≡ spec.service_there number at (map finding_view findings.now) }
{
    match findings.get(at?) {
        None => None,
        Some(finding) => service_found(number, finding),
    }
}

impl<'f, A: Allocator> FoundServices<'f, '_, A> {
    /// Returns what the service descriptor of a program says, in the last service description section in force that has
    /// one.
    pub fn of(&self, number: u16) -> Option<FoundService<'f>>
        ensures { option_map found_service_view result ≡ service number self.now }
    {
        service_there(number, place_of(&self.places, number), self.findings)
    }
}
