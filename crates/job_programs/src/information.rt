//! What the description of a job says of the transport stream as a whole.

ghost use Rattle.std.specs.Prelude.{◌≡◌, IfOk, map};
ghost use Rattle.pid_findings.specs.Shown.{finding_view};
ghost use Rattle.job_programs.specs.Information as spec;

use crate::job_events::{JobEvent, event_parts, job_events, start_of};
use crate::job_network::{JobNetwork, network_or, original_of};
use crate::job_options::JobOptions;
use crate::job_programs::JobProgram;
use crate::named_service::{NamedService, has_services, services_of};
use pid_findings::Finding;
use service_information::stream_time;
use std::alloc::{AllocError, Global};
use std::marker::Model;
use ts_services::{found_services, stream_network};

/// original_network_id if neither an option nor the stream gives it (ETSI TS 101 162: 0xFF00 to 0xFFFF are for private
/// use).
const PRIVATE_NETWORK: u16 = 0xff01;

/// What a description says of the transport stream as a whole.
#[derive(Drop)]
pub struct JobInformation {
    pub transport_stream_id: u16,
    pub original_network_id: u16,
    /// The moment of the first slot.
    pub start: String,
    /// Whether there is a time and date table.
    pub tdt: bool,
    /// Whether there is a service description table.
    pub sdt: bool,
    pub network: Option<JobNetwork>,
    pub events: Vec<JobEvent>,
    /// Of each program its service, in the order of the programs.
    pub services: Vec<NamedService>,
}

// A contract sees its parts as lists.
impl Model for JobInformation {
    ghost use Rattle.std.specs.Prelude.{string_bytes};
    ghost use Rattle.job_programs.specs.Information.{JobInformationView};

    ghost Value = { JobInformationView };

    ghost view = { λ i. record {
      transport_stream_id = i.transport_stream_id;
      original_network_id = i.original_network_id;
      start = string_bytes i.start;
      tdt = i.tdt;
      sdt = i.sdt;
      network = i.network;
      events = i.events.items;
      services = i.services.items;
    } };
}

/// Returns the information on a transport stream with this transport_stream_id and these programs.
#[tactic(auto, unfolding(crate::specs::Information::information_of))]
pub fn information_of(
    alloc: Global,
    options: &JobOptions<'_>,
    transport_stream_id: u16,
    findings: &[Finding<'_>],
    programs: &[JobProgram],
) -> Result<JobInformation, AllocError>
    ensures { IfOk result (λ i. i ≡ spec.information_of options.now transport_stream_id
        (map finding_view findings.now) programs.now) }
{
    let events = job_events(alloc, programs, findings)?;
    let start = start_of(alloc, options.start, &events, findings)?;
    let found = stream_network(transport_stream_id, findings);
    let original = original_of(options.network, transport_stream_id, findings);
    let services = found_services(alloc, findings)?;
    Ok(JobInformation {
        transport_stream_id,
        original_network_id: original.unwrap_or(PRIVATE_NETWORK),
        start,
        tdt: stream_time(findings).is_some(),
        sdt: has_services(options.names, &services, programs),
        network: network_or(alloc, options.network, transport_stream_id, found, findings)?,
        events: event_parts(alloc, &events)?,
        services: services_of(alloc, options.names, programs, &services)?,
    })
}
