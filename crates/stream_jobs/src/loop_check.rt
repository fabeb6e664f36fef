//! Whether a description has the services, and the descriptors of services, events and the network, that an input has.

ghost use Rattle.std.specs.Prelude.{◌≡◌, IsTrue, option_map};
ghost use Rattle.description_parts.specs.Described.{network_stream_view};
ghost use Rattle.job_programs.specs.OtherStreams.{is_same_stream};
ghost use Rattle.stream_jobs.specs.CarriedLoops.{HasLoops};
ghost use Rattle.stream_jobs.specs.CarriedLoops as spec;

use description::Description;
use description_parts::{EventDescription, Network, NetworkStream, ProgramDescription};
use job_programs::{JobEvent, JobInformation, JobNetwork, NamedService};
use job_text::NetworkStreamPart;

// Returns whether a service has the declared status and descriptors.
#[tactic(auto, unfolding(crate::specs::CarriedLoops::is_service))]
fn is_service(declared: &ProgramDescription, service: &NamedService) -> bool
    ensures { result ≡ spec.is_service declared.now service.now }
{
    declared.running_status().code() == service.running_status.code()
        && service.has_loop(declared.service_descriptors())
}

// Returns whether the services of programs are the declared ones.
#[tactic(auto, unfolding(crate::specs::CarriedLoops::are_services))]
fn are_services(declared: &[ProgramDescription], services: &[NamedService]) -> bool
    ensures { result ≡ spec.are_services declared.now services.now }
{
    let mut ones = declared;
    let mut rest = services;
    'services: while let Some((one, later_ones)) = ones.split_first() {
        let Some((service, later)) = rest.split_first() else {
            return true;
        };
        if !is_service(one, service) {
            return false;
        }
        ones = later_ones;
        rest = later;
    }
    true
}

// Returns whether an event is the declared one, with its descriptors.
#[tactic(auto, unfolding(crate::specs::CarriedLoops::is_event))]
fn is_event(declared: &EventDescription, event: &JobEvent) -> bool
    ensures { result ≡ spec.is_event declared.now event.now }
{
    declared.id() == event.id
        && (declared.duration() == event.duration && event.has_loop(declared.descriptors()))
}

// Returns the declared events after this one, if it is the first of them.
#[tactic(auto, unfolding(crate::specs::CarriedLoops::past_event))]
fn past_event<'a>(
    declared: &'a [EventDescription],
    event: &JobEvent,
) -> Option<&'a [EventDescription]>
    ensures { option_map (λ d. d.now) result ≡ spec.past_event declared.now event.now }
{
    match declared.split_first() {
        None => None,
        Some((one, later)) => {
            if is_event(one, event) {
                Some(later)
            } else {
                None
            }
        }
    }
}

// Returns the same for an event of the program of this number, and all declared events for any other event.
#[tactic(auto, unfolding(crate::specs::CarriedLoops::after_event))]
fn after_event<'a>(
    number: u16,
    declared: &'a [EventDescription],
    event: &JobEvent,
) -> Option<&'a [EventDescription]>
    ensures { option_map (λ d. d.now) result ≡ spec.after_event number declared.now event.now }
{
    if event.program == number {
        past_event(declared, event)
    } else {
        Some(declared)
    }
}

// Returns whether the events of the program of a number are the declared ones.
#[tactic(auto, unfolding(crate::specs::CarriedLoops::are_from))]
fn are_events(number: u16, declared: &[EventDescription], events: &[JobEvent]) -> bool
    ensures { result ≡ spec.are_events number declared.now events.now }
{
    let mut ones = declared;
    let mut rest = events;
    'events: while let Some((event, later)) = rest.split_first() {
        let Some(later_ones) = after_event(number, ones, event) else {
            return false;
        };
        ones = later_ones;
        rest = later;
    }
    ones.is_empty()
}

// Returns whether each program has the declared events.
#[tactic(auto, unfolding(crate::specs::CarriedLoops::have_events))]
fn have_events(declared: &[ProgramDescription], events: &[JobEvent]) -> bool
    ensures { result ≡ spec.have_events declared.now events.now }
{
    let mut ones = declared;
    'programs: while let Some((one, later)) = ones.split_first() {
        if !are_events(one.number(), one.events(), events) {
            return false;
        }
        ones = later;
    }
    true
}

// Returns whether a transport stream has the declared ids and descriptors.
fn is_stream(declared: &NetworkStream, stream: &NetworkStreamPart) -> bool
    ensures { result ≡ is_same_stream (network_stream_view declared.now) stream.now }
{
    (stream.transport_stream_id == declared.transport_stream_id
        && stream.original_network_id == declared.original_network_id)
        && declared.descriptors.as_bytes() == stream.descriptors.as_slice()
}

// Returns whether the other transport streams of a network are the declared ones.
#[tactic(auto, unfolding(crate::specs::CarriedLoops::are_streams))]
fn are_streams(declared: &[NetworkStream], streams: &[NetworkStreamPart]) -> bool
    ensures { result ≡ spec.are_streams declared.now streams.now }
{
    let mut ones = declared;
    let mut rest = streams;
    'streams: while let Some((one, later_ones)) = ones.split_first() {
        let Some((stream, later)) = rest.split_first() else {
            return false;
        };
        if !is_stream(one, stream) {
            return false;
        }
        ones = later_ones;
        rest = later;
    }
    rest.is_empty()
}

// Returns whether a network, and this transport stream in it, have the declared descriptors.
fn has_network_loops(declared: &Network, network: &JobNetwork) -> bool
    ensures { result ≡ spec.has_network_loops declared.now network.now }
{
    network.has_loop(declared.network_descriptors.as_bytes())
        && declared.descriptors.as_bytes() == network.descriptors.as_slice()
}

// Returns whether a network has the declared descriptors and other transport streams.
fn is_same_network(declared: &Network, network: &JobNetwork) -> bool
    ensures { result ≡ spec.is_same_network declared.now network.now }
{
    declared.id == network.id
        && (has_network_loops(declared, network)
            && are_streams(declared.streams.as_slice(), &network.streams))
}

// Returns whether there is the declared network, or no network and no declared one.
#[tactic(auto, unfolding(crate::specs::CarriedLoops::is_network))]
fn is_network(declared: Option<&Network>, network: &Option<JobNetwork>) -> bool
    ensures { result ≡ spec.is_network (option_map (λ d. d.now) declared.entry) network.now }
{
    match (declared, network) {
        (None, None) => true,
        (Some(one), Some(network)) => is_same_network(one, network),
        _ => false,
    }
}

// Returns whether a description has the descriptors that an input has.
#[tactic(auto, unfolding(crate::specs::CarriedLoops::has_loops))]
fn has_all(description: &Description, information: &JobInformation) -> bool
    ensures { result ≡ spec.has_loops description.now information.now }
{
    are_services(description.programs(), &information.services)
        && (have_events(description.programs(), &information.events)
            && is_network(description.network(), &information.network))
}

/// Returns whether a description has the status of services, and the descriptors of services, events and the network,
/// that an input has.
#[tactic(auto, using(crate::proofs::LoopAgreement::loops_are))]
pub(crate) fn has_loops(description: &Description, information: &JobInformation) -> bool
    ensures value { result ≡ spec.has_loops description.now information.now }
    ensures loops { IsTrue result → HasLoops description.now information.now }
{
    has_all(description, information)
}
