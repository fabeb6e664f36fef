//! Whether a job needs the numbers of a whole transponder.

ghost use Rattle.std.specs.Prelude.{◌≡◌, ◌≤◌, ◌^◌, length, nat_le, sum_by};
ghost use Rattle.std.specs.List.{list_any};
ghost use Rattle.dvb_tables.specs.CharacterCoding.{text_bytes};
ghost use Rattle.stream_jobs.specs.Transponders as spec;

use dvb_tables::is_plain;
use job_inputs::JobInput;
use job_programs::{JobInformation, JobNetwork, NamedService, TimedStream};
use job_text::NetworkStreamPart;

/// The most programs, streams, events, private tables and further programs of a stream without the key `transponder`.
const MOST_PROGRAMS: usize = 16;

const MOST_STREAMS: usize = 32;

const MOST_EVENTS: usize = 256;

const MOST_TABLES: usize = 16;

const MOST_SHARERS: usize = 15;

/// The most bytes of services in one service description section.
const MOST_SERVICE_BYTES: u128 = 1_009;

/// The most bytes of a network and its transport streams in one network information section.
const MOST_NETWORK_BYTES: u128 = 1_008;

// Returns the number of bytes of a text in service information (EN 300 468, annex A).
#[tactic(auto, unfolding(dvb_tables::specs::CharacterCoding::text_bytes))]
fn text_size(text: &str) -> u128
    ensures value { result ≡ length (text_bytes text.now) }
    ensures bound { result ≤ 2 ^ 64 }
{
    let bytes = text.as_bytes();
    if is_plain(bytes) {
        bytes.len() as u128
    } else {
        bytes.len() as u128 + 1
    }
}

// Returns the number of bytes of the descriptors of a service.
#[tactic(auto, unfolding(crate::specs::Transponders::loop_size))]
fn loop_size(service: &NamedService) -> u128
    ensures value { result ≡ spec.loop_size service.now.descriptors service.now }
    ensures bound { result ≤ 2 ^ 66 }
{
    match &service.descriptors {
        None => 5 + (text_size(&service.provider) + text_size(&service.name)),
        Some(descriptors) => descriptors.len() as u128,
    }
}

// Returns the number of bytes of a service in a service description section.
fn service_size(service: &NamedService) -> u128
    ensures { result ≡ spec.service_size service.now }
{
    5 + loop_size(service)
}

// Returns whether these services take at most `room` bytes.
#[tactic(auto, using(crate::proofs::Transponders::rest_fits, crate::proofs::Transponders::first_is_over))]
fn fit(services: &[NamedService], room: u128) -> bool
    ensures { result ≡ nat_le (sum_by spec.service_size services.now) room }
{
    let mut rest = services;
    let mut left = room;
    'services: while let Some((service, later)) = rest.split_first() {
        let size = service_size(service);
        if size > left {
            return false;
        }
        left -= size;
        rest = later;
    }
    true
}

// Returns whether the services need more than one service description section.
#[tactic(auto, unfolding(crate::specs::Transponders::has_many_services))]
fn has_many_services(information: &JobInformation) -> bool
    ensures { result ≡ spec.has_many_services information.now }
{
    information.sdt && !fit(&information.services, MOST_SERVICE_BYTES)
}

// Returns the number of bytes of a transport stream in a network information section.
fn network_stream_size(stream: &NetworkStreamPart) -> u128
    ensures { result ≡ spec.network_stream_size stream.now }
{
    6 + stream.descriptors.len() as u128
}

// Returns whether these transport streams take at most `room` bytes.
#[tactic(auto, using(crate::proofs::Transponders::streams_rest_fits, crate::proofs::Transponders::first_stream_is_over))]
fn streams_fit(streams: &[NetworkStreamPart], room: u128) -> bool
    ensures { result ≡ nat_le (sum_by spec.network_stream_size streams.now) room }
{
    let mut rest = streams;
    let mut left = room;
    'streams: while let Some((stream, later)) = rest.split_first() {
        let size = network_stream_size(stream);
        if size > left {
            return false;
        }
        left -= size;
        rest = later;
    }
    true
}

// Returns the number of bytes of a network's own descriptors.
#[tactic(auto, unfolding(crate::specs::Transponders::network_loop_size))]
fn network_loop_size(network: &JobNetwork) -> u128
    ensures value { result ≡ spec.network_loop_size network.now.network_descriptors network.now }
    ensures bound { result ≤ 2 ^ 65 }
{
    match &network.network_descriptors {
        None => 2 + text_size(&network.name),
        Some(descriptors) => descriptors.len() as u128,
    }
}

// Returns the number of bytes of a network before its other transport streams.
fn network_size(network: &JobNetwork) -> u128
    ensures { result ≡ spec.network_size network.now }
{
    network_loop_size(network) + (6 + network.descriptors.len() as u128)
}

// Returns whether the network needs more than one network information section.
#[tactic(auto, unfolding(crate::specs::Transponders::has_long_network))]
fn has_long_network(network: &Option<JobNetwork>) -> bool
    ensures { result ≡ spec.has_long_network network.now }
{
    let Some(network) = network else {
        return false;
    };
    let size = network_size(network);
    !(size <= MOST_NETWORK_BYTES && streams_fit(&network.streams, MOST_NETWORK_BYTES - size))
}

// Returns whether a stream is shared by more programs than a description names without the key.
#[tactic(auto, unfolding(crate::specs::Transponders::has_many_sharers))]
fn has_many_sharers(stream: &TimedStream) -> bool
    ensures { result ≡ spec.has_many_sharers stream.now }
{
    stream.shared_with.len() > MOST_SHARERS
}

fn any_has_many_sharers(streams: &[TimedStream]) -> bool
    ensures { result ≡ list_any spec.has_many_sharers streams.now }
{
    streams.iter().any(|stream| has_many_sharers(stream))
}

/// Returns whether a job needs the key `transponder`.
#[tactic(auto, unfolding(crate::specs::Transponders::is_transponder))]
pub(crate) fn is_transponder(input: &JobInput) -> bool
    ensures { result ≡ spec.is_transponder input.now }
{
    input.programs.len() > MOST_PROGRAMS
        || input.streams.len() > MOST_STREAMS
        || input.information.events.len() > MOST_EVENTS
        || input.tables.len() > MOST_TABLES
        || any_has_many_sharers(&input.streams)
        || has_many_services(&input.information)
        || has_long_network(&input.information.network)
}
