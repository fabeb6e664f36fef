//! The network of a document, key by key.

ghost use Rattle.std.specs.Prelude.{◌≡◌, ◌≤◌, ◌+◌, ◌++◌, [], length, map, option_map, unwrap_or, IfOk};
ghost use Rattle.arrayvec.specs.ArrayVec.{array_vec_len};
ghost use Rattle.toml.specs.View.{view};
ghost use Rattle.description_keys.specs.NetworkKeys.{network_descriptors, own_descriptors};
ghost use Rattle.description_keys.specs.Refusals as refusals;
ghost use Rattle.description_parts.specs.Channels.{described_channels};
ghost use Rattle.description_parts.specs.Contents as spec;

use crate::channels::{append, push_channels};
use crate::network::{Network, NetworkDescriptors};
use crate::network_stream::{NetworkStream, NetworkStreams};
use arrayvec::ArrayVec;
use description_values::DescriptorLoop;
use description_values::arrays::elements;
use description_values::descriptors::descriptors_or_none;
use description_values::texts::{empty_text, text_at};
use description_values::values::number_at;
use dvb_tables::{Text, push_network_name};
use std::alloc::{AllocError, Global};
use toml::Value;

// Returns the declared descriptors of the network's transport stream, and the channels of its services.
fn network_descriptors(document: &Value, network: &Value) -> NetworkDescriptors
    ensures { result ≡ unwrap_or (network_descriptors (view network.now)) []
        ++ described_channels (refusals.programs_of (view document.now)) }
{
    let declared = descriptors_or_none(network, "descriptors").unwrap_or(DescriptorLoop::none());
    let mut bytes = ArrayVec::new();
    append(&mut bytes, declared.as_bytes());
    push_channels(&mut bytes, elements(document, "program"));
    NetworkDescriptors { bytes }
}

// Appends the descriptor of the network's name, if there is a name.
#[tactic(auto, unfolding(dvb_tables::specs::Descriptors::network_name_descriptor))]
fn push_name(out: &mut ArrayVec<u8, 966>, network: &Value)
    requires { array_vec_len out.old ≤ 700 }
    ensures value { out.new.items ≡ out.old.items ++ spec.name_descriptors (view network.now) }
    ensures most { length out.new.items ≤ length out.old.items + 202 }
{
    if network.get("name").is_some() {
        let name: Text<200> = text_at(network, "name").unwrap_or(empty_text());
        push_network_name(out, &name);
    }
}

// Returns the descriptors of the network itself: its name, and the declared ones.
fn own_descriptors(network: &Value) -> NetworkDescriptors
    ensures { result ≡ spec.name_descriptors (view network.now) ++ unwrap_or (own_descriptors (view network.now)) [] }
{
    let declared = descriptors_or_none(network, "network_descriptors").unwrap_or(
        DescriptorLoop::none(),
    );
    let mut bytes = ArrayVec::new();
    push_name(&mut bytes, network);
    append(&mut bytes, declared.as_bytes());
    NetworkDescriptors { bytes }
}

fn other_stream(stream: &Value) -> NetworkStream
    ensures { result ≡ spec.described_other (view stream.now) }
{
    NetworkStream {
        transport_stream_id: number_at(stream, "ts_id", 0, 65_535) as u16,
        original_network_id: number_at(stream, "original_network_id", 0, 65_535) as u16,
        descriptors: descriptors_or_none(stream, "descriptors").unwrap_or(DescriptorLoop::none()),
    }
}

fn few_streams(alloc: Global, parts: &[Value]) -> Result<NetworkStreams, AllocError>
    requires { length parts.now ≤ 64 }
    ensures { IfOk result (λ s. s ≡ map spec.described_other (map view parts.now)) }
{
    let mut streams = Vec::new(alloc);
    for part in parts {
        streams.push(other_stream(part))?;
    }
    Ok(NetworkStreams { streams })
}

// Returns the other transport streams of the network, if they are at most 64.
fn other_streams(alloc: Global, parts: &[Value]) -> Result<NetworkStreams, AllocError>
    ensures { IfOk result (λ s. s ≡ spec.described_others (map view parts.now)) }
{
    if parts.len() <= 64 {
        few_streams(alloc, parts)
    } else {
        few_streams(alloc, &[])
    }
}

fn network_of(alloc: Global, document: &Value, network: &Value) -> Result<Network, AllocError>
    ensures { IfOk result (λ n. n ≡ spec.described_network (view document.now) (view network.now)) }
{
    let streams = other_streams(alloc, elements(network, "stream"))?;
    Ok(Network {
        id: number_at(network, "id", 0, 65_535) as u16,
        network_descriptors: own_descriptors(network),
        descriptors: network_descriptors(document, network),
        streams,
    })
}

/// Returns the network of a document, if it has one.
pub(crate) fn network_in(alloc: Global, document: &Value) -> Result<Option<Network>, AllocError>
    ensures { IfOk result (λ o. o ≡ option_map (spec.described_network (view document.now)) (refusals.network_of (view document.now))) }
{
    match document.get("network") {
        None => Ok(None),
        Some(network) => Ok(Some(network_of(alloc, document, network)?)),
    }
}
