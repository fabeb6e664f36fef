//! The network of a job: the given network, or the stream's network.

ghost use Rattle.std.specs.Prelude.{◌≡◌, ◌++◌, IfOk, OnOk, Some, map, option_map, option_to_list, string_bytes};
ghost use Rattle.pid_findings.specs.Shown.{finding_view};
ghost use Rattle.job_text.specs.Texts.{network_if_any};
ghost use Rattle.ts_services.specs.NetworkInformation.{found_network_view};
ghost use Rattle.given_values.specs.GivenNames.{network_name_view};
ghost use Rattle.job_programs.specs.GivenLoops.{is_loop};
ghost use Rattle.job_programs.specs.Information as spec;
ghost use Rattle.job_programs.specs.OtherStreams.{network_surplus, others_of};
ghost use Rattle.job_programs.specs.Warnings as spec_warnings;

use crate::given_loops::{given_network, is_loop_of, kept_loop};
use crate::given_names::original_given;
use crate::named_service::copied;
use crate::other_streams::{network_surplus, other_streams};
use crate::warning::{PacketWarning, Warning};
use dvb_texts::decode_text;
use given_values::NetworkName;
use job_text::{NetworkPart, NetworkStreamPart};
use pid_findings::Finding;
use std::alloc::{AllocError, Global};
use std::marker::Model;
use ts_services::{FoundNetwork, original_network, stream_network};

/// The most bytes of a network's name, as written in a descriptor.
const LONGEST_NAME: usize = 200;

/// The most bytes of a network's descriptors.
const MOST_BYTES: usize = 700;

// Returns original_network_id of the network found.
fn original_found(network: Option<FoundNetwork<'_>>) -> Option<u16>
    ensures { result ≡ option_map (λ n. n.original) (option_map found_network_view network.entry) }
{
    match network {
        Some(network) => Some(network.original),
        None => None,
    }
}

/// Returns original_network_id, from the option or else from the stream.
#[tactic(auto, unfolding(crate::specs::Information::original_of))]
pub(crate) fn original_of(
    given: Option<NetworkName<'_>>,
    transport_stream_id: u16,
    findings: &[Finding<'_>],
) -> Option<u16>
    ensures { result ≡ spec.original_of (option_map network_name_view given.entry) transport_stream_id
        (map finding_view findings.now) }
{
    let found = original_found(stream_network(transport_stream_id, findings));
    original_given(given)
        .or(original_network(findings))
        .or(found)
}

/// The network of a description, its name as characters, and all of its descriptors if this name does not give exactly
/// these.
#[derive(Drop)]
pub struct JobNetwork {
    pub id: u16,
    pub name: String,
    pub network_descriptors: Option<Vec<u8>>,
    /// The descriptors of this transport stream.
    pub descriptors: Vec<u8>,
    /// The other transport streams.
    pub streams: Vec<NetworkStreamPart>,
}

// A contract sees its name and its descriptors as lists.
impl Model for JobNetwork {
    ghost use Rattle.std.specs.Prelude.{option_map, string_bytes};
    ghost use Rattle.job_text.specs.DescriptionParts.{NetworkPartView};

    ghost Value = { NetworkPartView };

    ghost view = { λ n. record {
      id = n.id;
      name = string_bytes n.name;
      network_descriptors = option_map (λ b. b.items) n.network_descriptors;
      descriptors = n.descriptors.items;
      streams = n.streams.items;
    } };
}

impl JobNetwork {
    /// Returns whether a description has these descriptors of the network.
    pub fn has_loop(&self, descriptors: &[u8]) -> bool
        ensures { result ≡ is_loop descriptors.now (spec.network_loop self.now) }
    {
        is_loop_of(
            descriptors,
            &self.network_descriptors,
            &given_network(&self.name),
        )
    }
}

// Returns the network that is given.
#[tactic(auto, unfolding(crate::specs::Information::network_of))]
fn network_of(alloc: Global, network: NetworkName<'_>) -> Result<JobNetwork, AllocError>
    ensures { IfOk result (λ n. n ≡ spec.network_of (network_name_view network.entry)) }
{
    Ok(JobNetwork {
        id: network.id,
        name: copied(alloc, network.name)?,
        network_descriptors: None,
        descriptors: Vec::new(alloc),
        streams: Vec::new(alloc),
    })
}

// Returns the network that is found, with its other transport streams.
#[tactic(auto, unfolding(crate::specs::Information::network_with))]
fn network_found(
    alloc: Global,
    streams: Vec<NetworkStreamPart>,
    network: FoundNetwork<'_>,
) -> Result<JobNetwork, AllocError>
    ensures { IfOk result (λ n. n ≡ spec.network_found streams.items (found_network_view network.entry)) }
{
    let name = decode_text(alloc, network.name, LONGEST_NAME)?;
    let given = given_network(&name);
    let network_descriptors = kept_loop(alloc, MOST_BYTES, &given, network.network_descriptors)?;
    let mut descriptors = Vec::new(alloc);
    descriptors.extend_from_slice(network.descriptors)?;
    Ok(JobNetwork {
        id: network.id,
        name,
        network_descriptors,
        descriptors,
        streams,
    })
}

// Returns the network that is found, if there is one.
fn network_if_found(
    alloc: Global,
    streams: Vec<NetworkStreamPart>,
    found: Option<FoundNetwork<'_>>,
) -> Result<Option<JobNetwork>, AllocError>
    ensures { IfOk result (λ n. n ≡ option_map (spec.network_found streams.items)
        (option_map found_network_view found.entry)) }
{
    match found {
        Some(network) => Ok(Some(network_found(alloc, streams, network)?)),
        None => Ok(None),
    }
}

/// Returns the network, if one is given or the stream has one.
#[tactic(auto, unfolding(crate::specs::Information::network_or))]
pub(crate) fn network_or(
    alloc: Global,
    given: Option<NetworkName<'_>>,
    transport_stream_id: u16,
    found: Option<FoundNetwork<'_>>,
    findings: &[Finding<'_>],
) -> Result<Option<JobNetwork>, AllocError>
    ensures { IfOk result (λ n. n ≡ spec.network_or (option_map network_name_view given.entry)
        (option_map found_network_view found.entry)
        (others_of transport_stream_id (option_map found_network_view found.entry) (map finding_view findings.now))) }
{
    match given {
        Some(network) => Ok(Some(network_of(alloc, network)?)),
        None => {
            let streams = other_streams(alloc, transport_stream_id, found, findings)?;
            network_if_found(alloc, streams, found)
        }
    }
}

/// Appends the lines of the network, if there is one.
pub fn write_network(network: &Option<JobNetwork>, text: &mut String) -> Result<(), AllocError>
    ensures { OnOk result (string_bytes text.new ≡ string_bytes text.old ++ network_if_any network.now) }
{
    let Some(network) = network else {
        return Ok(());
    };
    let entry = NetworkPart {
        id: network.id,
        name: &network.name,
        network_descriptors: network.network_descriptors.as_deref(),
        descriptors: &network.descriptors,
        streams: &network.streams,
    };
    entry.write_text(text)
}

// Appends the warning about network information sections that are not carried.
fn push_surplus(
    alloc: Global,
    transport_stream_id: u16,
    findings: &[Finding<'_>],
    warnings: &mut Vec<Warning>,
) -> Result<(), AllocError>
    ensures { OnOk result (warnings.new.items ≡ warnings.old.items ++ map spec_warnings.surplus_warning
        (option_to_list (network_surplus transport_stream_id (map finding_view findings.now)))) }
{
    let surplus = network_surplus(alloc, transport_stream_id, findings)?;
    if let Some(packet) = surplus {
        warnings.push(Warning::Packet {
            packet,
            what: PacketWarning::NetworkSurplus,
        })?;
    }
    Ok(())
}

/// Appends the warnings about the network of the stream, if no other is given.
#[tactic(auto, unfolding(crate::specs::Warnings::network_warnings))]
pub fn push_network_warnings(
    alloc: Global,
    given: Option<NetworkName<'_>>,
    transport_stream_id: u16,
    findings: &[Finding<'_>],
    warnings: &mut Vec<Warning>,
) -> Result<(), AllocError>
    ensures { OnOk result (warnings.new.items ≡ warnings.old.items
        ++ spec_warnings.network_warnings (option_map network_name_view given.entry) transport_stream_id
        (map finding_view findings.now)) }
{
    if given.is_some() {
        return Ok(());
    }
    push_surplus(alloc, transport_stream_id, findings, warnings)
}
