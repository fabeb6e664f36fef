//! The network of a stream, in its network information table (EN 300 468, 5.2.1 and 6.2.27).

ghost use Rattle.std.specs.Prelude.{◌≡◌, map, option_map};
ghost use Rattle.psi_tables.specs.Views.{section_view};
ghost use Rattle.pid_findings.specs.Shown.{finding_view, what_view};
ghost use Rattle.dvb_tables.specs.NetworkInformation.{nit_at, nit_view};
ghost use Rattle.dvb_tables.specs.TransportStreams.{transport_stream_view, transport_streams_of};
ghost use Rattle.descriptor_loops.specs.Descriptors.{descriptors_in};
ghost use Rattle.ts_services.specs.NetworkInformation as spec;

use crate::networks::original_network;
use descriptor_loops::Descriptors;
use dvb_tables::{NIT_TABLE_ID, Nit, TransportStream, TransportStreams, are_whole_descriptors};
use pid_findings::{Finding, What};
use program_tables::section_on;
use psi_tables::Section;
use std::alloc::Allocator;

// The PID of network information sections.
const NIT_PID: u16 = 0x10;

// The tag of a network name descriptor.
const NETWORK_NAME: u8 = 0x40;

// The most bytes of descriptors that a description has of a network, or of a transport stream in it.
const MOST_BYTES: usize = 700;

/// What a network information section says of a transport stream. The name is still coded (EN 300 468, annex A).
#[derive(Clone, Copy)]
pub struct FoundNetwork<'f> {
    /// network_id.
    pub id: u16,
    /// original_network_id of the transport stream.
    pub original: u16,
    pub name: &'f [u8],
    /// All descriptors of the network.
    pub network_descriptors: &'f [u8],
    /// Whole descriptors of the transport stream, 700 bytes at most.
    pub descriptors: &'f [u8],
}

/// A transport stream: its transport_stream_id, and the original_network_id of its services, if they are described.
#[derive(Clone, Copy)]
pub(crate) struct KnownStream {
    pub transport_stream_id: u16,
    pub original_network_id: Option<u16>,
}

// Returns a table that is in force now.
#[tactic(auto, unfolding(crate::specs::NetworkInformation::nit_of_section, crate::specs::NetworkInformation::nit_in_force))]
fn nit_of_section<'f>(section: &Section<'f>) -> Option<Nit<'f>>
    ensures { option_map nit_view result ≡ spec.nit_in_force (nit_at (section_view section.now)) }
{
    match Nit::read(section) {
        Err(_) => None,
        Ok(nit) => {
            if nit.header.current_next {
                Some(nit)
            } else {
                None
            }
        }
    }
}

#[tactic(auto, unfolding(crate::specs::NetworkInformation::nit_in, crate::specs::NetworkInformation::nit_of_section))]
fn nit_in(bytes: &[u8]) -> Option<Nit<'_>>
    ensures { option_map nit_view result ≡ spec.nit_in bytes.now }
{
    match Section::read(bytes) {
        Err(_) => None,
        Ok((section, _)) => nit_of_section(&section),
    }
}

/// Returns the network information table that a finding has, if it is in force.
#[tactic(auto, unfolding(crate::specs::NetworkInformation::nit_found))]
pub fn nit_found<'f, A: Allocator>(finding: &'f Finding<'_, A>) -> Option<Nit<'f>>
    ensures { option_map nit_view result ≡ spec.nit_found (finding_view finding.now) }
{
    match section_on(NIT_PID, finding) {
        None => None,
        Some(bytes) => nit_in(bytes),
    }
}

// Returns what the first network name descriptor says.
#[tactic(auto, unfolding(crate::specs::NetworkInformation::coded_name, descriptor_loops::specs::Descriptors::is_tagged))]
fn coded_name(bytes: &[u8]) -> &[u8]
    ensures { result.now ≡ spec.coded_name (descriptors_in bytes.now) }
{
    for descriptor in Descriptors::of(bytes) {
        if descriptor.tag == NETWORK_NAME {
            return descriptor.body;
        }
    }
    &[]
}

// Returns whether an original_network_id is the known one, if one is known.
#[tactic(auto, unfolding(crate::specs::NetworkInformation::is_original))]
fn is_original(known: Option<u16>, id: u16) -> bool
    ensures { result ≡ spec.is_original known id }
{
    match known {
        None => true,
        Some(known) => known == id,
    }
}

// Returns whether an entry describes this transport stream.
#[tactic(auto, unfolding(crate::specs::NetworkInformation::is_entry))]
fn is_entry(stream: KnownStream, entry: &TransportStream<'_>) -> bool
    ensures { result ≡ spec.is_entry stream (transport_stream_view entry.now) }
{
    entry.transport_stream_id == stream.transport_stream_id
        && is_original(stream.original_network_id, entry.original_network_id)
}

// Returns the entry of a transport stream.
#[tactic(auto, unfolding(crate::specs::NetworkInformation::entry_of))]
fn entry_of<'f>(stream: KnownStream, entries: TransportStreams<'f>) -> Option<TransportStream<'f>>
    ensures { option_map transport_stream_view result
        ≡ spec.entry_of stream (transport_streams_of entries.entry) }
{
    for entry in entries {
        if is_entry(stream, &entry) {
            return Some(entry);
        }
    }
    None
}

// Returns whether a description can have these descriptors.
#[tactic(auto, unfolding(crate::specs::NetworkInformation::can_be_said))]
fn can_be_said(descriptors: &[u8]) -> bool
    ensures { result ≡ spec.can_be_said descriptors.now }
{
    descriptors.len() <= MOST_BYTES && are_whole_descriptors(descriptors)
}

// Returns the network in a table, and its descriptors for a transport stream; `None` if a description can't have them.
#[tactic(auto, unfolding(crate::specs::NetworkInformation::network_with))]
fn network_with<'f>(nit: Nit<'f>, entry: TransportStream<'f>) -> Option<FoundNetwork<'f>>
    ensures { option_map spec.found_network_view result
        ≡ spec.network_with (nit_view nit.entry) (transport_stream_view entry.entry) }
{
    if !can_be_said(entry.descriptors) {
        return None;
    }
    Some(FoundNetwork {
        id: nit.header.table_id_extension,
        original: entry.original_network_id,
        name: coded_name(nit.network_descriptors),
        network_descriptors: nit.network_descriptors,
        descriptors: entry.descriptors,
    })
}

// Returns what a table says of a transport stream.
#[tactic(auto, unfolding(crate::specs::NetworkInformation::network_in))]
fn network_in<'f>(stream: KnownStream, nit: Nit<'f>) -> Option<FoundNetwork<'f>>
    ensures { option_map spec.found_network_view result ≡ spec.network_in stream (nit_view nit.entry) }
{
    match entry_of(stream, nit.transport_streams) {
        None => None,
        Some(entry) => network_with(nit, entry),
    }
}

// Returns what the table of a finding says of a transport stream.
#[tactic(auto, unfolding(crate::specs::NetworkInformation::network_said))]
fn network_said<'f, A: Allocator>(
    stream: KnownStream,
    finding: &'f Finding<'_, A>,
) -> Option<FoundNetwork<'f>>
    ensures { option_map spec.found_network_view result ≡ spec.network_said stream (finding_view finding.now) }
{
    match nit_found(finding) {
        None => None,
        Some(nit) => network_in(stream, nit),
    }
}

// Returns what the first table says of a transport stream.
fn first_network<'f, A: Allocator>(
    stream: KnownStream,
    findings: &'f [Finding<'_, A>],
) -> Option<FoundNetwork<'f>>
    ensures { option_map spec.found_network_view result
        ≡ spec.first_network stream (map finding_view findings.now) }
{
    for finding in findings {
        if let Some(network) = network_said(stream, finding) {
            return Some(network);
        }
    }
    None
}

// Returns the transport stream of these findings.
#[tactic(auto, unfolding(crate::specs::NetworkInformation::known_stream))]
fn known_stream<A: Allocator>(transport_stream_id: u16, findings: &[Finding<'_, A>]) -> KnownStream
    ensures { result ≡ spec.known_stream transport_stream_id (map finding_view findings.now) }
{
    KnownStream {
        transport_stream_id,
        original_network_id: original_network(findings),
    }
}

/// Returns what the first network information section in force says that has this transport stream, with descriptors
/// that a description can have.
#[tactic(auto, unfolding(crate::specs::NetworkInformation::stream_network))]
pub fn stream_network<'f, A: Allocator>(
    transport_stream_id: u16,
    findings: &'f [Finding<'_, A>],
) -> Option<FoundNetwork<'f>>
    ensures { option_map spec.found_network_view result
        ≡ spec.stream_network transport_stream_id (map finding_view findings.now) }
{
    first_network(known_stream(transport_stream_id, findings), findings)
}

/// Returns whether a finding is a section with the table_id of a network information section of the actual network.
#[tactic(auto, unfolding(crate::specs::NetworkInformation::is_network_section))]
pub fn is_network_section<A: Allocator>(what: &What<'_, A>) -> bool
    ensures { result ≡ spec.is_network_section (what_view what.now) }
{
    match what {
        What::Section(part) => match part.bytes() {
            [table_id, ..] => *table_id == NIT_TABLE_ID,
            [] => false,
        },
        _ => false,
    }
}
