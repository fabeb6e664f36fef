//! The other transport streams of a stream's network, in its network information tables (EN 300 468, 5.2.1).

ghost use Rattle.std.specs.Prelude.{◌≡◌, IfOk, OnOk, [], map, option_map};
ghost use Rattle.std.specs.List.{list_all, list_any};
ghost use Rattle.pid_findings.specs.Shown.{finding_view};
ghost use Rattle.dvb_tables.specs.NetworkInformation.{nit_view};
ghost use Rattle.dvb_tables.specs.TransportStreams.{transport_stream_view, transport_streams_of};
ghost use Rattle.ts_services.specs.NetworkInformation.{found_network_view};
ghost use Rattle.job_programs.specs.OtherStreams as spec;

use crate::given_loops::can_be_kept;
use dvb_tables::{Nit, TransportStream, TransportStreams};
use job_text::NetworkStreamPart;
use pid_findings::Finding;
use std::alloc::{AllocError, Global};
use ts_services::{FoundNetwork, is_network_section, nit_found, stream_network};

/// The most transport streams that a description has beside its own, and the most bytes of descriptors of each.
const MOST_STREAMS: usize = 64;

const MOST_BYTES: usize = 700;

// Returns whether a transport stream has these ids.
fn has_ids(id: u16, original: u16, entry: &TransportStream<'_>) -> bool
    ensures { result ≡ spec.has_ids id original (transport_stream_view entry.now) }
{
    entry.transport_stream_id == id && entry.original_network_id == original
}

// Returns whether a transport stream of these ids is taken already.
#[tactic(auto, unfolding(crate::specs::OtherStreams::is_listed))]
fn is_listed(taken: &[NetworkStreamPart], entry: &TransportStream<'_>) -> bool
    ensures { result ≡ spec.is_listed taken.now (transport_stream_view entry.now) }
{
    let id = entry.transport_stream_id;
    let original = entry.original_network_id;
    taken.iter().any(|one| one.transport_stream_id == id && one.original_network_id == original)
}

// Returns whether a transport stream is to be taken.
#[tactic(auto, unfolding(crate::specs::OtherStreams::can_be_taken))]
fn can_be_taken(
    id: u16,
    original: u16,
    taken: &[NetworkStreamPart],
    entry: &TransportStream<'_>,
) -> bool
    ensures { result ≡ spec.can_be_taken id original taken.now (transport_stream_view entry.now) }
{
    !has_ids(id, original, entry)
        && (!is_listed(taken, entry)
            && (can_be_kept(MOST_BYTES, entry.descriptors) && taken.len() < MOST_STREAMS))
}

// Returns a copy of a transport stream.
fn copy_of(alloc: Global, entry: &TransportStream<'_>) -> Result<NetworkStreamPart, AllocError>
    ensures { IfOk result (λ part. part ≡ transport_stream_view entry.now) }
{
    let mut descriptors = Vec::new(alloc);
    descriptors.extend_from_slice(entry.descriptors)?;
    Ok(NetworkStreamPart {
        transport_stream_id: entry.transport_stream_id,
        original_network_id: entry.original_network_id,
        descriptors,
    })
}

// Takes a transport stream, if it is to be taken.
#[tactic(auto, unfolding(crate::specs::OtherStreams::with_stream))]
fn take_stream(
    alloc: Global,
    id: u16,
    original: u16,
    entry: &TransportStream<'_>,
    taken: &mut Vec<NetworkStreamPart>,
) -> Result<(), AllocError>
    ensures { OnOk result (taken.new.items
        ≡ spec.with_stream id original taken.old.items (transport_stream_view entry.now)) }
{
    if !can_be_taken(id, original, taken, entry) {
        return Ok(());
    }
    taken.push(copy_of(alloc, entry)?)?;
    Ok(())
}

// Takes the transport streams of a section.
#[tactic(auto, unfolding(crate::specs::OtherStreams::with_streams))]
fn take_streams(
    alloc: Global,
    id: u16,
    original: u16,
    entries: TransportStreams<'_>,
    taken: &mut Vec<NetworkStreamPart>,
) -> Result<(), AllocError>
    ensures { OnOk result (taken.new.items
        ≡ spec.with_streams id original taken.old.items (transport_streams_of entries.entry)) }
{
    for entry in entries {
        take_stream(alloc, id, original, &entry, taken)?;
    }
    Ok(())
}

// Takes the transport streams of a section, if it is of this network.
#[tactic(auto, unfolding(crate::specs::OtherStreams::with_table))]
fn take_table(
    alloc: Global,
    id: u16,
    network: FoundNetwork<'_>,
    nit: Option<Nit<'_>>,
    taken: &mut Vec<NetworkStreamPart>,
) -> Result<(), AllocError>
    ensures { OnOk result (taken.new.items ≡ spec.with_table id (found_network_view network.entry)
        taken.old.items (option_map nit_view nit.entry)) }
{
    match nit {
        None => Ok(()),
        Some(nit) => {
            if nit.header.table_id_extension == network.id {
                take_streams(alloc, id, network.original, nit.transport_streams, taken)
            } else {
                Ok(())
            }
        }
    }
}

// Returns the other transport streams of a network.
fn streams_beside(
    alloc: Global,
    id: u16,
    network: FoundNetwork<'_>,
    findings: &[Finding<'_>],
) -> Result<Vec<NetworkStreamPart>, AllocError>
    ensures { IfOk result (λ others. others.items ≡ spec.with_findings id (found_network_view network.entry) []
        (map finding_view findings.now)) }
{
    let mut taken = Vec::new(alloc);
    for finding in findings {
        take_table(alloc, id, network, nit_found(finding), &mut taken)?;
    }
    Ok(taken)
}

/// Returns the other transport streams of the stream's network: those that the sections in force of this network list,
/// in their order, each as it is listed first, at most 64; each with whole descriptors of at most 700 bytes.
#[tactic(auto, unfolding(crate::specs::OtherStreams::others_of))]
pub(crate) fn other_streams(
    alloc: Global,
    id: u16,
    network: Option<FoundNetwork<'_>>,
    findings: &[Finding<'_>],
) -> Result<Vec<NetworkStreamPart>, AllocError>
    ensures { IfOk result (λ others. others.items
        ≡ spec.others_of id (option_map found_network_view network.entry) (map finding_view findings.now)) }
{
    match network {
        None => Ok(Vec::new(alloc)),
        Some(network) => streams_beside(alloc, id, network, findings),
    }
}

// Returns whether one of these transport streams has the ids and the descriptors of an entry.
fn has_same(others: &[NetworkStreamPart], entry: &TransportStream<'_>) -> bool
    ensures { result ≡ list_any (spec.is_same_stream (transport_stream_view entry.now)) others.now }
{
    let id = entry.transport_stream_id;
    let original = entry.original_network_id;
    let descriptors = entry.descriptors;
    others.iter().any(|one| {
        (one.transport_stream_id == id && one.original_network_id == original)
            && descriptors == one.descriptors.as_slice()
    })
}

// Returns whether a description has a transport stream as it is.
#[tactic(auto, unfolding(crate::specs::OtherStreams::is_carried))]
fn is_carried(
    id: u16,
    network: FoundNetwork<'_>,
    others: &[NetworkStreamPart],
    entry: &TransportStream<'_>,
) -> bool
    ensures { result ≡ spec.is_carried id (found_network_view network.entry) others.now
        (transport_stream_view entry.now) }
{
    if has_ids(id, network.original, entry) {
        entry.descriptors == network.descriptors
    } else {
        has_same(others, entry)
    }
}

fn are_carried(
    id: u16,
    network: FoundNetwork<'_>,
    others: &[NetworkStreamPart],
    entries: TransportStreams<'_>,
) -> bool
    ensures { result ≡ list_all (spec.is_carried id (found_network_view network.entry) others.now)
        (transport_streams_of entries.entry) }
{
    for entry in entries {
        if !is_carried(id, network, others, &entry) {
            return false;
        }
    }
    true
}

// Returns whether a section has no descriptors of the network, or those that a description has.
#[tactic(auto, unfolding(crate::specs::OtherStreams::has_no_more))]
fn has_no_more(network: FoundNetwork<'_>, descriptors: &[u8]) -> bool
    ensures { result ≡ spec.has_no_more (found_network_view network.entry) descriptors.now }
{
    descriptors.is_empty()
        || (can_be_kept(MOST_BYTES, descriptors) && descriptors == network.network_descriptors)
}

// Returns whether a section has nothing that a description has not.
#[tactic(auto, unfolding(crate::specs::OtherStreams::says_no_more))]
fn says_no_more(
    id: u16,
    network: FoundNetwork<'_>,
    others: &[NetworkStreamPart],
    nit: Nit<'_>,
) -> bool
    ensures { result ≡ spec.says_no_more id (found_network_view network.entry) others.now (nit_view nit.entry) }
{
    nit.header.table_id_extension == network.id
        && (has_no_more(network, nit.network_descriptors)
            && are_carried(id, network, others, nit.transport_streams))
}

// Returns the same if there are both a network and a section.
#[tactic(auto, unfolding(crate::specs::OtherStreams::is_said))]
fn is_said(
    id: u16,
    network: Option<FoundNetwork<'_>>,
    others: &[NetworkStreamPart],
    nit: Option<Nit<'_>>,
) -> bool
    ensures { result ≡ spec.is_said id (option_map found_network_view network.entry) others.now
        (option_map nit_view nit.entry) }
{
    match (network, nit) {
        (Some(network), Some(nit)) => says_no_more(id, network, others, nit),
        _ => false,
    }
}

// Returns whether a finding is a network information section of an actual network with anything that a description has not.
#[tactic(auto, unfolding(crate::specs::OtherStreams::is_surplus))]
fn is_surplus(
    id: u16,
    network: Option<FoundNetwork<'_>>,
    others: &[NetworkStreamPart],
    finding: &Finding<'_>,
) -> bool
    ensures { result ≡ spec.is_surplus id (option_map found_network_view network.entry) others.now
        (finding_view finding.now) }
{
    is_network_section(&finding.what) && !is_said(id, network, others, nit_found(finding))
}

fn surplus_from(
    id: u16,
    network: Option<FoundNetwork<'_>>,
    others: &[NetworkStreamPart],
    findings: &[Finding<'_>],
) -> Option<u64>
    ensures { result ≡ spec.surplus_from id (option_map found_network_view network.entry) others.now
        (map finding_view findings.now) }
{
    for finding in findings {
        if is_surplus(id, network, others, finding) {
            return Some(finding.packet);
        }
    }
    None
}

/// Returns the packet where the first network information section of an actual network ends that a description has not
/// as it is: a section that is not in force or can't be read, on another PID, of another network, with other descriptors, or
/// with a transport stream that is not carried.
pub(crate) fn network_surplus(
    alloc: Global,
    id: u16,
    findings: &[Finding<'_>],
) -> Result<Option<u64>, AllocError>
    ensures { IfOk result (λ packet. packet ≡ spec.network_surplus id (map finding_view findings.now)) }
{
    let network = stream_network(id, findings);
    let others = other_streams(alloc, id, network, findings)?;
    Ok(surplus_from(id, network, &others, findings))
}
