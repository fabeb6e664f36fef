//! The network information sections of a description (EN 300 468, 5.2.1).

ghost use Rattle.std.specs.Prelude.{◌≡◌, ◌<◌, ◌≤◌, ◌+◌, ◌++◌, [], ◌∷◌, IfSome, Some, length, map, option_map};
ghost use Rattle.std.specs.Prelude.{slice_get, slice_range, sum_by};
ghost use Rattle.psi_tables.specs.Encoding.{section_bytes};
ghost use Rattle.psi_tables.specs.declared.writing.TheConstants.{GREATEST_TABLE_LENGTH};
ghost use Rattle.dvb_tables.specs.NetworkInformation.{nit_section};
ghost use Rattle.dvb_tables.specs.TransportStreams.{transport_stream_view, transport_stream_loop_of};
ghost use Rattle.dvb_tables.specs.TransportStreams.{transport_streams_of, transport_streams_bytes};
ghost use Rattle.dvb_tables.specs.declared.transport_stream_loop.TheConstants.{GREATEST_TRANSPORT_STREAM_LOOP};
ghost use Rattle.description_parts.specs.Cuts.{places};
ghost use Rattle.description_parts.specs.Described.{network_stream_view};
ghost use Rattle.description_parts.specs.Ranges.{longest_section};
ghost use Rattle.description_parts.specs.Tables.{network_streams, network_stream_length, nit_length, nit_parts};
ghost use Rattle.description.specs.SectionBytes as spec;

use crate::description::Description;
use crate::section_bytes::part_header;
use arrayvec::ArrayVec;
use description_parts::Network;
use dvb_tables::{Nit, TransportStream, TransportStreamLoop, TransportStreams};
use psi_tables::LongHeader;

// Adds a transport stream, for which there is room.
fn push_stream(entries: &mut TransportStreamLoop, entry: &TransportStream<'_>)
    requires { length (transport_streams_bytes (transport_stream_loop_of entries.old)) + 6
        + length entry.now.descriptors.now ≤ GREATEST_TRANSPORT_STREAM_LOOP }
    ensures value { transport_stream_loop_of entries.new
        ≡ transport_stream_loop_of entries.old ++ transport_stream_view entry.now ∷ [] }
    ensures length { length (transport_streams_bytes (transport_stream_loop_of entries.new))
        ≡ length (transport_streams_bytes (transport_stream_loop_of entries.old)) + 6
        + length entry.now.descriptors.now }
{
    match entries.push(entry) {
        Ok(()) => {}
        Err(_) => unreachable!(),
    }
}

// Returns the network's descriptors in the section of a number.
fn network_loop(network: &Network, number: u8) -> &[u8]
    ensures { result.now ≡ spec.network_loop network.now number }
{
    if number == 0 {
        network.network_descriptors.as_bytes()
    } else {
        &[]
    }
}

impl Description {
    // Returns the transport stream of the network at a place: this one is the first.
    fn network_stream<'a>(&self, network: &'a Network, place: usize) -> Option<TransportStream<'a>>
        ensures { option_map transport_stream_view result
            ≡ option_map network_stream_view (slice_get (network_streams self.now network.now) place) }
    {
        self.contents.network_stream(network, place)
    }

    // Returns the places of the transport streams of a section: of its first one, and after its last one.
    fn nit_places(&self, network: &Network, section: usize) -> Option<(usize, usize)>
        ensures value { result ≡ places 0 (nit_parts self.now network.now) section }
        ensures order { IfSome result (λ r. r.0 ≤ r.1) }
    {
        self.contents.nit_places(network, section)
    }

    // Adds the transport stream at a place of the network, for which there is room.
    fn push_stream_at(&self, entries: &mut TransportStreamLoop, network: &Network, place: usize)
        requires { length (transport_streams_bytes (transport_stream_loop_of entries.old))
            + sum_by network_stream_length (slice_range (network_streams self.now network.now) place (place + 1))
            ≤ GREATEST_TRANSPORT_STREAM_LOOP }
        ensures value { transport_stream_loop_of entries.new ≡ transport_stream_loop_of entries.old
            ++ map network_stream_view (slice_range (network_streams self.now network.now) place (place + 1)) }
        ensures length { length (transport_streams_bytes (transport_stream_loop_of entries.new))
            ≡ length (transport_streams_bytes (transport_stream_loop_of entries.old))
            + sum_by network_stream_length (slice_range (network_streams self.now network.now) place (place + 1)) }
    {
        match self.network_stream(network, place) {
            None => {}
            Some(stream) => push_stream(entries, &stream),
        }
    }

    // Returns the transport streams from a place of the network up to another one.
    fn part_streams(&self, network: &Network, begin: usize, end: usize) -> TransportStreamLoop
        requires order { begin ≤ end }
        requires room { sum_by network_stream_length (slice_range (network_streams self.now network.now) begin end)
            ≤ GREATEST_TRANSPORT_STREAM_LOOP }
        ensures value { transport_stream_loop_of result
            ≡ map network_stream_view (slice_range (network_streams self.now network.now) begin end) }
        ensures length { length (transport_streams_bytes (transport_stream_loop_of result))
            ≡ sum_by network_stream_length (slice_range (network_streams self.now network.now) begin end) }
    {
        let mut entries = TransportStreamLoop::new();
        for place in begin..end {
            self.push_stream_at(&mut entries, network, place);
        }
        entries
    }

    // Writes the section with that header, of the transport streams from a place up to another one.
    fn write_nit(
        &self,
        network: &Network,
        header: LongHeader,
        begin: usize,
        end: usize,
        out: &mut ArrayVec<u8, 4096>,
    )
        requires version { header.version_number < 32 }
        requires order { begin ≤ end }
        requires fits { nit_length network.now header.section_number
            (slice_range (network_streams self.now network.now) begin end) ≤ longest_section }
        ensures { out.new.items ≡ section_bytes (nit_section (record {
          header = header;
          network_descriptors = spec.network_loop network.now header.section_number;
          transport_streams = map network_stream_view (slice_range (network_streams self.now network.now) begin end);
        })) }
    {
        let network_descriptors = network_loop(network, header.section_number);
        let entries = self.part_streams(network, begin, end);
        write_section(
            header,
            network_descriptors,
            entries.transport_streams(),
            out,
        );
    }

    /// Writes the section of a number of the network information table under a version; nothing if there is no such
    /// section.
    pub(crate) fn write_nit_at(
        &self,
        network: &Network,
        version: u8,
        section: u8,
        out: &mut ArrayVec<u8, 4096>,
    )
        requires network { self.now.network ≡ Some network.now }
        requires version { version < 32 }
        ensures { out.new.items ≡ spec.network_bytes network.now (nit_parts self.now network.now) version section }
    {
        self.keeps_ranges();
        let last = self.network_sections().saturating_sub(1);
        match self.nit_places(network, section as usize) {
            None => out.clear(),
            Some((begin, end)) => {
                let header = part_header(network.id, version, section, last as u8);
                self.write_nit(network, header, begin, end, out);
            }
        }
    }
}

#[tactic(auto, using(dvb_tables::proofs::BodyLengths::nit_body_length))]
fn write_section<'a>(
    header: LongHeader,
    network_descriptors: &'a [u8],
    transport_streams: TransportStreams<'a>,
    out: &mut ArrayVec<u8, 4096>,
)
    requires version { header.version_number < 32 }
    requires room { 13 + length network_descriptors.now
        + length (transport_streams_bytes (transport_streams_of transport_streams)) ≤ GREATEST_TABLE_LENGTH }
    ensures { out.new.items ≡ section_bytes (nit_section (record {
      header = header;
      network_descriptors = network_descriptors.now;
      transport_streams = transport_streams_of transport_streams.entry;
    })) }
{
    let section = Nit {
        header,
        network_descriptors,
        transport_streams,
    };
    match section.write_to(out) {
        Ok(()) => {}
        Err(_) => unreachable!(),
    }
}
