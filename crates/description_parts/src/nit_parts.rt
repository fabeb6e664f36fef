//! The transport streams in each section of the network information table (EN 300 468, 5.2.1).

ghost use Rattle.std.specs.Prelude.{◌≡◌, ◌≤◌, ◌+◌, ◌++◌, length, map, option_map, slice_get, All, IfSome};
ghost use Rattle.arrayvec.specs.ArrayVec.{array_vec_len};
ghost use Rattle.dvb_tables.specs.TransportStreams.{transport_stream_view};
ghost use Rattle.description_parts.specs.Cuts.{places};
ghost use Rattle.description_parts.specs.Described.{network_stream_view};
ghost use Rattle.description_parts.specs.Tables as spec;

use crate::contents::Contents;
use crate::network::Network;
use crate::network_stream::NetworkStream;
use crate::section_places::places_at;
use arrayvec::ArrayVec;
use dvb_tables::TransportStream;

fn push_lengths(lengths: &mut ArrayVec<u16, 65>, streams: &[NetworkStream])
    requires room { array_vec_len lengths.old + length streams.now ≤ 65 }
    requires bounded { All (λ n. n ≤ 972) lengths.old.items }
    ensures value { lengths.new.items ≡ lengths.old.items ++ map spec.network_stream_length streams.now }
    ensures bounded { All (λ n. n ≤ 972) lengths.new.items }
{
    for stream in streams {
        lengths.push(6 + stream.descriptors.as_bytes().len() as u16);
    }
}

impl Contents {
    // Returns the bytes of each transport stream of the network.
    pub(crate) fn network_stream_lengths(&self, network: &Network) -> ArrayVec<u16, 65>
        ensures value { result.items ≡ map spec.network_stream_length (spec.network_streams self.now network.now) }
        ensures bounded { All (λ n. n ≤ 972) result.items }
        ensures few { length (spec.network_streams self.now network.now) ≤ 65 }
    {
        let mut lengths = ArrayVec::new();
        lengths.push(6 + network.descriptors.as_bytes().len() as u16);
        push_lengths(&mut lengths, network.streams.as_slice());
        lengths
    }

    /// Returns the transport stream of the network at a place: this one, and the others after it.
    pub fn network_stream<'a>(
        &self,
        network: &'a Network,
        place: usize,
    ) -> Option<TransportStream<'a>>
        ensures { option_map transport_stream_view result
            ≡ option_map network_stream_view (slice_get (spec.network_streams self.now network.now) place) }
    {
        if place == 0 {
            return Some(TransportStream {
                transport_stream_id: self.transport_stream_id,
                original_network_id: self.original_network_id,
                descriptors: network.descriptors.as_bytes(),
            });
        }
        match network.streams.as_slice().get(place - 1) {
            None => None,
            Some(stream) => Some(TransportStream {
                transport_stream_id: stream.transport_stream_id,
                original_network_id: stream.original_network_id,
                descriptors: stream.descriptors.as_bytes(),
            }),
        }
    }

    /// Returns the places of the transport streams in a section of the NIT: its first one, and the place after its last one.
    pub fn nit_places(&self, network: &Network, part: usize) -> Option<(usize, usize)>
        ensures value { result ≡ places 0 (spec.nit_parts self.now network.now) part }
        ensures order { IfSome result (λ r. (r.0 ≤ r.1) × (r.1 ≤ length (spec.network_streams self.now network.now))) }
    {
        let lengths = self.network_stream_lengths(network);
        if self.is_transponder() {
            let used = network.network_descriptors.as_bytes().len();
            return places_at(lengths.as_slice(), 1008, used, part);
        }
        if part == 0 {
            Some((0, lengths.len()))
        } else {
            None
        }
    }
}
