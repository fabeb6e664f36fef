//! A transport stream in a network information section (EN 300 468, 5.2.1).

ghost use Rattle.std.specs.Prelude.{◌≡◌, length, is_some, true};
ghost use Rattle.psi_tables.specs.Loops.{loop_at};

use arrayvec::ArrayVec;
use bit_fields::append;
use psi_tables::{Entry, SectionError, entry_at, is_whole_loop};

/// One transport stream of a network. The descriptors are kept as bytes, whole descriptors or not.
#[derive(Clone, Copy)]
pub struct TransportStream<'a> {
    pub transport_stream_id: u16,
    pub original_network_id: u16,
    pub descriptors: &'a [u8],
}

/// The transport streams of a section, in order: an iterator over the bytes of the loop.
#[derive(Clone, Copy)]
pub struct TransportStreams<'a> {
    bytes: &'a [u8],
    ghost whole: { is_some (loop_at 6 bytes.now) ≡ true },
}

impl<'a> TransportStreams<'a> {
    ghost use Rattle.bit_fields.specs.Reading.{Gives};
    ghost use Rattle.dvb_tables.specs.TransportStreams.{transport_streams_at, transport_streams_in};
    ghost use Rattle.dvb_tables.specs.TransportStreams.{transport_streams_of};

    // Returns the transport streams of a whole loop.
    #[tactic(auto, unfolding(crate::specs::TransportStreams::transport_streams_of))]
    pub(crate) fn of_whole(bytes: &'a [u8]) -> TransportStreams<'a>
        requires { is_some (loop_at 6 bytes.now) ≡ true }
        ensures { transport_streams_of result ≡ transport_streams_in bytes.entry.now }
    {
        TransportStreams { bytes }
    }

    /// Returns the transport streams that bytes are; `Body` if they end within an entry.
    #[tactic(auto, unfolding(crate::specs::TransportStreams::transport_streams_at, crate::specs::TransportStreams::transport_streams_of))]
    pub fn read(bytes: &'a [u8]) -> Result<TransportStreams<'a>, SectionError>
        ensures { Gives transport_streams_of result (transport_streams_at bytes.now) }
    {
        if is_whole_loop(6, bytes) {
            Ok(TransportStreams { bytes })
        } else {
            Err(SectionError::Body)
        }
    }
}

impl TransportStreams<'_> {
    ghost use Rattle.std.specs.Prelude.{◌+◌, ◌≤◌, ◌++◌};
    ghost use Rattle.arrayvec.specs.ArrayVec.{array_vec_len};
    ghost use Rattle.dvb_tables.specs.TransportStreams.{transport_streams_of, transport_streams_bytes};

    /// Returns how many bytes are written for them.
    pub fn byte_length(&self) -> usize
        ensures { result ≡ length (transport_streams_bytes (transport_streams_of self.now)) }
    {
        self.bytes.len()
    }

    // Appends them as they are written.
    pub(crate) fn append_all_to(self, out: &mut ArrayVec<u8, 4096>)
        requires { array_vec_len out.old + length (transport_streams_bytes (transport_streams_of self)) ≤ 4096 }
        ensures items { out.new.items ≡ out.old.items ++ transport_streams_bytes (transport_streams_of self.entry) }
        ensures len { array_vec_len out.new ≡ array_vec_len out.old
            + length (transport_streams_bytes (transport_streams_of self.entry)) }
    {
        for stream in self {
            stream.append_to(out);
        }
    }
}

impl<'a> Iterator for TransportStreams<'a> {
    ghost use Rattle.std.specs.Iterator.{YieldsFirstBy, item_count};
    ghost use Rattle.dvb_tables.specs.TransportStreams.{transport_stream_view, transport_streams_of};

    type Item = TransportStream<'a>;

    ghost next_gives = { YieldsFirstBy transport_stream_view transport_streams_of };

    ghost remaining = { item_count transport_streams_of };

    #[tactic(auto, unfolding(crate::specs::TransportStreams::transport_streams_of, crate::specs::TransportStreams::transport_streams_in))]
    fn next(&mut self) -> Option<TransportStream<'a>> {
        match entry_at(6, self.bytes) {
            None => None,
            Some((entry, rest)) => {
                self.bytes = rest;
                Some(TransportStream::of_entry(entry))
            }
        }
    }
}

impl<'a> TransportStream<'a> {
    ghost use Rattle.std.specs.Prelude.{◌+◌, ◌<◌, ◌≤◌, ◌++◌};
    ghost use Rattle.arrayvec.specs.ArrayVec.{array_vec_len};
    ghost use Rattle.psi_tables.specs.Loops.{entry_view};
    ghost use Rattle.dvb_tables.specs.TransportStreams.{transport_stream_view, transport_stream_of};
    ghost use Rattle.dvb_tables.specs.TransportStreams.{transport_stream_front, transport_stream_bytes};

    // Returns the transport stream that an entry of the loop encodes.
    #[tactic(auto, unfolding(crate::specs::TransportStreams::transport_stream_of))]
    fn of_entry(from: Entry<'a>) -> TransportStream<'a>
        requires { length from.head.now ≡ 6 }
        ensures { transport_stream_view result ≡ transport_stream_of (entry_view from.entry) }
    {
        let head = from.head;
        TransportStream {
            transport_stream_id: u16::from_be_bytes([head[0], head[1]]),
            original_network_id: u16::from_be_bytes([head[2], head[3]]),
            descriptors: from.descriptors,
        }
    }

    /// Appends the transport stream to the loop of a network information section.
    #[tactic(auto, unfolding(crate::specs::TransportStreams::transport_stream_bytes))]
    pub fn append_to<const N: usize>(&self, out: &mut ArrayVec<u8, N>)
        requires length { length self.now.descriptors.now < 4096 }
        requires room { array_vec_len out.old + 6 + length self.now.descriptors.now ≤ N }
        ensures items { out.new.items ≡ out.old.items ++ transport_stream_bytes (transport_stream_view self.now) }
        ensures len { array_vec_len out.new ≡ array_vec_len out.old + 6 + length self.now.descriptors.now }
    {
        append(out, &self.front());
        append(out, self.descriptors);
    }

    // Returns the six bytes before the descriptors.
    #[tactic(auto, unfolding(crate::specs::TransportStreams::transport_stream_front))]
    fn front(&self) -> [u8; 6]
        requires { length self.now.descriptors.now < 4096 }
        ensures { result ≡ transport_stream_front (transport_stream_view self.now) }
    {
        let [a, b] = self.transport_stream_id.to_be_bytes();
        let [c, d] = self.original_network_id.to_be_bytes();
        let [high, low] = (self.descriptors.len() as u16).to_be_bytes();
        [a, b, c, d, 0xf0 + high, low]
    }
}
