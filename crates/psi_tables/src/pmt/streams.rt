//! The loop of streams in a PMT.

ghost use Rattle.std.specs.Prelude.{◌≡◌, length, is_some, true};
ghost use Rattle.psi_tables.specs.Loops.{loop_at};

use crate::entries::{Entry, entry_at, is_whole_loop};
use crate::error::SectionError;
use crate::pmt::fields::{info_length_bytes, pid_bytes};
use arrayvec::ArrayVec;
use bit_fields::append;

/// An elementary stream of a program.
#[derive(Clone, Copy)]
pub struct Stream<'a> {
    pub stream_type: u8,
    /// 13 bits.
    pub elementary_pid: u16,
    /// The bytes of the stream's descriptors.
    pub descriptors: &'a [u8],
}

/// The streams of a PMT, in order: an iterator over the bytes of the loop.
#[derive(Clone, Copy)]
pub struct Streams<'a> {
    bytes: &'a [u8],
    ghost whole: { is_some (loop_at 5 bytes.now) ≡ true },
}

impl<'a> Streams<'a> {
    ghost use Rattle.bit_fields.specs.Reading.{Gives};
    ghost use Rattle.psi_tables.specs.ProgramMap.{streams_at, streams_of};

    /// Returns the streams that bytes are; `Body` if an ES_info_length passes their end, or they end within an
    /// entry.
    #[tactic(auto, unfolding(crate::specs::ProgramMap::streams_at, crate::specs::ProgramMap::streams_of))]
    pub fn read(bytes: &'a [u8]) -> Result<Streams<'a>, SectionError>
        ensures { Gives streams_of result (streams_at bytes.now) }
    {
        if is_whole_loop(5, bytes) {
            Ok(Streams::whole(bytes))
        } else {
            Err(SectionError::Body)
        }
    }
}

impl<'a> Streams<'a> {
    ghost use Rattle.psi_tables.specs.ProgramMap.{streams_bytes, streams_in, streams_of};

    /// Returns the streams that bytes are, which are known to be whole.
    #[tactic(auto, unfolding(crate::specs::ProgramMap::streams_of))]
    pub fn whole(bytes: &'a [u8]) -> Streams<'a>
        requires { is_some (loop_at 5 bytes.now) ≡ true }
        ensures { streams_of result ≡ streams_in bytes.now }
    {
        Streams { bytes }
    }

    /// Returns the number of bytes that the streams are written as.
    pub fn byte_length(&self) -> usize
        ensures { result ≡ length (streams_bytes (streams_of self.now)) }
    {
        self.bytes.len()
    }
}

impl<'a> Iterator for Streams<'a> {
    ghost use Rattle.std.specs.Iterator.{YieldsFirstBy, item_count};
    ghost use Rattle.psi_tables.specs.ProgramMap.{stream_view, streams_of};

    type Item = Stream<'a>;

    ghost next_gives = { YieldsFirstBy stream_view streams_of };

    ghost remaining = { item_count streams_of };

    #[tactic(auto, unfolding(crate::specs::ProgramMap::streams_of, crate::specs::ProgramMap::streams_in))]
    fn next(&mut self) -> Option<Stream<'a>> {
        match entry_at(5, self.bytes) {
            None => None,
            Some((entry, rest)) => {
                self.bytes = rest;
                Some(Stream::of_entry(entry))
            }
        }
    }
}

impl<'a> Stream<'a> {
    ghost use Rattle.std.specs.Prelude.{◌+◌, ◌<◌, ◌≤◌, ◌++◌};
    ghost use Rattle.arrayvec.specs.ArrayVec.{array_vec_len};
    ghost use Rattle.psi_tables.specs.Loops.{entry_view};
    ghost use Rattle.psi_tables.specs.ProgramMap.{stream_view, stream_of, stream_bytes};

    /// Appends the entry as it is written, reserved bits 1.
    pub fn append_to<const N: usize>(&self, out: &mut ArrayVec<u8, N>)
        requires pid { self.now.elementary_pid < 8192 }
        requires length { length self.now.descriptors.now < 4096 }
        requires room { array_vec_len out.old + 5 + length self.now.descriptors.now ≤ N }
        ensures items { out.new.items ≡ out.old.items ++ stream_bytes (stream_view self.now) }
        ensures len { array_vec_len out.new ≡ array_vec_len out.old + 5 + length self.now.descriptors.now }
    {
        self.append_entry(out);
    }

    // Appends an entry whose PID and number of descriptor bytes are known to have room, as after reading.
    #[tactic(auto, unfolding(crate::specs::ProgramMap::stream_bytes, crate::specs::ProgramMap::stream_entry, crate::specs::Loops::entry_bytes, crate::specs::ProgramMap::pid_bytes, crate::specs::ProgramMap::info_length_bytes))]
    pub(super) fn append_entry<const N: usize>(&self, out: &mut ArrayVec<u8, N>)
        requires { array_vec_len out.old + 5 + length self.now.descriptors.now ≤ N }
        ensures items { out.new.items ≡ out.old.items ++ stream_bytes (stream_view self.now) }
        ensures len { array_vec_len out.new ≡ array_vec_len out.old + 5 + length self.now.descriptors.now }
    {
        let [pid_high, pid_low] = pid_bytes(self.elementary_pid);
        let [length_high, length_low] = info_length_bytes(self.descriptors.len());
        append(
            out,
            &[self.stream_type, pid_high, pid_low, length_high, length_low],
        );
        append(out, self.descriptors);
    }

    #[tactic(auto, unfolding(crate::specs::ProgramMap::stream_of))]
    fn of_entry(from: Entry<'a>) -> Stream<'a>
        requires { length from.head.now ≡ 5 }
        ensures { stream_view result ≡ stream_of (entry_view from.entry) }
    {
        Stream {
            stream_type: from.head[0],
            elementary_pid: u16::from_be_bytes([from.head[1] & 0x1f, from.head[2]]),
            descriptors: from.descriptors,
        }
    }
}
