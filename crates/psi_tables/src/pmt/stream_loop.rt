//! A loop of streams that is being written.

ghost use Rattle.std.specs.Prelude.{◌≡◌, is_some, true};
ghost use Rattle.psi_tables.specs.Loops.{loop_at};

use crate::error::SectionError;
use crate::pmt::streams::{Stream, Streams};
use arrayvec::ArrayVec;

/// The streams of a PMT that is being built. It holds up to 1,012 bytes in place and takes no
/// memory.
#[derive(Drop)]
pub struct StreamLoop {
    bytes: ArrayVec<u8, 1012>,
    ghost whole: { is_some (loop_at 5 bytes.items) ≡ true },
}

impl StreamLoop {
    ghost use Rattle.std.specs.Prelude.{◌+◌, ◌<◌, ◌≤◌, [], ◌∷◌, ◌++◌, ◌↔◌, length, IsOk, OnOk, IfErr, OnErr};
    ghost use Rattle.arrayvec.specs.ArrayVec.{array_vec_len};
    ghost use Rattle.psi_tables.specs.ProgramMap.{stream_view, streams_bytes, streams_of, stream_loop_of};

    /// Returns a loop without streams.
    #[tactic(auto, unfolding(crate::specs::ProgramMap::stream_loop_of, crate::specs::ProgramMap::streams_in, crate::specs::Loops::loop_at, crate::specs::Loops::loop_from))]
    pub fn new() -> StreamLoop
        ensures { stream_loop_of result ≡ [] }
    {
        StreamLoop {
            bytes: ArrayVec::new(),
        }
    }

    /// Adds a stream at the end. Answers `TooLong`, and leaves the loop as it was, if the loop would
    /// have more than 1,012 bytes: 5 a stream and the bytes of its descriptors.
    pub fn push(&mut self, stream: &Stream<'_>) -> Result<(), SectionError>
        requires { stream.now.elementary_pid < 8192 }
        ensures variant { IsOk result ↔ (length (streams_bytes (stream_loop_of self.old)) + 5
            + length stream.now.descriptors.now ≤ 1012) }
        ensures ok { OnOk result (stream_loop_of self.new ≡ stream_loop_of self.old ++ stream_view stream.now ∷ []) }
        ensures too_long { IfErr result (λ e. e ≡ SectionError.TooLong) }
        ensures unchanged { OnErr result (stream_loop_of self.new ≡ stream_loop_of self.old) }
    {
        if stream.descriptors.len() > 1007 {
            return Err(SectionError::TooLong);
        }
        if self.byte_length() > 1007 - stream.descriptors.len() {
            return Err(SectionError::TooLong);
        }
        stream.append_to(&mut self.bytes);
        Ok(())
    }

    fn byte_length(&self) -> usize
        ensures encoded { result ≡ length (streams_bytes (stream_loop_of self.now)) }
        ensures bytes { result ≡ array_vec_len self.now.bytes }
    {
        self.bytes.len()
    }

    /// Returns the streams, over the bytes of the loop.
    #[tactic(auto, unfolding(crate::specs::ProgramMap::stream_loop_of, crate::specs::ProgramMap::streams_of))]
    pub fn streams(&self) -> Streams<'_>
        ensures { streams_of result ≡ stream_loop_of self.now }
    {
        Streams::whole(self.bytes.as_slice())
    }
}
