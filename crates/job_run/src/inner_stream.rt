//! The packets of a transport stream that is being read, whatever their size.
ghost use Rattle.std.specs.Prelude.{◌≡◌, ◌⊎◌, ◌≤◌, ◌<◌, ◌+◌, ◌++◌, [], IfOk, List, OnOk, ℕ, false, true, length};
ghost use Rattle.packet_sync.specs.OtherPackets.{other_packets};
ghost use Rattle.job_run.specs.Streams as spec;

use crate::carried_stream::{CarriedStream, ReadStream};
use packet_sync::{OtherPackets, inner_bytes};
use std::alloc::{AllocError, Global};
use std::marker::Model;

/// A stream that is being read. Packets of 192 and 204 bytes are read as packets of 188; the last bytes, fewer than
/// 1,228, are held until they decide where a packet begins.
#[derive(Drop)]
pub(crate) struct InnerStream {
    alloc: Global,
    other: Option<OtherPackets>,
    held: Vec<u8>,
    stream: CarriedStream,
}

// A contract sees the held bytes, and the state after the packets before them.
impl Model for InnerStream {
    ghost use Rattle.job_run.specs.Streams.{InnerView};

    ghost Value = { InnerView };

    ghost view = { λ s. record { other = s.other; held = s.held.items; stream = s.stream } };
}

// Takes the packets of the bytes, as far as these decide, and returns how many bytes of the stream they are; `ended`:
// whether no more bytes follow.
fn take_packets(
    alloc: Global,
    other: Option<OtherPackets>,
    bytes: &[u8],
    ended: bool,
    stream: &mut CarriedStream,
) -> Result<usize, AllocError>
    ensures taken { IfOk result (spec.TakesPackets other bytes.now ended stream.old stream.new) }
    ensures within { IfOk result (λ used. used ≤ length bytes.now) }
    ensures last { IfOk result (λ used. ended ≡ true → used ≡ length bytes.now) }
    ensures few { IfOk result (λ used. length bytes.now < used + 1228) }
{
    match other {
        None => {
            stream.take(bytes)?;
            Ok(bytes.len())
        }
        Some(size) => {
            let inner = inner_bytes(alloc, size, bytes, ended)?;
            stream.take(&inner.packets)?;
            Ok(inner.used)
        }
    }
}

impl InnerStream {
    /// Returns the state before the first byte.
    pub(crate) fn new(alloc: Global) -> InnerStream
        ensures { (bytes : List ℕ) → bytes ≡ [] → spec.IsInner bytes result }
    {
        InnerStream {
            alloc,
            other: None,
            held: Vec::new(alloc),
            stream: CarriedStream::new(alloc),
        }
    }

    // Takes the held bytes and a piece after them, of a stream whose packets are these.
    fn take_bytes(&mut self, other: Option<OtherPackets>, bytes: &[u8]) -> Result<(), AllocError>
        ensures taken { (stream piece : List ℕ) → bytes.now ≡ self.old.held ++ piece → (stream ≡ []) ⊎ (409 ≤ length stream) →
            other ≡ other_packets (stream ++ piece) → spec.IsInner stream self.old →
            OnOk result (spec.IsInner (stream ++ piece) self.new) }
        ensures few { OnOk result (length self.new.held < 1228) }
    {
        let used = take_packets(self.alloc, other, bytes, false, &mut self.stream)?;
        let (_, left) = bytes.split_at(used);
        let held = Vec::from_slice(self.alloc, left)?;
        self.held = held;
        self.other = other;
        Ok(())
    }

    /// Takes the next bytes of a stream whose packets are these: the first bytes, or bytes after all that show the size
    /// of its packets. Fewer than 1,228 bytes are held.
    pub(crate) fn take(
        &mut self,
        other: Option<OtherPackets>,
        piece: &[u8],
    ) -> Result<(), AllocError>
        ensures taken { (bytes : List ℕ) → (bytes ≡ []) ⊎ (409 ≤ length bytes) → other ≡ other_packets (bytes ++ piece.now) →
            spec.IsInner bytes self.old → OnOk result (spec.IsInner (bytes ++ piece.now) self.new) }
        ensures few { OnOk result (length self.new.held < 1228) }
    {
        if self.held.is_empty() {
            return self.take_bytes(other, piece);
        }
        let mut bytes = Vec::from_slice(self.alloc, &self.held)?;
        bytes.extend_from_slice(piece)?;
        self.take_bytes(other, &bytes)
    }

    /// Ends the stream.
    pub(crate) fn end(self) -> Result<ReadStream, AllocError>
        ensures { (bytes : List ℕ) → spec.IsInner bytes self →
            IfOk result (λ r. spec.IsOfStream bytes r.notes r.references.items r.demux.found r.size) }
    {
        let mut stream = self.stream;
        take_packets(self.alloc, self.other, &self.held, true, &mut stream)?;
        stream.end()
    }
}
