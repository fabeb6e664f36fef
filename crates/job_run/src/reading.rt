//! A transport stream, read piece by piece.
ghost use Rattle.std.specs.Prelude.{◌≡◌, ◌⊎◌, ◌≤◌, ◌==◌, ◌||◌, not, is_some, ◌++◌, [], IfErr, IfOk, List, None, Ok, OnOk, ℕ, length};
ghost use Rattle.devices.specs.Devices.{Port, between, reads};
ghost use Rattle.packet_sync.specs.NoStreams.{searched, no_stream};
ghost use Rattle.job_run.specs.Streams as spec;

use crate::carried_stream::ReadStream;
use crate::inner_stream::InnerStream;
use counted_io::Source;
use devices::{Halt, LONGEST_INPUT, PieceTaker, new_piece, read_piece, take_input};
use packet_sync::{FileForm, PacketSearch};
use std::alloc::{AllocError, Global};
use std::marker::Model;

/// How many bytes at the front of an input show whether it is a transport stream.
const FRONT: usize = 1 << 22;

/// The size of a piece of the other bytes.
const PIECE: usize = 1 << 18;

/// A stream that is being read. Once its bytes are known to be no transport stream, no more are kept.
#[derive(Drop)]
pub(crate) struct StreamReading {
    search: PacketSearch,
    refused: bool,
    stream: InnerStream,
}

// A contract sees its parts.
impl Model for StreamReading {
    ghost use Rattle.job_run.specs.Streams.{ReadingView};

    ghost Value = { ReadingView };

    ghost view = { λ r. record { search = r.search; refused = r.refused; stream = r.stream } };
}

impl StreamReading {
    /// Returns the state before the first byte.
    pub(crate) fn new(alloc: Global) -> StreamReading
        ensures { (stream : List ℕ) → stream ≡ [] → spec.IsRead stream result }
    {
        StreamReading {
            search: PacketSearch::new(alloc),
            refused: false,
            stream: InnerStream::new(alloc),
        }
    }

    // Takes the next bytes: the first bytes, or bytes after all that show the size of the packets.
    fn take(&mut self, piece: &[u8]) -> Result<(), AllocError>
        ensures { (bytes : List ℕ) → (bytes ≡ []) ⊎ (409 ≤ length bytes) → spec.IsRead bytes self.old →
            OnOk result (spec.IsRead (bytes ++ piece.now) self.new) }
    {
        self.search.take(piece)?;
        if self.refused {
            return Ok(());
        }
        if self.search.is_settled() {
            self.refused = true;
            return Ok(());
        }
        let other = self.search.other_packets();
        self.stream.take(other, piece)?;
        Ok(())
    }

    /// Returns what the bytes are, if they are no transport stream.
    pub(crate) fn no_stream(&self) -> Option<FileForm>
        ensures { (bytes : List ℕ) → spec.IsRead bytes self.now → result ≡ no_stream bytes }
    {
        self.search.no_stream()
    }

    /// Ends the stream, which is a transport stream.
    pub(crate) fn end(self) -> Result<ReadStream, AllocError>
        ensures { (bytes : List ℕ) → spec.IsRead bytes self → no_stream bytes ≡ None →
            IfOk result (λ r. spec.IsOfStream bytes r.notes r.references.items r.demux.found r.size) }
    {
        self.stream.end()
    }
}

impl PieceTaker for StreamReading {
    ghost unit = { 1 };

    ghost has_taken = { λ first bytes now.
        (before : List ℕ) → 409 ≤ length before → spec.IsRead before first → spec.IsRead (before ++ bytes) now };

    fn take_piece(&mut self, piece: &[u8]) -> Result<(), Halt> {
        match self.take(piece) {
            Ok(()) => Ok(()),
            Err(_) => Err(Halt::Memory),
        }
    }
}

// Returns whether no more is to be read after the first `size` bytes: the input has ended, or these 4 MiB are no
// transport stream.
fn is_over(size: usize, form: Option<FileForm>) -> bool
    ensures { result ≡ (not (size == searched) || is_some form) }
{
    size != FRONT || form.is_some()
}

// Returns whether no more is to be read after the first `size` bytes, which the stream took.
fn has_ended(size: usize, stream: &StreamReading) -> bool
    ensures { (bytes : List ℕ) → spec.IsRead bytes stream.now →
        result ≡ (not (size == searched) || is_some (no_stream bytes)) }
{
    is_over(size, stream.no_stream())
}

// Takes the first 4 MiB of the input, or all of it if it is shorter. Returns whether no more is to be read.
fn take_first<R: Source>(
    input: &mut R,
    piece: &mut [u8],
    stream: &mut StreamReading,
) -> Result<bool, Halt>
    requires room { length piece.old ≡ searched }
    requires first { spec.IsRead [] stream.old }
    ensures { spec.TakesFront (reads R.Source input.old input.new) stream.new result }
{
    let size = read_piece(input, piece)?;
    match stream.take(&piece[..size]) {
        Ok(()) => Ok(has_ended(size, stream)),
        Err(_) => Err(Halt::Memory),
    }
}

// Takes them by a piece of memory that is free afterwards.
fn take_front<R: Source>(
    alloc: Global,
    input: &mut R,
    stream: &mut StreamReading,
) -> Result<bool, Halt>
    requires first { spec.IsRead [] stream.old }
    ensures { spec.TakesFront (reads R.Source input.old input.new) stream.new result }
{
    let mut piece = new_piece(alloc, FRONT)?;
    take_first(input, &mut piece, stream)
}

// Returns the stream, if the bytes after its first 4 MiB were read and it is not too long.
#[tactic(auto, unfolding(crate::specs::Streams::whole_stream))]
fn whole_stream(read: Result<usize, Halt>, stream: StreamReading) -> Result<StreamReading, Halt>
    ensures { result ≡ spec.whole_stream read stream }
{
    match read {
        Ok(size) => {
            if size <= LONGEST_INPUT - FRONT {
                Ok(stream)
            } else {
                Err(Halt::Read)
            }
        }
        Err(halt) => Err(halt),
    }
}

// Takes the bytes of the input after its first 4 MiB, unless no more is to be read (`over`).
fn take_rest<R: Source>(
    alloc: Global,
    input: &mut R,
    over: bool,
    stream: StreamReading,
) -> Result<StreamReading, Halt>
    ensures { (first : Port) →
        spec.TakesFront (between first (reads R.Source input.old input.new).before) stream (Ok over) →
        spec.ReadsStream (between first (reads R.Source input.old input.new).after) result }
{
    if over {
        return Ok(stream);
    }
    let mut stream = stream;
    let read = take_input(alloc, input, PIECE, &mut stream);
    whole_stream(read, stream)
}

/// Reads the whole input, of 2^40 bytes at most; only its first 4 MiB if these show that it is no transport stream.
pub(crate) fn read_stream<R: Source>(alloc: Global, input: &mut R) -> Result<StreamReading, Halt>
    ensures { spec.ReadsStream (reads R.Source input.old input.new) result }
{
    let mut stream = StreamReading::new(alloc);
    match take_front(alloc, input, &mut stream) {
        Ok(over) => take_rest(alloc, input, over, stream),
        Err(halt) => Err(halt),
    }
}
