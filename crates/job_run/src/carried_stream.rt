//! The packets of a transport stream that are in step, through a demultiplexer while the stream arrives.
ghost use Rattle.std.specs.Prelude.{◌≡◌, ◌≤◌, ◌++◌, [], IfOk, List, OnOk, ℕ, true, false, drop, length};
ghost use Rattle.demux.specs.Stream.{finished};
ghost use Rattle.job_run.specs.Streams as spec;

use demux::Demux;
use joined_parts::{ClockGap, Recoding};
use packet_pcr::FoundPcr;
use packet_sync::{FieldLeftOut, Slip, StreamNotes};
use stamp_repair::ReferenceLog;
use std::alloc::{AllocError, Global};
use std::marker::Model;

/// The number of bytes of a new piece that are copied behind the held bytes; the rest of the piece is read in place.
const JOINED: usize = 12 * 188;

/// Findings about the packets of a stream, for the lines on standard error.
#[derive(Drop)]
pub(crate) struct PacketNotes {
    pub slips: Vec<Slip>,
    /// The fields that are not written again.
    pub fields: Vec<FieldLeftOut>,
    /// The changes of codings, if it is a joined recording.
    pub recodings: Vec<Recoding>,
    /// The gaps of its clocks.
    pub gaps: Vec<ClockGap>,
    /// The PIDs of streams whose clocks go back, if it is no joined recording.
    pub falling: Vec<u16>,
}

// A contract sees its parts as lists.
impl Model for PacketNotes {
    ghost use Rattle.job_run.specs.Streams.{PacketNotesView};

    ghost Value = { PacketNotesView };

    ghost view = { λ n. record {
      slips = n.slips.items;
      fields = n.fields.items;
      recodings = n.recodings.items;
      gaps = n.gaps.items;
      falling = n.falling.items;
    } };
}

/// A stream read to its end: its findings, clock references and packet notes, and the number of bytes outside slips.
#[derive(Drop)]
pub(crate) struct ReadStream {
    pub notes: PacketNotes,
    pub references: Vec<FoundPcr>,
    pub demux: Demux,
    pub size: usize,
}

// The bytes that are carried for certain.
#[derive(Drop)]
struct CarriedPackets {
    notes: StreamNotes,
    log: ReferenceLog,
    demux: Demux,
    size: usize,
}

// A contract sees its parts as lists.
impl Model for CarriedPackets {
    ghost use Rattle.job_run.specs.Streams.{PacketsView};

    ghost Value = { PacketsView };

    ghost view = { λ p. record { notes = p.notes; log = p.log; demux = p.demux; size = p.size } };
}

// Takes the end of the stream.
fn end_stream(demux: &mut Demux) -> Result<(), AllocError>
    ensures { OnOk result (demux.new ≡ finished demux.old) }
{
    match demux.finish() {
        Ok(()) => Ok(()),
        Err(_) => Err(AllocError),
    }
}

impl CarriedPackets {
    // Returns the state before the first byte.
    fn new(alloc: Global) -> CarriedPackets
        ensures { result ≡ spec.no_packets }
    {
        CarriedPackets {
            notes: StreamNotes::new(alloc),
            log: ReferenceLog::new(alloc),
            demux: Demux::new(alloc),
            size: 0,
        }
    }

    // Takes bytes that are carried.
    fn push(&mut self, bytes: &[u8]) -> Result<(), AllocError>
        ensures { OnOk result (self.new ≡ spec.with_bytes bytes.now self.old) }
    {
        let Some(size) = self.size.checked_add(bytes.len()) else {
            return Err(AllocError);
        };
        self.log.push(bytes)?;
        let Ok(()) = self.demux.push(bytes) else {
            return Err(AllocError);
        };
        self.size = size;
        Ok(())
    }

    // Takes of the next bytes all that are decided, and returns how many these are.
    fn take_decided(&mut self, bytes: &[u8], ended: bool) -> Result<usize, AllocError>
        ensures carried { (stream : List ℕ) →
            spec.IsCarriedTo stream ended (record { held = bytes.now; packets = self.old }) →
            IfOk result (λ at. spec.IsCarriedTo stream ended
            (record { held = drop at bytes.now; packets = self.new })) }
        ensures within { IfOk result (λ at. at ≤ length bytes.now) }
        ensures last { IfOk result (λ at. ended ≡ true → length bytes.now ≤ at) }
    {
        let mut at = 0;
        while at < bytes.len() {
            let (_, rest) = bytes.split_at(at);
            let stretch = self.notes.take_stretch(rest, ended)?;
            self.push(&rest[..stretch.in_step])?;
            if stretch.in_step + stretch.slipped == 0 {
                return Ok(at);
            }
            at += stretch.in_step + stretch.slipped;
        }
        Ok(at)
    }
}

/// A stream that is being read. Its last bytes are held until it is known whether they are in step.
#[derive(Drop)]
pub(crate) struct CarriedStream {
    alloc: Global,
    held: Vec<u8>,
    packets: CarriedPackets,
}

// A contract sees the held bytes, and the findings in the bytes before them.
impl Model for CarriedStream {
    ghost use Rattle.job_run.specs.Streams.{CarriedView};

    ghost Value = { CarriedView };

    ghost view = { λ s. record { held = s.held.items; packets = s.packets } };
}

impl CarriedStream {
    /// Returns the state before the first byte.
    pub(crate) fn new(alloc: Global) -> CarriedStream
        ensures { (stream : List ℕ) → stream ≡ [] → spec.IsCarriedTo stream false result }
    {
        CarriedStream {
            alloc,
            held: Vec::new(alloc),
            packets: CarriedPackets::new(alloc),
        }
    }

    // Replaces the held bytes by the two pieces, joined.
    fn hold(&mut self, some: &[u8], others: &[u8]) -> Result<(), AllocError>
        ensures held { OnOk result (self.new.held ≡ some.now ++ others.now) }
        ensures packets { OnOk result (self.new.packets ≡ self.old.packets) }
    {
        let mut held = Vec::from_slice(self.alloc, some)?;
        held.extend_from_slice(others)?;
        self.held = held;
        Ok(())
    }

    /// Takes the next bytes: carries each packet that is surely in step, and holds the rest.
    pub(crate) fn take(&mut self, piece: &[u8]) -> Result<(), AllocError>
        ensures { (stream : List ℕ) → spec.IsCarriedTo stream false self.old →
            OnOk result (spec.IsCarriedTo (stream ++ piece.now) false self.new) }
    {
        let before = self.held.len();
        let (front, later) = piece.split_at(piece.len().min(JOINED));
        let mut held = Vec::from_slice(self.alloc, self.held.as_slice())?;
        held.extend_from_slice(front)?;
        let at = self.packets.take_decided(&held, false)?;
        if at < before {
            let (_, left) = held.as_slice().split_at(at);
            self.hold(left, later)?;
            return Ok(());
        }
        let (_, rest) = piece.split_at(at - before);
        let at = self.packets.take_decided(rest, false)?;
        let (_, left) = rest.split_at(at);
        self.hold(left, &[])?;
        Ok(())
    }

    /// Ends the stream.
    pub(crate) fn end(self) -> Result<ReadStream, AllocError>
        ensures { (bytes : List ℕ) → spec.IsCarriedTo bytes false self →
            IfOk result (λ r. spec.IsOfPackets bytes r.notes r.references.items r.demux.found r.size) }
    {
        let alloc = self.alloc;
        let mut packets = self.packets;
        packets.take_decided(self.held.as_slice(), true)?;
        let CarriedPackets {
            notes,
            log,
            mut demux,
            size,
        } = packets;
        end_stream(&mut demux)?;
        let (slips, fields) = notes.into_parts();
        let recodings = Vec::new(alloc);
        let gaps = Vec::new(alloc);
        let falling = Vec::new(alloc);
        let notes = PacketNotes {
            slips,
            fields,
            recodings,
            gaps,
            falling,
        };
        let references = log.into_references();
        Ok(ReadStream {
            notes,
            references,
            demux,
            size,
        })
    }
}
