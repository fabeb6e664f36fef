//! A PES packet of sound that is cut into packets of fewer frames.
ghost use Rattle.std.specs.Prelude.{◌≡◌, ◌≤◌, ◌++◌, ◌∷◌, ◌<◌, ◌^◌, [], IfOk, OnOk, length, map};
ghost use Rattle.pid_findings.specs.Shown.{finding_view};
ghost use Rattle.sound_packets.specs.Pieces as spec;

use pes_packet::{PesHeader, Stamps};
use pid_findings::{Finding, Kind, Part, What};
use sound_frames::{FrameKind, FramePart, FrameWalk};
use std::alloc::{AllocError, Global};

/// Stamps count units of 90 kHz modulo this (ISO/IEC 13818-1, 2.4.3.7).
const STAMP_MODULUS: u64 = 1 << 33;

/// A PES packet that is cut: its place in the stream, its header, the kind of its frames, and how long each sounds.
#[derive(Clone, Copy)]
pub(crate) struct CutPacket {
    pub packet: u64,
    pub pid: Option<u16>,
    pub begun: Option<(u64, Kind)>,
    pub header: PesHeader,
    pub kind: FrameKind,
    pub time: u64,
}

// Returns a stamp that is later by a time.
fn later(stamp: u64, by: u64) -> u64
    ensures { result ≡ spec.later stamp by }
{
    (stamp % STAMP_MODULUS + by % STAMP_MODULUS) % STAMP_MODULUS
}

// Returns stamps that are later by a time.
#[tactic(auto, unfolding(crate::specs::Pieces::later_stamps))]
fn later_stamps(by: u64, stamps: Stamps) -> Stamps
    ensures { result ≡ spec.later_stamps by stamps }
{
    match stamps {
        Stamps::Absent => Stamps::Absent,
        Stamps::Pts(pts) => Stamps::Pts(later(pts, by)),
        Stamps::PtsDts { pts, dts } => Stamps::PtsDts {
            pts: later(pts, by),
            dts: later(dts, by),
        },
    }
}

// Returns a header with such stamps.
fn later_header(by: u64, header: PesHeader) -> PesHeader
    ensures { result ≡ spec.later_header by header }
{
    PesHeader {
        id: header.id,
        len: header.len,
        stamps: later_stamps(by, header.stamps),
        flags: header.flags,
        data_length: header.data_length,
        private_data: header.private_data,
    }
}

// Returns the frames of a unit after its first one.
fn later_frames(alloc: Global, kind: FrameKind, unit: &[u8]) -> Result<Vec<FramePart>, AllocError>
    ensures { IfOk result (λ parts. parts.items ≡ spec.later_frames kind unit.now) }
{
    let mut walk = FrameWalk::new(kind);
    walk.restart();
    walk.take(alloc, unit)
}

// Returns the number of pieces of at most `most` frames of a unit.
fn piece_count(most: usize, all: usize) -> usize
    ensures value { result ≡ spec.piece_count most all }
    ensures bound { result ≤ all }
{
    all.div_ceil(most.max(1)).min(all)
}

impl CutPacket {
    // Returns the header of the piece that begins with frame number `frame`.
    fn header_at(&self, frame: usize) -> PesHeader
        ensures { result ≡ spec.header_at self.now frame }
    {
        later_header((frame as u64).saturating_mul(self.time), self.header)
    }

    // Returns a piece, which begins with frame number `frame`.
    fn piece(
        &self,
        alloc: Global,
        frame: usize,
        bytes: &[u8],
    ) -> Result<Finding<'static>, AllocError>
        ensures { IfOk result (λ f. finding_view f ≡ spec.piece_of self.now (frame, bytes.now)) }
    {
        let body = Vec::from_slice(alloc, bytes)?;
        Ok(Finding {
            packet: self.packet,
            pid: self.pid,
            begun: self.begun,
            what: What::Pes {
                header: self.header_at(frame),
                unended: false,
                body: Part::Joined(body),
            },
        })
    }

    // Appends a piece.
    fn push_piece(
        &self,
        alloc: Global,
        frame: usize,
        bytes: &[u8],
        cut: &mut Vec<Finding<'static>>,
    ) -> Result<(), AllocError>
        ensures { OnOk result (map finding_view cut.new.items
            ≡ map finding_view cut.old.items ++ spec.piece_of self.now (frame, bytes.now) ∷ []) }
    {
        let piece = self.piece(alloc, frame, bytes)?;
        cut.push(piece)?;
        Ok(())
    }

    // Appends the pieces of at most `most` frames, as even as can be, of a unit with these frames after its first one.
    #[tactic(auto, unfolding(crate::specs::Pieces::pieces_from))]
    fn push_at(
        &self,
        alloc: Global,
        most: usize,
        parts: &[FramePart],
        bytes: &[u8],
        cut: &mut Vec<Finding<'static>>,
    ) -> Result<(), AllocError>
        requires { length parts.now < 2 ^ 62 }
        ensures { OnOk result (map finding_view cut.new.items ≡ map finding_view cut.old.items
            ++ map (spec.piece_of self.now) (spec.pieces_by most parts.now bytes.now)) }
    {
        let all = parts.len() + 1;
        let pieces = piece_count(most, all);
        let mut parts = parts;
        let mut bytes = bytes;
        let mut rest = 0usize;
        let mut first = 0usize;
        let mut count = 1usize;
        let mut at = 0usize;
        'parts: while let Some((part, later)) = parts.split_first() {
            parts = later;
            rest += pieces;
            if count < most && rest < all {
                count += 1;
                continue;
            }
            rest = rest.saturating_sub(all);
            let size = part.place.saturating_sub(at).min(bytes.len());
            let (piece, left) = bytes.split_at(size);
            self.push_piece(alloc, first, piece, cut)?;
            bytes = left;
            first += count;
            count = 1;
            at = part.place;
        }
        self.push_piece(alloc, first, bytes, cut)
    }

    /// Appends the pieces of at most `most` frames, of a PES packet with these bytes.
    pub(crate) fn push_pieces(
        &self,
        alloc: Global,
        most: usize,
        bytes: &[u8],
        cut: &mut Vec<Finding<'static>>,
    ) -> Result<(), AllocError>
        ensures { OnOk result (map finding_view cut.new.items ≡ map finding_view cut.old.items
            ++ map (spec.piece_of self.now) (spec.pieces most self.now.kind bytes.now)) }
    {
        let parts = later_frames(alloc, self.kind, bytes)?;
        self.push_at(alloc, most, &parts, bytes, cut)
    }
}
