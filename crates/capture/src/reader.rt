//! A capture, piece by piece.
ghost use Rattle.std.specs.Prelude.{◌≡◌, ◌≤◌, ◌<◌, ◌+◌, ◌++◌, List, [], IfOk, OnOk, false, drop, length, min, take};
ghost use Rattle.capture.specs.Captures.{Part};
ghost use Rattle.capture.specs.Reading as spec;

use crate::part_taker::PartTaker;
use crate::settled::Settled;
use packet_sync::{FileForm, REACH};
use std::alloc::{AllocError, Global};
use std::marker::Model;

/// The number of new bytes that settle all kept bytes: the bytes of a packet less one, and the bytes that decide where
/// the next packet begins.
const ENOUGH: usize = 187 + REACH;

/// A capture that is being read: its front and place so far, and its last bytes, which are not settled.
///
/// After an `AllocError` it describes no capture: drop it.
#[derive(Drop)]
pub struct CaptureReader {
    alloc: Global,
    settled: Settled,
    kept: Vec<u8>,
}

impl Model for CaptureReader {
    ghost use Rattle.capture.specs.Reading.{ReaderView};

    ghost Value = { ReaderView };

    ghost view = { λ r. record { settled = r.settled; kept = r.kept.items } };
}

/// The end of a capture: how many bytes come after its last packet, and what it is if it is no transport stream.
#[derive(Clone, Copy)]
pub struct CaptureEnd {
    pub left: usize,
    pub form: FileForm,
}

impl CaptureReader {
    /// Returns the state before the first byte.
    pub fn new(alloc: Global) -> CaptureReader
        ensures { result ≡ spec.no_bytes }
    {
        CaptureReader {
            alloc,
            settled: Settled::NONE,
            kept: Vec::new(alloc),
        }
    }

    // Drops the first `used` of the kept bytes.
    fn keep_from(&mut self, used: usize) -> Result<(), AllocError>
        requires { used ≤ length self.old.kept }
        ensures { OnOk result (self.new ≡ record { settled = self.old.settled; kept = drop used self.old.kept }) }
    {
        let mut rest = Vec::new(self.alloc);
        rest.extend_from_slice(&self.kept[used..])?;
        self.kept = rest;
        Ok(())
    }

    // Returns how many bytes are kept.
    fn kept_size(&self) -> usize
        ensures { result ≡ length self.now.kept }
    {
        self.kept.len()
    }

    // Takes the first bytes of a piece, and returns how many bytes are settled.
    fn settle_front<T: PartTaker>(
        &mut self,
        piece: &[u8],
        taker: &mut T,
    ) -> Result<usize, AllocError>
        ensures kept { OnOk result (self.new.kept ≡ self.old.kept ++ take (min (length piece.now) 1315) piece.now) }
        ensures within { IfOk result (λ used. used ≤ length self.new.kept) }
        ensures most { IfOk result (λ used. length self.new.kept < used + 1128) }
        ensures taken { (first : T) (parts : List Part) → T.has_taken first parts taker.old →
            IfOk result (spec.Settles (λ found. T.has_taken first (parts ++ found) taker.new) self.old.settled
            self.new.kept false self.new.settled) }
    {
        let size = piece.len().min(ENOUGH);
        self.kept.extend_from_slice(&piece[..size])?;
        self.settled.settle(&self.kept, false, taker)
    }

    // Takes the rest of a piece, after its first bytes have settled all kept bytes.
    fn take_rest<T: PartTaker>(&mut self, rest: &[u8], taker: &mut T) -> Result<(), AllocError>
        ensures few { OnOk result (length self.new.kept < 1128) }
        ensures taken { (first : T) (parts : List Part) → T.has_taken first parts taker.old →
            OnOk result (spec.Takes (λ found. T.has_taken first (parts ++ found) taker.new)
            (record { settled = self.old.settled; kept = [] }) rest.now self.new) }
    {
        let used = self.settled.settle(rest, false, taker)?;
        self.kept.clear();
        self.kept.extend_from_slice(&rest[used..])
    }

    /// Takes the next bytes of a capture, and gives the taker the parts that they settle; fewer than 1,128 bytes are
    /// kept.
    ///
    /// After an `AllocError` drop `taker` too: nothing is promised of its contents.
    pub fn take<T: PartTaker>(&mut self, piece: &[u8], taker: &mut T) -> Result<(), AllocError>
        ensures few { OnOk result (length self.new.kept < 1128) }
        ensures taken { (first : T) (parts : List Part) → T.has_taken first parts taker.old →
            OnOk result (spec.Takes (λ found. T.has_taken first (parts ++ found) taker.new)
            self.old piece.now self.new) }
    {
        let before = self.kept_size();
        let used = self.settle_front(piece, taker)?;
        if used < before {
            return self.keep_from(used);
        }
        self.take_rest(&piece[used - before..], taker)
    }

    /// Ends the capture: gives the taker the parts that are left.
    ///
    /// After an `AllocError` drop `taker` too: nothing is promised of its contents.
    pub fn end<T: PartTaker>(&mut self, taker: &mut T) -> Result<CaptureEnd, AllocError>
        ensures { (first : T) (parts : List Part) → T.has_taken first parts taker.old →
            IfOk result (spec.TakesLast (λ found. T.has_taken first (parts ++ found) taker.new)
            (spec.capture_left self.old [])) }
    {
        let used = self.settled.settle(&self.kept, true, taker)?;
        Ok(CaptureEnd {
            left: self.kept.len() - used,
            form: self.settled.form(),
        })
    }
}
