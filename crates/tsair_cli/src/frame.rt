//! Frames taken byte by byte.

ghost use Rattle.std.specs.Prelude.{◌≡◌, ◌++◌, ◌∷◌, [], true, false, None, Ok, Err};
ghost use Rattle.unit_records.specs.OpenRecords.{IsOpen, come_of};
ghost use Rattle.tsair_cli.specs.Frames.{Outside, Within, Escaped, at_byte, at_mark, frame_step, with_bytes};
ghost use Rattle.tsair_cli.specs.OpenFrames.{HasState, Steps, state_of};
ghost use Rattle.tsair_cli.specs.declared.frame_fault.FrameFault.TheVariants.{Dropped};

use crate::frame_fault::{FrameFault, fault_of};
use crate::stuffing::{ESCAPE, ESCAPED_ESCAPE, ESCAPED_MARK, MARK};
use std::alloc::Global;
use unit_records::{OpenRecord, Unit};

/// Where the next byte belongs.
#[derive(Clone, Copy)]
pub enum Place {
    /// Before the mark of the next record.
    Before,
    /// To a record.
    Inside,
    /// To a record, after an escape.
    AfterEscape,
    /// To bytes that are dropped, up to the next mark.
    Skipping,
}

/// A frame that is read as its bytes arrive. It holds the bytes of one unit.
#[derive(Drop)]
pub struct OpenFrame {
    alloc: Global,
    pub(crate) place: Place,
    pub(crate) begun: OpenRecord,
}

impl OpenFrame {
    /// Returns a reader before its first byte.
    pub fn new(alloc: Global) -> OpenFrame
        ensures { HasState Outside result }
    {
        OpenFrame {
            alloc,
            place: Place::Before,
            begun: OpenRecord::new(alloc),
        }
    }

    // Drops the open record, and takes the next bytes as at `place`.
    fn restart(&mut self, place: Place)
        ensures place { self.new.place ≡ place }
        ensures come { come_of self.new.begun ≡ [] }
        ensures open_record { IsOpen self.new.begun }
    {
        self.place = place;
        self.begun = OpenRecord::new(self.alloc);
    }

    /// Returns whether a record has begun since the mark.
    pub(crate) fn has_begun(&self) -> bool
        requires { IsOpen self.now.begun }
        ensures cut { result ≡ true → at_mark (state_of self.now) ≡ Err Dropped }
        ensures none { result ≡ false → at_mark (state_of self.now) ≡ Ok None }
    {
        match self.place {
            Place::Before => false,
            Place::Skipping => false,
            Place::Inside => self.begun.is_begun(),
            Place::AfterEscape => true,
        }
    }

    // Takes a mark.
    fn take_mark(&mut self) -> Result<Option<(u8, Unit)>, FrameFault>
        requires { IsOpen self.old.begun }
        ensures { Steps (Within [], at_mark (state_of self.old)) self.new result }
    {
        let begun = self.has_begun();
        self.restart(Place::Inside);
        if begun {
            Err(FrameFault::Dropped)
        } else {
            Ok(None)
        }
    }

    // Takes a byte of a record.
    fn take_plain(&mut self, byte: u8) -> Result<Option<(u8, Unit)>, FrameFault>
        requires { IsOpen self.old.begun }
        ensures { Steps (with_bytes (come_of self.old.begun ++ byte ∷ [])) self.new result }
    {
        match self.begun.take(&[byte]) {
            Ok(None) => {
                self.place = Place::Inside;
                Ok(None)
            }
            Ok(Some(whole)) => {
                self.place = Place::Before;
                Ok(Some(whole.1))
            }
            Err(refusal) => {
                self.restart(Place::Skipping);
                Err(fault_of(refusal))
            }
        }
    }

    // Takes a byte after an escape.
    fn take_escaped(&mut self, byte: u8) -> Result<Option<(u8, Unit)>, FrameFault>
        requires { IsOpen self.old.begun }
        ensures { Steps (at_byte (Escaped (come_of self.old.begun)) byte) self.new result }
    {
        if byte == ESCAPED_MARK {
            return self.take_plain(MARK);
        }
        if byte == ESCAPED_ESCAPE {
            return self.take_plain(ESCAPE);
        }
        self.restart(Place::Skipping);
        Err(FrameFault::Dropped)
    }

    /// Takes the next byte, and returns the record that ends with it, if there is one; or that bytes are dropped.
    pub fn take(&mut self, byte: u8) -> Result<Option<(u8, Unit)>, FrameFault>
        requires { IsOpen self.old.begun }
        ensures { Steps (frame_step (state_of self.old) byte) self.new result }
    {
        if byte == MARK {
            return self.take_mark();
        }
        match self.place {
            Place::Before => {
                self.restart(Place::Skipping);
                Err(FrameFault::Dropped)
            }
            Place::Skipping => Ok(None),
            Place::AfterEscape => self.take_escaped(byte),
            Place::Inside => {
                if byte == ESCAPE {
                    self.place = Place::AfterEscape;
                    return Ok(None);
                }
                self.take_plain(byte)
            }
        }
    }
}
