//! A walk over the frames of units of sound whose bytes come piece by piece.

ghost use Rattle.std.specs.Prelude.{◌≡◌, ◌+◌, ◌≤◌, ◌++◌, drop, min, IfOk, OnOk, length};
ghost use Rattle.sound_frames.specs.FrameWalks as spec;

use crate::frame::FrameHeader;
use crate::frame_headers::{FrameKind, frame_header};
use arrayvec::ArrayVec;
use std::alloc::{AllocError, Global};
use std::marker::Model;

// The bytes that any header needs: no frame is shorter.
const HEADER_BYTES: usize = 7;

/// A frame that begins among some bytes.
#[derive(Clone, Copy, PartialEq, Eq)]
pub struct FramePart {
    /// The bytes before it.
    pub place: usize,
    /// How many of them are its bytes.
    pub size: usize,
    /// How long after the first frame of its unit it is due, in units of 90 kHz.
    pub ahead: u64,
}

/// Where a walk over the frames of units of sound is, in constant memory.
#[derive(Drop)]
pub struct FrameWalk {
    kind: FrameKind,
    // The bytes of the current frame's header that have come, and the bytes of the frame after its header that are
    // still to come.
    header: ArrayVec<u8, 7>,
    left: u32,
    // The time of the current frame in units of 90 kHz, and how long after the first frame of the unit it is due.
    time: u64,
    ahead: u64,
    // Whether the bytes are no frame's.
    lost: bool,
}

impl Model for FrameWalk {
    ghost use Rattle.sound_frames.specs.FrameWalks.{WalkView};

    ghost Value = { WalkView };

    ghost view = { λ w. record {
      kind = w.kind;
      header = w.header.items;
      left = w.left;
      time = w.time;
      ahead = w.ahead;
      lost = w.lost;
    } };
}

// Returns the bytes after the first `count`.
fn bytes_after(count: usize, bytes: &[u8]) -> &[u8]
    requires { count ≤ length bytes.now }
    ensures { result.now ≡ drop count bytes.now }
{
    &bytes[count..]
}

impl FrameWalk {
    /// Returns a walk before the first unit.
    pub fn new(kind: FrameKind) -> FrameWalk
        ensures { result ≡ spec.no_walk kind }
    {
        FrameWalk {
            kind,
            header: ArrayVec::new(),
            left: 0,
            time: 0,
            ahead: 0,
            lost: true,
        }
    }

    /// Begins a unit, and with it a frame.
    pub fn restart(&mut self)
        ensures { self.new ≡ spec.restarted self.old }
    {
        self.header.clear();
        self.left = 0;
        self.ahead = 0;
        self.lost = false;
    }

    /// Marks the bytes up to the next unit as no frames.
    pub fn stray(&mut self)
        ensures { self.new ≡ spec.strayed self.old }
    {
        self.lost = true;
    }

    // Begins another frame of the unit, and returns how long after the first frame it is due.
    fn begin(&mut self) -> u64
        ensures walk { self.new ≡ spec.begun self.old }
        ensures ahead { result ≡ (spec.begun self.old).ahead }
    {
        self.header.clear();
        self.left = 0;
        self.ahead = self.ahead.saturating_add(self.time);
        self.ahead
    }

    // Takes the size and the time from the current frame's header.
    #[tactic(auto, unfolding(crate::specs::FrameWalks::by_header))]
    fn take_header(&mut self, header: Option<FrameHeader>)
        ensures { self.new ≡ spec.by_header self.old header }
    {
        let Some(header) = header else {
            self.lost = true;
            return;
        };
        if header.size < HEADER_BYTES as u32 {
            self.lost = true;
            return;
        }
        self.left = header.size - HEADER_BYTES as u32;
        if header.time != 0 {
            self.time = header.time;
        }
    }

    // Reads the current frame's header, if it is whole.
    #[tactic(auto, unfolding(crate::specs::FrameWalks::header_read))]
    fn read_header(&mut self)
        ensures { self.new ≡ spec.header_read self.old }
    {
        if self.header.len() == HEADER_BYTES {
            let header = frame_header(self.kind, self.header.as_slice());
            self.take_header(header);
        }
    }

    // Adds bytes to the header, at most as many as it still lacks.
    fn add_bytes(&mut self, bytes: &[u8])
        requires { length self.old.header + length bytes.now ≤ 7 }
        ensures { self.new ≡ record self.old { header = self.old.header ++ bytes.now } }
    {
        let Ok(()) = self.header.try_extend_from_slice(bytes) else {
            unreachable!()
        };
    }

    // Takes the bytes of the frame's header from these, and returns how many they are.
    #[tactic(auto, unfolding(crate::specs::FrameWalks::headed))]
    fn head(&mut self, bytes: &[u8]) -> usize
        ensures walk { self.new ≡ spec.headed self.old bytes.now }
        ensures count { result ≡ min (spec.missing self.old) (length bytes.now) }
        ensures bound { result ≤ length bytes.now }
    {
        let missing = HEADER_BYTES - self.header.len();
        if missing == 0 {
            return 0;
        }
        let count = missing.min(bytes.len());
        self.add_bytes(&bytes[..count]);
        self.read_header();
        count
    }

    // Passes the bytes of the current frame at the front, and returns how many they are.
    #[tactic(auto, unfolding(crate::specs::FrameWalks::passed, crate::specs::FrameWalks::passed_by, crate::specs::FrameWalks::count_passed, crate::specs::FrameWalks::count_by))]
    fn pass(&mut self, bytes: &[u8]) -> usize
        ensures walk { self.new ≡ spec.passed self.old bytes.now }
        ensures count { result ≡ spec.count_passed self.old bytes.now }
        ensures bound { result ≤ length bytes.now }
    {
        if self.lost {
            return bytes.len();
        }
        let first = self.head(bytes);
        if self.lost {
            return bytes.len();
        }
        let rest = bytes.len() - first;
        let count = rest.min(self.left as usize);
        self.left -= count as u32;
        first + count
    }

    /// Takes the next bytes of the unit, and returns the frames that begin among them: the bytes before the first of
    /// these are the current frame's.
    pub fn take(&mut self, alloc: Global, bytes: &[u8]) -> Result<Vec<FramePart>, AllocError>
        ensures walk { OnOk result (self.new ≡ spec.walk_after self.old bytes.now) }
        ensures parts { IfOk result (λ parts. parts.items ≡ spec.frames_in self.old bytes.now) }
    {
        let mut parts = Vec::new(alloc);
        let mut place = self.pass(bytes);
        let mut left = bytes_after(place, bytes);
        let mut steps = bytes.len();
        'frames: while steps > 0 {
            if left.is_empty() {
                return Ok(parts);
            }
            let ahead = self.begin();
            let size = self.pass(left);
            parts.push(FramePart { place, size, ahead })?;
            place += size;
            left = bytes_after(size, left);
            steps -= 1;
        }
        Ok(parts)
    }
}
