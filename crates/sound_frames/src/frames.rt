//! The frames of sound in units.

ghost use Rattle.std.specs.Prelude.{◌≡◌, ◌<◌, ◌^◌, max, option_map, slice_index};
ghost use Rattle.sound_frames.specs.Frames as spec;

use crate::frame::FrameHeader;
use crate::frame_headers::{FrameKind, frame_header};

/// The number of last frames of a unit whose bytes are summed: all but the first of 64.
const SUMS: usize = 63;

/// The frames of one unit or of several units.
#[derive(Clone, Copy)]
pub struct UnitFrames {
    /// The most frames of a unit.
    pub count: usize,
    /// The longest time of a frame, in units of 90 kHz, rounded up.
    pub time: u64,
    /// The most bytes of the last 1, 2, .. 63 frames of a unit, without its first frame.
    pub left: [u32; SUMS],
}

// Returns the greater of the sums of two units at an index.
fn greater_at(one: &[u32; SUMS], other: &[u32; SUMS], index: usize) -> u32
    requires { index < 63 }
    ensures { result ≡ max (slice_index one.now index) (slice_index other.now index) }
{
    one[index].max(other[index])
}

// Returns the greater sums of two units.
fn greater_left(one: &[u32; SUMS], other: &[u32; SUMS]) -> [u32; SUMS]
    ensures { result ≡ spec.greater_left one.now other.now }
{
    let mut left = [0u32; SUMS];
    for i in 0..SUMS {
        left[i] = greater_at(one, other, i);
    }
    left
}

impl UnitFrames {
    /// Returns the frames of no unit.
    pub fn none() -> UnitFrames
        ensures { result ≡ spec.no_frames }
    {
        UnitFrames {
            count: 0,
            time: 0,
            left: [0; SUMS],
        }
    }

    /// Returns the frames of two units together.
    pub fn joined(self, other: UnitFrames) -> UnitFrames
        ensures { result ≡ spec.joined_frames self other }
    {
        UnitFrames {
            count: self.count.max(other.count),
            time: self.time.max(other.time),
            left: greater_left(&self.left, &other.left),
        }
    }
}

// Returns the bytes of the last `frames` frames.
fn sum_of(left: &[u32; SUMS], frames: usize) -> u32
    requires { frames < 63 }
    ensures { result ≡ spec.sum_of left.now frames }
{
    if frames == 0 { 0 } else { left[frames - 1] }
}

// Returns the bytes of a frame and of the `before` frames before it, by the sums up to the frame before it.
fn sum_with(left: &[u32; SUMS], size: u32, before: usize) -> u32
    requires { before < 63 }
    ensures { result ≡ spec.sum_with left.now size before }
{
    sum_of(left, before).saturating_add(size)
}

// Returns the bytes of the last frames when one more frame comes.
fn left_with(left: &[u32; SUMS], size: u32) -> [u32; SUMS]
    ensures { result ≡ spec.left_with left.now size }
{
    let mut sums = [0u32; SUMS];
    for i in 0..SUMS {
        sums[i] = sum_with(left, size, i);
    }
    sums
}

// Returns the same of a unit: its first frame is not counted.
#[tactic(auto, unfolding(crate::specs::Frames::left_after))]
fn left_after(frames: &UnitFrames, size: u32) -> [u32; SUMS]
    ensures { result ≡ spec.left_after frames.now size }
{
    if frames.count == 0 {
        frames.left
    } else {
        left_with(&frames.left, size)
    }
}

// Returns the frames of a unit with one more frame.
#[tactic(auto, unfolding(crate::specs::Frames::with_frame))]
fn with_frame(frames: UnitFrames, header: FrameHeader) -> UnitFrames
    requires { frames.count < 2 ^ 63 }
    ensures { result ≡ spec.with_frame frames header }
{
    UnitFrames {
        count: frames.count + 1,
        time: frames.time.max(header.time),
        left: left_after(&frames, header.size),
    }
}

// Returns the frame at the front, if it is whole, and the bytes after it.
#[tactic(auto, unfolding(crate::specs::Frames::next_frame))]
fn next_frame(kind: FrameKind, bytes: &[u8]) -> Option<(FrameHeader, &[u8])>
    ensures { option_map (λ next. (next.0, next.1.now)) result ≡ spec.next_frame kind bytes.now }
{
    let header = frame_header(kind, bytes)?;
    let size = header.size as usize;
    if size == 0 || bytes.len() < size {
        None
    } else {
        Some((header, &bytes[size..]))
    }
}

/// Returns the frames of a unit; none if the unit is not whole frames of this kind.
pub fn unit_frames(kind: FrameKind, unit: &[u8]) -> Option<UnitFrames>
    ensures { result ≡ spec.unit_frames kind unit.now }
{
    let mut frames = UnitFrames::none();
    let mut left = unit;
    let mut steps = unit.len();
    'frames: while steps > 0 {
        if left.is_empty() {
            return Some(frames);
        }
        let (header, rest) = next_frame(kind, left)?;
        frames = with_frame(frames, header);
        left = rest;
        steps -= 1;
    }
    if left.is_empty() { Some(frames) } else { None }
}
