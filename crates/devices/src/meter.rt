//! The progress of a reader, as a text for a terminal.
ghost use Rattle.std.specs.Prelude.{◌≡◌, ◌≤◌, ◌+◌, ◌++◌, ℕ, option_map};
ghost use Rattle.arrayvec.specs.ArrayVec.{array_vec_len};
ghost use Rattle.devices.specs.Progress as spec;

use crate::lines::{ROOM, append, append_number};
use arrayvec::ArrayVec;

/// The least time between two texts, in ms.
const APART: u64 = 1000;

/// The progress of a reader.
#[derive(Clone, Copy)]
pub struct Meter {
    /// The bytes that were read; the count stops at `u64::MAX`.
    pub taken: u64,
    /// The number of the whole input's bytes, if known.
    pub size: Option<u64>,
    /// When it was last reported, in ms after the beginning.
    pub shown_at: u64,
}

// Returns the bytes a second.
fn speed(taken: u64, ms: u64) -> u128
    ensures { result ≡ spec.speed taken ms }
{
    u128::from(taken) * 1000 / u128::from(ms.max(1))
}

// Returns the seconds for the rest at this speed, if the size is known.
#[tactic(auto, unfolding(crate::specs::Progress::seconds_left))]
fn seconds_left(size: Option<u64>, taken: u64, speed: u128) -> Option<u128>
    ensures { result ≡ spec.seconds_left size taken speed }
{
    let size = size?;
    if speed == 0 {
        None
    } else {
        Some(u128::from(size.saturating_sub(taken)) / speed)
    }
}

// Appends the size of the whole, if known.
#[tactic(auto, unfolding(crate::specs::Progress::size_text))]
fn append_size(line: &mut ArrayVec<u8, ROOM>, size: Option<u64>)
    requires { array_vec_len line.old + 44 ≤ 256 }
    ensures items { line.new.items ≡ line.old.items ++ spec.size_text size }
    ensures len { array_vec_len line.new ≤ array_vec_len line.old + 44 }
{
    if let Some(size) = size {
        append(line, b" of");
        append_number(line, u128::from(size));
    }
}

// Appends the time left, if known.
#[tactic(auto, unfolding(crate::specs::Progress::left_text))]
fn append_left(line: &mut ArrayVec<u8, ROOM>, seconds: Option<u128>)
    requires { array_vec_len line.old + 49 ≤ 256 }
    ensures items { line.new.items ≡ line.old.items ++ spec.left_text seconds }
    ensures len { array_vec_len line.new ≤ array_vec_len line.old + 49 }
{
    if let Some(seconds) = seconds {
        append(line, b",");
        append_number(line, seconds);
        append(line, b" s left");
    }
}

// Returns the text of the bytes read, and of the size.
fn read_text(taken: u64, size: Option<u64>) -> ArrayVec<u8, ROOM>
    ensures items { result.items ≡ spec.read_text taken size }
    ensures len { array_vec_len result ≤ 96 }
{
    let mut text = ArrayVec::new();
    append(&mut text, b"\rread");
    append_number(&mut text, u128::from(taken));
    append_size(&mut text, size);
    append(&mut text, b" bytes");
    text
}

// Returns the text of a reader that is not at its end.
#[tactic(auto, unfolding(crate::specs::Progress::progress_text))]
fn progress_text(taken: u64, size: Option<u64>, ms: u64) -> ArrayVec<u8, ROOM>
    ensures { result.items ≡ spec.progress_text taken size ms }
{
    let speed = speed(taken, ms);
    let mut text = read_text(taken, size);
    append(&mut text, b",");
    append_number(&mut text, speed);
    append(&mut text, b" a second");
    append_left(&mut text, seconds_left(size, taken, speed));
    append(&mut text, b"\x1b[K");
    text
}

// Returns the text of a reader at its end.
#[tactic(auto, unfolding(crate::specs::Progress::end_text))]
fn end_text(taken: u64) -> ArrayVec<u8, ROOM>
    ensures { result.items ≡ spec.end_text taken }
{
    let mut text = read_text(taken, None);
    append(&mut text, b"\x1b[K\n");
    text
}

impl Meter {
    // Returns whether a text is due.
    fn is_due(self, ms: u64) -> bool
        ensures { result ≡ spec.is_due self ms }
    {
        ms.saturating_sub(self.shown_at) >= APART
    }

    // Returns the bytes after a read.
    fn taken_after(self, n: usize) -> u64
        ensures { result ≡ spec.taken_after self n }
    {
        self.taken.saturating_add(n as u64)
    }

    /// Returns the meter after a read of `n` bytes, `ms` after the beginning; none if it was the last.
    #[tactic(auto, unfolding(crate::specs::Progress::meter_after))]
    pub(crate) fn after(self, n: usize, ms: u64) -> Option<Meter>
        ensures { result ≡ spec.meter_after self n ms }
    {
        if n == 0 {
            return None;
        }
        Some(Meter {
            taken: self.taken_after(n),
            size: self.size,
            shown_at: if self.is_due(ms) { ms } else { self.shown_at },
        })
    }

    /// Returns the text after a read.
    #[tactic(auto, unfolding(crate::specs::Progress::text_after))]
    pub(crate) fn text_after(self, n: usize, ms: u64) -> ArrayVec<u8, ROOM>
        ensures { result.items ≡ spec.text_after self n ms }
    {
        if n == 0 {
            end_text(self.taken)
        } else if self.is_due(ms) {
            progress_text(self.taken_after(n), self.size, ms)
        } else {
            ArrayVec::new()
        }
    }
}
