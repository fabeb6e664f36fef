//! Slots and entries of a plan text, read at its front.

ghost use Rattle.std.specs.Prelude.{◌≡◌, ◌<◌, option_map};
ghost use Rattle.slot_plan.specs.Readers.{slot_at, stream_at, program_at, slot_of_letter};
ghost use Rattle.slot_plan.specs.Readers.{multiplexing_at, peaks_at};

use crate::certificate::{MultiplexingEntry, ProgramEntry, StreamEntry};
use crate::slot::Slot;
use crate::words::{after_number, after_word, field_at, number_before};

/// Returns a slot, and the text after the byte that ends it.
pub fn slot_at(ending: u8, text: &[u8]) -> Option<(Slot, &[u8])>
    ensures { option_map (λ read. (read.0, read.1.now)) result ≡ slot_at ending text.now }
{
    let (letter, rest) = text.split_first()?;
    if *letter == b'-' {
        let rest = after_word(&[ending], rest)?;
        return Some((Slot::Null, rest));
    }
    let (number, rest) = number_before(ending, 256, rest)?;
    let slot = slot_of_letter(*letter, number as u8)?;
    Some((slot, rest))
}

/// Returns the slot of that letter and number.
fn slot_of_letter(letter: u8, number: u8) -> Option<Slot>
    ensures { result ≡ slot_of_letter letter number }
{
    match letter {
        b'S' => Some(Slot::Stream(number)),
        b'P' => Some(Slot::Pcr(number)),
        b'T' => Some(Slot::Table(number)),
        _ => None,
    }
}

/// Returns the claim on a multiplexing buffer that ends a line, and the text after it.
fn multiplexing_at(text: &[u8]) -> Option<(MultiplexingEntry, &[u8])>
    ensures { option_map (λ read. (read.0, read.1.now)) result ≡ multiplexing_at text.now }
{
    let (start, rest) = field_at(b"mstart ", b' ', text)?;
    let (peak, rest) = field_at(b"mpeak ", b'\n', rest)?;
    Some((MultiplexingEntry { start, peak }, rest))
}

/// Returns the peak of a transport buffer and the claim on a multiplexing buffer, if there is one, that end a line, and
/// the text after it.
fn peaks_at(text: &[u8]) -> Option<((u64, Option<MultiplexingEntry>), &[u8])>
    ensures { option_map (λ read. (read.0, read.1.now)) result ≡ peaks_at text.now }
{
    if let Some((peak, rest)) = field_at(b"peak ", b'\n', text) {
        return Some(((peak, None), rest));
    }
    let (peak, rest) = field_at(b"peak ", b' ', text)?;
    let (multiplexing, rest) = multiplexing_at(rest)?;
    Some(((peak, Some(multiplexing)), rest))
}

/// Returns the line of a stream's entry, and the text after it.
pub fn stream_at(number: u64, text: &[u8]) -> Option<(StreamEntry, &[u8])>
    ensures { option_map (λ read. (read.0, read.1.now)) result ≡ stream_at number text.now }
{
    let rest = after_number(b"stream ", number, text)?;
    let (spread, rest) = field_at(b"spread ", b' ', rest)?;
    let (start, rest) = field_at(b"start ", b' ', rest)?;
    let ((peak, multiplexing), rest) = peaks_at(rest)?;
    Some((
        StreamEntry {
            spread,
            start,
            peak,
            multiplexing,
        },
        rest,
    ))
}

/// Returns the line of a program's entry, and the text after it.
pub fn program_at(number: u64, text: &[u8]) -> Option<(ProgramEntry, &[u8])>
    ensures { option_map (λ read. (read.0, read.1.now)) result ≡ program_at number text.now }
{
    let rest = after_number(b"program ", number, text)?;
    let (transport_start, rest) = field_at(b"tstart ", b' ', rest)?;
    let (transport_peak, rest) = field_at(b"tpeak ", b' ', rest)?;
    let (system_start, rest) = field_at(b"bstart ", b' ', rest)?;
    let (system_peak, rest) = field_at(b"bpeak ", b'\n', rest)?;
    Some((
        ProgramEntry {
            transport_start,
            transport_peak,
            system_start,
            system_peak,
        },
        rest,
    ))
}
