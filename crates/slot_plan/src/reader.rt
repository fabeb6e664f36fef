//! A plan text, read whole.

ghost use Rattle.std.specs.Prelude.{◌≡◌, ◌+◌, ◌<◌, ◌≤◌, IfOk, IfSome, option_map, vec_len};
ghost use Rattle.slot_plan.specs.Text.{slot_ending};
ghost use Rattle.slot_plan.specs.Readers.{slots_at, streams_at, programs_at, begins_with};
ghost use Rattle.slot_plan.specs.Readers.{period_at, certificate_at, plan_at};
ghost use Rattle.slot_plan.specs.ReadResults.{Reads};

use crate::certificate::{Certificate, MAX_ENTRIES, ProgramEntry, StreamEntry};
use crate::entries::{program_at, slot_at, stream_at};
use crate::slot::{MAX_SLOTS, Slot};
use crate::text::SLOTS_ON_A_LINE;
use crate::words::{after_word, field_at};
use std::alloc::Allocator;
use thiserror::Error;

/// Why a text is no plan's.
#[derive(Clone, Copy, Debug, PartialEq, Eq, Error)]
pub enum PlanTextError {
    /// The first line that is not as it must be, from 1; where the text ends too soon, the one that is missing or cut.
    #[error("line {0} is not as it must be")]
    Line(u32),
    #[error("out of memory")]
    Memory,
}

/// Returns what ends slot number `index` of a period.
fn slot_ending(period: u32, index: u32) -> u8
    requires { index < period }
    ensures { result ≡ slot_ending period index }
{
    if (index + 1) % SLOTS_ON_A_LINE as u32 == 0 || index + 1 == period {
        b'\n'
    } else {
        b' '
    }
}

/// Returns the slots of a period, and the text after them.
pub fn slots_at<A: Allocator>(
    alloc: A,
    period: u32,
    text: &[u8],
) -> Result<(Vec<Slot, A>, &[u8]), PlanTextError>
    requires { period ≤ 99999 }
    ensures { Reads (λ read. (read.0.items, read.1.now)) result (slots_at period period text.now) }
{
    let mut slots = Vec::new(alloc);
    let mut rest = text;
    for index in 0..period {
        let Some((slot, after)) = slot_at(slot_ending(period, index), rest) else {
            return Err(PlanTextError::Line(3 + index / SLOTS_ON_A_LINE as u32));
        };
        if slots.push(slot).is_err() {
            return Err(PlanTextError::Memory);
        }
        rest = after;
    }
    Ok((slots, rest))
}

/// Returns whether a text begins with that letter.
fn begins_with(letter: u8, text: &[u8]) -> bool
    ensures { result ≡ begins_with letter text.now }
{
    match text {
        [first, ..] => *first == letter,
        [] => false,
    }
}

/// Returns the entries of streams, the first of them on that line, and the text after them.
pub fn streams_at<A: Allocator>(
    alloc: A,
    line: u32,
    text: &[u8],
) -> Result<(Vec<StreamEntry, A>, &[u8]), PlanTextError>
    requires { line < 10000 }
    ensures read { Reads (λ read. (read.0.items, read.1.now)) result (streams_at 256 line 0 text.now) }
    ensures bound { IfOk result (λ read. vec_len read.0 ≤ 256) }
{
    let mut entries = Vec::new(alloc);
    let mut rest = text;
    for number in 0..MAX_ENTRIES {
        if !begins_with(b's', rest) {
            return Ok((entries, rest));
        }
        let Some((entry, after)) = stream_at(number as u64, rest) else {
            return Err(PlanTextError::Line(line + number));
        };
        if entries.push(entry).is_err() {
            return Err(PlanTextError::Memory);
        }
        rest = after;
    }
    Ok((entries, rest))
}

/// Returns the entries of programs, in the same way.
pub fn programs_at<A: Allocator>(
    alloc: A,
    line: u32,
    text: &[u8],
) -> Result<(Vec<ProgramEntry, A>, &[u8]), PlanTextError>
    requires { line < 10000 }
    ensures read { Reads (λ read. (read.0.items, read.1.now)) result (programs_at 256 line 0 text.now) }
    ensures bound { IfOk result (λ read. vec_len read.0 ≤ 256) }
{
    let mut entries = Vec::new(alloc);
    let mut rest = text;
    for number in 0..MAX_ENTRIES {
        if !begins_with(b'p', rest) {
            return Ok((entries, rest));
        }
        let Some((entry, after)) = program_at(number as u64, rest) else {
            return Err(PlanTextError::Line(line + number));
        };
        if entries.push(entry).is_err() {
            return Err(PlanTextError::Memory);
        }
        rest = after;
    }
    Ok((entries, rest))
}

/// Returns the entries after the slots, the first of them on that line, and the text after them.
fn certificate_at<A: Allocator + Clone>(
    alloc: A,
    line: u32,
    text: &[u8],
) -> Result<(Certificate<A>, &[u8]), PlanTextError>
    requires { line < 9000 }
    ensures { Reads (λ read. (read.0, read.1.now)) result (certificate_at line text.now) }
{
    let Ok(second) = alloc.clone() else {
        return Err(PlanTextError::Memory);
    };
    let (streams, rest) = streams_at(alloc, line, text)?;
    let line = line + streams.len() as u32;
    let (programs, rest) = programs_at(second, line, rest)?;
    let line = line + programs.len() as u32;
    let Some(rest) = after_word(b"end\n", rest) else {
        return Err(PlanTextError::Line(line));
    };
    Ok((Certificate { streams, programs }, rest))
}

/// Returns `period N`, and the text after its line.
fn period_at(text: &[u8]) -> Option<(u32, &[u8])>
    ensures read { option_map (λ read. (read.0, read.1.now)) result ≡ period_at text.now }
    ensures bound { IfSome result (λ read. read.0 ≤ 99999) }
{
    let (period, rest) = field_at(b"period ", b'\n', text)?;
    if period > MAX_SLOTS as u64 {
        None
    } else {
        Some((period as u32, rest))
    }
}

/// Returns the slots and the certificate of the plan whose text is at the front, and the text after it.
pub fn plan_at<A: Allocator + Clone>(
    alloc: A,
    text: &[u8],
) -> Result<(Vec<Slot, A>, Certificate<A>, &[u8]), PlanTextError>
    ensures { Reads (λ read. (record { slots = read.0.items; certificate = read.1 }, read.2.now))
        result (plan_at text.now) }
{
    let Some(rest) = after_word(b"tsplan 1\n", text) else {
        return Err(PlanTextError::Line(1));
    };
    let Some((period, rest)) = period_at(rest) else {
        return Err(PlanTextError::Line(2));
    };
    let Ok(second) = alloc.clone() else {
        return Err(PlanTextError::Memory);
    };
    let (slots, rest) = slots_at(alloc, period, rest)?;
    let (certificate, rest) = certificate_at(
        second,
        3 + period.div_ceil(SLOTS_ON_A_LINE as u32),
        rest,
    )?;
    Ok((slots, certificate, rest))
}
