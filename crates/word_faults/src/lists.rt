//! Options that are lists: their parts have commas between them.

ghost use Rattle.std.specs.Prelude.{◌≡◌, ◌<◌, IfOk, [], ◌∷◌, map, option_map};
ghost use Rattle.word_faults.specs.Lists as spec;

use devices::number_in;
use es_buffers::{Buffers, PidBuffers};
use std::alloc::{AllocError, Global};

/// Returns the parts of a text between characters `at`, of ASCII.
pub(crate) fn parts<'a>(alloc: Global, text: &'a str, at: char) -> Result<Vec<&'a str>, AllocError>
    requires { at < 128 }
    ensures { IfOk result (λ parts. map (λ s. s.now) parts.items ≡ spec.parts at text.entry.now) }
{
    text.split(at).collect(alloc)
}

// Returns the numbers in texts, each up to `most`; none if a text is no such number.
fn numbers_of(alloc: Global, most: u16, texts: &[&str]) -> Result<Option<Vec<u16>>, AllocError>
    ensures { IfOk result
        (λ r. option_map (λ numbers. numbers.items) r ≡ spec.numbers_of most (map (λ s. s.now) texts.now)) }
{
    let mut numbers = Vec::new(alloc);
    for text in texts {
        match number_in(text, 0, u64::from(most)) {
            Some(number) => numbers.push(number as u16)?,
            None => return Ok(None),
        }
    }
    Ok(Some(numbers))
}

/// Returns the numbers of a list, each up to `most`: an empty list if it is not given, none if a part is no such
/// number.
#[tactic(auto, unfolding(crate::specs::Lists::number_list))]
pub fn number_list(
    alloc: Global,
    most: u16,
    text: Option<&str>,
) -> Result<Option<Vec<u16>>, AllocError>
    ensures { IfOk result (λ r. option_map (λ numbers. numbers.items) r
        ≡ spec.number_list most (option_map (λ s. s.now) text.entry)) }
{
    match text {
        None => Ok(Some(Vec::new(alloc))),
        Some(text) => numbers_of(alloc, most, &parts(alloc, text, ',')?),
    }
}

// Returns the buffers of these three numbers, each in its range.
#[tactic(auto, unfolding(crate::specs::Lists::buffers_of))]
fn ranged(pid: &str, rx: &str, main: &str) -> Option<PidBuffers>
    ensures { result ≡ spec.buffers_of (pid.now ∷ rx.now ∷ main.now ∷ []) }
{
    let pid = number_in(pid, 0, 8191)?;
    let rx = number_in(rx, 64_000, 200_000_000)?;
    let main = number_in(main, 1, 10_000_000)?;
    let (rx, main) = (rx as u32, main as u32);
    Some(PidBuffers {
        pid: pid as u16,
        buffers: Buffers { rx, main },
    })
}

// Returns the buffers of a part `PID:RX:MAIN`.
#[tactic(auto, unfolding(crate::specs::Lists::buffers_of))]
fn buffers_in(alloc: Global, part: &str) -> Result<Option<PidBuffers>, AllocError>
    ensures { IfOk result (λ r. r ≡ spec.buffers_of (spec.colon_parts part.now)) }
{
    match parts(alloc, part, ':')?.as_slice() {
        [pid, rx, main] => Ok(ranged(pid, rx, main)),
        _ => Ok(None),
    }
}

// Returns the buffers of all parts; none if a part is bad.
fn all_buffers(alloc: Global, parts: &[&str]) -> Result<Option<Vec<PidBuffers>>, AllocError>
    ensures { IfOk result
        (λ r. option_map (λ buffers. buffers.items) r ≡ spec.all_buffers (map (λ s. s.now) parts.now)) }
{
    let mut all = Vec::new(alloc);
    for part in parts {
        match buffers_in(alloc, part)? {
            Some(buffers) => all.push(buffers)?,
            None => return Ok(None),
        }
    }
    Ok(Some(all))
}

/// Returns the buffers of a list `PID:RX:MAIN,..`: an empty list if it is not given, none if a part is out of range.
#[tactic(auto, unfolding(crate::specs::Lists::buffer_list))]
pub fn buffer_list(alloc: Global, text: Option<&str>) -> Result<Option<Vec<PidBuffers>>, AllocError>
    ensures { IfOk result (λ r. option_map (λ buffers. buffers.items) r
        ≡ spec.buffer_list (option_map (λ s. s.now) text.entry)) }
{
    match text {
        None => Ok(Some(Vec::new(alloc))),
        Some(text) => all_buffers(alloc, &parts(alloc, text, ',')?),
    }
}
