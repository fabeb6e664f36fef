//! New program numbers and PIDs in place of numbers that earlier inputs have.

ghost use Rattle.std.specs.Prelude.{◌≡◌, ◌==◌, ◌++◌, IfOk, filter, find, map, option_map, zip};
ghost use Rattle.job_inputs.specs.NewNumbers as spec;

use job_programs::job_options::is_among;
use std::alloc::{AllocError, Global};
use stream_programs::free_pid;

/// A number of a program or a PID of an input, and what it is in the job.
#[derive(Clone, Copy)]
pub struct NewNumber {
    pub from: u16,
    pub to: u16,
}

// Returns the number in place of a number that is taken: the first free number from it on, or otherwise from `least`
// on.
#[tactic(auto, unfolding(crate::specs::NewNumbers::new_place))]
fn new_place(least: u16, taken: &[u16], number: u16) -> Option<u16>
    ensures { result ≡ spec.new_place least taken.now number }
{
    free_pid(number, taken).or(free_pid(least, taken))
}

// Returns the number that an input's number becomes beside the numbers of the inputs before.
#[tactic(auto, unfolding(crate::specs::NewNumbers::place_of, stream_programs::specs::FreePids::is_taken, job_programs::specs::JobOptions::is_among))]
fn place_of(least: u16, before: &[u16], taken: &[u16], number: u16) -> Option<u16>
    ensures { result ≡ spec.place_of least before.now taken.now number }
{
    if is_among(number, before) {
        new_place(least, taken, number)
    } else {
        Some(number)
    }
}

// Returns the numbers of both lists.
fn both(alloc: Global, one: &[u16], other: &[u16]) -> Result<Vec<u16>, AllocError>
    ensures { IfOk result (λ numbers. numbers.items ≡ one.now ++ other.now) }
{
    let mut numbers = Vec::from_slice(alloc, one)?;
    numbers.extend_from_slice(other)?;
    Ok(numbers)
}

// Returns the new number of each number of an input, in their order.
fn places_of(
    alloc: Global,
    least: u16,
    before: &[u16],
    own: &[u16],
) -> Result<Option<Vec<u16>>, AllocError>
    ensures { IfOk result (λ places. option_map (λ given. given.items) places
        ≡ spec.places_of least before.now own.now) }
{
    let mut taken = both(alloc, before, own)?;
    let mut given = Vec::new(alloc);
    for number in own {
        let Some(place) = place_of(least, before, &taken, *number) else {
            return Ok(None);
        };
        given.push(place)?;
        taken.push(place)?;
    }
    Ok(Some(given))
}

// Pairs each number with its new number.
fn pairs(alloc: Global, own: &[u16], places: &[u16]) -> Result<Vec<NewNumber>, AllocError>
    ensures { IfOk result (λ pairs. pairs.items ≡ map spec.new_number (zip own.now places.now)) }
{
    own.iter()
        .zip(places.iter())
        .map(|(from, to)| NewNumber {
            from: *from,
            to: *to,
        })
        .collect(alloc)
}

/// Returns the numbers of an input as they are in the job. A number that no earlier input has stays. Another number
/// becomes the first free number from it on, up to 8,190, or else from `least` on; free are numbers that no input has.
/// `None` if no number is free.
pub(crate) fn new_numbers(
    alloc: Global,
    least: u16,
    before: &[u16],
    own: &[u16],
) -> Result<Option<Vec<NewNumber>>, AllocError>
    ensures { IfOk result (λ all. option_map (λ numbers. numbers.items) all
        ≡ spec.new_numbers least before.now own.now) }
{
    match places_of(alloc, least, before, own)? {
        Some(places) => Ok(Some(pairs(alloc, own, &places)?)),
        None => Ok(None),
    }
}

// Returns the first pair of a number.
fn first_of(all: &[NewNumber], number: u16) -> Option<&NewNumber>
    ensures { option_map (λ n. n.now) result ≡ find (λ n. n.from == number) all.now }
{
    all.iter().find(|one| one.from == number)
}

/// Returns what a number becomes.
#[tactic(auto, unfolding(crate::specs::NewNumbers::becomes))]
pub(crate) fn becomes(all: &[NewNumber], number: u16) -> u16
    ensures { result ≡ spec.becomes all.now number }
{
    match first_of(all, number) {
        Some(one) => one.to,
        None => number,
    }
}

/// Returns what these numbers become.
pub(crate) fn all_become(
    alloc: Global,
    all: &[NewNumber],
    numbers: &[u16],
) -> Result<Vec<u16>, AllocError>
    ensures { IfOk result (λ new. new.items ≡ map (spec.becomes all.now) numbers.now) }
{
    numbers
        .iter()
        .map(|number| becomes(all, *number))
        .collect(alloc)
}

// Pairs a number with its new number.
#[tactic(auto, unfolding(crate::specs::NewNumbers::becoming))]
fn becoming(all: &[NewNumber], number: u16) -> NewNumber
    ensures { result ≡ spec.becoming all.now number }
{
    NewNumber {
        from: number,
        to: becomes(all, number),
    }
}

// Pairs each of these numbers with its new number.
fn each_becoming(
    alloc: Global,
    all: &[NewNumber],
    numbers: &[u16],
) -> Result<Vec<NewNumber>, AllocError>
    ensures { IfOk result (λ each. each.items ≡ map (spec.becoming all.now) numbers.now) }
{
    numbers
        .iter()
        .map(|number| becoming(all, *number))
        .collect(alloc)
}

// Returns whether a number becomes another one.
#[tactic(auto, unfolding(crate::specs::NewNumbers::is_other))]
fn is_other(number: &NewNumber) -> bool
    ensures { result ≡ spec.is_other number.now }
{
    number.from != number.to
}

// Returns the numbers that become other numbers.
fn changed(alloc: Global, each: &[NewNumber]) -> Result<Vec<NewNumber>, AllocError>
    ensures { IfOk result (λ changed. changed.items ≡ filter spec.is_other each.now) }
{
    each.iter()
        .filter(|number| is_other(number))
        .copied()
        .collect(alloc)
}

/// Returns each of these numbers that changes, with its new number.
pub(crate) fn others(
    alloc: Global,
    all: &[NewNumber],
    numbers: &[u16],
) -> Result<Vec<NewNumber>, AllocError>
    ensures { IfOk result (λ changed. changed.items ≡ spec.others all.now numbers.now) }
{
    let each = each_becoming(alloc, all, numbers)?;
    changed(alloc, &each)
}
