//! Whether the tables that stay have their places, and the programs their order.

ghost use Rattle.std.specs.Prelude.{◌≡◌, ◌<◌, ◌==◌, IfSome, find, length, position};
ghost use Rattle.std.specs.List.{list_all, range_with_len, zip};
ghost use Rattle.description_parts.specs.Tables.{packets_of_section, table_count};
ghost use Rattle.line_ups.specs.Kept as kept;
ghost use Rattle.line_ups.specs.Faults as spec;

use crate::fault::LineUpFault;
use crate::names::slot_in;
use slot_plan::{Description, ProgramDescription, Slot};

/// Returns the number that a table of the new description had in the old one, if it stays.
#[tactic(auto, using(plan_checker::proofs::Counts::few_tables))]
pub fn table_before(old: &Description, new: &Description, table: usize) -> Option<usize>
    requires { table < table_count new.now }
    ensures { result ≡ kept.table_before old.now new.now table }
{
    new.keeps_ranges();
    match slot_in(old, new, Slot::Table(table as u8)) {
        Slot::Table(before) => Some(before as usize),
        _ => None,
    }
}

/// Returns the number that a stream of the new description had in the old one, if it stays.
pub fn stream_before(old: &Description, new: &Description, stream: usize) -> Option<usize>
    requires { stream < length new.now.streams }
    ensures { result ≡ kept.stream_before old.now new.now stream }
{
    new.keeps_ranges();
    match slot_in(old, new, Slot::Stream(stream as u8)) {
        Slot::Stream(before) => Some(before as usize),
        _ => None,
    }
}

/// Returns whether a stream of the old description goes.
pub fn is_gone(old: &Description, new: &Description, stream: usize) -> bool
    requires { stream < length old.now.streams }
    ensures { result ≡ kept.is_gone old.now new.now stream }
{
    stream_before(new, old, stream).is_none()
}

// Returns the packets of a section of that length.
fn packets(length: u16) -> usize
    ensures { result ≡ packets_of_section length }
{
    (1 + usize::from(length)).div_ceil(184)
}

// Returns whether each section takes as many packets, as far as both lists go.
fn has_same_packets(olds: &[u16], news: &[u16]) -> bool
    ensures { result ≡ list_all (λ p. packets_of_section p.0 == packets_of_section p.1) (zip olds.now news.now) }
{
    olds.iter()
        .zip(news)
        .all(|(one, other)| packets(*one) == packets(*other))
}

fn has_same_places(olds: &[u16], news: &[u16]) -> bool
    ensures { result ≡ spec.has_same_places olds.now news.now }
{
    olds.len() == news.len() && has_same_packets(olds, news)
}

// Returns whether a table stays and has other numbers of packets.
#[tactic(auto, using(crate::proofs::Numbers::no_table_beyond))]
fn loses_shape(old: &Description, new: &Description, table: usize) -> bool
    ensures { result ≡ spec.loses_shape old.now new.now table }
{
    if table >= new.tables() {
        return false;
    }
    match table_before(old, new, table) {
        None => false,
        Some(before) => !has_same_places(
            old.section_lengths(before).as_slice(),
            new.section_lengths(table).as_slice(),
        ),
    }
}

// Returns the first such table.
fn first_other(old: &Description, new: &Description) -> Option<usize>
    ensures { result ≡ find (spec.loses_shape old.now new.now) (range_with_len 0 (table_count new.now)) }
{
    (0..new.tables()).find(|table| loses_shape(old, new, *table))
}

/// Returns the first table that stays and has other numbers of packets.
pub fn shape_fault(old: &Description, new: &Description) -> Option<LineUpFault>
    ensures { result ≡ spec.shape_fault old.now new.now }
{
    first_other(old, new).map(LineUpFault::Shape)
}

// Returns the place of the program of a number, if there is one.
fn place_of(programs: &[ProgramDescription], number: u16) -> Option<usize>
    ensures value { result ≡ position (λ q. q.number == number) programs.now }
    ensures within { IfSome result (λ i. i < length programs.now) }
{
    programs
        .iter()
        .position(|program| program.number() == number)
}

fn program_number(description: &Description, place: usize) -> Option<u16>
    ensures { result ≡ kept.program_number description.now place }
{
    match description.programs().get(place) {
        None => None,
        Some(program) => Some(program.number()),
    }
}

/// Returns the place of the program that has the number of a program of the new description, if it stays.
pub fn program_before(old: &Description, new: &Description, place: usize) -> Option<usize>
    ensures value { result ≡ kept.program_before old.now new.now place }
    ensures few { IfSome result (λ i. i < 64) }
{
    match program_number(new, place) {
        None => None,
        Some(number) => place_of(old.programs(), number),
    }
}

fn is_later(old: &Description, new: &Description, place: usize) -> bool
    ensures { result ≡ spec.is_later old.now new.now place }
{
    match program_before(old, new, place) {
        None => false,
        Some(before) => before < place,
    }
}

// Returns the place of the first program that stays and comes later in the list.
fn first_later(old: &Description, new: &Description) -> Option<usize>
    ensures { result ≡ find (spec.is_later old.now new.now) (range_with_len 0 (length new.now.programs)) }
{
    (0..new.programs().len()).find(|place| is_later(old, new, *place))
}

/// Returns the first program that stays and comes later in the list.
pub fn order_fault(old: &Description, new: &Description) -> Option<LineUpFault>
    ensures { result ≡ spec.order_fault old.now new.now }
{
    match first_later(old, new) {
        None => None,
        Some(place) => Some(LineUpFault::Order(program_number(new, place).unwrap_or(0))),
    }
}
