//! The queues and carousels of a new line-up: new ones, and those of what stays.

ghost use Rattle.std.specs.Prelude.{◌≡◌, ◌<◌, IfOk, length};
ghost use Rattle.description_parts.specs.Tables.{table_count, table_kinds};
ghost use Rattle.unit_queue.specs.Queues.{ParametersInRange};
ghost use Rattle.mux_core.specs.Exchanges.{AreTaken, IsEach, IsOnce};
ghost use Rattle.mux_core.specs.Histories.{parameters_of};
ghost use Rattle.mux_core.specs.LineUpSteps as steps;

use crate::coming::come_carousel;
use crate::exchanges::exchange;
use crate::making::parameters_of;
use crate::room::Room;
use arrayvec::ArrayVec;
use line_ups::{stream_before, table_before};
use plan_checker::CheckedPlan;
use slot_plan::{Description, StreamDescription};
use std::alloc::{AllocError, Allocator};
use table_rounds::TableCarousel;
use unit_queue::UnitQueue;

/// A queue for each stream and a carousel for each table of a new line-up.
#[derive(Drop)]
pub(crate) struct LineUpParts<A: Allocator> {
    pub queues: Vec<UnitQueue<A>, A>,
    pub carousels: Vec<TableCarousel, A>,
}

// Returns a new queue for a stream: with its room if it comes, without room if it stays.
fn fresh_queue<A: Allocator + Clone>(
    alloc: A,
    old: &Description,
    new: &Description,
    capacity: Room,
    number: usize,
    stream: &StreamDescription,
) -> Result<UnitQueue<A>, AllocError>
    requires number { number < length new.now.streams }
    requires range { ParametersInRange (parameters_of new.now stream.now) }
    ensures { IfOk result (λ queue. queue ≡ steps.fresh_queue old.now new.now capacity number stream.now) }
{
    let room = match stream_before(old, new, number) {
        None => capacity.units_of(stream),
        Some(_) => 0,
    };
    UnitQueue::new(alloc, parameters_of(new, stream), room)
}

// Returns a new queue for each stream.
fn new_queues<A: Allocator + Clone>(
    alloc: &A,
    old: &Description,
    new: &Description,
    capacity: Room,
) -> Result<Vec<UnitQueue<A>, A>, AllocError>
    ensures { IfOk result (λ queues. IsEach (steps.fresh_queue old.now new.now capacity) new.now.streams queues.items) }
{
    new.keeps_ranges();
    let mut queues = Vec::new(alloc.clone()?);
    for stream in new.streams() {
        let number = queues.len();
        queues.push(fresh_queue(alloc.clone()?, old, new, capacity, number, stream)?)?;
    }
    Ok(queues)
}

// Returns a new carousel for each table, which comes in a slot.
fn new_carousels<A: Allocator + Clone>(
    alloc: &A,
    next: &CheckedPlan<A>,
    slots: u64,
) -> Result<Vec<TableCarousel, A>, AllocError>
    ensures { IfOk result (λ carousels. IsEach (steps.made_carousel next.now slots) (table_kinds next.now.description)
        carousels.items) }
{
    let mut carousels = Vec::new(alloc.clone()?);
    for table in 0..next.description().tables() {
        carousels.push(come_carousel(next, slots, table))?;
    }
    Ok(carousels)
}

/// Returns what is made for a new line-up that comes in a slot.
pub(crate) fn line_up_parts<A: Allocator + Clone>(
    alloc: &A,
    old: &Description,
    next: &CheckedPlan<A>,
    capacity: Room,
    slots: u64,
) -> Result<LineUpParts<A>, AllocError>
    ensures queues { IfOk result (λ parts. IsEach (steps.fresh_queue old.now next.now.description capacity)
        next.now.description.streams parts.queues.items) }
    ensures carousels { IfOk result (λ parts. IsEach (steps.made_carousel next.now slots)
        (table_kinds next.now.description) parts.carousels.items) }
{
    let queues = new_queues(alloc, old, next.description(), capacity)?;
    let carousels = new_carousels(alloc, next, slots)?;
    Ok(LineUpParts { queues, carousels })
}

// Returns the number before of each stream.
fn streams_before(old: &Description, new: &Description) -> ArrayVec<Option<usize>, 256>
    ensures { IsEach (steps.stream_number_before old.now new.now) new.now.streams result.items }
{
    new.keeps_ranges();
    let mut numbers = ArrayVec::new();
    for number in 0..new.streams().len() {
        numbers.push(stream_before(old, new, number));
    }
    numbers
}

// Returns the number before of each table.
fn tables_before(old: &Description, new: &Description) -> ArrayVec<Option<usize>, 256>
    ensures { IsEach (steps.table_number_before old.now new.now) (table_kinds new.now) result.items }
{
    new.keeps_ranges();
    let mut numbers = ArrayVec::new();
    for number in 0..new.tables() {
        numbers.push(table_before(old, new, number));
    }
    numbers
}

/// Returns these queues of the new streams, but of each stream that stays the queue that it had.
pub(crate) fn kept_queues<A: Allocator>(
    mut queues: Vec<UnitQueue<A>, A>,
    from: &mut Vec<UnitQueue<A>, A>,
    old: &Description,
    new: &Description,
) -> Vec<UnitQueue<A>, A>
    requires { length queues.items ≡ length new.now.streams }
    ensures { AreTaken (steps.stream_number_before old.now new.now) new.now.streams queues.items from.old.items
        result.items }
{
    line_ups::laws::moves_once();
    new.keeps_ranges();
    let numbers = streams_before(old, new);
    exchange(&mut queues, from, numbers.as_slice());
    queues
}

/// Returns these carousels of the new tables, but of each table that stays the carousel that it had.
pub(crate) fn kept_carousels<A: Allocator>(
    mut carousels: Vec<TableCarousel, A>,
    from: &mut Vec<TableCarousel, A>,
    old: &Description,
    new: &Description,
) -> Vec<TableCarousel, A>
    requires { length carousels.items ≡ table_count new.now }
    ensures { AreTaken (steps.table_number_before old.now new.now) (table_kinds new.now) carousels.items from.old.items
        result.items }
{
    line_ups::laws::moves_once();
    new.keeps_ranges();
    let numbers = tables_before(old, new);
    exchange(&mut carousels, from, numbers.as_slice());
    carousels
}
