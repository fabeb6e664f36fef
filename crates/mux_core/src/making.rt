//! Making a multiplexer: the one place where it takes memory.

ghost use Rattle.std.specs.Prelude.{◌≡◌, ◌<◌, IfOk, IfErr, map, length};
ghost use Rattle.description_parts.specs.Tables.{table_count};
ghost use Rattle.description_parts.specs.Ranges.{IsInRange};
ghost use Rattle.slot_plan.specs.Promised.{Promised};
ghost use Rattle.slot_plan.specs.Schedule.{single, switched};
ghost use Rattle.mux_core.specs.Histories.{parameters_of, empty_history};
ghost use Rattle.mux_core.specs.MuxStates.{Represents};
ghost use Rattle.mux_core.specs.NewMux.{is_periods, plan_cause, switch_cause, new_refusal, Judges};
ghost use Rattle.mux_core.specs.NewMux.{first_queue, first_carousel, first_carousels};
ghost use Rattle.mux_core.specs.declared.room.Room.TheVariants.{Units};

use crate::checked_schedule::CheckedSchedule;
use crate::done::NewError;
use crate::multiplexer::{MAX_SLOTS, Mux};
use crate::room::Room;
use crate::texts_in_force::TextsInForce;
use plan_checker::CheckedPlan;
use slot_plan::{Description, StreamDescription};
use std::alloc::{AllocError, Allocator};
use switch_checker::CheckedSwitch;
use table_rounds::TableCarousel;
use unit_queue::{StreamParameters, UnitQueue};

impl<A: Allocator + Clone> Mux<A> {
    /// Returns a multiplexer over a plan that lets each stream have `capacity` units that are not sent whole, 1 to
    /// 1,048,576. If none can be made, the plan is handed back.
    pub fn new(
        alloc: A,
        plan: CheckedPlan<A>,
        capacity: usize,
    ) -> Result<Mux<A>, (NewError, CheckedPlan<A>)>
        ensures refused { Judges (plan_cause (Units capacity)) (new_refusal result) }
        ensures represents { IfOk result (Represents empty_history) }
        ensures schedule { IfOk result (λ m. m.schedule ≡ record {
          description = plan.description;
          schedule = single plan.plan.slots;
        }) }
        ensures capacity { IfOk result (λ m. m.capacity ≡ Units capacity) }
        ensures handed_back { IfErr result (λ e. e.1 ≡ plan) }
    {
        Mux::with_room(alloc, plan, Room::Units(capacity))
    }

    /// Returns a multiplexer over a plan with this room for the units of each stream. If none can be made, the plan is
    /// handed back.
    pub fn with_room(
        alloc: A,
        plan: CheckedPlan<A>,
        room: Room,
    ) -> Result<Mux<A>, (NewError, CheckedPlan<A>)>
        ensures refused { Judges (plan_cause room) (new_refusal result) }
        ensures represents { IfOk result (Represents empty_history) }
        ensures schedule { IfOk result (λ m. m.schedule ≡ record {
          description = plan.description;
          schedule = single plan.plan.slots;
        }) }
        ensures capacity { IfOk result (λ m. m.capacity ≡ room) }
        ensures handed_back { IfErr result (λ e. e.1 ≡ plan) }
    {
        if !room.is_room() {
            return Err((NewError::Capacity, plan));
        }
        let Ok(queues) = first_queues(&alloc, plan.description(), room) else {
            return Err((NewError::Memory, plan));
        };
        let Ok(carousels) = first_carousels(&alloc, plan.description()) else {
            return Err((NewError::Memory, plan));
        };
        Ok(begun(CheckedSchedule::single(plan), queues, carousels, room))
    }

    /// Returns a multiplexer over two plans, the first for `periods` of its periods: at least 1, and at most 2^40
    /// slots. If it is refused, the switch is returned.
    pub fn with_switch(
        alloc: A,
        switch: CheckedSwitch<A>,
        periods: u64,
        capacity: usize,
    ) -> Result<Mux<A>, (NewError, CheckedSwitch<A>)>
        ensures refused { Judges (switch_cause (length switch.first.plan.slots) periods (Units capacity))
            (new_refusal result) }
        ensures represents { IfOk result (Represents empty_history) }
        ensures schedule { IfOk result (λ m. m.schedule
            ≡ record {
              description = switch.first.description;
              schedule = switched switch.first.plan.slots periods switch.second.slots;
            }) }
        ensures capacity { IfOk result (λ m. m.capacity ≡ Units capacity) }
        ensures handed_back { IfErr result (λ e. e.1 ≡ switch) }
    {
        Mux::with_switch_and_room(alloc, switch, periods, Room::Units(capacity))
    }

    /// Returns the same with this room for the units of each stream.
    pub fn with_switch_and_room(
        alloc: A,
        switch: CheckedSwitch<A>,
        periods: u64,
        room: Room,
    ) -> Result<Mux<A>, (NewError, CheckedSwitch<A>)>
        ensures refused { Judges (switch_cause (length switch.first.plan.slots) periods room) (new_refusal result) }
        ensures represents { IfOk result (Represents empty_history) }
        ensures schedule { IfOk result (λ m. m.schedule
            ≡ record {
              description = switch.first.description;
              schedule = switched switch.first.plan.slots periods switch.second.slots;
            }) }
        ensures capacity { IfOk result (λ m. m.capacity ≡ room) }
        ensures handed_back { IfErr result (λ e. e.1 ≡ switch) }
    {
        if !room.is_room() {
            return Err((NewError::Capacity, switch));
        }
        if !is_periods(switch.first().plan().slots().len(), periods) {
            return Err((NewError::Periods, switch));
        }
        let Ok(queues) = first_queues(&alloc, switch.first().description(), room) else {
            return Err((NewError::Memory, switch));
        };
        let Ok(carousels) = first_carousels(&alloc, switch.first().description()) else {
            return Err((NewError::Memory, switch));
        };
        let schedule = CheckedSchedule::switched(switch, periods);
        Ok(begun(schedule, queues, carousels, room))
    }
}

// Returns a multiplexer before slot 0.
fn begun<A: Allocator>(
    schedule: CheckedSchedule<A>,
    queues: Vec<UnitQueue<A>, A>,
    carousels: Vec<TableCarousel, A>,
    capacity: Room,
) -> Mux<A>
    requires ranges { IsInRange schedule.description }
    requires promised { Promised schedule.description schedule.schedule }
    requires queues { queues.items ≡ map (first_queue schedule.description capacity) schedule.description.streams }
    requires carousels { carousels.items ≡ first_carousels schedule.description 0 (table_count schedule.description) }
    ensures represents { Represents empty_history result }
    ensures schedule { result.schedule ≡ schedule }
    ensures capacity { result.capacity ≡ capacity }
{
    Mux {
        schedule,
        texts: TextsInForce {
            changed: None,
            sent: [false; 131],
        },
        queues,
        carousels,
        capacity,
        slots: 0,
    }
}

// Returns whether the first plan, of this period, may run for this number of periods.
pub(crate) fn is_periods(period: usize, periods: u64) -> bool
    ensures { result ≡ is_periods period periods }
{
    1 <= periods && u128::from(periods) * period as u128 <= u128::from(MAX_SLOTS)
}

/// Returns the declaration of a stream.
pub(crate) fn parameters_of(
    description: &Description,
    stream: &StreamDescription,
) -> StreamParameters
    ensures { result ≡ parameters_of description.now stream.now }
{
    StreamParameters {
        rate: description.rate(),
        base0: description.base0(),
        pid: stream.pid,
        stream_id: stream.stream_id,
        lead: stream.lead,
        interval: stream.interval,
        pts_limit: stream.pts_limit,
        size: stream.size,
        allowance: stream.allowance,
    }
}

// Returns a queue for each stream.
fn first_queues<A: Allocator + Clone>(
    alloc: &A,
    description: &Description,
    capacity: Room,
) -> Result<Vec<UnitQueue<A>, A>, AllocError>
    ensures { IfOk result (λ queues. queues.items
        ≡ map (first_queue description.now capacity) description.now.streams) }
{
    description.keeps_ranges();
    let mut queues = Vec::new(alloc.clone()?);
    for stream in description.streams() {
        let parameters = parameters_of(description, stream);
        let units = capacity.units_of(stream);
        queues.push(UnitQueue::new(alloc.clone()?, parameters, units)?)?;
    }
    Ok(queues)
}

// Returns a carousel for each table.
fn first_carousels<A: Allocator + Clone>(
    alloc: &A,
    description: &Description,
) -> Result<Vec<TableCarousel, A>, AllocError>
    ensures { IfOk result (λ carousels. carousels.items ≡ first_carousels description.now 0
        (table_count description.now)) }
{
    let mut carousels = Vec::new(alloc.clone()?);
    for table in 0..description.tables() {
        carousels.push(first_carousel(description, table))?;
    }
    Ok(carousels)
}

// Returns the carousel of a table before slot 0.
fn first_carousel(description: &Description, table: usize) -> TableCarousel
    requires { table < table_count description.now }
    ensures { result ≡ first_carousel description.now table }
{
    description.keeps_ranges();
    let lengths = description.section_lengths(table);
    TableCarousel::new(
        description.table_pid(table),
        description.rate(),
        description.start(),
        &lengths,
    )
}
