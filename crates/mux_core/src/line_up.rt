//! A description and a plan that take the place of those on air.

ghost use Rattle.std.specs.Prelude.{◌≡◌, ◌<◌, ℕ, true, false, None, is_none, is_some, OnOk, OnErr, IfOk, IfSome, find, length, option_and_then, slice_index_or};
ghost use Rattle.std.specs.List.{range_with_len};
ghost use Rattle.description_parts.specs.Tables.{table_kinds};
ghost use Rattle.line_ups.specs.Faults.{line_up_fault};
ghost use Rattle.line_ups.specs.Versions as versions;
ghost use Rattle.mux_core.specs.Exchanges.{IsEach};
ghost use Rattle.mux_core.specs.Histories.{History};
ghost use Rattle.mux_core.specs.MuxStates.{Represents};
ghost use Rattle.mux_core.specs.SlotSteps.{moment_of_events, texts_in};
ghost use Rattle.description_parts.specs.Ranges.{IsInRange};
ghost use Rattle.slot_plan.specs.Promised.{Promised};
ghost use Rattle.mux_core.specs.LineUps.{TakesOver, UntouchedOver, SilentBefore, WholeGone, scheduled_by, served_by, pid_at, take_over_refusal};
ghost use Rattle.mux_core.specs.LineUpSteps as steps;

use crate::checked_schedule::CheckedSchedule;
use crate::line_up_parts::{LineUpParts, kept_carousels, kept_queues, line_up_parts};
use crate::multiplexer::Mux;
use crate::texts_in_force::TextsInForce;
use line_ups::{LineUpFault, follow_versions, is_gone, line_up_fault};
use plan_checker::CheckedPlan;
use slot_plan::Description;
use std::alloc::{AllocError, Allocator};
use std::mem;
use thiserror::Error;

/// Why a description and a plan do not take the place of those on air. The first that holds is given.
#[derive(Clone, Copy, Debug, PartialEq, Eq, Error)]
pub enum TakeOverError {
    /// The line-up has a fault beside the one on air.
    #[error("{0}")]
    Fault(LineUpFault),
    /// A stream goes although a unit of it waits: its PID.
    #[error("units of PID {0} wait, and its stream goes")]
    Waiting(u16),
    /// There is no memory for the units of the streams that come.
    #[error("there is no memory for the units of the streams that come")]
    Memory,
}

impl<A: Allocator> Mux<A> {
    /// Returns the description that the plan serves.
    pub fn description(&self) -> &Description
        ensures { result.now ≡ self.now.schedule.description }
    {
        self.schedule.description()
    }

    // Returns the plan with its description, if there is no second plan.
    fn plan(&self) -> Option<&CheckedPlan<A>>
        ensures alone { is_some result ≡ is_none self.now.schedule.schedule.following }
        ensures plan { IfSome result (λ plan. self.now.schedule ≡ scheduled_by plan.now) }
    {
        self.schedule.plan()
    }

    /// Returns whether there is no second plan.
    pub fn has_one_plan(&self) -> bool
        ensures { result ≡ is_none self.now.schedule.schedule.following }
    {
        self.schedule.plan().is_some()
    }

    // Returns whether a stream goes although a unit of it waits.
    fn leaves_waiting(&self, next: &Description, stream: usize) -> bool
        requires { stream < length self.now.schedule.description.streams }
        ensures { result ≡ steps.leaves_waiting self.now next.now stream }
    {
        if !is_gone(self.schedule.description(), next, stream) {
            return false;
        }
        match self.queues.get(stream) {
            None => false,
            Some(queue) => queue.waiting() > 0,
        }
    }

    // Returns the number of the first such stream.
    fn first_waiting(&self, next: &Description) -> Option<usize>
        ensures { result ≡ find (steps.leaves_waiting self.now next.now)
            (range_with_len 0 (length self.now.schedule.description.streams)) }
    {
        for number in 0..self.description().streams().len() {
            if self.leaves_waiting(next, number) {
                return Some(number);
            }
        }
        None
    }

    // Returns the PID of the first such stream.
    fn left_pid(&self, next: &Description) -> Option<u16>
        ensures { result ≡ steps.left_pid self.now next.now }
    {
        let Some(number) = self.first_waiting(next) else {
            return None;
        };
        match self.schedule.description().streams().get(number) {
            None => None,
            Some(stream) => Some(stream.pid),
        }
    }

    // Returns why a line-up may not take the place of the one on air, which has one plan.
    fn cause_of_line_up(&self, next: &CheckedPlan<A>) -> Option<TakeOverError>
        requires { is_none self.now.schedule.schedule.following ≡ true }
        ensures { result ≡ steps.cause_by self.now next.now }
    {
        let Some(plan) = self.plan() else {
            unreachable!()
        };
        if let Some(fault) = line_up_fault(plan, next) {
            return Some(TakeOverError::Fault(fault));
        }
        match self.left_pid(next.description()) {
            None => None,
            Some(pid) => Some(TakeOverError::Waiting(pid)),
        }
    }

    // States what stays if the new line-up has no fault.
    fn keeps_what_stays(&self, next: &CheckedPlan<A>)
        requires { is_none self.now.schedule.schedule.following ≡ true }
        ensures { line_up_fault (served_by self.now.schedule) next.now ≡ None → steps.KeptOver self.now.schedule next.now }
    {
        line_ups::laws::kept();
        let Some(plan) = self.plan() else {
            unreachable!()
        };
        plan.description().keeps_ranges();
        next.description().keeps_ranges();
        let _ = plan.plan();
        let _ = next.plan();
    }

    // Returns texts with the versions that follow those that were sent.
    fn followed(&self, texts: Description) -> Description
        ensures { result ≡ versions.follow_versions self.now.texts texts (moment_of_events self.now)
            (λ n. slice_index_or self.now.sent n false) }
    {
        follow_versions(
            self.texts(),
            texts,
            self.moment_of_events(),
            &self.texts.sent,
        )
    }

    // Puts a schedule and what belongs to it in the place of those before.
    fn put_parts(
        &mut self,
        schedule: CheckedSchedule<A>,
        texts: TextsInForce,
        parts: LineUpParts<A>,
    )
        requires ranges { IsInRange schedule.description }
        requires promised { Promised schedule.description schedule.schedule }
        ensures { self.new ≡ record {
          schedule = schedule;
          texts = texts_in texts.changed schedule.description;
          sent = texts.sent;
          queues = parts.queues.items;
          carousels = parts.carousels.items;
          capacity = self.old.capacity;
          slots = self.old.slots;
        } }
    {
        drop(mem::replace(&mut self.schedule, schedule));
        drop(mem::replace(&mut self.texts, texts));
        drop(mem::replace(&mut self.queues, parts.queues));
        drop(mem::replace(&mut self.carousels, parts.carousels));
    }

    // Puts the new line-up in force: new queues and carousels, and those of what stays in their places.
    fn put_line_up(&mut self, plan: CheckedPlan<A>, texts: Description, parts: LineUpParts<A>)
        requires queues { IsEach (steps.fresh_queue self.old.schedule.description plan.description self.old.capacity)
            plan.description.streams parts.queues.items }
        requires carousels { IsEach (steps.made_carousel plan self.old.slots) (table_kinds plan.description)
            parts.carousels.items }
        ensures { steps.PutOver self.old plan texts parts.queues.items parts.carousels.items self.new }
    {
        let texts = self.followed(texts);
        let old = self.schedule.description();
        let queues = kept_queues(parts.queues, &mut self.queues, old, plan.description());
        let carousels = kept_carousels(
            parts.carousels,
            &mut self.carousels,
            old,
            plan.description(),
        );
        let texts = TextsInForce {
            changed: Some(texts),
            sent: [self.slots > 0; 131],
        };
        let parts = LineUpParts { queues, carousels };
        self.put_parts(CheckedSchedule::single(plan), texts, parts);
    }
}

impl<A: Allocator + Clone> Mux<A> {
    /// Puts a description and its plan in the place of those on air, which have one plan, from the next slot on. What
    /// stays keeps its slots, its units and the sections that are under way. `texts` is the same description once more:
    /// it gets the versions that follow those that were sent. If there is a cause, or no memory, nothing changes.
    pub fn take_over(
        &mut self,
        plan: CheckedPlan<A>,
        texts: Description,
    ) -> Result<(), TakeOverError>
        requires texts { texts ≡ plan.description }
        requires one_plan { is_none self.old.schedule.schedule.following ≡ true }
        ensures takes { (h : History) → Represents h self.old →
            TakesOver h self.old plan (take_over_refusal result) self.new }
        ensures untouched { (h : History) → Represents h self.old →
            OnOk result (UntouchedOver self.old.schedule h plan) }
        ensures silent { (h : History) → Represents h self.old → OnOk result (SilentBefore self.old.schedule h plan) }
        ensures gone { (h : History) → Represents h self.old →
            OnOk result (WholeGone self.old.schedule h plan.description) }
        ensures refused { OnErr result (self.new ≡ self.old) }
    {
        line_ups::laws::followed();
        plan.description().keeps_ranges();
        self.keeps_what_stays(&plan);
        if let Some(cause) = self.cause_of_line_up(&plan) {
            return Err(cause);
        }
        let Ok(parts) = self.new_parts(&plan) else {
            return Err(TakeOverError::Memory);
        };
        self.put_line_up(plan, texts, parts);
        Ok(())
    }

    // Returns what is made for a new line-up.
    fn new_parts(&self, next: &CheckedPlan<A>) -> Result<LineUpParts<A>, AllocError>
        ensures queues { IfOk result (λ parts. IsEach
            (steps.fresh_queue self.now.schedule.description next.now.description self.now.capacity)
            next.now.description.streams parts.queues.items) }
        ensures carousels { IfOk result (λ parts. IsEach (steps.made_carousel next.now self.now.slots)
            (table_kinds next.now.description) parts.carousels.items) }
    {
        line_up_parts(
            self.queues.allocator(),
            self.schedule.description(),
            next,
            self.capacity,
            self.slots,
        )
    }
}
