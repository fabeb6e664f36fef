//! A line-up that takes the place of the one in force.

ghost use Rattle.std.specs.Prelude.{◌≡◌, ◌<◌, ◌-◌, ◌+◌, ◌^◌, ◌++◌, ℕ, List, Option, None, Ok, IfOk, OnOk, OnErr};
ghost use Rattle.counted_io.specs.Device.{Failed};
ghost use Rattle.pes_packet.specs.AccessUnits.{AccessUnit};
ghost use Rattle.on_air.specs.Airing.{Run, Air};
ghost use Rattle.on_air.specs.AirStates.{IsOnAir};
ghost use Rattle.on_air.specs.Hearing.{CountsTaken, IsNearLineUp, RefusesLineUp, TakesOverFrom, TakesUnit};
ghost use Rattle.on_air.specs.LineUps.{line_up_in, over_error, pids_gone, returned_pid};

use crate::airing::OnAir;
use crate::answers::Verdict;
use crate::beginning::numbers_of;
use crate::gone::{gone_after, returned_pid};
use crate::line_up::{LineUpError, NewLineUp, read_line_up};
use crate::refusals::{AirRefusal, LineUpRefusal};
use counted_io::Sink;
use description::Description;
use mux_core::{OutputFault, TakeOverError};
use pes_packet::Unit;
use plan_checker::CheckedPlan;
use std::alloc::Global;

// Returns why a multiplexer refused a line-up.
fn over_error(error: TakeOverError) -> LineUpError
    ensures { result ≡ over_error error }
{
    match error {
        TakeOverError::Memory => LineUpError::Memory,
        TakeOverError::Fault(fault) => LineUpError::Refused(LineUpRefusal::Fault(fault)),
        TakeOverError::Waiting(pid) => LineUpError::Refused(LineUpRefusal::Waiting(pid)),
    }
}

impl OnAir {
    // Judges the line-up of a record that is not too far ahead.
    pub(crate) fn take_line_up<W: Sink>(
        &mut self,
        alloc: Global,
        stream: u8,
        unit: Unit,
        to: &mut W,
    ) -> Result<Verdict, OutputFault>
        requires { self.old.records < 2 ^ 64 - 1 }
        ensures takes { (run : Run) (a : Air) (start : Option (List ℕ)) →
            IsOnAir run a start (W.contents to.old) self.old → IsNearLineUp run a (stream, unit) →
            TakesUnit run a (stream, unit) start (W.contents to.new) result self.new }
        ensures records { IfOk result (CountsTaken self.old.records self.new.records) }
        ensures clean { OnOk result (W.fault_count to.new ≡ W.fault_count to.old) }
        ensures fault { OnErr result (Failed (W.fault_count to.old) (W.fault_count to.new)) }
    {
        let due = unit.dts;
        let read = read_line_up(alloc, &unit.bytes);
        drop(unit);
        match read {
            Ok(next) => self.line_up(alloc, next, due, to),
            Err(error) => Ok(self.refuse_line_up(error)),
        }
    }

    // Returns the answer about a line-up that does not come on air; counts its record if the line-up is refused.
    fn refuse_line_up(&mut self, error: LineUpError) -> Verdict
        requires { self.old.records < 2 ^ 64 - 1 }
        ensures takes { (run : Run) (a : Air) (entry : ℕ × AccessUnit) (start now : Option (List ℕ)) →
            IsOnAir run a start now self.old → IsNearLineUp run a entry → RefusesLineUp run a entry error →
            TakesUnit run a entry start now (Ok result) self.new }
        ensures records { CountsTaken self.old.records self.new.records result }
    {
        match error {
            LineUpError::Memory => Verdict::NoMemory,
            LineUpError::Refused(cause) => {
                self.records += 1;
                Verdict::RefusedFor(AirRefusal::LineUp(cause))
            }
        }
    }

    // Puts a line-up on air from the next slot on, and writes the slots that a DTS settles; an incomplete last part waits.
    fn line_up<W: Sink>(
        &mut self,
        alloc: Global,
        next: NewLineUp,
        due: u64,
        to: &mut W,
    ) -> Result<Verdict, OutputFault>
        requires texts { next.texts ≡ next.plan.description }
        requires records { self.old.records < 2 ^ 64 - 1 }
        ensures takes { (run : Run) (a : Air) (entry : ℕ × AccessUnit) (start : Option (List ℕ)) →
            IsOnAir run a start (W.contents to.old) self.old → IsNearLineUp run a entry → due ≡ entry.1.dts →
            line_up_in entry.1.bytes ≡ Ok next.plan →
            TakesUnit run a entry start (W.contents to.new) result self.new }
        ensures records { IfOk result (CountsTaken self.old.records self.new.records) }
        ensures clean { OnOk result (W.fault_count to.new ≡ W.fault_count to.old) }
        ensures fault { OnErr result (Failed (W.fault_count to.old) (W.fault_count to.new)) }
    {
        match self.take_over(alloc, next) {
            Err(error) => Ok(self.refuse_line_up(error)),
            Ok(slot) => match self.tick(due, to) {
                Ok(()) => Ok(Verdict::LineUpFrom(slot)),
                Err(fault) => Err(fault),
            },
        }
    }

    // Puts a line-up on air from the next slot on, and returns this slot.
    fn take_over(&mut self, alloc: Global, next: NewLineUp) -> Result<u64, LineUpError>
        requires { next.texts ≡ next.plan.description }
        ensures takes { (run : Run) (a : Air) (entry : ℕ × AccessUnit) (start now : Option (List ℕ)) →
            IsOnAir run a start now self.old → IsNearLineUp run a entry → line_up_in entry.1.bytes ≡ Ok next.plan →
            TakesOverFrom run a entry next.plan start now result self.new }
        ensures records { self.new.records ≡ self.old.records }
    {
        let NewLineUp { plan, texts } = next;
        match returned_pid(&self.gone, &texts) {
            None => {}
            Some(pid) => {
                drop(plan);
                drop(texts);
                return Err(LineUpError::Refused(LineUpRefusal::Returned(pid)));
            }
        }
        let Ok(gone) = gone_after(alloc, &self.gone, self.mux.description(), &texts) else {
            drop(plan);
            drop(texts);
            return Err(LineUpError::Memory);
        };
        self.exchange(plan, texts, gone)
    }

    // The same when the PIDs that will have gone are known.
    fn exchange(
        &mut self,
        plan: CheckedPlan,
        texts: Description,
        gone: Vec<u16>,
    ) -> Result<u64, LineUpError>
        requires { texts ≡ plan.description }
        ensures takes { (run : Run) (a : Air) (entry : ℕ × AccessUnit) (start now : Option (List ℕ)) →
            IsOnAir run a start now self.old → IsNearLineUp run a entry → line_up_in entry.1.bytes ≡ Ok plan →
            returned_pid a.before.gone plan.description ≡ None →
            gone.items ≡ a.before.gone ++ pids_gone run.scheduled.description plan.description →
            TakesOverFrom run a entry plan start now result self.new }
        ensures records { self.new.records ≡ self.old.records }
    {
        // A run of two plans takes no line-up.
        if !self.mux.has_one_plan() {
            drop(plan);
            drop(texts);
            drop(gone);
            return Err(LineUpError::Memory);
        }
        let slot = self.mux.now();
        let of = numbers_of(plan.description(), self.terms);
        plan.description().keeps_ranges();
        slot_plan::timing_laws::accepted_plan();
        match self.mux.take_over(plan, texts) {
            Ok(()) => {
                self.rate = of.rate;
                self.lead = of.lead;
                self.gone = gone;
                Ok(slot)
            }
            Err(error) => {
                drop(gone);
                Err(over_error(error))
            }
        }
    }
}
