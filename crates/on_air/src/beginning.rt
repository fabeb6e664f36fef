//! How a run begins: the one place where it takes memory of its own.

ghost use Rattle.std.specs.Prelude.{◌≡◌, ◌+◌, ℕ, List, [], Option, None, is_none, IfOk, IsTrue};
ghost use Rattle.mux_core.specs.Buffer.{waiting_of};
ghost use Rattle.mux_core.specs.NewMux.{Judges};
ghost use Rattle.mux_core.specs.Scheduled.{Scheduled};
ghost use Rattle.mux_core.specs.Histories.{empty_history};
ghost use Rattle.mux_core.specs.Rooms.{is_room};
ghost use Rattle.on_air.specs.Airing.{silence, greatest_lead, room_by};
ghost use Rattle.on_air.specs.AirStates.{Carries, IsOnAir, Promises, run_with, plan_run, switch_run, begin_refusal};
ghost use Rattle.on_air.specs.AirStates.{switch_refusal};

use crate::airing::OnAir;
use crate::leads::{greatest_lead, room_by};
use crate::leap::Leap;
use crate::options::Terms;
use clock27::Rate;
use mux_core::{Mux, NewError, PacketOutput, Room};
use plan_checker::CheckedPlan;
use slot_plan::Description;
use std::alloc::Allocator;
use switch_checker::CheckedSwitch;

impl<A: Allocator + Copy> OnAir<A> {
    /// Returns a run over a plan, before its first slot.
    #[tactic(auto, using(crate::proofs::FirstStates::room_judged))]
    pub fn new(
        alloc: A,
        plan: CheckedPlan<A>,
        terms: Terms,
        hex: bool,
    ) -> Result<OnAir<A>, NewError>
        ensures refused { Judges None (begin_refusal result) }
        ensures begun { (start : Option (List ℕ)) →
            IfOk result (IsOnAir (plan_run plan terms hex) silence start start) }
        ensures out { IfOk result (λ run. waiting_of run.packets ≡ []) }
    {
        let of = numbers_of(plan.description(), terms);
        plan.description().keeps_ranges();
        let _ = plan.plan();
        slot_plan::timing_laws::accepted_plan();
        match Mux::with_room(alloc, plan, of.room) {
            Ok(mux) => begun(alloc, mux, true, terms, of, hex),
            Err((cause, plan)) => {
                drop(plan);
                Err(cause)
            }
        }
    }

    /// Returns a run over two plans, the first for `periods` of its periods.
    #[tactic(auto, using(crate::proofs::FirstStates::switch_judged))]
    pub fn with_switch(
        alloc: A,
        switch: CheckedSwitch<A>,
        periods: u64,
        terms: Terms,
        hex: bool,
    ) -> Result<OnAir<A>, NewError>
        ensures refused { Judges (switch_refusal switch periods) (begin_refusal result) }
        ensures begun { (start : Option (List ℕ)) →
            IfOk result (IsOnAir (switch_run switch periods terms hex) silence start start) }
        ensures out { IfOk result (λ run. waiting_of run.packets ≡ []) }
    {
        let of = numbers_of(switch.first().description(), terms);
        switch.first().description().keeps_ranges();
        let _ = switch.first().plan();
        let _ = switch.second();
        slot_plan::timing_laws::accepted_switch();
        match Mux::with_switch_and_room(alloc, switch, periods, of.room) {
            Ok(mux) => begun(alloc, mux, false, terms, of, hex),
            Err((cause, switch)) => {
                drop(switch);
                Err(cause)
            }
        }
    }
}

// Numbers of a run.
#[derive(Clone, Copy)]
pub(crate) struct Numbers {
    pub(crate) rate: Rate,
    pub(crate) lead: u64,
    room: Room,
}

// Returns the numbers of a run over a description.
pub(crate) fn numbers_of(description: &Description, terms: Terms) -> Numbers
    ensures rate { result.rate ≡ description.now.rate }
    ensures lead { result.lead ≡ greatest_lead description.now.streams + terms.wait }
    ensures room { result.room ≡ room_by terms.room (greatest_lead description.now.streams + terms.wait) }
    ensures valid { IsTrue (is_room result.room) }
{
    let lead = u64::from(greatest_lead(description.streams())) + u64::from(terms.wait);
    Numbers {
        rate: description.rate(),
        lead,
        room: room_by(terms.room, lead),
    }
}

// Returns the run over a multiplexer before its first slot.
fn begun<A: Allocator + Copy>(
    alloc: A,
    mux: Mux<A>,
    one_plan: bool,
    terms: Terms,
    of: Numbers,
    hex: bool,
) -> Result<OnAir<A>, NewError>
    ensures memory { Judges None (begin_refusal result) }
    ensures begun { (d : Scheduled) (start : Option (List ℕ)) →
        Carries (run_with d terms hex) empty_history mux → Promises d →
        one_plan ≡ is_none d.schedule.following → of.rate ≡ d.description.rate → of.lead ≡ greatest_lead d.description.streams + terms.wait →
        IfOk result (IsOnAir (run_with d terms hex) silence start start) }
    ensures out { IfOk result (λ run. waiting_of run.packets ≡ []) }
{
    match PacketOutput::new(alloc, hex) {
        Ok(packets) => Ok(OnAir {
            mux,
            packets,
            terms,
            rate: of.rate,
            lead: of.lead,
            greatest: 0,
            leap: Leap::none(),
            records: 0,
            one_plan,
            gone: Vec::new(alloc),
        }),
        Err(_) => {
            drop(mux);
            Err(NewError::Memory)
        }
    }
}
