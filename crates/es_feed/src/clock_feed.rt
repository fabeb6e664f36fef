//! All streams of a description, clock reference by clock reference.

ghost use Rattle.std.specs.Prelude.{◌≡◌, ◌<◌, ◌++◌, OnOk, length};
ghost use Rattle.std.specs.Option.{option_to_list};
ghost use Rattle.fed_streams.specs.Ticks as spec;

use crate::unit_feed::{NO_STREAM, UnitFeed, push_fed};
use fed_streams::clock_jump::{
    ClockStep, earlier_after, origin_stepped, report_of, shown_after, step_of, timed_by,
    unless_doubtful,
};
use fed_streams::fed_map::clock_pid;
use fed_streams::fed_streams::{end_at, greatest_of, passed_place};
use fed_streams::late::late_of;
use fed_streams::{ClockJump, FeedFault};
use packet_pcr::FoundPcr;
use pes_packet::{Marks, Unit};
use std::alloc::{AllocError, Global};

// The latest DTS of a unit.
const LAST_DTS: u64 = 1 << 52;

// How long all streams may be silent without a report, in units of 90 kHz: 10 s.
const LONGEST_SILENCE: u64 = 900_000;

// How long after the greatest DTS so far a clock continues that jumped, in units of 90 kHz: 0.3 s, without units of
// any stream.
const JUMP_PAUSE: u64 = 27_000;

// Returns the report on a clock, if it jumps.
#[tactic(auto, unfolding(fed_streams::specs::Ticks::jump_fed))]
fn reported_jump(jump: Option<ClockJump>) -> Option<(u8, Result<Unit, FeedFault>)>
    ensures { result ≡ spec.jump_fed jump }
{
    match jump {
        None => None,
        Some(jump) => Some((NO_STREAM, Err(FeedFault::Clock(jump)))),
    }
}

// A tick.
fn tick(alloc: &Global, moment: u64) -> (u8, Result<Unit, FeedFault>)
    ensures { result ≡ spec.tick moment }
{
    let unit = Unit {
        dts: moment,
        pts: moment,
        marks: Marks::NONE,
        bytes: Vec::new(*alloc),
    };
    (NO_STREAM, Ok(unit))
}

impl UnitFeed {
    // Returns the report on a silence, if a tick ends its first 10 s.
    fn reported_silence(&self, late: u64) -> Option<(u8, Result<Unit, FeedFault>)>
        ensures { option_to_list result ≡ spec.silence self.now late }
    {
        let last = greatest_of(0, &self.streams);
        if self.ticked <= last + LONGEST_SILENCE && last + LONGEST_SILENCE < late {
            return Some((NO_STREAM, Err(FeedFault::Silent(last))));
        }
        None
    }

    // Feeds a tick, if it is later than all before.
    fn tick(
        &mut self,
        alloc: &Global,
        late: u64,
        fed: &mut Vec<(u8, Result<Unit, FeedFault>)>,
    ) -> Result<(), AllocError>
        ensures feed { OnOk result (self.new ≡ spec.after_tick self.old late) }
        ensures fed { OnOk result (fed.new.items ≡ fed.old.items ++ spec.fed_tick self.old late) }
    {
        if late <= self.greatest() || late > LAST_DTS {
            return Ok(());
        }
        push_fed(fed, self.reported_silence(late))?;
        self.ticked = late;
        fed.push(tick(alloc, late))?;
        Ok(())
    }

    // Feeds the unfinished unit of the stream at a place.
    fn end_at(
        &mut self,
        k: usize,
        fed: &mut Vec<(u8, Result<Unit, FeedFault>)>,
    ) -> Result<(), AllocError>
        requires { k < length self.old.streams }
        ensures feed { OnOk result (self.new ≡ spec.after_end self.old k) }
        ensures fed { OnOk result (fed.new.items ≡ fed.old.items ++ spec.fed_end self.old k) }
    {
        let due = self.due();
        let one = end_at(&mut self.streams, k, due, &mut self.origin);
        push_fed(fed, one)?;
        Ok(())
    }

    // Moves time to a second behind the clock: ends the first unfinished unit that is due by then, or feeds a tick.
    #[tactic(auto, unfolding(fed_streams::specs::Ticks::after_passed, fed_streams::specs::Ticks::fed_passed))]
    fn go_on(
        &mut self,
        alloc: &Global,
        late: u64,
        fed: &mut Vec<(u8, Result<Unit, FeedFault>)>,
    ) -> Result<(), AllocError>
        ensures feed { OnOk result (self.new ≡ spec.after_moment self.old late) }
        ensures fed { OnOk result (fed.new.items ≡ fed.old.items ++ spec.fed_moment self.old late) }
    {
        match passed_place(self.origin, late, &self.streams) {
            None => self.tick(alloc, late, fed),
            Some(k) => self.end_at(k, fed),
        }
    }

    // Returns how a reference fits the clock.
    fn step(&self, pcr: FoundPcr) -> ClockStep
        ensures { result ≡ spec.step_in self.now pcr }
    {
        step_of(self.shown, self.earlier, self.origin.doubtful, pcr)
    }

    // The clock shows a reference that fits it so, unless it is doubtful.
    fn show(&mut self, step: ClockStep, pcr: FoundPcr)
        requires { step ≡ spec.step_in self.old pcr }
        ensures { self.new ≡ spec.with_shown self.old pcr }
    {
        let moment = self.greatest() + JUMP_PAUSE;
        self.origin = origin_stepped(step, self.origin, self.shown, moment, pcr);
        self.earlier = earlier_after(step, self.shown, self.earlier);
        self.shown = shown_after(step, self.shown, pcr);
    }

    // Takes a reference of the clock.
    #[tactic(auto, unfolding(fed_streams::specs::Ticks::after_late, fed_streams::specs::Ticks::fed_late))]
    fn take_shown(
        &mut self,
        alloc: &Global,
        pcr: FoundPcr,
        fed: &mut Vec<(u8, Result<Unit, FeedFault>)>,
    ) -> Result<(), AllocError>
        ensures feed { OnOk result (self.new ≡ spec.after_shown self.old pcr) }
        ensures fed { OnOk result (fed.new.items ≡ fed.old.items ++ spec.fed_shown self.old pcr) }
    {
        let step = self.step(pcr);
        push_fed(fed, reported_jump(report_of(step, self.shown, pcr)))?;
        let timed = timed_by(step, self.shown, self.earlier, pcr);
        self.show(step, pcr);
        let late = late_of(self.origin.now, self.greatest(), timed);
        match unless_doubtful(step, late) {
            None => Ok(()),
            Some(late) => self.go_on(alloc, late, fed),
        }
    }

    /// Takes a clock reference, unless it is on another PID than the clock's: appends to `fed` the report on the clock,
    /// then an unfinished unit that is due a second before the reference, or a tick.
    pub(crate) fn take_pcr(
        &mut self,
        alloc: &Global,
        pcr: FoundPcr,
        fed: &mut Vec<(u8, Result<Unit, FeedFault>)>,
    ) -> Result<(), AllocError>
        ensures feed { OnOk result (self.new ≡ spec.after_own self.old pcr) }
        ensures fed { OnOk result (fed.new.items ≡ fed.old.items ++ spec.fed_own self.old pcr) }
    {
        if !pcr.is_on(clock_pid(&self.maps)) {
            return Ok(());
        }
        self.take_shown(alloc, pcr, fed)
    }
}
