//! One stream of a description.

ghost use Rattle.std.specs.Prelude.{◌≡◌, ◌≤◌, ◌<◌, ◌^◌, ◌&&◌, ◌||◌, not, IfOk, IfSome, OnOk, None, false, is_some};
ghost use Rattle.std.specs.Prelude.{true};
ghost use Rattle.demux.specs.Laws.{has_pid};
ghost use Rattle.pid_findings.specs.Shown.{finding_view};
ghost use Rattle.es_units.specs.ApartSteps as apart;
ghost use Rattle.es_units.specs.CarriedUnits as units;
ghost use Rattle.es_units.specs.UnitSteps.{ended_unit, none_so_far, start_of};
ghost use Rattle.fed_streams.specs.Feeding as spec;
ghost use Rattle.fed_streams.specs.Origins.{IsOrigin};
ghost use Rattle.fed_streams.specs.Ticks as ticks;

use crate::due::Due;
use crate::feed_fault::{CutCause, CutUnits, FeedFault, Loss};
use crate::moments::feed;
use crate::origin::Origin;
use es_moments::{WireUnit, dts_at};
use es_units::{UnitTaker, place_past, set_apart};
use pes_packet::Unit;
use pid_findings::{Finding, Kind, What};
use std::alloc::{AllocError, Global};
use std::marker::Model;

/// A stream: its number, its PID, its current unit, the DTS of its last unit, whether its units follow one another, and
/// how many units with the DTS of the current unit come before that unit in a row, counted up to 63.
#[derive(Drop)]
pub struct FedStream {
    number: u8,
    pid: u16,
    before: Option<u64>,
    taker: UnitTaker,
    follow: bool,
    stray: bool,
    place: u8,
}

/// What a finding of a stream feeds.
#[derive(Drop)]
pub struct FedFound {
    /// The unit that it makes whole at its moment, or why it can't have one.
    pub unit: Option<(u8, Result<Unit, FeedFault>)>,
    /// The packet where that unit begins, and its DTS as its header has it.
    pub start: Option<(u64, u64)>,
    /// The report on it.
    pub reported: Option<(u8, Result<Unit, FeedFault>)>,
}

// A contract sees the stream's state; its PID is the PID of its units.
impl Model for FedStream {
    ghost use Rattle.std.specs.Prelude.{◌≡◌, ◌≤◌, ◌^◌, IfSome};
    ghost use Rattle.fed_streams.specs.Feeding.{FedStreamView};

    ghost Value = { FedStreamView };

    ghost view = { λ s. record { number = s.number; before = s.before; units = s.taker; follow = s.follow; stray = s.stray; place = s.place } };

    ghost invariant = { λ s. (s.taker.pid ≡ s.pid) × IfSome s.before (λ dts. dts ≤ 2 ^ 52) × (s.place ≤ 63) };
}

// Returns the loss of packets before a finding, if there is one.
#[tactic(auto, unfolding(crate::specs::Feeding::lost_by))]
fn loss_of(finding: &Finding<'_>) -> Option<Loss>
    ensures { result ≡ spec.lost_by (finding_view finding.now).packet (finding_view finding.now).what }
{
    match &finding.what {
        What::CounterBreak { expected, found } => Some(Loss {
            packet: finding.packet,
            expected: *expected,
            found: *found,
        }),
        _ => None,
    }
}

// Padding_stream (ISO/IEC 13818-1, table 2-22).
const PADDING_STREAM: u8 = 0xbe;

// What a finding is, where it is neither lost packets nor ignored among units.
#[tactic(auto, unfolding(crate::specs::Feeding::cause_of))]
fn cause_of(finding: &Finding<'_>) -> Option<CutCause>
    ensures { result ≡ spec.cause_of (finding_view finding.now).what }
{
    match &finding.what {
        What::Scrambled => Some(CutCause::Scrambled),
        What::Truncated(_) => Some(CutCause::Truncated),
        What::Section(_) => Some(CutCause::Section),
        What::BadSection(_) => Some(CutCause::Section),
        What::Pes { header, .. } => {
            if header.id == PADDING_STREAM {
                return None;
            }
            Some(CutCause::NoPts)
        }
        What::BadPes(_) => Some(CutCause::BadPes),
        _ => None,
    }
}

// The packet of the finding's first byte.
#[tactic(auto, unfolding(es_units::specs::CarriedUnits::first_packet))]
fn first_packet(packet: u64, begun: Option<(u64, Kind)>) -> u64
    ensures { result ≡ units.first_packet packet begun }
{
    match begun {
        None => packet,
        Some((first, _)) => first,
    }
}

// The units that a finding cuts, if it may cut some.
#[tactic(auto, unfolding(crate::specs::Feeding::cut_at))]
fn cut_of(cuts: bool, finding: &Finding<'_>) -> Option<CutUnits>
    ensures { result ≡ spec.cut_by cuts (finding_view finding.now) }
{
    if !cuts {
        return None;
    }
    match cause_of(finding) {
        None => None,
        Some(cause) => Some(CutUnits {
            packet: first_packet(finding.packet, finding.begun),
            cause,
        }),
    }
}

// Returns the packet of a finding, if its payload is in no PES packet and this is the first of such packets.
#[tactic(auto, unfolding(crate::specs::Feeding::stray_by))]
fn stray_of(first: bool, finding: &Finding<'_>) -> Option<u64>
    ensures { result ≡ spec.stray_by first (finding_view finding.now).packet (finding_view finding.now).what }
{
    match &finding.what {
        What::Stray(_) => {
            if first {
                return Some(finding.packet);
            }
            None
        }
        _ => None,
    }
}

// Returns whether payload in no PES packet has come after the last PES packet.
#[tactic(auto, unfolding(crate::specs::Feeding::stray_after))]
fn stray_after(stray: bool, finding: &Finding<'_>) -> bool
    ensures { result ≡ spec.stray_after stray (finding_view finding.now).what }
{
    match &finding.what {
        What::Stray(_) => true,
        What::Pes { .. } => false,
        _ => stray,
    }
}

// Returns the report on a finding that may cut units or not, and may be the first stray payload or not.
#[tactic(auto, unfolding(crate::specs::Feeding::fault_by))]
fn fault_of(cuts: bool, first: bool, finding: &Finding<'_>) -> Option<FeedFault>
    ensures { result ≡ spec.fault_by (spec.lost_by (finding_view finding.now).packet (finding_view finding.now).what)
        (spec.cut_by cuts (finding_view finding.now))
        (spec.stray_by first (finding_view finding.now).packet (finding_view finding.now).what) }
{
    match loss_of(finding) {
        Some(loss) => Some(FeedFault::Lost(loss)),
        None => match cut_of(cuts, finding) {
            Some(cut) => Some(FeedFault::Cut(cut)),
            None => match stray_of(first, finding) {
                Some(packet) => Some(FeedFault::Stray(packet)),
                None => None,
            },
        },
    }
}

// The packet where a unit begins, and its DTS as its header has it.
#[tactic(auto, unfolding(es_units::specs::UnitSteps::start_of))]
fn start_of(whole: &Option<WireUnit>) -> Option<(u64, u64)>
    ensures { result ≡ start_of whole.now }
{
    match whole {
        None => None,
        Some(unit) => Some((unit.packet, unit.dts)),
    }
}

// Returns the report on the stream with a number.
#[tactic(auto, unfolding(crate::specs::Feeding::fault_fed))]
fn fault_fed(number: u8, fault: Option<FeedFault>) -> Option<(u8, Result<Unit, FeedFault>)>
    ensures { result ≡ spec.fault_fed number fault }
{
    match fault {
        None => None,
        Some(fault) => Some((number, Err(fault))),
    }
}

impl FedStream {
    /// Returns a stream of a PID before its first unit, with its number in the description. Of a unit after which
    /// something is lost a part may be, so it is left out.
    pub fn new(number: u8, pid: u16) -> FedStream
        ensures { result ≡ record { number = number; before = None; units = none_so_far pid true; follow = false; stray = false; place = 0 } }
    {
        FedStream {
            number,
            pid,
            before: None,
            taker: UnitTaker::new(pid, true),
            follow: false,
            stray: false,
            place: 0,
        }
    }

    /// Returns its PID.
    pub fn pid(&self) -> u16
        ensures { result ≡ self.now.units.pid }
    {
        self.pid
    }

    /// Returns whether a finding is of its PID.
    #[tactic(auto, unfolding(crate::specs::Feeding::place_from))]
    pub fn is_of(&self, pid: Option<u16>) -> bool
        ensures { result ≡ has_pid self.now.units.pid pid }
    {
        match pid {
            None => false,
            Some(pid) => pid == self.pid,
        }
    }

    // Returns whether a unit is unfinished.
    #[tactic(auto, unfolding(es_units::specs::UnitSteps::start_of))]
    fn is_under_way(&self) -> bool
        ensures { result ≡ is_some self.now.units.unit }
    {
        self.taker.under_way().is_some()
    }

    // Returns the report on a finding that was taken, and keeps whether units follow one another after it.
    fn found_fault(&mut self, finding: &Finding<'_>) -> Option<FeedFault>
        ensures reported { result
            ≡ spec.fault_by (spec.lost_by (finding_view finding.now).packet (finding_view finding.now).what)
            (spec.cut_by (self.old.follow && not (is_some self.old.units.unit)) (finding_view finding.now))
            (spec.stray_of self.old (finding_view finding.now)) }
        ensures follow { self.new ≡ record self.old {
          follow
              = is_some self.old.units.unit || (self.old.follow && not (is_some result));
          stray = spec.stray_after self.old.stray (finding_view finding.now).what;
        } }
    {
        let is_under_way = self.is_under_way();
        let first = self.follow && !self.stray;
        let fault = fault_of(self.follow && !is_under_way, first, finding);
        self.follow = is_under_way || (self.follow && fault.is_none());
        self.stray = stray_after(self.stray, finding);
        fault
    }

    // A finding was taken that makes this unit whole, if it does: the unit with a DTS of its own.
    fn set_apart(&mut self, made: Option<WireUnit>) -> Option<WireUnit>
        ensures unit { result ≡ apart.set_apart (apart.is_same_after made self.old.units.unit) self.old.place made }
        ensures stream { self.new ≡ record self.old {
          place
              = apart.place_past (apart.is_same_after made self.old.units.unit) self.old.place made;
        } }
    {
        let same = self.taker.is_same_after(&made);
        let place = self.place;
        self.place = place_past(same, place, &made);
        set_apart(same, place, made)
    }

    /// Takes a finding, and returns the unit that it makes whole at its moment, or why the unit can't have one; and the
    /// report on the finding.
    pub fn take(
        &mut self,
        alloc: &Global,
        due: Due,
        origin: &mut Origin,
        finding: &Finding<'_>,
    ) -> Result<FedFound, AllocError>
        requires due { IfSome due.greatest (λ greatest. greatest ≤ 2 ^ 52) }
        requires origin { IsOrigin origin.old }
        ensures fed { IfOk result (λ fed. fed.unit
            ≡ spec.fed_by due origin.old self.old (spec.whole_by self.old (finding_view finding.now))) }
        ensures start { IfOk result (λ fed. fed.start ≡ start_of (spec.whole_by self.old (finding_view finding.now))) }
        ensures reported { IfOk result (λ fed. fed.reported ≡ spec.reported_fed self.old (finding_view finding.now)) }
        ensures stream { OnOk result (self.new ≡ spec.stream_with due origin.old
            (spec.after_found self.old (finding_view finding.now))
            (spec.whole_by self.old (finding_view finding.now))) }
        ensures origin { OnOk result (origin.new
            ≡ spec.origin_after due origin.old (spec.whole_by self.old (finding_view finding.now))) }
        ensures bound { IsOrigin origin.new }
    {
        let made = self.taker.take(alloc, finding)?;
        let whole = self.set_apart(made);
        let fault = self.found_fault(finding);
        let start = start_of(&whole);
        let unit = feed(self.number, &mut self.before, due, origin, whole);
        Ok(FedFound {
            unit,
            start,
            reported: fault_fed(self.number, fault),
        })
    }

    /// Returns the DTS of its last unit that was fed; 0 before the first.
    #[tactic(auto, unfolding(crate::specs::Feeding::dts_or_0))]
    pub fn last_dts(&self) -> u64
        ensures value { result ≡ spec.dts_or_0 self.now.before }
        ensures bound { result ≤ 2 ^ 52 }
    {
        match self.before {
            None => 0,
            Some(dts) => dts,
        }
    }

    // Returns when the unfinished unit is due, once its constant is fixed.
    #[tactic(auto, unfolding(crate::specs::Ticks::under_way_at, crate::specs::Ticks::due_at, es_units::specs::UnitSteps::start_of))]
    fn under_way(&self, origin: Origin) -> Option<u64>
        requires { IsOrigin origin }
        ensures { result ≡ ticks.under_way origin self.now }
    {
        let Some((packet, dts)) = self.taker.under_way() else {
            return None;
        };
        match origin.base_for(packet, dts) {
            None => None,
            Some(base) => Some(dts_at(base, self.before, dts)),
        }
    }

    /// Returns whether its unfinished unit is due by a moment, or would be if it were set apart from the next unit.
    #[tactic(auto, unfolding(crate::specs::Ticks::is_passed_by))]
    pub fn is_passed(&self, origin: Origin, late: u64) -> bool
        requires { IsOrigin origin }
        ensures { result ≡ ticks.is_passed origin late self.now }
    {
        match self.under_way(origin) {
            None => false,
            Some(due) => due.saturating_sub(63) <= late,
        }
    }

    /// Ends its current unit: at its moment, or why it can't have one.
    pub fn end(&mut self, due: Due, origin: &mut Origin) -> Option<(u8, Result<Unit, FeedFault>)>
        requires due { IfSome due.greatest (λ greatest. greatest ≤ 2 ^ 52) }
        requires origin { IsOrigin origin.old }
        ensures fed { result ≡ spec.fed_by due origin.old self.old (ended_unit false self.old.units.unit) }
        ensures stream { self.new ≡ spec.stream_with due origin.old (ticks.without_unit self.old)
            (ended_unit false self.old.units.unit) }
        ensures origin { origin.new ≡ spec.origin_after due origin.old (ended_unit false self.old.units.unit) }
        ensures bound { IsOrigin origin.new }
    {
        let whole = self.taker.end();
        self.place = place_past(false, self.place, &whole);
        feed(self.number, &mut self.before, due, origin, whole)
    }

    /// Ends the findings: returns the last unit at its moment, if there is one.
    pub fn finish(self, due: Due, origin: &mut Origin) -> Option<(u8, Result<Unit, FeedFault>)>
        requires due { IfSome due.greatest (λ greatest. greatest ≤ 2 ^ 52) }
        requires origin { IsOrigin origin.old }
        ensures fed { result ≡ spec.fed_by due origin.old self (ended_unit false self.units.unit) }
        ensures origin { origin.new ≡ spec.origin_after due origin.old (ended_unit false self.units.unit) }
        ensures bound { IsOrigin origin.new }
    {
        let mut before = self.before;
        feed(self.number, &mut before, due, origin, self.taker.finish())
    }
}
