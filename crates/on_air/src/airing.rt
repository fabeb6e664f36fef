//! A run without end: its calls.

ghost use Rattle.std.specs.Prelude.{◌≡◌, ◌<◌, ◌≤◌, ◌-◌, ◌+◌, ◌^◌, ◌==◌, ◌&&◌, ℕ, List, [], Option, Some, true, IfOk, IfErr, OnOk, OnErr};
ghost use Rattle.counted_io.specs.Device.{Failed};
ghost use Rattle.mux_core.specs.Buffer.{waiting_of};
ghost use Rattle.pes_packet.specs.AccessUnits.{AccessUnit};
ghost use Rattle.on_air.specs.Airing.{Run, Air, air_cause, caught_up, ended, is_far_from, judged, on_to, settled_at, taken};
ghost use Rattle.on_air.specs.Airing.{texts_now, with_count};
ghost use Rattle.on_air.specs.AirStates.{IsOnAir, IsOut};
ghost use Rattle.on_air.specs.Courses.{Course};
ghost use Rattle.on_air.specs.Hearing.{Fails, Hears, IsNearChange, IsOn, TakesUnit, CountsRecord};
ghost use Rattle.on_air.specs.Hearing.{CountsRecords, CountsTaken, LetsOut, NamesDevice, HasHeard, HearsOn};

use crate::admission::admit;
use crate::answers::{Ending, Heard, Verdict};
use crate::leap::{Leap, is_far};
use crate::line_up::has_plan;
use crate::options::Terms;
use crate::refusals::{AirRefusal, FarRecord};
use crate::slots::{last_slot, settled, write_on};
use crate::waiting::holds_record;
use clock27::Rate;
use counted_io::Sink;
use description::Description;
use held_input::HeldInput;
use mux_core::{Mux, OutputFault, PacketOutput};
use pes_packet::Unit;
use std::alloc::{Allocator, Global};
use std::marker::Model;
use unit_records::read_unit;

/// The stream of records that bring texts or line-ups.
const CHANGES: u8 = 254;

/// A run without end. It takes its memory when it is made; a record takes memory for its unit's bytes, until the unit
/// is sent, and a line-up takes memory in place of the one before it.
#[derive(Drop)]
pub struct OnAir<A: Allocator = Global> {
    pub(crate) mux: Mux<A>,
    pub(crate) packets: PacketOutput<A>,
    pub(crate) terms: Terms,
    pub(crate) rate: Rate,
    pub(crate) lead: u64,
    pub(crate) greatest: u64,
    pub(crate) leap: Leap,
    pub(crate) records: u64,
    pub(crate) one_plan: bool,
    pub(crate) gone: Vec<u16, A>,
}

impl<A: Allocator> Model for OnAir<A> {
    ghost use Rattle.on_air.specs.AirStates.{AirState};

    ghost Value = { AirState };

    ghost view = { λ o. record {
      mux = o.mux;
      packets = o.packets;
      terms = o.terms;
      rate = o.rate;
      lead = o.lead;
      greatest = o.greatest;
      leap = o.leap;
      records = o.records;
      one_plan = o.one_plan;
      gone = o.gone.items;
    } };
}

impl<A: Allocator + Copy> OnAir<A> {
    /// Lets out what waits, unless the next record is whole in the bytes that the input holds, so that no read of it
    /// may wait.
    pub fn let_out<R: HeldInput, W: Sink>(
        &mut self,
        input: &R,
        to: &mut W,
    ) -> Result<(), OutputFault>
        ensures ok { (run : Run) (a : Air) (start : Option (List ℕ)) →
            IsOnAir run a start (W.contents to.old) self.old →
            OnOk result (IsOnAir run a start (W.contents to.new) self.new) }
        ensures err { (run : Run) (a : Air) (start : Option (List ℕ)) →
            IsOnAir run a start (W.contents to.old) self.old →
            IfErr result (λ fault. Fails run a start (W.contents to.new) fault.sent) }
        ensures out { OnOk result (IsOut (R.held input.now) self.new) }
        ensures records { self.new.records ≡ self.old.records }
        ensures clean { OnOk result (W.fault_count to.new ≡ W.fault_count to.old) }
        ensures fault { OnErr result (Failed (W.fault_count to.old) (W.fault_count to.new)) }
    {
        if holds_record(input.held()) {
            return Ok(());
        }
        self.flush(to)
    }

    /// Follows a refused record, if the refusal says so: writes the slots up to its time. Without units they are null
    /// packets, tables and clock references.
    ///
    /// After an `OutputFault` drop the run: nothing is promised of its contents.
    pub fn follow<W: Sink>(&mut self, refusal: AirRefusal, to: &mut W) -> Result<(), OutputFault>
        ensures ok { (run : Run) (a : Air) (start : Option (List ℕ)) →
            IsOnAir run a start (W.contents to.old) self.old →
            OnOk result (IsOnAir run (caught_up run a (Some refusal)) start (W.contents to.new) self.new) }
        ensures err { (run : Run) (a : Air) (start : Option (List ℕ)) →
            IsOnAir run a start (W.contents to.old) self.old →
            IfErr result (λ fault. Fails run (caught_up run a (Some refusal)) start (W.contents to.new) fault.sent) }
        ensures records { OnOk result (self.new.records ≡ self.old.records) }
        ensures clean { OnOk result (W.fault_count to.new ≡ W.fault_count to.old) }
        ensures fault { OnErr result (Failed (W.fault_count to.old) (W.fault_count to.new)) }
    {
        match refusal {
            AirRefusal::Followed { to: due, .. } => self.write_until(due, to),
            AirRefusal::Ahead(_) => Ok(()),
            AirRefusal::Feed(_) => Ok(()),
            AirRefusal::Texts(_) => Ok(()),
            AirRefusal::LineUp(_) => Ok(()),
        }
    }

    /// Ends the run: writes on to its last slot, to the last byte.
    ///
    /// After an `OutputFault` drop the run: nothing is promised of its contents.
    pub fn end<W: Sink>(&mut self, to: &mut W) -> Result<(), OutputFault>
        ensures ok { (run : Run) (a : Air) (start : Option (List ℕ)) →
            IsOnAir run a start (W.contents to.old) self.old →
            OnOk result (IsOnAir run (ended run a) start (W.contents to.new) self.new) }
        ensures err { (run : Run) (a : Air) (start : Option (List ℕ)) →
            IsOnAir run a start (W.contents to.old) self.old →
            IfErr result (λ fault. Fails run (ended run a) start (W.contents to.new) fault.sent) }
        ensures out { OnOk result (waiting_of self.new.packets ≡ []) }
        ensures clean { OnOk result (W.fault_count to.new ≡ W.fault_count to.old) }
        ensures fault { OnErr result (Failed (W.fault_count to.old) (W.fault_count to.new)) }
    {
        let target = last_slot(self.rate, self.terms, self.greatest);
        match write_on(&mut self.mux, target, &mut self.packets, to) {
            Ok(()) => self.flush(to),
            Err(fault) => Err(fault),
        }
    }

    /// Returns the number of records taken.
    pub fn records(&self) -> u64
        ensures { result ≡ self.now.records }
    {
        self.records
    }

    /// Returns the texts in force.
    pub fn texts(&self) -> &Description
        ensures { (run : Run) (a : Air) (start now : Option (List ℕ)) → IsOnAir run a start now self.now →
            result.now ≡ texts_now run a }
    {
        self.mux.texts()
    }

    // Returns whether records of a stream bring texts or line-ups.
    fn changes_run(&self, stream: u8) -> bool
        ensures { result ≡ (self.now.one_plan && (stream == 254)) }
    {
        self.one_plan && stream == CHANGES
    }

    // Writes what waits. Nothing waits then.
    fn flush<W: Sink>(&mut self, to: &mut W) -> Result<(), OutputFault>
        ensures ok { (run : Run) (a : Air) (start : Option (List ℕ)) →
            IsOnAir run a start (W.contents to.old) self.old →
            OnOk result (IsOnAir run a start (W.contents to.new) self.new) }
        ensures err { (run : Run) (a : Air) (start : Option (List ℕ)) →
            IsOnAir run a start (W.contents to.old) self.old →
            IfErr result (λ fault. Fails run a start (W.contents to.new) fault.sent) }
        ensures empty { waiting_of self.new.packets ≡ [] }
        ensures records { self.new.records ≡ self.old.records }
        ensures clean { OnOk result (W.fault_count to.new ≡ W.fault_count to.old) }
        ensures fault { OnErr result (Failed (W.fault_count to.old) (W.fault_count to.new)) }
    {
        self.packets.flush(to)
    }

    // Writes the slots that a DTS settles; an incomplete last part waits.
    fn write_until<W: Sink>(&mut self, due: u64, to: &mut W) -> Result<(), OutputFault>
        ensures ok { (run : Run) (a : Air) (start : Option (List ℕ)) →
            IsOnAir run a start (W.contents to.old) self.old →
            OnOk result (IsOnAir run (with_count a (on_to a.slots (settled_at run due))) start
            (W.contents to.new) self.new) }
        ensures err { (run : Run) (a : Air) (start : Option (List ℕ)) →
            IsOnAir run a start (W.contents to.old) self.old →
            IfErr result (λ fault. Fails run (with_count a (on_to a.slots (settled_at run due))) start
            (W.contents to.new) fault.sent) }
        ensures records { self.new.records ≡ self.old.records }
        ensures clean { OnOk result (W.fault_count to.new ≡ W.fault_count to.old) }
        ensures fault { OnErr result (Failed (W.fault_count to.old) (W.fault_count to.new)) }
    {
        let limit = self.terms.limit();
        let target = settled(self.rate, self.lead, limit, due);
        write_on(&mut self.mux, target, &mut self.packets, to)
    }

    // Counts a record, and writes the slots that its DTS settles; an incomplete last part waits.
    pub(crate) fn tick<W: Sink>(&mut self, due: u64, to: &mut W) -> Result<(), OutputFault>
        requires { self.old.records < 2 ^ 64 - 1 }
        ensures ok { (run : Run) (a : Air) (entry : ℕ × AccessUnit) (start : Option (List ℕ)) →
            IsOnAir run a start (W.contents to.old) self.old → due ≡ entry.1.dts →
            OnOk result (IsOnAir run (taken run a entry a.accepted a.changes) start (W.contents to.new) self.new) }
        ensures err { (run : Run) (a : Air) (entry : ℕ × AccessUnit) (start : Option (List ℕ)) →
            IsOnAir run a start (W.contents to.old) self.old → due ≡ entry.1.dts →
            IfErr result (λ fault. Fails run (taken run a entry a.accepted a.changes) start (W.contents to.new) fault.sent) }
        ensures records { OnOk result (self.new.records ≡ self.old.records + 1) }
        ensures clean { OnOk result (W.fault_count to.new ≡ W.fault_count to.old) }
        ensures fault { OnErr result (Failed (W.fault_count to.old) (W.fault_count to.new)) }
    {
        self.records += 1;
        self.leap = Leap::none();
        let greatest = self.greatest.max(due);
        self.greatest = greatest;
        self.write_until(due, to)
    }

    // Refuses a record that is too far ahead, and counts it among the records that leap.
    fn pass_over(&mut self, stream: u8, due: u64) -> AirRefusal
        requires { self.old.records < 2 ^ 64 - 1 }
        ensures passes { (run : Run) (a : Air) (entry : ℕ × AccessUnit) (start now : Option (List ℕ)) →
            IsOnAir run a start now self.old →
            stream ≡ entry.0 → due ≡ entry.1.dts → is_far_from run a entry ≡ true →
            (air_cause run a entry ≡ Some result) × IsOnAir run (judged run a entry) start now self.new }
        ensures records { self.new.records ≡ self.old.records + 1 }
    {
        self.records += 1;
        let leap = self.leap.with(self.terms.ahead, due);
        if !leap.is_followed() {
            self.leap = leap;
            return AirRefusal::Ahead(FarRecord {
                stream,
                from: self.greatest,
                to: due,
                ahead: self.terms.ahead,
            });
        }
        let packet = self.mux.now();
        let from = self.greatest;
        self.leap = Leap::none();
        self.greatest = due;
        AirRefusal::Followed {
            packet,
            from,
            to: due,
        }
    }
}

impl OnAir {
    /// Takes the next record: judges it, and writes the slots that it settles, to the last byte if a read of the
    /// record after it may wait. A refused record changes nothing; if the run follows it, `follow` writes the slots
    /// between. Texts are in force from the slot after these, a line-up from the next slot on, before these.
    pub fn hear<R: HeldInput, W: Sink>(
        &mut self,
        alloc: Global,
        input: &mut R,
        to: &mut W,
    ) -> Result<Heard, OutputFault>
        // Where a read may wait, nothing waits to be written.
        requires out { IsOut (R.held input.old) self.old }
        ensures out { IfOk result (LetsOut (R.held input.new) self.new) }
        ensures heard { (run : Run) (a : Air) (start : Option (List ℕ)) →
            IsOnAir run a start (W.contents to.old) self.old →
            Hears run a (R.remaining input.old) (R.remaining input.new) start (W.contents to.new) result self.new }
        ensures counts { IfOk result (CountsRecord self.old.records self.new.records) }
        ensures fault { NamesDevice result (R.fault_count input.old) (R.fault_count input.new)
            (W.fault_count to.old) (W.fault_count to.new) }
    {
        if self.mux.now() >= self.terms.limit() {
            return Ok(Heard::Ended(Ending::Slots));
        }
        if self.records == u64::MAX {
            return Ok(Heard::Ended(Ending::Records));
        }
        let index = self.records;
        match read_unit(alloc, input) {
            Ok(None) => Ok(Heard::Ended(Ending::Input)),
            Err(fault) => Ok(Heard::Ended(Ending::Unread(fault))),
            Ok(Some((stream, unit))) => match self.take(alloc, stream, unit, to) {
                Ok(Verdict::Accepted) => match self.let_out(input, to) {
                    Ok(()) => Ok(Heard::Taken),
                    Err(fault) => Err(fault),
                },
                Ok(Verdict::TextsFrom(slot)) => Ok(Heard::Changed { index, slot }),
                Ok(Verdict::LineUpFrom(slot)) => Ok(Heard::LinedUp { index, slot }),
                Ok(Verdict::RefusedFor(cause)) => Ok(Heard::Refused { index, cause }),
                Ok(Verdict::NoMemory) => Ok(Heard::Ended(Ending::TextsMemory)),
                Err(fault) => Err(fault),
            },
        }
    }

    /// Takes records up to a refused record, a change of the texts or of the line-up, or the end. Before a read that may
    /// wait it writes all settled slots.
    pub fn hear_on<R: HeldInput, W: Sink>(
        &mut self,
        alloc: Global,
        input: &mut R,
        to: &mut W,
    ) -> Result<Heard, OutputFault>
        ensures heard { (first : Run) (n : ℕ) (c : Course) (origin start : Option (List ℕ)) →
            IsOn c start (W.contents to.old) self.old → HasHeard first n c origin (R.remaining input.old) →
            HearsOn first c origin (R.remaining input.new) start (W.contents to.new) result self.new }
        ensures counts { IfOk result (CountsRecords self.old.records self.new.records) }
        ensures fault { NamesDevice result (R.fault_count input.old) (R.fault_count input.new)
            (W.fault_count to.old) (W.fault_count to.new) }
    {
        match self.let_out(input, to) {
            Ok(()) => {}
            Err(fault) => return Err(fault),
        }
        'records: loop {
            match self.hear(alloc, input, to) {
                Ok(Heard::Taken) => {}
                Ok(Heard::Refused { index, cause }) => {
                    return Ok(Heard::Refused { index, cause });
                }
                Ok(Heard::Changed { index, slot }) => return Ok(Heard::Changed { index, slot }),
                Ok(Heard::LinedUp { index, slot }) => return Ok(Heard::LinedUp { index, slot }),
                Ok(Heard::Ended(why)) => return Ok(Heard::Ended(why)),
                Err(fault) => return Err(fault),
            }
        }
    }

    // Judges a record, and writes the slots that it settles; an incomplete last part waits.
    fn take<W: Sink>(
        &mut self,
        alloc: Global,
        stream: u8,
        unit: Unit,
        to: &mut W,
    ) -> Result<Verdict, OutputFault>
        requires { self.old.records < 2 ^ 64 - 1 }
        ensures takes { (run : Run) (a : Air) (start : Option (List ℕ)) →
            IsOnAir run a start (W.contents to.old) self.old →
            TakesUnit run a (stream, unit) start (W.contents to.new) result self.new }
        ensures records { IfOk result (CountsTaken self.old.records self.new.records) }
        ensures clean { OnOk result (W.fault_count to.new ≡ W.fault_count to.old) }
        ensures fault { OnErr result (Failed (W.fault_count to.old) (W.fault_count to.new)) }
    {
        let due = unit.dts;
        if is_far(self.terms.ahead, self.greatest, due) {
            drop(unit);
            return Ok(Verdict::RefusedFor(self.pass_over(stream, due)));
        }
        if self.changes_run(stream) {
            return self.take_change(alloc, stream, unit, to);
        }
        self.records += 1;
        match admit(&mut self.mux, stream, unit) {
            None => {}
            Some(unit) => return Ok(Verdict::RefusedFor(AirRefusal::Feed(unit))),
        }
        self.leap = Leap::none();
        let greatest = self.greatest.max(due);
        self.greatest = greatest;
        match self.write_until(due, to) {
            Ok(()) => Ok(Verdict::Accepted),
            Err(fault) => Err(fault),
        }
    }

    // Judges the texts or the line-up of a record that is not too far ahead.
    fn take_change<W: Sink>(
        &mut self,
        alloc: Global,
        stream: u8,
        unit: Unit,
        to: &mut W,
    ) -> Result<Verdict, OutputFault>
        requires { self.old.records < 2 ^ 64 - 1 }
        ensures takes { (run : Run) (a : Air) (start : Option (List ℕ)) →
            IsOnAir run a start (W.contents to.old) self.old → IsNearChange run a (stream, unit) →
            TakesUnit run a (stream, unit) start (W.contents to.new) result self.new }
        ensures records { IfOk result (CountsTaken self.old.records self.new.records) }
        ensures clean { OnOk result (W.fault_count to.new ≡ W.fault_count to.old) }
        ensures fault { OnErr result (Failed (W.fault_count to.old) (W.fault_count to.new)) }
    {
        if has_plan(&unit.bytes) {
            self.take_line_up(alloc, stream, unit, to)
        } else {
            self.take_texts(alloc, stream, unit, to)
        }
    }
}
