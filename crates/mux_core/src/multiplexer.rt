//! The multiplexer: units in, packets out, in any interleaving.

ghost use Rattle.std.specs.Prelude.{◌≡◌, ◌<◌, ◌^◌, ℕ, false, slice_index_or, suc, OnOk, OnErr, IfErr, option_map, slice_get, length};
ghost use Rattle.slot_contents.specs.Contents.{packet_of};
ghost use Rattle.slot_plan.specs.Schedule.{slot_of};
ghost use Rattle.unit_queue.specs.Causes.{refusal};
ghost use Rattle.unit_queue.specs.QueueSteps.{accepted, state_cause};
ghost use Rattle.mux_core.specs.Histories.{History, bytes_of, next_slot};
ghost use Rattle.description.specs.SubTables.{sub_table_count};
ghost use Rattle.changed_texts.specs.TextFaults.{text_fault};
ghost use Rattle.changed_texts.specs.Versions.{changed, next_texts};
ghost use Rattle.mux_core.specs.TextChanges.{text_cause, events_table};
ghost use Rattle.mux_core.specs.MuxStates.{Represents, Gives, Takes, Changes, if_on_air, text_refusal, waiting_of};
ghost use Rattle.mux_core.specs.Headline.{HeadlineOver};
ghost use Rattle.mux_core.specs.SlotSteps.{sends, after, queue_cause, queues_with, with_texts, moment_of_events};
ghost use Rattle.description_parts.specs.Ranges.{IsInRange};
ghost use Rattle.slot_plan.specs.Promised.{Promised};

use crate::checked_schedule::CheckedSchedule;
use crate::done::Done;
use crate::room::Room;
use crate::slot_packets::{write_null, write_program_pcr, write_stream, write_table};
use crate::texts_in_force::TextsInForce;
use changed_texts::{TextFault, changed, next_texts, text_fault};
use pes_packet::Unit;
use slot_plan::{Description, Slot};
use std::alloc::{Allocator, Global};
use std::marker::Model;
use table_rounds::TableCarousel;
use unit_queue::{FeedError, UnitQueue};

/// The maximum number of slots of a run.
pub(crate) const MAX_SLOTS: u64 = 1 << 40;

/// A multiplexer over a checked plan, or over two in turn. It makes its memory when it is made: neither a unit that is
/// fed nor a packet takes any.
#[derive(Drop)]
pub struct Mux<A: Allocator = Global> {
    pub(crate) schedule: CheckedSchedule<A>,
    pub(crate) texts: TextsInForce,
    pub(crate) queues: Vec<UnitQueue<A>, A>,
    pub(crate) carousels: Vec<TableCarousel, A>,
    pub(crate) capacity: Room,
    pub(crate) slots: u64,
}

impl<A: Allocator> Model for Mux<A> {
    ghost use Rattle.description_parts.specs.Ranges.{IsInRange};
    ghost use Rattle.slot_plan.specs.Promised.{Promised};
    ghost use Rattle.mux_core.specs.MuxStates.{MuxState};
    ghost use Rattle.mux_core.specs.SlotSteps.{texts_in};

    ghost Value = { MuxState };

    ghost view = { λ m. record {
      schedule = m.schedule;
      texts = texts_in m.texts.changed m.schedule.description;
      sent = m.texts.sent;
      queues = m.queues.items;
      carousels = m.carousels.items;
      capacity = m.capacity;
      slots = m.slots;
    } };

    ghost invariant = { λ m. IsInRange m.schedule.description × Promised m.schedule.description m.schedule.schedule };
}

// Gives a unit to the queue of its stream, if a program on air has the stream.
fn feed_queue<A: Allocator>(
    queue: &mut UnitQueue<A>,
    on_air: bool,
    slots: u64,
    unit: Unit<A>,
) -> Result<(), (FeedError, Unit<A>)>
    ensures cause { refusal result ≡ if_on_air on_air (state_cause slots queue.old unit) }
    ensures state { OnOk result (queue.new ≡ accepted queue.old unit) }
    ensures handed_back { IfErr result (λ e. (e.1 ≡ unit) × (queue.new ≡ queue.old)) }
{
    if !on_air {
        return Err((FeedError::OffAir, unit));
    }
    queue.feed(slots, unit)
}

// Gives a unit to the queue of its stream.
#[tactic(auto, unfolding(crate::specs::SlotSteps::queue_cause, crate::specs::SlotSteps::queues_with))]
fn feed_stream<A: Allocator>(
    queues: &mut Vec<UnitQueue<A>, A>,
    on_air: bool,
    stream: u8,
    slots: u64,
    unit: Unit<A>,
) -> Result<(), (FeedError, Unit<A>)>
    ensures cause { refusal result ≡ queue_cause on_air slots unit (slice_get queues.old.items stream) }
    ensures state { OnOk result (queues.new.items ≡ queues_with queues.old.items stream unit
        (slice_get queues.old.items stream)) }
    ensures handed_back { IfErr result (λ e. (e.1 ≡ unit) × (queues.new.items ≡ queues.old.items)) }
{
    let Some(queue) = queues.get_mut(stream as usize) else {
        return Err((FeedError::UnknownStream, unit));
    };
    feed_queue(queue, on_air, slots, unit)
}

// Returns the number of the EIT, if there is one: after PAT, PMTs, NIT and SDT.
fn events_table(description: &Description) -> usize
    ensures { result ≡ events_table description.now }
{
    description.keeps_ranges();
    1 + description.programs().len()
        + description.network().is_some() as usize
        + description.has_sdt() as usize
}

impl<A: Allocator> Mux<A> {
    /// Returns the packet of the next slot.
    pub fn next_packet(&mut self) -> Result<[u8; 188], Done>
        ensures next { (h : History) → Represents h self.old → Gives h self.old result self.new }
        ensures headline { (h : History) → Represents h self.old →
            OnOk result (HeadlineOver self.old.schedule h.changes h.units (suc h.slots)
            (bytes_of self.old.schedule (next_slot h))) }
    {
        let mut packet = [0; 188];
        match self.write_next(&mut packet) {
            Ok(()) => Ok(packet),
            Err(done) => Err(done),
        }
    }

    /// Writes the packet of the next slot over the bytes of `packet`, as `next_packet` gives it. Where there is no next
    /// slot these stay as they are.
    pub fn write_next(&mut self, packet: &mut [u8; 188]) -> Result<(), Done>
        ensures next { (h : History) → Represents h self.old → OnOk result (Gives h self.old (Ok packet.new) self.new) }
        ensures done { (h : History) → Represents h self.old → IfErr result (λ done. Gives h self.old (Err done) self.new) }
        ensures headline { (h : History) → Represents h self.old →
            OnOk result (HeadlineOver self.old.schedule h.changes h.units (suc h.slots)
            (bytes_of self.old.schedule (next_slot h))) }
        ensures same { OnErr result (packet.new ≡ packet.old) }
    {
        if self.slots >= MAX_SLOTS {
            return Err(Done);
        }
        self.fill_slot(packet);
        Ok(())
    }

    // Writes the packet of the next slot over the bytes of `packet`: it is made there, and no byte of it is copied
    // again.
    #[tactic(auto, unfolding(crate::specs::SlotSteps::sends, crate::specs::SlotSteps::after))]
    fn fill_slot(&mut self, packet: &mut [u8; 188])
        requires { self.old.slots < 2 ^ 40 }
        ensures packet { packet.new ≡ packet_of (sends self.old (slot_of self.old.schedule.schedule self.old.slots)) }
        ensures state { self.new ≡ after self.old (slot_of self.old.schedule.schedule self.old.slots) }
    {
        let slot = self.slots;
        match self.schedule.slot(slot) {
            Slot::Stream(k) => write_stream(&mut self.queues, k, slot, packet),
            Slot::Pcr(p) => write_program_pcr(self.schedule.description(), p, slot, packet),
            Slot::Table(t) => write_table(
                &mut self.carousels,
                &mut self.texts,
                self.schedule.description(),
                t,
                slot,
                packet,
            ),
            Slot::Null => write_null(packet),
        }
        self.slots += 1;
    }

    /// Takes a unit of a stream. A refused unit is returned, and nothing changes.
    pub fn feed(&mut self, stream: u8, unit: Unit<A>) -> Result<(), (FeedError, Unit<A>)>
        ensures takes { (h : History) → Represents h self.old → Takes h self.old stream unit (refusal result) self.new }
        ensures handed_back { IfErr result (λ e. (e.1 ≡ unit) × (self.new ≡ self.old)) }
    {
        let on_air = self
            .texts
            .stream_on_air(self.schedule.description(), stream);
        feed_stream(&mut self.queues, on_air, stream, self.slots, unit)
    }

    /// Returns the texts in force: the description, or what took its place.
    pub fn texts(&self) -> &Description
        ensures { result.now ≡ self.now.texts }
    {
        self.texts.texts(self.schedule.description())
    }

    /// Returns why a description may not take the place of the texts in force; None if it may.
    pub fn text_fault(&self, texts: &Description) -> Option<TextFault>
        ensures { (h : History) → Represents h self.now → result ≡ text_cause self.now.schedule h texts.now }
    {
        self.fault_of_texts(texts)
    }

    fn fault_of_texts(&self, texts: &Description) -> Option<TextFault>
        ensures { result ≡ text_fault self.now.schedule.description self.now.texts texts.now }
    {
        text_fault(self.schedule.description(), self.texts(), texts)
    }

    /// Puts other texts in force from the next slot on: each section that begins from there on is as they have it, and
    /// one under way ends as it began. Refused texts change nothing.
    pub fn change_texts(&mut self, texts: Description) -> Result<(), TextFault>
        ensures changes { (h : History) → Represents h self.old →
            Changes h self.old texts (text_refusal result) self.new }
        ensures refused { OnErr result (self.new ≡ self.old) }
    {
        changed_texts::laws::texts();
        changed_texts::laws::next_texts();
        texts.keeps_ranges();
        self.exchange_texts(texts)
    }

    // Puts other texts in force, or names their fault.
    fn exchange_texts(&mut self, texts: Description) -> Result<(), TextFault>
        ensures fault { text_refusal result ≡ text_fault self.old.schedule.description self.old.texts texts }
        ensures taken { OnOk result (self.new ≡ with_texts self.old texts) }
        ensures refused { OnErr result (self.new ≡ self.old) }
    {
        match self.fault_of_texts(&texts) {
            Some(fault) => Err(fault),
            None => {
                self.take_texts(texts);
                Ok(())
            }
        }
    }

    // Puts texts without a fault in force: each sub-table that changes has another version, if a section of the version
    // before was sent.
    fn take_texts(&mut self, texts: Description)
        ensures { self.new ≡ with_texts self.old texts }
    {
        let changes = self.changes_to(&texts);
        let next = self.numbered(texts);
        self.texts.put(next, &changes);
    }

    // Returns which sub-tables change.
    fn changes_to(&self, texts: &Description) -> [bool; 131]
        ensures { (n : ℕ) → n < sub_table_count →
            slice_index_or result n false ≡ changed self.now.texts texts.now (moment_of_events self.now) n }
    {
        changed(self.texts(), texts, self.moment_of_events())
    }

    // Returns the texts with the versions that their sub-tables have next.
    fn numbered(&self, texts: Description) -> Description
        ensures { result ≡ next_texts self.now.texts texts (moment_of_events self.now)
            (λ n. slice_index_or self.now.sent n false) }
    {
        next_texts(
            self.texts(),
            texts,
            self.moment_of_events(),
            &self.texts.sent,
        )
    }

    /// Returns the moment for which the EIT shows its events, if there is one.
    pub(crate) fn moment_of_events(&self) -> u64
        ensures { result ≡ moment_of_events self.now }
    {
        let description = self.schedule.description();
        match self.carousels.get(events_table(description)) {
            None => description.start(),
            Some(carousel) => carousel.moment(),
        }
    }

    /// Returns the number of slots written.
    pub fn now(&self) -> u64
        ensures { (h : History) → Represents h self.now → result ≡ h.slots }
    {
        self.slots
    }

    /// Returns the number of units of a stream that are not sent whole; None if there is no such stream.
    pub fn waiting(&self, stream: u8) -> Option<usize>
        ensures { (h : History) → Represents h self.now → result ≡ waiting_of self.now.schedule h stream }
    {
        self.units_waiting(stream)
    }

    // Returns the number of units in the queue of a stream.
    fn units_waiting(&self, stream: u8) -> Option<usize>
        ensures { result ≡ option_map (λ q. length q.units) (slice_get self.now.queues stream) }
    {
        let Some(queue) = self.queues.get(stream as usize) else {
            return None;
        };
        Some(queue.waiting())
    }

    // States that the numbers of the description are in their ranges, and that the schedule keeps every promise about
    // it.
    pub(crate) fn keeps_promises(&self)
        ensures ranges { IsInRange self.now.schedule.description }
        ensures promised { Promised self.now.schedule.description self.now.schedule.schedule }
    {
        let _ = &self.slots;
    }
}
