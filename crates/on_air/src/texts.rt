//! Texts: whether the description of a record may take the place of the texts on air, and how it does.

ghost use Rattle.std.specs.Prelude.{◌≡◌, ◌<◌, ◌-◌, ◌+◌, ◌^◌, ℕ, List, Option, None, Ok, Err, IfOk, OnOk, OnErr};
ghost use Rattle.counted_io.specs.Device.{Failed};
ghost use Rattle.pes_packet.specs.AccessUnits.{AccessUnit};
ghost use Rattle.on_air.specs.Airing.{Run, Air, job_of, texts_cause, texts_now, with_texts};
ghost use Rattle.on_air.specs.AirStates.{Carries, IsOnAir};
ghost use Rattle.on_air.specs.Hearing.{CountsTaken, IsNearTexts, JudgesTexts, TakesUnit, unread_error};

use crate::airing::OnAir;
use crate::answers::Verdict;
use crate::refusals::{AirRefusal, TextsRefusal};
use changed_texts::read_description;
use counted_io::Sink;
use description::Description;
use description_keys::DescError;
use mux_core::{Mux, OutputFault};
use pes_packet::Unit;
use std::alloc::{Allocator, Global};

/// Why texts are not put on air.
#[derive(Clone, Copy)]
pub(crate) enum TextsError {
    Refused(TextsRefusal),
    Memory,
}

// Returns why bytes that are no description are not put on air.
fn unread(error: DescError) -> TextsError
    ensures { result ≡ unread_error error }
{
    match error {
        DescError::Memory => TextsError::Memory,
        DescError::Refused(fault) => TextsError::Refused(TextsRefusal::Unread(fault)),
    }
}

/// Reads the texts of a record, and judges them by the description and the texts of a multiplexer. Changes nothing.
pub(crate) fn judged_texts<A: Allocator>(
    alloc: Global,
    mux: &Mux<A>,
    bytes: &[u8],
) -> Result<Description, TextsError>
    ensures { (run : Run) (a : Air) → Carries run (job_of a) mux.now → JudgesTexts run a bytes.now result }
{
    let texts = match read_description(alloc, bytes) {
        Ok(texts) => texts,
        Err(error) => return Err(unread(error)),
    };
    match mux.text_fault(&texts) {
        None => Ok(texts),
        Some(fault) => {
            drop(texts);
            Err(TextsError::Refused(TextsRefusal::Fault(fault)))
        }
    }
}

impl OnAir {
    // Judges the texts of a record that is not too far ahead.
    pub(crate) fn take_texts<W: Sink>(
        &mut self,
        alloc: Global,
        stream: u8,
        unit: Unit,
        to: &mut W,
    ) -> Result<Verdict, OutputFault>
        requires { self.old.records < 2 ^ 64 - 1 }
        ensures takes { (run : Run) (a : Air) (start : Option (List ℕ)) →
            IsOnAir run a start (W.contents to.old) self.old → IsNearTexts run a (stream, unit) →
            TakesUnit run a (stream, unit) start (W.contents to.new) result self.new }
        ensures records { IfOk result (CountsTaken self.old.records self.new.records) }
        ensures clean { OnOk result (W.fault_count to.new ≡ W.fault_count to.old) }
        ensures fault { OnErr result (Failed (W.fault_count to.old) (W.fault_count to.new)) }
    {
        let due = unit.dts;
        let judged = judged_texts(alloc, &self.mux, &unit.bytes);
        drop(unit);
        match judged {
            Ok(texts) => self.change(texts, due, to),
            Err(error) => Ok(self.refuse(error)),
        }
    }

    // Returns the answer about texts that are not put on air; counts their record if they are refused.
    fn refuse(&mut self, error: TextsError) -> Verdict
        requires { self.old.records < 2 ^ 64 - 1 }
        ensures takes { (run : Run) (a : Air) (entry : ℕ × AccessUnit) (start now : Option (List ℕ)) →
            IsOnAir run a start now self.old → IsNearTexts run a entry → JudgesTexts run a entry.1.bytes (Err error) →
            TakesUnit run a entry start now (Ok result) self.new }
        ensures records { CountsTaken self.old.records self.new.records result }
    {
        match error {
            TextsError::Memory => Verdict::NoMemory,
            TextsError::Refused(cause) => {
                self.records += 1;
                Verdict::RefusedFor(AirRefusal::Texts(cause))
            }
        }
    }

    // Writes the slots that a DTS settles, and puts texts on air after them; an incomplete last part waits.
    fn change<W: Sink>(
        &mut self,
        texts: Description,
        due: u64,
        to: &mut W,
    ) -> Result<Verdict, OutputFault>
        requires { self.old.records < 2 ^ 64 - 1 }
        ensures takes { (run : Run) (a : Air) (entry : ℕ × AccessUnit) (start : Option (List ℕ)) →
            IsOnAir run a start (W.contents to.old) self.old → IsNearTexts run a entry → due ≡ entry.1.dts →
            JudgesTexts run a entry.1.bytes (Ok texts) →
            TakesUnit run a entry start (W.contents to.new) result self.new }
        ensures records { IfOk result (CountsTaken self.old.records self.new.records) }
        ensures clean { OnOk result (W.fault_count to.new ≡ W.fault_count to.old) }
        ensures fault { OnErr result (Failed (W.fault_count to.old) (W.fault_count to.new)) }
    {
        match self.tick(due, to) {
            Ok(()) => Ok(Verdict::TextsFrom(self.put_on_air(texts))),
            Err(fault) => {
                drop(texts);
                Err(fault)
            }
        }
    }

    // Puts texts on air from the next slot on, and returns this slot.
    fn put_on_air(&mut self, texts: Description) -> u64
        ensures slot { (run : Run) (a : Air) (start now : Option (List ℕ)) → IsOnAir run a start now self.old →
            result ≡ a.slots }
        ensures changes { (run : Run) (a : Air) (start now : Option (List ℕ)) → IsOnAir run a start now self.old →
            texts_cause run.scheduled.description (texts_now run a) (Ok texts) ≡ None →
            IsOnAir run (with_texts run a texts) start now self.new }
        ensures records { self.new.records ≡ self.old.records }
    {
        let slot = self.mux.now();
        // These texts were judged before, and are not refused.
        let _ = self.mux.change_texts(texts);
        slot
    }
}
