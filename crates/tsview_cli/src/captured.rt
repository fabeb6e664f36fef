//! A capture that is viewed as its bytes come.
ghost use Rattle.std.specs.Prelude.{◌≡◌, ◌++◌, ℕ, List, [], IfOk, OnOk, false};
ghost use Rattle.capture.specs.Captures.{Part};
ghost use Rattle.analysis.specs.Analysis.{AnalysisState, IsAnalysed, start};
ghost use Rattle.analysis.specs.Analysis.{is_crowded};
ghost use Rattle.tsview_cli.specs.CapturedStreams as spec;
ghost use Rattle.tsview_cli.specs.CapturedStreams.{IsEnded, IsMore, IsSoFar, TakesParts};

use analysis::Analyser;
use arrival::Arrival;
use capture::{CaptureEnd, CaptureReader, PartTaker};
use events::{
    ClockTotals, Event, InputEvent, OtherRate, ReportEnd, RestBytes, SlippedBytes, TimedEvent,
};
use packet_sync::{FileForm, OtherPackets, Slip, bytes_apart};
use std::alloc::{AllocError, Global};
use ts_report::ViewRequest;

/// The view of the parts of a capture, and room for the events that they settle.
#[derive(Drop)]
pub struct ViewedParts {
    pub view: Analyser,
    pub events: Vec<TimedEvent>,
}

/// A capture that is viewed: its reader, and the view of the parts that are settled.
///
/// After an `AllocError` it describes no stream: drop it.
#[derive(Drop)]
pub struct CapturedView {
    alloc: Global,
    pub reader: CaptureReader,
    pub parts: ViewedParts,
}

fn slip_event(slip: Slip) -> Event
    ensures { result ≡ spec.slip_event slip }
{
    Event::Input(InputEvent::Slip(SlippedBytes {
        packet: slip.packet as u64,
        place: slip.start as u64,
        bytes: slip.size as u64,
    }))
}

fn size_event(other: OtherPackets) -> Event
    ensures { result ≡ spec.size_event other }
{
    Event::Input(InputEvent::PacketSize(bytes_apart(other) as u64))
}

impl PartTaker for ViewedParts {
    ghost has_taken = { λ first parts now. TakesParts parts first now };

    fn take_size(&mut self, other: OtherPackets) -> Result<(), AllocError> {
        self.view.take_event(size_event(other), &mut self.events)?;
        Ok(())
    }

    fn take_packets(&mut self, packets: &[[u8; 188]]) -> Result<(), AllocError> {
        self.view.take_all(packets, &mut self.events)?;
        Ok(())
    }

    fn take_stamped(&mut self, head: u32, packet: &[u8; 188]) -> Result<(), AllocError> {
        self.view.take_stamped(head, packet, &mut self.events)?;
        Ok(())
    }

    fn take_slip(&mut self, slip: Slip) -> Result<(), AllocError> {
        self.view.take_event(slip_event(slip), &mut self.events)?;
        Ok(())
    }
}

// Returns the rate at which packets arrive, if the user gives it.
#[tactic(auto, unfolding(crate::specs::CapturedStreams::given_rate))]
fn given_rate(arrival: &Arrival) -> Option<u64>
    ensures { result ≡ spec.given_rate arrival.now }
{
    match arrival {
        Arrival::AtRate(rate) => Some(rate.bits_per_second()),
        Arrival::Unknown | Arrival::OnLines(_) => None,
    }
}

/// Returns the rate of a request, if it has one.
pub(crate) fn rate_of(request: &ViewRequest) -> Option<u64>
    ensures { result ≡ spec.rate_in request.now }
{
    given_rate(&request.options.arrival)
}

// Returns whether clock references give another rate than the given one.
fn is_other(given: u64, references: u128) -> bool
    ensures { result ≡ spec.is_other given references }
{
    let given = u128::from(given);
    references != 0 && (references < given - given / 100 || given + given / 100 < references)
}

#[tactic(auto, unfolding(crate::specs::CapturedStreams::clock_note))]
fn clock_note(rate: Option<u64>, clock: &ClockTotals) -> Option<InputEvent>
    ensures { result ≡ spec.clock_note rate clock.now }
{
    let Some(given) = rate else {
        return None;
    };
    if !is_other(given, clock.rate) {
        return None;
    }
    Some(InputEvent::OtherRate(OtherRate {
        pid: clock.pid,
        given,
        references: clock.rate,
    }))
}

fn end_note(form: FileForm, end: &ReportEnd) -> Option<InputEvent>
    ensures { result ≡ spec.end_note form end.now }
{
    if end.packets == 0 && end.left == 0 {
        Some(InputEvent::Empty)
    } else if end.packets == 0 || end.packets / 2 < end.refused {
        Some(InputEvent::NoStream(form))
    } else if end.left == 0 {
        None
    } else {
        Some(InputEvent::Rest(RestBytes {
            packet: end.packets,
            bytes: end.left,
        }))
    }
}

// Returns the note about an input that an event at its end gives, if any.
#[tactic(auto, unfolding(crate::specs::CapturedStreams::note_of))]
fn note_of(rate: Option<u64>, form: FileForm, event: &Event) -> Option<InputEvent>
    ensures { result ≡ spec.note_of rate form event.now }
{
    match event {
        Event::Clock(clock) => clock_note(rate, clock),
        Event::End(end) => end_note(form, end),
        _ => None,
    }
}

// Appends the note about an event, if there is one.
#[tactic(auto, unfolding(crate::specs::CapturedStreams::noted))]
fn push_note(note: Option<InputEvent>, events: &mut Vec<Event>) -> Result<(), AllocError>
    ensures { OnOk result (events.new.items ≡ events.old.items ++ spec.noted note) }
{
    match note {
        None => Ok(()),
        Some(note) => {
            events.push(Event::Input(note))?;
            Ok(())
        }
    }
}

// Appends what events at the end of an input show of it.
fn push_notes(
    rate: Option<u64>,
    form: FileForm,
    found: &[TimedEvent],
    events: &mut Vec<Event>,
) -> Result<(), AllocError>
    ensures { OnOk result (events.new.items ≡ events.old.items ++ spec.notes rate form found.now) }
{
    for event in found {
        push_note(note_of(rate, form, &event.event), events)?;
    }
    Ok(())
}

impl ViewedParts {
    // Appends the notes about the input, then the last events, then the summary of all events. Returns whether no fault
    // is found.
    fn push_last(
        &mut self,
        alloc: Global,
        rate: Option<u64>,
        end: CaptureEnd,
    ) -> Result<bool, AllocError>
        ensures events { (s : AnalysisState) → IsAnalysed self.old.view s →
            OnOk result (self.new.events.items ≡ self.old.events.items ++ spec.last_events rate end.form s end.left) }
        ensures good { (s : AnalysisState) → IsAnalysed self.old.view s →
            IfOk result (λ good. good ≡ spec.is_whole rate end.form s end.left) }
    {
        let mut last = Vec::new(alloc);
        let mut noted = Vec::new(alloc);
        let good = self.view.end(end.left, &mut last)?;
        push_notes(rate, end.form, &last, &mut noted)?;
        self.view.take_events(noted, &mut self.events)?;
        self.events.append(&mut last)?;
        let whole = good && self.view.is_faultless();
        self.view.conclude(whole, &mut self.events)?;
        Ok(whole)
    }
}

impl CapturedView {
    /// Returns the state before the first byte.
    pub fn new(alloc: Global, request: ViewRequest) -> CapturedView
        ensures view { IsSoFar (start request) result [] [] }
        ensures calm { is_crowded result.parts.view ≡ false }
    {
        CapturedView {
            alloc,
            reader: CaptureReader::new(alloc),
            parts: ViewedParts {
                view: Analyser::new(alloc, request),
                events: Vec::new(alloc),
            },
        }
    }

    /// Takes the next bytes. Afterwards `events` has the events of these bytes, and no earlier event.
    pub fn take(&mut self, piece: &[u8]) -> Result<(), AllocError>
        ensures { (first : AnalysisState) (bytes : List ℕ) (found : List Part) → IsSoFar first self.old bytes found →
            OnOk result (IsMore first self.new (bytes ++ piece.now) found) }
    {
        self.parts.events.clear();
        self.reader.take(piece, &mut self.parts)
    }

    /// Returns whether a stream has enough waiting units to stop the view.
    pub fn is_crowded(&self) -> bool
        ensures { result ≡ is_crowded self.now.parts.view }
    {
        self.parts.view.is_crowded()
    }

    /// Ends the input. Afterwards `events` has the last events, and no earlier event. Returns whether no fault is
    /// found; `rate`: the rate that the user gives.
    pub fn end(&mut self, rate: Option<u64>) -> Result<bool, AllocError>
        ensures { (first : AnalysisState) (bytes : List ℕ) (found : List Part) → IsSoFar first self.old bytes found →
            IfOk result (IsEnded rate first self.new bytes found) }
    {
        self.parts.events.clear();
        let end = self.reader.end(&mut self.parts)?;
        self.parts.push_last(self.alloc, rate, end)
    }
}
