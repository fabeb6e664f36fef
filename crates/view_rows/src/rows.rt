//! The rows of the page's tables, as the events come.
ghost use Rattle.std.specs.Prelude.{◌≡◌, ◌++◌, OnOk, string_bytes};
ghost use Rattle.view_rows.specs.Rows as spec;

use crate::cells::{Cell, write_cells, write_row};
use crate::fault_rows::{FaultRow, buffer_of, fault_buffer};
use crate::input_cells::{
    empty_cells, no_stamps_cells, no_stream_cells, other_rate_cells, packet_size_cells, rest_cells,
    slip_cells,
};
use crate::mark_cells::mark_cells;
use crate::row_cells::{
    buffer_cells, check_cells, clock_cells, continuity_cells, elementary_late_cells, late_cells,
    pid_cells, reference_cells, stream_cells, system_cells, table_cells, unclocked_cells,
};
use crate::summary_cells::{
    fault_cells, time_cells, totals_cells, write_failure_if, write_sentence,
};
use events::{
    CheckTotals, Event, Fault, FaultKind, FaultTotals, InputEvent, StreamBegin, SummaryEvent,
    TimedEvent, Verdict,
};
use page_curves::PidLabels;
use std::alloc::{AllocError, Global};
use std::marker::Model;

/// How many faults have rows.
const MOST_FAULTS: u64 = 100;

/// A row of a stream: its PID, and its cells after what the PID carries, which is known only at the end.
#[derive(Drop)]
pub struct StreamRow {
    pub pid: u16,
    pub cells: String,
}

impl Model for StreamRow {
    ghost use Rattle.std.specs.Prelude.{string_bytes};
    ghost use Rattle.view_rows.specs.RowTexts.{StreamText};

    ghost Value = { StreamText };

    ghost view = { λ r. record { pid = r.pid; cells = string_bytes r.cells } };
}

/// The sentences of failed checks and of the verdict, the rows of each table, and the number of faults; 100 faults have rows.
#[derive(Drop)]
pub struct Rows {
    alloc: Global,
    pub verdict: String,
    pub checks: String,
    pub kinds: Vec<FaultRow>,
    pub streams: Vec<StreamRow>,
    pub buffers: String,
    pub marks: String,
    pub systems: String,
    pub clocks: String,
    pub tables: String,
    pub pids: String,
    pub apart: String,
    pub faults: Vec<FaultRow>,
    pub count: u64,
}

impl Model for Rows {
    ghost use Rattle.std.specs.Prelude.{string_bytes};
    ghost use Rattle.view_rows.specs.RowTexts.{RowTexts};

    ghost Value = { RowTexts };

    ghost view = { λ r. record {
      verdict = string_bytes r.verdict;
      checks = string_bytes r.checks;
      kinds = r.kinds.items;
      streams = r.streams.items;
      buffers = string_bytes r.buffers;
      marks = string_bytes r.marks;
      systems = string_bytes r.systems;
      clocks = string_bytes r.clocks;
      tables = string_bytes r.tables;
      pids = string_bytes r.pids;
      apart = string_bytes r.apart;
      faults = r.faults.items;
      count = r.count;
    } };
}

impl Rows {
    /// Returns the state before the first event.
    pub fn new(alloc: Global) -> Rows
        ensures { result ≡ spec.no_rows }
    {
        Rows {
            alloc,
            verdict: String::new(alloc),
            checks: String::new(alloc),
            kinds: Vec::new(alloc),
            streams: Vec::new(alloc),
            buffers: String::new(alloc),
            marks: String::new(alloc),
            systems: String::new(alloc),
            clocks: String::new(alloc),
            tables: String::new(alloc),
            pids: String::new(alloc),
            apart: String::new(alloc),
            faults: Vec::new(alloc),
            count: 0,
        }
    }

    // Keeps the row of a fault.
    fn push_fault(
        &mut self,
        labels: &PidLabels,
        fault: &Option<Fault>,
        cells: &[Cell],
    ) -> Result<(), AllocError>
        ensures { OnOk result (self.new ≡ spec.with_fault_row labels.now fault.now self.old cells.now) }
    {
        let mut text = String::new(self.alloc);
        write_fault_row(&mut text, labels, fault, cells)?;
        self.faults.push(FaultRow {
            buffer: fault_buffer(fault),
            cells: text,
        })?;
        Ok(())
    }

    // Takes a fault; it has a row if fewer than 100 faults came before it.
    fn take_fault(
        &mut self,
        labels: &PidLabels,
        fault: &Option<Fault>,
        cells: &[Cell],
    ) -> Result<(), AllocError>
        ensures { OnOk result (self.new ≡ spec.with_fault labels.now fault.now self.old cells.now) }
    {
        let count = self.count;
        self.count = count.saturating_add(1);
        if count < MOST_FAULTS {
            self.push_fault(labels, fault, cells)
        } else {
            Ok(())
        }
    }

    // Takes a fault, if there is one, with the cells that say what every fault has.
    #[tactic(auto, unfolding(crate::specs::Rows::with_known_fault))]
    fn take_known(&mut self, labels: &PidLabels, fault: &Option<Fault>) -> Result<(), AllocError>
        ensures { OnOk result (self.new ≡ spec.with_known_fault labels.now self.old fault.now) }
    {
        match fault {
            None => Ok(()),
            Some(known) => self.take_fault(labels, fault, &fault_cells(known)),
        }
    }

    // Takes a row of faults by kind and stream.
    fn take_totals(&mut self, labels: &PidLabels, e: &FaultTotals) -> Result<(), AllocError>
        ensures { OnOk result (self.new ≡ spec.with_totals labels.now self.old e.now) }
    {
        let mut text = String::new(self.alloc);
        write_totals_row(&mut text, labels, e)?;
        self.kinds.push(FaultRow {
            buffer: buffer_of(e.kind, e.source),
            cells: text,
        })?;
        Ok(())
    }

    // Takes a check: a row, and a sentence before the verdict if it has failed.
    fn take_check(&mut self, labels: &PidLabels, e: &CheckTotals) -> Result<(), AllocError>
        ensures { OnOk result (self.new ≡ spec.with_check labels.now self.old e.now) }
    {
        write_failure_if(&mut self.verdict, e)?;
        write_row(&mut self.checks, labels, &check_cells(e))
    }

    // Takes a sentence of the verdict.
    fn take_sentence(&mut self, verdict: &Verdict) -> Result<(), AllocError>
        ensures { OnOk result (self.new ≡ spec.with_sentence self.old verdict.now) }
    {
        write_sentence(&mut self.verdict, verdict)
    }

    // Takes faults by kind and stream, or a sentence of the verdict.
    #[tactic(auto, unfolding(crate::specs::Rows::with_summary))]
    fn take_summary(&mut self, labels: &PidLabels, event: &SummaryEvent) -> Result<(), AllocError>
        ensures { OnOk result (self.new ≡ spec.with_summary labels.now self.old event.now) }
    {
        match event {
            SummaryEvent::Faults(e) => self.take_totals(labels, e),
            SummaryEvent::Verdict(e) => self.take_sentence(e),
        }
    }

    // Takes the fault of an event, if the event is about a fault.
    #[tactic(auto, unfolding(crate::specs::Rows::with_fault_event))]
    fn take_faults(
        &mut self,
        labels: &PidLabels,
        fault: &Option<Fault>,
        event: &Event,
    ) -> Result<(), AllocError>
        ensures { OnOk result (self.new ≡ spec.with_fault_event labels.now fault.now self.old event.now) }
    {
        match event {
            Event::Late(e) => self.take_fault(labels, fault, &late_cells(e)),
            Event::ElementaryLate(e) => self.take_fault(labels, fault, &elementary_late_cells(e)),
            Event::Unclocked(e) => self.take_fault(labels, fault, &unclocked_cells(e)),
            Event::Continuity(e) => self.take_fault(labels, fault, &continuity_cells(e)),
            _ => self.take_known(labels, fault),
        }
    }

    // Takes an event about the packets of the input.
    #[tactic(auto, unfolding(crate::specs::Rows::with_input))]
    fn take_input(
        &mut self,
        labels: &PidLabels,
        fault: &Option<Fault>,
        event: &InputEvent,
    ) -> Result<(), AllocError>
        ensures { OnOk result (self.new ≡ spec.with_input labels.now fault.now self.old event.now) }
    {
        match event {
            InputEvent::Slip(e) => self.take_fault(labels, fault, &slip_cells(e)),
            InputEvent::PacketSize(size) => {
                write_row(&mut self.apart, labels, &packet_size_cells(*size))
            }
            InputEvent::Empty => self.take_fault(labels, fault, &empty_cells()),
            InputEvent::NoStream(form) => self.take_fault(labels, fault, &no_stream_cells(*form)),
            InputEvent::OtherRate(e) => self.take_fault(labels, fault, &other_rate_cells(e)),
            InputEvent::Rest(e) => self.take_fault(labels, fault, &rest_cells(e)),
            InputEvent::NoStamps => self.take_fault(labels, fault, &no_stamps_cells()),
            InputEvent::StampJump(_) => self.take_known(labels, fault),
        }
    }

    // Takes the begin of a stream.
    fn take_stream(&mut self, labels: &PidLabels, stream: &StreamBegin) -> Result<(), AllocError>
        ensures { OnOk result (self.new ≡ spec.with_stream labels.now self.old stream.now) }
    {
        let mut cells = String::new(self.alloc);
        write_cells(&mut cells, labels, &stream_cells(stream))?;
        self.streams.push(StreamRow {
            pid: stream.pid,
            cells,
        })?;
        Ok(())
    }

    // Takes an event, and the fault that it is about.
    #[tactic(auto, unfolding(crate::specs::Rows::with_kind))]
    fn take_kind(
        &mut self,
        labels: &PidLabels,
        fault: &Option<Fault>,
        event: &Event,
    ) -> Result<(), AllocError>
        ensures { OnOk result (self.new ≡ spec.with_kind labels.now fault.now self.old event.now) }
    {
        match event {
            Event::Input(event) => self.take_input(labels, fault, event),
            Event::Stream(stream) => self.take_stream(labels, stream),
            Event::Buffer(e) => write_row(&mut self.buffers, labels, &buffer_cells(e)),
            Event::Marks(e) => write_row(&mut self.marks, labels, &mark_cells(e)),
            Event::System(e) => write_row(&mut self.systems, labels, &system_cells(e)),
            Event::Clock(e) => write_row(&mut self.clocks, labels, &clock_cells(e)),
            Event::Table(e) => write_row(&mut self.tables, labels, &table_cells(e)),
            Event::Pid(e) => write_row(&mut self.pids, labels, &pid_cells(e)),
            Event::Unreferenced(pid) => {
                write_row(
                    &mut self.apart,
                    labels,
                    &reference_cells(FaultKind::Unreferenced, *pid),
                )
            }
            Event::Missing(pid) => {
                write_row(
                    &mut self.apart,
                    labels,
                    &reference_cells(FaultKind::Missing, *pid),
                )
            }
            Event::Check(e) => self.take_check(labels, e),
            Event::Summary(e) => self.take_summary(labels, e),
            _ => self.take_faults(labels, fault, event),
        }
    }

    /// Takes an event, with what PIDs carry.
    pub fn take(&mut self, labels: &PidLabels, event: &TimedEvent) -> Result<(), AllocError>
        ensures { OnOk result (self.new ≡ spec.with_event labels.now self.old event.now) }
    {
        self.take_kind(labels, &event.fault, &event.event)
    }
}

// Appends the row of a fault without its end: when the fault is, and its cells.
fn write_fault_row(
    text: &mut String,
    labels: &PidLabels,
    fault: &Option<Fault>,
    cells: &[Cell],
) -> Result<(), AllocError>
    ensures { OnOk result (string_bytes text.new
        ≡ string_bytes text.old ++ spec.fault_row labels.now fault.now cells.now) }
{
    text.push_str("<tr>")?;
    write_cells(text, labels, &time_cells(fault))?;
    write_cells(text, labels, cells)
}

// Appends the begin of a row and cells.
fn write_begun(text: &mut String, labels: &PidLabels, cells: &[Cell]) -> Result<(), AllocError>
    ensures { OnOk result (string_bytes text.new ≡ string_bytes text.old ++ spec.begun_row labels.now cells.now) }
{
    text.push_str("<tr>")?;
    write_cells(text, labels, cells)
}

// Appends the row of all faults of a kind at one place, without its end.
fn write_totals_row(
    text: &mut String,
    labels: &PidLabels,
    e: &FaultTotals,
) -> Result<(), AllocError>
    ensures { OnOk result (string_bytes text.new ≡ string_bytes text.old ++ spec.totals_row labels.now e.now) }
{
    write_begun(text, labels, &totals_cells(e))
}
