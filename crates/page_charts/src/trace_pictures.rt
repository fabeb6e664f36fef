//! Pictures of buffers near their greatest excesses, as the events come.
ghost use Rattle.std.specs.Prelude.{◌≡◌, ◌++◌, OnOk, string_bytes};
ghost use Rattle.page_charts.specs.TracePictures as spec;

use crate::pictures::write_picture;
use crate::points::{write_marks, write_row, write_step};
use events::{BufferKind, Event, RuleEvent, TracePoint};
use page_curves::PidLabels;
use std::alloc::{AllocError, Global};
use std::marker::Model;

/// The head of the pictures.
const HEAD: &str =
    "<h2 id=traces>Greatest excesses</h2><p class=\"soft\">Each buffer that held more than its size, packet by packet of its stream: up to 31 packets before the greatest excess, and up to 32 after it. The line rises as a packet's bytes enter, and falls between two packets as units leave; a dashed line down: a unit begins. Moments: when the packet's last byte has left the transport buffer.</p>\n";

/// The first point of each picture; the whole pictures; and the last point of the open picture, the number of its
/// points, their line, marks and rows.
#[derive(Drop)]
pub struct TracePictures {
    pub firsts: Vec<TracePoint>,
    pub done: String,
    pub last: Option<TracePoint>,
    pub count: u64,
    pub line: String,
    pub marks: String,
    pub rows: String,
}

impl Model for TracePictures {
    ghost use Rattle.std.specs.Prelude.{string_bytes};
    ghost use Rattle.page_charts.specs.PictureTexts.{PictureTexts};

    ghost Value = { PictureTexts };

    ghost view = { λ p. record {
      firsts = p.firsts.items;
      done = string_bytes p.done;
      last = p.last;
      count = p.count;
      line = string_bytes p.line;
      marks = string_bytes p.marks;
      rows = string_bytes p.rows;
    } };
}

// Returns a number for each kind of buffer.
#[tactic(auto, unfolding(crate::specs::TracePictures::kind_number))]
fn kind_number(kind: BufferKind) -> u64
    ensures { result ≡ spec.kind_number kind }
{
    match kind {
        BufferKind::Transport => 0,
        BufferKind::Multiplexing => 1,
        BufferKind::Elementary => 2,
        BufferKind::Main => 3,
        BufferKind::TableTransport => 4,
        BufferKind::System => 5,
    }
}

/// Returns whether a point belongs to the buffer of a kind of a PID.
pub(crate) fn is_of(pid: u16, kind: BufferKind, point: &TracePoint) -> bool
    ensures { result ≡ spec.is_of pid kind point.now }
{
    point.pid == pid && kind_number(point.buffer) == kind_number(kind)
}

// Returns whether a point belongs to another buffer than the last point.
#[tactic(auto, unfolding(crate::specs::TracePictures::is_other))]
fn is_other(last: &Option<TracePoint>, point: &TracePoint) -> bool
    ensures { result ≡ spec.is_other last.now point.now }
{
    match last {
        None => false,
        Some(last) => !is_of(point.pid, point.buffer, last),
    }
}

#[tactic(auto, unfolding(crate::specs::TracePictures::head_text))]
fn head_text() -> &'static str
    ensures { result.now ≡ spec.head_text }
{
    HEAD
}

impl TracePictures {
    /// Returns the state before the first event.
    pub fn new(alloc: Global) -> TracePictures
        ensures { result ≡ spec.no_pictures }
    {
        TracePictures {
            firsts: Vec::new(alloc),
            done: String::new(alloc),
            last: None,
            count: 0,
            line: String::new(alloc),
            marks: String::new(alloc),
            rows: String::new(alloc),
        }
    }

    // Clears the open picture.
    fn clear(&mut self)
        ensures { self.new ≡ spec.cleared self.old }
    {
        self.last = None;
        self.count = 0;
        self.line.clear();
        self.marks.clear();
        self.rows.clear();
    }

    // Ends the open picture, if there is one: it is whole.
    #[tactic(auto, unfolding(crate::specs::TracePictures::last_picture))]
    fn close(&mut self, labels: &PidLabels) -> Result<(), AllocError>
        ensures { OnOk result (self.new ≡ spec.closed labels.now self.old) }
    {
        if let Some(last) = &self.last {
            write_picture(
                &mut self.done,
                labels,
                last,
                self.line.as_str(),
                self.marks.as_str(),
                self.rows.as_str(),
            )?;
        }
        self.clear();
        Ok(())
    }

    // Keeps the first point of a picture.
    fn open(&mut self, point: &TracePoint) -> Result<(), AllocError>
        ensures { OnOk result (self.new ≡ spec.with_first self.old point.now) }
    {
        if self.count == 0 {
            self.firsts.push(*point)?;
        }
        Ok(())
    }

    // Adds a point to the open picture.
    fn add(&mut self, point: &TracePoint) -> Result<(), AllocError>
        ensures { OnOk result (self.new ≡ spec.with_point self.old point.now) }
    {
        let row = self.count;
        self.open(point)?;
        write_step(&mut self.line, row, point)?;
        write_marks(&mut self.marks, row, point)?;
        write_row(&mut self.rows, point)?;
        self.count = row.saturating_add(1);
        self.last = Some(*point);
        Ok(())
    }

    // Takes a point of the open picture or of a new picture.
    fn take_point(&mut self, labels: &PidLabels, point: &TracePoint) -> Result<(), AllocError>
        ensures { OnOk result (self.new ≡ spec.after_point labels.now self.old point.now) }
    {
        if is_other(&self.last, point) {
            self.close(labels)?;
        }
        self.add(point)
    }

    /// Takes an event; `labels`: what PIDs carry.
    #[tactic(auto, unfolding(crate::specs::TracePictures::after_rule, crate::specs::TracePictures::after_event))]
    pub fn take(&mut self, labels: &PidLabels, event: &Event) -> Result<(), AllocError>
        ensures { OnOk result (self.new ≡ spec.after_event labels.now self.old event.now) }
    {
        match event {
            Event::Rule(RuleEvent::FaultTrace(point)) => self.take_point(labels, point),
            _ => Ok(()),
        }
    }

    // Appends all pictures: the whole pictures, then the open picture.
    fn write_all(
        &self,
        text: &mut String,
        labels: &PidLabels,
        last: &TracePoint,
    ) -> Result<(), AllocError>
        ensures { OnOk result (string_bytes text.new
            ≡ string_bytes text.old ++ spec.all_text labels.now self.now last.now) }
    {
        text.push_str(head_text())?;
        text.push_str(self.done.as_str())?;
        write_picture(
            text,
            labels,
            last,
            self.line.as_str(),
            self.marks.as_str(),
            self.rows.as_str(),
        )
    }

    /// Appends the pictures, if there are any, with their head.
    #[tactic(auto, unfolding(crate::specs::TracePictures::text_with))]
    pub fn write(&self, text: &mut String, labels: &PidLabels) -> Result<(), AllocError>
        ensures { OnOk result (string_bytes text.new
            ≡ string_bytes text.old ++ spec.pictures_text labels.now self.now) }
    {
        match &self.last {
            None => Ok(()),
            Some(last) => self.write_all(text, labels, last),
        }
    }
}
