//! A page, drawn of the events of a stream while they come.
ghost use Rattle.std.specs.Prelude.{◌≡◌, ◌++◌, OnOk, string_bytes};
ghost use Rattle.view_page.specs.Pages.{IsPage, PageState, after_event, after_events, no_events, with_end};
ghost use Rattle.view_page.specs.PageText.{page_text};

use crate::page_text::write_page;
use crate::services::Services;
use crate::values::Values;
use events::{Event, ReportEnd, TimedEvent};
use page_charts::TracePictures;
use page_curves::PidLabels;
use std::alloc::{AllocError, Global};
use view_rows::{Rows, take_label};

/// A page of a stream whose windows have `millis` milliseconds and whose moments go by a given rate in bits a second,
/// otherwise by stamps or by its clock references; with its events so far.
///
/// After an `AllocError` it describes no stream: drop it.
#[derive(Drop)]
pub struct Page {
    alloc: Global,
    pub millis: u32,
    pub rate: Option<u64>,
    pub stamps: bool,
    pub rows: Rows,
    pub values: Values,
    pub services: Services,
    pub labels: PidLabels,
    pub traces: TracePictures,
    pub end: ReportEnd,
}

impl Page {
    /// Returns the state before the first event.
    pub fn new(alloc: Global, millis: u32, rate: Option<u64>, stamps: bool) -> Page
        ensures { IsPage result (no_events millis rate stamps) }
    {
        Page {
            alloc,
            millis,
            rate,
            stamps,
            rows: Rows::new(alloc),
            values: Values::new(alloc),
            services: Services::new(alloc),
            labels: PidLabels::new(alloc),
            traces: TracePictures::new(alloc),
            end: ReportEnd {
                packets: 0,
                refused: 0,
                left: 0,
                length: None,
            },
        }
    }

    // The end of the stream, if an event is that.
    #[tactic(auto, unfolding(crate::specs::Pages::end_after))]
    fn take_end(&mut self, event: &Event)
        ensures { (s : PageState) → IsPage self.old s → IsPage self.new (with_end s event.now) }
    {
        if let Event::End(end) = event {
            self.end = *end;
        }
    }

    /// Takes an event.
    pub fn take(&mut self, event: &TimedEvent) -> Result<(), AllocError>
        ensures { (s : PageState) → IsPage self.old s → OnOk result (IsPage self.new (after_event s event.now)) }
    {
        self.rows.take(&self.labels, event)?;
        self.values.take(&event.event)?;
        self.services.take(&event.event)?;
        self.traces.take(&self.labels, &event.event)?;
        take_label(self.alloc, &mut self.labels, &event.event)?;
        self.take_end(&event.event);
        Ok(())
    }

    /// Takes events.
    pub fn take_all(&mut self, events: &[TimedEvent]) -> Result<(), AllocError>
        ensures { (s : PageState) → IsPage self.old s → OnOk result (IsPage self.new (after_events s events.now)) }
    {
        for event in events {
            self.take(event)?;
        }
        Ok(())
    }

    /// Appends the page.
    pub fn write(&self, text: &mut String) -> Result<(), AllocError>
        ensures { OnOk result (string_bytes text.new ≡ string_bytes text.old ++ page_text self.now) }
    {
        write_page(text, self)
    }
}
