//! Events of a stream in a window: what its buffers held, and the units that ended.
ghost use Rattle.std.specs.Prelude.{◌≡◌, ◌++◌, OnOk};
ghost use Rattle.tstd_rows.specs.Held.{Held, IsHeld};
ghost use Rattle.es_view.specs.HeldEvents as spec;

use crate::main_now::main_now;
use es_events::entry_events::{Place, span_of};
use es_events::tally::Tally;
use es_events::view_options::ViewOptions;
use events::{Event, HeldFigures, UnitFigures};
use std::alloc::AllocError;
use tstd_rows::StreamBuffers;

// Returns the most and the least bytes in the main buffer: if no payload byte entered it, what it holds now.
#[tactic(auto, unfolding(crate::specs::HeldEvents::main_held))]
fn main_held(tally: &Tally, buffers: &StreamBuffers) -> (u64, u64)
    ensures { (h : Held) → IsHeld buffers.now h →
        result ≡ spec.main_held tally.now.window_main h tally.now.window_least }
{
    match tally.window_least {
        None => {
            let now = main_now(buffers);
            (now, now)
        }
        Some(least) => (tally.window_main, least),
    }
}

fn held_event(place: &Place, tally: &Tally, main: (u64, u64)) -> Event
    ensures { result ≡ spec.held_with place.now tally.now main }
{
    Event::Held(HeldFigures {
        number: tally.window,
        pid: place.pid,
        transport: tally.window_transport,
        main: main.0,
        main_least: main.1,
    })
}

fn unit_event(options: &ViewOptions, place: &Place, tally: &Tally) -> Event
    ensures { result ≡ spec.unit_event options.now place.now tally.now }
{
    Event::Units(UnitFigures {
        number: tally.window,
        pid: place.pid,
        units: tally.window_units,
        late: tally.window_late,
        slack: span_of(options, place.rx, tally.slack),
    })
}

// Appends what the buffers held in a window, if a packet entered in it.
fn push_held_if(
    events: &mut Vec<Event>,
    window: u64,
    place: &Place,
    tally: &Tally,
    buffers: &StreamBuffers,
) -> Result<(), AllocError>
    ensures { (h : Held) → IsHeld buffers.now h → OnOk result (events.new.items
        ≡ events.old.items ++ spec.held_events window place.now tally.now h) }
{
    if tally.window == window && tally.window_transport > 0 {
        let main = main_held(tally, buffers);
        events.push(held_event(place, tally, main))?;
    }
    Ok(())
}

// Appends the units that ended in a window, if some did.
fn push_units_if(
    events: &mut Vec<Event>,
    options: &ViewOptions,
    window: u64,
    place: &Place,
    tally: &Tally,
) -> Result<(), AllocError>
    ensures { OnOk result (events.new.items
        ≡ events.old.items ++ spec.unit_events options.now window place.now tally.now) }
{
    if tally.window == window && tally.window_units > 0 {
        events.push(unit_event(options, place, tally))?;
    }
    Ok(())
}

/// Appends what the buffers held in a window, and the units that ended in it.
pub(crate) fn push_window_if(
    events: &mut Vec<Event>,
    options: &ViewOptions,
    window: u64,
    place: &Place,
    tally: &Tally,
    buffers: &StreamBuffers,
) -> Result<(), AllocError>
    ensures { (h : Held) → IsHeld buffers.now h → OnOk result (events.new.items
        ≡ events.old.items ++ spec.tally_events options.now window place.now tally.now h) }
{
    push_held_if(events, window, place, tally, buffers)?;
    push_units_if(events, options, window, place, tally)
}
