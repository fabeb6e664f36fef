//! Events of PIDs in a window, and in the whole stream.
ghost use Rattle.std.specs.Prelude.{◌≡◌, ◌++◌, ◌*◌, ◌/◌, ◌-◌, ◌^◌, IfOk, OnOk, max, min, option_map, string_bytes};
ghost use Rattle.ts_watch.specs.WindowEvents as spec;

use crate::pid_labels::label_of;
use arrival::Arrival;
use clock27::{Rate, SLOT_MS_AT_1BPS};
use es_events::clocks::first_byte;
use es_events::view_options::ViewOptions;
use events::{Event, PidTotals, WindowFigures};
use std::alloc::{AllocError, Global};
use tr101290::{PidCounts, PidWindow};
use ts_tables::{NamedStreams, ServiceNames};

// Returns the window of the first byte of a packet at a constant rate.
#[inline(always)]
fn window_at_rate(rate: Rate, window: u32, index: u64) -> u64
    ensures { result ≡ min (index * 1504000 / max 1 (rate * window)) (2 ^ 64 - 1) }
{
    let length = (rate.bits_per_second() * u64::from(window)).max(1);
    match index.checked_mul(SLOT_MS_AT_1BPS as u64) {
        Some(time) => time / length,
        None => (u128::from(index) * SLOT_MS_AT_1BPS / u128::from(length)).min(u128::from(
            u64::MAX,
        )) as u64,
    }
}

/// Returns the window of the first byte of a packet.
#[inline(always)]
#[tactic(auto, unfolding(crate::specs::WindowEvents::window_by))]
pub fn window_of(options: &ViewOptions, index: u64) -> u64
    ensures { result ≡ spec.window_of options.now index }
{
    match &options.arrival {
        Arrival::Unknown => 0,
        Arrival::AtRate(rate) => window_at_rate(*rate, options.window, index),
        Arrival::OnLines(lines) => {
            let time = lines
                .moment(first_byte(index))
                .saturating_sub(options.origin);
            time / (27_000 * u64::from(options.window.max(1)))
        }
    }
}

fn rate_in(options: &ViewOptions, packets: u64) -> u128
    ensures { result ≡ spec.rate_in options.now packets }
{
    u128::from(packets) * SLOT_MS_AT_1BPS / u128::from(options.window.max(1))
}

#[tactic(auto, unfolding(crate::specs::WindowEvents::service_of))]
fn service_of(names: &ServiceNames, program: Option<u16>) -> Option<&str>
    ensures { option_map (λ name. name.now) result ≡ spec.service_of names.now.names program }
{
    match program {
        None => None,
        Some(program) => names.name(program),
    }
}

// Returns a copy of the name of a program's service, if it has one.
fn copied(alloc: Global, name: Option<&str>) -> Result<Option<String>, AllocError>
    ensures { IfOk result (λ copy. option_map string_bytes copy ≡ option_map (λ name. name.now) name.entry) }
{
    let Some(name) = name else {
        return Ok(None);
    };
    let mut copy = String::new(alloc);
    copy.push_str(name)?;
    Ok(Some(copy))
}

fn window_event(
    alloc: Global,
    options: &ViewOptions,
    named: &NamedStreams,
    names: &ServiceNames,
    window: u64,
    pid: u16,
    counts: PidCounts,
) -> Result<Event, AllocError>
    ensures { IfOk result (λ event. event
        ≡ spec.window_event options.now named.now names.now.names window (pid, counts)) }
{
    let label = label_of(named, pid);
    let service = copied(alloc, service_of(names, label.program))?;
    Ok(Event::Window(WindowFigures {
        number: window,
        pid,
        packets: counts.packets,
        pcrs: counts.pcrs,
        rate: rate_in(options, counts.packets),
        program: label.program,
        coding: label.coding,
        service,
    }))
}

/// Appends the packets of each PID in a window, with what the PIDs carry by the tables that are known.
pub fn push_window(
    alloc: Global,
    events: &mut Vec<Event>,
    options: &ViewOptions,
    named: &NamedStreams,
    names: &ServiceNames,
    window: &PidWindow<Global>,
) -> Result<(), AllocError>
    ensures { OnOk result (events.new.items
        ≡ events.old.items ++ spec.window_events options.now named.now names.now.names window.now) }
{
    let number = window.number();
    for (pid, counts) in window.counts() {
        events.push(window_event(alloc, options, named, names, number, *pid, *counts)?)?;
    }
    Ok(())
}

fn pid_event(pid: u16, counts: PidCounts) -> Event
    ensures { result ≡ spec.pid_event (pid, counts) }
{
    Event::Pid(PidTotals {
        number: pid,
        packets: counts.packets,
        pcrs: counts.pcrs,
    })
}

/// Appends all packets of each PID.
pub fn push_pids(events: &mut Vec<Event>, totals: &PidWindow<Global>) -> Result<(), AllocError>
    ensures { OnOk result (events.new.items ≡ events.old.items ++ spec.pid_events totals.now) }
{
    for (pid, counts) in totals.counts() {
        events.push(pid_event(*pid, *counts))?;
    }
    Ok(())
}
