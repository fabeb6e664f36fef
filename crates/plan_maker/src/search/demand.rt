//! What each item of a description demands of a period.

ghost use Rattle.std.specs.Prelude.{◌≡◌, ◌≤◌, ◌<◌, ◌++◌, OnOk, IfOk, map, nat_lt, option_map};
ghost use Rattle.std.specs.List.{list_any};
ghost use Rattle.description_parts.specs.Tables.{table_count};
ghost use Rattle.plan_maker.specs.Demands as spec;
ghost use Rattle.plan_maker.specs.Demands.{need_view, demand_view};

use crate::clocks::clock_limit;
use crate::search::recurrence::Recurrence;
use crate::search::stream_rate::StreamRate;
use slot_plan::{Description, ProgramDescription, Slot};
use std::alloc::{AllocError, Allocator};

/// What an item needs its own slots for.
#[derive(Clone, Copy)]
pub enum Need<'a> {
    Stream(StreamRate<'a>),
    Recurring(Recurrence),
}

impl Need<'_> {
    /// Returns the least own slots of a period; None if none are enough.
    pub fn count(&self, period: u64) -> Option<u64>
        ensures { result ≡ spec.need_count (need_view self.now) period }
    {
        match self {
            Need::Stream(stream) => stream.count(period),
            Need::Recurring(recurrence) => recurrence.count(period),
        }
    }

    /// Returns the most that the own slots may stray from even spacing, in slots times own slots; None if they are
    /// too few.
    pub fn width(&self, period: u64, count: u64) -> Option<u64>
        ensures { result ≡ spec.need_width (need_view self.now) period count }
    {
        match self {
            Need::Stream(stream) => stream.width(period, count),
            Need::Recurring(recurrence) => recurrence.width(period, count),
        }
    }

    /// Returns whether more own slots can't help: the main buffer alone leaves them no slot.
    pub fn is_full(&self, period: u64, count: u64) -> bool
        ensures { result ≡ spec.need_is_full (need_view self.now) period count }
    {
        match self {
            Need::Stream(stream) => leaves_no_slot(count, stream.main_width(period, count)),
            Need::Recurring(_) => false,
        }
    }
}

/// Returns whether own slots that stray by at most this have less than a slot each to stray in.
fn leaves_no_slot(count: u64, width: Option<u128>) -> bool
    ensures { result ≡ spec.leaves_no_slot count width }
{
    match width {
        Some(width) => width < (count as u128).saturating_sub(1),
        None => true,
    }
}

/// An item, what it needs, and the number of its own slots in a period; `number` is its number in its kind, from 0, and
/// `kind` the number of items of that kind.
#[derive(Clone, Copy)]
pub struct Demand<'a> {
    pub slot: Slot,
    pub need: Need<'a>,
    pub number: u64,
    pub kind: u64,
    pub count: u64,
}

/// Returns the demands of a description in a period of `period` slots: streams, PCRs, tables, each by number. `None` if
/// the period can't serve them all. `distance` ms are asked for between packets of service information.
pub fn demands<'a, A: Allocator>(
    alloc: A,
    description: &'a Description,
    period: u64,
    distance: u64,
) -> Result<Option<Vec<Demand<'a>, A>>, AllocError>
    requires { period ≤ 65536 }
    ensures { IfOk result (λ found. option_map (λ ds. map demand_view ds.items) found
        ≡ spec.demands_of description.now distance period) }
{
    let mut demands = Vec::new(alloc);
    push_streams(&mut demands, description, period)?;
    push_pcrs(&mut demands, description, period)?;
    push_tables(&mut demands, description, period, distance)?;
    if any_over(&demands, period) {
        return Ok(None);
    }
    Ok(Some(demands))
}

/// Returns whether an item alone needs more slots than the period has.
fn any_over(demands: &[Demand<'_>], period: u64) -> bool
    ensures { result ≡ list_any (spec.is_over period) (map demand_view demands.now) }
{
    is_any_over(demands, period)
}

fn is_any_over(demands: &[Demand<'_>], period: u64) -> bool
    ensures { result ≡ list_any (λ d. nat_lt period d.count) demands.now }
{
    demands.iter().any(|demand| period < demand.count)
}

/// Returns the demand of an item; if no own slots are enough, one slot more than the period has.
fn demand_of<'a>(slot: Slot, need: Need<'a>, number: usize, kind: usize, period: u64) -> Demand<'a>
    requires { period ≤ 65536 }
    ensures { demand_view result ≡ spec.demand_of slot (need_view need.entry) number kind period }
{
    Demand {
        slot,
        need,
        number: number as u64,
        kind: kind as u64,
        count: count_within(period, need.count(period)),
    }
}

/// Returns the number of own slots, at most one more than the period has (that value if no number is enough).
fn count_within(period: u64, count: Option<u64>) -> u64
    requires { period ≤ 65536 }
    ensures { result ≡ spec.count_within period count }
{
    match count {
        Some(count) if count <= period => count,
        _ => period + 1,
    }
}

/// Appends the demands of the streams.
fn push_streams<'a, A: Allocator>(
    demands: &mut Vec<Demand<'a>, A>,
    description: &'a Description,
    period: u64,
) -> Result<(), AllocError>
    requires { period ≤ 65536 }
    ensures { OnOk result (map demand_view demands.new.items
        ≡ map demand_view demands.old.items ++ spec.stream_demands description.now period) }
{
    let kind = description.streams().len();
    let rate = description.rate().bits_per_second();
    for (i, stream) in description.streams().iter().enumerate() {
        let need = Need::Stream(StreamRate::new(stream, rate));
        demands.push(demand_of(Slot::Stream(i as u8), need, i, kind, period))?;
    }
    Ok(())
}

/// Appends the demand of the clock references of program number `i`, if its slots carry any.
fn push_clock<'a, A: Allocator>(
    demands: &mut Vec<Demand<'a>, A>,
    description: &'a Description,
    i: usize,
    program: &ProgramDescription,
    period: u64,
) -> Result<(), AllocError>
    requires period { period ≤ 65536 }
    requires small { i < 256 }
    ensures { OnOk result (map demand_view demands.new.items
        ≡ map demand_view demands.old.items ++ spec.clock_demand description.now period i program.now) }
{
    if !description.has_references(i) {
        return Ok(());
    }
    let kind = description.programs().len();
    let rate = description.rate().bits_per_second();
    let limit = clock_limit(description, program) as u64;
    let need = Need::Recurring(Recurrence::within(limit, rate, 1, 0));
    demands.push(demand_of(Slot::Pcr(i as u8), need, i, kind, period))?;
    Ok(())
}

/// Appends the demands of the programs' clocks.
fn push_pcrs<'a, A: Allocator>(
    demands: &mut Vec<Demand<'a>, A>,
    description: &'a Description,
    period: u64,
) -> Result<(), AllocError>
    requires { period ≤ 65536 }
    ensures { OnOk result (map demand_view demands.new.items
        ≡ map demand_view demands.old.items ++ spec.pcr_demands description.now period) }
{
    for (i, program) in description.programs().iter().enumerate() {
        push_clock(demands, description, i, program, period)?;
    }
    Ok(())
}

/// Returns whether a PID is one of service information (EN 300 468, 5.1.3).
fn is_service_information(pid: u16) -> bool
    ensures { result ≡ spec.is_service_information pid }
{
    0x10 <= pid && pid <= 0x14
}

/// Returns the distance in ms that is asked for between two packets of a table: 0 if it is no service information.
fn distance_of(description: &Description, table: usize, distance: u64) -> u64
    requires { table < table_count description.now }
    ensures { result ≡ spec.distance_of description.now distance table }
{
    if is_service_information(description.table_pid(table)) {
        distance
    } else {
        0
    }
}

/// Appends the demands of the tables.
fn push_tables<'a, A: Allocator>(
    demands: &mut Vec<Demand<'a>, A>,
    description: &'a Description,
    period: u64,
    distance: u64,
) -> Result<(), AllocError>
    requires { period ≤ 65536 }
    ensures { OnOk result (map demand_view demands.new.items
        ≡ map demand_view demands.old.items ++ spec.table_demands description.now distance period) }
{
    description.keeps_ranges();
    let kind = description.tables();
    let rate = description.rate().bits_per_second();
    for t in 0..kind {
        let limit = description.table_limit(t) as u64;
        let packets = description.round_packets(t) as u64;
        let apart = distance_of(description, t, distance);
        let need = Need::Recurring(Recurrence::within(limit, rate, packets, apart));
        demands.push(demand_of(Slot::Table(t as u8), need, t, kind, period))?;
    }
    Ok(())
}

/// Returns the own slots of all items together.
pub fn total(demands: &[Demand<'_>]) -> u64
    ensures { result ≡ spec.total_count demands.now }
{
    let mut total: u64 = 0;
    for demand in demands {
        total = total.saturating_add(demand.count);
    }
    total
}
