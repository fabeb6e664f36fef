//! The distances at which the plain plan sets the slots of each item.

ghost use Rattle.std.specs.Prelude.{◌≡◌, ◌<◌, ◌≤◌, ◌++◌, IfOk, OnOk};
ghost use Rattle.description_parts.specs.Ranges.{IsStream};
ghost use Rattle.description_parts.specs.Tables.{table_count};
ghost use Rattle.plan_maker.specs.Spacings.{within, spacing, stream_room, pcr_room, table_room};
ghost use Rattle.plan_maker.specs.Spacings.{spaced_streams, spaced_clock, spaced_pcrs, spaced_tables, spaced_items};

use crate::clocks::clock_limit;
use clock27::SLOT_MS_AT_1BPS;
use plan_checker::{steady_packets, steady_time};
use slot_plan::{Description, ProgramDescription, Slot, StreamDescription};
use std::alloc::{AllocError, Allocator};

/// What the slots of an item carry, and their distance in slots; 0 if no spacing serves it.
#[derive(Clone, Copy)]
pub struct Spaced {
    pub slot: Slot,
    pub spacing: u64,
}

/// Returns a number of slots if there is room for it, otherwise 0.
fn within(room: u64, slots: u64) -> u64
    ensures within { result ≡ within room slots }
    ensures bound { result ≤ slots }
{
    if slots <= room { slots } else { 0 }
}

/// Returns the greatest power of two that is at most 65,536 and at most `room`; 0 if there is no such power.
pub fn spacing_of(room: u64) -> u64
    ensures spacing { result ≡ spacing room }
    ensures bound { result ≤ 65536 }
{
    let mut spacing = 0;
    let mut power: u64 = 1;
    for exponent in 0..17usize {
        spacing = spacing.max(within(room, power));
        power *= 2;
    }
    spacing
}

/// Returns the slots for each packet of a stream in the long run, rounded down.
fn stream_room(description: &Description, stream: &StreamDescription) -> u64
    requires { IsStream stream.now }
    ensures { result ≡ stream_room description.now stream.now }
{
    steady_time(stream) * description.rate().bits_per_second() / steady_packets(stream)
}

/// Returns the slots within which a program's clock needs a PCR.
fn pcr_room(description: &Description, program: &ProgramDescription) -> u64
    ensures { result ≡ pcr_room description.now program.now }
{
    let limit = clock_limit(description, program) as u64;
    limit * description.rate().bits_per_second() / SLOT_MS_AT_1BPS as u64
}

/// Returns the slots within which a table needs a packet.
fn table_room(description: &Description, t: usize) -> u64
    requires { t < table_count description.now }
    ensures { result ≡ table_room description.now t }
{
    description.keeps_ranges();
    let limit = description.table_limit(t) as u64 * description.rate().bits_per_second();
    let round = SLOT_MS_AT_1BPS as u64 * description.round_packets(t) as u64;
    if round == 0 { 0 } else { limit / round }
}

/// Returns the items of a description with their spacings: streams, PCRs, tables, each by number.
pub fn spaced_items<A: Allocator>(
    alloc: A,
    description: &Description,
) -> Result<Vec<Spaced, A>, AllocError>
    ensures { IfOk result (λ items. items.items ≡ spaced_items description.now) }
{
    let mut items = Vec::new(alloc);
    push_streams(&mut items, description)?;
    push_pcrs(&mut items, description)?;
    push_tables(&mut items, description)?;
    Ok(items)
}

fn push_streams<A: Allocator>(
    items: &mut Vec<Spaced, A>,
    description: &Description,
) -> Result<(), AllocError>
    ensures { OnOk result (items.new.items ≡ items.old.items ++ spaced_streams description.now) }
{
    for (i, stream) in description.streams().iter().enumerate() {
        let spacing = spacing_of(stream_room(description, stream));
        items.push(Spaced {
            slot: Slot::Stream(i as u8),
            spacing,
        })?;
    }
    Ok(())
}

/// Appends the clock references of program number `i`, if its slots carry any.
fn push_clock<A: Allocator>(
    items: &mut Vec<Spaced, A>,
    description: &Description,
    i: usize,
    program: &ProgramDescription,
) -> Result<(), AllocError>
    requires { i < 256 }
    ensures { OnOk result (items.new.items ≡ items.old.items ++ spaced_clock description.now i program.now) }
{
    if !description.has_references(i) {
        return Ok(());
    }
    let spacing = spacing_of(pcr_room(description, program));
    items.push(Spaced {
        slot: Slot::Pcr(i as u8),
        spacing,
    })?;
    Ok(())
}

fn push_pcrs<A: Allocator>(
    items: &mut Vec<Spaced, A>,
    description: &Description,
) -> Result<(), AllocError>
    ensures { OnOk result (items.new.items ≡ items.old.items ++ spaced_pcrs description.now) }
{
    for (i, program) in description.programs().iter().enumerate() {
        push_clock(items, description, i, program)?;
    }
    Ok(())
}

fn push_tables<A: Allocator>(
    items: &mut Vec<Spaced, A>,
    description: &Description,
) -> Result<(), AllocError>
    ensures { OnOk result (items.new.items ≡ items.old.items ++ spaced_tables description.now) }
{
    description.keeps_ranges();
    for t in 0..description.tables() {
        let spacing = spacing_of(table_room(description, t));
        items.push(Spaced {
            slot: Slot::Table(t as u8),
            spacing,
        })?;
    }
    Ok(())
}
