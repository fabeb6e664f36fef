//! Tables that stop before the end of a stream.
ghost use Rattle.std.specs.Prelude.{◌≡◌, ◌++◌, OnOk, flat_map};
ghost use Rattle.std.specs.Option.{option_to_list};
ghost use Rattle.tr101290.specs.StoppedTables as spec;

use crate::intervals::{
    SectionBegin, SectionPlaces, TableError, TableIntervals, error_if, key_of, pid_of, places_at,
    table_id_of,
};
use crate::limits::limit_of;
use crate::parts::has_parts;
use std::alloc::{AllocError, Allocator};

// Returns a section that would begin at the end.
fn section_at_end(packet: u64, place: u64, key: u32, part: Option<u16>) -> SectionBegin
    ensures { result ≡ spec.section_at_end packet place key part }
{
    SectionBegin {
        pid: (pid_of(key) % 65_536) as u16,
        table_id: table_id_of(key),
        part,
        packet,
        place,
    }
}

// Returns the places of the last sections: the place of an open section, if there is one.
#[tactic(auto, unfolding(crate::specs::StoppedTables::last_places))]
fn last_places(places: &SectionPlaces, opened: Option<SectionPlaces>) -> SectionPlaces
    ensures { result ≡ spec.last_places places.now opened }
{
    match opened {
        None => *places,
        Some(opened) => opened,
    }
}

// Returns the error of a section that would begin at the end.
fn error_at_end<A: Allocator + Copy>(
    tables: &TableIntervals<A>,
    opened: &TableIntervals<A>,
    section: SectionBegin,
    places: &SectionPlaces,
) -> Option<TableError>
    ensures { result ≡ spec.error_at_end tables.now opened.now section places.now }
{
    let key = key_of(section.pid, section.table_id);
    let last = last_places(places, places_at(opened.entries(), key));
    let limit = limit_of(section.pid, section.table_id);
    error_if(tables.timing(), section, &Some(last), limit)
}

fn push_if<A: Allocator>(
    errors: &mut Vec<TableError, A>,
    error: Option<TableError>,
) -> Result<(), AllocError>
    ensures { OnOk result (errors.new.items ≡ errors.old.items ++ option_to_list error) }
{
    if let Some(error) = error {
        errors.push(error)?;
    }
    Ok(())
}

// Appends the error of a table without parts.
fn push_table<A: Allocator + Copy>(
    tables: &TableIntervals<A>,
    opened: &TableIntervals<A>,
    section: SectionBegin,
    places: &SectionPlaces,
    errors: &mut Vec<TableError, A>,
) -> Result<(), AllocError>
    ensures { OnOk result (errors.new.items ≡ errors.old.items
        ++ spec.table_error_at_end tables.now opened.now section places.now) }
{
    if has_parts(section.pid, section.table_id) {
        return Ok(());
    }
    push_if(errors, error_at_end(tables, opened, section, places))
}

fn push_tables<A: Allocator + Copy>(
    tables: &TableIntervals<A>,
    opened: &TableIntervals<A>,
    packet: u64,
    place: u64,
    errors: &mut Vec<TableError, A>,
) -> Result<(), AllocError>
    ensures { OnOk result (errors.new.items
        ≡ errors.old.items ++ spec.stopped_wholes tables.now opened.now packet place) }
{
    for (key, places) in tables.entries() {
        let section = section_at_end(packet, place, *key, None);
        push_table(tables, opened, section, places, errors)?;
    }
    Ok(())
}

fn push_parts<A: Allocator + Copy>(
    tables: &TableIntervals<A>,
    opened: &TableIntervals<A>,
    packet: u64,
    place: u64,
    errors: &mut Vec<TableError, A>,
) -> Result<(), AllocError>
    ensures { OnOk result (errors.new.items
        ≡ errors.old.items ++ spec.stopped_parts tables.now opened.now packet place) }
{
    for (key, places) in tables.parts() {
        let part = Some((*key % 65_536) as u16);
        let section = section_at_end(packet, place, (*key / 65_536 % 4_294_967_296) as u32, part);
        push_if(errors, error_at_end(tables, opened, section, places))?;
    }
    Ok(())
}

/// Appends an error for each table, and for each part that has to recur by itself, whose last section lies too far back
/// at the end of a stream: the number of packets and its place; `opened` has the sections that are open there.
pub fn push_stopped<A: Allocator + Copy>(
    tables: &TableIntervals<A>,
    opened: &TableIntervals<A>,
    packet: u64,
    place: u64,
    errors: &mut Vec<TableError, A>,
) -> Result<(), AllocError>
    ensures { OnOk result (errors.new.items
        ≡ errors.old.items ++ spec.stopped_tables tables.now opened.now packet place) }
{
    push_tables(tables, opened, packet, place, errors)?;
    push_parts(tables, opened, packet, place, errors)
}
