//! The contents of a document, key by key.

ghost use Rattle.std.specs.Prelude.{◌≡◌, map, unwrap_or, None, IfOk};
ghost use Rattle.std.specs.List.{filter_map};
ghost use Rattle.toml.specs.View.{view};
ghost use Rattle.description_values.specs.Values.{section_in};
ghost use Rattle.description_keys.specs.TopKeys as top;
ghost use Rattle.description_keys.specs.Refusals as refusals;
ghost use Rattle.description_parts.specs.Contents as spec;

use crate::contents::Contents;
use crate::event::EventDescription;
use crate::map_entry::MapEntry;
use crate::networks::network_in;
use crate::private_table::PrivateTable;
use crate::program::ProgramDescription;
use crate::rooms::Rooms;
use crate::stream::StreamDescription;
use crate::versions::Versions;
use arrayvec::ArrayVec;
use clock27::Rate;
use description_keys::clock_keys::{clock_pid, clock_pid_in, has_own_clock};
use description_keys::eit_keys::has_eit;
use description_keys::frame_keys::framing;
use description_keys::limits::is_transponder;
use description_keys::loop_keys::{has_event_loop, has_service_loop};
use description_keys::multiplexing_keys::multiplexing;
use description_keys::owner::{is_owned_by, owner_number, program_number};
use description_keys::sharers::sharers;
use description_keys::version_keys::{NamedTable, version_at};
use description_keys::{stream_keys, table_keys};
use description_values::arrays::elements;
use description_values::descriptors::{descriptor_bytes_or_none, descriptors_or_none};
use description_values::moments::moment_at;
use description_values::private_section::section_of;
use description_values::texts::{
    empty_text, language_at, optional_language, text_at, text_or_empty,
};
use description_values::values::{boolean_or, number_at, number_or};
use description_values::{DescriptorLoop, PrivateSection};
use dvb_tables::{Event, Text, push_service, push_short_event};
use std::alloc::{AllocError, Global};
use toml::Value;

// Returns the descriptor of an event's name and text.
fn short_event(event: &Value) -> ArrayVec<u8, 4000>
    ensures { result.items ≡ spec.short_event (view event.now) }
{
    let text = Event {
        id: 0,
        start: 0,
        duration: 0,
        language: language_at(event, "language").unwrap_or(*b"und"),
        name: text_at(event, "name").unwrap_or(empty_text()),
        text: text_at(event, "text").unwrap_or(empty_text()),
    };
    let mut bytes = ArrayVec::new();
    push_short_event(&mut bytes, &text);
    bytes
}

fn event_bytes(event: &Value) -> ArrayVec<u8, 4000>
    ensures { result.items ≡ spec.event_loop (view event.now) }
{
    if has_event_loop(event) {
        descriptor_bytes_or_none(event, "descriptors").unwrap_or(ArrayVec::new())
    } else {
        short_event(event)
    }
}

// Returns a copy of bytes that takes no more memory than they need.
fn kept(alloc: Global, bytes: &[u8]) -> Result<Vec<u8>, AllocError>
    ensures { IfOk result (λ v. v.items ≡ bytes.now) }
{
    let mut kept = Vec::new(alloc);
    kept.extend_from_slice(bytes)?;
    Ok(kept)
}

fn event_of(alloc: Global, event: &Value) -> Result<EventDescription, AllocError>
    ensures { IfOk result (λ e. e ≡ spec.described_event (view event.now)) }
{
    let descriptors = kept(alloc, event_bytes(event).as_slice())?;
    Ok(EventDescription {
        id: number_at(event, "id", 0, 65_535) as u16,
        start: moment_at(event, "start").unwrap_or(0),
        duration: number_at(event, "duration", 1, 359_999) as u32,
        descriptors,
    })
}

fn events_of(
    alloc: Global,
    number: u16,
    events: &[Value],
) -> Result<Vec<EventDescription>, AllocError>
    ensures { IfOk result (λ v. v.items ≡ spec.described_events number (map view events.now)) }
{
    let mut owned = Vec::new(alloc);
    for event in events {
        if is_owned_by(number, event) {
            owned.push(event_of(alloc, event)?)?;
        }
    }
    Ok(owned)
}

// Returns the descriptor of a service's type, provider and name.
fn named_service(program: &Value) -> ArrayVec<u8, 1004>
    ensures { result.items ≡ spec.named_service (view program.now) }
{
    let service_type = number_or(1, program, "service_type", 0, 255) as u8;
    let provider: Text<100> = text_or_empty(program, "provider").unwrap_or(empty_text());
    let name: Text<100> = text_or_empty(program, "name").unwrap_or(empty_text());
    let mut bytes = ArrayVec::new();
    push_service(&mut bytes, service_type, &provider, &name);
    bytes
}

fn service_bytes(program: &Value) -> ArrayVec<u8, 1004>
    ensures { result.items ≡ spec.service_loop (view program.now) }
{
    if has_service_loop(program) {
        descriptor_bytes_or_none(program, "service_descriptors").unwrap_or(ArrayVec::new())
    } else {
        named_service(program)
    }
}

fn program_of(
    alloc: Global,
    document: &Value,
    program: &Value,
) -> Result<ProgramDescription, AllocError>
    ensures { IfOk result (λ p. p ≡ spec.described_program (view document.now) (view program.now)) }
{
    let number = program_number(program).unwrap_or(1);
    let events = events_of(alloc, number, elements(document, "event"))?;
    let service_descriptors = kept(alloc, service_bytes(program).as_slice())?;
    Ok(ProgramDescription {
        number,
        pmt_pid: number_at(program, "pmt_pid", 32, 8_190) as u16,
        pcr_pid: clock_pid_in(document, program),
        has_clock: has_own_clock(program),
        pcr_limit: number_or(40, program, "pcr_limit", 1, 100) as u8,
        pmt_packets: number_or(1, program, "pmt_packets", 1, 6) as u8,
        is_on_air: boolean_or(true, program, "on_air").unwrap_or(true),
        pmt_version: version_at(NamedTable::Pmt, number, document),
        eit_count: version_at(NamedTable::Eit, number, document),
        descriptors: descriptors_or_none(program, "descriptors").unwrap_or(DescriptorLoop::none()),
        service_descriptors,
        running_status: number_or(4, program, "running_status", 0, 7) as u8,
        free_ca: boolean_or(false, program, "free_ca").unwrap_or(false),
        eit_schedule: boolean_or(false, program, "eit_schedule").unwrap_or(false),
        events,
    })
}

fn programs_of(
    alloc: Global,
    document: &Value,
    parts: &[Value],
) -> Result<Vec<ProgramDescription>, AllocError>
    ensures { IfOk result (λ v. v.items ≡ map (spec.described_program (view document.now)) (map view parts.now)) }
{
    let mut programs = Vec::new(alloc);
    for part in parts {
        programs.push(program_of(alloc, document, part)?)?;
    }
    Ok(programs)
}

fn stream_of(stream: &Value) -> StreamDescription
    ensures { result ≡ spec.described_stream (view stream.now) }
{
    StreamDescription {
        program: owner_number(stream).unwrap_or(1),
        pid: number_at(stream, "pid", 32, 8_190) as u16,
        stream_id: stream_keys::id_or_private(stream),
        stream_type: number_at(stream, "type", 0, 255) as u8,
        interval: stream_keys::interval(stream).unwrap_or(1),
        size: stream_keys::size(stream).unwrap_or(1),
        lead: number_at(stream, "lead", 1, 90_000) as u32,
        pts_limit: number_or(90_000, stream, "pts_limit", 1, 5_400_000) as u32,
        rx: stream_keys::rx(stream).unwrap_or(64_000),
        main: stream_keys::main_buffer(stream).unwrap_or(1),
        tag: stream_keys::tag(stream).unwrap_or(None),
        language: optional_language(stream, "language").unwrap_or(None),
        descriptors: descriptors_or_none(stream, "descriptors").unwrap_or(DescriptorLoop::none()),
        allowance: stream_keys::allowance(stream),
        shared_with: sharers(stream),
        multiplexing: multiplexing(stream),
        framing: framing(stream),
    }
}

fn streams_of(alloc: Global, parts: &[Value]) -> Result<Vec<StreamDescription>, AllocError>
    ensures { IfOk result (λ v. v.items ≡ map spec.described_stream (map view parts.now)) }
{
    let mut streams = Vec::new(alloc);
    for part in parts {
        streams.push(stream_of(part))?;
    }
    Ok(streams)
}

fn sections_of(alloc: Global, parts: &[Value]) -> Result<Vec<PrivateSection>, AllocError>
    ensures { IfOk result (λ v. v.items ≡ filter_map section_in (map view parts.now)) }
{
    let mut sections = Vec::new(alloc);
    for part in parts {
        if let Some(section) = section_of(part) {
            sections.push(section)?;
        }
    }
    Ok(sections)
}

fn entry_of(table: &Value) -> MapEntry
    ensures { result ≡ spec.described_entry (view table.now) }
{
    MapEntry {
        program: owner_number(table).unwrap_or(1),
        stream_type: table_keys::entry_type(table).unwrap_or(1),
        descriptors: table_keys::entry_descriptors(table).unwrap_or(DescriptorLoop::none()),
    }
}

fn entry_if_listed(table: &Value) -> Option<MapEntry>
    ensures { result ≡ spec.entry_if_listed (view table.now) }
{
    if table_keys::is_listed(table) {
        Some(entry_of(table))
    } else {
        None
    }
}

fn table_of(alloc: Global, table: &Value) -> Result<PrivateTable, AllocError>
    ensures { IfOk result (λ t. t ≡ spec.described_table (view table.now)) }
{
    let sections = sections_of(alloc, elements(table, "sections"))?;
    Ok(PrivateTable {
        pid: number_at(table, "pid", 32, 8_190) as u16,
        limit: number_at(table, "limit", 1, 30_000) as u16,
        sections,
        entry: entry_if_listed(table),
    })
}

fn tables_of(alloc: Global, parts: &[Value]) -> Result<Vec<PrivateTable>, AllocError>
    ensures { IfOk result (λ v. v.items ≡ map spec.described_table (map view parts.now)) }
{
    let mut tables = Vec::new(alloc);
    for part in parts {
        tables.push(table_of(alloc, part)?)?;
    }
    Ok(tables)
}

fn rate_of(document: &Value) -> Rate
    ensures { result ≡ unwrap_or (top.rate (view document.now)) 100000 }
{
    match Rate::new(number_at(document, "rate", 100_000, 100_000_000)) {
        Ok(rate) => rate,
        Err(_) => unreachable!(),
    }
}

fn rooms_of(document: &Value) -> Rooms
    ensures { result ≡ spec.described_rooms (view document.now) }
{
    Rooms {
        pat: number_or(1, document, "pat_packets", 1, 6) as u8,
        sdt: number_or(1, document, "sdt_packets", 1, 6) as u8,
        nit: number_or(1, document, "nit_packets", 1, 6) as u8,
        eit: number_or(2, document, "eit_packets", 2, 23) as u8,
    }
}

fn versions_of(document: &Value) -> Versions
    ensures { result ≡ spec.described_versions (view document.now) }
{
    Versions {
        pat: version_at(NamedTable::Pat, 0, document),
        sdt: version_at(NamedTable::Sdt, 0, document),
        nit: version_at(NamedTable::Nit, 0, document),
    }
}

/// Returns the contents of a document whose keys are all in their ranges.
pub fn contents_of(alloc: Global, document: &Value) -> Result<Contents, AllocError>
    requires { refusals.key_fault (view document.now) ≡ None }
    ensures { IfOk result (λ c. c ≡ spec.described (view document.now)) }
{
    let programs = programs_of(alloc, document, elements(document, "program"))?;
    let streams = streams_of(alloc, elements(document, "stream"))?;
    let tables = tables_of(alloc, elements(document, "table"))?;
    let network = network_in(alloc, document)?;
    Ok(Contents {
        rate: rate_of(document),
        start: moment_at(document, "start").unwrap_or(0),
        base0: number_or(0, document, "base0", 0, 0x1_ffff_ffff),
        transport_stream_id: number_at(document, "ts_id", 0, 65_535) as u16,
        original_network_id: number_at(document, "original_network_id", 0, 65_535) as u16,
        has_sdt: boolean_or(false, document, "sdt").unwrap_or(false),
        has_tdt: boolean_or(false, document, "tdt").unwrap_or(false),
        is_transponder: is_transponder(document),
        clock_pid: clock_pid(document),
        has_eit: has_eit(document),
        rooms: rooms_of(document),
        versions: versions_of(document),
        network,
        programs,
        streams,
        tables,
    })
}
