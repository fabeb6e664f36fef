//! Refusals of the parts of a document taken together.

ghost use Rattle.std.specs.Prelude.{◌≡◌, ◌<◌, ◌≤◌, ◌+◌, ◌++◌, [], length, map, filter, nat_lt};
ghost use Rattle.std.specs.List.{list_any};
ghost use Rattle.std.specs.Option.{option_to_list};
ghost use Rattle.arrayvec.specs.ArrayVec.{array_vec_len};
ghost use Rattle.toml.specs.View.{view};
ghost use Rattle.description_parts.specs.Ranges.{last_moment, named_pids, longest_section};
ghost use Rattle.description_parts.specs.Tables.{table_kinds};
ghost use Rattle.description_parts.specs.Consistency as spec;

use crate::contents::Contents;
use crate::private_table::PrivateTable;
use crate::program::ProgramDescription;
use crate::stream::StreamDescription;
use crate::table_kind::TableKind;
use arrayvec::ArrayVec;
use description_keys::DescFault;
use description_keys::owner::owner_number;
use description_values::arrays::elements;
use description_values::moments::moment_at;
use description_values::values::{is_distinct, number_at};
use toml::Value;

fn push_pmt_pids(pids: &mut ArrayVec<u16, 447>, programs: &[ProgramDescription])
    requires { array_vec_len pids.old + length programs.now ≤ 447 }
    ensures { pids.new.items ≡ pids.old.items ++ map (λ p. p.pmt_pid) programs.now }
{
    for program in programs {
        pids.push(program.pmt_pid());
    }
}

// Appends the PIDs of the programs that have clock references of their own.
fn push_pcr_pids(pids: &mut ArrayVec<u16, 447>, programs: &[ProgramDescription])
    requires { array_vec_len pids.old + length programs.now ≤ 447 }
    ensures value { pids.new.items ≡ pids.old.items ++ map (λ p. p.pcr_pid) (filter (λ p. p.has_clock) programs.now) }
    ensures most { length pids.new.items ≤ length pids.old.items + length programs.now }
{
    for program in programs {
        if program.has_clock() {
            pids.push(program.pcr_pid());
        }
    }
}

fn push_clock_pid(pids: &mut ArrayVec<u16, 447>, clock_pid: Option<u16>)
    requires { array_vec_len pids.old < 447 }
    ensures value { pids.new.items ≡ pids.old.items ++ option_to_list clock_pid }
    ensures most { length pids.new.items ≤ length pids.old.items + 1 }
{
    if let Some(pid) = clock_pid {
        pids.push(pid);
    }
}

fn push_stream_pids(pids: &mut ArrayVec<u16, 447>, streams: &[StreamDescription])
    requires { array_vec_len pids.old + length streams.now ≤ 447 }
    ensures { pids.new.items ≡ pids.old.items ++ map (λ s. s.pid) streams.now }
{
    for stream in streams {
        pids.push(stream.pid);
    }
}

fn push_table_pids(pids: &mut ArrayVec<u16, 447>, tables: &[PrivateTable])
    requires { array_vec_len pids.old + length tables.now ≤ 447 }
    ensures { pids.new.items ≡ pids.old.items ++ map (λ t. t.pid) tables.now }
{
    for table in tables {
        pids.push(table.pid());
    }
}

// Returns every PID that the description names.
fn named_pids(contents: &Contents) -> ArrayVec<u16, 447>
    ensures { result.items ≡ named_pids contents.now }
{
    let mut pids = ArrayVec::new();
    push_pmt_pids(&mut pids, contents.programs());
    push_pcr_pids(&mut pids, contents.programs());
    push_clock_pid(&mut pids, contents.clock_pid());
    push_stream_pids(&mut pids, contents.streams());
    push_table_pids(&mut pids, contents.private_tables());
    pids
}

fn program_numbers(programs: &[ProgramDescription]) -> ArrayVec<u16, 64>
    requires { length programs.now ≤ 64 }
    ensures { result.items ≡ map (λ p. p.number) programs.now }
{
    let mut numbers = ArrayVec::new();
    for program in programs {
        numbers.push(program.number());
    }
    numbers
}

fn equal_pids_fault(contents: &Contents) -> Option<DescFault>
    ensures { result ≡ spec.equal_pids_fault contents.now }
{
    if is_distinct(named_pids(contents).as_slice()) {
        None
    } else {
        Some(DescFault::EqualPids)
    }
}

fn equal_numbers_fault(contents: &Contents) -> Option<DescFault>
    ensures { result ≡ spec.equal_numbers_fault contents.now }
{
    if is_distinct(program_numbers(contents.programs()).as_slice()) {
        None
    } else {
        Some(DescFault::EqualNumbers)
    }
}

// Returns when an event begins, in seconds since 1970.
fn event_begin(event: &Value) -> u64
    ensures value { result ≡ spec.event_begin (view event.now) }
    ensures bound { result ≤ last_moment }
{
    moment_at(event, "start").unwrap_or(0)
}

// Returns whether an event begins before an earlier event of its program ends.
fn overlaps(event: &Value, earlier: &Value) -> bool
    ensures { result ≡ spec.overlaps (view event.now) (view earlier.now) }
{
    let duration = number_at(earlier, "duration", 1, 359_999);
    let is_of_its_program = owner_number(earlier).unwrap_or(1) == owner_number(event).unwrap_or(1);
    is_of_its_program && event_begin(event) < event_begin(earlier) + duration
}

fn overlaps_one(event: &Value, earlier: &[Value]) -> bool
    ensures { result ≡ list_any (λ v. spec.overlaps (view event.now) (view v)) earlier.now }
{
    earlier.iter().any(|other| overlaps(event, other))
}

// Returns the place of the first event that begins before an earlier event of its program ends.
fn first_overlap(events: &[Value]) -> Option<usize>
    ensures { result ≡ spec.first_overlap 0 [] (map view events.now) }
{
    for item in 0..events.len() {
        if overlaps_one(&events[item], &events[..item]) {
            return Some(item);
        }
    }
    None
}

fn event_order_fault(document: &Value) -> Option<DescFault>
    ensures { result ≡ spec.event_order_fault (view document.now) }
{
    first_overlap(elements(document, "event")).map(DescFault::EventOrder)
}

// Returns whether a length exceeds the length of a section with a section_length of 1,021.
fn has_long(lengths: &[u16]) -> bool
    ensures { result ≡ list_any (nat_lt longest_section) lengths.now }
{
    lengths.iter().any(|length| *length > 1024)
}

impl Contents {
    fn is_too_long(&self, kind: TableKind) -> bool
        ensures { result ≡ spec.is_too_long self.now kind }
    {
        match kind {
            TableKind::Pmt(place) => match self.programs().get(place) {
                None => false,
                Some(program) => self.map_length(program) > 1024,
            },
            TableKind::Nit => has_long(self.network_lengths().as_slice()),
            TableKind::Sdt => has_long(self.sdt_lengths().as_slice()),
            TableKind::Pat | TableKind::Eit | TableKind::Tdt | TableKind::Private(_) => false,
        }
    }

    // Returns the number of the first table that would be too long.
    fn first_too_long(&self) -> Option<usize>
        ensures { result ≡ spec.first_place (spec.is_too_long self.now) 0 (table_kinds self.now) }
    {
        for table in 0..self.tables() {
            let kind = self.kind(table)?;
            if self.is_too_long(kind) {
                return Some(table);
            }
        }
        None
    }
}

fn too_long_fault(contents: &Contents) -> Option<DescFault>
    ensures { result ≡ spec.too_long_fault contents.now }
{
    contents.first_too_long().map(DescFault::TooLong)
}

/// Returns the first refusal of the parts together: equal PIDs, equal program numbers, events out of
/// order, a table too long.
pub fn joint_fault(contents: &Contents, document: &Value) -> Option<DescFault>
    ensures { result ≡ spec.joint_fault contents.now (view document.now) }
{
    equal_pids_fault(contents)
        .or_else(|| equal_numbers_fault(contents))
        .or_else(|| event_order_fault(document))
        .or_else(|| too_long_fault(contents))
}
