//! Why a description is no text of another.

ghost use Rattle.std.specs.List.{list_any};
ghost use Rattle.std.specs.Prelude.{◌≡◌, ◌==◌};
ghost use Rattle.description_parts.specs.Tables.{has_event, has_events_table};
ghost use Rattle.changed_texts.specs.Fixed.{is_same_option};
ghost use Rattle.changed_texts.specs.TextFaults as spec;

use crate::fixed::{program_difference, stream_difference, table_difference};
use crate::private_versions::version_fault;
use crate::shapes::shape_fault;
use description::Description;
use description_parts::ProgramDescription;
use description_parts::table_kind::has_event;
use thiserror::Error;

/// Why a description may not take the place of the texts on air. A number is the place of a program or of a stream, or
/// the number of a table, from 0.
#[derive(Clone, Copy, Debug, PartialEq, Eq, Error)]
pub enum TextFault {
    #[error("the rate differs")]
    Rate,
    #[error("base0 differs")]
    Clock,
    #[error("transport_stream_id or original_network_id differs")]
    Stream,
    #[error("a program comes or goes, or its number, its PIDs or its clock differ")]
    Program(usize),
    #[error("a stream comes or goes, or what it declares of its units differs")]
    Elementary(usize),
    #[error("a table comes or goes, or its PID or its limit differs")]
    Tables,
    #[error("a table has another number of sections, or a section takes more packets")]
    Shape(usize),
    #[error("a private section differs and has the version of the section before it")]
    Private(usize),
}

// Returns a fault of the rate, of the clock or of the names of the transport stream.
fn whole_fault(frame: &Description, texts: &Description) -> Option<TextFault>
    ensures { result ≡ spec.whole_fault frame.now texts.now }
{
    if frame.rate().bits_per_second() != texts.rate().bits_per_second() {
        return Some(TextFault::Rate);
    }
    if frame.base0() != texts.base0() {
        return Some(TextFault::Clock);
    }
    let is_same_stream = frame.transport_stream_id() == texts.transport_stream_id();
    if !is_same_stream || frame.original_network_id() != texts.original_network_id() {
        return Some(TextFault::Stream);
    }
    None
}

fn program_fault(frame: &Description, texts: &Description) -> Option<TextFault>
    ensures { result ≡ spec.program_fault frame.now texts.now }
{
    program_difference(frame.programs(), texts.programs()).map(TextFault::Program)
}

fn stream_fault(frame: &Description, texts: &Description) -> Option<TextFault>
    ensures { result ≡ spec.stream_fault frame.now texts.now }
{
    stream_difference(frame.streams(), texts.streams()).map(TextFault::Elementary)
}

// Returns the number of the network, if there is one.
fn network_number(description: &Description) -> Option<u16>
    ensures { result ≡ spec.network_number description.now }
{
    match description.network() {
        None => None,
        Some(network) => Some(network.id),
    }
}

fn has_events(programs: &[ProgramDescription]) -> bool
    ensures { result ≡ list_any has_event programs.now }
{
    programs.iter().any(|program| has_event(program))
}

fn has_events_table(description: &Description) -> bool
    ensures { result ≡ has_events_table description.now }
{
    description.has_eit() || has_events(description.programs())
}

fn is_same_number(one: Option<u16>, other: Option<u16>) -> bool
    ensures { result ≡ is_same_option (λ a b. a == b) one other }
{
    match (one, other) {
        (None, None) => true,
        (Some(one), Some(other)) => one == other,
        _ => false,
    }
}

fn has_same_services(frame: &Description, texts: &Description) -> bool
    ensures { result ≡ spec.has_same_services frame.now texts.now }
{
    is_same_number(network_number(frame), network_number(texts))
        && frame.has_sdt() == texts.has_sdt()
        && has_events_table(frame) == has_events_table(texts)
        && frame.has_tdt() == texts.has_tdt()
}

fn has_same_tables(frame: &Description, texts: &Description) -> bool
    ensures { result ≡ spec.has_same_tables frame.now texts.now }
{
    has_same_services(frame, texts)
        && frame.is_transponder() == texts.is_transponder()
        && is_same_number(frame.clock_pid(), texts.clock_pid())
        && table_difference(frame.private_tables(), texts.private_tables()).is_none()
}

fn tables_fault(frame: &Description, texts: &Description) -> Option<TextFault>
    ensures { result ≡ spec.tables_fault frame.now texts.now }
{
    if has_same_tables(frame, texts) {
        None
    } else {
        Some(TextFault::Tables)
    }
}

fn frame_fault(frame: &Description, texts: &Description) -> Option<TextFault>
    ensures { result ≡ spec.frame_fault frame.now texts.now }
{
    whole_fault(frame, texts)
        .or_else(|| program_fault(frame, texts))
        .or_else(|| stream_fault(frame, texts))
        .or_else(|| tables_fault(frame, texts))
}

/// Returns why a description may not take the place of the texts in force, `now`, in a run by the first description, the
/// frame: the first fault, or nothing if it may.
pub fn text_fault(frame: &Description, now: &Description, texts: &Description) -> Option<TextFault>
    ensures { result ≡ spec.text_fault frame.now now.now texts.now }
{
    frame_fault(frame, texts)
        .or_else(|| shape_fault(frame, texts))
        .or_else(|| version_fault(now, texts))
}
