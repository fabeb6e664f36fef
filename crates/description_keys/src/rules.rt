//! What a key refuses, by its row.

ghost use Rattle.std.specs.Prelude.{◌≡◌, map, position};
ghost use Rattle.toml.specs.View.{view};
ghost use Rattle.description_keys.specs.KeyRows as spec;
ghost use Rattle.description_keys.specs.Refusals.{parts_of};

use crate::channels::refuses_channel;
use crate::clock_keys::{refuses_pcr_pid, refuses_shared_clock};
use crate::eit_keys::refuses_eit_packets;
use crate::frame_keys::{has_frame_left, refuses_frame, refuses_frame_size, refuses_frames};
use crate::key_row::{JointKey, KeyKind, KeyRow};
use crate::limits::limit_in;
use crate::loop_keys::{
    refuses_event_descriptors, refuses_event_language, refuses_event_name, refuses_event_text,
    refuses_network_name, refuses_service_descriptors,
};
use crate::multiplexing_keys::{refuses_mb, refuses_rbx};
use crate::owner::has_owner;
use crate::parts::parts_of;
use crate::sharers::has_sharers;
use crate::stream_keys::{
    main_buffer, refuses_burst_packets, refuses_group, refuses_group_packets, refuses_pace, rx,
    size, stream_id,
};
use crate::table_keys::{entry_descriptors, entry_type, is_listed};
use crate::version_keys::refuses_versions;
use description_values::arrays::{sections_at, tables_at};
use description_values::descriptors::has_other_descriptors;
use description_values::moments::moment_at;
use description_values::texts::{has_other_text, optional_language};
use description_values::values::{boolean_or, has_no_number, integer_at, optional_integer};
use toml::Value;

// Returns whether a part has at a key of one of its streams or of a table's entry what it may not have there.
fn refuses_jointly(key: JointKey, document: &Value, part: &Value) -> bool
    ensures { result ≡ spec.refuses_jointly key (view document.now) (view part.now) }
{
    match key {
        JointKey::SharedClock => refuses_shared_clock(part),
        JointKey::EitPackets => refuses_eit_packets(part),
        JointKey::Versions => refuses_versions(part),
        JointKey::NetworkName => refuses_network_name(part),
        JointKey::ServiceDescriptors => refuses_service_descriptors(part),
        JointKey::EventLanguage => refuses_event_language(part),
        JointKey::EventName => refuses_event_name(part),
        JointKey::EventText => refuses_event_text(part),
        JointKey::EventDescriptors => refuses_event_descriptors(part),
        JointKey::ClockPid => refuses_pcr_pid(document, part),
        JointKey::Channel => refuses_channel(document, part),
        JointKey::StreamId => stream_id(part).is_none(),
        JointKey::Size => size(part).is_none(),
        JointKey::Rx => rx(part).is_none(),
        JointKey::Main => main_buffer(part).is_none(),
        JointKey::Group => refuses_group(part),
        JointKey::GroupPackets => refuses_group_packets(part),
        JointKey::BurstPackets => refuses_burst_packets(part),
        JointKey::Pace => refuses_pace(part),
        JointKey::SharedWith => !has_sharers(document, part),
        JointKey::Rbx => refuses_rbx(part),
        JointKey::Mb => refuses_mb(part),
        JointKey::Frames => refuses_frames(part),
        JointKey::Frame => refuses_frame(part),
        JointKey::FrameSize => refuses_frame_size(part),
        JointKey::FrameLeft => !has_frame_left(part),
        JointKey::EntryProgram => is_listed(part) && !has_owner(document, part),
        JointKey::EntryType => is_listed(part) && entry_type(part).is_none(),
        JointKey::EntryDescriptors => is_listed(part) && entry_descriptors(part).is_none(),
    }
}

// Returns whether a part has another value at a key than a table, if it has one.
fn has_no_table(part: &Value, name: &str) -> bool
    ensures { result ≡ spec.has_no_table name.now (view part.now) }
{
    match part.get(name) {
        None => false,
        Some(value) => !value.is_table(),
    }
}

// Returns whether a part has at a key of this name what a key of this kind may not have.
fn refuses_kind(kind: KeyKind, name: &str, document: &Value, part: &Value) -> bool
    ensures { result ≡ spec.refuses_kind kind name.now (view document.now) (view part.now) }
{
    match kind {
        KeyKind::Number(least, most) => integer_at(part, name, least, most).is_none(),
        KeyKind::Pid => integer_at(part, name, 32, 8_190).is_none(),
        KeyKind::NumberOr(default, least, most) => has_no_number(default, part, name, least, most),
        KeyKind::NumberIfAny(least, most) => optional_integer(part, name, least, most).is_none(),
        KeyKind::Moment => moment_at(part, name).is_none(),
        KeyKind::Flag(default) => boolean_or(default, part, name).is_none(),
        KeyKind::TextOrEmpty(most) => has_other_text(part, name, most),
        KeyKind::LanguageIfAny => optional_language(part, name).is_none(),
        KeyKind::Descriptors(most) => has_other_descriptors(part, name, most),
        KeyKind::Sections => !sections_at(part, name),
        KeyKind::Owner => !has_owner(document, part),
        KeyKind::OneTable => has_no_table(part, name),
        KeyKind::Tables(least, most, more) => {
            !tables_at(
                least == 0,
                part,
                name,
                least,
                limit_in(document, most, more),
            )
        }
        KeyKind::Joint(key) => refuses_jointly(key, document, part),
    }
}

// Returns whether a part refuses the key of a row.
fn refuses(row: &KeyRow, document: &Value, part: &Value) -> bool
    ensures { result ≡ spec.refuses_row (spec.view row.now) (view document.now) (view part.now) }
{
    refuses_kind(row.3, row.2, document, part)
}

fn place_in(row: &KeyRow, document: &Value, parts: &[Value]) -> Option<usize>
    ensures { result ≡ position (λ v. spec.refuses_row (spec.view row.now) (view document.now) (view v)) parts.now }
{
    parts.iter().position(|part| refuses(row, document, part))
}

// Returns the place of the first of the parts that refuses the key of a row.
fn first_place(row: &KeyRow, document: &Value, parts: &[Value]) -> Option<usize>
    ensures { result ≡ position (spec.refuses_row (spec.view row.now) (view document.now)) (map view parts.now) }
{
    place_in(row, document, parts)
}

/// Returns the place of the first part that refuses the key of a row.
pub(crate) fn refused_place(row: &KeyRow, document: &Value) -> Option<usize>
    ensures { result ≡ position (spec.refuses_row (spec.view row.now) (view document.now))
        (parts_of (spec.view row.now).part (view document.now)) }
{
    first_place(row, document, parts_of(row.0, document))
}
