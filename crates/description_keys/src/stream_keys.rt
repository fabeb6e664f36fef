//! The keys of a table of the array `stream`.

ghost use Rattle.std.specs.Prelude.{◌≡◌, ◌≤◌, IfSome};
ghost use Rattle.toml.specs.View.{view};
ghost use Rattle.description_keys.specs.StreamKeys.{is_stream_id, stream_id, is_audio_id, is_video_id, id_or_private};
ghost use Rattle.description_keys.specs.StreamKeys.{stream_interval, greatest_size, stream_size, leaves_out_buffers};
ghost use Rattle.description_keys.specs.StreamKeys.{stream_rx, stream_main, stream_tag, stream_group, unit_packets};
ghost use Rattle.description_keys.specs.StreamKeys.{greatest_group_packets, stream_group_packets, is_paced};
ghost use Rattle.description_keys.specs.StreamKeys.{stream_burst_packets, stream_pace, stream_allowance, refuses_group};
ghost use Rattle.description_keys.specs.StreamKeys.{refuses_group_packets, refuses_burst_packets, refuses_pace};

use description_values::values::{integer_at, integer_in, integer_or, optional_integer};
use toml::Value;
use unit_timing::allowance::Allowance;

/// Returns stream_id (ISO/IEC 13818-1, table 2-22): 189, or 192 to 239; `None` if the key is refused.
pub fn stream_id(stream: &Value) -> Option<u8>
    ensures { result ≡ stream_id (view stream.now) }
{
    let id = integer_at(stream, "id", 189, 239)? as u8;
    if is_stream_id(id) { Some(id) } else { None }
}

// Returns whether a stream_id, 189 to 239, is private_stream_1, audio or video.
fn is_stream_id(id: u8) -> bool
    ensures { result ≡ is_stream_id id }
{
    id == 189 || id >= 192
}

fn is_audio_id(id: u8) -> bool
    ensures { result ≡ is_audio_id id }
{
    192 <= id && id <= 223
}

fn is_video_id(id: u8) -> bool
    ensures { result ≡ is_video_id id }
{
    224 <= id
}

/// Returns stream_id, or 189 if it is refused.
pub fn id_or_private(stream: &Value) -> u8
    ensures { result ≡ id_or_private (view stream.now) }
{
    stream_id(stream).unwrap_or(189)
}

/// Returns the least time between two units, in units of 90 kHz: 1 to 90,000; `None` if the key is refused.
pub fn interval(stream: &Value) -> Option<u32>
    ensures value { result ≡ stream_interval (view stream.now) }
    ensures bound { IfSome result (λ n. n ≤ 90000) }
{
    Some(integer_at(stream, "interval", 1, 90_000)? as u32)
}

fn greatest_size(stream: &Value) -> u32
    ensures value { result ≡ greatest_size (view stream.now) }
    ensures bound { result ≤ 4000000 }
{
    if is_video_id(id_or_private(stream)) {
        4_000_000
    } else {
        65_522
    }
}

/// Returns the greatest unit, in bytes: 1 to 4,000,000 if stream_id is a video stream's, otherwise 1 to 65,522;
/// `None` if the key is refused.
pub fn size(stream: &Value) -> Option<u32>
    ensures value { result ≡ stream_size (view stream.now) }
    ensures bound { IfSome result (λ n. n ≤ 4000000) }
{
    Some(integer_at(stream, "size", 1, greatest_size(stream) as u64)? as u32)
}

// Returns whether both numbers of the buffers may be absent, going by `main`.
fn leaves_out_buffers(stream: &Value) -> bool
    ensures { result ≡ leaves_out_buffers (view stream.now) }
{
    is_audio_id(id_or_private(stream)) && stream.get("main").is_none()
}

/// Returns the rate at which the transport buffer is emptied, in bits a second: 64,000 to 200,000,000, and 2,000,000
/// if audio leaves out both numbers of its buffers (ISO/IEC 13818-1, 2.4.2.3); `None` if the key is refused.
pub fn rx(stream: &Value) -> Option<u32>
    ensures value { result ≡ stream_rx (view stream.now) }
    ensures bound { IfSome result (λ n. n ≤ 200000000) }
{
    match stream.get("rx") {
        None if leaves_out_buffers(stream) => Some(2_000_000),
        None => None,
        Some(value) => Some(integer_in(value, 64_000, 200_000_000)? as u32),
    }
}

/// Returns the main buffer, in bytes: 1 to 10,000,000, and 3,584 if both numbers of the buffers are absent
/// (ISO/IEC 13818-1, 2.4.2.3); `None` if the key is refused.
pub fn main_buffer(stream: &Value) -> Option<u32>
    ensures { result ≡ stream_main (view stream.now) }
{
    match stream.get("main") {
        None if stream.get("rx").is_none() => Some(3_584),
        None => None,
        Some(value) => Some(integer_in(value, 1, 10_000_000)? as u32),
    }
}

/// Returns component_tag (EN 300 468, 6.2.39), if the stream has one: 0 to 255; `None` if the key is refused.
pub fn tag(stream: &Value) -> Option<Option<u8>>
    ensures { result ≡ stream_tag (view stream.now) }
{
    match optional_integer(stream, "tag", 0, 255)? {
        None => Some(None),
        Some(tag) => Some(Some(tag as u8)),
    }
}

fn group(stream: &Value) -> Option<u8>
    ensures value { result ≡ stream_group (view stream.now) }
    ensures bound { IfSome result (λ n. n ≤ 64) }
{
    Some(integer_or(1, stream, "group", 1, 64)? as u8)
}

// Returns the number of packets of a unit of the greatest size.
fn unit_packets(stream: &Value) -> u32
    ensures value { result ≡ unit_packets (view stream.now) }
    ensures bound { result ≤ 21740 }
{
    (19 + size(stream).unwrap_or(1)).div_ceil(184)
}

// Returns the number of packets of a group of units of the greatest size.
fn greatest_group_packets(stream: &Value) -> u32
    ensures value { result ≡ greatest_group_packets (view stream.now) }
    ensures bound { result ≤ 1391360 }
{
    group(stream).unwrap_or(1) as u32 * unit_packets(stream)
}

fn group_packets(stream: &Value) -> Option<u32>
    ensures { result ≡ stream_group_packets (view stream.now) }
{
    let most = greatest_group_packets(stream);
    Some(integer_or(
        most as u64,
        stream,
        "group_packets",
        unit_packets(stream) as u64,
        most as u64,
    )? as u32)
}

// Returns whether the packets are declared by time: the stream has the key `burst_packets` or `pace`.
fn is_paced(stream: &Value) -> bool
    ensures { result ≡ is_paced (view stream.now) }
{
    stream.get("burst_packets").is_some() || stream.get("pace").is_some()
}

fn burst_packets(stream: &Value) -> Option<u32>
    ensures { result ≡ stream_burst_packets (view stream.now) }
{
    let least = unit_packets(stream) as u64;
    Some(integer_at(stream, "burst_packets", least, 100_000)? as u32)
}

fn pace(stream: &Value) -> Option<u32>
    ensures { result ≡ stream_pace (view stream.now) }
{
    Some(integer_at(stream, "pace", 1, 100_000_000)? as u32)
}

/// Returns the most packets of units in a row, with the least value of its range if a key is refused.
pub fn allowance(stream: &Value) -> Allowance
    ensures { result ≡ stream_allowance (view stream.now) }
{
    if is_paced(stream) {
        Allowance::Pace {
            burst: burst_packets(stream).unwrap_or(unit_packets(stream)),
            pace: pace(stream).unwrap_or(1),
        }
    } else {
        Allowance::Groups {
            units: group(stream).unwrap_or(1),
            packets: group_packets(stream).unwrap_or(unit_packets(stream)),
        }
    }
}

// Each of these returns whether the key is refused: by its range, or because of the keys beside it.

pub(crate) fn refuses_group(stream: &Value) -> bool
    ensures { result ≡ refuses_group (view stream.now) }
{
    if is_paced(stream) {
        stream.get("group").is_some()
    } else {
        group(stream).is_none()
    }
}

pub(crate) fn refuses_group_packets(stream: &Value) -> bool
    ensures { result ≡ refuses_group_packets (view stream.now) }
{
    if is_paced(stream) {
        stream.get("group_packets").is_some()
    } else {
        group_packets(stream).is_none()
    }
}

pub(crate) fn refuses_burst_packets(stream: &Value) -> bool
    ensures { result ≡ refuses_burst_packets (view stream.now) }
{
    is_paced(stream) && burst_packets(stream).is_none()
}

pub(crate) fn refuses_pace(stream: &Value) -> bool
    ensures { result ≡ refuses_pace (view stream.now) }
{
    is_paced(stream) && pace(stream).is_none()
}
