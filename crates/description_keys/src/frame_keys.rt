//! The keys `frames`, `frame`, `frame_size`, `frame_rest` and `frame_left` of a stream: the access units of its units
//! (ISO/IEC 13818-1, 2.4.2.3).

ghost use Rattle.std.specs.Prelude.{◌≡◌, ◌≤◌, ◌<◌, ◌-◌, ◌*◌, ◌&&◌, nat_le, is_some, length, map, unwrap_or};
ghost use Rattle.std.specs.List.{list_all, filter_map};
ghost use Rattle.toml.specs.View.{view};
ghost use Rattle.description_keys.specs.StreamKeys as spec;

use crate::stream_keys::{interval, size};
use arrayvec::ArrayVec;
use description_values::arrays::{array_in, elements};
use description_values::values::{integer_at, integer_in, optional_integer};
use toml::Value;
use unit_timing::framing::{FrameDeclaration, LastBytes};

fn has_rest(stream: &Value) -> bool
    ensures { result ≡ spec.has_rest (view stream.now) }
{
    stream.get("frame_rest").is_some()
}

fn has_left(stream: &Value) -> bool
    ensures { result ≡ spec.has_left (view stream.now) }
{
    stream.get("frame_left").is_some()
}

// Returns whether a unit has several access units: the stream has one or more of the keys.
fn has_framing(stream: &Value) -> bool
    ensures { result ≡ spec.has_framing (view stream.now) }
{
    stream.get("frames").is_some()
        || stream.get("frame").is_some()
        || stream.get("frame_size").is_some()
        || has_rest(stream)
        || has_left(stream)
}

fn frames(stream: &Value) -> Option<u8>
    ensures { result ≡ spec.stream_frames (view stream.now) }
{
    Some(integer_at(stream, "frames", 1, 64)? as u8)
}

// Returns the number of access units but one.
fn other_frames(stream: &Value) -> u32
    ensures value { result ≡ spec.other_frames (view stream.now) }
    ensures bound { result < 64 }
{
    (frames(stream).unwrap_or(1) as u32).saturating_sub(1)
}

// Returns the longest time from one access unit to the next. Without a time to the next unit the last of a unit is due
// before the next unit.
#[tactic(auto, using(crate::proofs::Quotients::quotient_most))]
fn greatest_frame(stream: &Value) -> u32
    ensures value { result ≡ spec.greatest_frame (view stream.now) }
    ensures bound { result ≤ 90000 }
{
    if has_rest(stream) {
        90_000
    } else {
        interval(stream).unwrap_or(1) / other_frames(stream).max(1)
    }
}

fn frame(stream: &Value) -> Option<u32>
    ensures { result ≡ spec.stream_frame (view stream.now) }
{
    Some(integer_at(stream, "frame", 1, greatest_frame(stream) as u64)? as u32)
}

// Returns the greatest size of an access unit: a whole unit.
fn greatest_frame_size(stream: &Value) -> u32
    ensures value { result ≡ unwrap_or (spec.stream_size (view stream.now)) 1 }
    ensures bound { result ≤ 4000000 }
{
    size(stream).unwrap_or(1)
}

fn frame_size(stream: &Value) -> Option<u32>
    ensures { result ≡ spec.stream_frame_size (view stream.now) }
{
    Some(integer_at(stream, "frame_size", 1, greatest_frame_size(stream) as u64)? as u32)
}

// Returns what an interval leaves after most access units.
fn rest_of_interval(stream: &Value) -> u32
    ensures { result ≡ unwrap_or (spec.stream_interval (view stream.now)) 1
        - spec.other_frames (view stream.now) * unwrap_or (spec.stream_frame (view stream.now)) 0 }
{
    let passed = other_frames(stream) as u64 * frame(stream).unwrap_or(0) as u64;
    (interval(stream).unwrap_or(1) as u64).saturating_sub(passed) as u32
}

// Returns the least time from the last access unit of a unit to the next unit.
fn rest(stream: &Value) -> u32
    ensures { result ≡ spec.rest_of (view stream.now) }
{
    match optional_integer(stream, "frame_rest", 0, 90_000) {
        Some(Some(rest)) => rest as u32,
        _ => rest_of_interval(stream),
    }
}

fn bytes_in(stream: &Value, value: &Value) -> Option<u32>
    ensures { result ≡ spec.bytes_in (view stream.now) (view value.now) }
{
    Some(integer_in(value, 1, greatest_frame_size(stream) as u64)? as u32)
}

fn each_in(stream: &Value, values: &[Value]) -> bool
    ensures { result ≡ list_all (λ v. is_some (spec.bytes_in (view stream.now) (view v))) values.now }
{
    values.iter().all(|value| bytes_in(stream, value).is_some())
}

fn all_in(stream: &Value, values: &[Value]) -> bool
    ensures { result ≡ list_all (λ d. is_some (spec.bytes_in (view stream.now) d)) (map view values.now) }
{
    each_in(stream, values)
}

fn numbers_in(stream: &Value, values: &[Value]) -> ArrayVec<u32, 63>
    requires { length values.now ≤ 63 }
    ensures { result.items ≡ filter_map (spec.bytes_in (view stream.now)) (map view values.now) }
{
    let mut numbers = ArrayVec::new();
    for value in values {
        if let Some(number) = bytes_in(stream, value) {
            numbers.push(number);
        }
    }
    numbers
}

fn none_below(least: u32, numbers: &[u32]) -> bool
    ensures { result ≡ list_all (λ m. nat_le least m) numbers.now }
{
    numbers.iter().all(|number| least <= *number)
}

// Returns whether no number is less than one before it.
fn never_falls(numbers: &[u32]) -> bool
    ensures { result ≡ spec.never_falls numbers.now }
{
    let mut rest = numbers;
    while let Some((first, after)) = rest.split_first() {
        if !none_below(*first, after) {
            return false;
        }
        rest = after;
    }
    true
}

fn are_rising_in(stream: &Value, values: &[Value]) -> bool
    requires { length values.now ≤ 63 }
    ensures { result ≡ (list_all (λ d. is_some (spec.bytes_in (view stream.now) d)) (map view values.now)
        && spec.never_falls (filter_map (spec.bytes_in (view stream.now)) (map view values.now))) }
{
    all_in(stream, values) && never_falls(numbers_in(stream, values).as_slice())
}

// Returns whether a value is an array with a number for each access unit of a unit but one, and none less than one before
// it.
fn are_frame_left(stream: &Value, value: &Value) -> bool
    ensures { result ≡ spec.are_frame_left (view stream.now) (view value.now) }
{
    match array_in(value) {
        None => false,
        Some(values) => values.len() == other_frames(stream) as usize
            && are_rising_in(stream, values),
    }
}

/// Returns whether `frame_left` is absent, or has what it may have.
pub fn has_frame_left(stream: &Value) -> bool
    ensures { result ≡ spec.has_frame_left (view stream.now) }
{
    match stream.get("frame_left") {
        None => true,
        Some(value) => are_frame_left(stream, value),
    }
}

// Returns the numbers, and zeros after them.
fn padded(numbers: ArrayVec<u32, 63>) -> [u32; 63]
    ensures { result ≡ spec.padded numbers.items }
{
    let mut all = numbers;
    let missing = 63 - all.len();
    for _ in 0..missing {
        all.push(0);
    }
    match all.into_inner() {
        Ok(numbers) => numbers,
        Err(_) => unreachable!(),
    }
}

fn frame_left_of(stream: &Value, values: &[Value]) -> [u32; 63]
    ensures { result ≡ spec.frame_left_of (view stream.now) (map view values.now) }
{
    let numbers = if values.len() <= 63 {
        numbers_in(stream, values)
    } else {
        ArrayVec::new()
    };
    padded(numbers)
}

fn last_bytes(stream: &Value) -> LastBytes
    ensures { result ≡ spec.last_bytes (view stream.now) }
{
    if has_left(stream) {
        LastBytes::Sums(frame_left_of(stream, elements(stream, "frame_left")))
    } else {
        LastBytes::Each(frame_size(stream).unwrap_or(1))
    }
}

// Returns the access units; a key that is refused has the least value: one access unit, of one byte, and no time.
fn framing_of(stream: &Value) -> FrameDeclaration
    ensures { result ≡ spec.framing_of (view stream.now) }
{
    FrameDeclaration {
        frames: frames(stream).unwrap_or(1),
        frame: frame(stream).unwrap_or(0),
        rest: rest(stream),
        left: last_bytes(stream),
    }
}

/// Returns the access units of a unit, if they are declared.
pub fn framing(stream: &Value) -> Option<FrameDeclaration>
    ensures { result ≡ spec.stream_framing (view stream.now) }
{
    if has_framing(stream) {
        Some(framing_of(stream))
    } else {
        None
    }
}

/// Returns whether `frames` is refused: absent although another of the keys is there, or out of its range.
pub fn refuses_frames(stream: &Value) -> bool
    ensures { result ≡ spec.refuses_frames (view stream.now) }
{
    has_framing(stream) && frames(stream).is_none()
}

/// Returns whether `frame` is refused: absent although another of the keys is there, or out of its range.
pub fn refuses_frame(stream: &Value) -> bool
    ensures { result ≡ spec.refuses_frame (view stream.now) }
{
    has_framing(stream) && frame(stream).is_none()
}

// Returns whether a stream with framing has `frame_size` beside `frame_left`, or not in its range without it.
fn refuses_size(stream: &Value) -> bool
    ensures { result ≡ spec.refuses_size (view stream.now) }
{
    if has_left(stream) {
        stream.get("frame_size").is_some()
    } else {
        frame_size(stream).is_none()
    }
}

/// Returns whether `frame_size` is refused: absent although another of the keys but `frame_left` is there, beside
/// `frame_left`, or out of its range.
pub fn refuses_frame_size(stream: &Value) -> bool
    ensures { result ≡ spec.refuses_frame_size (view stream.now) }
{
    has_framing(stream) && refuses_size(stream)
}
