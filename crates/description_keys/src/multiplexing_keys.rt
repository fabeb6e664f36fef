//! The keys `rbx` and `mb` of a stream: its multiplexing buffer (ISO/IEC 13818-1, 2.4.2.3).

ghost use Rattle.std.specs.Prelude.{◌≡◌, ◌≤◌};
ghost use Rattle.toml.specs.View.{view};
ghost use Rattle.description_keys.specs.StreamKeys.{has_multiplexing, greatest_rbx, stream_rbx, stream_mb};
ghost use Rattle.description_keys.specs.StreamKeys.{multiplexing_of};
ghost use Rattle.description_keys.specs.StreamKeys.{stream_multiplexing, refuses_rbx, refuses_mb};

use crate::stream_keys::rx;
use description_values::values::integer_at;
use toml::Value;
use unit_timing::multiplexing_buffer::MultiplexingBuffer;

// Returns whether there is a multiplexing buffer: the stream has the key `rbx` or `mb`.
fn has_multiplexing(stream: &Value) -> bool
    ensures { result ≡ has_multiplexing (view stream.now) }
{
    stream.get("rbx").is_some() || stream.get("mb").is_some()
}

// Returns the rate of the fastest leak: the rate at which the transport buffer is emptied.
fn greatest_rbx(stream: &Value) -> u32
    ensures value { result ≡ greatest_rbx (view stream.now) }
    ensures bound { result ≤ 200000000 }
{
    rx(stream).unwrap_or(64_000)
}

fn rbx(stream: &Value) -> Option<u32>
    ensures { result ≡ stream_rbx (view stream.now) }
{
    Some(integer_at(stream, "rbx", 64_000, greatest_rbx(stream) as u64)? as u32)
}

fn mb(stream: &Value) -> Option<u32>
    ensures { result ≡ stream_mb (view stream.now) }
{
    Some(integer_at(stream, "mb", 1, 10_000_000)? as u32)
}

// Returns the multiplexing buffer, with the least value of its range for each key that is refused.
fn multiplexing_of(stream: &Value) -> MultiplexingBuffer
    ensures { result ≡ multiplexing_of (view stream.now) }
{
    MultiplexingBuffer {
        rbx: rbx(stream).unwrap_or(64_000),
        size: mb(stream).unwrap_or(1),
    }
}

/// Returns the multiplexing buffer, if there is one.
pub fn multiplexing(stream: &Value) -> Option<MultiplexingBuffer>
    ensures { result ≡ stream_multiplexing (view stream.now) }
{
    if has_multiplexing(stream) {
        Some(multiplexing_of(stream))
    } else {
        None
    }
}

/// Returns whether `rbx` is refused: absent although `mb` is there, or out of its range.
pub fn refuses_rbx(stream: &Value) -> bool
    ensures { result ≡ refuses_rbx (view stream.now) }
{
    has_multiplexing(stream) && rbx(stream).is_none()
}

/// Returns whether `mb` is refused: absent although `rbx` is there, or out of its range.
pub fn refuses_mb(stream: &Value) -> bool
    ensures { result ≡ refuses_mb (view stream.now) }
{
    has_multiplexing(stream) && mb(stream).is_none()
}
