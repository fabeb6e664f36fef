//! Loops of descriptors as a description gives them (ISO/IEC 13818-1, 2.6.1).

ghost use Rattle.std.specs.Prelude.{◌≡◌, ◌≤◌, List, ℕ, [], is_none, length, min, option_map};
ghost use Rattle.toml.specs.View.{view};
ghost use Rattle.description_values.specs.Values.{descriptors_in, descriptors_or_none, descriptors_at, is_beyond};

use crate::hexadecimal::hex_bytes;
use arrayvec::ArrayVec;
use dvb_tables::are_whole_descriptors;
use std::marker::Model;
use toml::Value;

/// Whole descriptors, at most 700 bytes. A contract sees these bytes.
#[derive(Drop)]
pub struct DescriptorLoop {
    bytes: ArrayVec<u8, 700>,
}

impl Model for DescriptorLoop {
    ghost Value = { List ℕ };

    ghost view = { λ d. d.bytes.items };
}

impl DescriptorLoop {
    /// Returns no descriptors.
    pub fn none() -> Self
        ensures { result ≡ [] }
    {
        DescriptorLoop {
            bytes: ArrayVec::new(),
        }
    }

    /// Returns the bytes as they are written.
    pub fn as_bytes(&self) -> &[u8]
        ensures value { result.now ≡ self.now }
        ensures fits { length self.now ≤ 700 }
    {
        self.bytes.as_slice()
    }
}

// Returns the bytes of whole descriptors that a value writes, if they are at most `N`.
fn descriptor_bytes<const N: usize>(value: &Value) -> Option<ArrayVec<u8, N>>
    ensures { option_map (λ bytes. bytes.items) result ≡ descriptors_in N (view value.now) }
{
    let bytes = hex_bytes::<N>(value.as_str()?)?;
    if are_whole_descriptors(bytes.as_slice()) {
        Some(bytes)
    } else {
        None
    }
}

fn descriptors_of(value: &Value) -> Option<DescriptorLoop>
    ensures { result ≡ descriptors_in 700 (view value.now) }
{
    match descriptor_bytes::<700>(value) {
        None => None,
        Some(bytes) => Some(DescriptorLoop { bytes }),
    }
}

/// Returns the bytes of whole descriptors at a key, at most `N`; none if it is absent.
pub fn descriptor_bytes_or_none<const N: usize>(table: &Value, key: &str) -> Option<ArrayVec<u8, N>>
    ensures { option_map (λ bytes. bytes.items) result ≡ descriptors_or_none N key.now (view table.now) }
{
    match table.get(key) {
        None => Some(ArrayVec::new()),
        Some(value) => descriptor_bytes::<N>(value),
    }
}

/// Returns the descriptors at a key, none if it is absent.
pub fn descriptors_or_none(table: &Value, key: &str) -> Option<DescriptorLoop>
    ensures { result ≡ descriptors_or_none 700 key.now (view table.now) }
{
    match table.get(key) {
        None => Some(DescriptorLoop::none()),
        Some(value) => descriptors_of(value),
    }
}

/// Returns the descriptors at a key that has to be there.
pub fn descriptors_at(table: &Value, key: &str) -> Option<DescriptorLoop>
    ensures { result ≡ descriptors_at 700 key.now (view table.now) }
{
    match table.get(key) {
        None => None,
        Some(value) => descriptors_of(value),
    }
}

// Returns whether there are no bytes, or more than `most`.
fn is_beyond(bytes: Option<ArrayVec<u8, 4000>>, most: usize) -> bool
    ensures { result ≡ is_beyond most (option_map (λ b. b.items) bytes) }
{
    match bytes {
        None => true,
        Some(bytes) => bytes.len() > most,
    }
}

// Returns whether a value is no whole descriptors of up to `most` bytes.
fn is_no_loop(value: &Value, most: usize) -> bool
    requires { most ≤ 4000 }
    ensures { result ≡ is_none (descriptors_in most (view value.now)) }
{
    is_beyond(descriptor_bytes::<4000>(value), most)
}

/// Returns whether there is another value than whole descriptors of up to `most` bytes at a key, and never more than 4,000.
pub fn has_other_descriptors(table: &Value, key: &str, most: usize) -> bool
    ensures { result ≡ is_none (descriptors_or_none (min most 4000) key.now (view table.now)) }
{
    match table.get(key) {
        None => false,
        Some(value) => is_no_loop(value, usize::min(most, 4_000)),
    }
}
