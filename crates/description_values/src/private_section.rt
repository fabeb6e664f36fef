//! Ready-made sections of a private table.

ghost use Rattle.std.specs.Prelude.{◌≡◌, ◌≤◌, List, ℕ, length};
ghost use Rattle.toml.specs.View.{view};
ghost use Rattle.description_values.specs.Values.{is_one_section, section_in};

use crate::hexadecimal::hex_bytes;
use arrayvec::ArrayVec;
use psi_tables::Section;
use std::marker::Model;
use toml::Value;

/// A section that is sent unchanged. A contract sees its bytes.
#[derive(Drop)]
pub struct PrivateSection {
    bytes: ArrayVec<u8, 4096>,
}

impl Model for PrivateSection {
    ghost Value = { List ℕ };

    ghost view = { λ s. s.bytes.items };
}

impl PrivateSection {
    /// Returns the bytes of the section.
    pub fn as_bytes(&self) -> &[u8]
        ensures value { result.now ≡ self.now }
        ensures fits { length self.now ≤ 4096 }
    {
        self.bytes.as_slice()
    }
}

// Returns whether the bytes are exactly one section.
fn is_one_section(bytes: &[u8]) -> bool
    ensures { result ≡ is_one_section bytes.now }
{
    match Section::read(bytes) {
        Ok((_section, size)) => size == bytes.len(),
        Err(_) => false,
    }
}

/// Returns the section of a text of hexadecimal digits.
pub fn section_of(value: &Value) -> Option<PrivateSection>
    ensures { result ≡ section_in (view value.now) }
{
    let bytes = hex_bytes::<4096>(value.as_str()?)?;
    if is_one_section(bytes.as_slice()) {
        Some(PrivateSection { bytes })
    } else {
        None
    }
}
