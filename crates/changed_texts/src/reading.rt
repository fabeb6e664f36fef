//! A description in bytes, as a record of a feed has it.

ghost use Rattle.std.specs.Prelude.{◌≡◌, ◌⊎◌, Err};
ghost use Rattle.changed_texts.specs.Reading.{description_in};

use description::Description;
use description_keys::{DescError, DescFault};
use std::alloc::Global;
use std::str;

/// Reads a description from bytes, as `Description::read` reads a text. Bytes that are no UTF-8 are no TOML.
pub fn read_description(alloc: Global, bytes: &[u8]) -> Result<Description, DescError>
    ensures { (result ≡ Err DescError.Memory) ⊎ (result ≡ description_in bytes.now) }
{
    match str::from_utf8(bytes) {
        Ok(text) => Description::read(alloc, text),
        Err(_) => Err(DescError::Refused(DescFault::Text)),
    }
}
