//! Reading a description.

ghost use Rattle.std.specs.Prelude.{◌≡◌, ◌⊎◌, Err};
ghost use Rattle.toml.specs.Parse.{parse_document};
ghost use Rattle.toml.specs.View.{view};
ghost use Rattle.description.specs.Reading.{read_document, description_of};

use crate::description::Description;
use description_keys::refusals::key_fault;
use description_keys::{DescError, DescFault};
use description_parts::building::contents_of;
use description_parts::consistency::joint_fault;
use std::alloc::{AllocError, Global};
use toml::Value;

fn read_document(alloc: Global, document: &Value) -> Result<Description, DescError>
    ensures { (result ≡ Err DescError.Memory) ⊎ (result ≡ read_document (view document.now)) }
{
    if let Some(fault) = key_fault(document) {
        return Err(DescError::Refused(fault));
    }
    let contents = match contents_of(alloc, document) {
        Ok(contents) => contents,
        Err(AllocError) => return Err(DescError::Memory),
    };
    match joint_fault(&contents, document) {
        Some(fault) => Err(DescError::Refused(fault)),
        None => Ok(Description { contents }),
    }
}

impl Description {
    /// Reads a description, a TOML document. It is refused with the least number of all refusals and,
    /// within it, with the least place; or with `Memory` where memory was not to be had.
    pub fn read(alloc: Global, text: &str) -> Result<Description, DescError>
        ensures { (result ≡ Err DescError.Memory) ⊎ (result ≡ description_of (parse_document text.now)) }
    {
        match toml::table_from_str(alloc, text) {
            Ok(table) => read_document(alloc, &Value::Table(table)),
            Err(error) if error.is_memory() => Err(DescError::Memory),
            Err(_) => Err(DescError::Refused(DescFault::Text)),
        }
    }
}
