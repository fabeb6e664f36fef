//! The keys of a table of the array `table`.

ghost use Rattle.std.specs.Prelude.{◌≡◌};
ghost use Rattle.toml.specs.View.{view};
ghost use Rattle.description_keys.specs.TableKeys.{is_listed, entry_type, entry_descriptors};

use description_values::DescriptorLoop;
use description_values::descriptors::descriptors_at;
use description_values::values::integer_at;
use toml::Value;

/// Returns whether a PMT names the table: whether the table has any of the three keys of its entry.
pub fn is_listed(table: &Value) -> bool
    ensures { result ≡ is_listed (view table.now) }
{
    table.get("program").is_some()
        || table.get("stream_type").is_some()
        || table.get("descriptors").is_some()
}

/// Returns the stream_type of its entry.
pub fn entry_type(table: &Value) -> Option<u8>
    ensures { result ≡ entry_type (view table.now) }
{
    Some(integer_at(table, "stream_type", 1, 255)? as u8)
}

/// Returns the descriptors of its entry.
pub fn entry_descriptors(table: &Value) -> Option<DescriptorLoop>
    ensures { result ≡ entry_descriptors (view table.now) }
{
    descriptors_at(table, "descriptors")
}
