//! The keys `eit` and `eit_packets` of the document: an EIT with two sections for each program (EN 300 468, 5.2.4).

ghost use Rattle.std.specs.Prelude.{◌≡◌};
ghost use Rattle.toml.specs.View.{view};
ghost use Rattle.description_keys.specs.TopKeys as spec;

use description_values::values::{boolean_or, integer_or};
use toml::Value;

/// Returns whether each program has two sections in the EIT, also without an event; false if the key is refused.
pub fn has_eit(document: &Value) -> bool
    ensures value { result ≡ spec.has_eit (view document.now) }
{
    boolean_or(false, document, "eit").unwrap_or(false)
}

/// Returns whether `eit_packets` is refused: out of its range, or there without `eit`.
pub(crate) fn refuses_eit_packets(document: &Value) -> bool
    ensures { result ≡ spec.refuses_eit_packets (view document.now) }
{
    integer_or(2, document, "eit_packets", 2, 23).is_none()
        || document.get("eit_packets").is_some() && !has_eit(document)
}
