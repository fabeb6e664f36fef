//! The key `transponder`, and the limits that go by it.

ghost use Rattle.std.specs.Prelude.{◌≡◌};
ghost use Rattle.toml.specs.View.{view};
ghost use Rattle.description_keys.specs.TopKeys as spec;

use description_values::values::boolean_or;
use toml::Value;

/// Returns whether the description has the greater limits of a whole transponder; false if the key is refused.
pub fn is_transponder(document: &Value) -> bool
    ensures value { result ≡ spec.is_transponder (view document.now) }
{
    boolean_or(false, document, "transponder").unwrap_or(false)
}

// Returns a limit of the description: the first number, with `transponder` the second.
pub(crate) fn limit_in(document: &Value, most: usize, more: usize) -> usize
    ensures { result ≡ spec.limit_in (view document.now) most more }
{
    if is_transponder(document) { more } else { most }
}
