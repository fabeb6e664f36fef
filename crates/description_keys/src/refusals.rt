//! The first refusal of a document's keys, in the order of the codes and then of the items.

ghost use Rattle.std.specs.Prelude.{◌≡◌, map};
ghost use Rattle.toml.specs.View.{view};
ghost use Rattle.description_keys.specs.KeyRows as spec;
ghost use Rattle.description_keys.specs.Refusals.{first_fault, key_fault, rules, unknown_key_fault};

use crate::fault::DescFault;
use crate::key_row::KeyRow;
use crate::keys::keys;
use crate::known_keys::has_unknown_key;
use crate::rules::refused_place;
use toml::Value;

fn unknown_key_fault(document: &Value) -> Option<DescFault>
    ensures { result ≡ unknown_key_fault (view document.now) }
{
    if has_unknown_key(document) {
        Some(DescFault::UnknownKey)
    } else {
        None
    }
}

// Returns the refusal of the first row whose key a part refuses.
fn first_fault(rows: &[KeyRow], document: &Value) -> Option<DescFault>
    ensures { result ≡ first_fault (map (λ row. spec.rule_of (spec.view row)) rows.now) (view document.now) }
{
    for row in rows {
        if let Some(place) = refused_place(row, document) {
            return Some(DescFault::Key(row.1, place));
        }
    }
    None
}

fn listed_key_fault(document: &Value) -> Option<DescFault>
    ensures { result ≡ first_fault rules (view document.now) }
{
    first_fault(keys(), document)
}

/// Returns the first refusal of a key.
pub fn key_fault(document: &Value) -> Option<DescFault>
    ensures { result ≡ key_fault (view document.now) }
{
    unknown_key_fault(document).or_else(|| listed_key_fault(document))
}
