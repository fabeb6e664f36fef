//! The keys that a part of a description may have.

ghost use Rattle.std.specs.Prelude.{◌≡◌, map, string_bytes};
ghost use Rattle.std.specs.List.{list_all, list_any};
ghost use Rattle.std.specs.BTreeMap.{keys as keys_in};
ghost use Rattle.toml.specs.View.{view, table_view};
ghost use Rattle.description_values.specs.KnownKeys.{is_among, all_keys, knows_keys};
ghost use Rattle.description_keys.specs.KeyRows.{rule_of, view as row_view};
ghost use Rattle.description_keys.specs.Rules.{is_key_of};
ghost use Rattle.description_keys.specs.Refusals.{has_unknown_key, knows_part, names_of};

use crate::key_row::{KeyPart, KeyRow};
use crate::keys::keys;
use crate::parts::parts_of;
use toml::{Table, Value};

// Returns whether a row is that of a part's key with this name.
fn is_key_of(part: KeyPart, name: &[u8], row: &KeyRow) -> bool
    ensures { result ≡ is_key_of part name.now (rule_of (row_view row.now)) }
{
    row.0.is_part(part) && row.2.as_bytes() == name
}

fn one_is_key_of(part: KeyPart, name: &[u8], rows: &[KeyRow]) -> bool
    ensures { result ≡ list_any (λ row. is_key_of part name.now (rule_of (row_view row))) rows.now }
{
    rows.iter().any(|row| is_key_of(part, name, row))
}

/// Returns whether a part has a key of this name.
pub fn is_known(part: KeyPart, name: &[u8]) -> bool
    ensures { result ≡ is_among (names_of part) name.now }
{
    one_is_key_of(part, name, keys())
}

fn has_listed_keys(part: KeyPart, table: &Table) -> bool
    ensures { result ≡ list_all (λ key. is_among (names_of part) (string_bytes key)) (keys_in table.now) }
{
    table
        .keys()
        .all(|key| is_known(part, key.as_str().as_bytes()))
}

fn has_keys_of(part: KeyPart, table: &Table) -> bool
    ensures { result ≡ all_keys (is_among (names_of part)) (table_view table.now) }
{
    has_listed_keys(part, table)
}

// Returns whether a value, if it is a table, has no other keys than this part.
fn knows_keys(part: KeyPart, value: &Value) -> bool
    ensures { result ≡ knows_keys (names_of part) (view value.now) }
{
    match value.as_table() {
        None => true,
        Some(table) => has_keys_of(part, table),
    }
}

fn each_knows(part: KeyPart, values: &[Value]) -> bool
    ensures { result ≡ list_all (λ v. knows_keys (names_of part) (view v)) values.now }
{
    values.iter().all(|value| knows_keys(part, value))
}

fn all_know(part: KeyPart, values: &[Value]) -> bool
    ensures { result ≡ list_all (knows_keys (names_of part)) (map view values.now) }
{
    each_knows(part, values)
}

// Returns whether no part of a kind has a key of another.
fn knows_part(document: &Value, part: KeyPart) -> bool
    ensures { result ≡ knows_part (view document.now) part }
{
    all_know(part, parts_of(part, document))
}

/// Returns whether a part of the document has a key that no description has.
pub(crate) fn has_unknown_key(document: &Value) -> bool
    ensures { result ≡ has_unknown_key (view document.now) }
{
    !(knows_part(document, KeyPart::Document)
        && (knows_part(document, KeyPart::Network) && knows_part(document, KeyPart::NetworkStream))
        && (knows_part(document, KeyPart::Program) && knows_part(document, KeyPart::Stream))
        && (knows_part(document, KeyPart::Event) && knows_part(document, KeyPart::Table)))
}
