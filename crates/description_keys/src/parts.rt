//! The parts of a document that have keys.

ghost use Rattle.std.specs.Prelude.{◌≡◌, map};
ghost use Rattle.std.specs.Option.{option_to_list};
ghost use Rattle.toml.specs.View.{view};
ghost use Rattle.description_keys.specs.Refusals.{network_of, other_streams_of, parts_of};

use crate::key_row::KeyPart;
use description_values::arrays::elements;
use std::slice;
use toml::Value;

fn network_of(document: &Value) -> &[Value]
    ensures { map view result.now ≡ option_to_list (network_of (view document.now)) }
{
    match document.get("network") {
        None => &[],
        Some(network) => slice::from_ref(network),
    }
}

// Returns the tables of the array `stream` of the network, none if there is no network.
fn other_streams_of(document: &Value) -> &[Value]
    ensures { map view result.now ≡ other_streams_of (network_of (view document.now)) }
{
    match document.get("network") {
        None => &[],
        Some(network) => elements(network, "stream"),
    }
}

/// Returns the parts of a kind, in their order: the document itself, its network, or the tables of an array.
pub(crate) fn parts_of(part: KeyPart, document: &Value) -> &[Value]
    ensures { map view result.now ≡ parts_of part (view document.now) }
{
    match part {
        KeyPart::Document => slice::from_ref(document),
        KeyPart::Network => network_of(document),
        KeyPart::Program => elements(document, "program"),
        KeyPart::Stream => elements(document, "stream"),
        KeyPart::Event => elements(document, "event"),
        KeyPart::Table => elements(document, "table"),
        KeyPart::NetworkStream => other_streams_of(document),
    }
}
