//! Keys that are texts, or whole loops of descriptors in their place.

ghost use Rattle.std.specs.Prelude.{◌≡◌};
ghost use Rattle.toml.specs.View.{view};
ghost use Rattle.description_keys.specs.EventKeys as event_spec;
ghost use Rattle.description_keys.specs.NetworkKeys.{refuses_network_name};
ghost use Rattle.description_keys.specs.ProgramKeys as program_spec;

use description_values::descriptors::has_other_descriptors;
use description_values::texts::{has_no_text, language_at};
use toml::Value;

/// Returns whether `name` of the network is refused: it may be absent beside `network_descriptors`.
pub(crate) fn refuses_network_name(network: &Value) -> bool
    ensures { result ≡ refuses_network_name (view network.now) }
{
    has_no_text(network, "name", 200)
        && (network.get("name").is_some() || network.get("network_descriptors").is_none())
}

/// Returns whether a program has the loop of its service.
pub fn has_service_loop(program: &Value) -> bool
    ensures { result ≡ program_spec.has_service_loop (view program.now) }
{
    program.get("service_descriptors").is_some()
}

fn has_service_texts(program: &Value) -> bool
    ensures { result ≡ program_spec.has_service_texts (view program.now) }
{
    program.get("service_type").is_some()
        || program.get("provider").is_some()
        || program.get("name").is_some()
}

/// Returns whether `service_descriptors` is refused: no whole descriptors, or beside one of the keys whose place it takes.
pub(crate) fn refuses_service_descriptors(program: &Value) -> bool
    ensures { result ≡ program_spec.refuses_service_descriptors (view program.now) }
{
    has_other_descriptors(program, "service_descriptors", 1_004)
        || has_service_loop(program) && has_service_texts(program)
}

/// Returns whether an event has its loop.
pub fn has_event_loop(event: &Value) -> bool
    ensures { result ≡ event_spec.has_loop (view event.now) }
{
    event.get("descriptors").is_some()
}

fn has_event_texts(event: &Value) -> bool
    ensures { result ≡ event_spec.has_event_texts (view event.now) }
{
    event.get("language").is_some() || event.get("name").is_some() || event.get("text").is_some()
}

/// Returns whether `language` of an event without a loop is refused.
pub(crate) fn refuses_event_language(event: &Value) -> bool
    ensures { result ≡ event_spec.refuses_event_language (view event.now) }
{
    !has_event_loop(event) && language_at(event, "language").is_none()
}

/// Returns whether `name` of an event without a loop is refused.
pub(crate) fn refuses_event_name(event: &Value) -> bool
    ensures { result ≡ event_spec.refuses_event_name (view event.now) }
{
    !has_event_loop(event) && has_no_text(event, "name", 100)
}

/// Returns whether `text` of an event without a loop is refused.
pub(crate) fn refuses_event_text(event: &Value) -> bool
    ensures { result ≡ event_spec.refuses_event_text (view event.now) }
{
    !has_event_loop(event) && has_no_text(event, "text", 150)
}

/// Returns whether `descriptors` of an event is refused: no whole descriptors, or beside one of the keys whose place it takes.
pub(crate) fn refuses_event_descriptors(event: &Value) -> bool
    ensures { result ≡ event_spec.refuses_event_descriptors (view event.now) }
{
    has_other_descriptors(event, "descriptors", 4_000)
        || has_event_loop(event) && has_event_texts(event)
}
