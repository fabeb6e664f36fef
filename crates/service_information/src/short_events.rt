//! What a short event descriptor says (EN 300 468, 6.2.37).

ghost use Rattle.std.specs.Prelude.{◌≡◌, option_map};
ghost use Rattle.descriptor_loops.specs.Descriptors.{descriptor_view};
ghost use Rattle.ts_services.specs.Services.{length_prefixed};
ghost use Rattle.service_information.specs.ShortEvents as spec;

use descriptor_loops::{Descriptor, Descriptors};
use ts_services::length_prefixed;

// The tag of a short event descriptor.
const SHORT_EVENT: u8 = 0x4d;

/// A short event descriptor. The texts are still coded (EN 300 468, annex A).
#[derive(Clone, Copy)]
pub struct ShortEvent<'f> {
    /// ISO_639_language_code.
    pub language: &'f [u8],
    pub name: &'f [u8],
    pub text: &'f [u8],
}

// Adds the name and the text, which follow the language.
#[tactic(auto, unfolding(crate::specs::ShortEvents::with_name))]
fn with_texts<'f>(language: &'f [u8], rest: &'f [u8]) -> Option<ShortEvent<'f>>
    ensures { option_map spec.short_event_view result ≡ spec.with_name language.now (length_prefixed rest.now) }
{
    let (name, after) = length_prefixed(rest)?;
    let (text, _) = length_prefixed(after)?;
    Some(ShortEvent {
        language,
        name,
        text,
    })
}

// Returns what the body of the descriptor says.
#[tactic(auto, unfolding(crate::specs::ShortEvents::short_event_in))]
fn short_event_in(body: &[u8]) -> Option<ShortEvent<'_>>
    ensures { option_map spec.short_event_view result ≡ spec.short_event_in body.now }
{
    if body.len() < 3 {
        return None;
    }
    let (language, rest) = body.split_at(3);
    with_texts(language, rest)
}

#[tactic(auto, unfolding(crate::specs::ShortEvents::of_descriptor))]
fn of_descriptor<'f>(descriptor: Descriptor<'f>) -> Option<ShortEvent<'f>>
    ensures { option_map spec.short_event_view result ≡ spec.of_descriptor (descriptor_view descriptor.entry) }
{
    if descriptor.tag == SHORT_EVENT {
        short_event_in(descriptor.body)
    } else {
        None
    }
}

/// Returns what the first short event descriptor of a loop says.
#[tactic(auto, unfolding(crate::specs::ShortEvents::in_descriptors))]
pub fn short_event(bytes: &[u8]) -> Option<ShortEvent<'_>>
    ensures { option_map spec.short_event_view result ≡ spec.short_event bytes.now }
{
    for descriptor in Descriptors::of(bytes) {
        if let Some(event) = of_descriptor(descriptor) {
            return Some(event);
        }
    }
    None
}
