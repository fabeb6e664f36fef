//! Which descriptors a loop has (ISO/IEC 13818-1, table 2-45).

ghost use Rattle.std.specs.Prelude.{◌≡◌};
ghost use Rattle.descriptor_loops.specs.Descriptors as spec;

use crate::descriptors::{Descriptor, Descriptors};

// The tag of a CA descriptor (2.6.16).
const CONDITIONAL_ACCESS: u8 = 9;

/// Returns whether a descriptor is of conditional access.
#[tactic(auto, unfolding(crate::specs::Descriptors::is_ca, crate::specs::Descriptors::is_tagged))]
pub(crate) fn is_ca(descriptor: Descriptor<'_>) -> bool
    ensures { result ≡ spec.is_ca (spec.descriptor_view descriptor.entry) }
{
    descriptor.tag == CONDITIONAL_ACCESS
}

#[tactic(auto, unfolding(crate::specs::Descriptors::is_tagged))]
fn is_tagged(tag: u8, descriptor: Descriptor<'_>) -> bool
    ensures { result ≡ spec.is_tagged tag (spec.descriptor_view descriptor.entry) }
{
    descriptor.tag == tag
}

/// Returns whether these bytes have a complete descriptor with this tag.
#[tactic(auto, unfolding(crate::specs::Descriptors::has_tag))]
pub fn has_tag(tag: u8, bytes: &[u8]) -> bool
    ensures { result ≡ spec.has_tag tag bytes.now }
{
    for descriptor in Descriptors::of(bytes) {
        if is_tagged(tag, descriptor) {
            return true;
        }
    }
    false
}

/// Returns whether these bytes have a complete descriptor of conditional access (a CA descriptor, 2.6.16).
#[tactic(auto, unfolding(crate::specs::Descriptors::has_ca))]
pub fn has_ca(bytes: &[u8]) -> bool
    ensures { result ≡ spec.has_ca bytes.now }
{
    has_tag(CONDITIONAL_ACCESS, bytes)
}
