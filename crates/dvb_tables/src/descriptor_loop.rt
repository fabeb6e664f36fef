//! Whether bytes are whole descriptors (ISO/IEC 13818-1, 2.6).

ghost use Rattle.std.specs.Prelude.{◌≡◌, ◌<◌, length, false, IfSome, IfNone};
ghost use Rattle.dvb_tables.specs.DescriptorLoops.{are_whole_descriptors};

use descriptor_loops::{Descriptor, first_descriptor};

/// Returns whether bytes are whole descriptors, one after another: a descriptor's tag, the number of
/// the bytes after it, and these bytes. No bytes are whole descriptors too.
#[tactic(auto, using(crate::proofs::WholeParts::front_nil))]
pub fn are_whole_descriptors(bytes: &[u8]) -> bool
    ensures { result ≡ are_whole_descriptors bytes.now }
{
    let mut rest = bytes;
    while !rest.is_empty() {
        match first(rest) {
            Some((_, after)) => rest = after,
            None => return false,
        }
    }
    true
}

// Returns the descriptor at the front, and what follows it: whole descriptors if all bytes are.
#[tactic(auto, using(crate::proofs::WholeParts::front_shorter, crate::proofs::WholeParts::front_some, crate::proofs::WholeParts::front_none))]
fn first(bytes: &[u8]) -> Option<(Descriptor<'_>, &[u8])>
    ensures shorter { IfSome result (λ p. length p.1.now < length bytes.now) }
    ensures whole { IfSome result (λ p. are_whole_descriptors bytes.now ≡ are_whole_descriptors p.1.now) }
    ensures stop { IfNone result (0 < length bytes.now → are_whole_descriptors bytes.now ≡ false) }
{
    first_descriptor(bytes)
}
