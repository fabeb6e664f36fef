//! A loop without the descriptors of conditional access and of a multiplex.

ghost use Rattle.std.specs.Prelude.{◌≡◌, ◌++◌, IfOk, OnOk};
ghost use Rattle.descriptor_loops.specs.Descriptors as spec;

use crate::descriptors::{Descriptor, Descriptors};
use crate::multiplex::is_of_multiplex;
use crate::tags::is_ca;
use std::alloc::{AllocError, Allocator};

// Appends a descriptor, unless it is of conditional access or of a multiplex.
#[tactic(auto, unfolding(crate::specs::Descriptors::kept_bytes))]
fn append_kept<A: Allocator>(
    descriptor: Descriptor<'_>,
    out: &mut Vec<u8, A>,
) -> Result<(), AllocError>
    ensures { OnOk result (out.new.items ≡ out.old.items ++ spec.kept_bytes (spec.descriptor_view descriptor.entry)) }
{
    if is_ca(descriptor) || is_of_multiplex(descriptor) {
        return Ok(());
    }
    out.push(descriptor.tag)?;
    out.push(descriptor.size)?;
    out.extend_from_slice(descriptor.body)
}

/// Returns the bytes of the complete descriptors, in order, without descriptors of conditional access and of a
/// multiplex.
#[tactic(auto, unfolding(crate::specs::Descriptors::kept_descriptors))]
pub fn kept_descriptors<A: Allocator>(alloc: A, bytes: &[u8]) -> Result<Vec<u8, A>, AllocError>
    ensures { IfOk result (λ kept. kept.items ≡ spec.kept_descriptors bytes.now) }
{
    let mut kept = Vec::new(alloc);
    for descriptor in Descriptors::of(bytes) {
        append_kept(descriptor, &mut kept)?;
    }
    Ok(kept)
}
