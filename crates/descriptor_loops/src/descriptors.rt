//! The descriptors of a loop (ISO/IEC 13818-1, 2.6).

ghost use Rattle.std.specs.Prelude.{◌≡◌, ◌∷◌, [], IfSome, IfNone, option_map};
ghost use Rattle.descriptor_loops.specs.Descriptors as spec;

/// A descriptor.
#[derive(Clone, Copy)]
pub struct Descriptor<'a> {
    /// descriptor_tag: the kind of the descriptor.
    pub tag: u8,
    /// descriptor_length: the number of the bytes after it.
    pub size: u8,
    /// These bytes.
    pub body: &'a [u8],
}

/// The descriptors of a loop, in order, up to the first incomplete descriptor: an iterator over its bytes.
#[derive(Clone, Copy)]
pub struct Descriptors<'a> {
    bytes: &'a [u8],
}

impl<'a> Descriptors<'a> {
    /// Returns the descriptors in these bytes.
    #[tactic(auto, unfolding(crate::specs::Descriptors::descriptors_of))]
    pub fn of(bytes: &'a [u8]) -> Descriptors<'a>
        ensures { spec.descriptors_of result ≡ spec.descriptors_in bytes.now }
    {
        Descriptors { bytes }
    }
}

impl<'a> Iterator for Descriptors<'a> {
    ghost use Rattle.std.specs.Iterator.{YieldsFirstBy, item_count};
    ghost use Rattle.descriptor_loops.specs.Descriptors.{descriptor_view, descriptors_of};

    type Item = Descriptor<'a>;

    ghost next_gives = { YieldsFirstBy descriptor_view descriptors_of };

    ghost remaining = { item_count descriptors_of };

    #[tactic(auto, unfolding(crate::specs::Descriptors::descriptors_of))]
    fn next(&mut self) -> Option<Descriptor<'a>> {
        match first(self.bytes) {
            None => None,
            Some((descriptor, rest)) => {
                self.bytes = rest;
                Some(descriptor)
            }
        }
    }
}

// Returns the descriptor at the front, and the bytes after it.
#[tactic(auto, using(crate::proofs::DescriptorParts::next_descriptor, crate::proofs::DescriptorParts::no_descriptor))]
fn first(bytes: &[u8]) -> Option<(Descriptor<'_>, &[u8])>
    ensures next { IfSome result (λ p. spec.descriptors_in bytes.now
        ≡ spec.descriptor_view p.0 ∷ spec.descriptors_in p.1.now) }
    ensures end { IfNone result (spec.descriptors_in bytes.now ≡ []) }
{
    first_descriptor(bytes)
}

/// Returns the descriptor at the front, and what follows it; `None` if it is not complete.
#[tactic(auto, unfolding(crate::specs::Descriptors::first_descriptor))]
pub fn first_descriptor(bytes: &[u8]) -> Option<(Descriptor<'_>, &[u8])>
    ensures { option_map (λ p. (spec.descriptor_view p.0, p.1.now)) result ≡ spec.first_descriptor bytes.now }
{
    match bytes {
        [tag, size, rest @ ..] => {
            if rest.len() < *size as usize {
                return None;
            }
            let (body, after) = rest.split_at(*size as usize);
            let descriptor = Descriptor {
                tag: *tag,
                size: *size,
                body,
            };
            Some((descriptor, after))
        }
        _ => None,
    }
}
