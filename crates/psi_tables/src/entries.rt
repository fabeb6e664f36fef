//! Loops of entries with descriptors, as PMT, NIT, SDT and EIT have them. Each entry is a head of a fixed
//! number of bytes, whose last 12 bits are the number of descriptor bytes, and the descriptor bytes.

ghost use Rattle.std.specs.Prelude.{◌≡◌, ◌<◌, ◌≤◌, ◌+◌, [], ◌∷◌, length, option_map, is_some, true, false, IfSome};
ghost use Rattle.std.specs.Prelude.{IfNone};
ghost use Rattle.psi_tables.specs.Loops.{descriptors_length, entry_after, entry_at, loop_at, entries_in, entry_view};

/// An entry of a loop.
#[derive(Clone, Copy)]
pub struct Entry<'a> {
    /// The fixed part, to the end of the 12 bits that count the descriptors' bytes.
    pub head: &'a [u8],
    pub descriptors: &'a [u8],
}

/// Returns the entry at the front of `bytes`, with a head of `head_length` bytes, and what follows it;
/// `None` if it does not fit.
pub fn entry_at(head_length: usize, bytes: &[u8]) -> Option<(Entry<'_>, &[u8])>
    requires { 2 ≤ head_length }
    ensures exact { option_map (λ p. (entry_view p.0, p.1.now)) result ≡ entry_at head_length bytes.now }
    ensures head { IfSome result (λ p. length p.0.head.now ≡ head_length) }
    ensures shorter { IfSome result (λ p. length p.1.now + head_length ≤ length bytes.now) }

    // A loop is its first entry and the loop after it.
    ensures whole { IfSome result (λ p. is_some (loop_at head_length bytes.now)
        ≡ is_some (loop_at head_length p.1.now)) }
    ensures next { IfSome result (λ p. is_some (loop_at head_length bytes.now) ≡ true
        → entries_in head_length bytes.now ≡ entry_view p.0 ∷ entries_in head_length p.1.now) }
    ensures end { IfNone result (is_some (loop_at head_length bytes.now) ≡ true
        → entries_in head_length bytes.now ≡ []) }
    ensures stop { IfNone result (0 < length bytes.now → is_some (loop_at head_length bytes.now) ≡ false) }
{
    first_entry(head_length, bytes)
}

#[tactic(auto, unfolding(crate::specs::Loops::entry_at))]
fn first_entry(head_length: usize, bytes: &[u8]) -> Option<(Entry<'_>, &[u8])>
    requires { 2 ≤ head_length }
    ensures exact { option_map (λ p. (entry_view p.0, p.1.now)) result ≡ entry_at head_length bytes.now }
    ensures head { IfSome result (λ p. length p.0.head.now ≡ head_length) }
    ensures shorter { IfSome result (λ p. length p.1.now + head_length ≤ length bytes.now) }
{
    if bytes.len() < head_length {
        return None;
    }
    let (head, rest) = bytes.split_at(head_length);
    entry_after(head, rest)
}

#[tactic(auto, unfolding(crate::specs::Loops::entry_after))]
fn entry_after<'a>(head: &'a [u8], rest: &'a [u8]) -> Option<(Entry<'a>, &'a [u8])>
    requires { 2 ≤ length head.now }
    ensures exact { option_map (λ p. (entry_view p.0, p.1.now)) result ≡ entry_after head.now rest.now }
    ensures head { IfSome result (λ p. length p.0.head.now ≡ length head.now) }
    ensures shorter { IfSome result (λ p. length p.1.now ≤ length rest.now) }
{
    let length = descriptors_length(head);
    if rest.len() < length {
        return None;
    }
    let (descriptors, after) = rest.split_at(length);
    Some((Entry { head, descriptors }, after))
}

#[tactic(auto, unfolding(crate::specs::Loops::descriptors_length))]
fn descriptors_length(head: &[u8]) -> usize
    requires { 2 ≤ length head.now }
    ensures { result ≡ descriptors_length head.now }
{
    let high = head[head.len() - 2];
    let low = head[head.len() - 1];
    u16::from_be_bytes([high & 0x0f, low]) as usize
}

/// Returns whether bytes are whole entries to their end.
#[tactic(auto, using(crate::proofs::LoopParts::whole_none))]
pub fn is_whole_loop(head_length: usize, bytes: &[u8]) -> bool
    requires { 2 ≤ head_length }
    ensures { result ≡ is_some (loop_at head_length bytes.now) }
{
    let mut rest = bytes;
    while !rest.is_empty() {
        match entry_at(head_length, rest) {
            Some((_, after)) => rest = after,
            None => return false,
        }
    }
    true
}
