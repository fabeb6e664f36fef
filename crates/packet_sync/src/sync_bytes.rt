//! The sync bytes at the front of packets (ISO/IEC 13818-1, 2.4.3.3).

ghost use Rattle.std.specs.Prelude.{◌≡◌, ◌≤◌, ◌<◌, ◌+◌, ◌-◌, ◌*◌, ◌^◌, IfSome, true, length};
ghost use Rattle.packet_sync.specs.Slips as spec;

/// sync_byte: the first byte of each packet.
pub(crate) const SYNC_BYTE: u8 = 0x47;

/// The size of a packet in bytes.
pub(crate) const PACKET_SIZE: usize = 188;

/// Returns whether there is a sync byte at this place.
#[tactic(auto, unfolding(crate::specs::Slips::is_sync))]
pub(crate) fn is_sync(bytes: &[u8], at: usize) -> bool
    ensures value { result ≡ spec.is_sync bytes.now at }
    ensures within { result ≡ true → at < length bytes.now }
{
    match bytes.get(at) {
        Some(byte) => *byte == SYNC_BYTE,
        None => false,
    }
}

/// Returns whether three sync bytes in a row are `step` bytes apart, with the first one at this place.
#[tactic(auto, unfolding(crate::specs::Slips::are_apart))]
pub(crate) fn are_apart(bytes: &[u8], at: usize, step: usize) -> bool
    requires at { at < 2 ^ 63 + 1224 }
    requires step { step ≤ 204 }
    ensures value { result ≡ spec.are_apart bytes.now at step }
    ensures within { result ≡ true → at < length bytes.now }
{
    is_sync(bytes, at) && is_sync(bytes, at + step) && is_sync(bytes, at + 2 * step)
}

// Returns whether a packet begins at this place, or the stream ends before it.
#[tactic(auto, unfolding(crate::specs::Slips::is_next))]
fn is_next(bytes: &[u8], at: usize) -> bool
    ensures { result ≡ spec.is_next bytes.now at }
{
    match bytes.get(at) {
        Some(byte) => *byte == SYNC_BYTE,
        None => true,
    }
}

// Returns whether the step continues after the packet whose sync byte is at this place: with the next packet, or with
// the packets after it.
#[tactic(auto, unfolding(crate::specs::Slips::goes_on))]
fn goes_on(bytes: &[u8], at: usize, step: usize) -> bool
    requires at { at < 2 ^ 63 }
    requires step { step ≤ 204 }
    ensures { result ≡ spec.goes_on bytes.now at step }
{
    is_next(bytes, at + step) || are_apart(bytes, at + 2 * step, step)
}

// Returns whether a new step begins `size` bytes after this place.
#[tactic(auto, unfolding(crate::specs::Slips::is_new_step))]
fn is_new_step(bytes: &[u8], at: usize, step: usize, size: usize) -> bool
    requires at { at < 2 ^ 63 }
    requires least { 188 ≤ step }
    requires step { step ≤ 204 }
    requires size { size ≤ 816 }
    ensures value { result ≡ spec.is_new_step bytes.now at step size }
    ensures within { result ≡ true → at + size < length bytes.now }
{
    size % step != 0 && are_apart(bytes, at + size, step)
}

// Returns how many bytes later a new step begins, within four packets.
fn new_step(bytes: &[u8], at: usize, step: usize) -> Option<usize>
    requires at { at < 2 ^ 63 }
    requires least { 188 ≤ step }
    requires step { step ≤ 204 }
    ensures value { result ≡ spec.new_step bytes.now at step 1 (4 * step - 1) }
    ensures within { IfSome result (λ size. at + size < length bytes.now) }
    ensures bound { IfSome result (λ size. (1 ≤ size) × (size ≤ 815)) }
{
    for size in 1..4 * step {
        if is_new_step(bytes, at, step, size) {
            return Some(size);
        }
    }
    None
}

/// Returns how many bytes are left out until a new step begins, if the step is lost after the packet whose sync byte is
/// at this place; the sync bytes of packets are `step` bytes apart.
#[tactic(auto, unfolding(crate::specs::Slips::slip_by))]
pub(crate) fn slip_size(bytes: &[u8], at: usize, step: usize) -> Option<usize>
    requires at { at < 2 ^ 63 }
    requires least { 188 ≤ step }
    requires step { step ≤ 204 }
    ensures value { result ≡ spec.slip_by bytes.now at step }
    ensures within { IfSome result (λ size. at + size < length bytes.now) }
    ensures bound { IfSome result (λ size. (1 ≤ size) × (size ≤ 815)) }
{
    if goes_on(bytes, at, step) {
        None
    } else {
        new_step(bytes, at, step)
    }
}
