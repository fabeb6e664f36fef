//! Which bytes of a stream are carried, while its bytes arrive.

ghost use Rattle.std.specs.Prelude.{◌≡◌, ◌≤◌, ◌<◌, ◌+◌, true, length, if◌then◌else◌};
ghost use Rattle.packet_sync.specs.Stretches as spec;

use crate::sync_bytes::{PACKET_SIZE, slip_size};

/// The number of bytes that decide whether the step continues after a packet, and if not, where a new step begins: up
/// to the third sync byte of the last place that is searched.
pub const REACH: usize = 1128;

/// Bytes in step, and the bytes after them that are in no packet.
#[derive(Clone, Copy, Debug, PartialEq, Eq)]
pub struct Stretch {
    pub in_step: usize,
    pub slipped: usize,
}

// Returns how many bytes decide whether the packet at their front is in step.
fn decisive(ended: bool) -> usize
    ensures { result ≡ (if ended then 188 else 1128) }
{
    if ended { PACKET_SIZE } else { REACH }
}

/// Returns which of the next bytes of a stream are carried, as far as the bytes at hand decide, and how many are left
/// out after them; `ended`: whether no more bytes follow.
pub fn next_stretch(bytes: &[u8], ended: bool) -> Stretch
    ensures stretch { spec.IsStretch bytes.now ended result }
    ensures stepped { spec.IsSteppedSoFar bytes.now ended result }
    ensures packets { spec.IsOfPackets (length bytes.now) ended result }
    ensures within { result.in_step + result.slipped ≤ length bytes.now }
    ensures some { (if ended then 1 else 1128) ≤ length bytes.now → 0 < result.in_step + result.slipped }
{
    let mut at = 0;
    while bytes.len() - at >= decisive(ended) {
        match slip_size(bytes, at, PACKET_SIZE) {
            None => at += PACKET_SIZE,
            Some(slipped) => {
                return Stretch {
                    in_step: at,
                    slipped,
                };
            }
        }
    }
    Stretch {
        in_step: if ended { bytes.len() } else { at },
        slipped: 0,
    }
}
