//! The payload bytes of a PID.
ghost use Rattle.std.specs.Prelude.{◌≡◌, ◌+◌, ◌++◌, ◌&&◌, [], List, ℕ, length, nat_eq, IfNone};
ghost use Rattle.std.specs.Bool.{OnTrue, OnFalse};
ghost use Rattle.std.specs.List.{starts_with};
ghost use Rattle.tstd.specs.PayloadWalk.{bytes_ahead};
ghost use Rattle.tstd.specs.DepartureWalk.{given};

use crate::packets::payload_on;

/// A walk over the payload bytes of a PID.
#[derive(Drop)]
pub struct Payloads<'a> {
    pub pid: u16,
    /// The rest of the current packet, and the packets ahead.
    pub rest: &'a [u8],
    pub packets: &'a [[u8; 188]],
}

impl Payloads<'_> {
    // Moves to the next packet; returns false at the end.
    #[tactic(auto, unfolding(crate::specs::PayloadWalk::bytes_ahead, crate::specs::PacketLists::payloads_from))]
    fn enter_packet(&mut self) -> bool
        requires { self.old.rest.now ≡ [] }
        ensures ahead { bytes_ahead self.new ≡ bytes_ahead self.old }
        ensures fewer { OnTrue result (length self.new.packets.now + 1 ≡ length self.old.packets.now) }
        ensures none { OnFalse result (bytes_ahead self.new ≡ []) }
    {
        let Some((packet, packets)) = self.packets.split_first() else {
            return false;
        };
        self.packets = packets;
        self.rest = payload_on(self.pid, packet);
        true
    }

    /// Returns the next byte, if there is one.
    #[tactic(auto, unfolding(crate::specs::PayloadWalk::bytes_ahead))]
    pub fn next(&mut self) -> Option<u8>
        ensures ahead { bytes_ahead self.old ≡ given result (bytes_ahead self.new) }
        ensures none { IfNone result (bytes_ahead self.new ≡ []) }
    {
        'packets: loop {
            if let Some((first, rest)) = self.rest.split_first() {
                self.rest = rest;
                return Some(*first);
            }
            if !self.enter_packet() {
                return None;
            }
        }
    }
}

/// Returns whether the bytes of a walk begin with the expected bytes, or end inside them and agree so far.
pub fn agrees(payloads: &mut Payloads<'_>, expected: &[u8]) -> bool
    ensures { (more : List ℕ) → starts_with nat_eq (expected.now ++ more) (bytes_ahead payloads.old)
        ≡ (result && starts_with nat_eq more (bytes_ahead payloads.new)) }
{
    for byte in expected {
        if let Some(found) = payloads.next() {
            if found != *byte {
                return false;
            }
        }
    }
    true
}
