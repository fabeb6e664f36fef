//! What takes the parts of a capture.
ghost use Rattle.std.specs.Prelude.{◌≡◌, ◌++◌, ◌∷◌, List, [], OnOk, map};
ghost use Rattle.capture.specs.Captures.{IsPacket, IsSize, IsSlip, IsStamped, Part};

use packet_sync::{OtherPackets, Slip};
use std::alloc::AllocError;

/// Takes the parts of a capture, one after another.
pub trait PartTaker {
    // From the first state on it has taken these parts, which left the second.
    ghost has_taken: { Self → List Part → Self → Type 0 };

    /// Takes the size of packets that are not of 188 bytes.
    fn take_size(&mut self, other: OtherPackets) -> Result<(), AllocError>
        ensures { (first : Self) (parts : List Part) → has_taken first parts self.old →
            OnOk result (has_taken first (parts ++ IsSize other ∷ []) self.new) };

    /// Takes the next packets.
    fn take_packets(&mut self, packets: &[[u8; 188]]) -> Result<(), AllocError>
        ensures { (first : Self) (parts : List Part) → has_taken first parts self.old →
            OnOk result (has_taken first (parts ++ map IsPacket packets.now) self.new) };

    /// Takes the next packet, before which four bytes come: these as a number.
    fn take_stamped(&mut self, head: u32, packet: &[u8; 188]) -> Result<(), AllocError>
        ensures { (first : Self) (parts : List Part) → has_taken first parts self.old →
            OnOk result (has_taken first (parts ++ IsStamped head packet.now ∷ []) self.new) };

    /// Takes bytes that are in no packet.
    fn take_slip(&mut self, slip: Slip) -> Result<(), AllocError>
        ensures { (first : Self) (parts : List Part) → has_taken first parts self.old →
            OnOk result (has_taken first (parts ++ IsSlip slip ∷ []) self.new) };
}
