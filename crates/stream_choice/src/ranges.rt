//! Whether numbers are in the ranges that a choice asks for.

ghost use Rattle.std.specs.Prelude.{◌≡◌, ◌↔◌, ◌≤◌, ◌^◌, IsTrue, All};
ghost use Rattle.std.specs.List.{list_all};
ghost use Rattle.stream_choice.specs.Ranges as spec;

use crate::needs::Needs;

/// The most packets of a group that can be declared.
const MAX_PACKETS: u32 = 1 << 21;

// Returns whether a number is in a range.
#[tactic(auto, unfolding(crate::specs::Ranges::is_within))]
fn is_within(low: u32, high: u32, n: u32) -> bool
    ensures { result ≡ spec.is_within low high n }
{
    low <= n && n <= high
}

impl Needs {
    /// Returns whether its numbers are in their ranges.
    #[tactic(auto, unfolding(crate::specs::Ranges::is_within, crate::specs::Ranges::is_needs))]
    pub fn is_in_range(self) -> bool
        ensures ranges { IsTrue result ↔ spec.IsNeeds self }
        ensures value { result ≡ spec.is_needs self }
    {
        is_within(1, 90_000, self.interval)
            && is_within(1, 4_000_000, self.size)
            && is_within(64_000, 200_000_000, self.rx)
            && is_within(1, 10_000_000, self.main)
    }
}

// Returns whether each number of packets can be declared.
#[tactic(auto, unfolding(crate::specs::Ranges::is_within))]
fn are_packets(max_packets: &[u32]) -> bool
    ensures ranges { IsTrue result
        ↔ (All (λ packets. 1 ≤ packets) max_packets.now × All (λ packets. packets ≤ 2 ^ 21) max_packets.now) }
    ensures value { result ≡ list_all (spec.is_within 1 (2 ^ 21)) max_packets.now }
{
    max_packets
        .iter()
        .all(|packets| is_within(1, MAX_PACKETS, *packets))
}

/// Returns whether there are 1 to 64 numbers of packets, each 1 to 2^21.
#[tactic(auto, unfolding(crate::specs::Ranges::is_within, crate::specs::Ranges::are_max_packets))]
pub fn are_max_packets(max_packets: &[u32]) -> bool
    ensures ranges { IsTrue result ↔ spec.AreMaxPackets max_packets.now }
    ensures value { result ≡ spec.are_max_packets max_packets.now }
{
    let all = are_packets(max_packets);
    !max_packets.is_empty() && max_packets.len() <= 64 && all
}
