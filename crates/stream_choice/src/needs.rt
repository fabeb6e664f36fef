//! The known numbers of a stream.

ghost use Rattle.std.specs.Prelude.{◌≡◌, ◌≤◌};
ghost use Rattle.stream_choice.specs.Ranges.{IsNeeds};
ghost use Rattle.stream_choice.specs.Shares as spec;

/// The known numbers of a stream's units and buffers.
#[derive(Clone, Copy)]
pub struct Needs {
    /// The least time from one DTS to the next, in units of 90 kHz: 1 to 90,000.
    pub interval: u32,
    /// The bytes of the greatest unit: 1 to 4,000,000.
    pub size: u32,
    /// The rate out of the transport buffer, in bits/s: 64,000 to 200,000,000 (ISO/IEC 13818-1, 2.4.2.3).
    pub rx: u32,
    /// The bytes of the main buffer: 1 to 10,000,000.
    pub main: u32,
}

/// Returns the packets of the greatest unit.
pub fn packets_of_unit(needs: Needs) -> u64
    requires ranges { IsNeeds needs }
    ensures value { result ≡ spec.packets_of_unit needs }
    ensures upper { result ≤ 21740 }
{
    (19 + u64::from(needs.size) + 183) / 184
}

/// Returns the most packets of `units` units in a row, at most the packets of a group.
pub fn packets_in_row(needs: Needs, packets: u32, units: u64) -> u64
    requires ranges { IsNeeds needs }
    requires units { units ≤ 64 }
    ensures value { result ≡ spec.packets_in_row needs packets units }
    ensures upper { result ≤ packets }
{
    let all = units * packets_of_unit(needs);
    let packets = u64::from(packets);
    if packets < all { packets } else { all }
}
