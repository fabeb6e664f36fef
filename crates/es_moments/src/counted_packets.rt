//! The packets of a stream's units, each unit counted once.

ghost use Rattle.std.specs.Prelude.{◌≡◌, ◌≤◌, ◌^◌, ℕ, All, IfOk, List, length, map, sum};
ghost use Rattle.pes_packet.specs.AccessUnits.{AccessUnit};
ghost use Rattle.unit_timing.specs.PesPacket.{PesPacket, packets_of_unit};
ghost use Rattle.es_moments.specs.CountedUnits.{IsWeight, row_packets, weighed_packets};
ghost use Rattle.es_moments.specs.Declaration as spec;

use crate::counted_units::largest_of;
use crate::declaration::max_unit_packets;
use crate::unit_weights::{UnitWeight, unit_weights};
use pes_packet::Unit;
use std::alloc::{AllocError, Allocator, Global};
use std::marker::Model;

/// The packets of each unit of a stream: 8 bytes of memory a unit.
#[derive(Drop)]
pub struct CountedPackets<A: Allocator = Global> {
    numbers: Vec<u64, A>,
    // the greatest of these numbers
    greatest: u64,
    // of a unit of the largest size, with the longest header
    largest: u64,
}

// A contract sees the numbers as a list. Each is the number of packets of a unit in memory.
impl<A: Allocator> Model for CountedPackets<A> {
    ghost use Rattle.es_moments.specs.Declaration.{AreAtMost, CountedPacketsView};

    ghost Value = { CountedPacketsView };

    ghost view = { λ c. record { numbers = c.numbers.items; largest = c.largest } };

    ghost invariant = { λ c. AreAtMost c.greatest c.numbers.items };
}

// Returns the packets of each unit.
fn packet_numbers<A: Allocator>(alloc: A, weights: &[UnitWeight]) -> Result<Vec<u64, A>, AllocError>
    requires { All IsWeight weights.now }
    ensures numbers { IfOk result (λ numbers. numbers.items ≡ map (λ w. w.packets) weights.now) }
    ensures bound { IfOk result (λ numbers. All (λ n. n ≤ 2 ^ 56) numbers.items) }
{
    weights.iter().map(|weight| weight.packets).collect(alloc)
}

// Returns the sum of the numbers of a row.
fn row_packets(numbers: &[u64]) -> u64
    requires { sum numbers.now ≤ 2 ^ 63 }
    ensures { result ≡ sum numbers.now }
{
    numbers.iter().sum()
}

// Returns the greatest of some numbers.
fn greatest_of(numbers: &[u64]) -> u64
    requires { All (λ n. n ≤ 2 ^ 56) numbers.now }
    ensures { spec.AreAtMost result numbers.now }
{
    let mut greatest = 0;
    for number in numbers {
        greatest = greatest.max(*number);
    }
    greatest
}

// Returns the most packets of `group` units in a row, or of all if they are fewer; `greatest` is the greatest number of
// any unit.
fn greatest_row(numbers: &[u64], greatest: u64, group: usize) -> u64
    requires few { group ≤ 64 }
    requires bound { spec.AreAtMost greatest numbers.now }
    ensures { (units : List PesPacket) → numbers.now ≡ map packets_of_unit units →
        result ≡ spec.max_group group units }
{
    let (first, later) = numbers.split_at(group.min(numbers.len()));
    let mut row = row_packets(first);
    // If each unit has as many packets as the greatest, no row has more, and no row has to be looked at.
    if row == group as u64 * greatest {
        return row;
    }
    let mut most = 0;
    for (at, entering) in later.iter().enumerate() {
        most = most.max(row);
        row = row + *entering - numbers[at];
    }
    most.max(row)
}

impl<A: Allocator + Clone> CountedPackets<A> {
    /// Counts the packets of each unit with the clock's first value `base0`, which decides which of them have a DTS in
    /// their header.
    pub fn of_units(alloc: A, base0: u64, units: &[Unit<A>]) -> Result<Self, AllocError>
        ensures { IfOk result (λ packets. (id : ℕ) → packets ≡ spec.counted_packets id base0 units.now) }
    {
        let weights = unit_weights(alloc.clone()?, base0, units)?;
        let packets = CountedPackets::of_weights(alloc, &weights)?;
        Ok(packets)
    }
}

impl<A: Allocator> CountedPackets<A> {
    /// Counts the packets of units with these weights.
    pub(crate) fn of_weights(alloc: A, weights: &[UnitWeight]) -> Result<Self, AllocError>
        requires { All IsWeight weights.now }
        ensures { IfOk result (λ packets. packets ≡ weighed_packets weights.now) }
    {
        let numbers = packet_numbers(alloc, weights)?;
        let greatest = greatest_of(&numbers);
        let largest = max_unit_packets(largest_of(weights));
        Ok(CountedPackets {
            numbers,
            greatest,
            largest,
        })
    }

    /// Returns the most packets of `group` units in a row, or of all if they are fewer; at least as many as a unit of
    /// the largest size has, whatever its header.
    pub fn of_group(&self, group: u8) -> u64
        requires { group ≤ 64 }
        ensures value { result ≡ row_packets group self.now }
        ensures of_units { (id base0 : ℕ) (us : List AccessUnit) → self.now ≡ spec.counted_packets id base0 us →
            result ≡ spec.group_packets id base0 group us }
    {
        self.largest
            .max(greatest_row(&self.numbers, self.greatest, group as usize))
    }
}
