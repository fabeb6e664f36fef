//! The share of an output that a stream asks for.

ghost use Rattle.std.specs.Prelude.{◌≡◌, ◌≤◌, ◌<◌, ◌^◌, ◌*◌, ◌-◌, ◌+◌, IfSome};
ghost use Rattle.stream_choice.specs.Ranges.{IsNeeds, IsGroup, AreMaxPackets};
ghost use Rattle.stream_choice.specs.Shares as spec;

use crate::needs::{Needs, packets_in_row};
use clock27::{BYTE_UNITS_AT_1BPS, SLOT_UNITS_AT_1BPS};
use unit_timing::buffers::TB_SIZE;
use unit_timing::multiplexing_buffer::MultiplexingBuffer;
use unit_timing::shares::PARTS;

/// The most bytes in a multiplexing buffer after a packet that are reckoned with: four packets.
const STRAYED_BYTES: u64 = 4 * 188;

/// Returns the share of `packets` packets in a time, in units of 90 kHz.
fn share_in(time: u64, packets: u64) -> u64
    requires positive { 1 ≤ time }
    requires packets { packets ≤ 2 ^ 21 }
    ensures value { result ≡ spec.share_in time packets }
    ensures upper { result ≤ 2 ^ 61 }
{
    (PARTS * packets).div_ceil(time)
}

/// Returns the share of groups of units that come one after another.
fn group_share(needs: Needs, group: u64, packets: u32) -> u64
    requires ranges { IsNeeds needs }
    requires group { IsGroup group packets }
    ensures value { result ≡ spec.group_share needs group packets }
    ensures upper { result ≤ 2 ^ 61 }
    ensures lower { 2 ^ 17 ≤ result }
{
    share_in(group * u64::from(needs.interval), u64::from(packets))
}

/// Returns the share of `units` units in a row, with a free time for each.
fn row_share(needs: Needs, packets: u32, free: u64, units: u64) -> u64
    requires ranges { IsNeeds needs }
    requires packets { packets ≤ 2 ^ 21 }
    requires free { 1 ≤ free }
    requires free_bound { free ≤ 90000 }
    requires units { 1 ≤ units }
    requires units_bound { units ≤ 64 }
    ensures value { result ≡ spec.row_share needs packets free units }
    ensures upper { result ≤ 2 ^ 61 }
{
    let time = free + (units - 1) * u64::from(needs.interval);
    share_in(time, packets_in_row(needs, packets, units))
}

/// Returns the share that groups and units in a row ask for, with that time free for each unit.
fn share_for_time(needs: Needs, group: u64, packets: u32, free: u64) -> u64
    requires ranges { IsNeeds needs }
    requires group { IsGroup group packets }
    requires free { 1 ≤ free }
    requires free_bound { free ≤ 90000 }
    ensures value { result ≡ spec.share_for_time needs group packets free }
    ensures upper { result ≤ 2 ^ 61 }
    ensures lower { 2 ^ 17 ≤ result }
{
    let mut greatest = 0;
    for before in 0..group {
        greatest = greatest.max(row_share(needs, packets, free, before + 1));
    }
    group_share(needs, group, packets).max(greatest)
}

/// Returns the distance of two packets of that share, in units of 90 kHz.
fn packet_distance(share: u64) -> u64
    requires positive { 1 ≤ share }
    ensures value { result ≡ spec.packet_distance share }
    ensures upper { result ≤ 2 ^ 40 }
{
    PARTS.div_ceil(share)
}

/// Returns the time, in units of 90 kHz, that the last packet of a unit may take beyond what its packets ask for: the
/// transport delay, and one distance of packets of the share.
pub fn lateness(delay: u32, share: u64) -> u64
    requires positive { 1 ≤ share }
    ensures value { result ≡ spec.lateness delay share }
    ensures upper { result ≤ 2 ^ 41 }
{
    u64::from(delay) + packet_distance(share)
}

/// Returns the share of packets that arrive at a pace, in bits/s of whole packets.
pub fn pace_share(pace: u32) -> u64
    requires some { 1 ≤ pace }
    requires most { pace ≤ 100000000 }
    ensures value { result ≡ spec.pace_share pace }
    ensures lower { 1 ≤ result }
    ensures upper { result ≤ 2 ^ 40 }
{
    (u128::from(PARTS) * u128::from(pace)).div_ceil(SLOT_UNITS_AT_1BPS) as u64
}

/// Returns the share with a lead; None if the lead is too short.
pub fn lead_share(needs: Needs, group: u64, packets: u32, delay: u32, lead: u32) -> Option<u64>
    requires ranges { IsNeeds needs }
    requires group { IsGroup group packets }
    requires lead { lead ≤ 90000 }
    ensures value { result ≡ spec.lead_share needs group packets delay lead }
    ensures upper { IfSome result (λ share. share ≤ 2 ^ 61) }
{
    let lead = u64::from(lead);
    if lead <= u64::from(delay) {
        return None;
    }
    let first = share_for_time(needs, group, packets, lead - u64::from(delay));
    let late = lateness(delay, first);
    if lead <= late {
        return None;
    }
    Some(share_for_time(needs, group, packets, lead - late))
}

/// Returns the least share that any group of a stream asks for, whatever its lead: in packets a unit of 90 kHz, in
/// parts of 2^40 of a packet, rounded up. `max_packets[g - 1]` are the most packets of `g` units in a row.
pub fn least_share(needs: Needs, max_packets: &[u32]) -> u64
    requires ranges { IsNeeds needs }
    requires max_packets { AreMaxPackets max_packets.now }
    ensures value { result ≡ spec.least_share needs max_packets.now }
    ensures upper { result ≤ 2 ^ 61 }
    ensures lower { 2 ^ 17 ≤ result }
{
    let mut least = u64::MAX;
    for i in 0..max_packets.len() {
        least = least.min(group_share(needs, i as u64 + 1, max_packets[i]));
    }
    least
}

/// Returns the longest time, in units of 90 kHz, from a packet's slot until its last byte leaves a buffer with at most
/// `bytes` bytes waiting.
fn buffer_delay(bytes: u64, drain: u32, share: u64) -> u32
    requires some { 1 ≤ bytes }
    requires most { bytes ≤ 753 }
    requires drain { 1 ≤ drain }
    requires share { 2 ^ 17 ≤ share }
    ensures value { result ≡ spec.buffer_delay bytes drain share }
    ensures lower { 2 ≤ result }
{
    let buffer = bytes * BYTE_UNITS_AT_1BPS as u64;
    (buffer.div_ceil(u64::from(drain)) + (3 * PARTS).div_ceil(share)) as u32
}

/// Returns the bytes that wait at most after a packet, before the buffer of units.
#[tactic(auto, unfolding(crate::specs::Shares::held_bytes))]
fn held_bytes(buffer: Option<MultiplexingBuffer>) -> u64
    ensures value { result ≡ spec.held_bytes buffer }
    ensures lower { 1 ≤ result }
    ensures upper { result ≤ 753 }
{
    match buffer {
        None => TB_SIZE,
        Some(buffer) => u64::from(buffer.size).min(STRAYED_BYTES).max(TB_SIZE) + 1,
    }
}

/// Returns the numbers of a stream with the leak rate of its multiplexing buffer, if it has one, in place of the rate
/// out of its transport buffer: the last drain before the buffer of units.
#[tactic(auto, unfolding(crate::specs::Shares::leaking_needs))]
pub fn leaking_needs(buffer: Option<MultiplexingBuffer>, needs: Needs) -> Needs
    ensures { result ≡ spec.leaking_needs buffer needs }
{
    match buffer {
        None => needs,
        Some(buffer) => Needs {
            interval: needs.interval,
            size: needs.size,
            rx: buffer.rbx,
            main: needs.main,
        },
    }
}

/// Returns the longest time from a packet's slot to its end in the last buffer before the units' buffer, in units of 90
/// kHz: until all bytes that wait in it are drained at `rx` bits/s, and three slots of an output of that share.
pub fn delay_before(buffer: Option<MultiplexingBuffer>, needs: Needs, share: u64) -> u32
    requires rx { 1 ≤ needs.rx }
    requires share { 2 ^ 17 ≤ share }
    ensures value { result ≡ spec.delay_before buffer needs share }
    ensures lower { 2 ≤ result }
{
    buffer_delay(held_bytes(buffer), needs.rx, share)
}
