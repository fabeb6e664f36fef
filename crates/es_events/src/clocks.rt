//! The clocks of programs, and when units are due by them.
ghost use Rattle.std.specs.Prelude.{◌≡◌, ◌<◌, ◌^◌, OnOk};
ghost use Rattle.ts_packet.specs.Views.{packet_view};
ghost use Rattle.es_events.specs.Clocks as spec;

use arrival::{Arrival, PCR_PERIOD, PcrSample};
use clock27::units::BYTE_TICKS_AT_1BPS;
use indexmap::IndexMap;
use pes_packet::{PesError, PesHeader, Stamps, read_header};
use std::alloc::{AllocError, Global};
use std::hash::{BuildHasherDefault, FoldHasher};
use std::marker::Model;
use ts_packet::{Adaptation, Packet};
use tstd_rows::DueTime;

// No time in ticks that counts is after this one.
const LAST_TICK: u128 = 1 << 60;

/// The longest time in ticks that a unit may stay in a decoder: one minute (ISO/IEC 13818-1, 2.4.2.6).
pub const LONGEST_STAY: u64 = 1_620_000_000;

/// The last clock reference of each PID.
#[derive(Drop)]
pub struct Clocks {
    last: IndexMap<u16, PcrSample, BuildHasherDefault<FoldHasher>, Global>,
}

impl Model for Clocks {
    ghost use Rattle.es_events.specs.Clocks.{ClockEntries};

    ghost Value = { ClockEntries };

    ghost view = { λ c. c.last.entries };
}

/// What begins with the payload of a packet.
#[derive(Clone, Copy)]
pub enum Beginning {
    /// No PES packet, or a PES packet without stamps: its bytes belong to the current unit.
    Nothing,
    /// A PES packet whose header is cut off or wrong: its bytes belong to the current unit.
    Unread,
    /// A PES packet with a unit of this DTS, or of this PTS where it has no DTS.
    Stamped(u64),
}

/// Returns the first byte of the packet at an index.
pub fn first_byte(index: u64) -> u64
    ensures { result ≡ spec.first_byte index }
{
    index.saturating_mul(188)
}

// Returns when the byte comes that ends the base of a packet's clock reference.
#[tactic(auto, unfolding(crate::specs::Clocks::place_of))]
fn place_of(arrival: &Arrival, index: u64) -> Option<u64>
    ensures { result ≡ spec.place_of arrival.now index }
{
    let byte = first_byte(index).saturating_add(10);
    match arrival {
        Arrival::Unknown => None,
        Arrival::AtRate(_) => Some(byte),
        Arrival::OnLines(lines) => Some(lines.moment(byte)),
    }
}

// Returns the clock reference in the packet at an index. Its time takes a division: few packets have a reference.
#[tactic(auto, unfolding(crate::specs::Clocks::sample_in, crate::specs::Clocks::sample_at))]
fn sample_in(arrival: &Arrival, index: u64, packet: &Packet<'_>) -> Option<PcrSample>
    ensures { result ≡ spec.sample_in (spec.place_of arrival.now index) (packet_view packet.now).adaptation }
{
    match packet.adaptation {
        Some(Adaptation::Flagged(parts)) => {
            let reference = parts.pcr?;
            Some(PcrSample {
                byte: place_of(arrival, index)?,
                ticks: reference.base % (1 << 33) * 300 + u64::from(reference.extension),
                discontinuity: parts.discontinuity_indicator,
            })
        }
        _ => None,
    }
}

impl Clocks {
    /// Returns the state before the first reference.
    pub fn new(alloc: Global) -> Clocks
        ensures { result ≡ spec.no_clocks }
    {
        Clocks {
            last: IndexMap::new(alloc),
        }
    }

    /// Returns the last reference of a PID, searched first at the place of the first clock: most streams have a single
    /// clock.
    #[inline(always)]
    pub fn last(&self, pid: u16) -> Option<PcrSample>
        ensures { result ≡ spec.clock_of self.now pid }
    {
        if let Some((first, sample)) = self.last.get_index(0) {
            if *first == pid {
                return Some(*sample);
            }
        }
        self.last.get(&pid).copied()
    }

    /// Takes the packet at an index.
    #[tactic(auto, unfolding(crate::specs::Clocks::with_sample))]
    pub fn take(
        &mut self,
        arrival: &Arrival,
        index: u64,
        packet: &Packet<'_>,
    ) -> Result<(), AllocError>
        ensures { OnOk result (self.new ≡ spec.clocks_after self.old arrival.now index (packet_view packet.now)) }
    {
        if let Some(sample) = sample_in(arrival, index, packet) {
            self.last.insert(packet.header.pid, sample)?;
        }
        Ok(())
    }
}

// Returns what begins with a PES header, if it can be read.
#[tactic(auto, unfolding(crate::specs::Clocks::by_header, crate::specs::Clocks::by_stamps))]
fn by_header(read: Result<(PesHeader, usize), PesError>) -> Beginning
    ensures { result ≡ spec.by_header read }
{
    match read {
        Err(_) => Beginning::Unread,
        Ok((header, _)) => match header.stamps {
            Stamps::Absent => Beginning::Nothing,
            Stamps::Pts(pts) => Beginning::Stamped(pts),
            Stamps::PtsDts { dts, .. } => Beginning::Stamped(dts),
        },
    }
}

/// Returns what begins with the payload of a packet.
#[tactic(auto, unfolding(crate::specs::Clocks::by_payload))]
pub fn beginning_of(packet: &Packet<'_>) -> Beginning
    ensures { result ≡ spec.beginning_of (packet_view packet.now) }
{
    if !packet.header.payload_unit_start_indicator {
        return Beginning::Nothing;
    }
    match packet.payload {
        None => Beginning::Nothing,
        Some(payload) => by_header(read_header(payload)),
    }
}

/// Returns how long after a clock reference the clock next shows a stamp, in ticks.
pub fn ahead_of(clock: &PcrSample, dts: u64) -> u64
    ensures { result ≡ spec.ahead_of clock.now dts }
{
    (dts % (1 << 33) * 300 + PCR_PERIOD - clock.ticks % PCR_PERIOD) % PCR_PERIOD
}

// Returns the whole ticks from the first byte of the stream to the byte of a reference, if a byte takes `rate` to leave
// a buffer at the buffer's rate.
fn tick_of(rate: u64, clock: &PcrSample) -> u128
    ensures { result ≡ spec.tick_of rate clock.now }
{
    (u128::from(clock.byte) * BYTE_TICKS_AT_1BPS / u128::from(rate.max(1))).min(LAST_TICK)
}

/// Returns when a unit is due, in ticks from the stream's first byte.
pub fn due_tick(rate: u64, clock: &PcrSample, dts: u64) -> u128
    ensures value { result ≡ spec.due_tick rate clock.now dts }
    ensures most { result < 2 ^ 61 }
{
    let ahead = ahead_of(clock, dts);
    if ahead < PCR_PERIOD / 2 {
        tick_of(rate, clock) + u128::from(ahead.min(LONGEST_STAY))
    } else {
        tick_of(rate, clock).saturating_sub(u128::from(PCR_PERIOD - ahead))
    }
}

/// Returns when a unit with this DTS is due at a buffer that is drained at `rx` bits a second, by the last clock
/// reference before the unit; a byte takes `rate` to leave the buffer before it.
pub fn due_at(rate: u64, rx: u32, clock: &PcrSample, dts: u64) -> DueTime
    requires { rate < 4294967296 }
    ensures { result ≡ spec.due_at rate rx clock.now dts }
{
    DueTime::on_tick(rate, rx, due_tick(rate, clock, dts))
}
