//! How often presentation time stamps come.
ghost use Rattle.std.specs.Prelude.{◌≡◌, IfOk, OnOk, nat_eq};
ghost use Rattle.std.specs.Map.{lookup};
ghost use Rattle.ts_packet.specs.Views.{packet_view};
ghost use Rattle.tr101290.specs.Stamps as spec;

use crate::intervals::{TableTiming, time_between};
use indexmap::IndexMap;
use pes_packet::{PesError, PesHeader, Stamps, read_header};
use std::alloc::{AllocError, Allocator};
use std::hash::{BuildHasherDefault, FoldHasher};
use std::marker::Model;
use ts_packet::Packet;

/// The greatest time from one PTS of a stream to the next, in ticks of 27 MHz: 700 ms (ISO/IEC 13818-1, 2.7.4).
pub const GREATEST_PTS_INTERVAL: u64 = 18_900_000;

/// A PTS comes too long after the one before it of its PID: its packet, the time between in ticks, and the limit.
#[derive(Clone, Copy)]
pub struct PtsError {
    pub pid: u16,
    pub packet: u64,
    pub value: u128,
    pub limit: u64,
}

/// Places of the last PTS by PID.
type PtsEntries<A> = IndexMap<u16, u64, BuildHasherDefault<FoldHasher>, A>;

/// The place of the last PTS of each PID with audio or video.
#[derive(Drop)]
pub struct PtsWatch<A: Allocator> {
    timing: TableTiming,
    lasts: PtsEntries<A>,
}

impl<A: Allocator> Model for PtsWatch<A> {
    ghost use Rattle.tr101290.specs.Stamps.{StampState};

    ghost Value = { StampState };

    ghost view = { λ w. record { timing = w.timing; lasts = w.lasts.entries } };
}

// Returns whether a stream_id is of audio or video.
fn is_timed_id(id: u8) -> bool
    ensures { result ≡ spec.is_timed_id id }
{
    (id >= 0xC0 && id <= 0xEF) || id == 0xFD
}

#[tactic(auto, unfolding(crate::specs::Stamps::is_stamped))]
fn is_stamped(stamps: &Stamps) -> bool
    ensures { result ≡ spec.is_stamped stamps.now }
{
    match stamps {
        Stamps::Absent => false,
        Stamps::Pts(_) | Stamps::PtsDts { .. } => true,
    }
}

#[tactic(auto, unfolding(crate::specs::Stamps::by_header))]
fn by_header(said: Option<bool>, read: Result<(PesHeader, usize), PesError>) -> bool
    ensures { result ≡ spec.by_header said read }
{
    match read {
        Err(_) => false,
        Ok((header, _)) => said.unwrap_or(is_timed_id(header.id)) && is_stamped(&header.stamps),
    }
}

#[tactic(auto, unfolding(crate::specs::Stamps::by_payload))]
fn by_payload(said: Option<bool>, packet: &Packet<'_>) -> bool
    ensures { result ≡ spec.by_payload said (packet_view packet.now).payload }
{
    match packet.payload {
        None => false,
        Some(payload) => by_header(said, read_header(payload)),
    }
}

// Returns whether a PES packet of audio or video with a PTS begins in a packet.
fn has_pts(said: Option<bool>, packet: &Packet<'_>) -> bool
    ensures { result ≡ spec.has_pts said (packet_view packet.now) }
{
    packet.header.payload_unit_start_indicator && by_payload(said, packet)
}

#[tactic(auto, unfolding(crate::specs::Stamps::too_late))]
fn too_late(
    timing: TableTiming,
    pid: u16,
    packet: u64,
    place: u64,
    before: Option<u64>,
) -> Option<PtsError>
    ensures { result ≡ spec.too_late timing pid packet place before }
{
    let before = before?;
    let value = time_between(timing, place.saturating_sub(before));
    if value > u128::from(GREATEST_PTS_INTERVAL) {
        Some(PtsError {
            pid,
            packet,
            value,
            limit: GREATEST_PTS_INTERVAL,
        })
    } else {
        None
    }
}

fn last_at<A: Allocator>(lasts: &PtsEntries<A>, pid: u16) -> Option<u64>
    ensures { result ≡ lookup (nat_eq pid) lasts.now.entries }
{
    match lasts.get(&pid) {
        None => None,
        Some(place) => Some(*place),
    }
}

impl<A: Allocator + Copy> PtsWatch<A> {
    /// Returns the state before the first packet.
    pub fn new(alloc: A, timing: TableTiming) -> PtsWatch<A>
        ensures { result ≡ spec.no_stamp timing }
    {
        PtsWatch {
            timing,
            lasts: IndexMap::new(alloc),
        }
    }

    /// Takes the packet at an index and a place, and returns the error of its PTS, if the PTS is too late. The tables
    /// may say whether the time stamps of its PID have to repeat; if they do not, its stream_id says.
    ///
    /// After an `AllocError` the watch describes no stream: drop it.
    pub fn take(
        &mut self,
        index: u64,
        place: u64,
        said: Option<bool>,
        packet: &Packet<'_>,
    ) -> Result<Option<PtsError>, AllocError>
        ensures stamps { OnOk result (self.new ≡ spec.taken self.old place said (packet_view packet.now)) }
        ensures error { IfOk result (λ error. error
            ≡ spec.error_at self.old index place said (packet_view packet.now)) }
    {
        if !has_pts(said, packet) {
            return Ok(None);
        }
        let pid = packet.header.pid;
        let before = last_at(&self.lasts, pid);
        self.lasts.insert(pid, place)?;
        Ok(too_late(self.timing, pid, index, place, before))
    }
}
