//! The measures of streams: their entries in the program map and the counts of their units, without the units' bytes.

ghost use Rattle.std.specs.Prelude.{◌≡◌, map, IfOk, None};
ghost use Rattle.std.specs.List.{list_any};
ghost use Rattle.es_moments.specs.Stamps.{moved};
ghost use Rattle.es_moments.specs.UnitMoments.{moment_of};
ghost use Rattle.sound_frames.specs.Frames.{no_frames, all_frames};
ghost use Rattle.sound_frames.specs.FrameHeaders.{frame_kind};
ghost use Rattle.job_units.specs.Declarations as spec;
ghost use Rattle.job_units.specs.Moments.{wire_of};
ghost use Rattle.job_units.specs.OddStreams as odd;
ghost use Rattle.job_units.specs.OddStreams.{alone, first_carried, own_base};

use crate::crossing_frames::do_cross;
use crate::frame_rests::least_rest;
use es_moments::{CountedUnits, FoundUnit, UnitMoment};
use job_programs::{TimedStream, WireStream};
use pes_packet::Unit;
use sound_frames::{FrameKind, UnitFrames, frame_kind, unit_frames};
use std::alloc::{AllocError, Global};
use std::marker::Model;
use stream_choice::FrameCounts;
use stream_coding::{ProfileLevel, profile_level};

/// The measures of a stream: its entry in the program map, the bytes of its first unit, the framing of its sound if
/// each unit is whole frames, whether frames of sound cross its units, the most bytes of a PES packet header, and the
/// counts of its units.
#[derive(Drop)]
pub struct StreamMeasures {
    pub pid: u16,
    pub stream_id: u8,
    pub stream_type: u8,
    pub descriptors: Vec<u8>,
    pub first: Vec<u8>,
    pub framing: Option<FrameCounts>,
    pub crossing: bool,
    pub header: u32,
    pub units: CountedUnits,
}

// A contract sees its bytes as lists.
impl Model for StreamMeasures {
    ghost use Rattle.job_units.specs.Declarations.{MeasuredView};

    ghost Value = { MeasuredView };

    ghost view = { λ m. record {
      pid = m.pid;
      stream_id = m.stream_id;
      stream_type = m.stream_type;
      descriptors = m.descriptors.items;
      first = m.first.items;
      framing = m.framing;
      crossing = m.crossing;
      header = m.header;
      units = m.units;
    } };
}

// Returns the access units of a unit as a description declares them.
#[tactic(auto, unfolding(crate::specs::Declarations::framing_of))]
fn framing_of(rest: u32, frames: UnitFrames) -> Option<FrameCounts>
    ensures { result ≡ spec.framing_of rest frames }
{
    let left = frames.left;
    if frames.count <= 64 && frames.time < 1 << 32 {
        Some(FrameCounts {
            frames: frames.count as u8,
            frame: frames.time as u32,
            rest,
            left,
        })
    } else {
        None
    }
}

// Returns the frames of all units; `None` if a unit is not whole frames.
fn all_frames(kind: FrameKind, units: &[Unit]) -> Option<UnitFrames>
    ensures { result ≡ all_frames kind no_frames (map (λ u. u.bytes) units.now) }
{
    let mut frames = UnitFrames::none();
    let mut left = units;
    while let Some((unit, later)) = left.split_first() {
        let others = unit_frames(kind, unit.bytes.as_slice())?;
        frames = frames.joined(others);
        left = later;
    }
    Some(frames)
}

// Returns the access units of a stream's units, if it is sound whose units are whole frames.
#[tactic(auto, unfolding(crate::specs::Declarations::framing_for))]
fn framing_for(stream: &TimedStream) -> Option<FrameCounts>
    ensures { result ≡ spec.framing_for stream.now }
{
    let kind = frame_kind(stream.stream_type, &stream.descriptors)?;
    let frames = all_frames(kind, &stream.units)?;
    let rest = least_rest(kind, frames.time, &stream.units);
    framing_of(rest, frames)
}

// Returns whether frames of sound cross the units of a stream.
#[tactic(auto, unfolding(crate::specs::Declarations::crossing_for))]
fn crossing_for(alloc: Global, stream: &TimedStream) -> Result<bool, AllocError>
    ensures { IfOk result (λ is. is ≡ spec.crossing_for stream.now) }
{
    match frame_kind(stream.stream_type, &stream.descriptors) {
        None => Ok(false),
        Some(kind) => do_cross(alloc, kind, &stream.units),
    }
}

// Returns the bytes of the first unit.
#[tactic(auto, unfolding(crate::specs::Declarations::first_bytes))]
fn first_bytes(stream: &TimedStream) -> &[u8]
    ensures { result.now ≡ spec.first_bytes stream.now.units }
{
    match stream.units.first() {
        Some(unit) => unit.bytes.as_slice(),
        None => &[],
    }
}

/// Returns what the first unit of a stream says of its profile and level.
#[tactic(auto, unfolding(crate::specs::Declarations::said_profile))]
pub fn said_profile(stream: &TimedStream) -> ProfileLevel
    ensures { result ≡ spec.said_profile stream.now }
{
    profile_level(stream.stream_type, first_bytes(stream))
}

// Returns the most bytes of a PES packet header.
#[tactic(auto, unfolding(crate::specs::Declarations::most_header))]
fn most_header(long: bool, private_data: bool) -> u32
    ensures { result ≡ spec.most_header long private_data }
{
    if long {
        45
    } else if private_data {
        36
    } else {
        19
    }
}

// Returns whether a unit asks for a PES packet header of 45 bytes.
fn has_long(unit: &Unit) -> bool
    ensures { result ≡ spec.has_long unit.now }
{
    unit.marks.long
}

// Returns whether a unit has PES_private_data.
fn has_data(unit: &Unit) -> bool
    ensures { result ≡ spec.has_data unit.now }
{
    unit.marks.private_data.is_some()
}

fn any_long(units: &[Unit]) -> bool
    ensures { result ≡ list_any spec.has_long units.now }
{
    units.iter().any(|unit| has_long(unit))
}

fn any_data(units: &[Unit]) -> bool
    ensures { result ≡ list_any spec.has_data units.now }
{
    units.iter().any(|unit| has_data(unit))
}

// Returns the most bytes of a PES packet header of units.
#[tactic(auto, unfolding(crate::specs::Declarations::header_of))]
fn header_of(units: &[Unit]) -> u32
    ensures { result ≡ spec.header_of units.now }
{
    most_header(any_long(units), any_data(units))
}

/// Returns the measures of a stream.
#[tactic(auto, unfolding(crate::specs::Declarations::measured))]
pub(crate) fn measured(alloc: Global, stream: &TimedStream) -> Result<StreamMeasures, AllocError>
    ensures { IfOk result (λ m. m ≡ spec.measured stream.now) }
{
    let units = CountedUnits::of_units(alloc, &stream.units)?;
    let descriptors = Vec::from_slice(alloc, &stream.descriptors)?;
    let first = Vec::from_slice(alloc, first_bytes(stream))?;
    let crossing = crossing_for(alloc, stream)?;
    Ok(StreamMeasures {
        pid: stream.pid,
        stream_id: stream.stream_id,
        stream_type: stream.stream_type,
        descriptors,
        first,
        framing: framing_for(stream),
        crossing,
        header: header_of(&stream.units),
        units,
    })
}

/// Returns the measures of all streams.
pub fn all_measured(
    alloc: Global,
    streams: &[TimedStream],
) -> Result<Vec<StreamMeasures>, AllocError>
    ensures { IfOk result (λ all. all.items ≡ spec.all_measured streams.now) }
{
    let mut all = Vec::with_capacity(alloc, streams.len())?;
    for stream in streams {
        all.push(measured(alloc, stream)?)?;
    }
    Ok(all)
}

// Returns a copy of the bytes of the first unit.
#[tactic(auto, unfolding(crate::specs::OddStreams::first_carried))]
fn first_copy(alloc: Global, stream: &WireStream<'_>) -> Result<Vec<u8>, AllocError>
    ensures { IfOk result (λ bytes. bytes.items ≡ first_carried stream.now.units) }
{
    let Some(unit) = stream.units.first() else {
        return Ok(Vec::new(alloc));
    };
    let mut bytes = Vec::from_slice(alloc, unit.bytes.body)?;
    bytes.extend_from_slice(&unit.bytes.more)?;
    Ok(bytes)
}

// The same of units that are found.
fn carries_long(unit: &FoundUnit<'_>) -> bool
    ensures { result ≡ odd.carries_long unit.now }
{
    unit.marks.long
}

fn carries_data(unit: &FoundUnit<'_>) -> bool
    ensures { result ≡ odd.carries_data unit.now }
{
    unit.marks.private_data.is_some()
}

fn any_carries_long(units: &[FoundUnit<'_>]) -> bool
    ensures { result ≡ list_any odd.carries_long units.now }
{
    units.iter().any(|unit| carries_long(unit))
}

fn any_carries_data(units: &[FoundUnit<'_>]) -> bool
    ensures { result ≡ list_any odd.carries_data units.now }
{
    units.iter().any(|unit| carries_data(unit))
}

// Returns the most bytes of a PES packet header of units that are found.
#[tactic(auto, unfolding(crate::specs::OddStreams::carried_header))]
fn found_header(units: &[FoundUnit<'_>]) -> u32
    ensures { result ≡ odd.carried_header units.now }
{
    most_header(any_carries_long(units), any_carries_data(units))
}

/// Returns the measures of a stream without frames of sound at these moments, the first unit due at once. The bytes of
/// its units stay where they are found.
pub(crate) fn found_measured(
    alloc: Global,
    stream: &WireStream<'_>,
    moments: &[UnitMoment],
) -> Result<StreamMeasures, AllocError>
    requires moments { moments.now ≡ map moment_of (moved (own_base stream.now) None (wire_of stream.now)) }
    requires frames { frame_kind stream.now.stream_type stream.now.descriptors ≡ None }
    ensures { IfOk result (λ m. m ≡ spec.measured (alone stream.now)) }
{
    let units = CountedUnits::of_found(alloc, moments, &stream.units)?;
    let descriptors = Vec::from_slice(alloc, &stream.descriptors)?;
    let first = first_copy(alloc, stream)?;
    let header = found_header(&stream.units);
    Ok(StreamMeasures {
        pid: stream.pid,
        stream_id: stream.stream_id,
        stream_type: stream.stream_type,
        descriptors,
        first,
        framing: None,
        crossing: false,
        header,
        units,
    })
}
