//! The frames of a stream of sound whose main buffer is viewed by access units.
ghost use Rattle.std.specs.Prelude.{◌≡◌, ◌++◌, ◌<◌, ◌^◌, OnOk, Option, unwrap_or};
ghost use Rattle.sound_frames.specs.FrameWalks.{WalkView, no_walk, walk_after};
ghost use Rattle.ts_packet.specs.Views.{packet_view};
ghost use Rattle.tstd_rows.specs.HeldVideo.{HoldsVideoOf, VideoSizes};
ghost use Rattle.es_view.specs.EntryFrames as spec;
ghost use Rattle.es_view.specs.EntryFrames.{AreCounted, Counted};

use crate::counted_buffers::{CountedBuffers, FramePlace};
use es_events::clocks::Beginning;
use es_events::entry_events::Place;
use es_events::view_options::ViewOptions;
use events::Event;
use sound_frames::{FrameKind, FramePart, FrameWalk};
use std::alloc::{AllocError, Global};
use ts_packet::Packet;
use tstd_rows::Arriving;

/// Where the walk over the frames of a stream is, and when its unit is due, in ticks from the stream's first byte.
#[derive(Drop)]
pub struct EntryFrames {
    pub alloc: Global,
    pub walk: FrameWalk,
    pub tick: u128,
}

/// A payload among whose bytes frames begin: what its packet is to the buffers, the first of its bytes among all, when
/// the unit is due that begins with it, if one does, what begins with it, and its bytes of frames.
#[derive(Clone, Copy)]
pub(crate) struct FramedPayload<'a> {
    pub arriving: Arriving,
    pub base: u64,
    pub tick: Option<u128>,
    pub beginning: Beginning,
    pub bytes: &'a [u8],
}

/// Returns the bytes of a payload after the header of the PES packet that it begins.
#[tactic(auto, unfolding(crate::specs::EntryFrames::unit_after))]
pub fn unit_in(payload: &[u8]) -> &[u8]
    ensures { result.now ≡ spec.unit_in payload.now }
{
    match payload.get(8) {
        None => &[],
        Some(length) => match payload.get(9 + usize::from(*length)..) {
            None => &[],
            Some(unit) => unit,
        },
    }
}

/// Returns the bytes of a packet's payload among which frames begin.
pub(crate) fn frame_bytes<'a>(repeated: bool, packet: &Packet<'a>) -> &'a [u8]
    ensures { result.now ≡ spec.frame_bytes repeated (packet_view packet.now) }
{
    let payload = packet.payload.unwrap_or(&[]);
    if repeated {
        &[]
    } else if packet.header.payload_unit_start_indicator {
        unit_in(payload)
    } else {
        payload
    }
}

// Begins the walk again, if a unit begins.
#[tactic(auto, unfolding(crate::specs::EntryFrames::walk_begun))]
fn begin_walk(walk: &mut FrameWalk, beginning: Beginning, tick: Option<u128>)
    ensures { walk.new ≡ spec.walk_begun walk.old beginning tick }
{
    if tick.is_some() {
        walk.restart();
        return;
    }
    match beginning {
        Beginning::Nothing => {}
        Beginning::Unread | Beginning::Stamped(_) => walk.stray(),
    }
}

// Returns how many bytes of a payload come before the first frame that begins among them.
#[tactic(auto, unfolding(crate::specs::EntryFrames::front_count))]
fn front_count(before: u64, size: u64, frames: &[FramePart]) -> u64
    ensures { result ≡ spec.front_count before size frames.now }
{
    match frames {
        [] => size,
        [first, ..] => before.saturating_add(first.place as u64),
    }
}

impl EntryFrames {
    /// Returns the state before the first packet.
    pub fn new(alloc: Global, kind: FrameKind) -> EntryFrames
        ensures walk { result.walk ≡ no_walk kind }
        ensures tick { result.tick ≡ 0 }
    {
        EntryFrames {
            alloc,
            walk: FrameWalk::new(kind),
            tick: 0,
        }
    }

    /// Takes a payload into the buffers, each frame as a unit of its own, and appends what has ended with it.
    pub(crate) fn enter(
        &mut self,
        options: &ViewOptions,
        place: &Place,
        window: u64,
        unread: bool,
        limit: u64,
        payload: &FramedPayload<'_>,
        seen: &mut CountedBuffers,
        events: &mut Vec<Event>,
    ) -> Result<(), AllocError>
        ensures walk { OnOk result (self.new.walk
            ≡ walk_after (spec.walk_in (spec.payload_view payload.now) self.old.walk) payload.now.bytes.now) }
        ensures tick { OnOk result (self.new.tick ≡ unwrap_or payload.now.tick self.old.tick) }
        ensures counted { (c : Counted) → AreCounted seen.old c → OnOk result (AreCounted seen.new
            (spec.payload_after options.now window unread limit
            (spec.payload_view payload.now) self.old.walk self.old.tick c)) }
        ensures video { (c : Counted) (sizes : Option VideoSizes) → AreCounted seen.old c →
            HoldsVideoOf seen.old.buffers sizes c.held →
            OnOk result (HoldsVideoOf seen.new.buffers sizes
            (spec.payload_after options.now window unread limit
            (spec.payload_view payload.now) self.old.walk self.old.tick c).held) }
        ensures found { (c : Counted) → AreCounted seen.old c → OnOk result (events.new.items
            ≡ events.old.items ++ spec.payload_events options.now place.now limit
            (spec.payload_view payload.now) self.old.walk self.old.tick c.held) }
    {
        begin_walk(&mut self.walk, payload.beginning, payload.tick);
        let tick = payload.tick.unwrap_or(self.tick);
        self.tick = tick;
        let frames = self.walk.take(self.alloc, payload.bytes)?;
        let size = payload.arriving.size;
        let before = size.saturating_sub(payload.bytes.len() as u64);
        let count = front_count(before, size, &frames);
        seen.enter_front(
            options,
            place,
            window,
            unread,
            &payload.arriving,
            count,
            events,
        )?;
        let at = FramePlace {
            packet: payload.arriving.index,
            limit,
            base: payload.base.saturating_add(before),
            tick,
        };
        seen.enter_frames(options, place, &at, window, &frames, events)?;
        Ok(())
    }
}
