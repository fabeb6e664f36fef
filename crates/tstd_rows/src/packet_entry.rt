//! Packets of a stream that enter its buffers.
ghost use Rattle.std.specs.Prelude.{◌≡◌, ◌≤◌, IfOk, OnOk, Option, min};
ghost use Rattle.tstd_rows.specs.Held.{Held, IsHeld};
ghost use Rattle.tstd_rows.specs.HeldVideo.{HoldsVideoOf, VideoSizes, video_view};
ghost use Rattle.tstd_rows.specs.EnteringVideo.{video_first_of, video_of, video_unit_of};
ghost use Rattle.tstd_rows.specs.Entering.{after, after_first, after_part, entered, entered_first, entered_part, entered_view, nothing_entered, size_of};

use crate::arriving::{Arriving, UnitPart};
use crate::entered::Entered;
use crate::stream_buffers::StreamBuffers;
use arrival::Arrival;
use std::alloc::AllocError;

// Packets from this one on enter no buffer: the stream is longer than 2^40 bytes.
const LAST_INDEX: u64 = 5_848_000_000;

// What may have entered a buffer before a packet.
const LAST_BYTES: u64 = (1 << 40) - 188;

impl StreamBuffers {
    // Takes a packet of the stream with the first `count` bytes of its payload.
    #[inline(always)]
    #[tactic(auto, unfolding(crate::specs::Entering::after_first, crate::specs::Entering::entered_first, crate::specs::EnteringVideo::video_first_of, crate::specs::EnteringVideo::video_unit_of), using(crate::proofs::Packets::within))]
    fn enter_first(
        &mut self,
        arrival: &Arrival,
        packet: &Arriving,
        count: u64,
        into: &mut Entered,
    ) -> Result<(), AllocError>
        requires empty { into.old ≡ nothing_entered }
        requires count { count ≤ size_of packet.now }
        ensures held { (h : Held) → IsHeld self.old h →
            OnOk result (IsHeld self.new (after_first h arrival.now packet.now count)) }
        ensures video { (h : Held) (sizes : Option VideoSizes) → IsHeld self.old h → HoldsVideoOf self.old sizes h →
            OnOk result (HoldsVideoOf self.new sizes (after_first h arrival.now packet.now count)) }
        ensures entered { (h : Held) → IsHeld self.old h →
            OnOk result (entered_view into.new ≡ entered_first h arrival.now packet.now count) }
        ensures entered_video { (h : Held) (sizes : Option VideoSizes) → IsHeld self.old h →
            HoldsVideoOf self.old sizes h →
            OnOk result (video_view into.new.video ≡ video_first_of sizes h arrival.now packet.now count) }
        ensures unit_video { (h : Held) (sizes : Option VideoSizes) → IsHeld self.old h →
            HoldsVideoOf self.old sizes h →
            OnOk result (into.new.video.unit ≡ video_unit_of sizes h arrival.now packet.now) }
    {
        if packet.index >= LAST_INDEX
            || self.view.transport.bytes > LAST_BYTES
            || !arrival.has_times(188 * packet.index, 188)
        {
            return Ok(());
        }
        let size = packet.size.min(184);
        let byte = 188 * packet.index;
        let lead = arrival.lead(byte).min(188 - size);
        let before = self.pass_if(arrival, byte, lead, &mut into.lead);
        let header = self.pass_if(arrival, byte + lead, 188 - size - lead, &mut into.header);
        self.begin(&packet.begins, &mut into.unit, &mut into.video.unit)?;
        let payload = self.take(
            arrival,
            byte + (188 - size),
            count,
            packet.enters,
            &mut into.payload,
            &mut into.main,
            &mut into.video,
        );
        into.transport_most = before.max(header).max(payload.transport);
        into.main_most = payload.main;
        into.main_least = payload.least;
        Ok(())
    }

    /// Takes a packet of the stream; what has ended, and what was in the buffers, is written where nothing is yet, so
    /// that it is not moved. If no memory is left for one unit more, drop the buffers.
    #[tactic(auto, unfolding(crate::specs::Entering::after, crate::specs::Entering::after_first, crate::specs::Entering::entered, crate::specs::Entering::entered_first, crate::specs::EnteringVideo::video_of, crate::specs::EnteringVideo::video_first_of))]
    pub fn enter_into(
        &mut self,
        arrival: &Arrival,
        packet: &Arriving,
        into: &mut Entered,
    ) -> Result<(), AllocError>
        requires { into.old ≡ nothing_entered }
        ensures held { (h : Held) → IsHeld self.old h → OnOk result (IsHeld self.new (after h arrival.now packet.now)) }
        ensures video { (h : Held) (sizes : Option VideoSizes) → IsHeld self.old h → HoldsVideoOf self.old sizes h →
            OnOk result (HoldsVideoOf self.new sizes (after h arrival.now packet.now)) }
        ensures entered { (h : Held) → IsHeld self.old h →
            OnOk result (entered_view into.new ≡ entered h arrival.now packet.now) }
        ensures entered_video { (h : Held) (sizes : Option VideoSizes) → IsHeld self.old h →
            HoldsVideoOf self.old sizes h →
            OnOk result (video_view into.new.video ≡ video_of sizes h arrival.now packet.now) }
        ensures unit_video { (h : Held) (sizes : Option VideoSizes) → IsHeld self.old h →
            HoldsVideoOf self.old sizes h →
            OnOk result (into.new.video.unit ≡ video_unit_of sizes h arrival.now packet.now) }
    {
        self.enter_first(arrival, packet, packet.size.min(184), into)
    }

    /// Takes a packet of the stream with at most the first `count` bytes of its payload: the bytes before an access
    /// unit that begins within it. Take the rest of its payload by `enter_part`.
    pub fn enter_front(
        &mut self,
        arrival: &Arrival,
        packet: &Arriving,
        count: u64,
        into: &mut Entered,
    ) -> Result<(), AllocError>
        requires { into.old ≡ nothing_entered }
        ensures held { (h : Held) → IsHeld self.old h →
            OnOk result (IsHeld self.new (after_first h arrival.now packet.now (min count (size_of packet.now)))) }
        ensures video { (h : Held) (sizes : Option VideoSizes) → IsHeld self.old h → HoldsVideoOf self.old sizes h →
            OnOk result (HoldsVideoOf self.new sizes
            (after_first h arrival.now packet.now (min count (size_of packet.now)))) }
        ensures entered { (h : Held) → IsHeld self.old h →
            OnOk result (entered_view into.new
            ≡ entered_first h arrival.now packet.now (min count (size_of packet.now))) }
    {
        self.enter_first(arrival, packet, count.min(packet.size.min(184)), into)
    }

    /// Takes the bytes of an access unit that begins within the payload of a packet, as far as they are in that
    /// payload.
    #[tactic(auto, unfolding(crate::specs::Entering::after_part, crate::specs::Entering::entered_part))]
    pub fn enter_part(
        &mut self,
        arrival: &Arrival,
        part: &UnitPart,
        into: &mut Entered,
    ) -> Result<(), AllocError>
        requires { into.old ≡ nothing_entered }
        ensures held { (h : Held) → IsHeld self.old h →
            OnOk result (IsHeld self.new (after_part h arrival.now part.now)) }
        ensures video { (h : Held) (sizes : Option VideoSizes) → IsHeld self.old h → HoldsVideoOf self.old sizes h →
            OnOk result (HoldsVideoOf self.new sizes (after_part h arrival.now part.now)) }
        ensures entered { (h : Held) → IsHeld self.old h →
            OnOk result (entered_view into.new ≡ entered_part h arrival.now part.now) }
    {
        if part.byte > LAST_BYTES
            || self.view.transport.bytes > LAST_BYTES
            || part.size > 188
            || !arrival.has_times(part.byte, part.size)
        {
            return Ok(());
        }
        self.begin_unit(part.due, &mut into.unit, &mut into.video.unit)?;
        let payload = self.take(
            arrival,
            part.byte,
            part.size,
            true,
            &mut into.payload,
            &mut into.main,
            &mut into.video,
        );
        into.transport_most = payload.transport;
        into.main_most = payload.main;
        into.main_least = payload.least;
        Ok(())
    }

    /// Takes a packet of the stream, and returns what has ended, and what was in the buffers. If no memory is left for
    /// one unit more, drop the buffers.
    pub fn enter(&mut self, arrival: &Arrival, packet: &Arriving) -> Result<Entered, AllocError>
        ensures held { (h : Held) → IsHeld self.old h → OnOk result (IsHeld self.new (after h arrival.now packet.now)) }
        ensures video { (h : Held) (sizes : Option VideoSizes) → IsHeld self.old h → HoldsVideoOf self.old sizes h →
            OnOk result (HoldsVideoOf self.new sizes (after h arrival.now packet.now)) }
        ensures entered { (h : Held) → IsHeld self.old h →
            IfOk result (λ e. entered_view e ≡ entered h arrival.now packet.now) }
        ensures entered_video { (h : Held) (sizes : Option VideoSizes) → IsHeld self.old h →
            HoldsVideoOf self.old sizes h →
            IfOk result (λ e. video_view e.video ≡ video_of sizes h arrival.now packet.now) }
        ensures unit_video { (h : Held) (sizes : Option VideoSizes) → IsHeld self.old h →
            HoldsVideoOf self.old sizes h →
            IfOk result (λ e. e.video.unit ≡ video_unit_of sizes h arrival.now packet.now) }
    {
        let mut entered = Entered::new();
        self.enter_into(arrival, packet, &mut entered)?;
        Ok(entered)
    }
}
