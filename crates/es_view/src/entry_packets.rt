//! A packet of a stream: what begins with it, and what its payload is to the buffers.
ghost use Rattle.std.specs.Prelude.{◌≡◌};
ghost use Rattle.ts_packet.specs.Views.{packet_view};
ghost use Rattle.es_view.specs.Entries as spec;
ghost use Rattle.es_view.specs.EntryFrames as frames;

use crate::entry_frames::{FramedPayload, frame_bytes};
use crate::last_payload::LastPayload;
use arrival::{PCR_PERIOD, PcrSample};
use es_events::clocks::{Beginning, LONGEST_STAY, ahead_of, beginning_of, due_at, due_tick};
use es_events::entry_stays::{overstay_if, payload_byte};
use es_events::view_options::ViewOptions;
use ts_packet::Packet;
use tstd_rows::{Arriving, DueTime, Stay};

// Returns what begins with a packet.
pub(crate) fn beginning_in(last: &LastPayload, packet: &Packet<'_>) -> Beginning
    ensures { result ≡ spec.beginning_in last.now (packet_view packet.now) }
{
    if last.is_repeated(packet) {
        Beginning::Nothing
    } else {
        beginning_of(packet)
    }
}

// Returns when the unit is due that begins; `None` if no unit begins, or no clock reference has come.
#[tactic(auto, unfolding(crate::specs::Entries::due_by))]
fn due_by(
    options: &ViewOptions,
    rx: u32,
    clock: &Option<PcrSample>,
    beginning: Beginning,
) -> Option<DueTime>
    ensures { result ≡ spec.due_by options.now rx clock.now beginning }
{
    match beginning {
        Beginning::Stamped(dts) => {
            let clock = clock.as_ref()?;
            Some(due_at(options.arrival.step(), rx, clock, dts))
        }
        _ => None,
    }
}

// Returns how long the unit that begins would stay, if it is longer than any unit may.
#[tactic(auto, unfolding(crate::specs::Entries::ahead_by))]
pub(crate) fn ahead_by(clock: &Option<PcrSample>, beginning: Beginning) -> Option<u64>
    ensures { result ≡ spec.ahead_by clock.now beginning }
{
    let (Some(clock), Beginning::Stamped(dts)) = (clock, beginning) else {
        return None;
    };
    let ahead = ahead_of(clock, dts);
    if ahead > LONGEST_STAY && ahead < PCR_PERIOD / 2 {
        Some(ahead)
    } else {
        None
    }
}

// Returns whether a header was not read.
#[tactic(auto, unfolding(crate::specs::Entries::is_unread))]
pub(crate) fn is_unread(beginning: Beginning) -> bool
    ensures { result ≡ spec.is_unread beginning }
{
    match beginning {
        Beginning::Unread => true,
        _ => false,
    }
}

// Returns a packet as its buffers see it; `beginning` is what begins with the packet.
pub(crate) fn arriving(
    options: &ViewOptions,
    index: u64,
    rx: u32,
    last: &LastPayload,
    clock: &Option<PcrSample>,
    beginning: Beginning,
    packet: &Packet<'_>,
) -> Arriving
    requires { beginning ≡ spec.beginning_in last.now (packet_view packet.now) }
    ensures { result ≡ spec.arriving options.now index rx last.now clock.now (packet_view packet.now) }
{
    let payload = packet.payload.unwrap_or(&[]);
    Arriving {
        index,
        size: payload.len() as u64,
        begins: due_by(options, rx, clock, beginning),
        enters: !last.is_repeated(packet),
    }
}

// Returns the payload of a packet, among whose bytes frames begin.
pub(crate) fn payload_of<'a>(
    options: &ViewOptions,
    index: u64,
    rx: u32,
    last: &LastPayload,
    clock: &Option<PcrSample>,
    beginning: Beginning,
    packet: &Packet<'a>,
) -> FramedPayload<'a>
    requires { beginning ≡ spec.beginning_in last.now (packet_view packet.now) }
    ensures { frames.payload_view result
        ≡ spec.payload_of options.now index rx last.now clock.now (packet_view packet.now) }
{
    let size = packet.payload.unwrap_or(&[]).len() as u64;
    FramedPayload {
        arriving: arriving(options, index, rx, last, clock, beginning, packet),
        base: payload_byte(index, size),
        tick: unit_tick(options, clock, beginning),
        beginning,
        bytes: frame_bytes(last.is_repeated(packet), packet),
    }
}

// Returns when the unit that begins is due, in ticks from the stream's first byte; `None` if no unit begins, or no
// clock reference has come.
#[tactic(auto, unfolding(crate::specs::EntryFrames::unit_tick))]
fn unit_tick(options: &ViewOptions, clock: &Option<PcrSample>, beginning: Beginning) -> Option<u128>
    ensures { result ≡ frames.unit_tick options.now clock.now beginning }
{
    match beginning {
        Beginning::Stamped(dts) => {
            let clock = clock.as_ref()?;
            Some(due_tick(options.arrival.step(), clock, dts))
        }
        _ => None,
    }
}

// Returns how long the first byte of the unit that begins stays, if it is longer than any byte may.
pub(crate) fn unit_stay(
    options: &ViewOptions,
    index: u64,
    clock: &Option<PcrSample>,
    limit: u64,
    last: &LastPayload,
    beginning: Beginning,
    packet: &Packet<'_>,
) -> Option<Stay>
    requires { beginning ≡ spec.beginning_in last.now (packet_view packet.now) }
    ensures { result ≡ spec.unit_stay options.now index clock.now limit last.now (packet_view packet.now) }
{
    let size = packet.payload.unwrap_or(&[]).len() as u64;
    let tick = unit_tick(options, clock, beginning);
    overstay_if(options, limit, payload_byte(index, size), tick)
}
