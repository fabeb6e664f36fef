//! The fields of packets and of PES headers that are not written again (ISO/IEC 13818-1, 2.4.3.5 and 2.4.3.7).

ghost use Rattle.std.specs.Prelude.{◌≡◌, ◌<◌, ◌≤◌, length};
ghost use Rattle.packet_sync.specs.Fields as spec;

use crate::sync_bytes::PACKET_SIZE;
use pes_packet::has_flags;

/// A field that is not written again.
#[derive(Clone, Copy)]
pub enum Field {
    /// transport_priority of a packet.
    TransportPriority,
    /// discontinuity_indicator of an adaptation field.
    Discontinuity,
    /// random_access_indicator of an adaptation field in a packet where no unit begins.
    RandomAccess,
    /// elementary_stream_priority_indicator of an adaptation field.
    StreamPriority,
    /// original_program_clock_reference of an adaptation field.
    OriginalClock,
    /// splice_countdown of an adaptation field.
    SpliceCountdown,
    /// transport_private_data of an adaptation field.
    AdaptationPrivateData,
    /// The extension of an adaptation field.
    AdaptationExtension,
    /// data_alignment_indicator of a PES header.
    Alignment,
    /// PES_priority, copyright or original_or_copy.
    Flags,
    /// PES_scrambling_control: the PES packet is scrambled.
    Scrambling,
    /// The header of 45 bytes of teletext (EN 300 472, 4.2) and VBI data (EN 301 775, 4.3), which aligns their data
    /// units with packets.
    LongHeader,
    /// PES_private_data, 16 bytes, where audio description has its levels (ETSI TS 101 154, annex E): in a PES packet
    /// that continues a unit, or cut short.
    PrivateData,
    /// ESCR, ES_rate, DSM_trick_mode, additional_copy_info, PES_CRC, or another part of PES_extension.
    OtherHeaderData,
    /// A PES header that continues in another packet: its bytes there are not read.
    UnreadHeader,
}

impl Field {
    /// Returns its number.
    #[tactic(auto, unfolding(crate::specs::Fields::number_of))]
    pub(crate) fn number(self) -> u8
        ensures value { result ≡ spec.number_of self }
        ensures within { result < 16 }
    {
        match self {
            Field::TransportPriority => 0,
            Field::Discontinuity => 1,
            Field::RandomAccess => 2,
            Field::StreamPriority => 3,
            Field::OriginalClock => 4,
            Field::SpliceCountdown => 5,
            Field::AdaptationPrivateData => 6,
            Field::AdaptationExtension => 7,
            Field::Alignment => 8,
            Field::Flags => 9,
            Field::Scrambling => 10,
            Field::LongHeader => 11,
            Field::PrivateData => 12,
            Field::OtherHeaderData => 13,
            Field::UnreadHeader => 14,
        }
    }

    /// Returns whether the field is in the header or the adaptation field of a packet, and not in a PES header.
    pub fn is_of_packet(self) -> bool
        ensures { result ≡ spec.is_of_packet self }
    {
        self.number() < 8
    }

    /// Returns whether a viewer may lose something without it.
    #[tactic(auto, unfolding(crate::specs::Fields::is_loss))]
    pub fn is_loss(self) -> bool
        ensures { result ≡ spec.is_loss self }
    {
        match self {
            Field::Scrambling | Field::LongHeader | Field::PrivateData | Field::UnreadHeader =>
                true,
            _ => false,
        }
    }
}

/// Returns the flag byte of the adaptation field of a packet; 0 if there is none.
#[tactic(auto, unfolding(crate::specs::Fields::adaptation_flags))]
pub(crate) fn adaptation_flags(packet: &[u8]) -> u8
    requires { length packet.now ≡ 188 }
    ensures { result ≡ spec.adaptation_flags packet.now }
{
    if packet[3] / 32 % 2 == 1 && packet[4] != 0 {
        packet[5]
    } else {
        0
    }
}

// Returns whether a clear payload begins with a PES packet or a section.
#[tactic(auto, unfolding(crate::specs::Fields::is_clear_start))]
fn is_clear_start(packet: &[u8]) -> bool
    requires { length packet.now ≡ 188 }
    ensures { result ≡ spec.is_clear_start packet.now }
{
    packet[1] / 64 == 1 && packet[3] / 64 == 0 && packet[3] / 16 % 2 == 1
}

// Returns the place in a packet where its payload begins.
#[tactic(auto, unfolding(crate::specs::Fields::payload_place))]
fn payload_place(packet: &[u8]) -> usize
    requires { length packet.now ≡ 188 }
    ensures { result ≡ spec.payload_place packet.now }
{
    if packet[3] / 32 % 2 == 1 {
        5 + packet[4] as usize
    } else {
        4
    }
}

/// Returns the clear payload at whose front a PES packet or a section begins; empty if none does.
#[tactic(auto, unfolding(crate::specs::Fields::start_payload))]
pub(crate) fn start_payload(packet: &[u8]) -> &[u8]
    requires { length packet.now ≡ 188 }
    ensures { result.now ≡ spec.start_payload packet.now }
{
    let place = payload_place(packet);
    if is_clear_start(packet) && place <= PACKET_SIZE {
        &packet[place..PACKET_SIZE]
    } else {
        &[]
    }
}

/// Returns whether a PES packet begins there that has flag bytes.
#[tactic(auto, unfolding(crate::specs::Fields::is_flagged))]
pub(crate) fn is_flagged(payload: &[u8]) -> bool
    requires { 9 ≤ length payload.now }
    ensures { result ≡ spec.is_flagged payload.now }
{
    payload[0] == 0 && payload[1] == 0 && payload[2] == 1 && has_flags(payload[3])
}

/// Returns whether a PES header with a PTS is at the front of a payload: a unit begins with it. Of a header that goes
/// on in another packet before its PTS_DTS_flags the same is taken.
#[tactic(auto, unfolding(crate::specs::Fields::begins_unit))]
pub(crate) fn begins_unit(payload: &[u8]) -> bool
    ensures { result ≡ spec.begins_unit payload.now }
{
    if payload.len() < 9 {
        return !payload.is_empty();
    }
    is_flagged(payload) && payload[7] >= 128
}

// Returns the place of the flags of PES_extension, by the second flag byte.
#[tactic(auto, unfolding(crate::specs::Fields::extension_place))]
fn extension_place(flags: u8) -> usize
    ensures { result ≡ spec.extension_place flags }
{
    let bit = |by: u8| (flags / by % 2) as usize;
    9 + bit(128) * 5 + bit(64) * 5 + bit(32) * 6 + bit(16) * 3 + bit(8) + bit(4) + bit(2) * 2
}

/// Returns the flags of PES_extension; 0 if there are none.
#[tactic(auto, unfolding(crate::specs::Fields::extension_flags))]
pub(crate) fn extension_flags(payload: &[u8]) -> u8
    requires { 9 ≤ length payload.now }
    ensures { result ≡ spec.extension_flags payload.now }
{
    let place = extension_place(payload[7]);
    if payload[7] % 2 == 1 && place < 9 + payload[8] as usize && place < payload.len() {
        payload[place]
    } else {
        0
    }
}

// Returns whether the header data end before the 16 bytes of PES_private_data do.
fn lacks_private_data(payload: &[u8]) -> bool
    requires { 9 ≤ length payload.now }
    ensures { result ≡ spec.lacks_private_data payload.now }
{
    let end = 9 + payload[8] as usize;
    end < 17 || end - 17 < extension_place(payload[7])
}

/// Returns whether there is PES_private_data that no unit carries: in a PES packet that continues a unit, or cut
/// short.
pub(crate) fn loses_private_data(payload: &[u8]) -> bool
    requires { 9 ≤ length payload.now }
    ensures { result ≡ spec.loses_private_data payload.now }
{
    let is_lost = payload[7] < 128 || lacks_private_data(payload);
    extension_flags(payload) / 128 == 1 && is_lost
}
