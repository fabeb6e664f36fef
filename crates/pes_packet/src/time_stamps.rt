//! Time stamps of 33 bits (ISO/IEC 13818-1, 2.4.3.7, PTS and DTS), read and written.

ghost use Rattle.std.specs.Prelude.{◌≡◌, ◌+◌, ◌*◌, ◌<◌, ◌^◌};
ghost use Rattle.bit_fields.specs.Reading.{Gives};
ghost use Rattle.pes_packet.specs.Reading.{marked, stamp_at, five_at, pts_at, pts_dts_at, stamps_at};
ghost use Rattle.pes_packet.specs.Encoding.{stamp_bytes};

use crate::refusal::PesError;

/// The stamps of a PES header, in units of 90 kHz modulo 2^33.
#[derive(Clone, Copy, Debug, PartialEq, Eq)]
pub enum Stamps {
    /// No stamp: PTS_DTS_flags 00, or a stream_id without flag bytes.
    Absent,
    /// PTS_DTS_flags 10: the unit is decoded when it is presented.
    Pts(u64),
    /// PTS_DTS_flags 11.
    PtsDts { pts: u64, dts: u64 },
}

// Returns whether the three marker bits of a stamp are 1.
fn marked(bytes: &[u8; 5]) -> bool
    ensures { result ≡ marked bytes.now }
{
    bytes[0] % 2 == 1 && bytes[2] % 2 == 1 && bytes[4] % 2 == 1
}

// Reads a stamp. Its first four bits are not looked at.
#[tactic(auto, unfolding(crate::specs::Reading::stamp_at))]
fn stamp_at(bytes: &[u8; 5]) -> Result<u64, PesError>
    ensures { result ≡ stamp_at bytes.now }
{
    if !marked(bytes) {
        return Err(PesError::Marker);
    }
    let high = u64::from(bytes[0] >> 1 & 7);
    let middle = u64::from(u16::from_be_bytes([bytes[1], bytes[2]]) >> 1);
    let low = u64::from(u16::from_be_bytes([bytes[3], bytes[4]]) >> 1);
    let upper = high << 15 | middle;
    Ok(upper << 15 | low)
}

// Returns five bytes of header data and the rest.
#[tactic(auto, unfolding(crate::specs::Reading::five_at))]
fn five_at(bytes: &[u8]) -> Result<(&[u8; 5], &[u8]), PesError>
    ensures { Gives (λ five. (five.0.now, five.1.now)) result (five_at bytes.now) }
{
    match bytes.split_first_chunk::<5>() {
        Some(five) => Ok(five),
        None => Err(PesError::Length),
    }
}

#[tactic(auto, unfolding(crate::specs::Reading::pts_at))]
fn pts_at(bytes: &[u8]) -> Result<Stamps, PesError>
    ensures { result ≡ pts_at bytes.now }
{
    let (five, _) = five_at(bytes)?;
    let pts = stamp_at(five)?;
    Ok(Stamps::Pts(pts))
}

#[tactic(auto, unfolding(crate::specs::Reading::pts_dts_at))]
fn pts_dts_at(bytes: &[u8]) -> Result<Stamps, PesError>
    ensures { result ≡ pts_dts_at bytes.now }
{
    let (first, rest) = five_at(bytes)?;
    let (second, _) = five_at(rest)?;
    let pts = stamp_at(first)?;
    let dts = stamp_at(second)?;
    Ok(Stamps::PtsDts { pts, dts })
}

/// Reads the stamps that PTS_DTS_flags announce at the front of the header data.
#[tactic(auto, unfolding(crate::specs::Reading::stamps_at))]
pub(crate) fn stamps_at(flags: u8, bytes: &[u8]) -> Result<Stamps, PesError>
    ensures { result ≡ stamps_at flags bytes.now }
{
    match flags {
        0 => Ok(Stamps::Absent),
        2 => pts_at(bytes),
        3 => pts_dts_at(bytes),
        _ => Err(PesError::BadFlags),
    }
}

// Returns fifteen bits or three, and the marker bit after them.
fn with_marker(bits: u16) -> u16
    requires { bits < 2 ^ 15 }
    ensures { result ≡ bits * 2 + 1 }
{
    bits << 1 | 1
}

/// Returns the five bytes of a stamp, after its four bits.
#[tactic(auto, unfolding(crate::specs::Encoding::stamp_bytes))]
pub(crate) fn stamp_bytes(mark: u8, stamp: u64) -> [u8; 5]
    requires mark { mark < 16 }
    requires stamp { stamp < 2 ^ 33 }
    ensures { result ≡ stamp_bytes mark stamp }
{
    let high = (stamp >> 30) as u16;
    let first = mark << 4 | with_marker(high) as u8;
    let [second, third] = with_marker((stamp >> 15 & 0x7fff) as u16).to_be_bytes();
    let [fourth, fifth] = with_marker((stamp & 0x7fff) as u16).to_be_bytes();
    [first, second, third, fourth, fifth]
}
