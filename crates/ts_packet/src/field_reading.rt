//! Reading an adaptation field from its first byte on.
ghost use Rattle.std.specs.Prelude.{◌≡◌, ◌^◌, ◌<◌, false, length};
ghost use Rattle.std.specs.Option.{option_map};
ghost use Rattle.bit_fields.specs.Fields.{flag};
ghost use Rattle.bit_fields.specs.Reading.{Gives};
ghost use Rattle.ts_packet.specs.Views.{bytes_view, reference_view, field_view, adaptation_view};
ghost use Rattle.ts_packet.specs.Reading.{reference_of, reference_at, countdown_at, length_prefixed_at};
ghost use Rattle.ts_packet.specs.Reading.{parts_at, adaptation_at, field_at};

use crate::adaptation::{Adaptation, AdaptationField, ClockReference};
use crate::packet::PacketError;

// Returns the flag at this bit, from 0, the lowest.
fn flag(byte: u8, bit: u8) -> bool
    requires { bit < 8 }
    ensures { result ≡ flag byte (2 ^ bit) }
{
    byte >> bit & 1 == 1
}

#[tactic(auto, unfolding(crate::specs::Reading::reference_of))]
fn reference_of(bytes: &[u8; 6]) -> ClockReference
    ensures { reference_view result ≡ reference_of bytes.now }
{
    let high = u32::from_be_bytes([bytes[0], bytes[1], bytes[2], bytes[3]]);
    let base = u64::from(high) << 1 | u64::from(bytes[4] >> 7);
    let extension = u16::from_be_bytes([bytes[4] & 1, bytes[5]]);
    ClockReference { base, extension }
}

#[tactic(auto, unfolding(crate::specs::Reading::reference_at))]
fn reference_at(flagged: bool, bytes: &[u8]) -> Result<(Option<ClockReference>, &[u8]), PacketError>
    ensures { Gives (λ x. (option_map reference_view x.0, x.1.now)) result (reference_at flagged bytes.now) }
{
    if !flagged {
        return Ok((None, bytes));
    }
    match bytes.split_first_chunk::<6>() {
        None => Err(PacketError::PartTooLong),
        Some((field, rest)) => Ok((Some(reference_of(field)), rest)),
    }
}

#[tactic(auto, unfolding(crate::specs::Reading::countdown_at))]
fn countdown_at(flagged: bool, bytes: &[u8]) -> Result<(Option<i8>, &[u8]), PacketError>
    ensures { Gives (λ x. (x.0, x.1.now)) result (countdown_at flagged bytes.now) }
{
    if !flagged {
        return Ok((None, bytes));
    }
    match bytes {
        [] => Err(PacketError::PartTooLong),
        [byte, rest @ ..] => Ok((Some(byte.cast_signed()), rest)),
    }
}

#[tactic(auto, unfolding(crate::specs::Reading::length_prefixed_at))]
fn length_prefixed_at(flagged: bool, bytes: &[u8]) -> Result<(Option<&[u8]>, &[u8]), PacketError>
    ensures { Gives (λ x. (bytes_view x.0, x.1.now)) result (length_prefixed_at flagged bytes.now) }
{
    if !flagged {
        return Ok((None, bytes));
    }
    match bytes {
        [] => Err(PacketError::PartTooLong),
        [length, rest @ ..] => {
            let length = *length as usize;
            if rest.len() < length {
                return Err(PacketError::PartTooLong);
            }
            let (data, rest) = rest.split_at(length);
            Ok((Some(data), rest))
        }
    }
}

// Returns whether a part is announced.
fn has_parts(flags: u8) -> bool
    ensures pcr { result ≡ false → flag flags 16 ≡ false }
    ensures opcr { result ≡ false → flag flags 8 ≡ false }
    ensures countdown { result ≡ false → flag flags 4 ≡ false }
    ensures private { result ≡ false → flag flags 2 ≡ false }
    ensures extension { result ≡ false → flag flags 1 ≡ false }
{
    flag(flags, 4) || flag(flags, 3) || flag(flags, 2) || flag(flags, 1) || flag(flags, 0)
}

// Reads the parts that the flags announce. It stays a call of its own: most fields have stuffing alone.
#[inline(never)]
#[tactic(auto, unfolding(crate::specs::Reading::parts_at))]
fn announced_at(flags: u8, bytes: &[u8]) -> Result<AdaptationField<'_>, PacketError>
    ensures { Gives field_view result (parts_at flags bytes.now) }
{
    let (pcr, bytes) = reference_at(flag(flags, 4), bytes)?;
    let (opcr, bytes) = reference_at(flag(flags, 3), bytes)?;
    let (splice_countdown, bytes) = countdown_at(flag(flags, 2), bytes)?;
    let (private_data, bytes) = length_prefixed_at(flag(flags, 1), bytes)?;
    let (extension, stuffing) = length_prefixed_at(flag(flags, 0), bytes)?;
    Ok(AdaptationField {
        discontinuity_indicator: flag(flags, 7),
        random_access_indicator: flag(flags, 6),
        elementary_stream_priority_indicator: flag(flags, 5),
        pcr,
        opcr,
        splice_countdown,
        private_data,
        extension,
        stuffing,
    })
}

#[inline(always)]
#[tactic(auto, unfolding(crate::specs::Reading::parts_at, crate::specs::Reading::reference_at, crate::specs::Reading::countdown_at, crate::specs::Reading::length_prefixed_at))]
fn parts_at(flags: u8, bytes: &[u8]) -> Result<AdaptationField<'_>, PacketError>
    ensures { Gives field_view result (parts_at flags bytes.now) }
{
    if has_parts(flags) {
        return announced_at(flags, bytes);
    }
    Ok(AdaptationField {
        discontinuity_indicator: flag(flags, 7),
        random_access_indicator: flag(flags, 6),
        elementary_stream_priority_indicator: flag(flags, 5),
        pcr: None,
        opcr: None,
        splice_countdown: None,
        private_data: None,
        extension: None,
        stuffing: bytes,
    })
}

#[tactic(auto, unfolding(crate::specs::Reading::adaptation_at))]
fn adaptation_at(bytes: &[u8]) -> Result<Adaptation<'_>, PacketError>
    ensures { Gives adaptation_view result (adaptation_at bytes.now) }
{
    match bytes {
        [] => Ok(Adaptation::Empty),
        [flags, rest @ ..] => {
            let parts = parts_at(*flags, rest)?;
            Ok(Adaptation::Flagged(parts))
        }
    }
}

/// Returns an adaptation field of at most `most` bytes after its length, and the bytes after it.
#[tactic(auto, unfolding(crate::specs::Reading::field_at))]
pub fn field_at(most: usize, bytes: &[u8]) -> Result<(Adaptation<'_>, &[u8]), PacketError>
    requires { most < length bytes.now }
    ensures { Gives (λ x. (adaptation_view x.0, x.1.now)) result (field_at most bytes.now) }
{
    match bytes {
        [] => Err(PacketError::FieldTooLong),
        [length, rest @ ..] => {
            let length = *length as usize;
            if most < length {
                return Err(PacketError::FieldTooLong);
            }
            let (field, rest) = rest.split_at(length);
            let adaptation = adaptation_at(field)?;
            Ok((adaptation, rest))
        }
    }
}
