//! The recovery point of ISO/IEC 14496-10 video, by its SEI messages.

ghost use Rattle.std.specs.Prelude.{◌≡◌};
ghost use Rattle.stream_coding.specs.Sei as spec;

/// Where the next byte of SEI messages is.
#[derive(Clone, Copy, PartialEq, Eq)]
pub(crate) enum SeiPlace {
    /// The first byte of a message, where its payloadType begins.
    AtType,
    /// A later byte of its payloadType.
    InType,
    /// A byte of its payloadSize, after bytes of this sum.
    InSize(u64),
    /// A byte of its payload, with this number of bytes left.
    InPayload(u64),
    /// After the payloadType of a recovery point.
    AtRecoveryPoint,
}

// Returns whether the last byte of a NAL unit is before these bytes.
#[tactic(auto, unfolding(crate::specs::Sei::ends_nal))]
fn ends_nal(bytes: &[u8]) -> bool
    ensures { result ≡ spec.ends_nal bytes.now }
{
    match bytes {
        [first, second, third, ..] => *first == 0 && *second == 0 && *third < 2,
        _ => false,
    }
}

#[tactic(auto, unfolding(crate::specs::Sei::in_payload))]
fn in_payload(left: u64) -> SeiPlace
    ensures { result ≡ spec.in_payload left }
{
    if left == 0 {
        SeiPlace::AtType
    } else {
        SeiPlace::InPayload(left)
    }
}

// Returns the place after one more byte.
#[tactic(auto, unfolding(crate::specs::Sei::next_place))]
fn next_place(place: SeiPlace, byte: u8) -> SeiPlace
    ensures { result ≡ spec.next_place place byte }
{
    match place {
        SeiPlace::AtType if byte == 6 => SeiPlace::AtRecoveryPoint,
        SeiPlace::AtType | SeiPlace::InType if byte == 255 => SeiPlace::InType,
        SeiPlace::AtType | SeiPlace::InType => SeiPlace::InSize(0),
        SeiPlace::InSize(size) if byte == 255 => SeiPlace::InSize(size.saturating_add(255)),
        SeiPlace::InSize(size) => in_payload(size.saturating_add(u64::from(byte))),
        SeiPlace::InPayload(left) => in_payload(left.saturating_sub(1)),
        SeiPlace::AtRecoveryPoint => SeiPlace::AtRecoveryPoint,
    }
}

// Returns the place after the bytes of a NAL unit from the first of these on.
#[tactic(auto, using(crate::proofs::SeiPlaces::after_nothing, crate::proofs::SeiPlaces::after_end, crate::proofs::SeiPlaces::after_byte, crate::proofs::SeiPlaces::after_prevention))]
fn place_after(start: SeiPlace, bytes: &[u8]) -> SeiPlace
    ensures { result ≡ spec.place_after start bytes.now }
{
    let mut left = bytes;
    let mut place = start;
    while let Some((first, rest)) = left.split_first() {
        if ends_nal(left) {
            return place;
        }
        match left.strip_prefix(&[0, 0, 3]) {
            None => {
                place = next_place(place, *first);
                left = rest;
            }
            Some(after) => {
                place = next_place(next_place(place, 0), 0);
                left = after;
            }
        }
    }
    place
}

/// Returns whether a recovery point is among the SEI messages that begin with the first of these bytes.
#[tactic(auto, unfolding(crate::specs::Sei::is_recovery_point))]
pub(crate) fn has_recovery_point(bytes: &[u8]) -> bool
    ensures { result ≡ spec.has_recovery_point bytes.now }
{
    match place_after(SeiPlace::AtType, bytes) {
        SeiPlace::AtRecoveryPoint => true,
        _ => false,
    }
}
