//! What can be written as a packet.
ghost use Rattle.std.specs.Prelude.{◌≡◌, ◌+◌, ◌<◌, ◌≤◌, ◌↔◌, ◌^◌, length, All, IsTrue, IfSome, FitsSigned};
ghost use Rattle.std.specs.Int.{w8};
ghost use Rattle.std.specs.Option.{option_map};
ghost use Rattle.ts_packet.specs.Syntax.{HeaderFits, ReferenceFits};
ghost use Rattle.ts_packet.specs.Views.{reference_view, field_view, adaptation_view, bytes_view};
ghost use Rattle.ts_packet.specs.Writing.{optional_bytes, reference_bytes, countdown_bytes, length_prefixed_bytes};
ghost use Rattle.ts_packet.specs.Writing.{parts_bytes, adaptation_bytes, payload_bytes};
ghost use Rattle.ts_packet.specs.Writing.{PartsFit, AdaptationFits, PayloadFits, PacketFits, packet_of};

use crate::adaptation::{Adaptation, AdaptationField, ClockReference};
use crate::header::Header;

fn header_fits(header: Header) -> bool
    ensures { IsTrue result ↔ HeaderFits header }
{
    header.pid < 1 << 13
        && header.transport_scrambling_control < 1 << 2
        && header.continuity_counter < 1 << 4
}

fn is_reference(reference: ClockReference) -> bool
    ensures { IsTrue result ↔ ReferenceFits (reference_view reference) }
{
    reference.base < 1 << 33 && reference.extension < 1 << 9
}

fn reference_fits(reference: Option<ClockReference>) -> bool
    ensures { IsTrue result ↔ IfSome (option_map reference_view reference) ReferenceFits }
{
    match reference {
        None => true,
        Some(reference) => is_reference(reference),
    }
}

// States that each `i8` is one byte.
fn countdown_fits(countdown: Option<i8>) -> bool
    ensures { IsTrue result ↔ IfSome countdown (FitsSigned w8) }
{
    match countdown {
        None => true,
        Some(_countdown) => true,
    }
}

fn is_stuffing(stuffing: &[u8]) -> bool
    ensures { IsTrue result ↔ All (λ byte. byte ≡ 0xFF) stuffing.now }
{
    stuffing.iter().all(|byte| *byte == 0xff)
}

fn parts_fit(parts: &AdaptationField<'_>) -> bool
    ensures { IsTrue result ↔ PartsFit (field_view parts.now) }
{
    reference_fits(parts.pcr)
        && reference_fits(parts.opcr)
        && countdown_fits(parts.splice_countdown)
        && is_stuffing(parts.stuffing)
}

fn adaptation_fits(adaptation: Option<&Adaptation<'_>>) -> bool
    ensures { IsTrue result ↔ AdaptationFits (option_map (λ a. adaptation_view a.now) adaptation.entry) }
{
    match adaptation {
        None => true,
        Some(Adaptation::Empty) => true,
        Some(Adaptation::Flagged(parts)) => parts_fit(parts),
    }
}

fn payload_fits(payload: Option<&[u8]>) -> bool
    ensures { IsTrue result ↔ PayloadFits (bytes_view payload.entry) }
{
    match payload {
        None => true,
        Some(payload) => !payload.is_empty(),
    }
}

#[tactic(auto, unfolding(crate::specs::Writing::reference_bytes))]
fn reference_size(reference: Option<ClockReference>) -> u128
    ensures size { result ≡ length (optional_bytes reference_bytes (option_map reference_view reference)) }
    ensures bound { result ≤ 6 }
{
    match reference {
        None => 0,
        Some(_) => 6,
    }
}

fn countdown_size(countdown: Option<i8>) -> u128
    ensures size { result ≡ length (optional_bytes countdown_bytes countdown) }
    ensures bound { result ≤ 1 }
{
    match countdown {
        None => 0,
        Some(_) => 1,
    }
}

fn length_prefixed_size(bytes: Option<&[u8]>) -> u128
    ensures size { result ≡ length (optional_bytes length_prefixed_bytes (bytes_view bytes.entry)) }
    ensures bound { result ≤ 2 ^ 64 }
{
    match bytes {
        None => 0,
        Some(bytes) => 1 + bytes.len() as u128,
    }
}

#[tactic(auto, unfolding(crate::specs::Writing::parts_bytes))]
pub fn parts_size(parts: &AdaptationField<'_>) -> u128
    ensures size { result ≡ length (parts_bytes (field_view parts.now)) }
    ensures bound { result < 2 ^ 67 }
{
    let clocks = reference_size(parts.pcr) + reference_size(parts.opcr);
    let data = length_prefixed_size(parts.private_data) + length_prefixed_size(parts.extension);
    clocks + countdown_size(parts.splice_countdown) + data + parts.stuffing.len() as u128
}

#[tactic(auto, unfolding(crate::specs::Writing::adaptation_bytes))]
fn adaptation_size(adaptation: Option<&Adaptation<'_>>) -> u128
    ensures size { result ≡ length (optional_bytes adaptation_bytes
        (option_map (λ a. adaptation_view a.now) adaptation.entry)) }
    ensures bound { result < 2 ^ 68 }
{
    match adaptation {
        None => 0,
        Some(Adaptation::Empty) => 1,
        Some(Adaptation::Flagged(parts)) => 2 + parts_size(parts),
    }
}

fn payload_size(payload: Option<&[u8]>) -> u128
    ensures size { result ≡ length (payload_bytes (bytes_view payload.entry)) }
    ensures bound { result < 2 ^ 64 }
{
    match payload {
        None => 0,
        Some(payload) => payload.len() as u128,
    }
}

/// Returns whether `write_packet` can write them: they make 188 bytes, each number fits its field, each stuffing byte
/// is 0xFF, and a payload has at least one byte.
pub fn fits(header: Header, adaptation: Option<&Adaptation<'_>>, payload: Option<&[u8]>) -> bool
    ensures { IsTrue result ↔ PacketFits (packet_of header adaptation.entry payload.entry) }
{
    header_fits(header)
        && adaptation_fits(adaptation)
        && payload_fits(payload)
        && 4 + adaptation_size(adaptation) + payload_size(payload) == 188
}
