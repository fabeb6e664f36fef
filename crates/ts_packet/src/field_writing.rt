//! Appending an adaptation field.
ghost use Rattle.std.specs.Prelude.{◌≡◌, ◌+◌, ◌≤◌, ◌<◌, ◌++◌, length, IfSome};
ghost use Rattle.std.specs.Option.{option_map};
ghost use Rattle.arrayvec.specs.ArrayVec.{array_vec_len};
ghost use Rattle.ts_packet.specs.Syntax.{ReferenceFits};
ghost use Rattle.ts_packet.specs.Views.{reference_view, field_view, adaptation_view, bytes_view};
ghost use Rattle.ts_packet.specs.Writing.{optional_bytes, reference_bytes, countdown_bytes, length_prefixed_bytes};
ghost use Rattle.ts_packet.specs.Writing.{parts_bytes, adaptation_bytes, AdaptationFits, PartsFit};

use crate::adaptation::{Adaptation, AdaptationField, ClockReference};
use crate::fitting::parts_size;
use crate::fixed_fields::{flags_of, reference_bytes};
use arrayvec::ArrayVec;
use bit_fields::append;

fn append_reference(packet: &mut ArrayVec<u8, 188>, reference: Option<ClockReference>)
    requires fits { IfSome (option_map reference_view reference) ReferenceFits }
    requires room { array_vec_len packet.old
        + length (optional_bytes reference_bytes (option_map reference_view reference)) ≤ 188 }
    ensures items { packet.new.items
        ≡ packet.old.items ++ optional_bytes reference_bytes (option_map reference_view reference) }
    ensures len { array_vec_len packet.new ≡ array_vec_len packet.old
        + length (optional_bytes reference_bytes (option_map reference_view reference)) }
{
    if let Some(reference) = reference {
        append(packet, &reference_bytes(reference));
    }
}

fn append_countdown(packet: &mut ArrayVec<u8, 188>, countdown: Option<i8>)
    requires { array_vec_len packet.old + length (optional_bytes countdown_bytes countdown) ≤ 188 }
    ensures items { packet.new.items ≡ packet.old.items ++ optional_bytes countdown_bytes countdown }
    ensures len { array_vec_len packet.new
        ≡ array_vec_len packet.old + length (optional_bytes countdown_bytes countdown) }
{
    if let Some(countdown) = countdown {
        append(packet, &[countdown.cast_unsigned()]);
    }
}

fn append_length_prefixed(packet: &mut ArrayVec<u8, 188>, bytes: Option<&[u8]>)
    requires { array_vec_len packet.old
        + length (optional_bytes length_prefixed_bytes (bytes_view bytes)) ≤ 188 }
    ensures items { packet.new.items
        ≡ packet.old.items ++ optional_bytes length_prefixed_bytes (bytes_view bytes.entry) }
    ensures len { array_vec_len packet.new ≡ array_vec_len packet.old
        + length (optional_bytes length_prefixed_bytes (bytes_view bytes.entry)) }
{
    if let Some(bytes) = bytes {
        append(packet, &[bytes.len() as u8]);
        append(packet, bytes);
    }
}

#[tactic(auto, unfolding(crate::specs::Writing::parts_bytes))]
fn append_parts(packet: &mut ArrayVec<u8, 188>, parts: &AdaptationField<'_>)
    requires fits { PartsFit (field_view parts.now) }
    requires room { array_vec_len packet.old + length (parts_bytes (field_view parts.now)) ≤ 188 }
    ensures items { packet.new.items ≡ packet.old.items ++ parts_bytes (field_view parts.now) }
    ensures len { array_vec_len packet.new
        ≡ array_vec_len packet.old + length (parts_bytes (field_view parts.now)) }
{
    append_reference(packet, parts.pcr);
    append_reference(packet, parts.opcr);
    append_countdown(packet, parts.splice_countdown);
    append_length_prefixed(packet, parts.private_data);
    append_length_prefixed(packet, parts.extension);
    append(packet, parts.stuffing);
}

/// Appends an adaptation field, or nothing.
#[tactic(auto, unfolding(crate::specs::Writing::adaptation_bytes))]
pub fn append_adaptation(packet: &mut ArrayVec<u8, 188>, adaptation: Option<&Adaptation<'_>>)
    requires fits { AdaptationFits (option_map (λ a. adaptation_view a.now) adaptation) }
    requires room { array_vec_len packet.old + length (optional_bytes adaptation_bytes
        (option_map (λ a. adaptation_view a.now) adaptation)) ≤ 188 }
    ensures items { packet.new.items ≡ packet.old.items ++ optional_bytes adaptation_bytes
        (option_map (λ a. adaptation_view a.now) adaptation.entry) }
    ensures len { array_vec_len packet.new ≡ array_vec_len packet.old
        + length (optional_bytes adaptation_bytes
        (option_map (λ a. adaptation_view a.now) adaptation.entry)) }
{
    match adaptation {
        None => (),
        Some(Adaptation::Empty) => append(packet, &[0]),
        Some(Adaptation::Flagged(parts)) => {
            let size = parts_size(parts) as u8;
            append(packet, &[1 + size, flags_of(parts)]);
            append_parts(packet, parts);
        }
    }
}
