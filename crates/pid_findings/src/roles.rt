//! What a packet does with its payload (ISO/IEC 13818-1, 2.4.3.3, 2.4.3.6 and 2.4.4).
ghost use Rattle.std.specs.Prelude.{◌≡◌, Bool, ◌==◌, option_map, if◌then◌else◌};
ghost use Rattle.ts_packet.specs.Beginnings.{has_access, start_in};
ghost use Rattle.ts_packet.specs.Views.{adaptation_view, packet_view};
ghost use Rattle.pid_findings.specs.Roles as roles;
ghost use Rattle.pid_findings.specs.Shown.{is_borrowed, payload_borrowed, payload_list, role_borrowed, role_view};

use crate::payload_bytes::{PayloadBytes, after, bytes_of};
use ts_packet::{Adaptation, Packet, Start};

// packet_start_code_prefix.
const START_CODE_PREFIX: [u8; 3] = [0x00, 0x00, 0x01];

/// What a packet does with its payload.
#[derive(Clone, Copy)]
pub(crate) enum PayloadRole<'p, 'a> {
    NoPayload,
    Scrambled,
    /// a PES packet begins: whether the packet has the random_access_indicator, and the bytes from the first one on
    PesStart(bool, PayloadBytes<'p, 'a>),
    /// the bytes before the place where pointer_field points, and the bytes from there on
    SectionStart(&'p [u8], PayloadBytes<'p, 'a>),
    /// pointer_field points past the end of the payload
    PointerPastEnd,
    /// bytes of what began before
    Continuation(&'p [u8]),
}

// Returns whether a payload begins as a PES packet does.
fn may_begin_pes(payload: &[u8]) -> bool
    ensures { result ≡ roles.may_begin_pes payload.now }
{
    START_CODE_PREFIX
        .iter()
        .zip(payload)
        .all(|(wanted, byte)| wanted == byte)
}

// Returns the role of a payload by pointer_field and the bytes after it.
#[tactic(auto, unfolding(crate::specs::Roles::role_by_pointer))]
fn role_by_pointer<'p, 'a: 'p>(payload: PayloadBytes<'p, 'a>) -> PayloadRole<'p, 'a>
    ensures role { role_view result ≡ roles.role_by_pointer (payload_list payload.entry) }
    ensures borrowed { role_borrowed (is_borrowed payload.entry) result ≡ is_borrowed payload.entry }
{
    let bytes = bytes_of(payload);
    let Some((pointer, rest)) = bytes.split_first() else {
        return PayloadRole::PointerPastEnd;
    };
    let n = *pointer as usize;
    if rest.len() < n {
        return PayloadRole::PointerPastEnd;
    }
    let (before, _) = rest.split_at(n);
    PayloadRole::SectionStart(before, after(after(payload, 1), n))
}

// Returns the role of a payload by the header of its packet, which has this start, and by its first bytes.
#[tactic(auto, unfolding(crate::specs::Roles::role_by))]
fn role_by<'p, 'a: 'p>(start: Start, payload: Option<PayloadBytes<'p, 'a>>) -> PayloadRole<'p, 'a>
    ensures role { role_view result ≡ roles.role_by start (option_map payload_list payload.entry) }
    ensures borrowed { (borrowed : Bool) → payload_borrowed borrowed payload.entry ≡ borrowed →
        role_borrowed borrowed result ≡ borrowed }
{
    let Some(payload) = payload else {
        return PayloadRole::NoPayload;
    };
    let bytes = bytes_of(payload);
    let access = match start {
        Start::Continues => return PayloadRole::Continuation(bytes),
        Start::Begins => false,
        Start::Access => true,
    };
    if may_begin_pes(bytes) {
        return PayloadRole::PesStart(access, payload);
    }
    role_by_pointer(payload)
}

// Returns whether there is an adaptation field with the random_access_indicator.
fn has_access(adaptation: &Option<Adaptation<'_>>) -> bool
    ensures { result ≡ has_access (option_map adaptation_view adaptation.now) }
{
    match adaptation {
        None => false,
        Some(Adaptation::Empty) => false,
        Some(Adaptation::Flagged(parts)) => parts.random_access_indicator,
    }
}

/// Returns what a packet does with this payload.
pub(crate) fn role_of<'p, 'a: 'p>(
    packet: &Packet<'_>,
    payload: Option<PayloadBytes<'p, 'a>>,
) -> PayloadRole<'p, 'a>
    ensures borrowed { (borrowed : Bool) → payload_borrowed borrowed payload.entry ≡ borrowed →
        role_borrowed borrowed result ≡ borrowed }
    ensures role { role_view result ≡ (if packet.now.header.transport_scrambling_control == 0
        then roles.role_by (start_in (packet_view packet.now)) (option_map payload_list payload.entry)
        else roles.ScrambledPayload) }
{
    if packet.header.transport_scrambling_control != 0 {
        return PayloadRole::Scrambled;
    }
    let access = has_access(&packet.adaptation);
    let start = Start::of_unit(packet.header.payload_unit_start_indicator, access);
    role_by(start, payload)
}
