//! The fields of a packet whose length is fixed, as bytes.
ghost use Rattle.std.specs.Prelude.{◌≡◌, ◌<◌, ◌≤◌, ◌^◌, ◌+◌, ◌*◌};
ghost use Rattle.bit_fields.specs.Fields.{bit};
ghost use Rattle.ts_packet.specs.Syntax.{HeaderFits, ReferenceFits};
ghost use Rattle.ts_packet.specs.Views.{reference_view, field_view};
ghost use Rattle.ts_packet.specs.Writing.{header_bytes, reference_bytes, flags_of};

use crate::adaptation::{AdaptationField, ClockReference};
use crate::header::Header;

// Returns a flag as a field of one bit.
fn bit(flag: bool) -> u8
    ensures value { result ≡ bit flag }
    ensures below { result ≤ 1 }
{
    if flag { 1 } else { 0 }
}

/// Returns the four bytes of a header.
#[tactic(auto, unfolding(crate::specs::Writing::header_bytes))]
pub fn header_bytes(header: Header, control: u8) -> [u8; 4]
    requires fits { HeaderFits header }
    requires control { control < 2 ^ 2 }
    ensures { result ≡ header_bytes header control }
{
    let error = bit(header.transport_error_indicator);
    let start = bit(header.payload_unit_start_indicator);
    let flags = (error << 1 | start) << 1 | bit(header.transport_priority);
    let [high, low] = header.pid.to_be_bytes();
    let first = flags << 5 | high;
    let controls = header.transport_scrambling_control << 2 | control;
    [0x47, first, low, controls << 4 | header.continuity_counter]
}

/// Returns the six bytes of a clock reference.
#[tactic(auto, unfolding(crate::specs::Writing::reference_bytes))]
pub fn reference_bytes(reference: ClockReference) -> [u8; 6]
    requires { ReferenceFits (reference_view reference) }
    ensures { result ≡ reference_bytes (reference_view reference) }
{
    let [a, b, c, d] = ((reference.base >> 1) as u32).to_be_bytes();
    let [high, low] = reference.extension.to_be_bytes();
    let lowest = (reference.base & 1) as u8;
    [a, b, c, d, (lowest << 6 | 0x3f) << 1 | high, low]
}

// Returns two flags, the first in the higher bit.
fn two_bits(first: bool, second: bool) -> u8
    ensures value { result ≡ bit first * 2 + bit second }
    ensures below { result < 4 }
{
    bit(first) << 1 | bit(second)
}

// Returns three flags, the first in the highest bit.
fn three_bits(first: bool, second: bool, third: bool) -> u8
    ensures value { result ≡ (bit first * 2 + bit second) * 2 + bit third }
    ensures below { result < 8 }
{
    two_bits(first, second) << 1 | bit(third)
}

// Returns one byte of three, two and three bits, the first in the highest bits.
fn eight_bits(first: u8, second: u8, third: u8) -> u8
    requires first { first < 8 }
    requires second { second < 4 }
    requires third { third < 8 }
    ensures { result ≡ (first * 4 + second) * 8 + third }
{
    (first << 2 | second) << 3 | third
}

/// Returns the byte of flags.
#[tactic(auto, unfolding(crate::specs::Writing::flags_of), using(crate::proofs::Flagging::announced))]
pub fn flags_of(parts: &AdaptationField<'_>) -> u8
    ensures { result ≡ flags_of (field_view parts.now) }
{
    let flags = three_bits(
        parts.discontinuity_indicator,
        parts.random_access_indicator,
        parts.elementary_stream_priority_indicator,
    );
    let clocks = two_bits(parts.pcr.is_some(), parts.opcr.is_some());
    let splice = parts.splice_countdown.is_some();
    let data = three_bits(
        splice,
        parts.private_data.is_some(),
        parts.extension.is_some(),
    );
    eight_bits(flags, clocks, data)
}
