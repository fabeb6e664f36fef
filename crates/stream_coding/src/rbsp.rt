//! The bits of a raw byte sequence payload, and the elements of its syntax.

ghost use Rattle.std.specs.Prelude.{◌≡◌, ◌+◌, ◌≤◌, ◌<◌, ◌^◌, IfSome};
ghost use Rattle.std.specs.List.{slice_get};
ghost use Rattle.stream_coding.specs.Rbsp as spec;

/// The places that are read: the bits of 131,072 bytes.
const PLACES: usize = 1_048_576;

/// An element of the syntax: a number with this many bits, or in Exp-Golomb code.
#[derive(Clone, Copy)]
pub(crate) enum Element {
    U(u8),
    Ue,
}

/// Returns the byte of this number in a NAL unit without its emulation prevention bytes.
#[tactic(auto, using(crate::proofs::RbspBytes::byte_here, crate::proofs::RbspBytes::byte_later, crate::proofs::RbspBytes::byte_second, crate::proofs::RbspBytes::byte_after, crate::proofs::RbspBytes::byte_nowhere))]
pub(crate) fn rbsp_byte(number: usize, bytes: &[u8]) -> Option<u8>
    ensures { result ≡ slice_get (spec.rbsp_bytes bytes.now) number }
{
    let mut left = bytes;
    let mut before = number;
    while let Some((first, rest)) = left.split_first() {
        if before == 0 {
            return Some(*first);
        }
        match left.strip_prefix(&[0, 0, 3]) {
            None => {
                left = rest;
                before -= 1;
            }
            Some(_) if before == 1 => return Some(0),
            Some(after) => {
                left = after;
                before -= 2;
            }
        }
    }
    None
}

// Returns the bit at a place.
#[tactic(auto, unfolding(crate::specs::Rbsp::bit_at))]
fn bit_at(bytes: &[u8], at: usize) -> Option<u8>
    ensures value { result ≡ spec.bit_at bytes.now at }
    ensures place { IfSome result (λ bit. at < 1048576) }
    ensures bound { IfSome result (λ bit. bit < 2) }
{
    if at < PLACES {
        let byte = rbsp_byte(at / 8, bytes)?;
        Some(byte >> (7 - at % 8) & 1)
    } else {
        None
    }
}

/// Returns the number of n bits from a place on, and the place after it.
#[tactic(auto, using(crate::proofs::Elements::number_done, crate::proofs::Elements::number_step, crate::proofs::Elements::number_ends))]
pub(crate) fn u(n: u8, bytes: &[u8], at: usize) -> Option<(u32, usize)>
    requires { at ≤ 1048576 }
    ensures value { result ≡ spec.u n bytes.now at }
    ensures place { IfSome result (λ read. read.1 ≤ 1048576) }
{
    let mut number: u32 = 0;
    let mut place = at;
    let mut left = n;
    while left > 0 {
        let bit = bit_at(bytes, place)?;
        number = (number << 1) + u32::from(bit);
        place += 1;
        left -= 1;
    }
    Some((number, place))
}

#[tactic(auto, unfolding(crate::specs::Rbsp::is_one))]
fn is_one(bytes: &[u8], at: usize) -> bool
    ensures { result ≡ spec.is_one bytes.now at }
{
    match bit_at(bytes, at) {
        None => false,
        Some(bit) => bit == 1,
    }
}

// Returns leadingZeroBits.
#[tactic(auto, unfolding(crate::specs::Rbsp::leading_zero_bits))]
fn leading_zero_bits(bytes: &[u8], at: usize) -> Option<u8>
    requires { at ≤ 1048576 }
    ensures value { result ≡ spec.leading_zero_bits bytes.now at }
    ensures bound { IfSome result (λ zeros. zeros < 32) }
{
    (0..32u8).find(|n| is_one(bytes, at + usize::from(*n)))
}

#[tactic(auto, unfolding(crate::specs::Rbsp::ue_after))]
fn ue_after(zeros: u8, bytes: &[u8], at: usize) -> Option<(u64, usize)>
    requires zeros { zeros < 32 }
    requires place { at + zeros < 1048576 }
    ensures value { result ≡ spec.ue_after zeros bytes.now at }
    ensures place { IfSome result (λ read. read.1 ≤ 1048576) }
    ensures bound { IfSome result (λ read. read.0 < 2 ^ 33) }
{
    let (suffix, next) = u(zeros, bytes, at + usize::from(zeros) + 1)?;
    Some(((1u64 << zeros) - 1 + u64::from(suffix), next))
}

/// Returns the number in Exp-Golomb code from a place on, and the place after it.
#[tactic(auto, unfolding(crate::specs::Rbsp::ue), using(crate::proofs::Elements::one_place))]
pub(crate) fn ue(bytes: &[u8], at: usize) -> Option<(u64, usize)>
    requires { at ≤ 1048576 }
    ensures value { result ≡ spec.ue bytes.now at }
    ensures place { IfSome result (λ read. read.1 ≤ 1048576) }
    ensures bound { IfSome result (λ read. read.0 < 2 ^ 33) }
{
    let zeros = leading_zero_bits(bytes, at)?;
    ue_after(zeros, bytes, at)
}

// Returns the place after an element.
#[tactic(auto, unfolding(crate::specs::Rbsp::after_element))]
fn after_element(element: Element, bytes: &[u8], at: usize) -> Option<usize>
    requires { at ≤ 1048576 }
    ensures value { result ≡ spec.after_element element bytes.now at }
    ensures place { IfSome result (λ next. next ≤ 1048576) }
{
    match element {
        Element::U(n) => {
            let (_, next) = u(n, bytes, at)?;
            Some(next)
        }
        Element::Ue => {
            let (_, next) = ue(bytes, at)?;
            Some(next)
        }
    }
}

/// Returns the place after several elements.
#[tactic(auto, unfolding(crate::specs::Rbsp::after))]
pub(crate) fn after(elements: &[Element], bytes: &[u8], at: usize) -> Option<usize>
    requires { at ≤ 1048576 }
    ensures value { result ≡ spec.after elements.now bytes.now at }
    ensures place { IfSome result (λ next. next ≤ 1048576) }
{
    let mut left = elements;
    let mut place = at;
    while let Some((element, later)) = left.split_first() {
        place = after_element(*element, bytes, place)?;
        left = later;
    }
    Some(place)
}

/// Returns the place after several elements, repeated `times` times.
#[tactic(auto, using(crate::proofs::Elements::times_done, crate::proofs::Elements::times_step, crate::proofs::Elements::times_end))]
pub(crate) fn after_times(
    times: u64,
    elements: &[Element],
    bytes: &[u8],
    at: usize,
) -> Option<usize>
    requires { at ≤ 1048576 }
    ensures value { result ≡ spec.after_times times elements.now bytes.now at }
    ensures place { IfSome result (λ next. next ≤ 1048576) }
{
    let mut left = times;
    let mut place = at;
    while left > 0 {
        place = after(elements, bytes, place)?;
        left -= 1;
    }
    Some(place)
}

/// Returns the place after a flag, and the elements that follow it if it is 1.
#[tactic(auto, unfolding(crate::specs::Rbsp::after_flagged))]
pub(crate) fn after_flagged(elements: &[Element], bytes: &[u8], at: usize) -> Option<usize>
    requires { at ≤ 1048576 }
    ensures value { result ≡ spec.after_flagged elements.now bytes.now at }
    ensures place { IfSome result (λ next. next ≤ 1048576) }
{
    let (flag, next) = u(1, bytes, at)?;
    if flag == 1 {
        after(elements, bytes, next)
    } else {
        Some(next)
    }
}
