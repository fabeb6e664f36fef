//! The values of a sequence parameter set of ISO/IEC 14496-10.

ghost use Rattle.std.specs.Prelude.{◌≡◌, ◌≤◌, ◌<◌, ◌^◌, IfSome};
ghost use Rattle.stream_coding.specs.Avc as spec;

use crate::avc_vui::{hrd_cpb_size, hrd_place, where_set};
use crate::coding::AvcSequence;
use crate::rbsp::Element::{U, Ue};
use crate::rbsp::{after, after_flagged, after_times, u, ue};
use crate::structures::{Structure, bytes_of};

/// Returns level_idc, 9 for level 1b if it is written as 11.
#[tactic(auto, unfolding(crate::specs::Avc::level_idc))]
pub(crate) fn level_idc(profile: u8, constraints: u8, level: u8) -> u8
    ensures { result ≡ spec.level_idc profile constraints level }
{
    let is_1b = level == 11 && constraints / 16 % 2 == 1;
    if is_1b && (profile == 66 || profile == 77 || profile == 88) {
        9
    } else {
        level
    }
}

#[tactic(auto, unfolding(crate::specs::Avc::level))]
fn level(bytes: &[u8]) -> u8
    ensures { result ≡ spec.level bytes.now }
{
    match bytes {
        [profile, constraints, level, ..] => level_idc(*profile, *constraints, *level),
        _ => 0,
    }
}

#[tactic(auto, unfolding(crate::specs::Avc::profile))]
fn profile(bytes: &[u8]) -> u8
    ensures { result ≡ spec.profile bytes.now }
{
    match bytes {
        [] => 0,
        [profile, ..] => *profile,
    }
}

// Returns cpbBrNalFactor of a profile.
#[tactic(auto, unfolding(crate::specs::Avc::cpb_br_nal_factor))]
fn cpb_br_nal_factor(profile: u8) -> u32
    ensures { result ≡ spec.cpb_br_nal_factor profile }
{
    match profile {
        100 | 83 | 86 | 118 | 128 | 138 | 139 | 134 | 135 => 1_500,
        110 => 3_600,
        122 | 244 | 44 => 4_800,
        _ => 1_200,
    }
}

#[tactic(auto, unfolding(crate::specs::Avc::has_chroma_format))]
fn has_chroma_format(profile: u8) -> bool
    ensures { result ≡ spec.has_chroma_format profile }
{
    match profile {
        100 | 110 | 122 | 244 | 44 | 83 | 86 | 118 | 128 | 138 | 139 | 134 | 135 => true,
        _ => false,
    }
}

#[tactic(auto, unfolding(crate::specs::Avc::next_scale))]
fn next_scale(last: u64, code: u64) -> u64
    requires last { last < 256 }
    requires code { code < 2 ^ 33 }
    ensures value { result ≡ spec.next_scale last code }
    ensures bound { result < 256 }
{
    if code % 2 == 1 {
        (last + (code + 1) / 2) % 256
    } else {
        (last + (256 - code / 2 % 256)) % 256
    }
}

// Returns the place after the remaining numbers of a scaling list.
#[tactic(auto, using(crate::proofs::ScalingLists::list_done, crate::proofs::ScalingLists::list_end, crate::proofs::ScalingLists::list_stop, crate::proofs::ScalingLists::list_step))]
fn scaling_list(count: u8, first: u64, bytes: &[u8], at: usize) -> Option<usize>
    requires first { first < 256 }
    requires place { at ≤ 1048576 }
    ensures value { result ≡ spec.scaling_list count first bytes.now at }
    ensures place { IfSome result (λ next. next ≤ 1048576) }
{
    let mut last = first;
    let mut place = at;
    let mut left = count;
    while left > 0 {
        let (delta, next) = ue(bytes, place)?;
        last = next_scale(last, delta);
        place = next;
        if last == 0 {
            return Some(place);
        }
        left -= 1;
    }
    Some(place)
}

#[tactic(auto, unfolding(crate::specs::Avc::scaling_list_at))]
fn scaling_list_at(i: u8, bytes: &[u8], at: usize) -> Option<usize>
    requires { at ≤ 1048576 }
    ensures value { result ≡ spec.scaling_list_at i bytes.now at }
    ensures place { IfSome result (λ next. next ≤ 1048576) }
{
    let (present, next) = u(1, bytes, at)?;
    if present == 1 {
        scaling_list(if i < 6 { 16 } else { 64 }, 8, bytes, next)
    } else {
        Some(next)
    }
}

// Returns the place after the scaling lists.
#[tactic(auto, using(crate::proofs::ScalingLists::matrix_done, crate::proofs::ScalingLists::matrix_step, crate::proofs::ScalingLists::matrix_end))]
fn scaling_matrix(count: u8, bytes: &[u8], at: usize) -> Option<usize>
    requires count { count ≤ 12 }
    requires place { at ≤ 1048576 }
    ensures value { result ≡ spec.scaling_matrix count 0 bytes.now at }
    ensures place { IfSome result (λ next. next ≤ 1048576) }
{
    let mut i = 0;
    let mut place = at;
    while i < count {
        place = scaling_list_at(i, bytes, place)?;
        i += 1;
    }
    Some(place)
}

#[tactic(auto, unfolding(crate::specs::Avc::depths))]
fn depths(format: u64, bytes: &[u8], at: usize) -> Option<usize>
    requires { at ≤ 1048576 }
    ensures value { result ≡ spec.depths format bytes.now at }
    ensures place { IfSome result (λ next. next ≤ 1048576) }
{
    if format == 3 {
        after(&[U(1), Ue, Ue, U(1)], bytes, at)
    } else {
        after(&[Ue, Ue, U(1)], bytes, at)
    }
}

#[tactic(auto, unfolding(crate::specs::Avc::matrix))]
fn matrix(format: u64, bytes: &[u8], at: usize) -> Option<usize>
    requires { at ≤ 1048576 }
    ensures value { result ≡ spec.matrix format bytes.now at }
    ensures place { IfSome result (λ next. next ≤ 1048576) }
{
    let (present, next) = u(1, bytes, at)?;
    if present == 1 {
        scaling_matrix(if format == 3 { 12 } else { 8 }, bytes, next)
    } else {
        Some(next)
    }
}

#[tactic(auto, unfolding(crate::specs::Avc::chroma_format))]
fn chroma_format(bytes: &[u8], at: usize) -> Option<usize>
    requires { at ≤ 1048576 }
    ensures value { result ≡ spec.chroma_format bytes.now at }
    ensures place { IfSome result (λ next. next ≤ 1048576) }
{
    let (format, next) = ue(bytes, at)?;
    let next = depths(format, bytes, next)?;
    matrix(format, bytes, next)
}

#[tactic(auto, unfolding(crate::specs::Avc::chroma_format_if))]
fn chroma_format_if(present: bool, bytes: &[u8], at: usize) -> Option<usize>
    requires { at ≤ 1048576 }
    ensures value { result ≡ spec.chroma_format_if present bytes.now at }
    ensures place { IfSome result (λ next. next ≤ 1048576) }
{
    if present {
        chroma_format(bytes, at)
    } else {
        Some(at)
    }
}

#[tactic(auto, unfolding(crate::specs::Avc::order_cycle))]
fn order_cycle(bytes: &[u8], at: usize) -> Option<usize>
    requires { at ≤ 1048576 }
    ensures value { result ≡ spec.order_cycle bytes.now at }
    ensures place { IfSome result (λ next. next ≤ 1048576) }
{
    let (frames, next) = ue(bytes, at)?;
    if frames <= 255 {
        after_times(frames, &[Ue], bytes, next)
    } else {
        None
    }
}

#[tactic(auto, unfolding(crate::specs::Avc::order_by))]
fn order_by(kind: u64, bytes: &[u8], at: usize) -> Option<usize>
    requires { at ≤ 1048576 }
    ensures value { result ≡ spec.order_by kind bytes.now at }
    ensures place { IfSome result (λ next. next ≤ 1048576) }
{
    match kind {
        0 => after(&[Ue], bytes, at),
        1 => {
            let next = after(&[U(1), Ue, Ue], bytes, at)?;
            order_cycle(bytes, next)
        }
        _ => Some(at),
    }
}

#[tactic(auto, unfolding(crate::specs::Avc::picture_order))]
fn picture_order(bytes: &[u8], at: usize) -> Option<usize>
    requires { at ≤ 1048576 }
    ensures value { result ≡ spec.picture_order bytes.now at }
    ensures place { IfSome result (λ next. next ≤ 1048576) }
{
    let (kind, next) = ue(bytes, at)?;
    order_by(kind, bytes, next)
}

#[tactic(auto, unfolding(crate::specs::Avc::frame_elements))]
fn frame_elements(bytes: &[u8], at: usize) -> Option<usize>
    requires { at ≤ 1048576 }
    ensures value { result ≡ spec.frame_elements bytes.now at }
    ensures place { IfSome result (λ next. next ≤ 1048576) }
{
    let (only, next) = u(1, bytes, at)?;
    if only == 1 {
        after(&[U(1)], bytes, next)
    } else {
        after(&[U(1), U(1)], bytes, next)
    }
}

#[tactic(auto, unfolding(crate::specs::Avc::frame_number))]
fn frame_number(bytes: &[u8], at: usize) -> Option<usize>
    requires { at ≤ 1048576 }
    ensures value { result ≡ spec.frame_number bytes.now at }
    ensures place { IfSome result (λ next. next ≤ 1048576) }
{
    let next = after(&[Ue], bytes, at)?;
    let next = chroma_format_if(has_chroma_format(profile(bytes)), bytes, next)?;
    after(&[Ue], bytes, next)
}

#[tactic(auto, unfolding(crate::specs::Avc::picture_size))]
fn picture_size(bytes: &[u8], at: usize) -> Option<usize>
    requires { at ≤ 1048576 }
    ensures value { result ≡ spec.picture_size bytes.now at }
    ensures place { IfSome result (λ next. next ≤ 1048576) }
{
    let next = after(&[Ue, U(1), Ue, Ue], bytes, at)?;
    let next = frame_elements(bytes, next)?;
    after_flagged(&[Ue, Ue, Ue, Ue], bytes, next)
}

// Returns the place of the VUI parameters.
#[tactic(auto, unfolding(crate::specs::Avc::vui_place))]
fn vui_place(bytes: &[u8]) -> Option<usize>
    ensures value { result ≡ spec.vui_place bytes.now }
    ensures place { IfSome result (λ next. next ≤ 1048576) }
{
    let next = frame_number(bytes, 24)?;
    let next = picture_order(bytes, next)?;
    let next = picture_size(bytes, next)?;
    where_set(bytes, next)
}

// Returns CpbSize of the last schedule of the HRD parameters of NAL units.
#[tactic(auto, unfolding(crate::specs::Avc::cpb_size))]
fn cpb_size(bytes: &[u8]) -> Option<u64>
    ensures { result ≡ spec.cpb_size bytes.now }
{
    let next = vui_place(bytes)?;
    let next = hrd_place(bytes, next)?;
    hrd_cpb_size(bytes, next)
}

/// Returns the values of the first sequence parameter set of a unit.
#[tactic(auto, unfolding(crate::specs::Avc::avc_sequence))]
pub(crate) fn avc_sequence(unit: &[u8]) -> AvcSequence
    ensures { result ≡ spec.avc_sequence unit.now }
{
    let bytes = bytes_of(Structure::AvcParameters, unit);
    AvcSequence {
        level: level(bytes),
        cpb_br_nal_factor: cpb_br_nal_factor(profile(bytes)),
        cpb_size: cpb_size(bytes).unwrap_or(0),
    }
}
