//! The VUI parameters and the HRD parameters of ISO/IEC 14496-10 video.

ghost use Rattle.std.specs.Prelude.{◌≡◌, ◌≤◌, IfSome};
ghost use Rattle.stream_coding.specs.Avc as spec;

use crate::rbsp::Element::{U, Ue};
use crate::rbsp::{after, after_flagged, after_times, u, ue};

/// Returns the place after a flag, if the flag is 1.
#[tactic(auto, unfolding(crate::specs::Avc::where_set))]
pub(crate) fn where_set(bytes: &[u8], at: usize) -> Option<usize>
    requires { at ≤ 1048576 }
    ensures value { result ≡ spec.where_set bytes.now at }
    ensures place { IfSome result (λ next. next ≤ 1048576) }
{
    let (flag, next) = u(1, bytes, at)?;
    if flag == 1 { Some(next) } else { None }
}

#[tactic(auto, unfolding(crate::specs::Avc::sample_size))]
fn sample_size(idc: u32, bytes: &[u8], at: usize) -> Option<usize>
    requires { at ≤ 1048576 }
    ensures value { result ≡ spec.sample_size idc bytes.now at }
    ensures place { IfSome result (λ next. next ≤ 1048576) }
{
    if idc == 255 {
        after(&[U(16), U(16)], bytes, at)
    } else {
        Some(at)
    }
}

#[tactic(auto, unfolding(crate::specs::Avc::aspect_ratio))]
fn aspect_ratio(bytes: &[u8], at: usize) -> Option<usize>
    requires { at ≤ 1048576 }
    ensures value { result ≡ spec.aspect_ratio bytes.now at }
    ensures place { IfSome result (λ next. next ≤ 1048576) }
{
    let (present, next) = u(1, bytes, at)?;
    if present == 1 {
        let (idc, next) = u(8, bytes, next)?;
        sample_size(idc, bytes, next)
    } else {
        Some(next)
    }
}

#[tactic(auto, unfolding(crate::specs::Avc::video_signal))]
fn video_signal(bytes: &[u8], at: usize) -> Option<usize>
    requires { at ≤ 1048576 }
    ensures value { result ≡ spec.video_signal bytes.now at }
    ensures place { IfSome result (λ next. next ≤ 1048576) }
{
    let (present, next) = u(1, bytes, at)?;
    if present == 1 {
        let next = after(&[U(3), U(1)], bytes, next)?;
        after_flagged(&[U(8), U(8), U(8)], bytes, next)
    } else {
        Some(next)
    }
}

/// Returns the place of the HRD parameters of NAL units.
#[tactic(auto, unfolding(crate::specs::Avc::hrd_place))]
pub(crate) fn hrd_place(bytes: &[u8], at: usize) -> Option<usize>
    requires { at ≤ 1048576 }
    ensures value { result ≡ spec.hrd_place bytes.now at }
    ensures place { IfSome result (λ next. next ≤ 1048576) }
{
    let next = aspect_ratio(bytes, at)?;
    let next = after_flagged(&[U(1)], bytes, next)?;
    let next = video_signal(bytes, next)?;
    let next = after_flagged(&[Ue, Ue], bytes, next)?;
    let next = after_flagged(&[U(32), U(32), U(1)], bytes, next)?;
    where_set(bytes, next)
}

// Returns the bits that cpb_size_value_minus1 counts.
#[tactic(auto, unfolding(crate::specs::Avc::size_unit), using(crate::proofs::Elements::unit_bound))]
fn size_unit(scale: u32) -> u64
    ensures value { result ≡ spec.size_unit scale }
    ensures bound { result ≤ 524288 }
{
    1u64 << (4 + scale % 16)
}

// Returns CpbSize of the schedule that begins at a place.
#[tactic(auto, unfolding(crate::specs::Avc::last_cpb_size))]
fn last_cpb_size(scale: u32, bytes: &[u8], at: usize) -> Option<u64>
    requires { at ≤ 1048576 }
    ensures { result ≡ spec.last_cpb_size scale bytes.now at }
{
    let next = after(&[Ue], bytes, at)?;
    let (value, _) = ue(bytes, next)?;
    Some((value + 1) * size_unit(scale))
}

#[tactic(auto, unfolding(crate::specs::Avc::cpb_size_after))]
fn cpb_size_after(count: u64, bytes: &[u8], at: usize) -> Option<u64>
    requires { at ≤ 1048576 }
    ensures { result ≡ spec.cpb_size_after count bytes.now at }
{
    let (_, next) = u(4, bytes, at)?;
    let (scale, next) = u(4, bytes, next)?;
    let next = after_times(count, &[Ue, Ue, U(1)], bytes, next)?;
    last_cpb_size(scale, bytes, next)
}

/// Returns CpbSize of the last schedule of HRD parameters.
#[tactic(auto, unfolding(crate::specs::Avc::hrd_cpb_size))]
pub(crate) fn hrd_cpb_size(bytes: &[u8], at: usize) -> Option<u64>
    requires { at ≤ 1048576 }
    ensures { result ≡ spec.hrd_cpb_size bytes.now at }
{
    let (count, next) = ue(bytes, at)?;
    if count <= 31 {
        cpb_size_after(count, bytes, next)
    } else {
        None
    }
}
