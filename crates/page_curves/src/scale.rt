//! Where a value and a slot lie in a picture.
ghost use Rattle.std.specs.Prelude.{◌≡◌, ◌<◌, ◌≤◌, ◌^◌};
ghost use Rattle.page_curves.specs.Scale as spec;

/// The rectangle of the curves, in units of the picture: its left side, its width, its bottom and its height.
pub(crate) const LEFT: u64 = 900;

pub(crate) const WIDTH: u64 = 8_600;

const BOTTOM: u64 = 2_200;

const HEIGHT: u64 = 2_000;

/// The greatest value of a scale.
pub(crate) const GREATEST_VALUE: u64 = 1_000_000_000_000_000;

/// The number that represents a difference of 0.
const ZERO: u64 = 500_000_000_000_000;

/// Returns the number that represents the difference of two numbers, at least one 0: more than 5 * 10^14 if it is
/// above 0.
pub fn offset(above: u64, below: u64) -> u64
    ensures { result ≡ spec.offset above below }
{
    (ZERO + above.min(ZERO)).saturating_sub(below)
}

/// Returns by how much the difference that a number represents is above 0; 0 if it is not above.
pub(crate) fn above_zero(value: u64) -> u64
    ensures { result ≡ spec.above_zero value }
{
    value.saturating_sub(ZERO)
}

/// Returns by how much the difference that a number represents is below 0; 0 if it is not below.
pub(crate) fn below_zero(value: u64) -> u64
    ensures { result ≡ spec.below_zero value }
{
    ZERO.saturating_sub(value)
}

// What a scale may end at.
static SCALES: [u64; 43] = [
    10,
    20,
    50,
    100,
    200,
    500,
    1_000,
    2_000,
    5_000,
    10_000,
    20_000,
    50_000,
    100_000,
    200_000,
    500_000,
    1_000_000,
    2_000_000,
    5_000_000,
    10_000_000,
    20_000_000,
    50_000_000,
    100_000_000,
    200_000_000,
    500_000_000,
    1_000_000_000,
    2_000_000_000,
    5_000_000_000,
    10_000_000_000,
    20_000_000_000,
    50_000_000_000,
    100_000_000_000,
    200_000_000_000,
    500_000_000_000,
    1_000_000_000_000,
    2_000_000_000_000,
    5_000_000_000_000,
    10_000_000_000_000,
    20_000_000_000_000,
    50_000_000_000_000,
    100_000_000_000_000,
    200_000_000_000_000,
    500_000_000_000_000,
    1_000_000_000_000_000,
];

// Returns whether values up to `greatest` lie on a scale that ends at `scale`.
fn reaches(scale: u64, greatest: u64) -> bool
    ensures { result ≡ spec.reaches scale greatest }
{
    scale >= greatest && scale <= GREATEST_VALUE
}

// Returns the first of these scales on which values up to `greatest` lie, or the greatest scale of all if none is long
// enough.
fn scale_among(scales: &[u64], greatest: u64) -> u64
    ensures same { result ≡ spec.scale_among scales.now greatest }
    ensures bound { result ≤ 10 ^ 15 }
{
    for scale in scales {
        if reaches(*scale, greatest) {
            return (*scale).min(GREATEST_VALUE);
        }
    }
    GREATEST_VALUE
}

/// Returns where a scale for values up to `greatest` ends: at the least of 10, 20, 50, 100, .. that is not less,
/// otherwise at 10^15.
pub(crate) fn scale_for(greatest: u64) -> u64
    ensures same { result ≡ spec.scale_for greatest }
    ensures bound { result ≤ 10 ^ 15 }
{
    scale_among(&SCALES, greatest)
}

/// Returns the number of slots of `span` windows that hold all windows; 1 at least.
pub(crate) fn slots_in(windows: u64, span: u64) -> u64
    requires { 0 < span }
    ensures { result ≡ spec.slots_in windows span }
{
    (windows.max(1) - 1) / span + 1
}

/// Returns where the middle of a slot lies, of `slots` slots.
pub fn across(slots: u64, slot: u64) -> u64
    requires some { 0 < slots }
    requires bound { slots ≤ 2 ^ 39 }
    requires early { slot < 512 }
    ensures { result ≡ spec.across slots slot }
{
    LEFT + WIDTH * (2 * slot + 1) / (2 * slots)
}

/// Returns how high a value lies on a scale that ends at `top`; a value beyond the scale lies at its end.
pub fn height_of(top: u64, value: u64) -> u64
    requires { top ≤ 10 ^ 15 }
    ensures { result ≡ spec.height_of top value }
{
    BOTTOM - HEIGHT * value.min(top) / top.max(1)
}

/// Returns how high a difference lies on a scale from `top` below 0 to `top` above 0; a difference beyond the scale
/// lies at its end.
pub(crate) fn offset_height(top: u64, value: u64) -> u64
    requires { top ≤ 10 ^ 15 }
    ensures { result ≡ spec.offset_height top value }
{
    let place = (top + above_zero(value).min(top)).saturating_sub(below_zero(value));
    BOTTOM - HEIGHT * place.min(2 * top) / (2 * top).max(1)
}

/// Returns the number that represents the difference `quarter` quarters of a scale above its bottom.
pub(crate) fn quarter_of(top: u64, quarter: u64) -> u64
    requires { top ≤ 10 ^ 15 }
    ensures { result ≡ spec.quarter_of top quarter }
{
    (ZERO + top * quarter.min(4) / 2).saturating_sub(top)
}
