//! Moments and durations from their binary coded decimals (EN 300 468, 5.2.4, 5.2.5 and annex C).

ghost use Rattle.std.specs.Prelude.{◌≡◌, ◌<◌, IfSome};
ghost use Rattle.service_information.specs.CodedTimes as spec;

// The Modified Julian Date of 1 January 1970.
const FIRST_DAY: u32 = 40_587;

// The Modified Julian Date of 31 December 2037, the last day that a description names.
const LAST_DAY: u32 = 65_423;

const SECONDS_A_DAY: u32 = 86_400;

// Reads two decimal digits in a byte.
#[tactic(auto, unfolding(crate::specs::CodedTimes::decimal_in))]
fn decimal_in(byte: u8) -> Option<u8>
    ensures value { result ≡ spec.decimal_in byte }
    ensures bound { IfSome result (λ n. n < 100) }
{
    let (tens, ones) = (byte / 16, byte % 16);
    if tens < 10 && ones < 10 {
        Some(tens * 10 + ones)
    } else {
        None
    }
}

// Reads two decimal digits of a number below 60.
#[tactic(auto, unfolding(crate::specs::CodedTimes::sixtieths_in, crate::specs::CodedTimes::below_sixty))]
fn sixtieths_in(byte: u8) -> Option<u8>
    ensures value { result ≡ spec.sixtieths_in byte }
    ensures bound { IfSome result (λ n. n < 60) }
{
    match decimal_in(byte) {
        None => None,
        Some(number) => if number < 60 { Some(number) } else { None },
    }
}

// Reads a number of seconds, hhmmss.
#[tactic(auto, unfolding(crate::specs::CodedTimes::seconds_in))]
pub(crate) fn seconds_in(digits: [u8; 3]) -> Option<u32>
    ensures value { result ≡ spec.seconds_in digits }
    ensures bound { IfSome result (λ n. n < 360_000) }
{
    let hours = decimal_in(digits[0])?;
    let minutes = sixtieths_in(digits[1])?;
    let seconds = sixtieths_in(digits[2])?;
    Some(u32::from(hours) * 3_600 + u32::from(minutes) * 60 + u32::from(seconds))
}

// Returns a time on a day, in seconds since 1 January 1970.
#[tactic(auto, unfolding(crate::specs::CodedTimes::moment_on))]
fn moment_on(day: u32, seconds: u32) -> Option<u32>
    ensures { result ≡ spec.moment_on day seconds }
{
    if FIRST_DAY <= day && day <= LAST_DAY && seconds < SECONDS_A_DAY {
        Some((day - FIRST_DAY) * SECONDS_A_DAY + seconds)
    } else {
        None
    }
}

// Returns the moment of UTC_time or of a start_time, in seconds since 1 January 1970.
#[tactic(auto, unfolding(crate::specs::CodedTimes::moment_in))]
pub(crate) fn moment_in(time: [u8; 5]) -> Option<u32>
    ensures { result ≡ spec.moment_in time }
{
    let seconds = seconds_in([time[2], time[3], time[4]])?;
    moment_on(u32::from(time[0]) * 256 + u32::from(time[1]), seconds)
}
