//! The Modified Julian Date of a civil date (EN 300 468, annex C).

ghost use Rattle.std.specs.Prelude.{◌≡◌, ◌↔◌, pos, IsOk, IfOk};
ghost use Rattle.jiff.specs.Words.{IsBetween};
ghost use Rattle.dvb_tables.specs.JulianDate.{julian_day, mjd_error_code};

use jiff::civil::Date;
use thiserror::Error;

/// Why a date has no Modified Julian Date of 16 bits.
#[derive(Clone, Copy, Debug, PartialEq, Eq, Error)]
pub enum MjdError {
    #[error("the date is before 17 November 1858 or after 22 April 2038")]
    Range,
}

impl MjdError {
    /// Returns the number of the refusal: 1 Range.
    pub fn code(self) -> u8
        ensures { result ≡ mjd_error_code self }
    {
        match self {
            MjdError::Range => 1,
        }
    }
}

/// Returns the Modified Julian Date of a civil date, as the 16 bits of UTC_time hold it: the days since
/// 1 January 1970, and 40,587 (EN 300 468, annex C). Refused is a date outside 17 November 1858 (day 0)
/// to 22 April 2038 (day 65,535).
pub fn mjd(date: Date) -> Result<u16, MjdError>
    ensures succeeds { IsOk result ↔ IsBetween (pos 0) (pos 65535) (julian_day date) }
    ensures value { IfOk result (λ n. pos n ≡ julian_day date) }
{
    let day = date.to_plain().to_unix_epoch_day() + 40_587;
    if day < 0 || day > 65_535 {
        return Err(MjdError::Range);
    }
    Ok(day as u16)
}
