//! A moment as a description writes it, `YYYY-MM-DDThh:mm:ss`.

ghost use Rattle.std.specs.Prelude.{◌≡◌, ◌≤◌, ◌++◌, IfOk, OnOk, string_bytes};
ghost use Rattle.service_information.specs.CivilTimes as spec;

use std::alloc::{AllocError, Global};
use std::fmt::Write;

// The Modified Julian Date of 1 January 1970.
const FIRST_DAY: u64 = 40_587;

// Years from March to February since 1900, by the Modified Julian Date.
fn counted_year(day: u64) -> u64
    requires { day ≤ 100_000 }
    ensures value { result ≡ spec.counted_year day }
    ensures bound { result ≤ 300 }
{
    (100 * day).saturating_sub(1_507_820) / 36_525
}

fn days_before_year(year: u64) -> u64
    requires { year ≤ 300 }
    ensures { result ≡ spec.days_before_year year }
{
    year * 1_461 / 4
}

// Months of such a year, 4 to 15.
fn counted_month(day: u64, year: u64) -> u64
    requires day { day ≤ 100_000 }
    requires year { year ≤ 300 }
    ensures value { result ≡ spec.counted_month day year }
    ensures bound { result ≤ 4_000 }
{
    (10_000 * day.saturating_sub(days_before_year(year))).saturating_sub(149_561_000) / 306_001
}

// Returns 1 for January and February, which are counted as months 14 and 15 of the year before; otherwise 0.
fn years_on(month: u64) -> u64
    ensures value { result ≡ spec.years_on month }
    ensures bound { result ≤ 1 }
{
    if month >= 14 { 1 } else { 0 }
}

#[tactic(auto, unfolding(crate::specs::CivilTimes::two_digits))]
fn write_two_digits(number: u64, text: &mut String) -> Result<(), AllocError>
    ensures { OnOk result (string_bytes text.new ≡ string_bytes text.old ++ spec.two_digits number) }
{
    let tens = number / 10;
    let ones = number % 10;
    write!(text, "{tens}{ones}")
}

// Appends the year, the month and the day of a Modified Julian Date.
#[tactic(auto, unfolding(crate::specs::CivilTimes::date_text))]
fn write_date(day: u64, text: &mut String) -> Result<(), AllocError>
    requires { day ≤ 100_000 }
    ensures { OnOk result (string_bytes text.new ≡ string_bytes text.old ++ spec.date_text day) }
{
    let counted = counted_year(day);
    let month = counted_month(day, counted);
    let year = 1_900 + counted + years_on(month);
    let before = days_before_year(counted);
    write!(text, "{year}-")?;
    write_two_digits(
        month.saturating_sub(1).saturating_sub(years_on(month) * 12),
        text,
    )?;
    text.push_str("-")?;
    write_two_digits(
        day.saturating_sub(14_956)
            .saturating_sub(before)
            .saturating_sub(month * 306_001 / 10_000),
        text,
    )
}

// Appends the hour, the minute and the second of a number of seconds of a day.
#[tactic(auto, unfolding(crate::specs::CivilTimes::clock_text))]
fn write_clock(seconds: u64, text: &mut String) -> Result<(), AllocError>
    ensures { OnOk result (string_bytes text.new ≡ string_bytes text.old ++ spec.clock_text seconds) }
{
    write_two_digits(seconds / 3_600, text)?;
    text.push_str(":")?;
    write_two_digits(seconds / 60 % 60, text)?;
    text.push_str(":")?;
    write_two_digits(seconds % 60, text)
}

/// Returns a moment in seconds since 1 January 1970 UTC as `YYYY-MM-DDThh:mm:ss`; the date by EN 300 468, annex C,
/// which holds up to 2099.
#[tactic(auto, unfolding(crate::specs::CivilTimes::civil_text))]
pub fn civil_text(alloc: Global, moment: u32) -> Result<String, AllocError>
    ensures { IfOk result (λ text. string_bytes text ≡ spec.civil_text moment) }
{
    let moment = u64::from(moment);
    let mut text = String::new(alloc);
    write_date(moment / 86_400 + FIRST_DAY, &mut text)?;
    text.push_str("T")?;
    write_clock(moment % 86_400, &mut text)?;
    Ok(text)
}
