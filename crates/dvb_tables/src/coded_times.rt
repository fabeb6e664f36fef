//! Moments as a date and a clock time in binary coded decimals (EN 300 468, 5.2.5 and annex C).

ghost use Rattle.std.specs.Prelude.{◌≡◌, ◌<◌};
ghost use Rattle.dvb_tables.specs.CodedTimes.{utc_time_bytes, clock_bytes, coded_decimal};

/// Returns the 5 bytes of UTC_time and of an event's start_time (EN 300 468, 5.2.4 and 5.2.5): the
/// Modified Julian Date and the digits hhmmss. The moment counts seconds since 1 January 1970 UTC. A day
/// past the 16 bits of the date is written modulo 65,536.
pub fn utc_time(moment: u64) -> [u8; 5]
    ensures { result ≡ utc_time_bytes moment }
{
    let day = ((moment / 86_400 + 40_587) % 65_536) as u16;
    let [high, low] = day.to_be_bytes();
    let [hours, minutes, seconds] = duration_digits((moment % 86_400) as u32);
    [high, low, hours, minutes, seconds]
}

/// Returns the 3 bytes of an event's duration (EN 300 468, 5.2.4): the digits hhmmss of a number of seconds.
pub fn duration_digits(seconds: u32) -> [u8; 3]
    requires { seconds < 360_000 }
    ensures { result ≡ clock_bytes seconds }
{
    let hours = (seconds / 3_600) as u8;
    let minutes = (seconds / 60 % 60) as u8;
    let rest = (seconds % 60) as u8;
    [
        coded_decimal(hours),
        coded_decimal(minutes),
        coded_decimal(rest),
    ]
}

// Returns two decimal digits in one byte, the tens in its upper half.
fn coded_decimal(number: u8) -> u8
    requires { number < 100 }
    ensures { result ≡ coded_decimal number }
{
    number / 10 << 4 | number % 10
}
