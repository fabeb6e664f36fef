//! Dates, moments and states.

use dvb_tables::{MjdError, RunningStatus, duration_digits, mjd, utc_time};
use jiff::civil::Date;
use std::test::Fail;

/// Dates with their modified Julian dates.
static DATES: [(i16, i8, i8, Result<u16, MjdError>); 6] = [
    (1970, 1, 1, Ok(40_587)),
    (1858, 11, 17, Ok(0)),
    (2038, 4, 22, Ok(65_535)),
    (1858, 11, 16, Err(MjdError::Range)),
    (2038, 4, 23, Err(MjdError::Range)),
    (1993, 10, 13, Ok(0xc079)),
];

#[test]
fn julian_dates(rt: HostRuntime) -> Result<(), Fail> {
    for (year, month, day, wanted) in &DATES {
        assert!(rt; mjd(Date::new(*year, *month, *day)?) == *wanted);
    }
    assert!(rt; MjdError::Range.code() == 1);
    Ok(())
}

/// Moments and their bytes: the example of EN 300 468, 93/10/13 12:45:00, the first moment, the day past 22 April 2038.
static MOMENTS: [(u64, [u8; 5]); 3] = [
    (750_516_300, *b"\xc0\x79\x12\x45\x00"),
    (0, *b"\x9e\x8b\x00\x00\x00"),
    (2_155_593_600, *b"\x00\x00\x00\x00\x00"),
];

#[test]
fn moments(rt: HostRuntime) {
    for (moment, bytes) in &MOMENTS {
        assert!(rt; utc_time(*moment) == *bytes);
    }
    // The example of EN 300 468, 01:45:30, and the longest duration.
    assert!(rt; duration_digits(6_330) == *b"\x01\x45\x30");
    assert!(rt; duration_digits(359_999) == *b"\x99\x59\x59");
}

#[test]
fn running_states(rt: HostRuntime) {
    for code in 0..8 {
        assert!(rt; RunningStatus::of_code(code).code() == code);
    }
    assert!(rt;
        [
            RunningStatus::Running.code(),
            RunningStatus::NotRunning.code()
        ] == [4, 1]
    );
}
