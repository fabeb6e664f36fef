//! The scales of a picture.
/// The values of a picture: bit rates in bits a second, 0 in a window without a value; numbers of bytes; times in
/// microseconds; times in nanoseconds; or differences in nanoseconds, as numbers of [`offset`](crate::scale::offset).
#[derive(Clone, Copy)]
pub enum ChartUnit {
    BitRate,
    Bytes,
    Time,
    Nanoseconds,
    Offset,
}

/// The scales of a picture: at most 2^38 windows of at most 2^22 milliseconds each, and values from 0 to `top`, 10^15
/// at most; or differences from `top` below 0 to `top` above 0.
#[derive(Clone, Copy)]
pub struct Frame {
    pub unit: ChartUnit,
    pub windows: u64,
    pub millis: u32,
    pub top: u64,
}
