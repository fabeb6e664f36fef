//! The measured values.

use std::alloc::{Allocator, Global};
use std::marker::Model;

/// The greatest numbers of bytes that the buffers of a stream hold, over all moments.
#[derive(Clone, Copy)]
pub struct StreamFullness {
    /// In its transport buffer.
    pub transport: u64,
    /// In its main buffer.
    pub main: u64,
    /// In the two buffers that the main buffer of video is, if the stream has a multiplexing buffer.
    pub video: Option<VideoFullness>,
}

/// The greatest numbers of bytes that the buffers of a video stream hold after its transport buffer, over all moments.
#[derive(Clone, Copy)]
pub struct VideoFullness {
    /// In its multiplexing buffer MB.
    pub multiplexing: u64,
    /// In the elementary stream buffer EB after it.
    pub elementary: u64,
}

/// The greatest numbers of bytes that the buffers of a program's tables hold, over all moments.
#[derive(Clone, Copy)]
pub struct SystemFullness {
    /// In their transport buffer.
    pub transport: u64,
    /// In the system buffer after it.
    pub system: u64,
}

/// A unit that has not left its transport buffer whole by its decoding time, or, of a stream with a multiplexing
/// buffer, is not whole in its elementary stream buffer by then.
#[derive(Clone, Copy, PartialEq, Eq)]
pub struct LateUnit {
    /// The number of its stream in the description, from 0.
    pub stream: u8,
    /// Its number among the stream's units, from 0.
    pub number: u64,
}

/// The fullness of each buffer, and the first late unit.
#[derive(Drop)]
pub struct Fullness<A: Allocator = Global> {
    /// Of each stream of the description, in order.
    pub streams: Vec<StreamFullness, A>,
    /// Of each program of the description, in order.
    pub programs: Vec<SystemFullness, A>,
    /// The first late unit, by stream and then by number, if there is one.
    pub late: Option<LateUnit>,
}

// A contract refers to the numbers, not to the place where they are kept.
impl<A: Allocator> Model for Fullness<A> {
    ghost use Rattle.tstd.specs.Measured.{Measured};

    ghost Value = { Measured };

    ghost view = { λ f. record { streams = f.streams.items; programs = f.programs.items; late = f.late } };
}
