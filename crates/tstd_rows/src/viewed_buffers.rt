//! The two buffers of a stream.
ghost use Rattle.std.specs.Prelude.{◌<◌, ◌≤◌, ◌^◌};
ghost use Rattle.std.specs.Option.{ForSome};
ghost use Rattle.tstd_rows.specs.Buffers.{IsPaced};
ghost use Rattle.tstd.specs.BufferState.{IsSound};

use crate::excess::ExcessWatch;
use crate::transport_buffer::TransportBuffer;
use crate::unit_seen::UnitSeen;
use std::alloc::Allocator;
use tstd::MainBuffer;

/// The buffers of one elementary stream, and what they have held so far.
#[derive(Drop)]
pub struct StreamView<A: Allocator> {
    /// The transport buffer; `most` is the greatest number of bytes that it has held over all moments.
    pub transport: TransportBuffer,
    /// Its size, and its current excess.
    pub watch: ExcessWatch,
    /// The main buffer; `peak` is the greatest number of bytes that it has held over all moments.
    pub main: MainBuffer<A>,
    /// The current unit.
    pub unit: Option<UnitSeen>,
    pub ghost paced: { IsPaced transport },
    pub ghost some: { 0 < watch.size },
    pub ghost bound: { watch.size ≤ 2 ^ 40 },
    pub ghost sound: { IsSound main },
    pub ghost fewer: { main.fullness ≤ transport.bytes },
    pub ghost counted: { ForSome unit (λ u. u.bytes ≤ transport.bytes) },
}
