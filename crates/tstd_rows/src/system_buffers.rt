//! The two buffers of a program's tables.
ghost use Rattle.std.specs.Prelude.{◌≤◌, ◌^◌};
ghost use Rattle.tstd_rows.specs.TableQueues.{AreInTime};

use crate::excess::Excess;
use crate::watched_queue::WatchedQueue;
use std::alloc::Global;

/// The size of the transport buffer of a program's tables in bytes, and of their system buffer.
pub const TABLE_TRANSPORT_BYTES: u64 = 512;

pub const SYSTEM_BYTES: u64 = 1_536;

/// The buffers of a program's tables, and what they have held so far: all bytes of their packets enter a transport
/// buffer, and from there a system buffer (ISO/IEC 13818-1, 2.4.2.3).
#[derive(Drop)]
pub struct SystemView {
    pub transport: WatchedQueue,
    pub system: WatchedQueue,
    /// The number of bytes that have arrived.
    pub bytes: u64,
    pub ghost few: { bytes ≤ 2 ^ 40 },
    pub ghost in_time: { AreInTime transport system bytes },
}

/// The excesses of both buffers that have ended.
#[derive(Drop)]
pub struct EndedExcesses {
    pub transport: Vec<Excess>,
    pub system: Vec<Excess>,
}

impl EndedExcesses {
    ghost use Rattle.std.specs.Prelude.{◌≡◌, []};

    /// Returns no excesses.
    pub fn new(alloc: Global) -> EndedExcesses
        ensures transport { result.transport.items ≡ [] }
        ensures system { result.system.items ≡ [] }
    {
        EndedExcesses {
            transport: Vec::new(alloc),
            system: Vec::new(alloc),
        }
    }
}
