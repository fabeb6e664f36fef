//! Findings.
ghost use Rattle.std.specs.Prelude.{◌≡◌};
ghost use Rattle.pid_findings.specs.Shown.{part_bytes};

use pes_packet::{PesError, PesHeader};
use psi_tables::SectionError;
use std::alloc::{Allocator, Global};
use ts_packet::PacketError;

/// What begins at the first byte of a section or a PES packet.
#[derive(Clone, Copy, PartialEq, Eq)]
pub enum Kind {
    /// a section, of this table_id
    Table(u8),
    /// a PES packet
    Pes {
        /// whether a header that was read has a PTS
        stamped: bool,
        /// whether the packet of its first byte has the random_access_indicator (ISO/IEC 13818-1, 2.4.3.5)
        access: bool,
    },
}

/// The bytes of a finding: a slice of the given packet if they lie in it whole, otherwise joined.
#[derive(Drop)]
pub enum Part<'a, A: Allocator = Global> {
    Span(&'a [u8]),
    Joined(Vec<u8, A>),
}

impl<A: Allocator> Part<'_, A> {
    /// Returns the bytes, borrowed or owned.
    pub fn bytes(&self) -> &[u8]
        ensures { result.now ≡ part_bytes self.now }
    {
        match self {
            Part::Span(bytes) => bytes,
            Part::Joined(bytes) => bytes.as_slice(),
        }
    }
}

/// The kind of a finding.
#[derive(Drop)]
pub enum What<'a, A: Allocator = Global> {
    /// a duplicate of the packet before
    Duplicate,
    /// a continuity_counter that does not follow the counter before
    CounterBreak {
        expected: u8,
        found: u8,
    },
    /// a packet whose payload is scrambled, and not read
    Scrambled,
    /// a section or a PES packet that was cut short: its bytes
    Truncated(Part<'a, A>),
    /// a whole section: its bytes
    Section(Part<'a, A>),
    /// bytes that are no valid section: `Length` or `CheckWord`, or `Body` for a pointer_field that points past the
    /// end of its packet
    BadSection(SectionError),
    /// a PES packet: its header, whether the stream ended before its end was known, and the bytes after the header
    Pes {
        header: PesHeader,
        unended: bool,
        body: Part<'a, A>,
    },
    /// a PES packet whose header is refused
    BadPes(PesError),
    /// 188 bytes that are no packet
    BadPacket(PacketError),
    /// a packet with transport_error_indicator
    Errored,
    /// a payload while no section and no PES packet is open: its number of bytes
    Stray(usize),
}

/// A finding, at the packet that decides it.
#[derive(Drop)]
pub struct Finding<'a, A: Allocator = Global> {
    /// the packet's index in the stream; the number of whole packets for what the end of the stream decides
    pub packet: u64,
    /// the PID, `None` for bytes that are no packet of a PID
    pub pid: Option<u16>,
    /// of a section or a PES packet: the packet of its first byte, and what begins there
    pub begun: Option<(u64, Kind)>,
    pub what: What<'a, A>,
}
