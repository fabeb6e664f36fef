//! The buffers of the transport stream system target decoder that have one size for all (ISO/IEC 13818-1, 2.4.2.3).

/// The bytes of a transport buffer, TB.
pub const TB_SIZE: u64 = 512;

/// The drain of the transport buffer of a program's tables, in bits/s.
pub const SYSTEM_TB_DRAIN: u64 = 1_000_000;

/// The bytes of the system buffer of a program's tables, Bsys.
pub const BSYS_SIZE: u64 = 1_536;

/// Its drain, in bits/s.
pub const BSYS_DRAIN: u64 = 80_000;
