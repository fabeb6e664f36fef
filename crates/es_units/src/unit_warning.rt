//! Warnings about findings on the PID of a stream.

ghost use Rattle.std.specs.Prelude.{◌≡◌};
ghost use Rattle.es_units.specs.Damage.{is_damage, is_scrambled};

use pes_packet::PesError;
use psi_tables::SectionError;

/// Why something is in no unit, or what a unit's PES packet leaves unknown.
#[derive(Clone, Copy)]
pub enum UnitWarningCause {
    /// A continuity_counter that does not follow the one before.
    Counter { expected: u8, found: u8 },
    /// A packet whose payload is scrambled.
    Scrambled,
    /// This number of bytes of a PES packet or a section that was cut short.
    Truncated(usize),
    /// This number of bytes of a PES packet or a section that the end of the stream cut short.
    TruncatedByEnd(usize),
    /// A section on a PID of PES packets.
    Section,
    /// Bytes that are no section.
    BadSection(SectionError),
    /// A PES packet whose header is refused.
    BadPes(PesError),
    /// A PES packet without a PTS, of this number of bytes, with no unit before it.
    NoUnitBefore(usize),
    /// A PES packet without a PTS, of this stream_id and this number of bytes, after a unit of another stream_id.
    OtherStreamId { id: u8, size: usize },
    /// The first PES packet of a unit that may lack a later PES packet: the unit is left out.
    PartLost,
    /// A unit without bytes.
    EmptyUnit,
    /// A packet whose payload, or its end, is in no PES packet.
    Stray,
    /// The last PES packet of a PID, without a length, ends with the stream; it is taken unchanged and may be cut.
    OpenEnded,
}

impl UnitWarningCause {
    /// Returns whether it says that the stream is damaged, or may be: each capture ends somewhere, and a unit may
    /// be empty.
    pub fn is_damage(self) -> bool
        ensures { result ≡ is_damage self }
    {
        match self {
            UnitWarningCause::TruncatedByEnd(_) => false,
            UnitWarningCause::NoUnitBefore(_) => false,
            UnitWarningCause::PartLost => false,
            UnitWarningCause::EmptyUnit => false,
            _ => true,
        }
    }

    /// Returns whether it is of a scrambled packet.
    pub fn is_scrambled(self) -> bool
        ensures { result ≡ is_scrambled self }
    {
        match self {
            UnitWarningCause::Scrambled => true,
            _ => false,
        }
    }
}

/// A warning about a finding on the PID of a stream.
#[derive(Clone, Copy)]
pub struct UnitWarning {
    /// The packet of its first byte.
    pub packet: u64,
    pub cause: UnitWarningCause,
}
