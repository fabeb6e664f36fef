//! The adaptation field (ISO/IEC 13818-1, 2.4.3.4).
ghost use Rattle.std.specs.Prelude.{◌≡◌};

use clock27::Pcr;

/// The fields of a clock reference as a packet carries them: program_clock_reference_base, 33 bits in units of 90 kHz,
/// and program_clock_reference_extension, 9 bits in ticks of 27 MHz. A clock's own `Pcr` is made into one by `from`.
#[derive(Clone, Copy, Debug, PartialEq, Eq)]
pub struct ClockReference {
    pub base: u64,
    pub extension: u16,
}

impl From<Pcr> for ClockReference {
    ghost use Rattle.ts_packet.specs.Views.{reference_view};

    ghost from_gives = { λ pcr reference. reference_view reference ≡ pcr };

    fn from(pcr: Pcr) -> ClockReference {
        let base = pcr.base();
        let extension = pcr.extension();
        ClockReference { base, extension }
    }
}

/// An adaptation field.
#[derive(Clone, Copy, Debug)]
pub enum Adaptation<'a> {
    /// A field of length 0: the length byte alone, without flags.
    Empty,
    /// One with flags.
    Flagged(AdaptationField<'a>),
}

/// The flags of an adaptation field and the parts that they announce: a part's flag is set exactly if the part is
/// present.
#[derive(Clone, Copy, Debug)]
pub struct AdaptationField<'a> {
    /// discontinuity_indicator.
    pub discontinuity_indicator: bool,
    /// random_access_indicator.
    pub random_access_indicator: bool,
    /// elementary_stream_priority_indicator.
    pub elementary_stream_priority_indicator: bool,
    /// Program clock reference.
    pub pcr: Option<ClockReference>,
    /// Original program clock reference.
    pub opcr: Option<ClockReference>,
    /// splice_countdown, in packets.
    pub splice_countdown: Option<i8>,
    /// The bytes of transport_private_data, without their length.
    pub private_data: Option<&'a [u8]>,
    /// The bytes of adaptation_field_extension, without their length.
    pub extension: Option<&'a [u8]>,
    /// stuffing_byte: the rest of the field, 0xFF in what this crate writes.
    pub stuffing: &'a [u8],
}
