//! The marks that the packets of a unit carry in addition to its stamps (ISO/IEC 13818-1, 2.4.3.6 and 2.4.3.7).

ghost use Rattle.std.specs.Prelude.{◌≡◌, ◌≤◌, ◌<◌, ◌+◌, ◌*◌, length};
ghost use Rattle.bit_fields.specs.Fields.{bit};
ghost use Rattle.pes_packet.specs.Marks.{flags_in, flag_bits, field_size, extension_size, marks_size};

/// The four flags in the lowest bits of the first flag byte of a PES header.
#[derive(Clone, Copy, Debug, PartialEq, Eq)]
pub struct PesFlags {
    /// PES_priority.
    pub priority: bool,
    /// data_alignment_indicator: the unit begins right after the header.
    pub aligned: bool,
    /// copyright.
    pub copyright: bool,
    /// original_or_copy: the unit is an original.
    pub original: bool,
}

impl PesFlags {
    /// None of the flags.
    pub const NONE: PesFlags = PesFlags {
        priority: false,
        aligned: false,
        copyright: false,
        original: false,
    };

    /// Reads the flags in the lowest four bits of a byte.
    pub fn from_bits(byte: u8) -> PesFlags
        ensures { result ≡ flags_in byte }
    {
        PesFlags {
            priority: byte >> 3 & 1 == 1,
            aligned: byte >> 2 & 1 == 1,
            copyright: byte >> 1 & 1 == 1,
            original: byte & 1 == 1,
        }
    }

    /// Gives the flags as the number that their four bits make.
    pub fn bits(self) -> u8
        ensures value { result ≡ flag_bits self }
        ensures below { result < 16 }
    {
        bit(self.priority) * 8
            + bit(self.aligned) * 4
            + bit(self.copyright) * 2
            + bit(self.original)
    }
}

/// The marks that the packets of a unit carry in addition to its stamps.
#[derive(Clone, Copy, Debug, PartialEq, Eq)]
pub struct Marks {
    /// random_access_indicator: a decoder may begin with the unit (2.4.3.5).
    pub random_access: bool,
    /// The flags of its PES header.
    pub flags: PesFlags,
    /// Whether its PES header has 45 bytes, stuffed after the stamps, as EN 300 472 and EN 301 775 want it.
    pub long: bool,
    /// PES_private_data of its PES header, as the AD_descriptor of an audio description (TS 101 154, annex E).
    pub private_data: Option<[u8; 16]>,
}

impl Marks {
    /// No marks: the stamps alone.
    pub const NONE: Marks = Marks {
        random_access: false,
        flags: PesFlags::NONE,
        long: false,
        private_data: None,
    };

    /// Gives the number of bytes that the marks take beyond the 19 of the greatest header without them.
    pub fn size(self) -> usize
        ensures value { result ≡ marks_size self }
        ensures most { result ≤ 28 }
    {
        let field = field_size(self.random_access);
        if self.long {
            26 + field
        } else {
            self.extension_size() + field
        }
    }

    /// Gives the number of bytes of the PES extension, which has PES_private_data alone.
    pub(crate) fn extension_size(self) -> usize
        ensures value { result ≡ extension_size self }
        ensures most { result ≤ 17 }
    {
        if self.private_data.is_some() { 17 } else { 0 }
    }
}

/// Gives the number of bytes in front of a PES packet: of an adaptation field with the random_access_indicator.
pub fn field_size(random_access: bool) -> usize
    ensures value { result ≡ field_size random_access }
    ensures most { result ≤ 2 }
{
    if random_access { 2 } else { 0 }
}

/// Gives a flag as a field of one bit.
pub(crate) fn bit(flag: bool) -> u8
    ensures value { result ≡ bit flag }
    ensures below { result ≤ 1 }
{
    if flag { 1 } else { 0 }
}
