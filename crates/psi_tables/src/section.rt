//! The section: the unit that carries a table (ISO/IEC 13818-1, 2.4.4).

ghost use Rattle.std.specs.Prelude.{◌≡◌, ◌+◌, ◌<◌, ◌≤◌, length, true, false, IfOk};
ghost use Rattle.bit_fields.specs.Reading.{Gives};
ghost use Rattle.psi_tables.specs.declared.writing.TheConstants.{GREATEST_LENGTH};
ghost use Rattle.psi_tables.specs.Views.{section_view, sized_view};
ghost use Rattle.psi_tables.specs.Reading.{section_start_at, is_bad_length, long_header_of, long_section, whole_at};
ghost use Rattle.psi_tables.specs.Reading.{sized_at, section_at};

use crate::crc::check_word;
use crate::error::{SectionError, WriteError};
use crate::writing::{GREATEST_LENGTH, begin_section, end_section, to_vec};
use arrayvec::ArrayVec;
use bit_fields::append;
use std::alloc::Allocator;

/// The fields of the long form, section_syntax_indicator 1, after section_length.
#[derive(Clone, Copy, PartialEq, Eq)]
pub struct LongHeader {
    /// Distinguishes tables of one table_id: transport_stream_id, program_number, service_id ..
    pub table_id_extension: u16,
    /// 5 bits.
    pub version_number: u8,
    /// Whether the section is in force now, or will be next.
    pub current_next: bool,
    pub section_number: u8,
    pub last_section_number: u8,
}

impl LongHeader {
    /// Returns the header of a table that is one section and in force now.
    pub fn single(table_id_extension: u16, version_number: u8) -> LongHeader
        ensures extension { result.table_id_extension ≡ table_id_extension }
        ensures version { result.version_number ≡ version_number }
        ensures current { result.current_next ≡ true }
        ensures section { result.section_number ≡ 0 }
        ensures last { result.last_section_number ≡ 0 }
    {
        LongHeader {
            table_id_extension,
            version_number,
            current_next: true,
            section_number: 0,
            last_section_number: 0,
        }
    }
}

/// The fields of a section except its length, which is the body's length.
#[derive(Clone, Copy, PartialEq, Eq)]
pub struct SectionHeader {
    pub table_id: u8,
    /// The bit after section_syntax_indicator: 0 in PAT and PMT, 1 in the tables of EN 300 468.
    pub private_indicator: bool,
    /// The fields of the long form; none in the short form.
    pub long: Option<LongHeader>,
}

/// A section. Its body is a slice of the bytes that were read, or of the bytes to write: all bytes
/// after the header and, in the long form, before CRC_32.
#[derive(Clone, Copy)]
pub struct Section<'a> {
    pub header: SectionHeader,
    pub body: &'a [u8],
}

/// The first three bytes of a section.
#[derive(Clone, Copy)]
struct SectionStart {
    table_id: u8,
    is_long: bool,
    private_indicator: bool,
    section_length: usize,
}

impl<'a> Section<'a> {
    ghost use Rattle.std.specs.Prelude.{◌≡◌, ◌++◌, ◌↔◌, ℕ, List, take, length, IsOk, IfOk, OnOk, IfErr, OnErr, Ok, Err};
    ghost use Rattle.psi_tables.specs.Views.{SectionView};
    ghost use Rattle.psi_tables.specs.Syntax.{IsSection};
    ghost use Rattle.psi_tables.specs.Encoding.{HeaderFits, section_length, section_bytes};

    /// Reads the section at the front of `bytes`, and says how many bytes it takes.
    ///
    /// Refusals: `Short` for fewer than 3 bytes, or fewer than section_length names; `Length`, as soon
    /// as 3 bytes are there, for a section_length over 4,093 or below 9 in the long form; `CheckWord`
    /// for a wrong check word, in the long form. Reserved bits are not looked at.
    pub fn read(bytes: &'a [u8]) -> Result<(Section<'a>, usize), SectionError>
        // The bytes encode this section.
        ensures found { IfOk result (λ p. IsSection (take p.1 bytes.now) (section_view p.0)) }
        ensures size { IfOk result (λ p. p.1 ≤ length bytes.now) }

        // A section that was read can be written.
        ensures fits { IfOk result (λ p. HeaderFits p.0.header) }

        // What the bytes say is read.
        ensures only { (section rest : List ℕ) (s : SectionView) → bytes.now ≡ section ++ rest → IsSection section s
            → Gives sized_view result (Ok (s, length section)) }

        // Which refusal it is.
        ensures exact { Gives sized_view result (section_at bytes.now) }
    {
        section_at(bytes)
    }

    /// Leaves exactly the bytes of the section in `out`, or, if section_length would be over 4,093
    /// (`TooLong`), `out` as it was. It takes no memory.
    #[tactic(auto, unfolding(crate::specs::Encoding::section_bytes))]
    pub fn write_to(&self, out: &mut ArrayVec<u8, 4096>) -> Result<(), SectionError>
        requires { HeaderFits self.now.header }
        ensures variant { IsOk result ↔ (section_length self.now.header.long (length self.now.body.now)
            ≤ GREATEST_LENGTH) }
        ensures ok { OnOk result (out.new.items ≡ section_bytes (section_view self.now)) }
        ensures too_long { IfErr result (λ e. e ≡ SectionError.TooLong) }
        ensures unchanged { OnErr result (out.new ≡ out.old) }
    {
        let most = if self.header.long.is_some() {
            GREATEST_LENGTH - 9
        } else {
            GREATEST_LENGTH
        };
        if self.body.len() > most {
            return Err(SectionError::TooLong);
        }
        begin_section(out, self.header, self.body.len());
        append(out, self.body);
        end_section(out, self.header);
        Ok(())
    }

    /// Returns the bytes of the section in a vector of their own.
    pub fn write<A: Allocator>(&self, alloc: A) -> Result<Vec<u8, A>, WriteError>
        requires { HeaderFits self.now.header }
        ensures ok { IfOk result (λ bytes. bytes.items ≡ section_bytes (section_view self.now)) }
        ensures too_long { GREATEST_LENGTH < section_length self.now.header.long (length self.now.body.now)
            → result ≡ Err (WriteError.Refused SectionError.TooLong) }
        ensures memory { section_length self.now.header.long (length self.now.body.now) ≤ GREATEST_LENGTH
            → IfErr result (λ e. e ≡ WriteError.Memory) }
    {
        let mut bytes = ArrayVec::new();
        self.write_to(&mut bytes)?;
        to_vec(alloc, bytes.as_slice())
    }
}

#[tactic(auto, unfolding(crate::specs::Reading::section_at))]
fn section_at(bytes: &[u8]) -> Result<(Section<'_>, usize), SectionError>
    ensures { Gives sized_view result (section_at bytes.now) }
{
    let start = section_start_at(bytes)?;
    sized_at(start, bytes)
}

#[tactic(auto, unfolding(crate::specs::Reading::section_start_at))]
fn section_start_at(bytes: &[u8]) -> Result<SectionStart, SectionError>
    ensures reads { result ≡ section_start_at bytes.now }
    ensures twelve_bits { IfOk result (λ start. start.section_length < 4096) }
{
    match bytes {
        [table_id, high, low, ..] => Ok(SectionStart {
            table_id: *table_id,
            is_long: *high >> 7 & 1 == 1,
            private_indicator: *high >> 6 & 1 == 1,
            section_length: u16::from_be_bytes([*high & 0x0f, *low]) as usize,
        }),
        _ => Err(SectionError::Short),
    }
}

#[tactic(auto, unfolding(crate::specs::Reading::is_bad_length))]
fn is_bad_length(is_long: bool, section_length: usize) -> bool
    ensures tests { result ≡ is_bad_length is_long section_length }
    ensures enough { result ≡ false → is_long ≡ true → 9 ≤ section_length }
{
    if section_length > GREATEST_LENGTH {
        true
    } else if is_long {
        section_length < 9
    } else {
        false
    }
}

#[tactic(auto, unfolding(crate::specs::Reading::sized_at))]
fn sized_at(start: SectionStart, bytes: &[u8]) -> Result<(Section<'_>, usize), SectionError>
    requires { start.section_length < 4096 }
    ensures { Gives sized_view result (sized_at start bytes.now) }
{
    if is_bad_length(start.is_long, start.section_length) {
        return Err(SectionError::Length);
    }
    let size = 3 + start.section_length;
    if bytes.len() < size {
        return Err(SectionError::Short);
    }
    let (whole, _after) = bytes.split_at(size);
    let section = whole_at(start, whole)?;
    Ok((section, size))
}

#[tactic(auto, unfolding(crate::specs::Reading::whole_at, crate::specs::Reading::short_section))]
fn whole_at(start: SectionStart, bytes: &[u8]) -> Result<Section<'_>, SectionError>
    requires front { 3 ≤ length bytes.now }
    requires long_form { start.is_long ≡ true → 12 ≤ length bytes.now }
    ensures { Gives section_view result (whole_at start bytes.now) }
{
    let (_front, rest) = bytes.split_at(3);
    if start.is_long {
        if check_word(bytes) == 0 {
            Ok(long_section(start, rest))
        } else {
            Err(SectionError::CheckWord)
        }
    } else {
        Ok(Section {
            header: SectionHeader {
                table_id: start.table_id,
                private_indicator: start.private_indicator,
                long: None,
            },
            body: rest,
        })
    }
}

#[tactic(auto, unfolding(crate::specs::Reading::long_section))]
fn long_section(start: SectionStart, rest: &[u8]) -> Section<'_>
    requires { 9 ≤ length rest.now }
    ensures { section_view result ≡ long_section start rest.now }
{
    let size = rest.len() - 9;
    let (header, after) = rest.split_at(5);
    let (body, _check_word) = after.split_at(size);
    Section {
        header: SectionHeader {
            table_id: start.table_id,
            private_indicator: start.private_indicator,
            long: Some(long_header_of(header)),
        },
        body,
    }
}

#[tactic(auto, unfolding(crate::specs::Reading::long_header_of))]
fn long_header_of(bytes: &[u8]) -> LongHeader
    requires { length bytes.now ≡ 5 }
    ensures { result ≡ long_header_of bytes.now }
{
    LongHeader {
        table_id_extension: u16::from_be_bytes([bytes[0], bytes[1]]),
        version_number: bytes[2] >> 1 & 0x1f,
        current_next: bytes[2] & 1 == 1,
        section_number: bytes[3],
        last_section_number: bytes[4],
    }
}
