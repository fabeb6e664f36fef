//! The program map table (ISO/IEC 13818-1, 2.4.4.8): the PCR PID and the streams of a program.

mod fields;
mod stream_loop;
mod streams;

ghost use Rattle.std.specs.Prelude.{◌≡◌, ◌+◌, ◌<◌, ◌≤◌, ◌++◌, ◌↔◌, length, MatchOption, IsOk, OnOk, IfOk, OnErr, IfErr};
ghost use Rattle.std.specs.Prelude.{Ok, Err};
ghost use Rattle.arrayvec.specs.ArrayVec.{array_vec_len};
ghost use Rattle.bit_fields.specs.Fields.{IsBytes};
ghost use Rattle.bit_fields.specs.Reading.{Gives};
ghost use Rattle.psi_tables.specs.declared.writing.TheConstants.{GREATEST_TABLE_LENGTH};
ghost use Rattle.psi_tables.specs.Views.{section_view};
ghost use Rattle.psi_tables.specs.Encoding.{section_bytes};
ghost use Rattle.psi_tables.specs.Loops.{entry_at};
ghost use Rattle.psi_tables.specs.ProgramMap.{PmtView, IsPmt, pmt_at, pmt_after, pmt_body, pmt_header, pmt_section};
ghost use Rattle.psi_tables.specs.ProgramMap.{pmt_view, streams_bytes, streams_of};

use crate::entries::entry_at;
use crate::error::{SectionError, WriteError};
use crate::pmt::fields::{info_length_bytes, pid_bytes};
use crate::section::{LongHeader, Section, SectionHeader};
use crate::table::table_header_at;
use crate::writing::{GREATEST_TABLE_LENGTH, begin_section, end_section, to_vec};
use arrayvec::ArrayVec;
use bit_fields::append;
use std::alloc::Allocator;
pub use stream_loop::StreamLoop;
pub use streams::{Stream, Streams};

/// The table_id of a program map section.
pub const PMT_TABLE_ID: u8 = 0x02;

/// A program map section.
#[derive(Clone, Copy)]
pub struct Pmt<'a> {
    /// table_id_extension is program_number.
    pub header: LongHeader,
    /// 13 bits; 0x1FFF if the program has no PCR.
    pub pcr_pid: u16,
    /// The bytes of the program's descriptors.
    pub program_info: &'a [u8],
    pub streams: Streams<'a>,
}

impl<'a> Pmt<'a> {
    /// Reads a section as a PMT.
    ///
    /// Refusals: `Syntax` for another table_id or the short form; `Length` for a section_length over
    /// 1,021; `Body` if program_info_length or an ES_info_length passes the end, or the section
    /// ends within an entry. Descriptors are kept as bytes, whole or not; reserved bits and the bit
    /// after section_syntax_indicator are not looked at.
    pub fn read(section: &Section<'a>) -> Result<Pmt<'a>, SectionError>
        // The section encodes this PMT.
        ensures found { IfOk result (λ pmt. IsPmt (section_view section.now) (pmt_view pmt)) }

        // Any PMT that the section encodes is returned.
        ensures only { (p : PmtView) → IsPmt (section_view section.now) p → Gives pmt_view result (Ok p) }

        // Which refusal it is.
        ensures exact { Gives pmt_view result (pmt_at (section_view section.now)) }
    {
        Pmt::of_parts(section.header, section.body)
    }

    #[tactic(auto, unfolding(crate::specs::ProgramMap::pmt_at))]
    fn of_parts(header: SectionHeader, body: &'a [u8]) -> Result<Pmt<'a>, SectionError>
        ensures exact { Gives pmt_view result (pmt_at (record { header = header; body = body.now })) }
        ensures bytes { IsBytes body.now }
    {
        let header = table_header_at(
            PMT_TABLE_ID,
            GREATEST_TABLE_LENGTH,
            &Section { header, body },
        )?;
        Pmt::after(header, body)
    }

    #[tactic(auto, unfolding(crate::specs::ProgramMap::pmt_after))]
    fn after(header: LongHeader, body: &'a [u8]) -> Result<Pmt<'a>, SectionError>
        ensures { Gives pmt_view result (pmt_after header (entry_at 4 body.now)) }
    {
        match entry_at(4, body) {
            None => Err(SectionError::Body),
            Some((front, rest)) => {
                let streams = Streams::read(rest)?;
                Ok(Pmt {
                    header,
                    pcr_pid: u16::from_be_bytes([front.head[0] & 0x1f, front.head[1]]),
                    program_info: front.descriptors,
                    streams,
                })
            }
        }
    }
}

impl Pmt<'_> {
    /// Leaves exactly the section in `out`, or, if section_length would be over 1,021 (`TooLong`),
    /// `out` as it was. It takes no memory.
    #[tactic(auto, unfolding(crate::specs::Encoding::section_bytes, crate::specs::ProgramMap::pmt_section, crate::specs::ProgramMap::pmt_header))]
    pub fn write_to(&self, out: &mut ArrayVec<u8, 4096>) -> Result<(), SectionError>
        requires version { self.now.header.version_number < 32 }
        requires pcr_pid { self.now.pcr_pid < 8192 }
        ensures variant { IsOk result ↔ (9 + length (pmt_body (pmt_view self.now)) ≤ GREATEST_TABLE_LENGTH) }
        ensures ok { OnOk result (out.new.items ≡ section_bytes (pmt_section (pmt_view self.now))) }
        ensures too_long { IfErr result (λ e. e ≡ SectionError.TooLong) }
        ensures unchanged { OnErr result (out.new ≡ out.old) }
    {
        match self.body_length() {
            None => Err(SectionError::TooLong),
            Some(length) => {
                let header = pmt_header(self.header);
                begin_section(out, header, length);
                self.append_body(out);
                end_section(out, header);
                Ok(())
            }
        }
    }

    /// Returns the bytes of the section in a vector of their own.
    pub fn write<A: Allocator>(&self, alloc: A) -> Result<Vec<u8, A>, WriteError>
        requires version { self.now.header.version_number < 32 }
        requires pcr_pid { self.now.pcr_pid < 8192 }
        ensures ok { IfOk result (λ bytes. bytes.items ≡ section_bytes (pmt_section (pmt_view self.now))) }
        ensures too_long { GREATEST_TABLE_LENGTH < 9 + length (pmt_body (pmt_view self.now))
            → result ≡ Err (WriteError.Refused SectionError.TooLong) }
        ensures memory { 9 + length (pmt_body (pmt_view self.now)) ≤ GREATEST_TABLE_LENGTH
            → IfErr result (λ e. e ≡ WriteError.Memory) }
    {
        let mut bytes = ArrayVec::new();
        self.write_to(&mut bytes)?;
        to_vec(alloc, bytes.as_slice())
    }

    /// Returns the number of bytes of the body, if it has room under a section_length of 1,021.
    #[tactic(auto, using(crate::proofs::StreamEncodings::length_pmt_body))]
    fn body_length(&self) -> Option<usize>
        ensures { MatchOption result (1012 < length (pmt_body (pmt_view self.now)))
            (λ n. (n ≡ length (pmt_body (pmt_view self.now))) × (n ≤ 1012)) }
    {
        let program_info = self.program_info.len();
        let streams = self.streams.byte_length();
        if program_info > 1008 {
            return None;
        }
        if streams > 1008 - program_info {
            return None;
        }
        Some(4 + program_info + streams)
    }

    #[tactic(auto, unfolding(crate::specs::ProgramMap::pmt_body))]
    fn append_body(&self, out: &mut ArrayVec<u8, 4096>)
        requires { array_vec_len out.old + length (pmt_body (pmt_view self.now)) ≤ 4096 }
        ensures items { out.new.items ≡ out.old.items ++ pmt_body (pmt_view self.now) }
        ensures len { array_vec_len out.new ≡ array_vec_len out.old + length (pmt_body (pmt_view self.now)) }
    {
        append(out, &pid_bytes(self.pcr_pid));
        append(out, &info_length_bytes(self.program_info.len()));
        append(out, self.program_info);
        append_streams(out, self.streams);
    }
}

#[tactic(auto, unfolding(crate::specs::ProgramMap::pmt_header))]
fn pmt_header(header: LongHeader) -> SectionHeader
    ensures { result ≡ pmt_header header }
{
    SectionHeader {
        table_id: PMT_TABLE_ID,
        private_indicator: false,
        long: Some(header),
    }
}

#[tactic(auto, unfolding(crate::specs::ProgramMap::streams_bytes))]
fn append_streams(out: &mut ArrayVec<u8, 4096>, streams: Streams<'_>)
    requires { array_vec_len out.old + length (streams_bytes (streams_of streams)) ≤ 4096 }
    ensures items { out.new.items ≡ out.old.items ++ streams_bytes (streams_of streams.entry) }
    ensures len { array_vec_len out.new ≡ array_vec_len out.old + length (streams_bytes (streams_of streams.entry)) }
{
    for stream in streams {
        stream.append_entry(out);
    }
}
