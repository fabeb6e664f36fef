//! The program association table (ISO/IEC 13818-1, 2.4.4.3): which PID carries the PMT of each
//! program.

mod program_loop;
mod programs;

ghost use Rattle.std.specs.Prelude.{◌≡◌, ◌+◌, ◌*◌, ◌<◌, ◌≤◌, ◌++◌, ◌↔◌, length, IsOk, OnOk, IfOk, OnErr, IfErr, Ok};
ghost use Rattle.std.specs.Prelude.{Err};
ghost use Rattle.arrayvec.specs.ArrayVec.{array_vec_len};
ghost use Rattle.bit_fields.specs.Fields.{IsBytes};
ghost use Rattle.bit_fields.specs.Reading.{Gives};
ghost use Rattle.psi_tables.specs.declared.writing.TheConstants.{GREATEST_TABLE_LENGTH};
ghost use Rattle.psi_tables.specs.Views.{section_view};
ghost use Rattle.psi_tables.specs.Encoding.{section_bytes};
ghost use Rattle.psi_tables.specs.ProgramAssociation.{PatView, IsPat, programs_bytes, programs_of, pat_at, pat_header};
ghost use Rattle.psi_tables.specs.ProgramAssociation.{pat_section, pat_view};

use crate::error::{SectionError, WriteError};
use crate::section::{LongHeader, Section, SectionHeader};
use crate::table::table_header_at;
use crate::writing::{GREATEST_TABLE_LENGTH, begin_section, end_section, to_vec};
use arrayvec::ArrayVec;
use bit_fields::append;
pub use program_loop::ProgramLoop;
pub use programs::{Program, Programs};
use std::alloc::Allocator;

/// The table_id of a program association section.
pub const PAT_TABLE_ID: u8 = 0x00;

/// A program association section.
#[derive(Clone, Copy)]
pub struct Pat<'a> {
    /// table_id_extension is transport_stream_id.
    pub header: LongHeader,
    pub programs: Programs<'a>,
}

impl<'a> Pat<'a> {
    /// Reads a section as a PAT.
    ///
    /// Refusals: `Syntax` for another table_id or the short form; `Length` for a section_length over
    /// 1,021; `Body` if the section ends within an entry. Reserved bits and the bit after
    /// section_syntax_indicator are not looked at.
    pub fn read(section: &Section<'a>) -> Result<Pat<'a>, SectionError>
        // The section encodes this PAT.
        ensures found { IfOk result (λ pat. IsPat (section_view section.now) (pat_view pat)) }

        // Any PAT that the section encodes is returned.
        ensures only { (p : PatView) → IsPat (section_view section.now) p → Gives pat_view result (Ok p) }

        // Which refusal it is.
        ensures exact { Gives pat_view result (pat_at (section_view section.now)) }
    {
        Pat::of_parts(section.header, section.body)
    }

    #[tactic(auto, unfolding(crate::specs::ProgramAssociation::pat_at))]
    fn of_parts(header: SectionHeader, body: &'a [u8]) -> Result<Pat<'a>, SectionError>
        ensures exact { Gives pat_view result (pat_at (record { header = header; body = body.now })) }
        ensures bytes { IsBytes body.now }
    {
        let header = table_header_at(
            PAT_TABLE_ID,
            GREATEST_TABLE_LENGTH,
            &Section { header, body },
        )?;
        if body.len() % 4 == 0 {
            Ok(Pat {
                header,
                programs: Programs::over(body),
            })
        } else {
            Err(SectionError::Body)
        }
    }
}

impl Pat<'_> {
    /// Leaves exactly the section in `out`, or, if section_length would be over 1,021 (`TooLong`),
    /// `out` as it was. It takes no memory.
    #[tactic(auto, unfolding(crate::specs::Encoding::section_bytes, crate::specs::ProgramAssociation::pat_section, crate::specs::ProgramAssociation::pat_header))]
    pub fn write_to(&self, out: &mut ArrayVec<u8, 4096>) -> Result<(), SectionError>
        requires { self.now.header.version_number < 32 }
        ensures variant { IsOk result ↔ (9 + 4 * length (programs_of self.now.programs) ≤ GREATEST_TABLE_LENGTH) }
        ensures ok { OnOk result (out.new.items ≡ section_bytes (pat_section (pat_view self.now))) }
        ensures too_long { IfErr result (λ e. e ≡ SectionError.TooLong) }
        ensures unchanged { OnErr result (out.new ≡ out.old) }
    {
        let count = self.programs.len();
        if count > (GREATEST_TABLE_LENGTH - 9) / 4 {
            return Err(SectionError::TooLong);
        }
        let header = pat_header(self.header);
        begin_section(out, header, 4 * count);
        append_programs(out, self.programs);
        end_section(out, header);
        Ok(())
    }

    /// Returns the bytes of the section in a vector of their own.
    pub fn write<A: Allocator>(&self, alloc: A) -> Result<Vec<u8, A>, WriteError>
        requires { self.now.header.version_number < 32 }
        ensures ok { IfOk result (λ bytes. bytes.items ≡ section_bytes (pat_section (pat_view self.now))) }
        ensures too_long { GREATEST_TABLE_LENGTH < 9 + 4 * length (programs_of self.now.programs)
            → result ≡ Err (WriteError.Refused SectionError.TooLong) }
        ensures memory { 9 + 4 * length (programs_of self.now.programs) ≤ GREATEST_TABLE_LENGTH
            → IfErr result (λ e. e ≡ WriteError.Memory) }
    {
        let mut bytes = ArrayVec::new();
        self.write_to(&mut bytes)?;
        to_vec(alloc, bytes.as_slice())
    }
}

#[tactic(auto, unfolding(crate::specs::ProgramAssociation::pat_header))]
fn pat_header(header: LongHeader) -> SectionHeader
    ensures { result ≡ pat_header header }
{
    SectionHeader {
        table_id: PAT_TABLE_ID,
        private_indicator: false,
        long: Some(header),
    }
}

#[tactic(auto, unfolding(crate::specs::ProgramAssociation::programs_bytes))]
fn append_programs(out: &mut ArrayVec<u8, 4096>, programs: Programs<'_>)
    requires { array_vec_len out.old + 4 * length (programs_of programs) ≤ 4092 }
    ensures items { out.new.items ≡ out.old.items ++ programs_bytes (programs_of programs.entry) }
    ensures len { array_vec_len out.new ≡ array_vec_len out.old + 4 * length (programs_of programs.entry) }
{
    for program in programs {
        append(out, &program.bytes());
    }
}
