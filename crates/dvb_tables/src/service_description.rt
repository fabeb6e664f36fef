//! The service description table (EN 300 468, 5.2.3): the services of the transport stream.

ghost use Rattle.std.specs.Prelude.{◌≡◌, ◌+◌, ◌<◌, ◌≤◌, ◌↔◌, ◌++◌, length, IsOk, OnOk, IfOk, OnErr, IfErr, Ok};
ghost use Rattle.bit_fields.specs.Fields.{IsBytes};
ghost use Rattle.bit_fields.specs.Reading.{Gives};
ghost use Rattle.psi_tables.specs.declared.writing.TheConstants.{GREATEST_TABLE_LENGTH};
ghost use Rattle.psi_tables.specs.Views.{section_view};
ghost use Rattle.arrayvec.specs.ArrayVec.{array_vec_len};
ghost use Rattle.psi_tables.specs.Encoding.{section_bytes};
ghost use Rattle.dvb_tables.specs.Services.{services_of, services_bytes};
ghost use Rattle.dvb_tables.specs.ServiceDescription.{SdtView, IsSdt, sdt_view, sdt_at, sdt_body_at, sdt_body};
ghost use Rattle.dvb_tables.specs.ServiceDescription.{sdt_section};

use crate::service::Services;
use arrayvec::ArrayVec;
use bit_fields::append;
use psi_tables::{
    GREATEST_TABLE_LENGTH, LongHeader, Section, SectionError, SectionHeader, WriteError,
    begin_section, end_section, table_header_at, to_vec,
};
use std::alloc::Allocator;

/// The table_id of a service description section of the actual transport stream.
pub const SDT_TABLE_ID: u8 = 0x42;

/// A service description section of the actual transport stream.
#[derive(Clone, Copy)]
pub struct Sdt<'a> {
    /// table_id_extension is transport_stream_id.
    pub header: LongHeader,
    pub original_network_id: u16,
    pub services: Services<'a>,
}

impl<'a> Sdt<'a> {
    /// Reads a section as an SDT.
    ///
    /// Refusals: `Syntax` for another table_id or the short form; `Length` for a section_length over
    /// 1,021; `Body` if the section ends before the loop or within a service. Descriptors are kept as
    /// bytes, whole or not; reserved bits and the bit after section_syntax_indicator are not looked at.
    pub fn read(section: &Section<'a>) -> Result<Sdt<'a>, SectionError>
        // The section encodes this SDT.
        ensures found { IfOk result (λ sdt. IsSdt (section_view section.now) (sdt_view sdt)) }

        // Any SDT that the section encodes is returned.
        ensures only { (t : SdtView) → IsSdt (section_view section.now) t → Gives sdt_view result (Ok t) }

        // Which refusal it is.
        ensures exact { Gives sdt_view result (sdt_at (section_view section.now)) }
    {
        Sdt::of_parts(section.header, section.body)
    }

    #[tactic(auto, unfolding(crate::specs::ServiceDescription::sdt_at))]
    fn of_parts(header: SectionHeader, body: &'a [u8]) -> Result<Sdt<'a>, SectionError>
        ensures exact { Gives sdt_view result (sdt_at (record { header = header; body = body.now })) }
        ensures bytes { IsBytes body.now }
    {
        let header = table_header_at(
            SDT_TABLE_ID,
            GREATEST_TABLE_LENGTH,
            &Section { header, body },
        )?;
        Sdt::of_body(header, body)
    }

    #[tactic(auto, unfolding(crate::specs::ServiceDescription::sdt_body_at, crate::specs::ServiceDescription::sdt_after))]
    fn of_body(header: LongHeader, body: &'a [u8]) -> Result<Sdt<'a>, SectionError>
        ensures { Gives sdt_view result (sdt_body_at header body.now) }
    {
        if body.len() < 3 {
            return Err(SectionError::Body);
        }
        let (front, rest) = body.split_at(3);
        let services = Services::read(rest)?;
        Ok(Sdt {
            header,
            original_network_id: u16::from_be_bytes([front[0], front[1]]),
            services,
        })
    }
}

impl Sdt<'_> {
    /// Leaves exactly the section in `out`, or, if section_length would be over 1,021 (`TooLong`),
    /// `out` as it was. Reserved bits are written 1. It takes no memory.
    #[tactic(auto, using(crate::proofs::BodyLengths::sdt_body_length), unfolding(psi_tables::specs::Encoding::section_bytes, crate::specs::ServiceDescription::sdt_section))]
    pub fn write_to(&self, out: &mut ArrayVec<u8, 4096>) -> Result<(), SectionError>
        requires { self.now.header.version_number < 32 }
        ensures variant { IsOk result ↔ (9 + length (sdt_body (sdt_view self.now)) ≤ GREATEST_TABLE_LENGTH) }
        ensures ok { OnOk result (out.new.items ≡ section_bytes (sdt_section (sdt_view self.now))) }
        ensures too_long { IfErr result (λ e. e ≡ SectionError.TooLong) }
        ensures unchanged { OnErr result (out.new ≡ out.old) }
    {
        let services = self.services.byte_length();
        if services > GREATEST_TABLE_LENGTH - 12 {
            return Err(SectionError::TooLong);
        }
        let header = SectionHeader {
            table_id: SDT_TABLE_ID,
            private_indicator: true,
            long: Some(self.header),
        };
        begin_section(out, header, 3 + services);
        self.append_body_to(out);
        end_section(out, header);
        Ok(())
    }

    // Appends the body.
    #[tactic(auto, unfolding(crate::specs::ServiceDescription::sdt_body))]
    fn append_body_to(&self, out: &mut ArrayVec<u8, 4096>)
        requires { array_vec_len out.old + (3 + length (services_bytes (services_of self.now.services))) ≤ 4096 }
        ensures items { out.new.items ≡ out.old.items ++ sdt_body (sdt_view self.now) }
        ensures len { array_vec_len out.new ≡ array_vec_len out.old
            + (3 + length (services_bytes (services_of self.now.services))) }
    {
        let [high, low] = self.original_network_id.to_be_bytes();
        append(out, &[high, low, 0xff]);
        self.services.append_all_to(out);
    }

    /// Returns the bytes of the section in a vector of their own.
    pub fn write<A: Allocator>(&self, alloc: A) -> Result<Vec<u8, A>, WriteError>
        requires { self.now.header.version_number < 32 }
        ensures ok { IfOk result (λ bytes. bytes.items ≡ section_bytes (sdt_section (sdt_view self.now))) }
        ensures too_long { GREATEST_TABLE_LENGTH < 9 + length (sdt_body (sdt_view self.now))
            → result ≡ Err (WriteError.Refused SectionError.TooLong) }
        ensures memory { 9 + length (sdt_body (sdt_view self.now)) ≤ GREATEST_TABLE_LENGTH
            → IfErr result (λ e. e ≡ WriteError.Memory) }
    {
        let mut bytes = ArrayVec::new();
        self.write_to(&mut bytes)?;
        to_vec(alloc, bytes.as_slice())
    }
}
