//! The network information table (EN 300 468, 5.2.1): the transport streams of the network.

ghost use Rattle.std.specs.Prelude.{◌≡◌, ◌+◌, ◌<◌, ◌≤◌, ◌↔◌, ◌++◌, IsTrue, length, IsOk, OnOk, IfOk, OnErr, IfErr, Ok};
ghost use Rattle.bit_fields.specs.Fields.{IsBytes};
ghost use Rattle.bit_fields.specs.Reading.{Gives};
ghost use Rattle.psi_tables.specs.declared.writing.TheConstants.{GREATEST_TABLE_LENGTH};
ghost use Rattle.psi_tables.specs.Views.{section_view};
ghost use Rattle.psi_tables.specs.Loops.{entry_at};
ghost use Rattle.arrayvec.specs.ArrayVec.{array_vec_len};
ghost use Rattle.psi_tables.specs.Encoding.{section_bytes};
ghost use Rattle.dvb_tables.specs.TransportStreams.{transport_streams_of, transport_streams_bytes};
ghost use Rattle.dvb_tables.specs.NetworkInformation.{NitView, IsNit, nit_view, nit_at, nit_after, to_the_end};
ghost use Rattle.dvb_tables.specs.NetworkInformation.{loop_length_bytes, nit_body, nit_section};

use crate::transport_stream::TransportStreams;
use arrayvec::ArrayVec;
use bit_fields::append;
use psi_tables::{
    GREATEST_TABLE_LENGTH, LongHeader, Section, SectionError, SectionHeader, WriteError,
    begin_section, end_section, entry_at, table_header_at, to_vec,
};
use std::alloc::Allocator;

/// The table_id of a network information section of the actual network.
pub const NIT_TABLE_ID: u8 = 0x40;

/// A network information section of the actual network.
#[derive(Clone, Copy)]
pub struct Nit<'a> {
    /// table_id_extension is network_id.
    pub header: LongHeader,
    /// The bytes of the network's descriptors.
    pub network_descriptors: &'a [u8],
    pub transport_streams: TransportStreams<'a>,
}

impl<'a> Nit<'a> {
    /// Reads a section as a NIT.
    ///
    /// Refusals: `Syntax` for another table_id or the short form; `Length` for a section_length over
    /// 1,021; `Body` if network_descriptors_length passes the end, transport_stream_loop_length does
    /// not end the section, or the loop ends within a transport stream. Descriptors are kept as bytes,
    /// whole or not; reserved bits and the bit after section_syntax_indicator are not looked at.
    pub fn read(section: &Section<'a>) -> Result<Nit<'a>, SectionError>
        // The section encodes this NIT.
        ensures found { IfOk result (λ nit. IsNit (section_view section.now) (nit_view nit)) }

        // Any NIT that the section encodes is returned.
        ensures only { (t : NitView) → IsNit (section_view section.now) t → Gives nit_view result (Ok t) }

        // Which refusal it is.
        ensures exact { Gives nit_view result (nit_at (section_view section.now)) }
    {
        Nit::of_parts(section.header, section.body)
    }

    #[tactic(auto, unfolding(crate::specs::NetworkInformation::nit_at))]
    fn of_parts(header: SectionHeader, body: &'a [u8]) -> Result<Nit<'a>, SectionError>
        ensures exact { Gives nit_view result (nit_at (record { header = header; body = body.now })) }
        ensures bytes { IsBytes body.now }
    {
        let header = table_header_at(
            NIT_TABLE_ID,
            GREATEST_TABLE_LENGTH,
            &Section { header, body },
        )?;
        Nit::of_body(header, body)
    }

    #[tactic(auto, unfolding(crate::specs::NetworkInformation::nit_after))]
    fn of_body(header: LongHeader, body: &'a [u8]) -> Result<Nit<'a>, SectionError>
        ensures { Gives nit_view result (nit_after header (entry_at 2 body.now)) }
    {
        match entry_at(2, body) {
            None => Err(SectionError::Body),
            Some((network, rest)) => {
                let streams = to_the_end(rest)?;
                let transport_streams = TransportStreams::read(streams)?;
                Ok(Nit {
                    header,
                    network_descriptors: network.descriptors,
                    transport_streams,
                })
            }
        }
    }
}

impl Nit<'_> {
    /// Leaves exactly the section in `out`, or, if section_length would be over 1,021 (`TooLong`),
    /// `out` as it was. Reserved bits are written 1. It takes no memory.
    #[tactic(auto, using(crate::proofs::BodyLengths::nit_body_length), unfolding(psi_tables::specs::Encoding::section_bytes, crate::specs::NetworkInformation::nit_section))]
    pub fn write_to(&self, out: &mut ArrayVec<u8, 4096>) -> Result<(), SectionError>
        requires { self.now.header.version_number < 32 }
        ensures variant { IsOk result ↔ (9 + length (nit_body (nit_view self.now)) ≤ GREATEST_TABLE_LENGTH) }
        ensures ok { OnOk result (out.new.items ≡ section_bytes (nit_section (nit_view self.now))) }
        ensures too_long { IfErr result (λ e. e ≡ SectionError.TooLong) }
        ensures unchanged { OnErr result (out.new ≡ out.old) }
    {
        let network = self.network_descriptors.len();
        let streams = self.transport_streams.byte_length();
        if is_too_long(network, streams) {
            return Err(SectionError::TooLong);
        }
        let header = SectionHeader {
            table_id: NIT_TABLE_ID,
            private_indicator: true,
            long: Some(self.header),
        };
        begin_section(out, header, 4 + network + streams);
        self.append_body_to(out);
        end_section(out, header);
        Ok(())
    }

    // Appends the body.
    #[tactic(auto, unfolding(crate::specs::NetworkInformation::nit_body))]
    fn append_body_to(&self, out: &mut ArrayVec<u8, 4096>)
        requires { array_vec_len out.old + (4 + length self.now.network_descriptors.now
            + length (transport_streams_bytes (transport_streams_of self.now.transport_streams))) ≤ 4096 }
        ensures items { out.new.items ≡ out.old.items ++ nit_body (nit_view self.now) }
        ensures len { array_vec_len out.new ≡ array_vec_len out.old
            + (4 + length self.now.network_descriptors.now
            + length (transport_streams_bytes (transport_streams_of self.now.transport_streams))) }
    {
        append(out, &loop_length_bytes(self.network_descriptors.len()));
        append(out, self.network_descriptors);
        append(
            out,
            &loop_length_bytes(self.transport_streams.byte_length()),
        );
        self.transport_streams.append_all_to(out);
    }

    /// Returns the bytes of the section in a vector of their own.
    pub fn write<A: Allocator>(&self, alloc: A) -> Result<Vec<u8, A>, WriteError>
        requires { self.now.header.version_number < 32 }
        ensures ok { IfOk result (λ bytes. bytes.items ≡ section_bytes (nit_section (nit_view self.now))) }
        ensures too_long { GREATEST_TABLE_LENGTH < 9 + length (nit_body (nit_view self.now))
            → result ≡ Err (WriteError.Refused SectionError.TooLong) }
        ensures memory { 9 + length (nit_body (nit_view self.now)) ≤ GREATEST_TABLE_LENGTH
            → IfErr result (λ e. e ≡ WriteError.Memory) }
    {
        let mut bytes = ArrayVec::new();
        self.write_to(&mut bytes)?;
        to_vec(alloc, bytes.as_slice())
    }
}

// Returns whether descriptors and transport streams of these lengths pass section_length's greatest.
fn is_too_long(network: usize, streams: usize) -> bool
    ensures { IsTrue result ↔ (GREATEST_TABLE_LENGTH < 13 + network + streams) }
{
    network > GREATEST_TABLE_LENGTH - 13 || streams > GREATEST_TABLE_LENGTH - 13 - network
}

// Returns a number of bytes after four reserved bits.
#[tactic(auto, unfolding(crate::specs::NetworkInformation::loop_length_bytes))]
fn loop_length_bytes(count: usize) -> [u8; 2]
    requires { count < 4096 }
    ensures { result ≡ loop_length_bytes count }
{
    let [high, low] = (count as u16).to_be_bytes();
    [0xf0 + high, low]
}

// Returns the bytes that two bytes count, which have to be all that is left.
#[tactic(auto, unfolding(crate::specs::NetworkInformation::to_the_end))]
fn to_the_end(bytes: &[u8]) -> Result<&[u8], SectionError>
    ensures { Gives (λ s. s.now) result (to_the_end (entry_at 2 bytes.now)) }
{
    match entry_at(2, bytes) {
        None => Err(SectionError::Body),
        Some((counted, rest)) => {
            if rest.is_empty() {
                Ok(counted.descriptors)
            } else {
                Err(SectionError::Body)
            }
        }
    }
}
