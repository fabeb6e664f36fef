//! The event information table of present and following events (EN 300 468, 5.2.4).

ghost use Rattle.std.specs.Prelude.{◌≡◌, ◌+◌, ◌++◌, ◌<◌, ◌≤◌, length, IsOk, OnOk, IfOk, IfErr, Ok};
ghost use Rattle.bit_fields.specs.Fields.{IsBytes};
ghost use Rattle.bit_fields.specs.Reading.{Gives};
ghost use Rattle.psi_tables.specs.Views.{section_view};
ghost use Rattle.arrayvec.specs.ArrayVec.{array_vec_len};
ghost use Rattle.psi_tables.specs.Encoding.{section_bytes};
ghost use Rattle.dvb_tables.specs.EventEntries.{events_of, events_bytes};
ghost use Rattle.dvb_tables.specs.EventInformation.{EitView, IsEit, eit_view, eit_at, eit_body_at, two_numbers};
ghost use Rattle.dvb_tables.specs.EventInformation.{eit_body, eit_section, event_loop_of};

use crate::event_entry::EventEntries;
use crate::event_loop::EventLoop;
use arrayvec::ArrayVec;
use bit_fields::append;
use psi_tables::{
    GREATEST_LENGTH, LongHeader, Section, SectionError, SectionHeader, WriteError, begin_section,
    end_section, table_header_at, to_vec,
};
use std::alloc::Allocator;

/// The table_id of an event information section of present and following events of the actual transport
/// stream.
pub const EIT_TABLE_ID: u8 = 0x4e;

/// One section of present and following events of the actual transport stream.
#[derive(Drop)]
pub struct EitPf {
    /// table_id_extension is service_id.
    pub header: LongHeader,
    pub transport_stream_id: u16,
    pub original_network_id: u16,
    pub segment_last_section_number: u8,
    pub last_table_id: u8,
    pub events: EventLoop,
}

impl EitPf {
    /// Reads a section as an EIT of present and following events.
    ///
    /// Refusals: `Syntax` for another table_id or the short form; `Length` for a section_length over
    /// 4,093; `Body` if the section ends before the loop or within an event. Times and descriptors are
    /// kept as bytes, digits or not, whole or not; the bit after section_syntax_indicator and the
    /// reserved bits are not looked at.
    pub fn read(section: &Section<'_>) -> Result<EitPf, SectionError>
        // The section encodes this EIT.
        ensures found { IfOk result (λ eit. IsEit (section_view section.now) (eit_view eit)) }

        // Any EIT that the section encodes is returned.
        ensures only { (t : EitView) → IsEit (section_view section.now) t → Gives eit_view result (Ok t) }

        // Which refusal it is.
        ensures exact { Gives eit_view result (eit_at (section_view section.now)) }
    {
        EitPf::of_parts(section.header, section.body)
    }

    #[tactic(auto, unfolding(crate::specs::EventInformation::eit_at))]
    fn of_parts(header: SectionHeader, body: &[u8]) -> Result<EitPf, SectionError>
        ensures exact { Gives eit_view result (eit_at (record { header = header; body = body.now })) }
        ensures bytes { IsBytes body.now }
    {
        let header = table_header_at(EIT_TABLE_ID, GREATEST_LENGTH, &Section { header, body })?;
        EitPf::of_body(header, body)
    }

    /// Returns the events, in order.
    pub fn events(&self) -> EventEntries<'_>
        ensures { events_of result ≡ event_loop_of self.now.events }
    {
        self.events.events()
    }

    /// Leaves exactly the section in `out`: it is never too long. It takes no memory.
    #[tactic(auto, unfolding(psi_tables::specs::Encoding::section_bytes, crate::specs::EventInformation::eit_section))]
    pub fn write_to(&self, out: &mut ArrayVec<u8, 4096>) -> Result<(), SectionError>
        requires { self.now.header.version_number < 32 }
        ensures succeeds { IsOk result }
        ensures ok { OnOk result (out.new.items ≡ section_bytes (eit_section (eit_view self.now))) }
    {
        let header = SectionHeader {
            table_id: EIT_TABLE_ID,
            private_indicator: true,
            long: Some(self.header),
        };
        begin_section(out, header, 6 + self.events.byte_length());
        self.append_body_to(out);
        end_section(out, header);
        Ok(())
    }

    /// Returns the bytes of the section in a vector of their own.
    pub fn write<A: Allocator>(&self, alloc: A) -> Result<Vec<u8, A>, WriteError>
        requires { self.now.header.version_number < 32 }
        ensures ok { IfOk result (λ bytes. bytes.items ≡ section_bytes (eit_section (eit_view self.now))) }
        ensures memory { IfErr result (λ e. e ≡ WriteError.Memory) }
    {
        let mut bytes = ArrayVec::new();
        self.write_to(&mut bytes)?;
        to_vec(alloc, bytes.as_slice())
    }

    // Appends the body.
    #[tactic(auto, unfolding(crate::specs::EventInformation::eit_body))]
    fn append_body_to(&self, out: &mut ArrayVec<u8, 4096>)
        requires { array_vec_len out.old + (6 + length (events_bytes (event_loop_of self.now.events))) ≤ 4096 }
        ensures items { out.new.items ≡ out.old.items ++ eit_body (eit_view self.now) }
        ensures len { array_vec_len out.new ≡ array_vec_len out.old
            + (6 + length (events_bytes (event_loop_of self.now.events))) }
    {
        append(
            out,
            &front(self.transport_stream_id, self.original_network_id),
        );
        append(out, &[self.segment_last_section_number, self.last_table_id]);
        self.events.append_all_to(out);
    }

    #[tactic(auto, unfolding(crate::specs::EventInformation::eit_body_at, crate::specs::EventInformation::eit_after))]
    fn of_body(header: LongHeader, body: &[u8]) -> Result<EitPf, SectionError>
        requires { length body.now ≤ 4084 }
        ensures { Gives eit_view result (eit_body_at header body.now) }
    {
        if body.len() < 6 {
            return Err(SectionError::Body);
        }
        let (front, rest) = body.split_at(6);
        let events = EventLoop::read(rest)?;
        Ok(EitPf {
            header,
            transport_stream_id: u16::from_be_bytes([front[0], front[1]]),
            original_network_id: u16::from_be_bytes([front[2], front[3]]),
            segment_last_section_number: front[4],
            last_table_id: front[5],
            events,
        })
    }
}

// Returns the identifiers before the events.
#[tactic(auto, unfolding(crate::specs::EventInformation::two_numbers))]
fn front(transport_stream_id: u16, original_network_id: u16) -> [u8; 4]
    ensures { result ≡ two_numbers transport_stream_id original_network_id }
{
    let [a, b] = transport_stream_id.to_be_bytes();
    let [c, d] = original_network_id.to_be_bytes();
    [a, b, c, d]
}
