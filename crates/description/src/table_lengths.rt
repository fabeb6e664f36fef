//! The sections of a table, and their greatest lengths.

ghost use Rattle.std.specs.Prelude.{◌≡◌, ◌<◌, ◌≤◌, length, filter};
ghost use Rattle.description_parts.specs.Tables.{is_scheduled, scheduled_programs, sdt_parts, kind_lengths};
ghost use Rattle.description_parts.specs.Tables.{section_lengths};
ghost use Rattle.description_parts.specs.Tables.{table_count, section_count, greatest_length, round_packets};

use crate::description::Description;
use arrayvec::ArrayVec;
use description_parts::section_lengths::packets_of_sections;
use description_parts::table_kind::is_scheduled;
use description_parts::{ProgramDescription, TableKind, laws};

// Returns how many programs the EIT has: all, or those that have an event.
fn count_scheduled(all: bool, programs: &[ProgramDescription]) -> usize
    ensures value { result ≡ length (filter (is_scheduled all) programs.now) }
    ensures bound { result ≤ length programs.now }
{
    let mut count = 0;
    for program in programs {
        if is_scheduled(all, program) {
            count += 1;
        }
    }
    count
}

impl Description {
    /// Returns the greatest length of each section of a table over all moments, in bytes; none if there is no
    /// such table.
    pub fn section_lengths(&self, table: usize) -> ArrayVec<u16, 128>
        ensures { result.items ≡ section_lengths self.now table }
    {
        self.keeps_ranges();
        self.contents.section_lengths(table)
    }

    /// Returns the greatest length of a section of a table over all moments, in bytes.
    pub fn greatest(&self, table: usize, section: usize) -> usize
        requires table { table < table_count self.now }
        requires section { section < section_count self.now table }
        ensures { result ≡ greatest_length self.now table section }
    {
        self.section_lengths(table)[section] as usize
    }

    /// Returns the packets of a round of all sections of a table.
    pub fn round_packets(&self, table: usize) -> usize
        requires { table < table_count self.now }
        ensures { result ≡ round_packets self.now table }
    {
        packets_of_sections(self.section_lengths(table).as_slice())
    }

    /// Returns the number of sections of a table. It makes no list of their lengths, except for the NIT and the SDT.
    pub fn sections(&self, table: usize) -> usize
        requires { table < table_count self.now }
        ensures { result ≡ section_count self.now table }
    {
        match self.kind(table) {
            None => 0,
            Some(kind) => self.kind_sections(kind),
        }
    }

    fn kind_sections(&self, kind: TableKind) -> usize
        ensures { result ≡ length (kind_lengths self.now kind) }
    {
        match kind {
            TableKind::Pat | TableKind::Tdt => 1,
            TableKind::Pmt(place) => self.map_sections(place),
            TableKind::Nit => self.network_sections(),
            TableKind::Sdt => self.service_sections(),
            TableKind::Eit => self.event_sections(),
            TableKind::Private(place) => self.private_sections(place),
        }
    }

    pub(crate) fn map_sections(&self, place: usize) -> usize
        ensures { result ≡ length (kind_lengths self.now (TableKind.Pmt place)) }
    {
        match self.programs().get(place) {
            None => 0,
            Some(_) => 1,
        }
    }

    pub(crate) fn network_sections(&self) -> usize
        ensures value { result ≡ length (kind_lengths self.now TableKind.Nit) }
        ensures most { result ≤ 128 }
    {
        self.keeps_ranges();
        self.contents.kind_lengths(TableKind::Nit).len()
    }

    pub(crate) fn service_sections(&self) -> usize
        ensures value { result ≡ length (kind_lengths self.now TableKind.Sdt) }
        ensures parts { result ≡ length (sdt_parts self.now) }
        ensures some { 1 ≤ result }
        ensures most { result ≤ 64 }
    {
        self.keeps_ranges();
        laws::sdt_parts();
        self.contents.kind_lengths(TableKind::Sdt).len()
    }

    /// Returns how many programs the EIT has.
    pub(crate) fn scheduled_count(&self) -> usize
        ensures value { result ≡ length (scheduled_programs self.now) }
        ensures bound { result ≤ 64 }
    {
        count_scheduled(self.has_eit(), self.programs())
    }

    fn event_sections(&self) -> usize
        ensures { result ≡ length (kind_lengths self.now TableKind.Eit) }
    {
        2 * self.scheduled_count()
    }

    fn private_sections(&self, place: usize) -> usize
        ensures { result ≡ length (kind_lengths self.now (TableKind.Private place)) }
    {
        match self.private_tables().get(place) {
            None => 0,
            Some(table) => table.sections().len(),
        }
    }
}
