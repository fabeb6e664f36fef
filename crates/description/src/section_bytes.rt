//! The bytes of each section of each table at a moment.

ghost use Rattle.std.specs.Prelude.{◌≡◌, ◌<◌, ◌≤◌, None, length};
ghost use Rattle.arrayvec.specs.ArrayVec.{array_vec_len};
ghost use Rattle.description_parts.specs.Tables.{kind_lengths, table_count, section_count, greatest_length};
ghost use Rattle.description.specs.SectionBytes as bytes;
ghost use Rattle.description.specs.SubTables as spec;

use crate::description::Description;
use crate::sub_table::SubTable;
use arrayvec::ArrayVec;
use bit_fields::append;
use description_parts::TableKind;
use dvb_tables::{Tdt, utc_time};
use psi_tables::LongHeader;

/// Returns the header of a section of a table of several, by its number and the number of the last section.
pub(crate) fn part_header(extension: u16, version: u8, number: u8, last: u8) -> LongHeader
    ensures { result ≡ bytes.part_header extension version number last }
{
    LongHeader {
        table_id_extension: extension,
        version_number: version,
        current_next: true,
        section_number: number,
        last_section_number: last,
    }
}

// Writes the time and date section.
fn write_tdt(moment: u64, out: &mut ArrayVec<u8, 4096>)
    ensures { out.new.items ≡ bytes.tdt_bytes moment }
{
    let section = Tdt {
        utc_time: utc_time(moment),
    };
    match section.write_to(out) {
        Ok(()) => {}
        Err(_) => unreachable!(),
    }
}

impl Description {
    // Writes the map section of the program at a place.
    fn write_pmt_at(&self, place: usize, version: u8, out: &mut ArrayVec<u8, 4096>)
        requires { version < 32 }
        ensures { out.new.items ≡ spec.section_of self.now (SubTable.Map place) version 0 0 }
    {
        match self.programs().get(place) {
            None => out.clear(),
            Some(program) => self.write_pmt(program, version, out),
        }
    }

    fn write_nit_if_any(&self, version: u8, number: u8, out: &mut ArrayVec<u8, 4096>)
        requires { version < 32 }
        ensures { out.new.items ≡ spec.section_of self.now SubTable.Nit version number 0 }
    {
        match self.network() {
            None => out.clear(),
            Some(network) => self.write_nit_at(network, version, number, out),
        }
    }

    fn write_sdt_if_any(&self, version: u8, number: u8, out: &mut ArrayVec<u8, 4096>)
        requires { version < 32 }
        ensures { out.new.items ≡ spec.section_of self.now SubTable.Sdt version number 0 }
    {
        if self.has_sdt() {
            self.write_sdt_at(version, number, out);
        } else {
            out.clear();
        }
    }

    fn write_eit_at(
        &self,
        place: usize,
        version: u8,
        number: u8,
        moment: u64,
        out: &mut ArrayVec<u8, 4096>,
    )
        requires { version < 32 }
        ensures { out.new.items ≡ spec.section_of self.now (SubTable.Events place) version number moment }
    {
        match self.programs().get(place) {
            None => out.clear(),
            Some(program) => self.write_eit(program, version, number, moment, out),
        }
    }

    /// Writes the section of a number of a sub-table, as it is at a moment, under a version.
    pub(crate) fn write_section(
        &self,
        sub_table: SubTable,
        version: u8,
        number: u8,
        moment: u64,
        out: &mut ArrayVec<u8, 4096>,
    )
        requires { version < 32 }
        ensures { out.new.items ≡ spec.section_of self.now sub_table version number moment }
    {
        match sub_table {
            SubTable::Pat => self.write_pat(version, out),
            SubTable::Nit => self.write_nit_if_any(version, number, out),
            SubTable::Sdt => self.write_sdt_if_any(version, number, out),
            SubTable::Map(place) => self.write_pmt_at(place, version, out),
            SubTable::Events(place) => self.write_eit_at(place, version, number, moment, out),
        }
    }

    // Writes a section of the private table at a place.
    fn write_private(&self, place: usize, section: usize, out: &mut ArrayVec<u8, 4096>)
        ensures { out.new.items ≡ bytes.kind_bytes self.now (TableKind.Private place) section 0 }
    {
        out.clear();
        if let Some(table) = self.private_tables().get(place) {
            if let Some(bytes) = table.sections().get(section) {
                append(out, bytes.as_bytes());
            }
        }
    }

    // Writes a section that is of no sub-table: it has no version of the description's.
    fn write_unnumbered(
        &self,
        kind: TableKind,
        section: usize,
        moment: u64,
        out: &mut ArrayVec<u8, 4096>,
    )
        requires { spec.sub_table_in self.now kind section ≡ None }
        ensures { out.new.items ≡ bytes.kind_bytes self.now kind section moment }
    {
        match kind {
            TableKind::Tdt => write_tdt(moment, out),
            TableKind::Private(place) => self.write_private(place, section, out),
            _ => out.clear(),
        }
    }

    fn write_kind(&self, kind: TableKind, section: usize, moment: u64, out: &mut ArrayVec<u8, 4096>)
        requires section { section < length (kind_lengths self.now kind) }
        requires few { length (kind_lengths self.now kind) ≤ 128 }
        ensures { out.new.items ≡ bytes.kind_bytes self.now kind section moment }
    {
        match self.sub_table_in(kind, section) {
            None => self.write_unnumbered(kind, section, moment, out),
            Some(sub_table) => {
                let version = self.version(sub_table, moment);
                let number = self.number_in(kind, section);
                self.write_section(sub_table, version, number, moment, out);
            }
        }
    }

    /// Leaves in `out` exactly the bytes of a section of a table as it is at a moment, in seconds since
    /// 1970-01-01T00:00:00. Takes no memory.
    pub fn text(&self, table: usize, section: usize, moment: u64, out: &mut ArrayVec<u8, 4096>)
        requires table { table < table_count self.now }
        requires section { section < section_count self.now table }
        ensures value { out.new.items ≡ bytes.table_bytes self.now table section moment }
        ensures fits { array_vec_len out.new ≤ greatest_length self.now table section }
    {
        self.keeps_ranges();
        match self.kind(table) {
            None => out.clear(),
            Some(kind) => self.write_kind(kind, section, moment, out),
        }
    }
}
