//! The sub-tables of a description, and their versions (EN 300 468, 5.1.1).

ghost use Rattle.std.specs.Prelude.{◌≡◌, ◌<◌, ◌≤◌, IfSome, length, slice_get, bytes_eq};
ghost use Rattle.description_parts.specs.Tables.{eit_place, is_scheduled, kind_lengths, section_count};
ghost use Rattle.description.specs.SubTables as spec;

use crate::description::Description;
use crate::event_information::version;
use arrayvec::ArrayVec;
use description_parts::table_kind::is_scheduled;
use description_parts::{ProgramDescription, TableKind, Versions};

/// Sections that have one version_number; the numbers are places in the description's programs.
#[derive(Clone, Copy, Debug, PartialEq, Eq)]
pub enum SubTable {
    /// The program association table.
    Pat,
    /// The network information table.
    Nit,
    /// The service description table.
    Sdt,
    /// The program map table of a program.
    Map(usize),
    /// The event information table of a program, present and following.
    Events(usize),
}

impl SubTable {
    /// Returns the number of the sub-table, below 131 if its program is one of 64.
    pub fn number(self) -> usize
        requires { spec.sub_table_number self < spec.sub_table_count }
        ensures { result ≡ spec.sub_table_number self }
    {
        match self {
            SubTable::Pat => 0,
            SubTable::Nit => 1,
            SubTable::Sdt => 2,
            SubTable::Map(place) => 3 + place,
            SubTable::Events(place) => 67 + place,
        }
    }

    /// Returns the sub-table of a number.
    pub fn numbered(number: usize) -> SubTable
        ensures { result ≡ spec.numbered_sub_table number }
    {
        match number {
            0 => SubTable::Pat,
            1 => SubTable::Nit,
            2 => SubTable::Sdt,
            3..=66 => SubTable::Map(number - 3),
            _ => SubTable::Events(number - 67),
        }
    }
}

// Returns the place of a program in the EIT among all programs.
fn scheduled_place(programs: &[ProgramDescription], has_eit: bool, place: usize) -> Option<usize>
    ensures { result ≡ slice_get (spec.places_where (is_scheduled has_eit) programs.now) place }
{
    let mut left = place;
    for at in 0..programs.len() {
        if is_scheduled(has_eit, &programs[at]) {
            if left == 0 {
                return Some(at);
            }
            left -= 1;
        }
    }
    None
}

impl Description {
    /// Returns the sub-table of a section of the table of a number; none of a TDT or a private table.
    pub fn sub_table(&self, table: usize, section: usize) -> Option<SubTable>
        requires { section < section_count self.now table }
        ensures value { result ≡ spec.sub_table_of self.now table section }
        ensures numbered { IfSome result (λ x. spec.sub_table_number x < spec.sub_table_count) }
    {
        self.keeps_ranges();
        match self.kind(table) {
            None => None,
            Some(kind) => self.sub_table_in(kind, section),
        }
    }

    pub(crate) fn sub_table_in(&self, kind: TableKind, section: usize) -> Option<SubTable>
        requires { section < length (kind_lengths self.now kind) }
        ensures { result ≡ spec.sub_table_in self.now kind section }
    {
        match kind {
            TableKind::Pat => Some(SubTable::Pat),
            TableKind::Pmt(place) => Some(SubTable::Map(place)),
            TableKind::Nit => Some(SubTable::Nit),
            TableKind::Sdt => Some(SubTable::Sdt),
            TableKind::Eit => self.events_of(section),
            TableKind::Tdt | TableKind::Private(_) => None,
        }
    }

    fn events_of(&self, section: usize) -> Option<SubTable>
        requires { section < length (kind_lengths self.now TableKind.Eit) }
        ensures { result ≡ spec.sub_table_in self.now TableKind.Eit section }
    {
        let (place, _) = self.eit_place(section);
        match scheduled_place(self.programs(), self.has_eit(), place) {
            None => None,
            Some(program) => Some(SubTable::Events(program)),
        }
    }

    // Returns the place of a section's program in the EIT, and the number of the section.
    fn eit_place(&self, section: usize) -> (usize, usize)
        requires { section < length (kind_lengths self.now TableKind.Eit) }
        ensures value { result ≡ eit_place self.now section }
        ensures bound { result.1 < 2 }
    {
        if self.is_transponder() {
            let count = self.scheduled_count();
            (section % count, section / count)
        } else {
            (section / 2, section % 2)
        }
    }

    /// Returns the number of a section in its sub-table.
    pub(crate) fn number_in(&self, kind: TableKind, section: usize) -> u8
        requires section { section < length (kind_lengths self.now kind) }
        requires few { length (kind_lengths self.now kind) ≤ 128 }
        ensures { result ≡ spec.number_in self.now kind section }
    {
        match kind {
            TableKind::Eit => self.eit_place(section).1 as u8,
            _ => section as u8,
        }
    }

    /// Returns the number of a sub-table in the description: its version, or, for events, the number that is counted
    /// on; 0 if there is no such program.
    pub fn count(&self, sub_table: SubTable) -> u8
        ensures value { result ≡ spec.count_of self.now sub_table }
        ensures five_bits { result < 32 }
    {
        self.keeps_ranges();
        match sub_table {
            SubTable::Pat => self.contents.versions().pat,
            SubTable::Nit => self.contents.versions().nit,
            SubTable::Sdt => self.contents.versions().sdt,
            SubTable::Map(place) => self.pmt_version(place),
            SubTable::Events(place) => self.eit_count(place),
        }
    }

    fn pmt_version(&self, place: usize) -> u8
        ensures value { result ≡ spec.count_of self.now (SubTable.Map place) }
        ensures five_bits { result < 32 }
    {
        match self.programs().get(place) {
            None => 0,
            Some(program) => program.pmt_version(),
        }
    }

    fn eit_count(&self, place: usize) -> u8
        ensures value { result ≡ spec.count_of self.now (SubTable.Events place) }
        ensures five_bits { result < 32 }
    {
        match self.programs().get(place) {
            None => 0,
            Some(program) => program.eit_count(),
        }
    }

    /// Gives a sub-table another number in the description. Nothing else changes.
    pub fn set_count(&mut self, sub_table: SubTable, count: u8)
        requires { count < 32 }
        ensures { self.new ≡ spec.with_count self.old sub_table count }
    {
        let Versions { pat, sdt, nit } = self.contents.versions();
        match sub_table {
            SubTable::Pat => self.contents.set_versions(Versions {
                pat: count,
                sdt,
                nit,
            }),
            SubTable::Nit => self.contents.set_versions(Versions {
                pat,
                sdt,
                nit: count,
            }),
            SubTable::Sdt => self.contents.set_versions(Versions {
                pat,
                sdt: count,
                nit,
            }),
            SubTable::Map(place) => self.contents.set_pmt_version(place, count),
            SubTable::Events(place) => self.contents.set_eit_count(place, count),
        }
    }

    /// Returns version_number of the sections of a sub-table at a moment; 0 if there is no such program.
    pub fn version(&self, sub_table: SubTable, moment: u64) -> u8
        ensures value { result ≡ spec.version_of self.now sub_table moment }
        ensures five_bits { result < 32 }
    {
        match sub_table {
            SubTable::Events(place) => self.events_version(place, moment),
            _ => self.count(sub_table),
        }
    }

    fn events_version(&self, place: usize, moment: u64) -> u8
        ensures value { result ≡ spec.version_of self.now (SubTable.Events place) moment }
        ensures five_bits { result < 32 }
    {
        match self.programs().get(place) {
            None => 0,
            Some(program) => version(program, moment),
        }
    }

    // Returns how many sections a sub-table has, if its table is there.
    fn sections_in(&self, sub_table: SubTable) -> u8
        ensures { result ≡ spec.sections_in self.now sub_table }
    {
        match sub_table {
            SubTable::Pat => 1,
            SubTable::Nit => self.network_sections() as u8,
            SubTable::Sdt => self.service_sections() as u8,
            SubTable::Map(place) => self.map_sections(place) as u8,
            SubTable::Events(place) => self.program_sections(place),
        }
    }

    fn program_sections(&self, place: usize) -> u8
        ensures { result ≡ spec.sections_in self.now (SubTable.Events place) }
    {
        match self.programs().get(place) {
            Some(program) if is_scheduled(self.has_eit(), program) => 2,
            _ => 0,
        }
    }

    fn has_same_section(
        &self,
        sub_table: SubTable,
        other: &Description,
        theirs: SubTable,
        number: u8,
        moment: u64,
    ) -> bool
        ensures { result ≡ bytes_eq (spec.unnumbered self.now sub_table moment number)
            (spec.unnumbered other.now theirs moment number) }
    {
        let mut own = ArrayVec::new();
        let mut others = ArrayVec::new();
        self.write_section(sub_table, 0, number, moment, &mut own);
        other.write_section(theirs, 0, number, moment, &mut others);
        own.as_slice() == others.as_slice()
    }

    /// Returns whether two descriptions have the same sections of a sub-table at a moment, but for their versions and
    /// check words. Takes no memory.
    pub fn shows_same(&self, other: &Description, sub_table: SubTable, moment: u64) -> bool
        ensures { result ≡ spec.shows_same self.now other.now sub_table moment }
    {
        self.says_same(sub_table, other, sub_table, moment)
    }

    /// Returns whether a sub-table has the same sections as another one of the other description, but for their versions
    /// and check words. Takes no memory.
    pub fn says_same(
        &self,
        sub_table: SubTable,
        other: &Description,
        theirs: SubTable,
        moment: u64,
    ) -> bool
        ensures { result ≡ spec.says_same self.now sub_table other.now theirs moment }
    {
        let count = self.sections_in(sub_table);
        let mut same = true;
        for number in 0..count {
            let alike = self.has_same_section(sub_table, other, theirs, number, moment);
            same = same && alike;
        }
        count == other.sections_in(theirs) && same
    }
}
