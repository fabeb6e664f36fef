//! What the tables of a description are, and their numbers.

ghost use Rattle.std.specs.Prelude.{◌≡◌, ◌<◌, ◌≤◌, ◌+◌, ◌++◌};
ghost use Rattle.std.specs.List.{list_any};
ghost use Rattle.description_parts.specs.Tables.{only_if, has_event, has_on_air, is_scheduled};
ghost use Rattle.arrayvec.specs.ArrayVec.{array_vec_len};

use crate::contents::Contents;
use crate::program::ProgramDescription;
use crate::stream::StreamDescription;
use arrayvec::ArrayVec;

/// A table of the description; the numbers are places in its programs and in its private tables.
#[derive(Clone, Copy, Debug, PartialEq, Eq, Default)]
pub enum TableKind {
    /// The program association table.
    #[default]
    Pat,
    /// The program map table of a program.
    Pmt(usize),
    /// The network information table.
    Nit,
    /// The service description table.
    Sdt,
    /// The event information table, present and following.
    Eit,
    /// The time and date table.
    Tdt,
    /// A private table.
    Private(usize),
}

fn push_if(kinds: &mut ArrayVec<TableKind, 4>, present: bool, kind: TableKind)
    requires { array_vec_len kinds.old < 4 }
    ensures items { kinds.new.items ≡ kinds.old.items ++ only_if present kind }
    ensures length { array_vec_len kinds.new ≤ array_vec_len kinds.old + 1 }
{
    if present {
        kinds.push(kind);
    }
}

/// Returns whether a program is in an EIT of all programs, or of the programs that have an event.
pub fn is_scheduled(all: bool, program: &ProgramDescription) -> bool
    ensures { result ≡ is_scheduled all program.now }
{
    all || has_event(program)
}

/// Returns whether a program has an event.
pub fn has_event(program: &ProgramDescription) -> bool
    ensures { result ≡ has_event program.now }
{
    !program.events().is_empty()
}

fn has_schedule(programs: &[ProgramDescription]) -> bool
    ensures { result ≡ list_any has_event programs.now }
{
    programs.iter().any(|program| has_event(program))
}

// Returns whether a program is on air and has a stream, as its own or shared.
fn has_on_air(stream: &StreamDescription, program: &ProgramDescription) -> bool
    ensures { result ≡ has_on_air stream.now program.now }
{
    let number = program.number();
    program.is_on_air() && (number == stream.program || stream.shared_with.contains(number))
}

/// Returns whether a program on air has a stream, as its own or shared.
pub fn has_one_on_air(stream: &StreamDescription, programs: &[ProgramDescription]) -> bool
    ensures { result ≡ list_any (has_on_air stream.now) programs.now }
{
    programs.iter().any(|program| has_on_air(stream, program))
}

impl Contents {
    ghost use Rattle.description_parts.specs.Tables.{service_tables, table_count, table_kind, table_pid, kind_pid};
    ghost use Rattle.description_parts.specs.Tables.{table_limit, kind_limit, has_events_table, stream_on_air};

    /// Returns whether the description has an EIT.
    pub fn has_events_table(&self) -> bool
        ensures { result ≡ has_events_table self.now }
    {
        self.has_eit() || has_schedule(self.programs())
    }

    // Returns which of NIT, SDT, EIT and TDT the description has.
    fn service_tables(&self) -> ArrayVec<TableKind, 4>
        ensures { result.items ≡ service_tables self.now }
    {
        let mut kinds = ArrayVec::new();
        push_if(&mut kinds, self.network().is_some(), TableKind::Nit);
        push_if(&mut kinds, self.has_sdt(), TableKind::Sdt);
        push_if(&mut kinds, self.has_events_table(), TableKind::Eit);
        push_if(&mut kinds, self.has_tdt(), TableKind::Tdt);
        kinds
    }

    /// Returns the number of tables.
    pub fn tables(&self) -> usize
        ensures { result ≡ table_count self.now }
    {
        1 + self.programs().len() + self.service_tables().len() + self.private_tables().len()
    }

    /// Returns the kind of the table of a number: 0 the PAT, then the PMTs in the order of the programs, the
    /// description's tables among NIT, SDT, EIT and TDT, and the private tables.
    pub fn kind(&self, table: usize) -> Option<TableKind>
        ensures { result ≡ table_kind self.now table }
    {
        let programs = self.programs().len();
        if table == 0 {
            return Some(TableKind::Pat);
        }
        if table <= programs {
            return Some(TableKind::Pmt(table - 1));
        }
        let services = self.service_tables();
        let count = services.len();
        let place = table - 1 - programs;
        if place < count {
            return Some(services[place]);
        }
        let private = place - count;
        if private < self.private_tables().len() {
            Some(TableKind::Private(private))
        } else {
            None
        }
    }

    /// Returns whether a program on air has the stream of a number, as its own or shared.
    pub fn stream_on_air(&self, stream: usize) -> bool
        ensures { result ≡ stream_on_air self.now stream }
    {
        match self.streams().get(stream) {
            None => false,
            Some(stream) => has_one_on_air(stream, self.programs()),
        }
    }

    /// Returns the PID of the table of a number, 0 if there is no such table.
    pub fn table_pid(&self, table: usize) -> u16
        ensures { result ≡ table_pid self.now table }
    {
        match self.kind(table) {
            None => 0,
            Some(kind) => self.kind_pid(kind),
        }
    }

    fn kind_pid(&self, kind: TableKind) -> u16
        ensures { result ≡ kind_pid self.now kind }
    {
        match kind {
            TableKind::Pat => 0,
            TableKind::Pmt(place) => match self.programs().get(place) {
                None => 0,
                Some(program) => program.pmt_pid(),
            },
            TableKind::Nit => 0x10,
            TableKind::Sdt => 0x11,
            TableKind::Eit => 0x12,
            TableKind::Tdt => 0x14,
            TableKind::Private(place) => match self.private_tables().get(place) {
                None => 0,
                Some(table) => table.pid(),
            },
        }
    }

    /// Returns the limit of the table of a number in ms, 0 if there is no such table.
    pub fn table_limit(&self, table: usize) -> u16
        ensures { result ≡ table_limit self.now table }
    {
        match self.kind(table) {
            None => 0,
            Some(kind) => self.kind_limit(kind),
        }
    }

    fn kind_limit(&self, kind: TableKind) -> u16
        ensures { result ≡ kind_limit self.now kind }
    {
        match kind {
            TableKind::Pat | TableKind::Pmt(_) => 500,
            TableKind::Nit => 10_000,
            TableKind::Sdt | TableKind::Eit => 2_000,
            TableKind::Tdt => 30_000,
            TableKind::Private(place) => match self.private_tables().get(place) {
                None => 0,
                Some(table) => table.limit(),
            },
        }
    }
}
