//! The description of a transport stream.

ghost use Rattle.std.specs.Prelude.{◌≡◌, ◌^◌, ◌<◌, option_map};

use clock27::Rate;
use description_parts::{
    Contents, Network, PrivateTable, ProgramDescription, Rooms, StreamDescription, TableKind,
    Versions,
};
use std::marker::Model;

/// What a transport stream carries: its rate and clock, its programs and streams, its tables. PIDs and
/// program numbers are distinct, and each number is in its range.
#[derive(Drop)]
pub struct Description {
    pub(crate) contents: Contents,
}

impl Model for Description {
    ghost use Rattle.description_parts.specs.Described.{Described};

    ghost Value = { Described };

    ghost use Rattle.description_parts.specs.Ranges.{IsInRange};

    ghost view = { λ d. d.contents };

    ghost invariant = { λ d. IsInRange d.contents };
}

impl Description {
    ghost use Rattle.description_parts.specs.Ranges.{IsInRange};
    ghost use Rattle.description_parts.specs.Tables.{table_count, table_kind, table_pid, table_limit};
    ghost use Rattle.description_parts.specs.Tables.{clock_of, has_references, stream_on_air};

    /// States that the numbers of every description are in range, and its PIDs distinct.
    pub fn keeps_ranges(&self)
        ensures { IsInRange self.now }
    {
        let _ = &self.contents;
    }

    /// Returns the rate of the transport stream.
    pub fn rate(&self) -> Rate
        ensures { result ≡ self.now.rate }
    {
        self.contents.rate
    }

    /// Returns the moment of the first slot, in seconds since 1970-01-01T00:00:00.
    pub fn start(&self) -> u64
        ensures { result ≡ self.now.start }
    {
        self.contents.start
    }

    /// Returns the system clock as the run begins, in units of 90 kHz, 33 bits.
    pub fn base0(&self) -> u64
        ensures value { result ≡ self.now.base0 }
        ensures range { self.now.base0 < 2 ^ 33 }
    {
        self.contents.base0
    }

    /// Returns transport_stream_id.
    pub fn transport_stream_id(&self) -> u16
        ensures { result ≡ self.now.transport_stream_id }
    {
        self.contents.transport_stream_id
    }

    /// Returns original_network_id.
    pub fn original_network_id(&self) -> u16
        ensures { result ≡ self.now.original_network_id }
    {
        self.contents.original_network_id
    }

    /// Returns whether it has the limits of a whole transponder.
    pub fn is_transponder(&self) -> bool
        ensures { result ≡ self.now.is_transponder }
    {
        self.contents.is_transponder()
    }

    /// Returns the PID of the clock references that programs share, if they share some.
    pub fn clock_pid(&self) -> Option<u16>
        ensures { result ≡ self.now.clock_pid }
    {
        self.contents.clock_pid()
    }

    /// Returns the number of the program whose slots carry the clock references of a program: its own, or, if programs
    /// share a clock, the first of these.
    pub fn clock_of(&self, program: usize) -> usize
        ensures { result ≡ clock_of self.now program }
    {
        self.contents.clock_of(program)
    }

    /// Returns whether the slots of a program carry clock references.
    pub fn has_references(&self, program: usize) -> bool
        ensures { result ≡ has_references self.now program }
    {
        self.contents.has_references(program)
    }

    /// Returns whether there is a service description table.
    pub fn has_sdt(&self) -> bool
        ensures { result ≡ self.now.has_sdt }
    {
        self.contents.has_sdt()
    }

    /// Returns whether each program has two sections in the EIT, also without an event.
    pub fn has_eit(&self) -> bool
        ensures { result ≡ self.now.has_eit }
    {
        self.contents.has_eit()
    }

    /// Returns the packets that it reserves for sections.
    pub fn rooms(&self) -> Rooms
        ensures { result ≡ self.now.rooms }
    {
        self.contents.rooms()
    }

    /// Returns the versions of PAT, SDT and NIT.
    pub fn versions(&self) -> Versions
        ensures { result ≡ self.now.versions }
    {
        self.contents.versions()
    }

    /// Returns whether there is a time and date table.
    pub fn has_tdt(&self) -> bool
        ensures { result ≡ self.now.has_tdt }
    {
        self.contents.has_tdt()
    }

    /// Returns the network, if there is one.
    pub fn network(&self) -> Option<&Network>
        ensures { option_map (λ n. n.now) result ≡ self.now.network }
    {
        self.contents.network()
    }

    /// Returns the programs, in order.
    pub fn programs(&self) -> &[ProgramDescription]
        ensures value { result.now ≡ self.now.programs }
        ensures ranges { IsInRange self.now }
    {
        self.contents.programs()
    }

    /// Returns the streams, in order.
    pub fn streams(&self) -> &[StreamDescription]
        ensures value { result.now ≡ self.now.streams }
        ensures ranges { IsInRange self.now }
    {
        self.contents.streams()
    }

    /// Returns whether there is an elementary stream of a number that a program on air has, as its own or shared.
    pub fn stream_on_air(&self, stream: usize) -> bool
        ensures { result ≡ stream_on_air self.now stream }
    {
        self.contents.stream_on_air(stream)
    }

    /// Returns the private tables, in order.
    pub fn private_tables(&self) -> &[PrivateTable]
        ensures value { result.now ≡ self.now.tables }
        ensures ranges { IsInRange self.now }
    {
        self.contents.private_tables()
    }

    /// Returns the number of tables.
    pub fn tables(&self) -> usize
        ensures { result ≡ table_count self.now }
    {
        self.contents.tables()
    }

    /// Returns the kind of the table of a number: 0 the PAT, then the PMTs in the order of the programs, the
    /// description's tables among NIT, SDT, EIT and TDT, and the private tables.
    pub fn kind(&self, table: usize) -> Option<TableKind>
        ensures { result ≡ table_kind self.now table }
    {
        self.contents.kind(table)
    }

    /// Returns the PID of a table.
    pub fn table_pid(&self, table: usize) -> u16
        requires { table < table_count self.now }
        ensures { result ≡ table_pid self.now table }
    {
        self.contents.table_pid(table)
    }

    /// Returns the greatest time between two starts of a section of a table, in ms.
    pub fn table_limit(&self, table: usize) -> u16
        requires { table < table_count self.now }
        ensures { result ≡ table_limit self.now table }
    {
        self.contents.table_limit(table)
    }
}
