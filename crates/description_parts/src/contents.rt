//! The parts of a description, as a document gives them.

ghost use Rattle.std.specs.Prelude.{◌≡◌, option_map};

use crate::network::Network;
use crate::private_table::PrivateTable;
use crate::program::ProgramDescription;
use crate::rooms::Rooms;
use crate::stream::StreamDescription;
use crate::versions::Versions;
use clock27::Rate;
use std::marker::Model;

/// The parts of a description: as many as it may have, each number in its range.
#[derive(Drop)]
pub struct Contents {
    pub rate: Rate,
    pub start: u64,
    pub base0: u64,
    pub transport_stream_id: u16,
    pub original_network_id: u16,
    pub has_sdt: bool,
    pub has_tdt: bool,
    /// Whether it has the limits of a whole transponder.
    pub is_transponder: bool,
    /// The PID of the clock references that programs share.
    pub clock_pid: Option<u16>,
    /// Whether each program has two sections in the EIT, also without an event.
    pub has_eit: bool,
    pub rooms: Rooms,
    pub versions: Versions,
    pub network: Option<Network>,
    pub programs: Vec<ProgramDescription>,
    pub streams: Vec<StreamDescription>,
    pub tables: Vec<PrivateTable>,
}

impl Model for Contents {
    ghost use Rattle.description_parts.specs.Described.{Described};

    ghost Value = { Described };

    ghost use Rattle.description_parts.specs.Shown.{shown};
    ghost use Rattle.description_parts.specs.Ranges.{HasCounts};

    ghost view = { shown };

    ghost invariant = { λ d. HasCounts (shown d) };
}

impl Contents {
    ghost use Rattle.description_parts.specs.Ranges.{HasCounts};

    /// Returns the network, if there is one.
    pub fn network(&self) -> Option<&Network>
        ensures { option_map (λ n. n.now) result ≡ self.now.network }
    {
        self.network.as_ref()
    }

    /// Returns the programs, in order.
    pub fn programs(&self) -> &[ProgramDescription]
        ensures value { result.now ≡ self.now.programs }
        ensures counts { HasCounts self.now }
    {
        self.programs.as_slice()
    }

    /// Returns the streams, in order.
    pub fn streams(&self) -> &[StreamDescription]
        ensures value { result.now ≡ self.now.streams }
        ensures counts { HasCounts self.now }
    {
        self.streams.as_slice()
    }

    /// Returns the private tables, in order.
    pub fn private_tables(&self) -> &[PrivateTable]
        ensures value { result.now ≡ self.now.tables }
        ensures counts { HasCounts self.now }
    {
        self.tables.as_slice()
    }

    /// Returns whether there is a service description table.
    pub fn has_sdt(&self) -> bool
        ensures { result ≡ self.now.has_sdt }
    {
        self.has_sdt
    }

    /// Returns whether there is a time and date table.
    pub fn has_tdt(&self) -> bool
        ensures { result ≡ self.now.has_tdt }
    {
        self.has_tdt
    }

    /// Returns whether it has the limits of a whole transponder.
    pub fn is_transponder(&self) -> bool
        ensures { result ≡ self.now.is_transponder }
    {
        self.is_transponder
    }

    /// Returns the PID of the clock references that programs share, if they share some.
    pub fn clock_pid(&self) -> Option<u16>
        ensures { result ≡ self.now.clock_pid }
    {
        self.clock_pid
    }

    /// Returns whether each program has two sections in the EIT, also without an event.
    pub fn has_eit(&self) -> bool
        ensures { result ≡ self.now.has_eit }
    {
        self.has_eit
    }

    /// Returns the packets that it reserves for sections.
    pub fn rooms(&self) -> Rooms
        ensures { result ≡ self.now.rooms }
    {
        self.rooms
    }

    /// Returns the versions of PAT, SDT and NIT.
    pub fn versions(&self) -> Versions
        ensures { result ≡ self.now.versions }
    {
        self.versions
    }
}
