//! The greatest lengths of sections, over all moments.

ghost use Rattle.std.specs.Prelude.{◌≡◌, ◌≤◌, ◌+◌, ◌==◌, [], ◌∷◌, length, map, max, sum_by, All, if◌then◌else◌};
ghost use Rattle.description_parts.specs.Ranges.{IsInRange};
ghost use Rattle.description_parts.specs.Tables as spec;

use crate::contents::Contents;
use crate::network::Network;
use crate::private_table::PrivateTable;
use crate::program::ProgramDescription;
use crate::stream::StreamDescription;
use crate::table_kind::TableKind;
use arrayvec::ArrayVec;
use description_values::PrivateSection;

// Returns the greatest length of a section whose text takes `length` bytes, with room for a number of packets: at most `most`
// bytes, and one packet reserves nothing.
pub(crate) fn room_length(most: usize, packets: u8, length: usize) -> usize
    ensures value { result ≡ spec.room_length most packets length }
    ensures bound { result ≤ max length most }
{
    if packets == 1 {
        return length;
    }
    usize::max(
        length,
        usize::min(most, (184 * packets as usize).saturating_sub(1)),
    )
}

// Returns the number of bytes of a stream's descriptors in a PMT.
fn es_info_length(stream: &StreamDescription) -> usize
    ensures value { result ≡ spec.es_info_length stream.now }
    ensures bound { result ≤ 709 }
{
    let tag = if stream.tag.is_some() { 3 } else { 0 };
    let language = if stream.language.is_some() { 6 } else { 0 };
    tag + language + stream.descriptors.as_bytes().len()
}

// Returns the number of bytes of a stream in the PMT of the program of a number.
fn entry_length(number: u16, stream: &StreamDescription) -> usize
    ensures value { result ≡ spec.entry_length number stream.now }
    ensures bound { result ≤ 714 }
{
    if stream.program == number {
        5 + es_info_length(stream)
    } else {
        0
    }
}

fn entries_length(number: u16, streams: &[StreamDescription]) -> usize
    requires { length streams.now ≤ 254 }
    ensures value { result ≡ sum_by (spec.entry_length number) streams.now }
    ensures bound { result ≤ 181356 }
{
    let mut total = 0;
    for stream in streams {
        total += entry_length(number, stream);
    }
    total
}

// Returns the number of bytes of a stream in the PMT of the program of a number that shares it.
fn shared_length(number: u16, stream: &StreamDescription) -> usize
    ensures value { result ≡ spec.shared_length number stream.now }
    ensures bound { result ≤ 714 }
{
    if stream.shared_with.contains(number) {
        5 + es_info_length(stream)
    } else {
        0
    }
}

fn sharing_length(number: u16, streams: &[StreamDescription]) -> usize
    requires { length streams.now ≤ 254 }
    ensures value { result ≡ sum_by (spec.shared_length number) streams.now }
    ensures bound { result ≤ 181356 }
{
    let mut total = 0;
    for stream in streams {
        total += shared_length(number, stream);
    }
    total
}

// Returns the number of bytes of a table in the PMT of the program of a number.
fn listed_length(number: u16, table: &PrivateTable) -> usize
    ensures value { result ≡ spec.listed_length number table.now }
    ensures bound { result ≤ 705 }
{
    match table.entry_in(number) {
        None => 0,
        Some(entry) => 5 + entry.descriptors.as_bytes().len(),
    }
}

fn tables_length(number: u16, tables: &[PrivateTable]) -> usize
    requires { length tables.now ≤ 64 }
    ensures value { result ≡ sum_by (spec.listed_length number) tables.now }
    ensures bound { result ≤ 45120 }
{
    let mut total = 0;
    for table in tables {
        total += listed_length(number, table);
    }
    total
}

// Returns the number of bytes of a service in the SDT.
pub(crate) fn service_length(program: &ProgramDescription) -> usize
    ensures value { result ≡ spec.service_length program.now }
    ensures bound { result ≤ 1009 }
{
    5 + program.service_descriptors().len()
}

fn service_bytes(programs: &[ProgramDescription]) -> usize
    requires { length programs.now ≤ 64 }
    ensures value { result ≡ sum_by spec.service_length programs.now }
    ensures bound { result ≤ 64576 }
{
    let mut total = 0;
    for program in programs {
        total += service_length(program);
    }
    total
}

// Returns the number of bytes of a section of the SDT with these services.
fn sdt_length(services: &[ProgramDescription]) -> usize
    requires { length services.now ≤ 64 }
    ensures value { result ≡ spec.sdt_length services.now }
    ensures bound { result ≤ 64591 }
{
    15 + service_bytes(services)
}

fn total(lengths: &[u16]) -> usize
    requires few { length lengths.now ≤ 65 }
    requires bounded { All (λ n. n ≤ 972) lengths.now }
    ensures value { result ≡ sum_by (λ n. n) lengths.now }
    ensures bound { result ≤ 63180 }
{
    let mut total = 0;
    for length in lengths {
        total += *length as usize;
    }
    total
}

// Returns the number of bytes of the section of the NIT at a place, with transport streams of these lengths.
fn nit_length(network: &Network, place: usize, lengths: &[u16]) -> usize
    requires few { length lengths.now ≤ 65 }
    requires bounded { All (λ n. n ≤ 972) lengths.now }
    ensures value { result ≡ 16 + (if place == 0 then length network.now.network_descriptors else 0)
        + sum_by (λ n. n) lengths.now }
    ensures bound { result ≤ 64162 }
{
    let before = if place == 0 {
        network.network_descriptors.as_bytes().len()
    } else {
        0
    };
    16 + before + total(lengths)
}

fn one(length: u16) -> ArrayVec<u16, 128>
    ensures { result.items ≡ length ∷ [] }
{
    let mut lengths = ArrayVec::new();
    lengths.push(length);
    lengths
}

fn lengths_of(sections: &[PrivateSection]) -> ArrayVec<u16, 128>
    requires { length sections.now ≤ 128 }
    ensures { result.items ≡ map length sections.now }
{
    let mut lengths = ArrayVec::new();
    for section in sections {
        lengths.push(section.as_bytes().len() as u16);
    }
    lengths
}

/// Returns the packets of sections of these lengths.
pub fn packets_of_sections(lengths: &[u16]) -> usize
    requires { length lengths.now ≤ 128 }
    ensures { result ≡ sum_by spec.packets_of_section lengths.now }
{
    let mut places = 0;
    for length in lengths {
        places += (1 + *length as usize).div_ceil(184);
    }
    places
}

impl Contents {
    // Returns the length of the section of the PAT, in bytes.
    fn pat_length(&self) -> usize
        ensures value { result ≡ spec.pat_length self.now }
        ensures bound { result ≤ 272 }
    {
        let networks = if self.network().is_some() { 1 } else { 0 };
        12 + 4 * (networks + self.programs().len())
    }

    // A description that is not yet checked may have a PMT longer than any section.
    fn pmt_length(&self, program: &ProgramDescription) -> usize
        ensures value { result ≡ spec.pmt_length self.now program.now }
        ensures bound { result ≤ 408548 }
    {
        16 + program.descriptors().as_bytes().len()
            + entries_length(program.number(), self.streams())
            + sharing_length(program.number(), self.streams())
            + tables_length(program.number(), self.private_tables())
    }

    // Returns the greatest length of the PMT of a program.
    pub(crate) fn map_length(&self, program: &ProgramDescription) -> usize
        ensures value { result ≡ spec.map_length self.now program.now }
        ensures bound { result ≤ max (spec.pmt_length self.now program.now) 1024 }
    {
        room_length(1024, program.pmt_packets(), self.pmt_length(program))
    }

    // Returns the greatest lengths of the sections of the NIT.
    fn lengths_in(&self, network: &Network) -> ArrayVec<u16, 128>
        ensures { result.items ≡ spec.network_lengths self.now network.now }
    {
        let streams = self.network_stream_lengths(network);
        let mut lengths = ArrayVec::new();
        for part in 0..66 {
            match self.nit_places(network, part) {
                None => return lengths,
                Some((begin, end)) => {
                    let length = nit_length(network, part, &streams[begin..end]);
                    lengths.push(room_length(1024, self.rooms().nit, length) as u16);
                }
            }
        }
        lengths
    }

    // Returns the greatest length of a section of the SDT with these services.
    fn services_length(&self, services: &[ProgramDescription]) -> u16
        requires { length services.now ≤ 64 }
        ensures { result ≡ spec.services_length self.now services.now }
    {
        room_length(1024, self.rooms().sdt, sdt_length(services)) as u16
    }

    fn map_lengths(&self, place: usize) -> ArrayVec<u16, 128>
        requires { IsInRange self.now }
        ensures { result.items ≡ spec.kind_lengths self.now (TableKind.Pmt place) }
    {
        match self.programs().get(place) {
            None => ArrayVec::new(),
            Some(program) => one(self.map_length(program) as u16),
        }
    }

    // Returns the lengths of the sections of the NIT.
    pub(crate) fn network_lengths(&self) -> ArrayVec<u16, 128>
        ensures { result.items ≡ spec.kind_lengths self.now TableKind.Nit }
    {
        match self.network() {
            None => ArrayVec::new(),
            Some(network) => self.lengths_in(network),
        }
    }

    // Returns the lengths of the sections of the SDT.
    pub(crate) fn sdt_lengths(&self) -> ArrayVec<u16, 128>
        ensures { result.items ≡ spec.kind_lengths self.now TableKind.Sdt }
    {
        let mut lengths = ArrayVec::new();
        for part in 0..self.programs().len() {
            let Some(services) = self.sdt_part(part) else {
                return lengths;
            };
            lengths.push(self.services_length(services));
        }
        lengths
    }

    fn association_lengths(&self) -> ArrayVec<u16, 128>
        ensures { result.items ≡ spec.kind_lengths self.now TableKind.Pat }
    {
        one(room_length(1024, self.rooms().pat, self.pat_length()) as u16)
    }

    /// Returns the greatest length of each section of a table.
    pub fn kind_lengths(&self, kind: TableKind) -> ArrayVec<u16, 128>
        requires { IsInRange self.now }
        ensures { result.items ≡ spec.kind_lengths self.now kind }
    {
        match kind {
            TableKind::Pat => self.association_lengths(),
            TableKind::Pmt(place) => self.map_lengths(place),
            TableKind::Nit => self.network_lengths(),
            TableKind::Sdt => self.sdt_lengths(),
            TableKind::Eit => self.event_lengths(),
            TableKind::Tdt => one(8),
            TableKind::Private(place) => self.private_lengths(place),
        }
    }

    fn private_lengths(&self, place: usize) -> ArrayVec<u16, 128>
        ensures { result.items ≡ spec.kind_lengths self.now (TableKind.Private place) }
    {
        match self.private_tables().get(place) {
            None => ArrayVec::new(),
            Some(table) => lengths_of(table.sections()),
        }
    }

    /// Returns the greatest length of each section of the table of a number.
    pub fn section_lengths(&self, table: usize) -> ArrayVec<u16, 128>
        requires { IsInRange self.now }
        ensures { result.items ≡ spec.section_lengths self.now table }
    {
        match self.kind(table) {
            None => ArrayVec::new(),
            Some(kind) => self.kind_lengths(kind),
        }
    }
}
