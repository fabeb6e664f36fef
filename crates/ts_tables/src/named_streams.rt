//! The streams that the tables name.
ghost use Rattle.std.specs.Prelude.{◌≡◌, ◌==◌, ◌||◌, ◌&&◌, [], None, IfOk, OnErr, OnOk, is_some, length};
ghost use Rattle.std.specs.Prelude.{map, option_map};
ghost use Rattle.pid_findings.specs.Shown.{finding_view};
ghost use Rattle.demux.specs.Stream.{pushed, start};
ghost use Rattle.program_tables.specs.KnownTables.{known_in};
ghost use Rattle.ts_tables.specs.NamedStreams as spec;
ghost use Rattle.ts_tables.specs.NamedStreams.{have_maps};
ghost use Rattle.ts_tables.specs.Mapped.{AreTables};

use crate::mapped::mapped_programs;
use demux::Demux;
use pid_findings::Finding;
use program_tables::KnownTables;
use std::alloc::{AllocError, Global};
use std::marker::Model;
use stream_programs::{FoundProgram, FoundPrograms, FoundStream, found_programs};

/// The number of packets that are looked at at most.
pub const FIRST_PACKETS: u32 = 32_768;

/// The streams of the programs that the first packets of a stream name: the first packets after which each program of
/// the association table has a map, or the first 32,768.
///
/// After an `AllocError` no packet was taken.
#[derive(Drop)]
pub struct NamedStreams {
    alloc: Global,
    demux: Demux,
    packets: u32,
    found: Option<FoundPrograms>,
    // while the streams are not known: what the tables say, and how many of their programs from the first on have maps
    tables: KnownTables,
    mapped: usize,
}

impl Model for NamedStreams {
    ghost use Rattle.ts_tables.specs.NamedStreams.{NamedView};
    ghost use Rattle.ts_tables.specs.Mapped.{AreUnknown};

    ghost Value = { NamedView };

    ghost view = { λ n. record { demux = n.demux; packets = n.packets; streams = n.found } };

    ghost invariant = { λ n. AreUnknown n.found n.tables n.demux.found n.mapped };
}

// Returns whether the streams are known, or this is the last examined packet; `mapped` programs have maps.
fn is_known(last: bool, mapped: usize, tables: &KnownTables) -> bool
    ensures { result ≡ (last || (is_some tables.now.version && (mapped == length tables.now.programs))) }
{
    last || tables.has_association() && mapped == tables.programs().len()
}

// Returns the streams, if the findings name them, or this is the last examined packet. The first `mapped` programs have
// maps, and the next one has none.
fn streams_by(
    alloc: Global,
    last: bool,
    mapped: usize,
    tables: &KnownTables,
    findings: &[Finding<'_>],
) -> Result<Option<FoundPrograms>, AllocError>
    requires tables { AreTables tables.now (map finding_view findings.now) mapped }
    requires all { (mapped == length tables.now.programs)
        ≡ have_maps (map finding_view findings.now) tables.now.programs }
    ensures { IfOk result (λ found. found ≡ spec.streams_at last (map finding_view findings.now)) }
{
    if !is_known(last, mapped, tables) {
        return Ok(None);
    }
    Ok(Some(found_programs(alloc, tables.programs(), findings)?))
}

// The streams with another packet, where they are not known without it.
fn streams_with(
    alloc: Global,
    last: bool,
    bytes: &[u8; 188],
    demux: &mut Demux,
    tables: &mut KnownTables,
    mapped: &mut usize,
) -> Result<Option<FoundPrograms>, AllocError>
    requires { AreTables tables.old demux.old.found mapped.old }
    ensures demux { OnOk result (demux.new ≡ pushed demux.old bytes.now) }
    ensures tables { OnOk result (AreTables tables.new demux.new.found mapped.new) }
    ensures streams { IfOk result (λ found. found ≡ spec.streams_at last demux.new.found) }
{
    let before = demux.findings().len();
    let Ok(()) = demux.push(bytes) else {
        return Err(AllocError);
    };
    let findings = demux.findings();
    tables.take(before, findings)?;
    *mapped = mapped_programs(*mapped, tables, findings);
    let found = streams_by(alloc, last, *mapped, tables, findings)?;
    Ok(found)
}

// Forgets what was taken. It stays a call of its own: the new tables are large, and would else be made ready for each
// packet.
#[inline(never)]
fn forget(alloc: Global, demux: &mut Demux, tables: &mut KnownTables)
    ensures demux { demux.new ≡ start }
    ensures tables { tables.new ≡ known_in [] }
{
    *demux = Demux::new(alloc);
    *tables = KnownTables::new(alloc);
}

// The stream of a PID.
#[tactic(auto, unfolding(crate::specs::NamedStreams::stream_in))]
fn stream_in<'s>(pid: u16, streams: &'s [FoundStream]) -> Option<&'s FoundStream>
    ensures { option_map (λ s. s.now) result ≡ spec.stream_in pid streams.now }
{
    for stream in streams {
        if stream.pid == pid {
            return Some(stream);
        }
    }
    None
}

// PCR_PID of a program, 8191 where it is not among these.
#[tactic(auto, unfolding(crate::specs::NamedStreams::clock_in))]
fn clock_in(number: u16, programs: &[FoundProgram]) -> u16
    ensures { result ≡ spec.clock_in number programs.now }
{
    for program in programs {
        if program.number == number {
            return program.pcr_pid;
        }
    }
    8191
}

impl NamedStreams {
    /// Returns the state before the first packet.
    pub fn new(alloc: Global) -> NamedStreams
        ensures { result ≡ spec.none_taken }
    {
        NamedStreams {
            alloc,
            demux: Demux::new(alloc),
            packets: 0,
            found: None,
            tables: KnownTables::new(alloc),
            mapped: 0,
        }
    }

    // Another packet, where the streams are not known yet.
    fn look(&mut self, bytes: &[u8; 188]) -> Result<(), AllocError>
        requires { self.old.streams ≡ None }
        ensures taken { OnOk result (self.new ≡ spec.looked_at self.old bytes.now) }
        ensures none { OnErr result (self.new ≡ spec.none_taken) }
    {
        let packets = self.packets.saturating_add(1);
        let last = packets >= FIRST_PACKETS;
        let known = streams_with(
            self.alloc,
            last,
            bytes,
            &mut self.demux,
            &mut self.tables,
            &mut self.mapped,
        );
        match known {
            Ok(found) => {
                self.packets = packets;
                self.found = found;
                Ok(())
            }
            Err(error) => {
                forget(self.alloc, &mut self.demux, &mut self.tables);
                self.packets = 0;
                self.mapped = 0;
                Err(error)
            }
        }
    }

    /// Takes the next packet. Once the streams are known, it looks at nothing more.
    #[tactic(auto, unfolding(crate::specs::NamedStreams::taken_if))]
    pub fn take(&mut self, bytes: &[u8; 188]) -> Result<(), AllocError>
        ensures taken { OnOk result (self.new ≡ spec.taken self.old bytes.now) }
        ensures none { OnErr result (self.new ≡ spec.none_taken) }
    {
        if self.found.is_some() {
            return Ok(());
        }
        self.look(bytes)
    }

    /// Returns the findings of the packets that were looked at.
    pub fn findings(&self) -> &[Finding<'static>]
        ensures { map finding_view result.now ≡ self.now.demux.found }
    {
        self.demux.findings()
    }

    /// Returns the programs and their streams, once these are known.
    pub fn found(&self) -> Option<&FoundPrograms>
        ensures { option_map (λ found. found.now) result ≡ self.now.streams }
    {
        self.found.as_ref()
    }

    /// Returns the stream of a PID, once the streams are known.
    #[tactic(auto, unfolding(crate::specs::NamedStreams::stream_by))]
    pub fn stream(&self, pid: u16) -> Option<&FoundStream>
        ensures { option_map (λ s. s.now) result ≡ spec.stream_of self.now pid }
    {
        match &self.found {
            None => None,
            Some(found) => stream_in(pid, &found.streams),
        }
    }

    /// Returns PCR_PID of a program; 8191, which carries no clock reference, if it is not known.
    #[tactic(auto, unfolding(crate::specs::NamedStreams::clock_by))]
    pub fn clock_pid(&self, number: u16) -> u16
        ensures { result ≡ spec.clock_of self.now number }
    {
        match &self.found {
            None => 8191,
            Some(found) => clock_in(number, &found.programs),
        }
    }
}
