//! What the sections of PAT, CAT and PMT name, and which of it tables in force may still name.
ghost use Rattle.std.specs.Prelude.{◌≡◌, OnOk, map, unwrap_or};
ghost use Rattle.pid_findings.specs.Shown.{finding_view, what_view};
ghost use Rattle.psi_tables.specs.ProgramAssociation.{pat_at, pat_view, programs_of};
ghost use Rattle.psi_tables.specs.ProgramMap.{pmt_at, pmt_view};
ghost use Rattle.psi_tables.specs.Views.{section_view};
ghost use Rattle.ts_watch.specs.TableNames as spec;

use crate::section_pids::{may_name, push_table};
use indexmap::IndexMap;
use pid_findings::{Finding, What};
use psi_tables::{LongHeader, PAT_TABLE_ID, PMT_TABLE_ID, Pat, Pmt, Programs, Section};
use std::alloc::{AllocError, Global};
use std::hash::{BuildHasherDefault, FoldHasher};
use std::marker::Model;

// Keys, each with the number of the last section that has it.
type Marks = IndexMap<u32, u64, BuildHasherDefault<FoldHasher>, Global>;

// The number of keys at most.
const MOST_KEYS: usize = 65_536;

/// The PIDs, programs and PCR_PIDs that the sections of PAT, CAT and PMT name, each with the number of the last section
/// that names it. Memory does not grow with the length of the stream.
#[derive(Drop)]
pub struct TableNames {
    alloc: Global,
    sections: u64,
    version: Option<u32>,
    since: u64,
    programs: Marks,
    maps: Marks,
    pids: Marks,
    clocks: Marks,
}

impl Model for TableNames {
    ghost use Rattle.ts_watch.specs.TableNames.{NamesState};

    ghost Value = { NamesState };

    ghost view = { λ n. record {
      sections = n.sections;
      version = n.version;
      since = n.since;
      programs = n.programs.entries;
      maps = n.maps.entries;
      pids = n.pids.entries;
      clocks = n.clocks.entries;
    } };
}

fn mark_of(marks: &Marks, key: u32) -> Option<u64>
    ensures { result ≡ spec.mark_of marks.now.entries key }
{
    match marks.get(&key) {
        None => None,
        Some(section) => Some(*section),
    }
}

fn mark(marks: &mut Marks, section: u64, key: u32) -> Result<(), AllocError>
    ensures { OnOk result (marks.new.entries ≡ spec.marked marks.old.entries section key) }
{
    if marks.len() < MOST_KEYS || mark_of(marks, key).is_some() {
        marks.insert(key, section)?;
    }
    Ok(())
}

#[tactic(auto, unfolding(crate::specs::TableNames::all_marked))]
fn mark_pids(marks: &mut Marks, section: u64, pids: &[u16]) -> Result<(), AllocError>
    ensures { OnOk result (marks.new.entries ≡ spec.all_marked marks.old.entries section pids.now) }
{
    for pid in pids {
        mark(marks, section, u32::from(*pid))?;
    }
    Ok(())
}

fn program_key(pid: u16, number: u16) -> u32
    ensures { result ≡ spec.program_key pid number }
{
    u32::from(pid) * 65_536 + u32::from(number)
}

#[tactic(auto, unfolding(crate::specs::TableNames::all_marked))]
fn mark_programs(marks: &mut Marks, section: u64, programs: Programs<'_>) -> Result<(), AllocError>
    ensures { OnOk result (marks.new.entries
        ≡ spec.all_marked marks.old.entries section (spec.program_keys (programs_of programs.entry))) }
{
    for program in programs {
        mark(
            marks,
            section,
            program_key(program.pid, program.program_number),
        )?;
    }
    Ok(())
}

fn version_of(header: &LongHeader) -> u32
    ensures { result ≡ spec.version_of header.now }
{
    u32::from(header.table_id_extension) * 256 + u32::from(header.version_number)
}

#[tactic(auto, unfolding(crate::specs::TableNames::is_version))]
fn is_version(known: Option<u32>, version: u32) -> bool
    ensures { result ≡ spec.is_version known version }
{
    match known {
        None => false,
        Some(known) => known == version,
    }
}

// Returns whether a key has come in the section of a number or in a later one.
fn is_since(marks: &Marks, section: u64, key: u32) -> bool
    ensures { result ≡ spec.is_since marks.now.entries section key }
{
    mark_of(marks, key).unwrap_or(0) >= section
}

impl TableNames {
    /// Returns the state before the first section.
    pub(crate) fn new(alloc: Global) -> TableNames
        ensures { result ≡ spec.no_names }
    {
        TableNames {
            alloc,
            sections: 0,
            version: None,
            since: 0,
            programs: IndexMap::new(alloc),
            maps: IndexMap::new(alloc),
            pids: IndexMap::new(alloc),
            clocks: IndexMap::new(alloc),
        }
    }

    // Takes the programs of a PAT in force.
    fn take_pat(&mut self, pat: &Pat<'_>) -> Result<(), AllocError>
        ensures { OnOk result (self.new ≡ spec.with_pat self.old (pat_view pat.now)) }
    {
        let version = version_of(&pat.header);
        if !is_version(self.version, version) {
            self.since = self.sections;
        }
        self.version = Some(version);
        mark_programs(&mut self.programs, self.sections, pat.programs)
    }

    #[tactic(auto, unfolding(crate::specs::TableNames::with_association))]
    fn take_association(&mut self, section: &Section<'_>) -> Result<(), AllocError>
        ensures { OnOk result (self.new
            ≡ spec.with_association self.old (pat_at (section_view section.now))) }
    {
        match Pat::read(section) {
            Err(_) => Ok(()),
            Ok(pat) => {
                if !pat.header.current_next {
                    return Ok(());
                }
                self.take_pat(&pat)
            }
        }
    }

    // Takes the program and the PCR_PID of a PMT in force.
    fn take_pmt(&mut self, pid: u16, pmt: &Pmt<'_>) -> Result<(), AllocError>
        ensures { OnOk result (self.new ≡ spec.with_pmt self.old pid (pmt_view pmt.now)) }
    {
        let key = program_key(pid, pmt.header.table_id_extension);
        mark(&mut self.maps, self.sections, key)?;
        mark(&mut self.clocks, self.sections, u32::from(pmt.pcr_pid))
    }

    #[tactic(auto, unfolding(crate::specs::TableNames::with_map))]
    fn take_map(&mut self, pid: u16, section: &Section<'_>) -> Result<(), AllocError>
        ensures { OnOk result (self.new ≡ spec.with_map self.old pid (pmt_at (section_view section.now))) }
    {
        match Pmt::read(section) {
            Err(_) => Ok(()),
            Ok(pmt) => {
                if !pmt.header.current_next {
                    return Ok(());
                }
                self.take_pmt(pid, &pmt)
            }
        }
    }

    fn take_programs(&mut self, pid: u16, section: &Section<'_>) -> Result<(), AllocError>
        ensures { OnOk result (self.new ≡ spec.with_programs self.old pid (section_view section.now)) }
    {
        if section.header.table_id == PMT_TABLE_ID {
            self.take_map(pid, section)
        } else if section.header.table_id == PAT_TABLE_ID && pid == 0 {
            self.take_association(section)
        } else {
            Ok(())
        }
    }

    fn take_pids(&mut self, pids: &[u16]) -> Result<(), AllocError>
        ensures { OnOk result (self.new ≡ spec.with_pids self.old pids.now) }
    {
        self.sections = self.sections.saturating_add(1);
        mark_pids(&mut self.pids, self.sections, pids)
    }

    fn take_table(&mut self, pid: u16, section: &Section<'_>) -> Result<(), AllocError>
        ensures { OnOk result (self.new ≡ spec.with_table self.old pid (section_view section.now)) }
    {
        let mut pids = Vec::new(self.alloc);
        push_table(section, &mut pids)?;
        self.take_pids(&pids)?;
        self.take_programs(pid, section)
    }

    #[tactic(auto, unfolding(crate::specs::TableNames::with_read))]
    fn take_section(&mut self, pid: u16, bytes: &[u8]) -> Result<(), AllocError>
        ensures { OnOk result (self.new ≡ spec.with_section self.old pid bytes.now) }
    {
        if !may_name(bytes) {
            return Ok(());
        }
        match Section::read(bytes) {
            Err(_) => Ok(()),
            Ok((section, _)) => self.take_table(pid, &section),
        }
    }

    // Takes a finding on a PID, if it is a section of PAT, CAT or PMT.
    #[tactic(auto, unfolding(crate::specs::TableNames::with_found))]
    fn take_found(&mut self, pid: u16, what: &What<'_>) -> Result<(), AllocError>
        ensures { OnOk result (self.new ≡ spec.with_found self.old pid (what_view what.now)) }
    {
        match what {
            What::Section(part) => self.take_section(pid, part.bytes()),
            _ => Ok(()),
        }
    }

    /// Takes the sections in findings.
    pub(crate) fn take_each(&mut self, findings: &[Finding<'_>]) -> Result<(), AllocError>
        ensures { OnOk result (self.new ≡ spec.with_each self.old (map finding_view findings.now)) }
    {
        for finding in findings {
            self.take_found(finding.pid.unwrap_or(8191), &finding.what)?;
        }
        Ok(())
    }

    /// Returns whether some section names a PID, in force or not.
    pub fn has(&self, pid: u16) -> bool
        ensures { result ≡ spec.has_name self.now pid }
    {
        mark_of(&self.pids, u32::from(pid)).is_some()
    }

    /// Returns whether the PAT in force names a program, with this PID of its PMT.
    pub fn has_program(&self, pid: u16, number: u16) -> bool
        ensures { result ≡ spec.has_program self.now pid number }
    {
        is_since(&self.programs, self.since, program_key(pid, number))
    }

    // Returns the older of the last PAT section and of the last PMT of a program in force.
    fn program_age(&self, program: u32, section: u64) -> u64
        ensures { result ≡ spec.program_age self.now (program, section) }
    {
        if section < self.since {
            return u64::MAX;
        }
        section.min(mark_of(&self.maps, program).unwrap_or(u64::MAX))
    }

    /// Returns the number of the table in force that came longest ago.
    #[tactic(auto, unfolding(crate::specs::TableNames::oldest_of))]
    pub fn oldest(&self) -> u64
        ensures { result ≡ spec.oldest self.now }
    {
        let mut oldest = u64::MAX;
        for (program, section) in &self.programs {
            oldest = oldest.min(self.program_age(*program, *section));
        }
        oldest
    }

    /// Returns whether the section of a number, or a later one, names a PID.
    pub fn names(&self, section: u64, pid: u16) -> bool
        ensures { result ≡ spec.is_since self.now.pids section pid }
    {
        is_since(&self.pids, section, u32::from(pid))
    }

    /// Returns whether the section of a number, or a later one, is a PMT in force with this PCR_PID.
    pub fn names_clock(&self, section: u64, pid: u16) -> bool
        ensures { result ≡ spec.is_since self.now.clocks section pid }
    {
        is_since(&self.clocks, section, u32::from(pid))
    }
}
