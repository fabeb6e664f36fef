//! What PIDs carry: their programs, and the names of these programs' services.
ghost use Rattle.std.specs.Prelude.{◌≡◌, ◌++◌, OnOk, nat_eq, option_map, string_bytes};
ghost use Rattle.std.specs.Map.{lookup};
ghost use Rattle.page_curves.specs.PidLabels as spec;

use events::PidName;
use indexmap::IndexMap;
use std::alloc::{AllocError, Global};
use std::fmt::Write;
use std::hash::{BuildHasherDefault, FoldHasher};
use std::marker::Model;

/// The program of a PID, and what the PID carries.
#[derive(Clone, Copy)]
pub struct PidProgram {
    pub program: u16,
    pub name: PidName,
}

/// The last known program of each PID, the last name of each program's service as text of a page, and what each PID
/// carries.
///
/// After an `AllocError` they describe no stream: drop them.
#[derive(Drop)]
pub struct PidLabels {
    programs: IndexMap<u16, PidProgram, BuildHasherDefault<FoldHasher>, Global>,
    services: IndexMap<u16, String, BuildHasherDefault<FoldHasher>, Global>,
    pub names: IndexMap<u16, PidName, BuildHasherDefault<FoldHasher>, Global>,
}

impl Model for PidLabels {
    ghost use Rattle.std.specs.Prelude.{map, string_bytes};
    ghost use Rattle.page_curves.specs.PidLabels.{LabelsState};

    ghost Value = { LabelsState };

    ghost view = { λ l. record {
      programs = l.programs.entries;
      services = map (λ e. (e.0, string_bytes e.1)) l.services.entries;
      names = l.names.entries;
    } };
}

impl PidLabels {
    /// Returns labels of no PID.
    pub fn new(alloc: Global) -> PidLabels
        ensures { result ≡ spec.no_labels }
    {
        PidLabels {
            programs: IndexMap::new(alloc),
            services: IndexMap::new(alloc),
            names: IndexMap::new(alloc),
        }
    }

    /// Notes a PID, and what it carries.
    pub fn take_pid(&mut self, pid: u16, name: PidName) -> Result<(), AllocError>
        ensures { OnOk result (self.new ≡ spec.with_pid pid name self.old) }
    {
        self.names.insert(pid, name)?;
        Ok(())
    }

    /// Notes the program of a PID.
    pub fn take(&mut self, pid: u16, program: PidProgram) -> Result<(), AllocError>
        ensures { OnOk result (self.new ≡ spec.with_program pid program self.old) }
    {
        self.programs.insert(pid, program)?;
        Ok(())
    }

    /// Notes the name of a program's service, as text of a page.
    pub fn take_service(&mut self, program: u16, name: String) -> Result<(), AllocError>
        ensures { OnOk result (self.new ≡ spec.with_service program (string_bytes name) self.old) }
    {
        self.services.insert(program, name)?;
        Ok(())
    }

    // Returns the program of a PID, and what the PID carries of this program, if a program is known.
    fn program_of(&self, pid: u16) -> Option<PidProgram>
        ensures { result ≡ lookup (nat_eq pid) self.now.programs }
    {
        self.programs.get(&pid).copied()
    }

    /// Returns the number of the program of a PID, 0 if none is known.
    pub fn program_number(&self, pid: u16) -> u16
        ensures { result ≡ spec.program_number self.now pid }
    {
        number_of(self.program_of(pid))
    }

    /// Returns the name of a program's service, if one is known.
    pub fn service_of(&self, program: u16) -> Option<&str>
        ensures { option_map (λ name. name.now) result ≡ lookup (nat_eq program) self.now.services }
    {
        match self.services.get(&program) {
            None => None,
            Some(name) => Some(name.as_str()),
        }
    }
}

// Returns the number of a program, 0 if there is no program.
#[tactic(auto, unfolding(crate::specs::PidLabels::number_of))]
fn number_of(program: Option<PidProgram>) -> u16
    ensures { result ≡ spec.number_of program }
{
    match program {
        None => 0,
        Some(carried) => carried.program,
    }
}

/// Appends a name, after a comma.
#[tactic(auto, unfolding(crate::specs::PidLabels::service_text))]
pub fn write_service(text: &mut String, name: Option<&str>) -> Result<(), AllocError>
    ensures { OnOk result (string_bytes text.new
        ≡ string_bytes text.old ++ spec.service_text (option_map (λ name. name.now) name.entry)) }
{
    match name {
        None => Ok(()),
        Some(name) => write!(text, ", {name}"),
    }
}

fn write_program(text: &mut String, program: u16) -> Result<(), AllocError>
    ensures { OnOk result (string_bytes text.new
        ≡ string_bytes text.old ++ spec.program_text program) }
{
    write!(text, " (program {program})")
}

// Appends what a PID carries.
#[tactic(auto, unfolding(crate::specs::PidLabels::carried_text))]
fn write_carried(
    text: &mut String,
    labels: &PidLabels,
    name: PidName,
    program: Option<PidProgram>,
) -> Result<(), AllocError>
    ensures { OnOk result (string_bytes text.new ≡ string_bytes text.old ++ spec.carried_text labels.now name program) }
{
    match program {
        None => text.push_str(name.word()),
        Some(carried) => {
            text.push_str(carried.name.word())?;
            write_service(text, labels.service_of(carried.program))?;
            write_program(text, carried.program)
        }
    }
}

/// Appends what a PID carries.
#[tactic(auto, unfolding(crate::specs::PidLabels::label_text))]
pub fn write_label(text: &mut String, labels: &PidLabels, pid: u16) -> Result<(), AllocError>
    ensures { OnOk result (string_bytes text.new ≡ string_bytes text.old ++ spec.label_text labels.now pid) }
{
    write_carried(text, labels, PidName::of_pid(pid), labels.program_of(pid))
}

/// Appends a PID and what it carries; if no program of the PID is known, a name.
#[tactic(auto, unfolding(crate::specs::PidLabels::pid_text))]
pub fn write_pid(
    text: &mut String,
    labels: &PidLabels,
    pid: u16,
    name: PidName,
) -> Result<(), AllocError>
    ensures { OnOk result (string_bytes text.new ≡ string_bytes text.old ++ spec.pid_text labels.now pid name) }
{
    write!(text, "PID {pid} ")?;
    write_carried(text, labels, name, labels.program_of(pid))
}
