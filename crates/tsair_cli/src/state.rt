//! The file of `--state`: the versions of the texts in force, as the key `versions` of a description has them.

ghost use Rattle.std.specs.Prelude.{◌≡◌, ◌++◌, IfOk, OnOk, flat_map, option_map, string_bytes};
ghost use Rattle.devices.specs.Devices.{writes};
ghost use Rattle.tsair_cli.specs.States as spec;

use counted_io::Sink;
use description::Description;
use description_parts::{ProgramDescription, Versions};
use devices::{OutputFiles, report_of, save_named};
use std::alloc::{AllocError, Global};
use std::fmt::Write;

// Appends the versions of PAT, NIT and SDT.
#[tactic(auto, unfolding(crate::specs::States::common_text))]
fn write_common(versions: Versions, line: &mut String) -> Result<(), AllocError>
    ensures { OnOk result (string_bytes line.new ≡ string_bytes line.old ++ spec.common_text versions) }
{
    let (pat, nit, sdt) = (versions.pat, versions.nit, versions.sdt);
    write!(
        line,
        "versions = [\"PAT {pat}\", \"NIT {nit}\", \"SDT {sdt}\""
    )
}

// Appends the versions of a program's PMT and EIT.
#[tactic(auto, unfolding(crate::specs::States::program_text))]
fn write_program(program: &ProgramDescription, line: &mut String) -> Result<(), AllocError>
    ensures { OnOk result (string_bytes line.new ≡ string_bytes line.old ++ spec.program_text program.now) }
{
    let (number, version, count) = (program.number(), program.pmt_version(), program.eit_count());
    write!(
        line,
        ", \"PMT {number} {version}\", \"EIT {number} {count}\""
    )
}

// Appends the versions of each program's PMT and EIT.
fn write_programs(programs: &[ProgramDescription], line: &mut String) -> Result<(), AllocError>
    ensures { OnOk result (string_bytes line.new ≡ string_bytes line.old ++ flat_map spec.program_text programs.now) }
{
    for program in programs {
        write_program(program, line)?;
    }
    Ok(())
}

// Returns the line with the versions of a description.
#[tactic(auto, unfolding(crate::specs::States::state_line))]
fn state_line(alloc: Global, texts: &Description) -> Result<String, AllocError>
    ensures { IfOk result (λ line. string_bytes line ≡ spec.state_line texts.now) }
{
    let mut line = String::new(alloc);
    write_common(texts.versions(), &mut line)?;
    write_programs(texts.programs(), &mut line)?;
    line.push_str("]\n")?;
    Ok(line)
}

// Writes the versions of texts as a new file that takes the place of the file of this name. Returns whether they are
// lost, which is reported.
fn loses_state<F: OutputFiles, E: Sink>(
    alloc: Global,
    files: &F,
    name: &str,
    texts: &Description,
    faults: &mut E,
) -> bool
    ensures { spec.SavesState (F.creates files.now name.now) (F.keeps files.now name.now) name.now texts.now
        (writes E.Sink faults.old faults.new) result }
{
    match state_line(alloc, texts) {
        Ok(line) => save_named(files, name, line.as_bytes(), 0, faults) != 0,
        Err(_) => {
            report_of(name, ": can't be written\n", faults);
            true
        }
    }
}

/// Writes the versions of texts as a new file that takes the place of the file of this name, if a name is given. Returns
/// whether they are lost, which is reported.
pub(crate) fn save_state<F: OutputFiles, E: Sink>(
    alloc: Global,
    files: &F,
    name: Option<&str>,
    texts: &Description,
    faults: &mut E,
) -> bool
    ensures { spec.KeepsState (spec.saving_of (F.creates files.now) (F.keeps files.now) (option_map (λ s. s.now) name.entry))
        texts.now (writes E.Sink faults.old faults.new) result }
{
    match name {
        Some(name) => loses_state(alloc, files, name, texts, faults),
        None => false,
    }
}
