//! The PIDs of a program as a list.
ghost use Rattle.std.specs.Prelude.{◌≡◌, ◌++◌, OnOk, flat_map, string_bytes};
ghost use Rattle.page_charts.specs.Branches as spec;

use crate::stack::write_program;
use events::PidName;
use page_curves::PidLabels;
use std::alloc::AllocError;
use std::fmt::Write;

// A PID and what it carries.
#[tactic(auto, unfolding(crate::specs::Branches::item))]
fn write_item(text: &mut String, pid: u16, name: PidName) -> Result<(), AllocError>
    ensures { OnOk result (string_bytes text.new ≡ string_bytes text.old ++ spec.item pid name) }
{
    let word = name.word();
    write!(text, "<li>PID {pid} {word}\n")
}

// The same, if the PID is of a program.
fn write_item_if(
    text: &mut String,
    labels: &PidLabels,
    program: u16,
    pid: u16,
    name: PidName,
) -> Result<(), AllocError>
    ensures { OnOk result (string_bytes text.new
        ≡ string_bytes text.old ++ spec.item_if labels.now program (pid, name)) }
{
    if labels.program_number(pid) == program {
        write_item(text, pid, name)
    } else {
        Ok(())
    }
}

// The PIDs of a program, in the order of their first packets.
fn write_items(text: &mut String, labels: &PidLabels, program: u16) -> Result<(), AllocError>
    ensures { OnOk result (string_bytes text.new
        ≡ string_bytes text.old ++ flat_map (spec.item_if labels.now program) labels.now.names) }
{
    for (pid, name) in &labels.names {
        write_item_if(text, labels, program, *pid, *name)?;
    }
    Ok(())
}

/// Appends a program and the name of its service, with the PIDs of the program and what each carries, as an item of a
/// list; program 0 has the PIDs of no program.
#[tactic(auto, unfolding(crate::specs::Branches::branch))]
pub fn write_branch(text: &mut String, labels: &PidLabels, program: u16) -> Result<(), AllocError>
    ensures { OnOk result (string_bytes text.new ≡ string_bytes text.old ++ spec.branch labels.now program) }
{
    text.push_str("<li>")?;
    write_program(text, labels, program)?;
    text.push_str("<ul>\n")?;
    write_items(text, labels, program)?;
    text.push_str("</ul>\n")
}
