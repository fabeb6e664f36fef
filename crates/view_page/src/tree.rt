//! All programs and their PIDs as a list.
ghost use Rattle.std.specs.Prelude.{◌≡◌, ◌++◌, OnOk, flat_map, string_bytes};
ghost use Rattle.view_page.specs.Trees as spec;

use crate::services::ProgramRates;
use page_charts::write_branch;
use page_curves::PidLabels;
use std::alloc::AllocError;

// A program and its PIDs; 0 is none.
fn write_branch_if(text: &mut String, labels: &PidLabels, program: u16) -> Result<(), AllocError>
    ensures { OnOk result (string_bytes text.new ≡ string_bytes text.old ++ spec.branch_if labels.now program) }
{
    if program == 0 {
        Ok(())
    } else {
        write_branch(text, labels, program)
    }
}

fn write_branches(
    text: &mut String,
    labels: &PidLabels,
    programs: &ProgramRates,
) -> Result<(), AllocError>
    ensures { OnOk result (string_bytes text.new
        ≡ string_bytes text.old ++ flat_map (spec.entry_branch labels.now) programs.now.entries) }
{
    for (program, _) in programs {
        write_branch_if(text, labels, *program)?;
    }
    Ok(())
}

/// Appends the programs with their PIDs, and the PIDs of no program at the end.
#[tactic(auto, unfolding(crate::specs::Trees::tree))]
pub(crate) fn write_tree(
    text: &mut String,
    labels: &PidLabels,
    programs: &ProgramRates,
) -> Result<(), AllocError>
    ensures { OnOk result (string_bytes text.new
        ≡ string_bytes text.old ++ spec.tree labels.now programs.now.entries) }
{
    write_branches(text, labels, programs)?;
    write_branch(text, labels, 0)?;
    text.push_str("</ul>\n")
}
