//! The lines for changes of codings in a joined recording.

ghost use Rattle.std.specs.Prelude.{◌≡◌, ◌++◌, OnOk, string_bytes};
ghost use Rattle.job_run.specs.RecodingLines as spec;

use joined_parts::Recoding;
use std::alloc::AllocError;
use std::fmt::Write;

// Appends the line of a change.
#[tactic(auto, unfolding(crate::specs::RecodingLines::recoding_line))]
fn write_recoding(recoding: &Recoding, text: &mut String) -> Result<(), AllocError>
    ensures { OnOk result (string_bytes text.new ≡ string_bytes text.old ++ spec.recoding_line recoding.now) }
{
    let Recoding { pid, to, packet } = *recoding;
    write!(
        text,
        "pid {pid} has another coding from packet {packet}: what comes before is carried as pid {to}\n"
    )
}

// Appends a line for each change.
fn write_recodings(recodings: &[Recoding], text: &mut String) -> Result<(), AllocError>
    ensures { OnOk result (string_bytes text.new ≡ string_bytes text.old ++ spec.recoding_lines recodings.now) }
{
    for recoding in recodings {
        write_recoding(recoding, text)?;
    }
    Ok(())
}

/// Appends a line for each change, if all lines are reported.
#[tactic(auto, unfolding(crate::specs::RecodingLines::recodings_text))]
pub(crate) fn push_recodings(
    all: bool,
    recodings: &[Recoding],
    text: &mut String,
) -> Result<(), AllocError>
    ensures { OnOk result (string_bytes text.new ≡ string_bytes text.old ++ spec.recodings_text all recodings.now) }
{
    if !all {
        return Ok(());
    }
    write_recodings(recodings, text)
}
