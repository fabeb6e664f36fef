//! The lines for packets that are not in step, and for inputs that are no transport stream.

ghost use Rattle.std.specs.Prelude.{◌≡◌, ◌++◌, OnOk, string_bytes};
ghost use Rattle.job_run.specs.SlipLines as spec;

use packet_sync::{FileForm, Slip};
use std::alloc::AllocError;
use std::fmt::Write;

// Appends the line of a slip.
#[tactic(auto, unfolding(crate::specs::SlipLines::slip_line))]
fn write_slip(slip: &Slip, text: &mut String) -> Result<(), AllocError>
    ensures { OnOk result (string_bytes text.new ≡ string_bytes text.old ++ spec.slip_line slip.now) }
{
    let Slip { packet, size, .. } = *slip;
    write!(text, "packet {packet} slip of {size} bytes\n")
}

/// Appends a line for each slip.
pub(crate) fn write_slips(slips: &[Slip], text: &mut String) -> Result<(), AllocError>
    ensures { OnOk result (string_bytes text.new ≡ string_bytes text.old ++ spec.slip_lines slips.now) }
{
    for slip in slips {
        write_slip(slip, text)?;
    }
    Ok(())
}

// Returns how ffmpeg makes a transport stream of a file of this form: with its streams as they are, if most such files
// have streams of codings that a transport stream carries.
#[tactic(auto, unfolding(crate::specs::SlipLines::remedy))]
fn remedy(form: FileForm) -> &'static str
    ensures { result.now ≡ spec.remedy form }
{
    match form {
        FileForm::Mp4 | FileForm::Matroska | FileForm::Avi | FileForm::ProgramStream => {
            ": ffmpeg -i IN -c copy -f mpegts OUT makes one"
        }
        FileForm::Wave | FileForm::Ogg | FileForm::ElementaryStream => {
            ": ffmpeg -i IN -f mpegts OUT makes one"
        }
        FileForm::NetworkCapture | FileForm::Text | FileForm::Unknown => "",
    }
}

// Appends the form of an input that is no transport stream.
fn write_form(form: FileForm, text: &mut String) -> Result<(), AllocError>
    ensures { OnOk result (string_bytes text.new ≡ string_bytes text.old ++ spec.form_text form) }
{
    text.push_str(form.words())?;
    text.push_str(", not a transport stream")
}

// Appends what makes a transport stream of it, if something does, and ends the line.
fn write_remedy(form: FileForm, text: &mut String) -> Result<(), AllocError>
    ensures { OnOk result (string_bytes text.new ≡ string_bytes text.old ++ spec.remedy_text form) }
{
    text.push_str(remedy(form))?;
    text.push_str("\n")
}

/// Appends the line for an input that is no transport stream but of this form.
pub(crate) fn write_no_stream(form: FileForm, text: &mut String) -> Result<(), AllocError>
    ensures { OnOk result (string_bytes text.new ≡ string_bytes text.old ++ spec.no_stream_line form) }
{
    write_form(form, text)?;
    write_remedy(form, text)
}
