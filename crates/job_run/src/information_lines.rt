//! The lines of warnings about service information.

ghost use Rattle.std.specs.Prelude.{◌≡◌, ◌++◌, OnOk, string_bytes};
ghost use Rattle.job_run.specs.InformationLines as spec;

use service_information::InformationWarning;
use std::alloc::AllocError;
use std::fmt::Write;

/// Appends the line of a warning.
#[tactic(auto, unfolding(crate::specs::InformationLines::information_line))]
pub(crate) fn write_information(
    warning: InformationWarning,
    text: &mut String,
) -> Result<(), AllocError>
    ensures { OnOk result (string_bytes text.new ≡ string_bytes text.old ++ spec.information_line warning) }
{
    match warning {
        InformationWarning::EventSurplus { packet } => write!(
            text,
            "packet {packet} EIT has an event that cannot be carried: left out\n"
        ),
        InformationWarning::TimeSurplus { packet } => {
            write!(text, "packet {packet} TDT says no time: left out\n")
        }
        InformationWarning::BadSection { pid, packet } => {
            write!(text, "packet {packet} pid {pid} bad-section\n")
        }
    }
}
