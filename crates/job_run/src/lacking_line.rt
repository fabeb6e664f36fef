//! The lines for a program that would be written without a picture, or without sound.

ghost use Rattle.std.specs.Prelude.{◌≡◌, ◌++◌, OnOk, string_bytes};
ghost use Rattle.job_run.specs.RefusalLine as spec;

use crate::refusal_line::write_reason_in;
use job_programs::{JobRefusal, LeftOutCause, StreamKind};
use std::alloc::AllocError;
use std::fmt::Write;

// Returns the refusal of a stream that is left out for this cause.
#[tactic(auto, unfolding(crate::specs::RefusalLine::refusal_of))]
fn refusal_of(pid: u16, cause: LeftOutCause) -> JobRefusal
    ensures { result ≡ spec.refusal_of pid cause }
{
    match cause {
        LeftOutCause::Scrambled => JobRefusal::Scrambled(pid),
        LeftOutCause::StreamId { packet, id } => JobRefusal::StreamId { packet, pid, id },
        LeftOutCause::NoStamps => JobRefusal::NoStamps(pid),
        LeftOutCause::OtherStreamId { packet, id, first } => JobRefusal::OtherStreamId {
            packet,
            pid,
            id,
            first,
        },
        LeftOutCause::Stamps {
            packet,
            fault,
            mended,
        } => JobRefusal::Stamps {
            packet,
            pid,
            fault,
            mended,
        },
        LeftOutCause::Dts(fault) => JobRefusal::Dts { pid, fault },
        LeftOutCause::Units(count) => JobRefusal::Units { pid, count },
        LeftOutCause::Size(size) => JobRefusal::Size { pid, size },
        LeftOutCause::Buffers {
            size,
            rx,
            main,
            way_out,
        } => JobRefusal::Buffers {
            pid,
            size,
            rx,
            main,
            way_out,
        },
    }
}

// Returns what a program would lack.
#[tactic(auto, unfolding(crate::specs::RefusalLine::kind_text))]
fn kind_text(kind: StreamKind) -> &'static str
    ensures { result.now ≡ spec.kind_text kind }
{
    match kind {
        StreamKind::Picture => "picture",
        StreamKind::Sound => "sound",
    }
}

// Appends that a program would lack something.
#[tactic(auto, unfolding(crate::specs::RefusalLine::lacking_program))]
fn write_program(program: u16, text: &mut String) -> Result<(), AllocError>
    ensures { OnOk result (string_bytes text.new ≡ string_bytes text.old ++ spec.lacking_program program) }
{
    write!(text, "program {program} would have no ")
}

// Appends how it is written all the same.
#[tactic(auto, unfolding(crate::specs::RefusalLine::lenient_text))]
fn write_lenient(pid: u16, text: &mut String) -> Result<(), AllocError>
    ensures { OnOk result (string_bytes text.new ≡ string_bytes text.old ++ spec.lenient_text pid) }
{
    write!(text, ": --lenient leaves pid {pid} out\n")
}

/// Appends that a program would lack a picture, or sound, and how it is written all the same.
#[tactic(auto, unfolding(crate::specs::RefusalLine::lacking_line))]
pub(crate) fn write_lacking(
    program: u16,
    pid: u16,
    kind: StreamKind,
    text: &mut String,
) -> Result<(), AllocError>
    ensures { OnOk result (string_bytes text.new ≡ string_bytes text.old ++ spec.lacking_line program pid kind) }
{
    write_program(program, text)?;
    text.push_str(kind_text(kind))?;
    write_lenient(pid, text)
}

/// Appends why a stream can't be carried, in a recording with streams of these PIDs whose clocks go back, and what its
/// program would lack.
#[tactic(auto, unfolding(crate::specs::RefusalLine::lacking_in))]
pub(crate) fn write_lacking_in(
    falling: &[u16],
    program: u16,
    pid: u16,
    kind: StreamKind,
    cause: LeftOutCause,
    text: &mut String,
) -> Result<(), AllocError>
    ensures { OnOk result (string_bytes text.new
        ≡ string_bytes text.old ++ spec.lacking_in falling.now program pid kind cause) }
{
    write_reason_in(falling, refusal_of(pid, cause), text)?;
    write_lacking(program, pid, kind, text)
}
