//! The warnings about options that name a missing thing.

ghost use Rattle.std.specs.Prelude.{◌≡◌, ◌==◌, ◌++◌, OnOk, flat_map};
ghost use Rattle.std.specs.List.{list_any};
ghost use Rattle.program_tables.specs.Association.{is_named};
ghost use Rattle.job_programs.specs.Warnings as spec;

use crate::named_numbers::numbers_named;
use crate::warning::{ProgramWarning, Warning};
use es_buffers::PidBuffers;
use given_values::ServiceName;
use program_tables::Association;
use std::alloc::AllocError;
use stream_programs::FoundStream;

// Returns whether a program is named.
#[tactic(auto, unfolding(program_tables::specs::Association::is_named))]
fn is_named(association: &Association, number: u16) -> bool
    ensures { result ≡ is_named number association.now.programs }
{
    association
        .programs
        .iter()
        .any(|program| program.program_number == number)
}

// Appends a warning, if no program has a number that the options select.
#[tactic(auto, unfolding(crate::specs::Warnings::selection_warning))]
fn push_selection(
    association: &Association,
    number: u16,
    warnings: &mut Vec<Warning>,
) -> Result<(), AllocError>
    ensures { OnOk result (warnings.new.items ≡ warnings.old.items ++ spec.selection_warning association.now number) }
{
    if !is_named(association, number) {
        warnings.push(Warning::Program {
            program: number,
            what: ProgramWarning::Missing(numbers_named(&association.programs)),
        })?;
    }
    Ok(())
}

// Appends a warning for each number that the options select and no program has.
fn push_selections(
    association: &Association,
    programs: &[u16],
    warnings: &mut Vec<Warning>,
) -> Result<(), AllocError>
    ensures { OnOk result (warnings.new.items ≡ warnings.old.items
        ++ flat_map (spec.selection_warning association.now) programs.now) }
{
    for number in programs {
        push_selection(association, *number, warnings)?;
    }
    Ok(())
}

// Returns whether a stream has a PID.
fn has_stream(streams: &[FoundStream], pid: u16) -> bool
    ensures { result ≡ list_any (λ s. s.pid == pid) streams.now }
{
    streams.iter().any(|stream| stream.pid == pid)
}

// Appends the warning about a PID that an option names.
#[tactic(auto, unfolding(crate::specs::Warnings::pid_option_warning))]
fn push_pid(
    streams: &[FoundStream],
    pid: u16,
    warnings: &mut Vec<Warning>,
) -> Result<(), AllocError>
    ensures { OnOk result (warnings.new.items ≡ warnings.old.items ++ spec.pid_option_warning streams.now pid) }
{
    if !has_stream(streams, pid) {
        warnings.push(Warning::NoSuchStream { pid })?;
    }
    Ok(())
}

// Appends the warnings about PIDs that options name.
fn push_pids(
    streams: &[FoundStream],
    pids: &[u16],
    warnings: &mut Vec<Warning>,
) -> Result<(), AllocError>
    ensures { OnOk result (warnings.new.items ≡ warnings.old.items
        ++ flat_map (spec.pid_option_warning streams.now) pids.now) }
{
    for pid in pids {
        push_pid(streams, *pid, warnings)?;
    }
    Ok(())
}

// Appends the warning about a PID with buffers.
#[tactic(auto, unfolding(crate::specs::Warnings::buffer_warning))]
fn push_buffer(
    streams: &[FoundStream],
    one: PidBuffers,
    warnings: &mut Vec<Warning>,
) -> Result<(), AllocError>
    ensures { OnOk result (warnings.new.items ≡ warnings.old.items ++ spec.buffer_warning streams.now one) }
{
    push_pid(streams, one.pid, warnings)
}

// Appends the warnings about PIDs with buffers.
fn push_buffers(
    streams: &[FoundStream],
    buffers: &[PidBuffers],
    warnings: &mut Vec<Warning>,
) -> Result<(), AllocError>
    ensures { OnOk result (warnings.new.items ≡ warnings.old.items
        ++ flat_map (spec.buffer_warning streams.now) buffers.now) }
{
    for one in buffers {
        push_buffer(streams, *one, warnings)?;
    }
    Ok(())
}

// Appends the warning about a program whose service is given a name.
#[tactic(auto, unfolding(crate::specs::Warnings::name_warning))]
fn push_name(
    association: &Association,
    name: &ServiceName<'_>,
    warnings: &mut Vec<Warning>,
) -> Result<(), AllocError>
    ensures { OnOk result (warnings.new.items ≡ warnings.old.items ++ spec.name_warning association.now name.now) }
{
    push_selection(association, name.program, warnings)
}

// Appends the warnings about programs whose services are given names.
fn push_names(
    association: &Association,
    names: &[ServiceName<'_>],
    warnings: &mut Vec<Warning>,
) -> Result<(), AllocError>
    ensures { OnOk result (warnings.new.items ≡ warnings.old.items
        ++ flat_map (spec.name_warning association.now) names.now) }
{
    for name in names {
        push_name(association, name, warnings)?;
    }
    Ok(())
}

/// Appends the warnings about programs and PIDs that options name and that are not there.
pub fn push_option_warnings(
    programs: &[u16],
    without: &[u16],
    buffers: &[PidBuffers],
    names: &[ServiceName<'_>],
    aligned: &[u16],
    association: &Association,
    streams: &[FoundStream],
    warnings: &mut Vec<Warning>,
) -> Result<(), AllocError>
    ensures { OnOk result (warnings.new.items ≡ warnings.old.items
        ++ spec.option_warnings programs.now without.now buffers.now names.now aligned.now
        association.now streams.now) }
{
    push_selections(association, programs, warnings)?;
    push_pids(streams, without, warnings)?;
    push_buffers(streams, buffers, warnings)?;
    push_names(association, names, warnings)?;
    push_pids(streams, aligned, warnings)?;
    Ok(())
}
