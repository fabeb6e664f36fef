//! Excesses of the buffers of programs' tables.
ghost use Rattle.std.specs.Prelude.{◌≡◌, ◌++◌, OnOk};
ghost use Rattle.system_tables.specs.Programs as spec;

use std::alloc::AllocError;
use tstd_rows::{EndedExcesses, Excess};

/// A buffer of a program's tables.
#[derive(Clone, Copy)]
pub enum TableBuffer {
    Transport,
    System,
}

/// An excess of a buffer of a program's tables.
#[derive(Clone, Copy)]
pub struct TableExcess {
    pub program: u16,
    pub buffer: TableBuffer,
    pub excess: Excess,
}

// Appends the excesses of a buffer.
fn append(
    all: &mut Vec<TableExcess>,
    program: u16,
    buffer: TableBuffer,
    excesses: &[Excess],
) -> Result<(), AllocError>
    ensures { OnOk result (all.new.items ≡ all.old.items ++ spec.all_of program buffer excesses.now) }
{
    for excess in excesses {
        all.push(TableExcess {
            program,
            buffer,
            excess: *excess,
        })?;
    }
    Ok(())
}

/// Appends the excesses of both buffers of a program.
pub(crate) fn append_ended(
    all: &mut Vec<TableExcess>,
    program: u16,
    ended: &EndedExcesses,
) -> Result<(), AllocError>
    ensures { OnOk result (all.new.items
        ≡ all.old.items ++ spec.reported program ended.now.transport.items ended.now.system.items) }
{
    append(all, program, TableBuffer::Transport, &ended.transport)?;
    append(all, program, TableBuffer::System, &ended.system)
}
