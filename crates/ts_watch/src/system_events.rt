//! Events of the buffers of programs' tables.
ghost use Rattle.std.specs.Prelude.{◌≡◌, ◌++◌, OnOk};
ghost use Rattle.std.specs.Option.{option_to_list};
ghost use Rattle.system_tables.specs.Programs.{all_of};
ghost use Rattle.ts_watch.specs.SystemEvents as spec;

use crate::view_choice::ViewChoice;
use es_events::entry_events::{moment_of, with_one};
use es_events::view_options::ViewOptions;
use events::{BufferExcess, BufferKind, Event, SystemTotals};
use std::alloc::AllocError;
use system_tables::{DRAIN, ProgramTables, TableBuffer, TableExcess};
use tstd_rows::{Excess, SYSTEM_BYTES, TABLE_TRANSPORT_BYTES};

#[tactic(auto, unfolding(crate::specs::SystemEvents::size_of))]
fn size_of(buffer: TableBuffer) -> u64
    ensures { result ≡ spec.size_of buffer }
{
    match buffer {
        TableBuffer::Transport => TABLE_TRANSPORT_BYTES,
        TableBuffer::System => SYSTEM_BYTES,
    }
}

#[tactic(auto, unfolding(crate::specs::SystemEvents::kind_of))]
fn kind_of(buffer: TableBuffer) -> BufferKind
    ensures { result ≡ spec.kind_of buffer }
{
    match buffer {
        TableBuffer::Transport => BufferKind::TableTransport,
        TableBuffer::System => BufferKind::System,
    }
}

fn excess_event(options: &ViewOptions, packet: u64, reported: &TableExcess) -> Event
    ensures { result ≡ spec.excess_event options.now packet reported.now }
{
    Event::Excess(BufferExcess {
        number: reported.program,
        buffer: kind_of(reported.buffer),
        packet,
        begin: moment_of(options, DRAIN, reported.excess.begin),
        end: moment_of(options, DRAIN, reported.excess.end),
        peak: reported.excess.peak,
        size: size_of(reported.buffer),
    })
}

// Appends an excess, if its program is viewed.
fn push_excess_if(
    events: &mut Vec<Event>,
    options: &ViewOptions,
    choice: &ViewChoice,
    packet: u64,
    reported: &TableExcess,
) -> Result<(), AllocError>
    ensures { OnOk result (events.new.items
        ≡ events.old.items ++ spec.excess_if options.now choice.now packet reported.now) }
{
    if choice.takes(reported.program) {
        events.push(excess_event(options, packet, reported))?;
    }
    Ok(())
}

/// Appends each excess of a program that is viewed, found at a packet.
pub fn push_excesses(
    events: &mut Vec<Event>,
    options: &ViewOptions,
    choice: &ViewChoice,
    packet: u64,
    excesses: &[TableExcess],
) -> Result<(), AllocError>
    ensures { OnOk result (events.new.items
        ≡ events.old.items ++ spec.excess_events options.now choice.now packet excesses.now) }
{
    for reported in excesses {
        push_excess_if(events, options, choice, packet, reported)?;
    }
    Ok(())
}

fn system_event(program: &ProgramTables) -> Event
    ensures { result ≡ spec.system_event program.now }
{
    let transport_excesses = with_one(program.transport_excesses(), &program.transport_excess());
    let main_excesses = with_one(program.system_excesses(), &program.system_excess());
    Event::System(SystemTotals {
        program: program.number(),
        transport: program.transport_most(),
        transport_size: TABLE_TRANSPORT_BYTES,
        transport_excesses,
        main: program.system_most(),
        main_size: SYSTEM_BYTES,
        main_excesses,
    })
}

fn push_if(
    events: &mut Vec<Event>,
    choice: &ViewChoice,
    program: &ProgramTables,
) -> Result<(), AllocError>
    ensures { OnOk result (events.new.items ≡ events.old.items ++ spec.event_if choice.now program.now) }
{
    if choice.takes(program.number()) {
        events.push(system_event(program))?;
    }
    Ok(())
}

// Returns the excess of a buffer that has not ended, if any.
fn push_under_way(
    events: &mut Vec<Event>,
    options: &ViewOptions,
    choice: &ViewChoice,
    packets: u64,
    program: u16,
    buffer: TableBuffer,
    excess: &Option<Excess>,
) -> Result<(), AllocError>
    ensures { OnOk result (events.new.items ≡ events.old.items
        ++ spec.excess_events options.now choice.now packets (all_of program buffer (option_to_list excess.now))) }
{
    match excess {
        None => Ok(()),
        Some(excess) => {
            let reported = TableExcess {
                program,
                buffer,
                excess: *excess,
            };
            push_excess_if(events, options, choice, packets, &reported)
        }
    }
}

// Appends the excess that has not ended, and the totals.
fn push_program(
    events: &mut Vec<Event>,
    options: &ViewOptions,
    choice: &ViewChoice,
    packets: u64,
    program: &ProgramTables,
) -> Result<(), AllocError>
    ensures { OnOk result (events.new.items
        ≡ events.old.items ++ spec.events_of options.now choice.now packets program.now) }
{
    let number = program.number();
    let transport = program.transport_excess();
    let system = program.system_excess();
    push_under_way(
        events,
        options,
        choice,
        packets,
        number,
        TableBuffer::Transport,
        &transport,
    )?;
    push_under_way(
        events,
        options,
        choice,
        packets,
        number,
        TableBuffer::System,
        &system,
    )?;
    push_if(events, choice, program)
}

/// Appends the totals of each program that is viewed, at the end of a stream of `packets` packets.
pub fn push_systems(
    events: &mut Vec<Event>,
    options: &ViewOptions,
    choice: &ViewChoice,
    packets: u64,
    programs: &[ProgramTables],
) -> Result<(), AllocError>
    ensures { OnOk result (events.new.items
        ≡ events.old.items ++ spec.system_events options.now choice.now packets programs.now) }
{
    for program in programs {
        push_program(events, options, choice, packets, program)?;
    }
    Ok(())
}

// Returns whether neither buffer of a program that is viewed held more than its size.
fn fits(choice: &ViewChoice, program: &ProgramTables) -> bool
    ensures { result ≡ spec.fits choice.now program.now }
{
    !choice.takes(program.number())
        || (program.transport_most() <= u128::from(TABLE_TRANSPORT_BYTES)
            && program.system_most() <= u128::from(SYSTEM_BYTES))
}

/// Returns whether no buffer of a program that is viewed held more than its size.
pub fn all_fit(choice: &ViewChoice, programs: &[ProgramTables]) -> bool
    ensures { result ≡ spec.all_fit choice.now programs.now }
{
    programs.iter().all(|program| fits(choice, program))
}
