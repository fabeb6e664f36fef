//! The PIDs that the sections of PAT, CAT and PMT name.
ghost use Rattle.std.specs.Prelude.{◌≡◌, ◌++◌, OnOk, map, flat_map, option_to_list};
ghost use Rattle.descriptor_loops.specs.Descriptors.{descriptor_view};
ghost use Rattle.psi_tables.specs.ProgramAssociation.{pat_at, programs_of};
ghost use Rattle.psi_tables.specs.ProgramMap.{pmt_at, pmt_view, stream_view, streams_of};
ghost use Rattle.psi_tables.specs.Views.{section_view};
ghost use Rattle.ts_watch.specs.SectionPids as spec;

use descriptor_loops::{Descriptor, Descriptors};
use psi_tables::{PAT_TABLE_ID, PMT_TABLE_ID, Pat, Pmt, Programs, Section, Stream, Streams};
use std::alloc::AllocError;

// The table_id of a CAT.
const CAT_TABLE_ID: u8 = 0x01;

// The tag of a CA_descriptor.
const CONDITIONAL_ACCESS: u8 = 9;

// Returns the CA_PID in the body of a CA_descriptor, if the body is long enough.
#[tactic(auto, unfolding(crate::specs::SectionPids::access_pid))]
fn access_pid(body: &[u8]) -> Option<u16>
    ensures { option_to_list result ≡ spec.access_pid body.now }
{
    match body {
        [_, _, high, low, ..] => Some(u16::from_be_bytes([*high & 0x1f, *low])),
        _ => None,
    }
}

#[tactic(auto, unfolding(crate::specs::SectionPids::descriptor_pid))]
fn descriptor_pid(descriptor: Descriptor<'_>) -> Option<u16>
    ensures { option_to_list result ≡ spec.descriptor_pid (descriptor_view descriptor.entry) }
{
    if descriptor.tag == CONDITIONAL_ACCESS {
        access_pid(descriptor.body)
    } else {
        None
    }
}

fn push_descriptor(descriptor: Descriptor<'_>, pids: &mut Vec<u16>) -> Result<(), AllocError>
    ensures { OnOk result (pids.new.items
        ≡ pids.old.items ++ spec.descriptor_pid (descriptor_view descriptor.entry)) }
{
    if let Some(pid) = descriptor_pid(descriptor) {
        pids.push(pid)?;
    }
    Ok(())
}

// Appends the CA_PID of each CA_descriptor of a loop.
fn push_access(bytes: &[u8], pids: &mut Vec<u16>) -> Result<(), AllocError>
    ensures { OnOk result (pids.new.items ≡ pids.old.items ++ spec.access_pids bytes.now) }
{
    for descriptor in Descriptors::of(bytes) {
        push_descriptor(descriptor, pids)?;
    }
    Ok(())
}

fn push_stream(stream: Stream<'_>, pids: &mut Vec<u16>) -> Result<(), AllocError>
    ensures { OnOk result (pids.new.items
        ≡ pids.old.items ++ spec.stream_pids (stream_view stream.entry)) }
{
    pids.push(stream.elementary_pid)?;
    push_access(stream.descriptors, pids)
}

fn push_streams(streams: Streams<'_>, pids: &mut Vec<u16>) -> Result<(), AllocError>
    ensures { OnOk result (pids.new.items
        ≡ pids.old.items ++ flat_map spec.stream_pids (streams_of streams.entry)) }
{
    for stream in streams {
        push_stream(stream, pids)?;
    }
    Ok(())
}

fn push_pmt(pmt: &Pmt<'_>, pids: &mut Vec<u16>) -> Result<(), AllocError>
    ensures { OnOk result (pids.new.items ≡ pids.old.items ++ spec.pmt_pids (pmt_view pmt.now)) }
{
    pids.push(pmt.pcr_pid)?;
    push_access(pmt.program_info, pids)?;
    push_streams(pmt.streams, pids)
}

#[tactic(auto, unfolding(crate::specs::SectionPids::map_pids))]
fn push_map(section: &Section<'_>, pids: &mut Vec<u16>) -> Result<(), AllocError>
    ensures { OnOk result (pids.new.items
        ≡ pids.old.items ++ spec.map_pids (pmt_at (section_view section.now))) }
{
    match Pmt::read(section) {
        Err(_) => Ok(()),
        Ok(pmt) => push_pmt(&pmt, pids),
    }
}

fn push_programs(programs: Programs<'_>, pids: &mut Vec<u16>) -> Result<(), AllocError>
    ensures { OnOk result (pids.new.items
        ≡ pids.old.items ++ map (λ p. p.pid) (programs_of programs.entry)) }
{
    for program in programs {
        pids.push(program.pid)?;
    }
    Ok(())
}

#[tactic(auto, unfolding(crate::specs::SectionPids::association_pids))]
fn push_association(section: &Section<'_>, pids: &mut Vec<u16>) -> Result<(), AllocError>
    ensures { OnOk result (pids.new.items
        ≡ pids.old.items ++ spec.association_pids (pat_at (section_view section.now))) }
{
    match Pat::read(section) {
        Err(_) => Ok(()),
        Ok(pat) => push_programs(pat.programs, pids),
    }
}

/// Appends the PIDs that a section of PAT, CAT or PMT names.
pub(crate) fn push_table(section: &Section<'_>, pids: &mut Vec<u16>) -> Result<(), AllocError>
    ensures { OnOk result (pids.new.items
        ≡ pids.old.items ++ spec.table_pids (section_view section.now)) }
{
    if section.header.table_id == PAT_TABLE_ID {
        push_association(section, pids)
    } else if section.header.table_id == CAT_TABLE_ID {
        push_access(section.body, pids)
    } else if section.header.table_id == PMT_TABLE_ID {
        push_map(section, pids)
    } else {
        Ok(())
    }
}

/// Returns whether the bytes begin with the table_id of a PAT, a CAT or a PMT.
#[tactic(auto, unfolding(crate::specs::SectionPids::may_name))]
pub(crate) fn may_name(bytes: &[u8]) -> bool
    ensures { result ≡ spec.may_name bytes.now }
{
    match bytes {
        [table_id, ..] => *table_id < 3,
        _ => false,
    }
}
