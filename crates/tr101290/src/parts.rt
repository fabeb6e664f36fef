//! The parts of tables that have to recur by themselves.
ghost use Rattle.std.specs.Prelude.{◌≡◌, slice_index};
ghost use Rattle.pid_findings.specs.Shown.{what_view};
ghost use Rattle.tr101290.specs.Parts as spec;

use pid_findings::What;
use std::alloc::Allocator;

fn is_map(table_id: u8) -> bool
    ensures { result ≡ spec.is_map table_id }
{
    table_id == 0x02
}

/// Returns whether each part of a table has to recur by itself: the map of each program, and each section of an EIT of
/// present and following events.
pub fn has_parts(pid: u16, table_id: u8) -> bool
    ensures { result ≡ spec.has_parts pid table_id }
{
    is_map(table_id) || (pid == 0x12 && (table_id == 0x4E || table_id == 0x4F))
}

/// Returns a byte, or 0 past the end.
pub(crate) fn byte_at(bytes: &[u8], at: usize) -> u8
    ensures { result ≡ slice_index bytes.now at }
{
    match bytes.get(at) {
        Some(byte) => *byte,
        None => 0,
    }
}

// Returns program_number of a map, otherwise section_number.
fn part_in(table_id: u8, bytes: &[u8]) -> u16
    ensures { result ≡ spec.part_in table_id bytes.now }
{
    if is_map(table_id) {
        u16::from(byte_at(bytes, 3)) * 256 + u16::from(byte_at(bytes, 4))
    } else {
        u16::from(byte_at(bytes, 6))
    }
}

/// Returns the part of a table of a finding that is a whole section of it; none of a table without parts.
#[tactic(auto, unfolding(crate::specs::Parts::part_of))]
pub(crate) fn part_of<A: Allocator>(pid: u16, table_id: u8, what: &What<'_, A>) -> Option<u16>
    ensures { result ≡ spec.part_of pid table_id (what_view what.now) }
{
    match what {
        What::Section(part) => {
            if has_parts(pid, table_id) {
                Some(part_in(table_id, part.bytes()))
            } else {
                None
            }
        }
        _ => None,
    }
}
