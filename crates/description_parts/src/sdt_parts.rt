//! The services in each section of the service description table (EN 300 468, 5.2.3).

ghost use Rattle.std.specs.Prelude.{◌≡◌, ◌≤◌, [], length, map, option_map, slice_get, IfSome};
ghost use Rattle.description_parts.specs.Cuts.{cut};
ghost use Rattle.description_parts.specs.Tables.{most_services, sdt_parts, service_length};

use crate::contents::Contents;
use crate::program::ProgramDescription;
use crate::section_lengths::service_length;
use crate::section_places::places_at;
use arrayvec::ArrayVec;

fn service_lengths(programs: &[ProgramDescription]) -> ArrayVec<u16, 64>
    requires { length programs.now ≤ 64 }
    ensures { result.items ≡ map service_length programs.now }
{
    let mut lengths = ArrayVec::new();
    for program in programs {
        lengths.push(service_length(program) as u16);
    }
    lengths
}

// Returns the services of a section, of as many sections as the services need.
fn part_at(programs: &[ProgramDescription], part: usize) -> Option<&[ProgramDescription]>
    requires { length programs.now ≤ 64 }
    ensures value { option_map (λ s. s.now) result
        ≡ slice_get (cut service_length most_services 0 [] programs.now) part }
    ensures few { IfSome result (λ s. length s.now ≤ 64) }
{
    let lengths = service_lengths(programs);
    match places_at(lengths.as_slice(), 1009, 0, part) {
        None => None,
        Some((begin, end)) => Some(&programs[begin..end]),
    }
}

impl Contents {
    /// Returns the services of a section of the SDT, in order.
    pub fn sdt_part(&self, part: usize) -> Option<&[ProgramDescription]>
        ensures value { option_map (λ s. s.now) result ≡ slice_get (sdt_parts self.now) part }
        ensures few { IfSome result (λ s. length s.now ≤ 64) }
    {
        if self.is_transponder() {
            return part_at(self.programs(), part);
        }
        if part == 0 {
            Some(self.programs())
        } else {
            None
        }
    }
}
