//! The greatest lengths of the sections of the EIT, over all moments.

ghost use Rattle.std.specs.Prelude.{◌≡◌, ◌≤◌, ◌+◌, ◌++◌, length, map, filter};
ghost use Rattle.arrayvec.specs.ArrayVec.{array_vec_len};
ghost use Rattle.description_parts.specs.Tables as spec;

use crate::contents::Contents;
use crate::event::EventDescription;
use crate::program::ProgramDescription;
use crate::section_lengths::room_length;
use crate::table_kind::{TableKind, is_scheduled};
use arrayvec::ArrayVec;

// Returns the number of bytes of an event in an EIT section.
fn event_length(event: &EventDescription) -> usize
    ensures value { result ≡ spec.event_length event.now }
    ensures bound { result ≤ 4012 }
{
    12 + event.descriptors().len()
}

fn longest_event(events: &[EventDescription]) -> usize
    ensures value { result ≡ spec.longest_event events.now }
    ensures bound { result ≤ 4012 }
{
    let mut longest = 0;
    for event in events {
        longest = usize::max(longest, event_length(event));
    }
    longest
}

fn eit_length(program: &ProgramDescription) -> usize
    ensures value { result ≡ spec.eit_length program.now }
    ensures bound { result ≤ 4030 }
{
    18 + longest_event(program.events())
}

// Returns the greatest length of a section of a program, with room for a number of packets.
fn schedule_length(packets: u8, program: &ProgramDescription) -> u16
    ensures { result ≡ spec.schedule_length packets program.now }
{
    room_length(4096, packets, eit_length(program)) as u16
}

// Returns the lengths of each program's two sections.
fn eit_lengths(all: bool, packets: u8, programs: &[ProgramDescription]) -> ArrayVec<u16, 128>
    requires { length programs.now ≤ 64 }
    ensures { result.items ≡ spec.eit_lengths packets (filter (spec.is_scheduled all) programs.now) }
{
    let mut lengths = ArrayVec::new();
    for program in programs {
        if is_scheduled(all, program) {
            let length = schedule_length(packets, program);
            lengths.push(length);
            lengths.push(length);
        }
    }
    lengths
}

// Appends the length of a section of each program.
fn push_eit_lengths(
    lengths: &mut ArrayVec<u16, 128>,
    all: bool,
    packets: u8,
    programs: &[ProgramDescription],
)
    requires { array_vec_len lengths.old + length programs.now ≤ 128 }
    ensures value { lengths.new.items ≡ lengths.old.items
        ++ map (spec.schedule_length packets) (filter (spec.is_scheduled all) programs.now) }
    ensures most { length lengths.new.items ≤ length lengths.old.items + length programs.now }
{
    for program in programs {
        if is_scheduled(all, program) {
            lengths.push(schedule_length(packets, program));
        }
    }
}

// Returns the lengths of the sections for the present events, then those of the sections for the following events.
fn eit_lengths_in_turn(
    all: bool,
    packets: u8,
    programs: &[ProgramDescription],
) -> ArrayVec<u16, 128>
    requires { length programs.now ≤ 64 }
    ensures { result.items ≡ map (spec.schedule_length packets) (filter (spec.is_scheduled all) programs.now)
        ++ map (spec.schedule_length packets) (filter (spec.is_scheduled all) programs.now) }
{
    let mut lengths = ArrayVec::new();
    push_eit_lengths(&mut lengths, all, packets, programs);
    push_eit_lengths(&mut lengths, all, packets, programs);
    lengths
}

impl Contents {
    // Returns the packets of each section of the EIT; one reserves nothing.
    fn eit_room(&self) -> u8
        ensures { result ≡ spec.eit_room self.now }
    {
        if self.has_eit() { self.rooms().eit } else { 1 }
    }

    // Returns the greatest length of each section of the EIT.
    pub(crate) fn event_lengths(&self) -> ArrayVec<u16, 128>
        ensures { result.items ≡ spec.kind_lengths self.now TableKind.Eit }
    {
        if self.is_transponder() {
            eit_lengths_in_turn(self.has_eit(), self.eit_room(), self.programs())
        } else {
            eit_lengths(self.has_eit(), self.eit_room(), self.programs())
        }
    }
}
