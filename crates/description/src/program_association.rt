//! The program association section of a description (ISO/IEC 13818-1, 2.4.4.3).

ghost use Rattle.std.specs.Prelude.{◌≡◌, ◌≤◌, ◌<◌, ◌++◌, ◌+◌, [], ◌∷◌, All, length, map};
ghost use Rattle.psi_tables.specs.ProgramAssociation.{program_loop_of, pat_section};
ghost use Rattle.psi_tables.specs.Encoding.{section_bytes};
ghost use Rattle.description_parts.specs.Ranges.{IsProgram};
ghost use Rattle.description.specs.SectionBytes as spec;

use crate::description::Description;
use arrayvec::ArrayVec;
use description_parts::ProgramDescription;
use psi_tables::{LongHeader, Pat, Program, ProgramLoop};

// Adds an entry, for which there is room.
fn push_entry(entries: &mut ProgramLoop, entry: Program)
    requires pid { entry.pid < 8192 }
    requires room { length (program_loop_of entries.old) < 253 }
    ensures { program_loop_of entries.new ≡ program_loop_of entries.old ++ entry ∷ [] }
{
    match entries.push(entry) {
        Ok(()) => {}
        Err(_) => unreachable!(),
    }
}

fn push_programs(entries: &mut ProgramLoop, programs: &[ProgramDescription])
    requires ranges { All IsProgram programs.now }
    requires room { length (program_loop_of entries.old) + length programs.now ≤ 253 }
    ensures { program_loop_of entries.new ≡ program_loop_of entries.old ++ map spec.pat_entry programs.now }
{
    for program in programs {
        push_entry(
            entries,
            Program {
                program_number: program.number(),
                pid: program.pmt_pid(),
            },
        );
    }
}

impl Description {
    fn network_entries(&self) -> ProgramLoop
        ensures { program_loop_of result ≡ spec.network_entries self.now }
    {
        let mut entries = ProgramLoop::new();
        if self.network().is_some() {
            push_entry(
                &mut entries,
                Program {
                    program_number: 0,
                    pid: 0x10,
                },
            );
        }
        entries
    }

    fn association_entries(&self) -> ProgramLoop
        ensures value { program_loop_of result ≡ spec.network_entries self.now ++ map spec.pat_entry self.now.programs }
        ensures bound { length (program_loop_of result) ≤ 65 }
    {
        let mut entries = self.network_entries();
        push_programs(&mut entries, self.programs());
        entries
    }

    /// Writes the program association section under a version.
    pub(crate) fn write_pat(&self, version: u8, out: &mut ArrayVec<u8, 4096>)
        requires { version < 32 }
        ensures { out.new.items ≡ section_bytes (pat_section (spec.pat_of self.now version)) }
    {
        let entries = self.association_entries();
        let section = Pat {
            header: LongHeader::single(self.transport_stream_id(), version),
            programs: entries.programs(),
        };
        match section.write_to(out) {
            Ok(()) => {}
            Err(_) => unreachable!(),
        }
    }
}
