//! The steps that gather the programs of a stream, one map after another.

ghost use Rattle.std.specs.Prelude.{◌≡◌, [], true, OnOk, Some, is_some, map};
ghost use Rattle.psi_tables.specs.ProgramMap.{pmt_view, stream_view, streams_of};
ghost use Rattle.pid_findings.specs.Shown.{finding_view};
ghost use Rattle.program_tables.specs.MapPlaces.{places_in};
ghost use Rattle.program_tables.specs.ProgramMaps.{program_map};
ghost use Rattle.stream_programs.specs.Programs as spec;
ghost use Rattle.stream_programs.specs.declared.omission.TableOmission.TheVariants.{Taken};
ghost use Rattle.stream_programs.specs.Streams as held;

use crate::gathered::Gathered;
use crate::omission::TableOmission;
use crate::programs::{FoundProgram, any_ca, any_of_multiplex};
use crate::streams::{FoundStream, omission_of};
use descriptor_loops::{has_ca, has_of_multiplex, kept_descriptors};
use pid_findings::Finding;
use program_tables::map_places::{MapPlaces, map_at};
use psi_tables::{Pmt, Program, Stream, Streams};
use std::alloc::{AllocError, Allocator};

impl<A: Allocator + Copy> Gathered<A> {
    // Leaves out a stream of sections, but keeps its sections if its PID is free.
    #[tactic(auto, unfolding(crate::specs::Programs::with_table))]
    fn note_table(&mut self, stream: FoundStream<A>) -> Result<(), AllocError>
        ensures { OnOk result (self.new ≡ spec.with_table self.old stream) }
    {
        let why = TableOmission::NoPes {
            program: stream.program,
            pid: stream.pid,
            stream_type: stream.stream_type,
        };
        self.place(stream)?;
        self.leave_out(why)
    }

    // Shares a holder's stream.
    #[tactic(auto, unfolding(crate::specs::Programs::with_shared))]
    fn note_shared(&mut self, holder: u16, stream: FoundStream<A>) -> Result<(), AllocError>
        requires { is_some (held.holder stream.pid self.old.streams) ≡ true }
        ensures { OnOk result (self.new ≡ spec.with_shared self.old holder stream) }
    {
        let (program, pid) = (stream.program, stream.pid);
        let alike = self.has_alike_to(&stream);
        self.add_sharer(program, pid)?;
        if alike {
            return Ok(());
        }
        self.leave_out(TableOmission::SharedOtherwise {
            program,
            pid,
            holder,
        })
    }

    // Shares a stream that another program has, or says that it is taken.
    #[tactic(auto, unfolding(crate::specs::Programs::with_stream_if))]
    fn note_taken(
        &mut self,
        program: u16,
        pid: u16,
        holder: u16,
        pcr_pid: u16,
        stream: FoundStream<A>,
    ) -> Result<(), AllocError>
        ensures { OnOk result
            (self.new ≡ spec.with_stream_if (Some (Taken program pid holder)) self.old pcr_pid stream) }
    {
        if self.can_share(holder, pcr_pid, &stream) {
            self.note_shared(holder, stream)
        } else {
            self.leave_out(TableOmission::Taken {
                program,
                pid,
                holder,
            })
        }
    }

    // Keeps or shares a stream of a program's map, or notes why it is left out.
    #[tactic(auto, unfolding(crate::specs::Programs::with_stream_if))]
    fn note_if(
        &mut self,
        why: Option<TableOmission>,
        number: u16,
        pcr_pid: u16,
        stream: FoundStream<A>,
    ) -> Result<(), AllocError>
        requires own { stream.program ≡ number }
        requires unshared { stream.shared_with ≡ [] }
        ensures { OnOk result (self.new ≡ spec.with_stream_if why self.old pcr_pid stream) }
    {
        match why {
            None => self.keep(number, stream),
            Some(
                TableOmission::Taken {
                    program,
                    pid,
                    holder,
                },
            ) => self.note_taken(program, pid, holder, pcr_pid, stream),
            Some(TableOmission::NoPes { .. }) => self.note_table(stream),
            Some(why) => self.leave_out(why),
        }
    }

    // Keeps a stream of a program, shares it, or says why it is left out.
    #[tactic(auto, unfolding(crate::specs::Programs::with_stream))]
    fn note_stream(
        &mut self,
        alloc: A,
        program: u16,
        pcr_pid: u16,
        stream: Stream<'_>,
    ) -> Result<(), AllocError>
        ensures { OnOk result
            (self.new ≡ spec.with_stream self.old program pcr_pid (stream_view stream.entry)) }
    {
        let (stream_type, pid) = (stream.stream_type, stream.elementary_pid);
        let why = omission_of(program, stream_type, pid, self.holder_of(pid));
        let descriptors = kept_descriptors(alloc, stream.descriptors)?;
        let stream = FoundStream {
            program,
            stream_type,
            pid,
            descriptors,
            shared_with: Vec::new(alloc),
        };
        self.note_if(why, program, pcr_pid, stream)
    }

    #[tactic(auto, unfolding(crate::specs::Programs::with_streams))]
    fn note_streams(
        &mut self,
        alloc: A,
        program: u16,
        pcr_pid: u16,
        streams: Streams<'_>,
    ) -> Result<(), AllocError>
        ensures { OnOk result
            (self.new ≡ spec.with_streams self.old program pcr_pid (streams_of streams.entry)) }
    {
        for stream in streams {
            self.note_stream(alloc, program, pcr_pid, stream)?;
        }
        Ok(())
    }

    #[tactic(auto, unfolding(crate::specs::Programs::with_access, crate::specs::Programs::is_scrambled_map))]
    fn note_access(&mut self, program: u16, pmt: &Pmt<'_>) -> Result<(), AllocError>
        ensures { OnOk result (self.new ≡ spec.with_access self.old program (pmt_view pmt.now)) }
    {
        if has_ca(pmt.program_info) || any_ca(pmt.streams) {
            return self.leave_out(TableOmission::ConditionalAccess { program });
        }
        Ok(())
    }

    #[tactic(auto, unfolding(crate::specs::Programs::with_multiplex, crate::specs::Programs::is_multiplexed_map))]
    fn note_multiplex(&mut self, program: u16, pmt: &Pmt<'_>) -> Result<(), AllocError>
        ensures { OnOk result (self.new ≡ spec.with_multiplex self.old program (pmt_view pmt.now)) }
    {
        if has_of_multiplex(pmt.program_info) || any_of_multiplex(pmt.streams) {
            return self.leave_out(TableOmission::Multiplex { program });
        }
        Ok(())
    }

    // Keeps a program of this number and PCR_PID, if it has a stream.
    #[tactic(auto, unfolding(crate::specs::Programs::with_program_if))]
    fn note_program(
        &mut self,
        number: u16,
        pcr_pid: u16,
        program: FoundProgram<A>,
    ) -> Result<(), AllocError>
        requires number { program.number ≡ number }
        requires clock { program.pcr_pid ≡ pcr_pid }
        ensures { OnOk result (self.new ≡ spec.with_program_if self.old program) }
    {
        if self.has_stream(number) {
            self.keep_program(number, pcr_pid, program)
        } else {
            self.leave_out(TableOmission::NoStream { program: number })
        }
    }

    #[tactic(auto, unfolding(crate::specs::Programs::with_map))]
    fn note_map(&mut self, alloc: A, program: Program, pmt: &Pmt<'_>) -> Result<(), AllocError>
        ensures { OnOk result (self.new ≡ spec.with_map self.old program (pmt_view pmt.now)) }
    {
        let (number, pcr_pid) = (program.program_number, pmt.pcr_pid);
        let descriptors = kept_descriptors(alloc, pmt.program_info)?;
        self.note_access(number, pmt)?;
        self.note_multiplex(number, pmt)?;
        self.note_streams(alloc, number, pcr_pid, pmt.streams)?;
        let found = FoundProgram {
            number,
            map_pid: program.pid,
            pcr_pid,
            descriptors,
        };
        self.note_program(number, pcr_pid, found)
    }

    /// Notes the next program, by its map.
    #[tactic(auto, unfolding(crate::specs::Programs::with_program_by))]
    pub(crate) fn note(
        &mut self,
        alloc: A,
        program: Program,
        places: &MapPlaces<A>,
        findings: &[Finding<'_, A>],
    ) -> Result<(), AllocError>
        requires { places.now.entries ≡ places_in (map finding_view findings.now) }
        ensures { OnOk result (self.new ≡ spec.with_program_by self.old program
            (program_map program (map finding_view findings.now))) }
    {
        match map_at(places, program, findings) {
            None => self.leave_out(TableOmission::NoMap {
                program: program.program_number,
            }),
            Some(pmt) => self.note_map(alloc, program, &pmt),
        }
    }
}
