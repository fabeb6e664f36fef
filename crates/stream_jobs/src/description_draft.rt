//! The description of a job.

ghost use Rattle.std.specs.Prelude.{◌≡◌, ◌++◌, IfOk, IfErr, OnOk, Ok, option_map, string_bytes};
ghost use Rattle.job_text.specs.DescriptionParts.{framing_view};
ghost use Rattle.job_text.specs.Texts.{heading_text, program_text, stream_text};
ghost use Rattle.stream_jobs.specs.Rates.{IsText};
ghost use Rattle.stream_jobs.specs.Texts as spec;
ghost use Rattle.stream_jobs.specs.WhyNoJob.{IsWhyNotRead};

use crate::shared_clock::{own_clock, shared_clock, sharing};
use crate::table_lines::write_tables;
use crate::transponder::is_transponder;
use description::Description;
use description_keys::DescError;
use job_inputs::JobInput;
use job_programs::job_events::write_events;
use job_programs::job_network::write_network;
use job_programs::{JobError, JobOptions, JobProgram, JobRefusal, NamedService, TimedStream};
use job_text::{FramingPart, Heading, ProgramPart, StreamPart};
use job_units::pts_limit::declared_limit;
use job_units::stream_measures::said_profile;
use job_units::{StreamChoice, UnitCounts};
use std::alloc::{AllocError, Global};
use stream_choice::FrameCounts;

/// running_status of a program without the key `running_status`: running (EN 300 468, table 6).
const RUNNING: u8 = 4;

/// All that the description of a job says but for its rate.
#[derive(Clone, Copy)]
pub(crate) struct DescriptionDraft<'a> {
    pub options: &'a JobOptions<'a>,
    pub input: &'a JobInput,
}

impl<'a> DescriptionDraft<'a> {
    // Appends the lines of the heading; `pids` are of programs that share a clock.
    #[tactic(auto, unfolding(crate::specs::Texts::heading_of))]
    fn write_heading(&self, pids: &[u16], rate: u64, text: &mut String) -> Result<(), AllocError>
        ensures { OnOk result (string_bytes text.new ≡ string_bytes text.old
            ++ heading_text (spec.heading_of pids.now self.now.input.now rate)) }
    {
        let input = self.input;
        let information = &input.information;
        let heading = Heading {
            rate: rate.min(u64::from(u32::MAX)) as u32,
            start: &information.start,
            base0: input.base0,
            transport_stream_id: information.transport_stream_id,
            original_network_id: information.original_network_id,
            sdt: information.sdt,
            tdt: information.tdt,
            transponder: is_transponder(input),
            clock_pid: shared_clock(pids),
        };
        heading.write_text(text)
    }

    /// Returns the text of the description at a rate in bits a second.
    #[tactic(auto, unfolding(crate::specs::Texts::description_text))]
    pub fn text(&self, alloc: Global, rate: u64) -> Result<String, AllocError>
        ensures { IfOk result (λ text. string_bytes text
            ≡ spec.description_text self.now.options.now self.now.input.now rate) }
    {
        let options = self.options;
        let input = self.input;
        let information = &input.information;
        let pids = sharing(alloc, options.clock, input)?;
        let mut text = String::new(alloc);
        self.write_heading(&pids, rate, &mut text)?;
        write_events(&information.events, &mut text)?;
        write_network(&information.network, &mut text)?;
        write_programs(
            options.pcr_limit,
            &pids,
            &input.programs,
            &information.services,
            &mut text,
        )?;
        write_streams(
            &input.streams,
            &input.unit_counts,
            &input.choices,
            &mut text,
        )?;
        write_tables(alloc, &input.streams, &input.tables, &mut text)?;
        Ok(text)
    }
}

// Returns running_status of a service, if a description has to say it: if it is not 4.
fn said_status(service: &NamedService) -> Option<u16>
    ensures { result ≡ spec.said_status service.now.running_status }
{
    let code = service.running_status.code();
    if code == RUNNING {
        None
    } else {
        Some(code as u16)
    }
}

// Appends the lines of a program and its service; `pids` are of programs that share a clock.
#[tactic(auto, unfolding(crate::specs::Texts::program_with))]
fn write_program(
    pcr_limit: u8,
    pids: &[u16],
    program: &JobProgram,
    service: &NamedService,
    text: &mut String,
) -> Result<(), AllocError>
    ensures { OnOk result (string_bytes text.new ≡ string_bytes text.old
        ++ program_text (spec.program_with pcr_limit pids.now program.now service.now)) }
{
    let entry = ProgramPart {
        number: program.number,
        pmt_pid: program.map_pid,
        pcr_pid: own_clock(pids, program),
        pcr_limit,
        descriptors: &program.descriptors,
        running_status: said_status(service),
        service_type: service.service_type,
        provider: &service.provider,
        name: &service.name,
        service_descriptors: service.descriptors.as_deref(),
    };
    entry.write_text(text)
}

// Appends the lines of all programs.
fn write_programs(
    pcr_limit: u8,
    pids: &[u16],
    programs: &[JobProgram],
    services: &[NamedService],
    text: &mut String,
) -> Result<(), AllocError>
    ensures { OnOk result (string_bytes text.new ≡ string_bytes text.old
        ++ spec.programs_text pcr_limit pids.now programs.now services.now) }
{
    let mut programs = programs;
    let mut services = services;
    'programs: while let Some((program, later_programs)) = programs.split_first() {
        let Some((service, later_services)) = services.split_first() else {
            return Ok(());
        };
        write_program(pcr_limit, pids, program, service, text)?;
        programs = later_programs;
        services = later_services;
    }
    Ok(())
}

// Returns the sums of a unit's last access units, of each number but all of them.
fn declared_sums(framing: &FrameCounts) -> &[u32]
    ensures { result.now ≡ spec.declared_sums framing.now }
{
    let sums = framing.left.as_slice();
    let others = framing.frames.saturating_sub(1) as usize;
    &sums[..sums.len().min(others)]
}

// Returns the access units of a stream as a description declares them.
fn framing_part(framing: &FrameCounts) -> FramingPart<'_>
    ensures { framing_view result ≡ spec.framing_part framing.now }
{
    FramingPart {
        frames: framing.frames,
        frame: framing.frame,
        rest: framing.rest,
        left: declared_sums(framing),
    }
}

// Returns the same if a stream declares them.
fn framing_if_any(framing: &Option<FrameCounts>) -> Option<FramingPart<'_>>
    ensures { option_map framing_view result ≡ option_map spec.framing_part framing.now }
{
    match framing {
        None => None,
        Some(framing) => Some(framing_part(framing)),
    }
}

#[tactic(auto, unfolding(crate::specs::Texts::stream_part))]
fn write_stream<'a>(
    stream: &'a TimedStream,
    unit_counts: &'a UnitCounts,
    choice: &'a StreamChoice,
    text: &mut String,
) -> Result<(), AllocError>
    ensures { OnOk result (string_bytes text.new ≡ string_bytes text.old
        ++ stream_text (spec.stream_part (stream.now, (unit_counts.now, choice.now)))) }
{
    let framing: Option<FramingPart<'a>> = framing_if_any(&choice.framing);
    let entry: StreamPart<'a> = StreamPart {
        program: stream.program,
        pid: stream.pid,
        stream_id: stream.stream_id,
        stream_type: stream.stream_type,
        interval: unit_counts.needs.interval,
        size: unit_counts.needs.size,
        lead: choice.choice.lead,
        pts_limit: declared_limit(stream),
        rx: unit_counts.needs.rx,
        main: unit_counts.needs.main,
        descriptors: &stream.descriptors,
        allowance: choice.choice.allowance,
        shared_with: &stream.shared_with,
        multiplexing: choice.multiplexing,
        framing,
        said: said_profile(stream),
    };
    entry.write_text(text)
}

// Appends the lines of all streams.
fn write_streams<'a>(
    streams: &'a [TimedStream],
    unit_counts: &'a [UnitCounts],
    choices: &'a [StreamChoice],
    text: &mut String,
) -> Result<(), AllocError>
    ensures { OnOk result (string_bytes text.new ≡ string_bytes text.old
        ++ spec.streams_text streams.now unit_counts.now choices.now) }
{
    let mut streams = streams;
    let mut unit_counts = unit_counts;
    let mut choices = choices;
    'streams: while let Some((stream, later_streams)) = streams.split_first() {
        let Some((count, later_counted)) = unit_counts.split_first() else {
            return Ok(());
        };
        let Some((choice, later_choices)) = choices.split_first() else {
            return Ok(());
        };
        write_stream(stream, count, choice, text)?;
        streams = later_streams;
        unit_counts = later_counted;
        choices = later_choices;
    }
    Ok(())
}

/// Returns the description that a text says.
pub(crate) fn described(alloc: Global, text: &str) -> Result<Description, JobError>
    ensures read { IfOk result (λ d. IsText d text.now) }
    ensures refused { IfErr result (IsWhyNotRead text.now) }
{
    match Description::read(alloc, text) {
        Ok(description) => Ok(description),
        Err(DescError::Refused(fault)) => Err(JobError::Refused(JobRefusal::Description(fault))),
        Err(DescError::Memory) => Err(JobError::Memory),
    }
}
