//! The units of the streams of a description, while a stream comes.

ghost use Rattle.std.specs.Prelude.{◌≡◌, ◌≤◌, ◌<◌, ◌++◌, ◌∷◌, [], IfOk, OnOk, length, map};
ghost use Rattle.devices.specs.Devices.{reads, writes};
ghost use Rattle.devices.specs.Files.{files_of};
ghost use Rattle.devices.specs.Lines.{Reports};
ghost use Rattle.tsjob_cli.specs.StreamedUnits as spec;

use checked_jobs::{JobFault, read_description};
use counted_io::{Sink, Source};
use description::Description;
use description_keys::DescError;
use description_parts::{ProgramDescription, StreamDescription};
use devices::{Halt, NamedFiles, read_whole, report_halt, report_line, report_text};
use es_feed::{UnitFeed, pass_stream};
use es_units::{Marking, TypedPid};
use explained_jobs::fault_line;
use fed_streams::{FedMap, FedStream, NamedStream};
use job_programs::JobOptions;
use std::alloc::{AllocError, Global};

/// When the first unit of all is due, in units of 90 kHz.
const EARLIEST: u64 = 270_000;

/// The report for packets that would be written to a terminal.
pub const TERMINAL: &str = "standard output is a terminal: name a file by -o FILE\n";

/// The report for units that would be written to a terminal.
pub(crate) const STREAM_TERMINAL: &str = "standard output is a terminal: name a file by > FILE\n";

/// Why no description is had of a file.
#[derive(Drop)]
pub(crate) enum NoDescription {
    /// No file of this name can be opened.
    Unopened,
    /// It can't be read, or out of memory.
    Stopped(Halt),
    /// The description is refused: the line of its fault.
    Refused(String),
}

// Adds the stream of a number and a PID, before its first unit.
fn push_stream(fed: &mut Vec<FedStream>, number: usize, pid: u16) -> Result<(), AllocError>
    requires { number < 256 }
    ensures { OnOk result (fed.new.items ≡ fed.old.items ++ (spec.fed_stream number pid ∷ [])) }
{
    fed.push(FedStream::new(number as u8, pid))?;
    Ok(())
}

// Returns each stream of a description, before its first unit.
fn fed_streams(alloc: Global, streams: &[StreamDescription]) -> Result<Vec<FedStream>, AllocError>
    requires { length streams.now ≤ 256 }
    ensures { IfOk result (λ fed. fed.items ≡ spec.streams_from 0 streams.now) }
{
    let mut fed = Vec::new(alloc);
    for (k, stream) in streams.iter().enumerate() {
        push_stream(&mut fed, k, stream.pid)?;
    }
    Ok(fed)
}

// Returns a stream of a description by its PID and stream_type.
fn named_stream(stream: &StreamDescription) -> NamedStream
    ensures { result ≡ spec.named_stream stream.now }
{
    NamedStream {
        pid: stream.pid,
        stream_type: stream.stream_type,
    }
}

// Returns the streams of a program.
fn named_of(
    alloc: Global,
    number: u16,
    streams: &[StreamDescription],
) -> Result<Vec<NamedStream>, AllocError>
    ensures { IfOk result (λ named. named.items ≡ spec.named_of number streams.now) }
{
    streams
        .iter()
        .filter(|stream| stream.program == number)
        .map(|stream| named_stream(stream))
        .collect(alloc)
}

// Adds the map of a program, before its first section.
fn push_map(
    alloc: Global,
    program: &ProgramDescription,
    streams: &[StreamDescription],
    maps: &mut Vec<FedMap>,
) -> Result<(), AllocError>
    ensures { OnOk result (maps.new.items ≡ maps.old.items ++ (spec.map_of streams.now program.now ∷ [])) }
{
    maps.push(FedMap {
        program_number: program.number(),
        current: None,
        named: named_of(alloc, program.number(), streams)?,
    })?;
    Ok(())
}

// Returns the map of each of these programs.
fn program_maps(
    alloc: Global,
    programs: &[ProgramDescription],
    streams: &[StreamDescription],
) -> Result<Vec<FedMap>, AllocError>
    ensures { IfOk result (λ maps. maps.items ≡ map (spec.map_of streams.now) programs.now) }
{
    let mut maps = Vec::new(alloc);
    for program in programs {
        push_map(alloc, program, streams, &mut maps)?;
    }
    Ok(maps)
}

// Returns the map of each program of a description.
fn maps_of(alloc: Global, description: &Description) -> Result<Vec<FedMap>, AllocError>
    ensures { IfOk result (λ maps. maps.items ≡ spec.maps_of description.now) }
{
    program_maps(alloc, description.programs(), description.streams())
}

// Returns the PID of each stream of a description.
fn pids_of(alloc: Global, description: &Description) -> Result<Vec<u16>, AllocError>
    ensures { IfOk result (λ pids. pids.items ≡ spec.pids_of description.now) }
{
    description
        .streams()
        .iter()
        .map(|stream| stream.pid)
        .collect(alloc)
}

// Returns the PID of a stream, and its stream_type.
fn typed_pid(stream: &StreamDescription) -> TypedPid
    ensures { result ≡ spec.typed_pid stream.now }
{
    TypedPid {
        pid: stream.pid,
        stream_type: stream.stream_type,
    }
}

// Returns the PID of each of these streams, and its stream_type.
fn typed_pids(alloc: Global, streams: &[StreamDescription]) -> Result<Vec<TypedPid>, AllocError>
    ensures { IfOk result (λ types. types.items ≡ map spec.typed_pid streams.now) }
{
    streams
        .iter()
        .map(|stream| typed_pid(stream))
        .collect(alloc)
}

// Returns the PID and stream_type of each stream, if access points are to be marked.
#[tactic(auto, unfolding(crate::specs::StreamedUnits::access_of))]
fn access_of(
    alloc: Global,
    asked: bool,
    streams: &[StreamDescription],
) -> Result<Vec<TypedPid>, AllocError>
    ensures { IfOk result (λ types. types.items ≡ spec.access_of asked streams.now) }
{
    if !asked {
        return Ok(Vec::new(alloc));
    }
    typed_pids(alloc, streams)
}

// Returns the marks that options ask for of the streams of a description.
fn marking_by(
    alloc: Global,
    options: &JobOptions<'_>,
    description: &Description,
) -> Result<Marking, AllocError>
    ensures { IfOk result (λ m. m ≡ spec.marking_by options.now description.now) }
{
    let access = access_of(alloc, options.mark_access, description.streams())?;
    let aligned = Vec::from_slice(alloc, options.aligned)?;
    Ok(Marking { access, aligned })
}

// Returns the streams of a description, before the first byte.
#[tactic(auto, using(crate::proofs::StreamedUnits::few_streams))]
fn feed_of(
    alloc: Global,
    options: &JobOptions<'_>,
    description: &Description,
) -> Result<UnitFeed, AllocError>
    ensures { IfOk result (λ feed. feed ≡ spec.feed_of options.now description.now) }
{
    let marking = marking_by(alloc, options, description)?;
    let maps = maps_of(alloc, description)?;
    let streams = fed_streams(alloc, description.streams())?;
    Ok(UnitFeed::new(EARLIEST, marking, maps, streams))
}

// Returns the description in the bytes of a file.
fn description_in(alloc: Global, text: &[u8]) -> Result<Description, NoDescription>
    ensures { spec.IsDescriptionIn text.now result }
{
    match read_description(alloc, text) {
        Ok(description) => Ok(description),
        Err(DescError::Refused(fault)) => {
            match fault_line(alloc, text, JobFault::Description(fault)) {
                Ok(line) => Err(NoDescription::Refused(line)),
                Err(_) => Err(NoDescription::Stopped(Halt::Memory)),
            }
        }
        Err(DescError::Memory) => Err(NoDescription::Stopped(Halt::Memory)),
    }
}

// Returns the description in the file of a name.
#[tactic(auto, using(crate::proofs::StreamedUnits::of_text, crate::proofs::StreamedUnits::of_none))]
fn named_description<F: NamedFiles>(
    alloc: Global,
    files: &F,
    name: &str,
) -> Result<Description, NoDescription>
    ensures { spec.IsNamedDescription
        (files_of (F.contents_of files.now) (F.opens files.now) F.never_fails) name.now result }
{
    let Some(mut file) = files.open_named(name) else {
        return Err(NoDescription::Unopened);
    };
    match read_whole(alloc, &mut file) {
        Ok(text) => description_in(alloc, &text),
        Err(halt) => Err(NoDescription::Stopped(halt)),
    }
}

// Reports why no description is had, and returns the status.
#[tactic(auto, unfolding(crate::specs::StreamedUnits::none_outcome))]
fn report_none<E: Sink>(faults: &mut E, why: NoDescription) -> u8
    ensures report { Reports (writes E.Sink faults.old faults.new) (spec.none_outcome why).report }
    ensures status { result ≡ (spec.none_outcome why).status }
{
    match why {
        NoDescription::Unopened => {
            report_line(faults, "open", &[]);
            3
        }
        NoDescription::Stopped(halt) => report_halt(faults, halt),
        NoDescription::Refused(line) => {
            report_text(faults, line.as_str());
            1
        }
    }
}

// Goes by options and a description: the units of its streams are written while the stream comes. Returns the status.
fn stream_by<R: Source, W: Sink, E: Sink>(
    alloc: Global,
    options: &JobOptions<'_>,
    description: &Description,
    input: &mut R,
    output: &mut W,
    faults: &mut E,
) -> u8
    ensures { spec.GoesBy options.now description.now (reads R.Source input.old input.new)
        (writes W.Sink output.old output.new)
        (writes E.Sink faults.old faults.new) result }
{
    let Ok(feed) = feed_of(alloc, options, description) else {
        return report_halt(faults, Halt::Memory);
    };
    let Ok(pids) = pids_of(alloc, description) else {
        return report_halt(faults, Halt::Memory);
    };
    pass_stream(alloc, feed, &pids, input, output, faults)
}

/// Writes the units of the streams of a description while the stream comes, with the marks that options ask for; the
/// description is in the file of a name. Returns the status.
pub(crate) fn stream_units<F: NamedFiles, R: Source, W: Sink, E: Sink>(
    alloc: Global,
    options: &JobOptions<'_>,
    files: &F,
    name: &str,
    input: &mut R,
    output: &mut W,
    faults: &mut E,
) -> u8
    ensures { spec.StreamsUnits options.now
        (files_of (F.contents_of files.now) (F.opens files.now) F.never_fails) name.now
        (reads R.Source input.old input.new)
        (writes W.Sink output.old output.new) (writes E.Sink faults.old faults.new) result }
{
    match named_description(alloc, files, name) {
        Ok(description) => stream_by(alloc, options, &description, input, output, faults),
        Err(why) => report_none(faults, why),
    }
}
