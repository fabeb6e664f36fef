//! Warnings about the buffers that are declared of the streams of a job.

ghost use Rattle.std.specs.Prelude.{◌≡◌, ◌++◌, OnOk, option_to_list};
ghost use Rattle.job_units.specs.BufferWarnings as spec;

use crate::declarations::{StreamChoice, UnitCounts, coding_for, said_coding};
use crate::share_sums::asked_shares;
use crate::stream_measures::StreamMeasures;
use clock27::SLOT_UNITS_AT_1BPS;
use es_buffers::{PidBuffers, buffers_of, given_buffers};
use job_programs::Warning;
use std::alloc::AllocError;
use stream_choice::{Choice, FrameCounts, most_waiting};
use unit_timing::multiplexing_buffer::MultiplexingBuffer;
use unit_timing::shares::PARTS;

// Returns the warning about the buffer size in a stream's own headers, if the declared buffer has another size.
#[tactic(auto, unfolding(crate::specs::BufferWarnings::header_warning))]
fn header_warning(given: &[PidBuffers], stream: &StreamMeasures) -> Option<Warning>
    ensures { option_to_list result ≡ spec.header_warning given.now stream.now }
{
    if given_buffers(given, stream.pid).is_some() {
        return None;
    }
    let said = buffers_of(said_coding(stream)).main;
    let counted = buffers_of(coding_for(stream)).main;
    if said == counted {
        return None;
    }
    Some(Warning::HeaderBuffer {
        pid: stream.pid,
        said,
        unit: stream.units.largest,
        counted,
    })
}

// Appends the warning about the buffer size in a stream's own headers.
fn push_header_warning(
    given: &[PidBuffers],
    stream: &StreamMeasures,
    warnings: &mut Vec<Warning>,
) -> Result<(), AllocError>
    ensures { OnOk result (warnings.new.items ≡ warnings.old.items ++ spec.header_warning given.now stream.now) }
{
    if let Some(warning) = header_warning(given, stream) {
        warnings.push(warning)?;
    }
    Ok(())
}

// Appends the warnings about the buffers that streams say.
fn push_header_warnings(
    given: &[PidBuffers],
    streams: &[StreamMeasures],
    warnings: &mut Vec<Warning>,
) -> Result<(), AllocError>
    ensures { OnOk result (warnings.new.items ≡ warnings.old.items ++ spec.header_warnings given.now streams.now) }
{
    for stream in streams {
        push_header_warning(given, stream, warnings)?;
    }
    Ok(())
}

// Returns the rate of the packets that a choice asks for, in bits/s.
#[tactic(auto, unfolding(crate::specs::BufferWarnings::asked_rate))]
fn asked_rate(choice: Choice) -> u64
    ensures { result ≡ spec.asked_rate choice }
{
    (u128::from(choice.share) * SLOT_UNITS_AT_1BPS / u128::from(PARTS)) as u64
}

// Returns the leak of a multiplexing buffer that a stream has, and does not declare.
#[tactic(auto, unfolding(crate::specs::BufferWarnings::unkept_leak))]
fn unkept_leak(found: Option<MultiplexingBuffer>, kept: Option<MultiplexingBuffer>) -> Option<u32>
    ensures { result ≡ spec.unkept_leak found kept }
{
    match found {
        None => None,
        Some(buffer) => match kept {
            Some(_) => None,
            None => Some(buffer.rbx),
        },
    }
}

// Returns the warning about a multiplexing buffer that nothing keeps.
#[tactic(auto, unfolding(crate::specs::BufferWarnings::leak_warning))]
fn leak_warning(
    stream: &StreamMeasures,
    unit_counts: &UnitCounts,
    choice: StreamChoice,
) -> Option<Warning>
    ensures { result ≡ spec.leak_warning (stream.now, (unit_counts.now, choice)) }
{
    match unkept_leak(unit_counts.multiplexing, choice.multiplexing) {
        None => None,
        Some(leak) => Some(Warning::Leak {
            pid: stream.pid,
            rate: asked_rate(choice.choice),
            leak,
        }),
    }
}

// Appends the warning about a multiplexing buffer that nothing keeps.
#[tactic(auto, unfolding(crate::specs::BufferWarnings::leak_warnings_of))]
fn push_leak_warning(
    stream: &StreamMeasures,
    unit_counts: &UnitCounts,
    choice: StreamChoice,
    warnings: &mut Vec<Warning>,
) -> Result<(), AllocError>
    ensures { OnOk result (warnings.new.items ≡ warnings.old.items
        ++ spec.leak_warnings_of (stream.now, (unit_counts.now, choice))) }
{
    if let Some(warning) = leak_warning(stream, unit_counts, choice) {
        warnings.push(warning)?;
    }
    Ok(())
}

// Appends the warnings about multiplexing buffers that nothing keeps.
fn push_leak_warnings(
    streams: &[StreamMeasures],
    unit_counts: &[UnitCounts],
    choices: &[StreamChoice],
    warnings: &mut Vec<Warning>,
) -> Result<(), AllocError>
    ensures { OnOk result (warnings.new.items ≡ warnings.old.items
        ++ spec.leak_warnings streams.now unit_counts.now choices.now) }
{
    let mut streams = streams;
    let mut unit_counts = unit_counts;
    let mut choices = choices;
    'streams: while let Some((stream, later_streams)) = streams.split_first() {
        let Some((count, later_counted)) = unit_counts.split_first() else {
            return Ok(());
        };
        let Some((choice, later_choices)) = choices.split_first() else {
            return Ok(());
        };
        push_leak_warning(stream, count, *choice, warnings)?;
        streams = later_streams;
        unit_counts = later_counted;
        choices = later_choices;
    }
    Ok(())
}

// Returns the access units of a stream that has several in a unit, and does not declare them.
#[tactic(auto, unfolding(crate::specs::BufferWarnings::unkept_frames))]
fn unkept_frames(found: Option<FrameCounts>, kept: Option<FrameCounts>) -> Option<FrameCounts>
    ensures { result ≡ spec.unkept_frames found kept }
{
    match found {
        None => None,
        Some(framing) => match kept {
            Some(FrameCounts { .. }) => None,
            None => {
                if framing.frames > 1 {
                    Some(framing)
                } else {
                    None
                }
            }
        },
    }
}

// Returns the most bytes that wait in the main buffer of a stream with this choice if its access units leave it one by
// one, in an output whose shares have this sum.
#[tactic(auto, unfolding(crate::specs::BufferWarnings::waiting_of))]
fn waiting_of(sum: u64, unit_counts: &UnitCounts, choice: Choice, framing: FrameCounts) -> u64
    ensures { result ≡ spec.waiting_of sum unit_counts.now choice framing }
{
    let needs = unit_counts.needs;
    let bytes = most_waiting(needs, framing, choice.lead, choice.share, sum);
    bytes.min(u128::from(u64::MAX)) as u64
}

// Returns the warning about frames that cross the units of a stream.
#[tactic(auto, unfolding(crate::specs::BufferWarnings::crossing_warning))]
fn crossing_warning(stream: &StreamMeasures, unit_counts: &UnitCounts) -> Option<Warning>
    ensures { result ≡ spec.crossing_warning stream.now unit_counts.now }
{
    match unit_counts.framing {
        Some(_) => None,
        None => if stream.crossing {
            Some(Warning::CrossingFrames {
                pid: stream.pid,
                main: unit_counts.needs.main,
            })
        } else {
            None
        },
    }
}

// Returns the warning about frames of sound that leave the main buffer in whole units.
#[tactic(auto, unfolding(crate::specs::BufferWarnings::whole_warning))]
fn whole_warning(
    sum: u64,
    stream: &StreamMeasures,
    unit_counts: &UnitCounts,
    choice: StreamChoice,
) -> Option<Warning>
    ensures { result ≡ spec.whole_warning sum (stream.now, (unit_counts.now, choice)) }
{
    match unkept_frames(unit_counts.framing, choice.framing) {
        None => crossing_warning(stream, unit_counts),
        Some(framing) => Some(Warning::Frames {
            pid: stream.pid,
            frames: framing.frames,
            main: unit_counts.needs.main,
            bytes: waiting_of(sum, unit_counts, choice.choice, framing),
        }),
    }
}

// Returns the warning about frames of sound that leave the main buffer in whole units, unless the options give it.
#[tactic(auto, unfolding(crate::specs::BufferWarnings::frame_warning))]
fn frame_warning(
    given: &[PidBuffers],
    sum: u64,
    stream: &StreamMeasures,
    unit_counts: &UnitCounts,
    choice: StreamChoice,
) -> Option<Warning>
    ensures { result ≡ spec.frame_warning given.now sum (stream.now, (unit_counts.now, choice)) }
{
    if given_buffers(given, stream.pid).is_some() {
        return None;
    }
    whole_warning(sum, stream, unit_counts, choice)
}

// Appends the warning about frames of sound that leave the main buffer in whole units.
#[tactic(auto, unfolding(crate::specs::BufferWarnings::frame_warnings_of))]
fn push_frame_warning(
    given: &[PidBuffers],
    sum: u64,
    stream: &StreamMeasures,
    unit_counts: &UnitCounts,
    choice: StreamChoice,
    warnings: &mut Vec<Warning>,
) -> Result<(), AllocError>
    ensures { OnOk result (warnings.new.items ≡ warnings.old.items
        ++ spec.frame_warnings_of given.now sum (stream.now, (unit_counts.now, choice))) }
{
    if let Some(warning) = frame_warning(given, sum, stream, unit_counts, choice) {
        warnings.push(warning)?;
    }
    Ok(())
}

// Appends the warnings about frames of sound that leave main buffers in whole units.
fn push_frame_warnings(
    given: &[PidBuffers],
    sum: u64,
    streams: &[StreamMeasures],
    unit_counts: &[UnitCounts],
    choices: &[StreamChoice],
    warnings: &mut Vec<Warning>,
) -> Result<(), AllocError>
    ensures { OnOk result (warnings.new.items ≡ warnings.old.items
        ++ spec.frame_warnings given.now sum streams.now unit_counts.now choices.now) }
{
    let mut streams = streams;
    let mut unit_counts = unit_counts;
    let mut choices = choices;
    'streams: while let Some((stream, later_streams)) = streams.split_first() {
        let Some((count, later_counted)) = unit_counts.split_first() else {
            return Ok(());
        };
        let Some((choice, later_choices)) = choices.split_first() else {
            return Ok(());
        };
        push_frame_warning(given, sum, stream, count, *choice, warnings)?;
        streams = later_streams;
        unit_counts = later_counted;
        choices = later_choices;
    }
    Ok(())
}

/// Appends the warnings about the buffers of streams: first about the buffers that they say of themselves, then about
/// multiplexing buffers that nothing keeps, then about frames of sound that leave main buffers in whole units.
pub fn push_buffer_warnings(
    given: &[PidBuffers],
    streams: &[StreamMeasures],
    unit_counts: &[UnitCounts],
    choices: &[StreamChoice],
    warnings: &mut Vec<Warning>,
) -> Result<(), AllocError>
    ensures { OnOk result (warnings.new.items ≡ warnings.old.items
        ++ spec.buffer_warnings given.now streams.now unit_counts.now choices.now) }
{
    push_header_warnings(given, streams, warnings)?;
    push_leak_warnings(streams, unit_counts, choices, warnings)?;
    let sum = asked_shares(choices);
    push_frame_warnings(given, sum, streams, unit_counts, choices, warnings)
}
