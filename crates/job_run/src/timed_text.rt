//! What a job is made of in a stream that was read. The parts of a joined recording follow one another, and each
//! teletext PES packet without a PTS has a moment. A PES packet whose stamps are alone out of order is damaged. PES
//! packets of sound have as few frames as asked for.

ghost use Rattle.std.specs.Prelude.{◌≡◌, IfOk, filter, map};
ghost use Rattle.stamp_repair.specs.DataTimes as text;
ghost use Rattle.stamp_repair.specs.LoneStamps.{lone_damaged};
ghost use Rattle.pid_findings.specs.Shown.{finding_view};
ghost use Rattle.joined_parts.specs.ClockGaps.{clock_gaps as all_gaps};
ghost use Rattle.job_run.specs.Streams as spec;

use crate::carried_stream::PacketNotes;
use crate::frame_packets::frame_packets;
use job_programs::JobOptions;
use joined_parts::{ClockGap, Recoding, clock_gaps, falling_pids, one_recording, recodings_in};
use packet_pcr::FoundPcr;
use packet_sync::{Field, FieldLeftOut};
use pid_findings::Finding;
use stamp_repair::{TextTimes, damage_lone_stamps, text_times};
use std::alloc::{AllocError, Global};

// Returns whether a field is of the PES headers that every unit has.
#[tactic(auto, unfolding(crate::specs::Streams::is_of_unit))]
fn is_of_unit(field: Field) -> bool
    ensures { result ≡ spec.is_of_unit field }
{
    match field {
        Field::Alignment => true,
        Field::Flags => true,
        Field::LongHeader => true,
        _ => false,
    }
}

// Returns whether the job does not write a field.
fn is_unwritten(times: &TextTimes, left_out: &FieldLeftOut) -> bool
    ensures { result ≡ spec.is_unwritten times.now left_out.now }
{
    !(is_of_unit(left_out.field) && times.is_timed(left_out.pid))
}

// Returns the fields that the job does not write.
fn unwritten(times: &TextTimes, fields: Vec<FieldLeftOut>) -> Vec<FieldLeftOut>
    ensures { result.items ≡ filter (spec.is_unwritten times.now) fields.items }
{
    let mut unwritten = fields;
    unwritten.retain(|left_out| is_unwritten(times, left_out));
    unwritten
}

// Drops the notes about fields that the job writes, and adds the changes of codings, the gaps of clocks and the streams
// whose clocks go back.
fn timed_notes(
    times: &TextTimes,
    recodings: Vec<Recoding>,
    gaps: Vec<ClockGap>,
    falling: Vec<u16>,
    notes: PacketNotes,
) -> PacketNotes
    ensures { result ≡ spec.timed_notes times.now recodings.items gaps.items falling.items notes }
{
    let PacketNotes { slips, fields, .. } = notes;
    let fields = unwritten(times, fields);
    PacketNotes {
        slips,
        fields,
        recodings,
        gaps,
        falling,
    }
}

// Returns the changes of codings in a stream, if it is taken as a joined recording.
#[tactic(auto, unfolding(crate::specs::Streams::recodings_by))]
fn stream_recodings(
    alloc: Global,
    options: &JobOptions<'_>,
    findings: &[Finding<'static>],
) -> Result<Vec<Recoding>, AllocError>
    ensures { IfOk result (λ rs. rs.items
        ≡ spec.recodings_by options.now.joined (map finding_view findings.now)) }
{
    if !options.joined {
        return Ok(Vec::new(alloc));
    }
    recodings_in(alloc, findings)
}

// Returns the PIDs of streams whose clocks go back, unless the stream is taken as a joined recording.
#[tactic(auto, unfolding(crate::specs::Streams::falling_by))]
fn stream_falling(
    alloc: Global,
    options: &JobOptions<'_>,
    references: &[FoundPcr],
    findings: &[Finding<'static>],
) -> Result<Vec<u16>, AllocError>
    ensures { IfOk result (λ pids. pids.items
        ≡ spec.falling_by options.now.joined references.now (map finding_view findings.now)) }
{
    if options.joined {
        return Ok(Vec::new(alloc));
    }
    falling_pids(alloc, references, findings)
}

// Returns the clock references and the findings of a stream. With `joined`, the parts of the recording follow one
// another, with the tables and the clock of one part.
#[tactic(auto, unfolding(crate::specs::Streams::references_by, crate::specs::Streams::parts_by))]
fn joined_stream(
    alloc: Global,
    options: &JobOptions<'_>,
    references: Vec<FoundPcr>,
    findings: Vec<Finding<'static>>,
) -> Result<(Vec<FoundPcr>, Vec<Finding<'static>>), AllocError>
    ensures references { IfOk result (λ parts. parts.0.items
        ≡ spec.references_by options.now.joined references.items (map finding_view findings.entry.items)) }
    ensures findings { IfOk result (λ parts. map finding_view parts.1.items
        ≡ spec.parts_by options.now.joined references.items (map finding_view findings.entry.items)) }
{
    if !options.joined {
        return Ok((references, findings));
    }
    one_recording(alloc, references, findings)
}

// Returns the gaps of a stream's clocks, and the PIDs of streams whose clocks go back.
fn clock_notes(
    alloc: Global,
    options: &JobOptions<'_>,
    references: &[FoundPcr],
    findings: &[Finding<'static>],
) -> Result<(Vec<ClockGap>, Vec<u16>), AllocError>
    ensures gaps { IfOk result (λ notes. notes.0.items
        ≡ all_gaps options.now.joined references.now (map finding_view findings.now)) }
    ensures falling { IfOk result (λ notes. notes.1.items
        ≡ spec.falling_by options.now.joined references.now (map finding_view findings.now)) }
{
    let gaps = clock_gaps(alloc, options.joined, references, findings)?;
    let falling = stream_falling(alloc, options, references, findings)?;
    Ok((gaps, falling))
}

// Returns the notes about a stream's packets, and its findings with a moment for each teletext PES packet without a
// PTS; PES packets whose stamps are alone out of order are damaged.
fn timed_stream(
    alloc: Global,
    references: Vec<FoundPcr>,
    recodings: Vec<Recoding>,
    gaps: Vec<ClockGap>,
    falling: Vec<u16>,
    notes: PacketNotes,
    findings: Vec<Finding<'static>>,
) -> Result<(PacketNotes, Vec<Finding<'static>>), AllocError>
    ensures notes { IfOk result (λ timed. timed.0 ≡ spec.timed_notes
        (text.times_of references.items (map finding_view findings.entry.items)) recodings.items gaps.items
        falling.items notes) }
    ensures findings { IfOk result (λ timed. map finding_view timed.1.items
        ≡ lone_damaged falling.items (text.timed references.items (map finding_view findings.entry.items))) }
{
    let times = text_times(alloc, &references, &findings)?;
    let timed = times.time_all(alloc, &references, findings)?;
    let damaged = damage_lone_stamps(alloc, &falling, timed)?;
    let notes = timed_notes(&times, recodings, gaps, falling, notes);
    Ok((notes, damaged))
}

// Returns the notes about a stream's packets, and its findings: with `joined`, the parts of the recording follow one
// another; each teletext PES packet without a PTS has a moment; a PES packet whose stamps are alone out of order is
// damaged.
#[tactic(auto, using(crate::proofs::JobFindings::made_findings))]
fn mended_stream(
    alloc: Global,
    options: &JobOptions<'_>,
    references: Vec<FoundPcr>,
    notes: PacketNotes,
    findings: Vec<Finding<'static>>,
) -> Result<(PacketNotes, Vec<Finding<'static>>), AllocError>
    ensures notes { IfOk result (λ made. made.0 ≡ spec.notes_by options.now.joined references.items
        (map finding_view findings.entry.items) notes) }
    ensures findings { IfOk result (λ made. map finding_view made.1.items
        ≡ spec.mended_by options.now.joined references.items (map finding_view findings.entry.items)) }
{
    let recodings = stream_recodings(alloc, options, &findings)?;
    let (gaps, falling) = clock_notes(alloc, options, &references, &findings)?;
    let (references, parts) = joined_stream(alloc, options, references, findings)?;
    let (notes, damaged) = timed_stream(alloc, references, recodings, gaps, falling, notes, parts)?;
    Ok((notes, damaged))
}

/// Returns the notes about a stream's packets, and the findings for its job: with `joined`, the parts of the recording
/// follow one another; each teletext PES packet without a PTS has a moment; a PES packet whose stamps are alone out of
/// order is damaged; with `frames`, each PES packet of sound has at most as many frames.
#[tactic(auto, using(crate::proofs::JobFindings::framed_findings))]
pub(crate) fn job_findings(
    alloc: Global,
    options: &JobOptions<'_>,
    references: Vec<FoundPcr>,
    notes: PacketNotes,
    findings: Vec<Finding<'static>>,
) -> Result<(PacketNotes, Vec<Finding<'static>>), AllocError>
    ensures notes { IfOk result (λ made. made.0 ≡ spec.notes_by options.now.joined references.items
        (map finding_view findings.entry.items) notes) }
    ensures findings { IfOk result (λ made. map finding_view made.1.items
        ≡ spec.findings_by options.now references.items (map finding_view findings.entry.items)) }
{
    let (notes, mended) = mended_stream(alloc, options, references, notes, findings)?;
    let framed = frame_packets(alloc, options.frames, mended)?;
    Ok((notes, framed))
}
