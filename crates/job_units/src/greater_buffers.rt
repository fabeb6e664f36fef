//! Greater buffers for a stream that its own do not hold.

ghost use Rattle.std.specs.Prelude.{◌≡◌, ◌≤◌, ◌^◌, IfOk};
ghost use Rattle.job_units.specs.Declarations as spec;
ghost use Rattle.job_units.specs.OddStreams as odd;

use crate::choices::{groups_of, pace_of};
use crate::declarations::UnitCounts;
use crate::stream_measures::StreamMeasures;
use es_moments::UnitRuns;
use given_values::DeclareBy;
use job_programs::{GreaterBuffers, JobRefusal};
use sound_frames::frame_kind;
use std::alloc::{AllocError, Global};
use stream_choice::Needs;

// Returns the buffers that are tried for a stream that its own buffers do not hold.
fn small_buffers() -> GreaterBuffers
    ensures { result ≡ spec.small_buffers }
{
    GreaterBuffers {
        rx: 8_000_000,
        main: 65_536,
    }
}

fn medium_buffers() -> GreaterBuffers
    ensures { result ≡ spec.medium_buffers }
{
    GreaterBuffers {
        rx: 40_000_000,
        main: 1_000_000,
    }
}

fn large_buffers() -> GreaterBuffers
    ensures { result ≡ spec.large_buffers }
{
    GreaterBuffers {
        rx: 200_000_000,
        main: 10_000_000,
    }
}

// Returns whether units can be declared with one main buffer.
#[tactic(auto, unfolding(crate::specs::Declarations::is_declared))]
fn is_declared(
    declare_by: DeclareBy,
    greatest_lead: u32,
    sum: u64,
    units: &UnitRuns,
    unit_counts: &UnitCounts,
) -> bool
    requires { 2 ^ 17 ≤ sum }
    ensures { result ≡ spec.is_declared declare_by greatest_lead sum units.now unit_counts.now }
{
    match declare_by {
        DeclareBy::Groups => groups_of(greatest_lead, sum, None, unit_counts).is_some(),
        DeclareBy::Pace => pace_of(greatest_lead, sum, None, units, unit_counts).is_some(),
        DeclareBy::Either => {
            pace_of(greatest_lead, sum, None, units, unit_counts).is_some()
                || groups_of(greatest_lead, sum, None, unit_counts).is_some()
        }
    }
}

// Returns the counts of a stream with these buffers in place of its own.
#[tactic(auto, unfolding(crate::specs::Declarations::with_buffers))]
fn with_buffers(
    alloc: Global,
    buffers: GreaterBuffers,
    unit_counts: &UnitCounts,
) -> Result<UnitCounts, AllocError>
    ensures { IfOk result (λ c. c ≡ spec.with_buffers buffers unit_counts.now) }
{
    let max_group_packets = Vec::from_slice(alloc, &unit_counts.max_group_packets)?;
    Ok(UnitCounts {
        needs: Needs {
            interval: unit_counts.needs.interval,
            size: unit_counts.needs.size,
            rx: buffers.rx,
            main: buffers.main,
        },
        multiplexing: None,
        framing: None,
        max_group_packets,
    })
}

// Returns whether units can be declared with these buffers.
fn is_way_out(
    alloc: Global,
    declare_by: DeclareBy,
    greatest_lead: u32,
    sum: u64,
    units: &UnitRuns,
    unit_counts: &UnitCounts,
    buffers: GreaterBuffers,
) -> Result<bool, AllocError>
    requires { 2 ^ 17 ≤ sum }
    ensures { IfOk result (λ is. is ≡ spec.is_declared declare_by greatest_lead sum units.now
        (spec.with_buffers buffers unit_counts.now)) }
{
    let greater = with_buffers(alloc, buffers, unit_counts)?;
    Ok(is_declared(declare_by, greatest_lead, sum, units, &greater))
}

// Returns the first greater buffers that let units be declared.
#[tactic(auto, unfolding(crate::specs::Declarations::way_out))]
fn way_out(
    alloc: Global,
    declare_by: DeclareBy,
    greatest_lead: u32,
    sum: u64,
    units: &UnitRuns,
    unit_counts: &UnitCounts,
) -> Result<Option<GreaterBuffers>, AllocError>
    requires { 2 ^ 17 ≤ sum }
    ensures { IfOk result (λ way. way ≡ spec.way_out declare_by greatest_lead sum units.now unit_counts.now) }
{
    let lead = greatest_lead;
    let small = small_buffers();
    if is_way_out(alloc, declare_by, lead, sum, units, unit_counts, small)? {
        return Ok(Some(small));
    }
    let medium = medium_buffers();
    if is_way_out(alloc, declare_by, lead, sum, units, unit_counts, medium)? {
        return Ok(Some(medium));
    }
    let large = large_buffers();
    if is_way_out(alloc, declare_by, lead, sum, units, unit_counts, large)? {
        return Ok(Some(large));
    }
    Ok(None)
}

// Returns the greater buffers that a line names: none for sound.
#[tactic(auto, unfolding(crate::specs::Declarations::advised))]
fn advised(
    alloc: Global,
    declare_by: DeclareBy,
    greatest_lead: u32,
    sum: u64,
    stream: &StreamMeasures,
    unit_counts: &UnitCounts,
) -> Result<Option<GreaterBuffers>, AllocError>
    requires { 2 ^ 17 ≤ sum }
    ensures { IfOk result (λ way. way ≡ spec.advised declare_by greatest_lead sum stream.now unit_counts.now) }
{
    if frame_kind(stream.stream_type, &stream.descriptors).is_some() {
        return Ok(None);
    }
    let units = &stream.units.runs;
    way_out(alloc, declare_by, greatest_lead, sum, units, unit_counts)
}

/// Returns the refusal of a stream whose buffers nothing fits.
#[tactic(auto, unfolding(crate::specs::Declarations::buffers_refusal))]
pub(crate) fn buffers_refusal(
    alloc: Global,
    declare_by: DeclareBy,
    greatest_lead: u32,
    sum: u64,
    stream: &StreamMeasures,
    unit_counts: &UnitCounts,
) -> Result<JobRefusal, AllocError>
    requires { 2 ^ 17 ≤ sum }
    ensures { IfOk result (λ why. why ≡ spec.buffers_refusal declare_by greatest_lead sum stream.now unit_counts.now) }
{
    let way_out = advised(alloc, declare_by, greatest_lead, sum, stream, unit_counts)?;
    Ok(JobRefusal::Buffers {
        pid: stream.pid,
        size: unit_counts.needs.size,
        rx: unit_counts.needs.rx,
        main: unit_counts.needs.main,
        way_out,
    })
}

/// Returns the refusal of a stream that nothing lets into one main buffer, even if the output is as fast as can be.
#[tactic(auto, unfolding(crate::specs::OddStreams::odd_buffers))]
pub(crate) fn alone_refusal(
    alloc: Global,
    declare_by: DeclareBy,
    greatest_lead: u32,
    stream: &StreamMeasures,
    unit_counts: &UnitCounts,
) -> Result<Option<JobRefusal>, AllocError>
    ensures { IfOk result (λ why. why ≡ odd.odd_buffers declare_by greatest_lead stream.now unit_counts.now) }
{
    let sum = u64::MAX;
    let units = &stream.units.runs;
    if is_declared(declare_by, greatest_lead, sum, units, unit_counts) {
        return Ok(None);
    }
    let why = buffers_refusal(alloc, declare_by, greatest_lead, sum, stream, unit_counts)?;
    Ok(Some(why))
}
