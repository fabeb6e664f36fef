//! The lines for clocks that pass over a time.

ghost use Rattle.std.specs.Prelude.{◌≡◌, ◌++◌, OnOk, string_bytes};
ghost use Rattle.job_run.specs.GapLines as spec;

use es_moments::distance;
use job_inputs::JobInput;
use joined_parts::{ClockGap, Cut};
use std::alloc::AllocError;
use std::fmt::Write;

// The units of 90 kHz in a second.
const SECOND: u64 = 90_000;

// Returns the whole seconds of a gap.
fn gap_seconds(cut: &Cut) -> u64
    ensures { result ≡ spec.gap_seconds cut.now }
{
    distance(cut.before, cut.base) / SECOND
}

// Appends the line of a jump.
#[tactic(auto, unfolding(crate::specs::GapLines::jump_text))]
fn write_jump(packet: u64, pid: u16, seconds: u64, text: &mut String) -> Result<(), AllocError>
    ensures { OnOk result (string_bytes text.new ≡ string_bytes text.old ++ spec.jump_text packet pid seconds) }
{
    write!(
        text,
        "packet {packet} clock on pid {pid} jumps ahead by {seconds} s: kept as time without packets; --joined closes it\n"
    )
}

// Appends the line of a hole.
#[tactic(auto, unfolding(crate::specs::GapLines::hole_text))]
fn write_hole(packet: u64, pid: u16, seconds: u64, text: &mut String) -> Result<(), AllocError>
    ensures { OnOk result (string_bytes text.new ≡ string_bytes text.old ++ spec.hole_text packet pid seconds) }
{
    write!(
        text,
        "packet {packet} clock on pid {pid} has no references for {seconds} s: streams go on meanwhile\n"
    )
}

// Appends the line of a gap.
#[tactic(auto, unfolding(crate::specs::GapLines::gap_text))]
fn write_words(gap: &ClockGap, text: &mut String) -> Result<(), AllocError>
    ensures { OnOk result (string_bytes text.new ≡ string_bytes text.old ++ spec.gap_text gap.now) }
{
    match gap {
        ClockGap::Jump(cut) => write_jump(cut.packet, cut.pid, gap_seconds(cut), text),
        ClockGap::Hole(cut) => write_hole(cut.packet, cut.pid, gap_seconds(cut), text),
    }
}

// Returns the PID of the clock.
fn clock_of(gap: &ClockGap) -> u16
    ensures { result ≡ spec.clock_of gap.now }
{
    match gap {
        ClockGap::Jump(cut) | ClockGap::Hole(cut) => cut.pid,
    }
}

// Appends the line of a gap, if the clock is of one of the job's programs.
fn write_gap(input: &JobInput, gap: &ClockGap, text: &mut String) -> Result<(), AllocError>
    ensures { OnOk result (string_bytes text.new ≡ string_bytes text.old ++ spec.gap_line input.now gap.now) }
{
    if !input.has_clock(clock_of(gap)) {
        return Ok(());
    }
    write_words(gap, text)
}

/// Appends a line for each gap of a clock of the job's programs.
pub(crate) fn push_gaps(
    input: &JobInput,
    gaps: &[ClockGap],
    text: &mut String,
) -> Result<(), AllocError>
    ensures { OnOk result (string_bytes text.new ≡ string_bytes text.old ++ spec.gap_lines input.now gaps.now) }
{
    for gap in gaps {
        write_gap(input, gap, text)?;
    }
    Ok(())
}

/// Returns whether a clock of the job's programs has a gap.
pub(crate) fn any_gap(input: &JobInput, gaps: &[ClockGap]) -> bool
    ensures { result ≡ spec.any_gap input.now gaps.now }
{
    gaps.iter().any(|gap| input.has_clock(clock_of(gap)))
}
