//! What a description declares of the packets of a stream's units: by groups or by pace.

ghost use Rattle.std.specs.Prelude.{◌≡◌, ◌≤◌, ◌-◌, ◌^◌, zip, IfErr, IfOk, IfSome, IsTrue, None, Ok};
ghost use Rattle.stream_choice.specs.Ranges.{IsNeeds, AreMaxPackets};
ghost use Rattle.job_programs.specs.Answers.{Answers, Refuses, each};
ghost use Rattle.job_units.specs.Declarations as spec;

use crate::alike::is_alike;
use crate::declarations::{StreamChoice, UnitCounts};
use crate::frame_choices::all_framed;
use crate::greater_buffers::buffers_refusal;
use crate::share_sums::{asked_shares, shares_of};
use crate::stream_measures::StreamMeasures;
use es_moments::UnitRuns;
use given_values::DeclareBy;
use job_programs::JobError;
use std::alloc::Global;
use stream_choice::{
    Choice, Needs, PacedUnits, are_max_packets, choose_groups, choose_pace, delay_before,
    framed_lead, leaking_needs, preferred,
};
use unit_timing::multiplexing_buffer::MultiplexingBuffer;

/// Returns whether a stream can be declared with some group.
#[tactic(auto, unfolding(crate::specs::Declarations::is_countable))]
pub(crate) fn is_countable(needs: Needs, max_group_packets: &[u32]) -> bool
    ensures value { result ≡ spec.is_countable needs max_group_packets.now }
    ensures needs { IsTrue result → IsNeeds needs }
    ensures packets { IsTrue result → AreMaxPackets max_group_packets.now }
{
    needs.is_in_range() && are_max_packets(max_group_packets)
}

// The units of a stream, whose bursts are known at any pace.
#[derive(Clone, Copy)]
struct StreamBursts<'a> {
    runs: &'a UnitRuns,
}

impl<'a> PacedUnits for StreamBursts<'a> {
    ghost burst = { λ s. spec.burst_of s.runs.now };

    fn burst_at(&self, pace: u32) -> u64 {
        self.runs.burst_packets(pace)
    }
}

/// Returns what a stream of these units declares by groups, with this multiplexing buffer.
#[tactic(auto, unfolding(crate::specs::Declarations::groups_of))]
pub(crate) fn groups_of(
    greatest_lead: u32,
    sum: u64,
    buffer: Option<MultiplexingBuffer>,
    unit_counts: &UnitCounts,
) -> Option<Choice>
    requires { 2 ^ 17 ≤ sum }
    ensures { result ≡ spec.groups_of greatest_lead sum buffer unit_counts.now }
{
    let needs = leaking_needs(buffer, unit_counts.needs);
    let max_group_packets = unit_counts.max_group_packets.as_slice();
    if !is_countable(needs, max_group_packets) {
        return None;
    }
    let lead = greatest_lead.min(90_000);
    let delay = delay_before(buffer, needs, sum);
    choose_groups(needs, max_group_packets, delay, lead)
}

/// Returns what it declares by pace.
#[tactic(auto, unfolding(crate::specs::Declarations::pace_of))]
pub(crate) fn pace_of(
    greatest_lead: u32,
    sum: u64,
    buffer: Option<MultiplexingBuffer>,
    units: &UnitRuns,
    unit_counts: &UnitCounts,
) -> Option<Choice>
    requires { 2 ^ 17 ≤ sum }
    ensures { result ≡ spec.pace_of greatest_lead sum buffer units.now unit_counts.now }
{
    let needs = leaking_needs(buffer, unit_counts.needs);
    if !needs.is_in_range() {
        return None;
    }
    let lead = greatest_lead.min(90_000);
    let delay = delay_before(buffer, needs, sum);
    choose_pace(needs, &StreamBursts { runs: units }, delay, lead)
}

// The counts of a stream, and what a stream with these counts declares by groups.
#[derive(Clone, Copy)]
struct KnownGroups<'a> {
    unit_counts: &'a UnitCounts,
    choice: Option<Choice>,
}

// Returns what a stream declares by groups with this multiplexing buffer, if the options allow groups.
#[tactic(auto, unfolding(crate::specs::Declarations::asked_groups))]
fn groups_if_asked(
    declare_by: DeclareBy,
    greatest_lead: u32,
    sum: u64,
    buffer: Option<MultiplexingBuffer>,
    unit_counts: &UnitCounts,
) -> Option<Choice>
    requires { 2 ^ 17 ≤ sum }
    ensures { result ≡ spec.asked_groups declare_by greatest_lead sum buffer unit_counts.now }
{
    match declare_by {
        DeclareBy::Pace => None,
        DeclareBy::Groups | DeclareBy::Either => {
            groups_of(greatest_lead, sum, buffer, unit_counts)
        }
    }
}

// Returns the longest lead that is tried first: with it the last access unit of a unit is in the buffers for at most a
// second.
#[tactic(auto, unfolding(crate::specs::Declarations::prompt_lead))]
fn prompt_lead(greatest_lead: u32, unit_counts: &UnitCounts) -> u32
    ensures { result ≡ spec.prompt_lead greatest_lead unit_counts.now }
{
    match unit_counts.framing {
        None => greatest_lead,
        Some(framing) => greatest_lead.min(framed_lead(framing)),
    }
}

// Returns how a stream declares its units by groups. A known stream with the same counts has the same answer.
fn asked_groups(
    known: Option<KnownGroups<'_>>,
    declare_by: DeclareBy,
    greatest_lead: u32,
    sum: u64,
    unit_counts: &UnitCounts,
) -> Option<Choice>
    requires sum { 2 ^ 17 ≤ sum }
    requires known { IfSome known (λ k. k.choice ≡ spec.own_groups declare_by greatest_lead sum k.unit_counts.now) }
    ensures { result ≡ spec.own_groups declare_by greatest_lead sum unit_counts.now }
{
    if let Some(known) = known {
        if is_alike(known.unit_counts, unit_counts) {
            return known.choice;
        }
    }
    let lead = prompt_lead(greatest_lead, unit_counts);
    let buffer = unit_counts.multiplexing;
    groups_if_asked(declare_by, lead, sum, buffer, unit_counts)
}

// Returns what a stream declares; `by_groups`: what it declares by groups.
#[tactic(auto, unfolding(crate::specs::Declarations::asked_groups))]
fn choice_of(
    declare_by: DeclareBy,
    by_groups: Option<Choice>,
    greatest_lead: u32,
    sum: u64,
    buffer: Option<MultiplexingBuffer>,
    units: &UnitRuns,
    unit_counts: &UnitCounts,
) -> Option<Choice>
    requires sum { 2 ^ 17 ≤ sum }
    requires groups { by_groups ≡ spec.asked_groups declare_by greatest_lead sum buffer unit_counts.now }
    ensures { result ≡ spec.choice_of declare_by greatest_lead sum buffer units.now unit_counts.now }
{
    match declare_by {
        DeclareBy::Groups => by_groups,
        DeclareBy::Pace => pace_of(greatest_lead, sum, buffer, units, unit_counts),
        DeclareBy::Either => {
            let by_pace = pace_of(greatest_lead, sum, buffer, units, unit_counts);
            preferred(by_groups, by_pace)
        }
    }
}

// Returns what a stream declares with this multiplexing buffer.
fn kept(
    declare_by: DeclareBy,
    by_groups: Option<Choice>,
    greatest_lead: u32,
    sum: u64,
    buffer: Option<MultiplexingBuffer>,
    units: &UnitRuns,
    unit_counts: &UnitCounts,
) -> Option<StreamChoice>
    requires sum { 2 ^ 17 ≤ sum }
    requires groups { by_groups ≡ spec.asked_groups declare_by greatest_lead sum buffer unit_counts.now }
    ensures { result ≡ spec.kept declare_by greatest_lead sum buffer units.now unit_counts.now }
{
    match choice_of(
        declare_by,
        by_groups,
        greatest_lead,
        sum,
        buffer,
        units,
        unit_counts,
    ) {
        None => None,
        Some(choice) => Some(StreamChoice {
            choice,
            multiplexing: buffer,
            framing: None,
        }),
    }
}

// Returns what a stream declares with its multiplexing buffer and a lead that its access units allow, or otherwise with
// one main buffer alone and any lead; `by_groups`: what it declares by groups, of the first kind.
#[tactic(auto, unfolding(crate::specs::Declarations::first_kept))]
fn first_kept(
    declare_by: DeclareBy,
    by_groups: Option<Choice>,
    greatest_lead: u32,
    sum: u64,
    units: &UnitRuns,
    unit_counts: &UnitCounts,
) -> Option<StreamChoice>
    requires sum { 2 ^ 17 ≤ sum }
    requires groups { by_groups ≡ spec.own_groups declare_by greatest_lead sum unit_counts.now }
    ensures { result ≡ spec.first_kept
        (spec.kept declare_by (spec.prompt_lead greatest_lead unit_counts.now) sum unit_counts.now.multiplexing units.now
        unit_counts.now)
        (spec.kept declare_by greatest_lead sum None units.now unit_counts.now) }
{
    let lead = prompt_lead(greatest_lead, unit_counts);
    let buffer = unit_counts.multiplexing;
    let first = kept(declare_by, by_groups, lead, sum, buffer, units, unit_counts);
    if first.is_some() {
        return first;
    }
    let others = groups_if_asked(declare_by, greatest_lead, sum, None, unit_counts);
    kept(
        declare_by,
        others,
        greatest_lead,
        sum,
        None,
        units,
        unit_counts,
    )
}

// Returns what a stream declares; refused if nothing fits its buffers.
#[tactic(auto, unfolding(crate::specs::Declarations::chosen, job_programs::specs::Answers::Answers, job_programs::specs::Answers::Refuses))]
fn chosen(
    alloc: Global,
    declare_by: DeclareBy,
    by_groups: Option<Choice>,
    greatest_lead: u32,
    sum: u64,
    stream: &StreamMeasures,
    unit_counts: &UnitCounts,
) -> Result<StreamChoice, JobError>
    requires sum { 2 ^ 17 ≤ sum }
    requires groups { by_groups ≡ spec.own_groups declare_by greatest_lead sum unit_counts.now }
    ensures { Answers (spec.chosen declare_by greatest_lead sum (stream.now, unit_counts.now)) result }
{
    let units = &stream.units.runs;
    match first_kept(
        declare_by,
        by_groups,
        greatest_lead,
        sum,
        units,
        unit_counts,
    ) {
        Some(choice) => Ok(choice),
        None => {
            let refusal = buffers_refusal(
                alloc,
                declare_by,
                greatest_lead,
                sum,
                stream,
                unit_counts,
            )?;
            Err(JobError::Refused(refusal))
        }
    }
}

// Returns what all streams declare at this sum of shares.
#[tactic(auto, unfolding(job_programs::specs::Answers::Refuses))]
fn each_choice(
    alloc: Global,
    declare_by: DeclareBy,
    greatest_lead: u32,
    sum: u64,
    streams: &[StreamMeasures],
    all: &[UnitCounts],
) -> Result<Vec<StreamChoice>, JobError>
    requires { 2 ^ 17 ≤ sum }
    ensures chosen { IfOk result (λ chosen. each (spec.chosen declare_by greatest_lead sum) (zip streams.now all.now)
        ≡ Ok chosen.items) }
    ensures refused { IfErr result
        (Refuses (each (spec.chosen declare_by greatest_lead sum) (zip streams.now all.now))) }
{
    let mut choices = Vec::new(alloc);
    let mut left = streams;
    let mut others = all;
    let mut known = None;
    while let Some((stream, later)) = left.split_first() {
        let Some((unit_counts, more)) = others.split_first() else {
            return Ok(choices);
        };
        let by_groups = asked_groups(known, declare_by, greatest_lead, sum, unit_counts);
        known = Some(KnownGroups {
            unit_counts,
            choice: by_groups,
        });
        let next = chosen(
            alloc,
            declare_by,
            by_groups,
            greatest_lead,
            sum,
            stream,
            unit_counts,
        )?;
        choices.push(next)?;
        left = later;
        others = more;
    }
    Ok(choices)
}

/// Returns what each stream declares.
#[tactic(auto, unfolding(crate::specs::Declarations::choices, job_programs::specs::Answers::and_then, job_programs::specs::Answers::Refuses), using(job_programs::proofs::AndThen::then_refuses))]
pub fn choices(
    alloc: Global,
    declare_by: DeclareBy,
    greatest_lead: u32,
    streams: &[StreamMeasures],
    all: &[UnitCounts],
) -> Result<Vec<StreamChoice>, JobError>
    ensures chosen { IfOk result (λ chosen.
        spec.choices declare_by greatest_lead streams.now all.now ≡ Ok chosen.items) }
    ensures refused { IfErr result (Refuses (spec.choices declare_by greatest_lead streams.now all.now)) }
{
    let least = shares_of(all);
    let first = each_choice(alloc, declare_by, greatest_lead, least, streams, all)?;
    let sum = asked_shares(&first);
    let chosen = all_framed(alloc, declare_by, greatest_lead, sum, all, &first)?;
    Ok(chosen)
}
