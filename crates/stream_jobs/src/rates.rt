//! A rate with a plan.

ghost use Rattle.std.specs.Prelude.{◌≡◌, ◌≤◌, ◌<◌, ◌++◌, IfOk, IfErr, IfSome, IfNone, Some, None, All, OnOk, filter, find, map};
ghost use Rattle.std.specs.Prelude.{not, option_map};
ghost use Rattle.std.specs.Prelude.{string_bytes};
ghost use Rattle.std.specs.List.{range_with_len};
ghost use Rattle.description_parts.specs.Tables.{table_count};
ghost use Rattle.stream_jobs.specs.Rates as spec;
ghost use Rattle.stream_jobs.specs.WhyNoJob.{IsWhyNoPlan, IsWhyNoRate, IsWhyNotReadAtOne, IsWhyNotReadAt};

use crate::description_draft::{DescriptionDraft, described};
use clock27::GREATEST_RATE;
use description::Description;
use description_parts::ProgramDescription;
use job_programs::{JobError, JobRefusal};
use job_units::StreamChoice;
use plan_checker::CheckedPlan;
use plan_maker::{MakeError, make};
use std::alloc::{AllocError, Global};
use stream_choice::{Recurring, least_rate};

/// The number of rates to try, and how many of them follow by small steps.
const TRIES: u32 = 96;

const SMALL_STEPS: u32 = 48;

/// The rate of 25 slots a second: with a multiple of it clock references 40 ms apart are whole slots apart.
const EVEN_RATE: u64 = 37_600;

/// A description with a plan that serves it, its rate and its text.
#[derive(Drop)]
pub(crate) struct PlannedDescription {
    pub rate: u64,
    pub text: String,
    pub plan: CheckedPlan,
}

// Returns how often the sections of a table recur.
#[tactic(auto, unfolding(crate::specs::Rates::table_recurs))]
fn table_recurs(description: &Description, table: usize) -> Recurring
    requires { table < table_count description.now }
    ensures { result ≡ spec.table_recurs description.now table }
{
    Recurring {
        slots: description.round_packets(table).min(u32::MAX as usize) as u32,
        limit: u32::from(description.table_limit(table)),
    }
}

// Appends how often each table recurs.
fn push_tables(description: &Description, recurring: &mut Vec<Recurring>) -> Result<(), AllocError>
    ensures { OnOk result (recurring.new.items ≡ recurring.old.items
        ++ map (spec.table_recurs description.now) (range_with_len 0 (table_count description.now))) }
{
    for table in 0..description.tables() {
        recurring.push(table_recurs(description, table))?;
    }
    Ok(())
}

// Returns how often the clock references of a program recur.
#[tactic(auto, unfolding(crate::specs::Rates::clock_recurs))]
fn clock_recurs(program: &ProgramDescription) -> Recurring
    ensures { result ≡ spec.clock_recurs program.now }
{
    Recurring {
        slots: 1,
        limit: u32::from(program.pcr_limit()),
    }
}

// Returns how often the clock references of programs with a clock of their own recur.
fn own_clocks(alloc: Global, programs: &[ProgramDescription]) -> Result<Vec<Recurring>, AllocError>
    ensures { IfOk result (λ all. all.items ≡ map spec.clock_recurs (filter (λ p. p.has_clock) programs.now)) }
{
    let mut clocks = Vec::new(alloc);
    for program in programs {
        if program.has_clock() {
            clocks.push(clock_recurs(program))?;
        }
    }
    Ok(clocks)
}

// Returns the first program that has no clock of its own.
fn on_shared_clock(programs: &[ProgramDescription]) -> Option<&ProgramDescription>
    ensures { option_map (λ p. p.now) result ≡ find (λ p. not p.has_clock) programs.now }
{
    programs.iter().find(|program| !program.has_clock())
}

// Returns how often the clock references of programs recur, once for programs that share a clock.
fn clocks_of(alloc: Global, programs: &[ProgramDescription]) -> Result<Vec<Recurring>, AllocError>
    ensures { IfOk result (λ all. all.items ≡ map spec.clock_recurs (spec.clock_programs programs.now)) }
{
    let mut clocks = own_clocks(alloc, programs)?;
    if let Some(program) = on_shared_clock(programs) {
        clocks.push(clock_recurs(program))?;
    }
    Ok(clocks)
}

// Returns how often each table and each clock's references recur.
fn recurring_of(alloc: Global, description: &Description) -> Result<Vec<Recurring>, AllocError>
    ensures { IfOk result (λ all. all.items ≡ spec.recurring_of description.now) }
{
    let mut recurring = Vec::new(alloc);
    push_tables(description, &mut recurring)?;
    let mut clocks = clocks_of(alloc, description.programs())?;
    recurring.append(&mut clocks)?;
    Ok(recurring)
}

// Returns the shares of the streams.
fn shares_of(alloc: Global, choices: &[StreamChoice]) -> Result<Vec<u64>, AllocError>
    ensures { IfOk result (λ all. all.items ≡ map (λ c. c.choice.share) choices.now) }
{
    choices
        .iter()
        .map(|choice| choice.choice.share)
        .collect(alloc)
}

/// Returns the rate at which all shares together are the whole.
pub(crate) fn first_rate(alloc: Global, draft: &DescriptionDraft<'_>) -> Result<u64, JobError>
    ensures first { IfOk result (spec.IsFirstRate draft.now.options.now draft.now.input.now) }
    ensures refused { IfErr result (IsWhyNoRate draft.now.options.now draft.now.input.now) }
{
    let input = draft.input;
    let text = draft.text(alloc, GREATEST_RATE)?;
    let description = described(alloc, &text)?;
    let recurring = recurring_of(alloc, &description)?;
    let shares = shares_of(alloc, &input.choices)?;
    match least_rate(&shares, &recurring) {
        Some(rate) => Ok(rate),
        None => Err(JobError::Refused(JobRefusal::Plan(GREATEST_RATE))),
    }
}

// Returns the plan at a rate, if there is one.
fn plan_at(
    alloc: Global,
    draft: &DescriptionDraft<'_>,
    rate: u64,
) -> Result<Option<PlannedDescription>, JobError>
    ensures planned { IfOk result (λ found. IfSome found
        (λ p. spec.IsPlanned draft.now.options.now draft.now.input.now p.rate
        p.plan.description (string_bytes p.text))) }
    ensures rate { IfOk result (λ found. IfSome found (λ p. p.rate ≡ rate)) }
    ensures none { IfOk result (λ found. IfNone found
        (spec.IsUnserved draft.now.options.now draft.now.input.now rate)) }
    ensures refused { IfErr result (IsWhyNotReadAt draft.now.options.now draft.now.input.now rate) }
{
    let text = draft.text(alloc, rate)?;
    let description = described(alloc, &text)?;
    match make(alloc, description) {
        Ok(plan) => Ok(Some(PlannedDescription { rate, text, plan })),
        Err((MakeError::NotFound, _)) => Ok(None),
        Err((MakeError::Memory, _)) => Err(JobError::Memory),
    }
}

// Returns the step from a rate to the next: a small step at first.
#[tactic(auto, unfolding(crate::specs::Rates::step_after))]
fn step_after(tried: u32, rate: u64) -> u64
    requires { rate ≤ 100000000 }
    ensures value { result ≡ spec.step_after tried rate }
    ensures most { result ≤ 100000000 }
{
    if tried < SMALL_STEPS {
        rate / 256
    } else {
        rate / 16
    }
}

// Returns the next rate to try. A step that is less than 25 slots a second ends at a multiple of these.
#[tactic(auto, unfolding(crate::specs::Rates::next_rate))]
fn next_rate(tried: u32, rate: u64) -> u64
    requires { rate ≤ 100000000 }
    ensures { result ≡ spec.next_rate tried rate }
{
    let step = step_after(tried, rate);
    if step < EVEN_RATE {
        rate + step.min(EVEN_RATE - rate % EVEN_RATE)
    } else {
        rate + step
    }
}

// Tries rates from `first` on, and returns the first description with a plan.
fn plan_from(
    alloc: Global,
    draft: &DescriptionDraft<'_>,
    first: u64,
) -> Result<Option<PlannedDescription>, JobError>
    ensures planned { IfOk result (λ found. IfSome found
        (λ p. spec.IsPlanned draft.now.options.now draft.now.input.now p.rate
        p.plan.description (string_bytes p.text))) }
    ensures tried { IfOk result (λ found. IfSome found
        (λ p. spec.IsTriedFrom draft.now.options.now draft.now.input.now first
        p.rate)) }
    ensures none { IfOk result (λ found. IfNone found
        (All (spec.IsUnserved draft.now.options.now draft.now.input.now)
        (spec.tried_rates first))) }
    ensures refused { IfErr result (IsWhyNotReadAtOne
        (spec.IsTriedFrom draft.now.options.now draft.now.input.now first)
        draft.now.options.now draft.now.input.now) }
{
    let mut rate = first;
    for tried in 0..TRIES {
        if rate > GREATEST_RATE {
            return Ok(None);
        }
        if let Some(planned) = plan_at(alloc, draft, rate)? {
            return Ok(Some(planned));
        }
        rate = next_rate(tried, rate);
    }
    Ok(None)
}

/// Returns the first plan that is found from the least rate on.
pub(crate) fn first_plan(
    alloc: Global,
    draft: &DescriptionDraft<'_>,
) -> Result<PlannedDescription, JobError>
    ensures planned { IfOk result (λ p.
        spec.IsPlanned draft.now.options.now draft.now.input.now p.rate p.plan.description (string_bytes p.text)) }
    ensures tried { IfOk result (λ p. spec.IsTried draft.now.options.now draft.now.input.now p.rate) }
    ensures refused { IfErr result (IsWhyNoPlan None draft.now.options.now draft.now.input.now) }
{
    let first = first_rate(alloc, draft)?;
    match plan_from(alloc, draft, first)? {
        Some(planned) => Ok(planned),
        None => Err(JobError::Refused(JobRefusal::Plan(first))),
    }
}

// Returns the plan at the rate of the options.
fn asked_plan(
    alloc: Global,
    draft: &DescriptionDraft<'_>,
    rate: u64,
) -> Result<PlannedDescription, JobError>
    ensures planned { IfOk result (λ p.
        spec.IsPlanned draft.now.options.now draft.now.input.now p.rate p.plan.description (string_bytes p.text)) }
    ensures asked { IfOk result (λ p. p.rate ≡ rate) }
    ensures refused { IfErr result (IsWhyNoPlan (Some rate) draft.now.options.now draft.now.input.now) }
{
    match plan_at(alloc, draft, rate)? {
        Some(planned) => Ok(planned),
        None => Err(JobError::Refused(JobRefusal::Plan(rate))),
    }
}

/// Returns the description at the rate of the options, or otherwise at the least rate with a plan, with its plan.
pub(crate) fn plan_draft(
    alloc: Global,
    draft: &DescriptionDraft<'_>,
) -> Result<PlannedDescription, JobError>
    ensures planned { IfOk result (λ p.
        spec.IsPlanned draft.now.options.now draft.now.input.now p.rate p.plan.description (string_bytes p.text)) }
    ensures rate { IfOk result (λ p.
        spec.IsRate draft.now.options.now.rate draft.now.options.now draft.now.input.now p.rate) }
    ensures refused { IfErr result (IsWhyNoPlan draft.now.options.now.rate draft.now.options.now draft.now.input.now) }
{
    let options = draft.options;
    match options.rate {
        Some(rate) => asked_plan(alloc, draft, rate),
        None => first_plan(alloc, draft),
    }
}
