//! A front that takes the place of the one on air: a new description with a plan in which what stays keeps its slots.

ghost use Rattle.std.specs.Prelude.{◌≡◌, ◌++◌, IfOk, OnOk, false, option_map, string_bytes};
ghost use Rattle.std.specs.Result.{result_map_both};
ghost use Rattle.changed_texts.specs.Reading.{description_in};
ghost use Rattle.checked_jobs.specs.JobFaults.{job_view};
ghost use Rattle.checked_jobs.specs.Jobs.{job_of};
ghost use Rattle.slot_plan.specs.Conditions.{IsServing};
ghost use Rattle.explained_jobs.specs.LineUpWords.{line_up_words};
ghost use Rattle.explained_jobs.specs.NextFronts as spec;

use crate::explaining::description_part;
use crate::line_up_words::write_line_up_fault;
use crate::text_answers::refused_text;
use changed_texts::read_description;
use checked_jobs::{CheckedJob, JobPlans, JobReadError, read_job};
use description::Description;
use description_keys::DescError;
use kept_plans::{kept_plan, program_in_the_way};
use line_ups::{LineUpFault, description_fault, line_up_fault};
use plan_checker::CheckedPlan;
use slot_plan::Plan;
use std::alloc::{AllocError, Global};
use std::fmt::Write;

// Returns the first plan of a job, with its description.
fn first_plan<'a>(job: &'a CheckedJob<'_>) -> &'a CheckedPlan
    ensures { result.now ≡ spec.served_of (job_view job.now) }
{
    match &job.plans {
        JobPlans::One(plan) => plan,
        JobPlans::Two(switch) => switch.first(),
    }
}

// Returns these words.
fn words_of(alloc: Global, words: &str) -> Result<String, AllocError>
    ensures { IfOk result (λ text. string_bytes text ≡ words.now) }
{
    let mut text = String::new(alloc);
    text.push_str(words)?;
    Ok(text)
}

// Returns why a line-up may not take the place of the one on air, in words.
fn fault_text(alloc: Global, fault: LineUpFault) -> Result<String, AllocError>
    ensures { IfOk result (λ text. string_bytes text ≡ line_up_words fault) }
{
    let mut text = String::new(alloc);
    write_line_up_fault(fault, &mut text)?;
    Ok(text)
}

// Returns the same for a fault, if there is one.
fn fault_if_any(alloc: Global, fault: Option<LineUpFault>) -> Result<Option<String>, AllocError>
    ensures { IfOk result (λ text. option_map string_bytes text ≡ option_map line_up_words fault) }
{
    match fault {
        None => Ok(None),
        Some(fault) => Ok(Some(fault_text(alloc, fault)?)),
    }
}

// Returns the program_number at a place; 0 if there is no program.
fn number_at(description: &Description, place: usize) -> u16
    ensures { result ≡ spec.number_at description.now place }
{
    match description.programs().get(place) {
        None => 0,
        Some(program) => program.number(),
    }
}

// Appends whether a plan is found if a program comes again, and which.
#[tactic(auto, unfolding(crate::specs::NextFronts::way_words))]
fn write_way(
    description: &Description,
    place: Option<usize>,
    text: &mut String,
) -> Result<(), AllocError>
    ensures { OnOk result (string_bytes text.new ≡ string_bytes text.old ++ spec.way_words description.now place) }
{
    match place {
        None => text.push_str(
            "no plan is found that keeps the slots of all that stays, even if a program more goes and comes again\n",
        ),
        Some(place) => write!(
            text,
            "no plan is found that keeps the slots of all that stays: let program {} go, and come again on other PIDs\n",
            number_at(description, place)
        ),
    }
}

// Returns whether a plan is found if a program comes again, and which, in words.
#[tactic(auto, using(crate::proofs::NextFronts::way_named))]
fn way_text(alloc: Global, old: &CheckedPlan, new: &Description) -> Result<String, AllocError>
    ensures { IfOk result (λ text. spec.NamesWay old.now new.now (string_bytes text)) }
{
    let place = program_in_the_way(&alloc, old, new)?;
    let mut text = String::new(alloc);
    write_way(new, place, &mut text)?;
    Ok(text)
}

// Returns a description's bytes with the text of a plan after them.
fn with_plan_text(alloc: Global, texts: &[u8], plan: &Plan) -> Result<Vec<u8>, AllocError>
    ensures { IfOk result (λ front. front.items ≡ spec.front_of texts.now plan.now) }
{
    let text = plan.write_text(alloc)?;
    let mut front = Vec::new(alloc);
    front.extend_from_slice(texts)?;
    front.extend_from_slice(text.as_bytes())?;
    Ok(front)
}

// Returns why a front may not take the place of the one on air, in words; none if it may.
#[tactic(auto, using(crate::proofs::NextFronts::front_read, crate::proofs::NextFronts::front_unread))]
fn front_fault(alloc: Global, old: &CheckedPlan, front: &[u8]) -> Result<Option<String>, AllocError>
    ensures { IfOk result (λ fault. option_map string_bytes fault ≡ spec.front_words old.now (job_of false front.now)) }
{
    match read_job(alloc, false, front) {
        Ok(job) => fault_if_any(alloc, line_up_fault(old, first_plan(&job))),
        Err(JobReadError::Fault(_)) => Ok(Some(words_of(
            alloc,
            "the new description can't be read with a plan after it: end its last line, and have no line tsplan 1\n",
        )?)),
        Err(JobReadError::Memory) => Err(AllocError),
    }
}

// Returns the front with this plan if it may take the place of the one on air, or why not.
#[tactic(auto, using(crate::proofs::NextFronts::front_follows, crate::proofs::NextFronts::front_refused))]
fn judged_front(
    alloc: Global,
    old: &CheckedPlan,
    new: &Description,
    texts: &[u8],
    plan: &Plan,
) -> Result<Result<Vec<u8>, String>, AllocError>
    requires { IsServing new.now plan.now }
    ensures { IfOk result (λ answer. spec.NextOf old.now new.now texts.now
        (result_map_both (λ front. front.items) (λ words. string_bytes words) answer)) }
{
    let front = with_plan_text(alloc, texts, plan)?;
    match front_fault(alloc, old, &front)? {
        None => Ok(Ok(front)),
        Some(words) => Ok(Err(words)),
    }
}

// Returns a front with a plan in which what stays keeps its slots, or why there is none.
#[tactic(auto, using(crate::proofs::NextFronts::no_plan))]
fn planned_front(
    alloc: Global,
    old: &CheckedPlan,
    new: &Description,
    texts: &[u8],
) -> Result<Result<Vec<u8>, String>, AllocError>
    ensures { IfOk result (λ answer. spec.NextOf old.now new.now texts.now
        (result_map_both (λ front. front.items) (λ words. string_bytes words) answer)) }
{
    match kept_plan(&alloc, old, new, None)? {
        Some(plan) => judged_front(alloc, old, new, texts, &plan),
        None => Ok(Err(way_text(alloc, old, new)?)),
    }
}

// Returns a front for a new description, or why there is none.
#[tactic(auto, using(crate::proofs::NextFronts::has_fault))]
fn front_for(
    alloc: Global,
    old: &CheckedPlan,
    new: &Description,
    texts: &[u8],
) -> Result<Result<Vec<u8>, String>, AllocError>
    ensures { IfOk result (λ answer. spec.NextOf old.now new.now texts.now
        (result_map_both (λ front. front.items) (λ words. string_bytes words) answer)) }
{
    match description_fault(old.description(), new) {
        None => planned_front(alloc, old, new, texts),
        Some(fault) => Ok(Err(fault_text(alloc, fault)?)),
    }
}

// Returns a front for the bytes of a new description, or why there is none.
#[tactic(auto, using(crate::proofs::NextFronts::texts_read, crate::proofs::NextFronts::texts_refused))]
fn front_after(
    alloc: Global,
    old: &CheckedPlan,
    texts: &[u8],
) -> Result<Result<Vec<u8>, String>, AllocError>
    ensures { IfOk result (λ answer. spec.ByTexts old.now texts.now (description_in texts.now)
        (result_map_both (λ front. front.items) (λ words. string_bytes words) answer)) }
{
    match read_description(alloc, texts) {
        Ok(new) => front_for(alloc, old, &new, texts),
        Err(DescError::Refused(fault)) => Ok(Err(refused_text(alloc, "", fault)?)),
        Err(DescError::Memory) => Err(AllocError),
    }
}

/// Returns a front that may take the place of a job on air: the bytes of a new description, without its plan if it has
/// one, and a plan in which what stays keeps its slots; or why there is none, in words.
#[tactic(auto, using(crate::proofs::NextFronts::job_read, crate::proofs::NextFronts::job_unread))]
pub fn next_front(
    alloc: Global,
    job: &[u8],
    texts: &[u8],
) -> Result<Result<Vec<u8>, String>, AllocError>
    ensures { IfOk result (λ answer. spec.IsNext job.now texts.now
        (result_map_both (λ front. front.items) (λ words. string_bytes words) answer)) }
{
    match read_job(alloc, false, job) {
        Ok(old) => front_after(alloc, first_plan(&old), description_part(texts)),
        Err(JobReadError::Fault(_)) => Ok(Err(words_of(
            alloc,
            "the job on air can't be read, or its plan does not serve it: tsjob explain says why\n",
        )?)),
        Err(JobReadError::Memory) => Err(AllocError),
    }
}
