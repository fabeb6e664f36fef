//! A service by hand: a description, a plan and records to packets.
ghost use Rattle.std.specs.Prelude.{◌≡◌, ◌++◌, [], ◌∷◌, IfOk, OnOk, option_map};
ghost use Rattle.std.specs.Result.{result_map_both};
ghost use Rattle.devices.specs.Devices.{reads, writes};
ghost use Rattle.devices.specs.Files.{files_of};
ghost use Rattle.tsjob_cli.specs.ReadFiles.{ReadsAll};
ghost use Rattle.tsremux_cli.specs.ByHand as spec;

use crate::figures::Remuxed;
use crate::muxing::mux_bytes;
use counted_io::{Counted, Sink, Source};
use devices::{Halt, NamedFiles, read_whole, report_halt, report_text};
use explained_jobs::explain_job;
use std::alloc::{AllocError, Global};
use tsjob_cli::read_files;
use tsmux_cli::make_plan;

// Returns the bytes of the named file. If it can't be read, reports why and returns the status.
fn file_bytes<F: NamedFiles, E: Sink>(
    alloc: Global,
    files: &F,
    name: &str,
    faults: &mut E,
) -> Result<Vec<u8>, u8>
    ensures { ReadsAll (files_of (F.contents_of files.now) (F.opens files.now) F.never_fails) (name.now ∷ [])
        (writes E.Sink faults.old faults.new) (result_map_both (λ bytes. bytes.items) (λ status. status) result) }
{
    read_files(alloc, files, &[name], faults)
}

// Reports the words of `tsjob explain` about these bytes, if the status is 1, a fault in them.
fn report_why<E: Sink>(alloc: Global, bytes: &[u8], status: u8, faults: &mut E)
    ensures { spec.SaysWhy bytes.now status (writes E.Sink faults.old faults.new) }
{
    if status != 1 {
        return;
    }
    match explain_job(alloc, bytes) {
        Ok(words) => report_text(faults, words.as_str()),
        Err(_) => {
            report_halt(faults, Halt::Memory);
        }
    }
}

// Returns the plan made for a description. If there is no plan, reports why and returns the status.
fn made_plan<E: Sink>(alloc: Global, description: &[u8], faults: &mut E) -> Result<Vec<u8>, u8>
    ensures { spec.PlansFor description.now (writes E.Sink faults.old faults.new)
        (result_map_both (λ bytes. bytes.items) (λ status. status) result) }
{
    let mut input = Counted::new(description);
    let mut plan = Counted::new(Vec::new(alloc));
    let status = make_plan(alloc, &mut input, &mut plan, faults);
    if status == 0 {
        return Ok(plan.into_inner());
    }
    report_why(alloc, description, status, faults);
    Err(status)
}

// Returns the plan in the named file; without a name, makes a plan.
fn plan_bytes<F: NamedFiles, E: Sink>(
    alloc: Global,
    name: Option<&str>,
    description: &[u8],
    files: &F,
    faults: &mut E,
) -> Result<Vec<u8>, u8>
    ensures { spec.ReadsPlan (files_of (F.contents_of files.now) (F.opens files.now) F.never_fails)
        (option_map (λ s. s.now) name.entry) description.now (writes E.Sink faults.old faults.new)
        (result_map_both (λ bytes. bytes.items) (λ status. status) result) }
{
    match name {
        Some(name) => file_bytes(alloc, files, name, faults),
        None => made_plan(alloc, description, faults),
    }
}

// Returns the whole input. If it can't be read, reports why and returns the status.
fn input_bytes<R: Source, E: Sink>(
    alloc: Global,
    input: &mut R,
    faults: &mut E,
) -> Result<Vec<u8>, u8>
    ensures { spec.ReadsOn (reads R.Source input.old input.new) (writes E.Sink faults.old faults.new)
        (result_map_both (λ bytes. bytes.items) (λ status. status) result) }
{
    match read_whole(alloc, input) {
        Ok(bytes) => Ok(bytes),
        Err(halt) => Err(report_halt(faults, halt)),
    }
}

// Returns the records in the named file; without a name, the input.
fn record_bytes<F: NamedFiles, R: Source, E: Sink>(
    alloc: Global,
    name: Option<&str>,
    files: &F,
    input: &mut R,
    faults: &mut E,
) -> Result<Vec<u8>, u8>
    ensures { spec.ReadsRecords (files_of (F.contents_of files.now) (F.opens files.now) F.never_fails)
        (option_map (λ s. s.now) name.entry) (reads R.Source input.old input.new)
        (writes E.Sink faults.old faults.new)
        (result_map_both (λ bytes. bytes.items) (λ status. status) result) }
{
    match name {
        Some(name) => file_bytes(alloc, files, name, faults),
        None => input_bytes(alloc, input, faults),
    }
}

// Returns whether a text has a line feed at its end, or is empty.
fn ends_line(text: &[u8]) -> bool
    ensures { result ≡ spec.ends_line text.now }
{
    text.is_empty() || text[text.len() - 1] == b'\n'
}

// Returns a text with a line feed at its end, added if it lacks one.
fn ended(text: Vec<u8>) -> Result<Vec<u8>, AllocError>
    ensures { IfOk result (λ whole. whole.items ≡ spec.ended text.items) }
{
    let mut text = text;
    if !ends_line(&text) {
        text.push(b'\n')?;
    }
    Ok(text)
}

// Appends bytes.
fn append(job: &mut Vec<u8>, bytes: &[u8]) -> Result<(), AllocError>
    ensures { OnOk result (job.new.items ≡ job.old.items ++ bytes.now) }
{
    job.extend_from_slice(bytes)
}

// Joins description, plan and records to a job.
fn join(description: Vec<u8>, plan: Vec<u8>, records: &[u8]) -> Result<Vec<u8>, AllocError>
    ensures { IfOk result (λ job. job.items ≡ spec.joined description.items plan.items records.now) }
{
    let mut job = ended(description)?;
    append(&mut job, &ended(plan)?)?;
    append(&mut job, records)?;
    Ok(job)
}

// Joins description, plan and records to a job. If memory runs out, reports it and returns the status.
fn job_of<E: Sink>(
    description: Vec<u8>,
    plan: Vec<u8>,
    records: &[u8],
    faults: &mut E,
) -> Result<Vec<u8>, u8>
    ensures { spec.Joins description.items plan.items records.now (writes E.Sink faults.old faults.new)
        (result_map_both (λ bytes. bytes.items) (λ status. status) result) }
{
    match join(description, plan, records) {
        Ok(job) => Ok(job),
        Err(_) => Err(report_halt(faults, Halt::Memory)),
    }
}

// Returns the job of a service by hand. If there is no job, reports why and returns the status.
#[tactic(auto, using(crate::proofs::ByHand::no_description, crate::proofs::ByHand::no_plan, crate::proofs::ByHand::no_records, crate::proofs::ByHand::has_job, crate::proofs::ByHand::no_room))]
fn hand_job<F: NamedFiles, R: Source, E: Sink>(
    alloc: Global,
    description: &str,
    plan: Option<&str>,
    records: Option<&str>,
    files: &F,
    input: &mut R,
    faults: &mut E,
) -> Result<Vec<u8>, u8>
    ensures { spec.ReadsJob
        (spec.hand description.now (option_map (λ s. s.now) plan.entry) (option_map (λ s. s.now) records.entry))
        (files_of (F.contents_of files.now) (F.opens files.now) F.never_fails)
        (reads R.Source input.old input.new) (writes E.Sink faults.old faults.new)
        (result_map_both (λ bytes. bytes.items) (λ status. status) result) }
{
    let description = match file_bytes(alloc, files, description, faults) {
        Ok(bytes) => bytes,
        Err(status) => return Err(status),
    };
    let plan = match plan_bytes(alloc, plan, &description, files, faults) {
        Ok(bytes) => bytes,
        Err(status) => return Err(status),
    };
    let records = match record_bytes(alloc, records, files, input, faults) {
        Ok(bytes) => bytes,
        Err(status) => return Err(status),
    };
    match job_of(description, plan, &records, faults) {
        Ok(job) => Ok(job),
        Err(status) => Err(status),
    }
}

/// Writes the packets of a service by hand.
#[tactic(auto, using(crate::proofs::ByHand::none_muxed, crate::proofs::ByHand::not_all_muxed, crate::proofs::ByHand::all_muxed))]
pub(crate) fn mux_by_hand<F: NamedFiles, R: Source, W: Sink, E: Sink>(
    alloc: Global,
    description: &str,
    plan: Option<&str>,
    records: Option<&str>,
    files: &F,
    input: &mut R,
    output: &mut W,
    faults: &mut E,
) -> Remuxed
    ensures { spec.MuxesByHand
        (spec.hand description.now (option_map (λ s. s.now) plan.entry) (option_map (λ s. s.now) records.entry))
        (files_of (F.contents_of files.now) (F.opens files.now) F.never_fails)
        (reads R.Source input.old input.new) (writes W.Sink output.old output.new)
        (writes E.Sink faults.old faults.new) result }
{
    let job = match hand_job(alloc, description, plan, records, files, input, faults) {
        Ok(job) => job,
        Err(status) => return Remuxed::Ended { status },
    };
    match mux_bytes(alloc, &job, output, faults) {
        Ok(figures) => Remuxed::Whole { figures, status: 0 },
        Err(status) => {
            report_why(alloc, &job, status, faults);
            Remuxed::Ended { status }
        }
    }
}
