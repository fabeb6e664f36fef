//! Whether a description may take the place of the texts of a job on air, a front for it with a plan in which what stays
//! keeps its slots, and the record that puts either there.

ghost use Rattle.std.specs.Prelude.{◌≡◌, ◌<◌, ◌≤◌, ◌^◌, IfOk, IfSome, map, option_map};
ghost use Rattle.devices.specs.Devices.{writes};
ghost use Rattle.devices.specs.Files.{files_of};
ghost use Rattle.tsjob_cli.specs.NextTexts as spec;

use crate::next_asked::{NextAsked, RecordAsked, next_asked};
use crate::program::report_usage;
use crate::read_files;
use counted_io::Sink;
use devices::{
    Halt, NamedFiles, OutputFiles, report_halt, report_of, report_text, save_named, write_bytes,
};
use explained_jobs::{next_front, text_answer, texts_record};
use job_run::{JobOutcome, only_text, write_outcome};
use std::alloc::{AllocError, Global};

// Returns the status for a line.
fn status_of(line: &str) -> u8
    ensures { result ≡ spec.status_of line.now }
{
    if line == "texts: yes\n" { 0 } else { 1 }
}

// Returns the answer to the bytes of a job and of new texts.
#[tactic(auto, using(crate::proofs::NextTexts::answer_is))]
fn answer_to(alloc: Global, job: &[u8], texts: &[u8]) -> Result<JobOutcome, AllocError>
    ensures { IfOk result (λ o. o ≡ spec.answer_to job.now texts.now) }
{
    let line = text_answer(alloc, job, texts)?;
    let status = status_of(line.as_str());
    Ok(JobOutcome {
        output: only_text(alloc, line),
        report: String::new(alloc),
        status,
    })
}

// Writes the record of texts to the file that is asked for, whole or not at all; returns the status.
fn save_record<F: OutputFiles, E: Sink>(
    alloc: Global,
    files: &F,
    asked: RecordAsked<'_>,
    job: &[u8],
    texts: &[u8],
    faults: &mut E,
) -> u8
    requires at { asked.at < 2 ^ 32 }
    requires wait { asked.wait ≤ 8100000 }
    ensures { spec.SavesRecord (F.creates files.now) (F.keeps files.now) (spec.asked_view asked.entry) job.now texts.now
        (writes E.Sink faults.old faults.new) result }
{
    match texts_record(alloc, job, texts, asked.is_front, asked.at, asked.wait) {
        Some(bytes) => save_named(files, asked.to, bytes.as_slice(), 0, faults),
        None => {
            report_of(asked.to, ": can't be written\n", faults);
            3
        }
    }
}

// Writes the record of texts if it is asked for, and the answer with this status says that they may be put on air; returns
// the status.
fn keep_record<F: OutputFiles, E: Sink>(
    alloc: Global,
    files: &F,
    asked: Option<RecordAsked<'_>>,
    job: &[u8],
    texts: &[u8],
    answered: u8,
    faults: &mut E,
) -> u8
    requires at { IfSome asked (λ r. r.at < 2 ^ 32) }
    requires wait { IfSome asked (λ r. r.wait ≤ 8100000) }
    ensures { spec.KeepsRecord (F.creates files.now) (F.keeps files.now) (option_map spec.asked_view asked.entry) job.now
        texts.now answered (writes E.Sink faults.old faults.new) result }
{
    let Some(asked) = asked else {
        return answered;
    };
    if answered != 0 {
        return answered;
    }
    save_record(alloc, files, asked, job, texts, faults)
}

// Writes the answer to the bytes of a job and of new texts, and the record if it is asked for; returns the status.
#[tactic(auto, using(crate::proofs::NextTexts::answered))]
fn answer_texts<F: OutputFiles, W: Sink, E: Sink>(
    alloc: Global,
    files: &F,
    asked: Option<RecordAsked<'_>>,
    job: &[u8],
    texts: &[u8],
    output: &mut W,
    faults: &mut E,
) -> u8
    requires at { IfSome asked (λ r. r.at < 2 ^ 32) }
    requires wait { IfSome asked (λ r. r.wait ≤ 8100000) }
    ensures { spec.AnswersTexts (F.creates files.now) (F.keeps files.now) (option_map spec.asked_view asked.entry) job.now
        texts.now (writes W.Sink output.old output.new) (writes E.Sink faults.old faults.new) result }
{
    match answer_to(alloc, job, texts) {
        Ok(outcome) => {
            let answered = write_outcome(&outcome, output, faults);
            keep_record(alloc, files, asked, job, texts, answered, faults)
        }
        Err(_) => report_halt(faults, Halt::Memory),
    }
}

// Writes a front to standard output, or to a file of this name, whole or not at all; returns the status.
#[tactic(auto, using(crate::proofs::NextTexts::front_written, crate::proofs::NextTexts::front_stopped), unfolding(crate::specs::NextTexts::PutsFront))]
fn put_front<F: OutputFiles, W: Sink, E: Sink>(
    files: &F,
    name: Option<&str>,
    front: &[u8],
    output: &mut W,
    faults: &mut E,
) -> u8
    ensures { spec.PutsFront (F.creates files.now) (F.keeps files.now) (option_map (λ s. s.now) name.entry) front.now
        (writes W.Sink output.old output.new) (writes E.Sink faults.old faults.new) result }
{
    match name {
        None => match write_bytes(front, output) {
            Ok(()) => 0,
            Err(halt) => report_halt(faults, halt),
        },
        Some(name) => save_named(files, name, front, 0, faults),
    }
}

// Writes a front, and its record if it is asked for; returns the status.
#[tactic(auto, using(crate::proofs::NextTexts::front_kept))]
fn keep_front<F: OutputFiles, W: Sink, E: Sink>(
    alloc: Global,
    files: &F,
    asked: NextAsked<'_>,
    job: &[u8],
    front: &[u8],
    output: &mut W,
    faults: &mut E,
) -> u8
    requires at { IfSome asked.record (λ r. r.at < 2 ^ 32) }
    requires wait { IfSome asked.record (λ r. r.wait ≤ 8100000) }
    ensures { spec.KeepsFront (F.creates files.now) (F.keeps files.now) (spec.next_view asked.entry) job.now front.now
        (writes W.Sink output.old output.new) (writes E.Sink faults.old faults.new) result }
{
    let answered = put_front(files, asked.name, front, output, faults);
    keep_record(alloc, files, asked.record, job, front, answered, faults)
}

// Writes a front for the bytes of a job on air and of a new description, with its record if it is asked for, or why there
// is none; returns the status.
#[tactic(auto, using(crate::proofs::NextTexts::front_answered, crate::proofs::NextTexts::front_refused))]
fn answer_front<F: OutputFiles, W: Sink, E: Sink>(
    alloc: Global,
    files: &F,
    asked: NextAsked<'_>,
    job: &[u8],
    texts: &[u8],
    output: &mut W,
    faults: &mut E,
) -> u8
    requires at { IfSome asked.record (λ r. r.at < 2 ^ 32) }
    requires wait { IfSome asked.record (λ r. r.wait ≤ 8100000) }
    ensures { spec.AnswersFront (F.creates files.now) (F.keeps files.now) (spec.next_view asked.entry) job.now texts.now
        (writes W.Sink output.old output.new) (writes E.Sink faults.old faults.new) result }
{
    match next_front(alloc, job, texts) {
        Ok(Ok(front)) => keep_front(alloc, files, asked, job, &front, output, faults),
        Ok(Err(words)) => {
            report_text(faults, words.as_str());
            1
        }
        Err(_) => report_halt(faults, Halt::Memory),
    }
}

// Answers the bytes of a job and of a new description; returns the status.
#[tactic(auto, unfolding(crate::specs::NextTexts::AnswersBytes))]
fn answer_bytes<F: OutputFiles, W: Sink, E: Sink>(
    alloc: Global,
    files: &F,
    asked: NextAsked<'_>,
    job: &[u8],
    texts: &[u8],
    output: &mut W,
    faults: &mut E,
) -> u8
    requires at { IfSome asked.record (λ r. r.at < 2 ^ 32) }
    requires wait { IfSome asked.record (λ r. r.wait ≤ 8100000) }
    ensures { spec.AnswersBytes asked.entry.plan (F.creates files.now) (F.keeps files.now) (spec.next_view asked.entry) job.now
        texts.now (writes W.Sink output.old output.new) (writes E.Sink faults.old faults.new) result }
{
    if asked.plan {
        answer_front(alloc, files, asked, job, texts, output, faults)
    } else {
        answer_texts(alloc, files, asked.record, job, texts, output, faults)
    }
}

// Reads two files, writes the answer, and the record if it is asked for; returns the status.
#[tactic(auto, using(crate::proofs::NextTexts::both_read, crate::proofs::NextTexts::new_unread))]
fn answer_two<F: NamedFiles + OutputFiles, W: Sink, E: Sink>(
    alloc: Global,
    files: &F,
    asked: NextAsked<'_>,
    old: &str,
    new: &str,
    output: &mut W,
    faults: &mut E,
) -> u8
    requires at { IfSome asked.record (λ r. r.at < 2 ^ 32) }
    requires wait { IfSome asked.record (λ r. r.wait ≤ 8100000) }
    ensures { spec.AnswersTwo (files_of (F.contents_of files.now) (F.opens files.now) F.never_fails) (F.creates files.now)
        (F.keeps files.now) (spec.next_view asked.entry) old.now new.now
        (writes W.Sink output.old output.new) (writes E.Sink faults.old faults.new) result }
{
    let job = match read_files(alloc, files, &[old], faults) {
        Ok(bytes) => bytes,
        Err(status) => return status,
    };
    let texts = match read_files(alloc, files, &[new], faults) {
        Ok(bytes) => bytes,
        Err(status) => return status,
    };
    answer_bytes(alloc, files, asked, &job, &texts, output, faults)
}

/// Writes whether the description in the second of two files may take the place of the texts of the job in the first, or
/// a front for it, and then the record that puts it there, as the options and the name of the output ask; or the usage if
/// there are not two files or the options are a usage error. Returns the status.
#[tactic(auto, unfolding(crate::specs::NextTexts::AnswersNext))]
pub(crate) fn answer_next<F: NamedFiles + OutputFiles, W: Sink, E: Sink>(
    alloc: Global,
    files: &F,
    options: &[&str],
    name: Option<&str>,
    names: &[&str],
    output: &mut W,
    faults: &mut E,
) -> u8
    ensures { spec.AnswersNext (files_of (F.contents_of files.now) (F.opens files.now) F.never_fails) (F.creates files.now)
        (F.keeps files.now) (spec.next_asked (map (λ s. s.now) options.now) (option_map (λ s. s.now) name.entry))
        (map (λ s. s.now) names.now) (writes W.Sink output.old output.new) (writes E.Sink faults.old faults.new) result }
{
    let Some(asked) = next_asked(options, name) else {
        return report_usage(faults);
    };
    match names {
        [old, new] => answer_two(alloc, files, asked, old, new, output, faults),
        _ => report_usage(faults),
    }
}
