//! The program over any reader and two writers.

ghost use Rattle.std.specs.Prelude.{◌≡◌, None, Some, if◌then◌else◌, true, false, codes, map};
ghost use Rattle.clap.specs.Words.{Text};
ghost use Rattle.devices.specs.Devices.{Device, IsUntouched, reads, writes};
ghost use Rattle.devices.specs.Files.{files_of};
ghost use Rattle.devices.specs.Lines.{Reports};
ghost use Rattle.devices.specs.Runs.{Performs};
ghost use Rattle.ts_watch.specs.Choices.{RequestView};
ghost use Rattle.tsview_cli.specs.Answers.{Answers};
ghost use Rattle.tsview_cli.specs.Arguments.{asked, asked_for};
ghost use Rattle.tsview_cli.specs.Drawing.{DrawsPage};
ghost use Rattle.tsview_cli.specs.NamedStream.{OfFile};
ghost use Rattle.tsview_cli.specs.Options.{known_words, usage_text};
ghost use Rattle.tsview_cli.specs.PlanDrawing.{DrawsPlan, is_plan};
ghost use Rattle.tsview_cli.specs.Viewing.{Concludes, Views};
ghost use Rattle.word_faults.specs.UsageReport.{AnswersWords, unreadable_text};

use crate::arguments::read_arguments;
use crate::drawing::draw_stream;
use crate::options::{known_words, usage};
use crate::plan_drawing::{draw_plan, is_plan};
use crate::request::{Asked, Request};
use crate::viewing::{Viewed, view_input};
use counted_io::{Sink, Source};
use devices::{Halt, NamedFiles, report_halt, report_line, report_text};
use event_lines::LineForm;
use std::alloc::Global;
use ts_report::ViewRequest;
use word_faults::answer_words;

/// Writes that a word is not UTF-8 and how to ask for the usage, and returns the status.
pub fn report_usage<E: Sink>(faults: &mut E) -> u8
    ensures reports { Reports (writes E.Sink faults.old faults.new) (unreadable_text (codes "tsview")) }
    ensures status { result ≡ 2 }
{
    report_text(faults, "a word is not UTF-8\nusage: tsview --help\n");
    2
}

// Returns the status: 0 if the stream has no fault, 1 if it has a fault.
fn status_of(good: bool) -> u8
    ensures { result ≡ (if good then 0 else 1) }
{
    if good { 0 } else { 1 }
}

// Reports if no more of the input was viewed, and returns the status.
fn conclude<E: Sink>(seen: Viewed, faults: &mut E) -> u8
    ensures { Concludes seen (writes E.Sink faults.old faults.new) result }
{
    match seen {
        Viewed::Whole(good) => status_of(good),
        Viewed::Crowded => {
            report_line(faults, "waiting", &[]);
            3
        }
    }
}

// Views the input, and returns the status.
fn view_stream<R: Source, W: Sink, E: Sink>(
    alloc: Global,
    request: ViewRequest,
    form: LineForm,
    input: &mut R,
    output: &mut W,
    faults: &mut E,
) -> u8
    ensures { Views request form (reads R.Source input.old input.new) (writes W.Sink output.old output.new)
        (writes E.Sink faults.old faults.new) result }
{
    match view_input(alloc, request, form, input, output) {
        Ok(seen) => conclude(seen, faults),
        Err(halt) => report_halt(faults, halt),
    }
}

// Answers a request about the stream in an input, and returns the status.
fn answer<R: Source, W: Sink, E: Sink>(
    alloc: Global,
    request: Request,
    input: &mut R,
    output: &mut W,
    faults: &mut E,
) -> u8
    ensures { Answers request (reads R.Source input.old input.new) (writes W.Sink output.old output.new)
        (writes E.Sink faults.old faults.new) result }
{
    match request {
        Request::Lines(request, form) => view_stream(alloc, request, form, input, output, faults),
        Request::Page(request) => draw_stream(alloc, request, input, output, faults),
    }
}

// Answers a request about the stream in a named file, and returns the status.
fn answer_file<F: NamedFiles, W: Sink, E: Sink>(
    alloc: Global,
    request: Request,
    files: &F,
    name: &str,
    output: &mut W,
    faults: &mut E,
) -> u8
    ensures { (input : Device) → IsUntouched input →
        OfFile (files_of (F.contents_of files.now) (F.opens files.now) F.never_fails) name.now (Answers request) input
        (writes W.Sink output.old output.new) (writes E.Sink faults.old faults.new) result }
{
    let Some(mut file) = files.open_named(name) else {
        drop(request);
        report_line(faults, "open", &[]);
        return 3;
    };
    let status = answer(alloc, request, &mut file, output, faults);
    drop(file);
    status
}

// Answers a request about the stream in the input or in a file, and returns the status.
fn answer_asked<F: NamedFiles, R: Source, W: Sink, E: Sink>(
    alloc: Global,
    wanted: Asked<'_>,
    files: &F,
    input: &mut R,
    output: &mut W,
    faults: &mut E,
) -> u8
    ensures input { wanted.entry.file ≡ None →
        Answers wanted.entry.request (reads R.Source input.old input.new) (writes W.Sink output.old output.new)
        (writes E.Sink faults.old faults.new) result }
    ensures file { (name : Text) → wanted.entry.file ≡ Some name →
        OfFile (files_of (F.contents_of files.now) (F.opens files.now) F.never_fails) name
        (Answers wanted.entry.request)
        (reads R.Source input.old input.new) (writes W.Sink output.old output.new)
        (writes E.Sink faults.old faults.new) result }
{
    let Asked { request, file } = wanted;
    match file {
        Some(name) => answer_file(alloc, request, files, name, output, faults),
        None => answer(alloc, request, input, output, faults),
    }
}

// Runs the program for a transport stream in the input or in a file, or reports a usage error.
fn run_on_stream<F: NamedFiles, R: Source, W: Sink, E: Sink>(
    alloc: Global,
    words: &[&str],
    files: &F,
    input: &mut R,
    output: &mut W,
    faults: &mut E,
) -> u8
    // A transport stream, as it comes, to the lines of its report.
    ensures view { (r : RequestView) (form : LineForm) →
        asked words.now ≡ Some (asked_for (Request.Lines r form) None) →
        Views r form (reads R.Source input.old input.new) (writes W.Sink output.old output.new)
        (writes E.Sink faults.old faults.new) result }
    // A transport stream to a page of its events.
    ensures page { (r : RequestView) →
        asked words.now ≡ Some (asked_for (Request.Page r) None) →
        Performs (DrawsPage r) (reads R.Source input.old input.new) (writes W.Sink output.old output.new)
        (writes E.Sink faults.old faults.new) result }
    // A transport stream in a file, to its lines or its page.
    ensures view_file { (r : RequestView) (form : LineForm) (name : Text) →
        asked words.now ≡ Some (asked_for (Request.Lines r form) (Some name)) →
        OfFile (files_of (F.contents_of files.now) (F.opens files.now) F.never_fails) name (Views r form)
        (reads R.Source input.old input.new) (writes W.Sink output.old output.new)
        (writes E.Sink faults.old faults.new) result }
    ensures page_file { (r : RequestView) (name : Text) →
        asked words.now ≡ Some (asked_for (Request.Page r) (Some name)) →
        OfFile (files_of (F.contents_of files.now) (F.opens files.now) F.never_fails) name (Performs (DrawsPage r))
        (reads R.Source input.old input.new) (writes W.Sink output.old output.new)
        (writes E.Sink faults.old faults.new) result }
    // Anything else: `--version`, `--help`, or a word that cannot be taken.
    ensures other { asked words.now ≡ None →
        AnswersWords (codes "tsview") known_words (map (λ s. s.now) words.now) usage_text
        (reads R.Source input.old input.new) (writes W.Sink output.old output.new)
        (writes E.Sink faults.old faults.new) result }
{
    match read_arguments(alloc, words) {
        Ok(Some(wanted)) => answer_asked(alloc, wanted, files, input, output, faults),
        Ok(None) => {
            let known = known_words();
            answer_words(alloc, "tsview", known, words, usage(), output, faults)
        }
        Err(_) => report_halt(faults, Halt::Memory),
    }
}

/// Runs the whole program: it reads the input, or a file that is named, piece by piece, writes the lines of what a
/// piece settles before it reads the next, or draws a page of it and writes that at the end; or draws a page of the
/// plan in a job. It returns the exit status: 0 good, 1 something is wrong in the stream or the job, 2 a usage error, 3
/// a device failed, out of memory, or too many units of a stream wait.
pub fn run<F: NamedFiles, R: Source, W: Sink, E: Sink>(
    alloc: Global,
    words: &[&str],
    files: &F,
    input: &mut R,
    output: &mut W,
    faults: &mut E,
) -> u8
    // `--plan` alone: a description and a plan to the page of the plan.
    ensures plan { is_plan (map (λ s. s.now) words.now) ≡ true →
        Performs DrawsPlan (reads R.Source input.old input.new)
        (writes W.Sink output.old output.new) (writes E.Sink faults.old faults.new) result }
    // A transport stream, as it comes, to the lines of its report.
    ensures view { is_plan (map (λ s. s.now) words.now) ≡ false → (r : RequestView) (form : LineForm) →
        asked words.now ≡ Some (asked_for (Request.Lines r form) None) →
        Views r form (reads R.Source input.old input.new) (writes W.Sink output.old output.new)
        (writes E.Sink faults.old faults.new) result }
    // A transport stream to a page of its events.
    ensures page { is_plan (map (λ s. s.now) words.now) ≡ false → (r : RequestView) →
        asked words.now ≡ Some (asked_for (Request.Page r) None) →
        Performs (DrawsPage r) (reads R.Source input.old input.new) (writes W.Sink output.old output.new)
        (writes E.Sink faults.old faults.new) result }
    // A transport stream in a file, to its lines or its page.
    ensures view_file { is_plan (map (λ s. s.now) words.now) ≡ false → (r : RequestView) (form : LineForm) (name : Text) →
        asked words.now ≡ Some (asked_for (Request.Lines r form) (Some name)) →
        OfFile (files_of (F.contents_of files.now) (F.opens files.now) F.never_fails) name (Views r form)
        (reads R.Source input.old input.new) (writes W.Sink output.old output.new)
        (writes E.Sink faults.old faults.new) result }
    ensures page_file { is_plan (map (λ s. s.now) words.now) ≡ false → (r : RequestView) (name : Text) →
        asked words.now ≡ Some (asked_for (Request.Page r) (Some name)) →
        OfFile (files_of (F.contents_of files.now) (F.opens files.now) F.never_fails) name (Performs (DrawsPage r))
        (reads R.Source input.old input.new) (writes W.Sink output.old output.new)
        (writes E.Sink faults.old faults.new) result }
    // Anything else: `--version`, `--help`, or a word that cannot be taken.
    ensures other { is_plan (map (λ s. s.now) words.now) ≡ false → asked words.now ≡ None →
        AnswersWords (codes "tsview") known_words (map (λ s. s.now) words.now) usage_text
        (reads R.Source input.old input.new) (writes W.Sink output.old output.new)
        (writes E.Sink faults.old faults.new) result }
{
    if is_plan(words) {
        draw_plan(alloc, input, output, faults)
    } else {
        run_on_stream(alloc, words, files, input, output, faults)
    }
}
