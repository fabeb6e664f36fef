//! A page of the events of a stream, written at its end.
ghost use Rattle.std.specs.Prelude.{◌≡◌, ◌++◌, ℕ, List, [], if◌then◌else◌, IfErr, IfOk, OnOk};
ghost use Rattle.devices.specs.Devices.{reads, writes};
ghost use Rattle.devices.specs.Runs.{Performs};
ghost use Rattle.ts_watch.specs.Choices.{RequestView};
ghost use Rattle.analysis.specs.Analysis.{AnalysisState, start};
ghost use Rattle.view_page.specs.Pages.{PageState};
ghost use Rattle.tsview_cli.specs.CapturedStreams.{rate_in};
ghost use Rattle.tsview_cli.specs.Drawing.{Draws, DrawsPage, EndsDrawn, IsDrawn, IsWritten, TakesBytes, first_page};

use crate::captured::{CapturedView, rate_of};
use counted_io::{Sink, Source};
use devices::{Halt, PieceTaker, report_halt, take_input, write_text};
use std::alloc::{AllocError, Global};
use ts_report::ViewRequest;
use view_page::Page;

/// The size of a piece in bytes: 349 packets, somewhat more than 64 KiB, so that it is read past the buffer of standard
/// input.
const PIECE: usize = 349 * 188;

/// A stream that is viewed, and the page of the events that its bytes have settled.
#[derive(Drop)]
pub struct Drawing {
    pub stream: CapturedView,
    pub page: Page,
}

// Returns the length of a window in ms.
fn window_of(request: &ViewRequest) -> u32
    ensures { result ≡ request.now.options.window }
{
    request.options.window
}

// Returns whether the request has arrival by stamps.
fn stamps_of(request: &ViewRequest) -> bool
    ensures { result ≡ request.now.stamps }
{
    request.stamps
}

impl Drawing {
    // Returns the drawing before the first byte.
    fn new(alloc: Global, request: ViewRequest) -> Drawing
        ensures { IsDrawn result (start request) (first_page request) [] }
    {
        let rate = rate_of(&request);
        let page = Page::new(alloc, window_of(&request), rate, stamps_of(&request));
        Drawing {
            stream: CapturedView::new(alloc, request),
            page,
        }
    }

    // Takes the next bytes: the page takes the events that they settle.
    fn take(&mut self, piece: &[u8]) -> Result<(), AllocError>
        ensures { (s : AnalysisState) (p : PageState) (bytes : List ℕ) → IsDrawn self.old s p bytes →
            OnOk result (IsDrawn self.new s p (bytes ++ piece.now)) }
    {
        self.stream.take(piece)?;
        self.page.take_all(&self.stream.parts.events)
    }

    // Takes the bytes of the next piece. A crowded view is refused as if memory ran out: no page is drawn of a part.
    fn take_bytes(&mut self, piece: &[u8]) -> Result<(), Halt>
        ensures taken { (s : AnalysisState) (p : PageState) (bytes : List ℕ) → IsDrawn self.old s p bytes →
            OnOk result (IsDrawn self.new s p (bytes ++ piece.now)) }
        ensures memory { IfErr result (λ halt. halt ≡ Halt.Memory) }
    {
        match self.take(piece) {
            Ok(()) if !self.stream.is_crowded() => Ok(()),
            _ => Err(Halt::Memory),
        }
    }

    // Takes the events at the end of the input, and returns whether no fault is found.
    fn end(&mut self, rate: Option<u64>) -> Result<bool, AllocError>
        ensures { (s : AnalysisState) (p : PageState) (bytes : List ℕ) → IsDrawn self.old s p bytes →
            IfOk result (EndsDrawn rate self.new.page s p bytes) }
    {
        let good = self.stream.end(rate)?;
        self.page.take_all(&self.stream.parts.events)?;
        Ok(good)
    }
}

impl PieceTaker for Drawing {
    ghost unit = { 188 };

    ghost has_taken = { λ first bytes now. TakesBytes bytes first now };

    fn take_piece(&mut self, piece: &[u8]) -> Result<(), Halt> {
        self.take_bytes(piece)
    }
}

/// A page, and whether nothing is wrong in its stream.
#[derive(Drop)]
pub struct DrawnPage {
    pub text: String,
    pub good: bool,
}

// Writes the page of a stream that was read to its end.
fn write_drawn(
    alloc: Global,
    rate: Option<u64>,
    drawing: &mut Drawing,
) -> Result<DrawnPage, AllocError>
    ensures { (s : AnalysisState) (p : PageState) (bytes : List ℕ) → IsDrawn drawing.old s p bytes →
        IfOk result (IsWritten rate s p bytes) }
{
    let good = drawing.end(rate)?;
    let mut text = String::new(alloc);
    drawing.page.write(&mut text)?;
    Ok(DrawnPage { text, good })
}

// Writes the page, unless memory runs out.
fn drawn(alloc: Global, rate: Option<u64>, drawing: &mut Drawing) -> Result<DrawnPage, Halt>
    ensures ok { (s : AnalysisState) (p : PageState) (bytes : List ℕ) → IsDrawn drawing.old s p bytes →
        IfOk result (IsWritten rate s p bytes) }
    ensures err { IfErr result (λ halt. halt ≡ Halt.Memory) }
{
    match write_drawn(alloc, rate, drawing) {
        Ok(page) => Ok(page),
        Err(_) => Err(Halt::Memory),
    }
}

// Draws the page of the input, from a drawing of no byte.
fn draw_whole<R: Source>(
    alloc: Global,
    rate: Option<u64>,
    input: &mut R,
    drawing: &mut Drawing,
) -> Result<DrawnPage, Halt>
    ensures { (r : RequestView) → IsDrawn drawing.old (start r) (first_page r) [] → rate ≡ rate_in r →
        Draws r (reads R.Source input.old input.new) result }
{
    match take_input(alloc, input, PIECE, drawing) {
        Ok(_) => drawn(alloc, rate, drawing),
        Err(halt) => Err(halt),
    }
}

// Draws the page of the input.
fn draw_input<R: Source>(
    alloc: Global,
    request: ViewRequest,
    input: &mut R,
) -> Result<DrawnPage, Halt>
    ensures { Draws request (reads R.Source input.old input.new) result }
{
    let rate = rate_of(&request);
    let mut drawing = Drawing::new(alloc, request);
    let result = draw_whole(alloc, rate, input, &mut drawing);
    // By a call: at the end of a function the drop of each part would be a step of its proof.
    drop(drawing);
    result
}

// Returns the status: 0 if the stream has no fault, 1 if it has a fault.
fn status_of(page: &DrawnPage) -> u8
    ensures { result ≡ (if page.now.good then 0 else 1) }
{
    if page.good { 0 } else { 1 }
}

/// Writes the page of the input, and returns the status.
pub(crate) fn draw_stream<R: Source, W: Sink, E: Sink>(
    alloc: Global,
    request: ViewRequest,
    input: &mut R,
    output: &mut W,
    faults: &mut E,
) -> u8
    ensures { Performs (DrawsPage request) (reads R.Source input.old input.new)
        (writes W.Sink output.old output.new) (writes E.Sink faults.old faults.new) result }
{
    let page = match draw_input(alloc, request, input) {
        Ok(page) => page,
        Err(halt) => return report_halt(faults, halt),
    };
    match write_text(&page.text, output) {
        Ok(()) => status_of(&page),
        Err(halt) => report_halt(faults, halt),
    }
}
