//! The input, read piece by piece, and the lines of the events that each piece settles.
ghost use Rattle.std.specs.Prelude.{◌≡◌, ◌≤◌, ◌<◌, ◌%◌, ◌==◌, ◌&&◌, ◌++◌, ℕ, List, [], IfOk, IfErr, OnOk, Ok, false, length, take};
ghost use Rattle.std.specs.Prelude.{string_bytes};
ghost use Rattle.capture.specs.Captures.{Part};
ghost use Rattle.analysis.specs.Analysis.{AnalysisState, start};
ghost use Rattle.devices.specs.Devices.{reads, writes};
ghost use Rattle.devices.specs.Lines.{WritesLine};
ghost use Rattle.ts_watch.specs.Choices.{RequestView};
ghost use Rattle.analysis.specs.Analysis.{is_crowded};
ghost use Rattle.tsview_cli.specs.CapturedStreams.{IsSoFar, rate_in};
ghost use Rattle.tsview_cli.specs.Viewing.{Breaks, CameFront, EndShows, Reaches, ReadsSome, Sees, Shows, StopsNext, longest_piece};
ghost use Rattle.tsview_cli.specs.Viewing as spec;

use crate::captured::{CapturedView, rate_of};
use counted_io::{Sink, Source};
use devices::{Halt, LONGEST_INPUT, new_piece, size_within, write_text};
use event_lines::{LineForm, write_events};
use std::alloc::{AllocError, Global};
use ts_report::ViewRequest;

/// The most bytes of a read: 349 packets, somewhat more than 64 KiB, so that they are read past the buffer of standard
/// input. After each further piece of this size it is asked whether the view is crowded.
const PIECE: usize = 349 * 188;

/// What an input is, as far as it was viewed.
#[derive(Clone, Copy)]
pub(crate) enum Viewed {
    /// It was viewed to its end: whether nothing is wrong in it.
    Whole(bool),
    /// The view stopped before the end: too many units of a stream wait in a buffer.
    Crowded,
}

// Views the next piece: the text has the lines of the events that it settles.
fn view_lines(
    alloc: Global,
    form: LineForm,
    stream: &mut CapturedView,
    piece: &[u8],
    text: &mut String,
) -> Result<(), AllocError>
    requires out { string_bytes text.old ≡ [] }
    ensures { (first : AnalysisState) (bytes : List ℕ) (found : List Part) → IsSoFar first stream.old bytes found →
        OnOk result (Shows form first stream.new (bytes ++ piece.now) found (string_bytes text.new)) }
{
    stream.take(piece)?;
    write_events(alloc, text, form, &stream.parts.events)
}

// Views the next piece, unless memory runs out.
fn view_piece(
    alloc: Global,
    form: LineForm,
    stream: &mut CapturedView,
    piece: &[u8],
    text: &mut String,
) -> Result<(), Halt>
    requires out { string_bytes text.old ≡ [] }
    ensures shown { (first : AnalysisState) (bytes : List ℕ) (found : List Part) →
        IsSoFar first stream.old bytes found →
        OnOk result (Shows form first stream.new (bytes ++ piece.now) found (string_bytes text.new)) }
    ensures memory { IfErr result (λ halt. halt ≡ Halt.Memory) }
{
    match view_lines(alloc, form, stream, piece, text) {
        Ok(()) => Ok(()),
        Err(_) => Err(Halt::Memory),
    }
}

// Reads the next bytes of the input into a piece: as many as one call gives, none only if the input ends.
fn read_some<R: Source>(input: &mut R, piece: &mut [u8]) -> Result<usize, Halt>
    requires { 0 < length piece.old }
    ensures { ReadsSome (reads R.Source input.old input.new) piece.new result }
{
    match input.read_some(piece) {
        Ok(n) => Ok(n),
        Err(_) => Err(Halt::Read),
    }
}

// Reads the next bytes of the input, and views them: the lines that they settle wait in the text. Returns their number.
fn view_next<R: Source>(
    alloc: Global,
    form: LineForm,
    input: &mut R,
    piece: &mut [u8],
    stream: &mut CapturedView,
    text: &mut String,
) -> Result<usize, Halt>
    requires some { 0 < length piece.old }
    requires bound { length piece.old ≤ longest_piece }
    // No line that is settled waits to be written.
    requires out { string_bytes text.old ≡ [] }
    ensures read { IfOk result (λ n. CameFront (reads R.Source input.old input.new) piece.new n) }
    ensures shown { (first : AnalysisState) (bytes : List ℕ) (found : List Part) →
        IsSoFar first stream.old bytes found →
        IfOk result (λ n. Shows form first stream.new (bytes ++ take n piece.new) found (string_bytes text.new)) }
    ensures err { IfErr result (StopsNext (reads R.Source input.old input.new)) }
{
    let n = read_some(input, piece)?;
    view_piece(alloc, form, stream, &piece[..n], text)?;
    Ok(n)
}

// Writes the text, and forgets it.
fn write_settled<W: Sink>(text: &mut String, output: &mut W) -> Result<(), Halt>
    ensures written { WritesLine (string_bytes text.old) (writes W.Sink output.old output.new) result }
    ensures empty { OnOk result (string_bytes text.new ≡ []) }
{
    write_text(text, output)?;
    text.clear();
    Ok(())
}

// Returns whether the view stops after this many bytes: at the end of a piece, if it is crowded.
fn stops(size: usize, stream: &CapturedView) -> bool
    ensures { result ≡ ((size % longest_piece == 0) && is_crowded stream.now.parts.view) }
{
    size % PIECE == 0 && stream.is_crowded()
}

// Views the input to its end, or until the view is crowded, and returns the size of what was viewed.
fn view_pieces<R: Source, W: Sink>(
    alloc: Global,
    form: LineForm,
    input: &mut R,
    output: &mut W,
    piece: &mut [u8],
    stream: &mut CapturedView,
    text: &mut String,
) -> Result<usize, Halt>
    requires size { length piece.old ≡ longest_piece }
    requires text { string_bytes text.old ≡ [] }
    requires calm { is_crowded stream.old.parts.view ≡ false }
    ensures ok { (s : AnalysisState) → IsSoFar s stream.old [] [] →
        IfOk result (Reaches form s (reads R.Source input.old input.new)
        (writes W.Sink output.old output.new) stream.new) }
    ensures err { (s : AnalysisState) → IsSoFar s stream.old [] [] →
        IfErr result (Breaks form s (reads R.Source input.old input.new)
        (writes W.Sink output.old output.new)) }
    ensures text { OnOk result (string_bytes text.new ≡ []) }
{
    let mut size = 0;
    while size <= LONGEST_INPUT {
        let room = PIECE - size % PIECE;
        let n = view_next(alloc, form, input, &mut piece[..room], stream, text)?;
        match write_settled(text, output) {
            Ok(()) => {}
            Err(halt) => return Err(halt),
        }
        size += n;
        if n == 0 {
            return size_within(size);
        }
        if stops(size, stream) {
            return Ok(size);
        }
    }
    Err(Halt::Read)
}

// Ends the input: the text has the last lines. Whether nothing is wrong in it.
fn write_end(
    alloc: Global,
    form: LineForm,
    rate: Option<u64>,
    stream: &mut CapturedView,
    text: &mut String,
) -> Result<bool, AllocError>
    requires out { string_bytes text.old ≡ [] }
    ensures { (first : AnalysisState) (bytes : List ℕ) (found : List Part) → IsSoFar first stream.old bytes found →
        IfOk result (EndShows rate form first bytes found (string_bytes text.new)) }
{
    let good = stream.end(rate)?;
    write_events(alloc, text, form, &stream.parts.events)?;
    Ok(good)
}

// Ends the view, unless memory runs out.
fn end_view(
    alloc: Global,
    form: LineForm,
    rate: Option<u64>,
    stream: &mut CapturedView,
    text: &mut String,
) -> Result<bool, Halt>
    requires out { string_bytes text.old ≡ [] }
    ensures shown { (first : AnalysisState) (bytes : List ℕ) (found : List Part) →
        IsSoFar first stream.old bytes found →
        IfOk result (EndShows rate form first bytes found (string_bytes text.new)) }
    ensures memory { IfErr result (λ halt. halt ≡ Halt.Memory) }
{
    match write_end(alloc, form, rate, stream, text) {
        Ok(good) => Ok(good),
        Err(_) => Err(Halt::Memory),
    }
}

// Returns how the view of an input ended: `crowded`, or at the end of the input; `good`: no fault was found.
fn as_viewed(crowded: bool, good: bool) -> Viewed
    ensures { result ≡ spec.as_viewed crowded good }
{
    if crowded {
        Viewed::Crowded
    } else {
        Viewed::Whole(good)
    }
}

// Views the input to its end, or until the view is crowded, and writes the last lines of what was viewed.
fn view_whole<R: Source, W: Sink>(
    alloc: Global,
    form: LineForm,
    rate: Option<u64>,
    input: &mut R,
    output: &mut W,
    piece: &mut [u8],
    stream: &mut CapturedView,
    text: &mut String,
) -> Result<Viewed, Halt>
    requires size { length piece.old ≡ longest_piece }
    requires text { string_bytes text.old ≡ [] }
    requires calm { is_crowded stream.old.parts.view ≡ false }
    ensures { (r : RequestView) → IsSoFar (start r) stream.old [] [] → rate ≡ rate_in r →
        Sees r form (reads R.Source input.old input.new) (writes W.Sink output.old output.new) result }
{
    match view_pieces(alloc, form, input, output, piece, stream, text) {
        Ok(_) => {}
        Err(halt) => return Err(halt),
    }
    let crowded = stream.is_crowded();
    let good = match end_view(alloc, form, rate, stream, text) {
        Ok(good) => good,
        Err(halt) => return Err(halt),
    };
    match write_text(text.as_str(), output) {
        Ok(()) => Ok(as_viewed(crowded, good)),
        Err(halt) => Err(halt),
    }
}

/// Views the input, and writes all its lines, or all of what was viewed until the view was crowded; returns what the
/// input is.
pub(crate) fn view_input<R: Source, W: Sink>(
    alloc: Global,
    request: ViewRequest,
    form: LineForm,
    input: &mut R,
    output: &mut W,
) -> Result<Viewed, Halt>
    ensures { Sees request form (reads R.Source input.old input.new) (writes W.Sink output.old output.new) result }
{
    let mut piece = match new_piece(alloc, PIECE) {
        Ok(piece) => piece,
        Err(halt) => return Err(halt),
    };
    let rate = rate_of(&request);
    let mut stream = CapturedView::new(alloc, request);
    let mut text = String::new(alloc);
    let result = view_whole(
        alloc,
        form,
        rate,
        input,
        output,
        &mut piece,
        &mut stream,
        &mut text,
    );
    // By a call: at the end of a function the drop of each part would be a step of its proof.
    drop(stream);
    result
}
