//! A stream, read as it comes; what it feeds goes out before the next read.

ghost use Rattle.std.specs.Prelude.{◌≡◌, ◌<◌, ◌≤◌, ◌||◌, ℕ, List, [], OnOk, false, length};
ghost use Rattle.devices.specs.Devices.{reads, writes};
ghost use Rattle.fed_streams.specs.Feeding.{Fed, FeedView};
ghost use Rattle.es_feed.specs.Watching.{IsWatchedBy, watched_first};
ghost use Rattle.es_feed.specs.FedLines as feed_lines;
ghost use Rattle.es_feed.specs.Passing as spec;
ghost use Rattle.es_feed.specs.StreamLines as stated;
ghost use Rattle.es_feed.specs.StreamLines.{first_lines};

use crate::UnitFeed;
use crate::fed_records::{report_faults, write_fed};
use crate::stream_lines::StreamLines;
use crate::watched_feed::WatchedFeed;
use counted_io::{Sink, Source};
use devices::{Halt, report_halt};
use fed_streams::FeedFault;
use pes_packet::Unit;
use std::alloc::Global;

/// The most bytes of one read.
const PIECE: usize = 1 << 16;

// Writes the records of units, then a line for each report. Returns whether there is a report.
fn pass_fed<W: Sink, E: Sink>(
    lines: &mut StreamLines<'_>,
    fed: &[(u8, Result<Unit, FeedFault>)],
    output: &mut W,
    faults: &mut E,
) -> Result<bool, Halt>
    ensures goes { spec.GoesOut lines.old fed.now (writes W.Sink output.old output.new)
        (writes E.Sink faults.old faults.new) result }
    ensures lines { OnOk result (lines.new ≡ stated.after_lines lines.old fed.now) }
{
    match write_fed(output, fed) {
        Ok(()) => Ok(report_faults(faults, lines, fed)),
        Err(halt) => Err(halt),
    }
}

// Writes all units and reports that wait. Returns whether there is a report.
fn let_out<W: Sink, E: Sink>(
    lines: &mut StreamLines<'_>,
    fed: &mut Vec<(u8, Result<Unit, FeedFault>)>,
    output: &mut W,
    faults: &mut E,
) -> Result<bool, Halt>
    ensures goes { spec.GoesOut lines.old fed.old.items (writes W.Sink output.old output.new)
        (writes E.Sink faults.old faults.new) result }
    ensures lines { OnOk result (lines.new ≡ stated.after_lines lines.old fed.old.items) }
    ensures out { fed.new.items ≡ [] }
{
    let result = pass_fed(lines, fed.as_slice(), output, faults);
    fed.clear();
    result
}

// Reads the next bytes of the input, and feeds them. All that was fed before is out. Returns whether there are any.
fn feed_piece<R: Source>(
    stream: &mut WatchedFeed,
    piece: &mut [u8],
    input: &mut R,
    fed: &mut Vec<(u8, Result<Unit, FeedFault>)>,
) -> Result<bool, Halt>
    requires some { 0 < length piece.old }
    requires most { length piece.old ≤ spec.longest_piece }
    // Nothing that was fed before waits to go out.
    requires out { fed.old.items ≡ [] }
    ensures { spec.FeedsPiece stream.old (reads R.Source input.old input.new) stream.new fed.new.items result }
{
    let n = match input.read_some(piece) {
        Ok(0) => return Ok(false),
        Ok(n) => n,
        Err(_) => return Err(Halt::Read),
    };
    if stream.push(&piece[..n], fed).is_err() {
        return Err(Halt::Memory);
    }
    Ok(true)
}

// Returns whether a report says that the description is of another stream.
#[tactic(auto, unfolding(crate::specs::FedLines::is_refusal, crate::specs::FedLines::is_other))]
fn is_refusal(fed: &(u8, Result<Unit, FeedFault>)) -> bool
    ensures { result ≡ feed_lines.is_refusal fed.now }
{
    match &fed.1 {
        Ok(_) => false,
        Err(fault) => matches!(fault, FeedFault::Other(_)),
    }
}

fn have_refusal(fed: &[(u8, Result<Unit, FeedFault>)]) -> bool
    ensures { result ≡ feed_lines.have_refusal fed.now }
{
    fed.iter().any(|one| is_refusal(one))
}

// Reads a stream to the end of the input, or until the description shows to be of another stream; writes the units and
// reports of each read before the next. Returns whether there is a report.
fn pass_pieces<R: Source, W: Sink, E: Sink>(
    alloc: Global,
    lines: &mut StreamLines<'_>,
    stream: &mut WatchedFeed,
    piece: &mut [u8],
    input: &mut R,
    output: &mut W,
    faults: &mut E,
) -> Result<bool, Halt>
    requires some { 0 < length piece.old }
    requires most { length piece.old ≤ spec.longest_piece }
    ensures { (first : FeedView) (pids : List ℕ) → stream.old ≡ watched_first first → lines.old ≡ first_lines pids →
        spec.PassesPieces first pids (reads R.Source input.old input.new) (writes W.Sink output.old output.new)
        (writes E.Sink faults.old faults.new) result stream.new lines.new }
{
    let mut faulty = false;
    let mut fed = Vec::new(alloc);
    for _ in 0..u64::MAX {
        let more = match feed_piece(stream, piece, input, &mut fed) {
            Ok(more) => more,
            Err(halt) => return Err(halt),
        };
        if !more {
            return Ok(faulty);
        }
        let refused = have_refusal(&fed);
        let found = match let_out(lines, &mut fed, output, faults) {
            Ok(found) => found,
            Err(halt) => return Err(halt),
        };
        if found {
            faulty = true;
        }
        if refused {
            return Ok(faulty);
        }
    }
    Err(Halt::Read)
}

// Ends the input, and writes the last units and reports. Returns whether there is a report.
fn pass_last<W: Sink, E: Sink>(
    alloc: Global,
    lines: &mut StreamLines<'_>,
    stream: WatchedFeed,
    output: &mut W,
    faults: &mut E,
) -> Result<bool, Halt>
    ensures { (first : FeedView) (came : List ℕ) (before : List Fed) → IsWatchedBy first came false stream before →
        spec.PassesLast first lines.old came before (writes W.Sink output.old output.new)
        (writes E.Sink faults.old faults.new) result }
{
    let mut fed = Vec::new(alloc);
    if stream.finish(&mut fed).is_err() {
        return Err(Halt::Memory);
    }
    pass_fed(lines, &fed, output, faults)
}

// Returns whether either is true.
fn is_faulty_pass(early: bool, late: bool) -> bool
    ensures { result ≡ (early || late) }
{
    early || late
}

// Reads a whole stream, and writes its units and reports. Returns whether there is a report.
fn pass_all<R: Source, W: Sink, E: Sink>(
    alloc: Global,
    feed: UnitFeed,
    pids: &[u16],
    input: &mut R,
    output: &mut W,
    faults: &mut E,
) -> Result<bool, Halt>
    ensures { spec.PassesOn feed pids.now (reads R.Source input.old input.new) (writes W.Sink output.old output.new)
        (writes E.Sink faults.old faults.new) result }
{
    let Ok(mut piece) = vec![in alloc; 0u8; PIECE] else {
        // By a call: at the end of a function the drop of each part would be a step of its proof.
        drop(feed);
        return Err(Halt::Memory);
    };
    let mut stream = WatchedFeed::new(alloc, feed);
    let mut lines = StreamLines::new(pids);
    let early = match pass_pieces(
        alloc,
        &mut lines,
        &mut stream,
        &mut piece,
        input,
        output,
        faults,
    ) {
        Ok(early) => early,
        Err(halt) => {
            drop(stream);
            return Err(halt);
        }
    };
    match pass_last(alloc, &mut lines, stream, output, faults) {
        Ok(late) => Ok(is_faulty_pass(early, late)),
        Err(halt) => Err(halt),
    }
}

/// Reads a stream as it arrives, writes the record of each unit and tick that it feeds before the next read, and
/// reports each unit without a moment and all that is no unit (`FedLines` of `es_feed`); a description of another
/// stream ends the run. Returns the status: 0 all is written, 1 something was reported, 3 a device failed or memory ran
/// out.
pub fn pass_stream<R: Source, W: Sink, E: Sink>(
    alloc: Global,
    feed: UnitFeed,
    pids: &[u16],
    input: &mut R,
    output: &mut W,
    faults: &mut E,
) -> u8
    ensures { spec.RunsStream feed pids.now (reads R.Source input.old input.new) (writes W.Sink output.old output.new)
        (writes E.Sink faults.old faults.new) result }
{
    match pass_all(alloc, feed, pids, input, output, faults) {
        Ok(false) => 0,
        Ok(true) => 1,
        Err(halt) => report_halt(faults, halt),
    }
}
