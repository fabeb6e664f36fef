//! Frames read to the end of an input, and their records written as they arrive.

ghost use Rattle.std.specs.Prelude.{◌≡◌, ◌<◌, [], OnOk, length};
ghost use Rattle.devices.specs.Devices.{reads, writes};
ghost use Rattle.unit_records.specs.OpenRecords.{IsOpen};
ghost use Rattle.tsair_cli.specs.FramePassing as spec;
ghost use Rattle.tsair_cli.specs.Readings.{first, reading_of};

use crate::frame_feed::{FrameFeed, report_drop};
use counted_io::{Sink, Source};
use devices::{Halt, report_halt};
use std::alloc::Global;

/// The most bytes of one read.
const PIECE: usize = 1 << 16;

// Reads the next bytes of the input, and unframes them. Returns whether there are any.
fn take_piece<R: Source>(
    feed: &mut FrameFeed,
    piece: &mut [u8],
    input: &mut R,
) -> Result<bool, Halt>
    requires some { 0 < length piece.old }
    requires opens { IsOpen feed.old.frame.begun }
    ensures { spec.TakesPiece feed.old (reads R.Source input.old input.new) feed.new result }
{
    let n = match input.read_some(piece) {
        Ok(0) => return Ok(false),
        Ok(n) => n,
        Err(_) => return Err(Halt::Read),
    };
    match feed.take_all(&piece[..n]) {
        Ok(()) => Ok(true),
        Err(_) => Err(Halt::Memory),
    }
}

// Writes the records that wait, and then reports where bytes were dropped.
fn let_out<W: Sink, E: Sink>(
    feed: &mut FrameFeed,
    output: &mut W,
    faults: &mut E,
) -> Result<(), Halt>
    ensures out { spec.LetsOut feed.old feed.new (writes W.Sink output.old output.new)
        (writes E.Sink faults.old faults.new) result }
{
    match feed.write(output) {
        Ok(()) => {}
        Err(halt) => return Err(halt),
    }
    feed.report(faults);
    feed.clear();
    Ok(())
}

// Reads frames to the end of the input; the records of each read are written before the next.
fn pass_pieces<R: Source, W: Sink, E: Sink>(
    feed: &mut FrameFeed,
    piece: &mut [u8],
    input: &mut R,
    output: &mut W,
    faults: &mut E,
) -> Result<(), Halt>
    requires some { 0 < length piece.old }
    requires opens { IsOpen feed.old.frame.begun }
    requires reading { reading_of feed.old ≡ first }
    requires records { feed.old.records.items ≡ [] }
    requires drops { feed.old.drops.items ≡ [] }
    ensures passes { spec.PassesPieces (reads R.Source input.old input.new) (writes W.Sink output.old output.new)
        (writes E.Sink faults.old faults.new) result feed.new }
    ensures opens { OnOk result (IsOpen feed.new.frame.begun) }
{
    for _ in 0..u64::MAX {
        match take_piece(feed, piece, input) {
            Ok(true) => {}
            Ok(false) => return Ok(()),
            Err(halt) => return Err(halt),
        }
        match let_out(feed, output, faults) {
            Ok(()) => {}
            Err(halt) => return Err(halt),
        }
    }
    Err(Halt::Read)
}

// Reports whether the input ended within a record, and returns the status.
fn report_last<E: Sink>(feed: &FrameFeed, faults: &mut E) -> u8
    requires { IsOpen feed.now.frame.begun }
    ensures { spec.ReportsLast (reading_of feed.now) (writes E.Sink faults.old faults.new) result }
{
    if feed.ends_half() {
        report_drop(faults, feed.count());
        return 1;
    }
    if feed.has_reported() { 1 } else { 0 }
}

// Reports how a run ended, and returns the status.
fn report_end<E: Sink>(feed: &FrameFeed, passed: Result<(), Halt>, faults: &mut E) -> u8
    requires { OnOk passed (IsOpen feed.now.frame.begun) }
    ensures { spec.ReportsEnd (reading_of feed.now) (writes E.Sink faults.old faults.new) passed result }
{
    match passed {
        Ok(()) => report_last(feed, faults),
        Err(halt) => report_halt(faults, halt),
    }
}

/// Reads frames to the end of the input, and writes each whole record before the next read that follows it. Reports
/// each place where bytes are dropped, such as the half record of a writer that was killed, and returns the status: 0
/// all were passed on, 1 bytes were dropped, 3 a device failed or out of memory.
pub fn pass_frames<R: Source, W: Sink, E: Sink>(
    alloc: Global,
    input: &mut R,
    output: &mut W,
    faults: &mut E,
) -> u8
    ensures { spec.PassesFrames (reads R.Source input.old input.new) (writes W.Sink output.old output.new)
        (writes E.Sink faults.old faults.new) result }
{
    let Ok(mut piece) = vec![in alloc; 0u8; PIECE] else {
        return report_halt(faults, Halt::Memory);
    };
    let mut feed = FrameFeed::new(alloc);
    let passed = pass_pieces(&mut feed, &mut piece, input, output, faults);
    let status = report_end(&feed, passed, faults);
    // By a call: at the end of a function the drop of each part would be a step of its proof.
    drop(feed);
    status
}
