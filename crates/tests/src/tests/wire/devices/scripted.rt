//! A device that answers by a list and counts its calls.
ghost use Rattle.std.specs.Prelude.{◌≤◌, IfOk};

use std::io::{self, Error, ErrorKind, Read, Write};
use ts_packet::{Counted, Sink, Source, read_part, write_part};

/// Each call takes the next answer: a greatest number of bytes, or a failure. After the last answer it gives and takes
/// all.
#[derive(Drop)]
struct Scripted {
    answers: [Option<usize>; 3],
    calls: usize,
}

impl Scripted {
    fn answer(&mut self, wanted: usize) -> io::Result<usize>
        ensures { IfOk result (λ n. n ≤ wanted) }
    {
        let turn = self.calls;
        self.calls = turn.saturating_add(1);
        match self.answers.get(turn) {
            Some(Some(most)) => Ok(wanted.min(*most)),
            Some(None) => Err(Error::from(ErrorKind::Interrupted)),
            None => Ok(wanted),
        }
    }
}

impl Read for Scripted {
    fn read(&mut self, buf: &mut [u8]) -> io::Result<usize> {
        self.answer(buf.len())
    }
}

impl Write for Scripted {
    fn write(&mut self, buf: &[u8]) -> io::Result<usize> {
        self.answer(buf.len())
    }

    fn flush(&mut self) -> io::Result<()> {
        match self.answer(0) {
            Ok(_) => Ok(()),
            Err(error) => Err(error),
        }
    }
}

const READ: u8 = 0;

const WRITE: u8 = 1;

const FLUSH: u8 = 2;

const READ_SOME: u8 = 3;

const WRITE_SOME: u8 = 4;

const READ_PART: u8 = 5;

const WRITE_PART: u8 = 6;

/// Returns the answer of a call with eight bytes as a number: how many are read or written; if the call fails, 100 and
/// the bytes before the fault.
fn call(device: &mut Counted<Scripted>, kind: u8) -> usize {
    let mut part = [7; 8];
    match kind {
        READ => number(device.read(&mut part)),
        WRITE => number(device.write(&part)),
        READ_SOME => number(device.read_some(&mut part)),
        WRITE_SOME => number(device.write_some(&part)),
        FLUSH => match device.flush() {
            Ok(()) => 0,
            Err(_) => 100,
        },
        READ_PART => match read_part(device, &mut part) {
            Ok(size) => size,
            Err(fault) => fault.taken.saturating_add(100),
        },
        _ => match write_part(device, &part) {
            Ok(()) => 8,
            Err(fault) => fault.taken.saturating_add(100),
        },
    }
}

fn number(answer: io::Result<usize>) -> usize {
    match answer {
        Ok(size) => size,
        Err(_) => 100,
    }
}

/// A kind of call, the device's answers, the answers of four calls with the count of faults after each, and the
/// device's calls.
type Row = (u8, [Option<usize>; 3], [(usize, u64); 4], usize);

const ONE_FAILS: [Option<usize>; 3] = [Some(2), None, Some(3)];

const ROWS: [Row; 9] = [
    (READ, ONE_FAILS, [(2, 0), (100, 0), (3, 0), (8, 0)], 4),
    (WRITE, ONE_FAILS, [(2, 0), (100, 0), (3, 0), (8, 0)], 4),
    (FLUSH, ONE_FAILS, [(0, 0), (100, 0), (0, 0), (0, 0)], 4),
    (READ_SOME, ONE_FAILS, [(2, 0), (100, 1), (3, 1), (8, 1)], 4),
    // A write of no byte is at fault.
    (
        WRITE_SOME,
        [Some(2), None, Some(0)],
        [(2, 0), (100, 1), (100, 2), (8, 2)],
        4,
    ),
    // A part ends at the first fault.
    (READ_PART, ONE_FAILS, [(102, 1), (8, 1), (8, 1), (8, 1)], 6),
    (WRITE_PART, ONE_FAILS, [(102, 1), (8, 1), (8, 1), (8, 1)], 6),
    // A part is asked for until it is whole.
    (READ_PART, [Some(2), Some(3), Some(1)], [(8, 0); 4], 7),
    (WRITE_PART, [Some(2), Some(3), Some(1)], [(8, 0); 4], 7),
];

fn is_answered(row: &Row) -> bool {
    let (kind, answers, wanted, calls) = *row;
    let mut device = Counted::new(Scripted { answers, calls: 0 });
    for (answer, faults) in wanted {
        if call(&mut device, kind) != answer {
            return false;
        }
        if [Source::faults(&device), Sink::faults(&device)] != [faults; 2] {
            return false;
        }
    }
    device.into_inner().calls == calls
}

#[test]
fn each_call_is_passed_on_once(rt: HostRuntime) {
    let rows = ROWS;
    for row in &rows {
        assert!(rt; is_answered(row));
    }
}
