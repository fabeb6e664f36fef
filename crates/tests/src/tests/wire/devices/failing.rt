//! Devices that fail after a number of bytes or calls.
use arrayvec::ArrayVec;
use std::io::Write;
use ts_packet::{Counted, DeviceFault, Failing, Sink, Source, read_part, write_part};

const TEXT: [u8; 6] = [1, 2, 3, 4, 5, 6];

/// Returns what a reader of six bytes gives in parts of four.
fn parts_read() -> [bool; 6] {
    let mut input = Counted::new(&TEXT[..]);
    let mut part = [0; 4];
    [
        read_part(&mut input, &mut part) == Ok(4) && part == [1, 2, 3, 4],
        read_part(&mut input, &mut part) == Ok(2),
        part == [5, 6, 3, 4],
        read_part(&mut input, &mut part) == Ok(0),
        Source::faults(&input) == 0,
        input.into_inner().is_empty(),
    ]
}

#[test]
fn reads_to_the_end(rt: HostRuntime) {
    assert!(rt; parts_read() == [true; 6]);
}

/// Returns whether a read fails after `bytes` bytes as it should: its answer, the bytes read, the count of faults, the
/// bytes that remain.
fn read_after(bytes: u8) -> [bool; 4] {
    let taken = bytes as usize;
    let mut input = Counted::new(Failing::after_bytes(&TEXT[..], bytes as u64));
    let mut part = [0; 6];
    [
        read_part(&mut input, &mut part) == Err(DeviceFault { taken }),
        part.get(..taken) == TEXT.get(..taken),
        Source::faults(&input) == 1,
        input.into_inner().into_inner().len() == 6usize.saturating_sub(taken),
    ]
}

/// Returns whether six reads of a byte are answered with a byte before the failing call, and only then.
fn read_in_calls(calls: u64) -> bool {
    let mut input = Counted::new(Failing::after_calls(&TEXT[..], calls));
    let mut byte = [0; 1];
    for turn in 0..6u64 {
        let wanted = if turn < calls {
            Ok(1)
        } else {
            Err(DeviceFault { taken: 0 })
        };
        if read_part(&mut input, &mut byte) != wanted {
            return false;
        }
    }
    Source::faults(&input) == 6 - calls.min(6)
}

/// Returns whether a write fails after `bytes` bytes as it should: its answer, the count of faults, the bytes written.
fn written_after(bytes: u8) -> [bool; 3] {
    let taken = bytes as usize;
    let mut output = Counted::new(Failing::after_bytes(ArrayVec::<u8, 8>::new(), bytes as u64));
    let answer = write_part(&mut output, &TEXT);
    let faults = Sink::faults(&output);
    let written = output.into_inner().into_inner();
    [
        answer == Err(DeviceFault { taken }),
        faults == 1,
        Some(written.as_slice()) == TEXT.get(..taken),
    ]
}

/// Returns whether six writes of a byte are done before the failing call, and only then.
fn written_in_calls(calls: u64) -> bool {
    let mut output = Counted::new(Failing::after_calls(ArrayVec::<u8, 8>::new(), calls));
    for turn in 0..6u64 {
        let wanted = if turn < calls {
            Ok(())
        } else {
            Err(DeviceFault { taken: 0 })
        };
        if write_part(&mut output, &[9]) != wanted {
            return false;
        }
    }
    Sink::faults(&output) == 6 - calls.min(6)
}

#[test]
fn devices_fail_after_each_byte_and_call(rt: HostRuntime) {
    for at in 0..6u8 {
        assert!(rt; read_after(at) == [true; 4]);
        assert!(rt; written_after(at) == [true; 3]);
        assert!(rt; read_in_calls(at as u64));
        assert!(rt; written_in_calls(at as u64));
    }
}

/// Returns whether a writer with room for four bytes fails at the fifth, and never at an empty part.
fn written_to_the_end() -> [bool; 7] {
    let mut output = Counted::new(ArrayVec::<u8, 4>::new());
    [
        write_part(&mut output, &TEXT) == Err(DeviceFault { taken: 4 }),
        Sink::faults(&output) == 1,
        write_part(&mut output, &[]) == Ok(()),
        output.write_some(&[]).ok() == Some(0),
        Sink::faults(&output) == 1,
        output.flush().is_ok(),
        output.into_inner().as_slice() == [1, 2, 3, 4].as_slice(),
    ]
}

#[test]
fn a_writer_that_takes_nothing_is_at_fault(rt: HostRuntime) {
    assert!(rt; written_to_the_end() == [true; 7]);
}
