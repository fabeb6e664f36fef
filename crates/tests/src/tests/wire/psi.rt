//! PAT and PMT.

use super::sections::SINGLE;
use super::vectors::{ONE_STREAM, PAT, PMT, TWO_PROGRAMS};
use arrayvec::ArrayVec;
use psi_tables::{
    LongHeader, Pat, Pmt, Program, ProgramLoop, Section, Stream, StreamLoop, Streams, WriteError,
};
use std::alloc::Global;

/// Returns whether both writers gave these bytes.
pub fn are_written(
    out: &ArrayVec<u8, 4096>,
    own: Result<Vec<u8>, WriteError>,
    wanted: &[u8],
) -> bool {
    match own {
        Ok(own) => own.as_slice() == wanted && out.as_slice() == wanted,
        Err(_) => false,
    }
}

const NETWORK: Program = Program {
    program_number: 0,
    pid: 0x10,
};

const FIRST: Program = Program {
    program_number: 1,
    pid: 0x1000,
};

/// Returns the header of a PAT, how many programs it has, and the first three answers of its iterator.
fn programs_of(bytes: &[u8]) -> Option<(LongHeader, usize, [Option<Program>; 3])> {
    let (section, _) = Section::read(bytes).ok()?;
    let pat = Pat::read(&section).ok()?;
    let mut left = pat.programs;
    let programs = [left.next(), left.next(), left.next()];
    Some((pat.header, pat.programs.len(), programs))
}

/// Returns whether two programs are pushed, and both writers give a PAT of the last `count` of them as these bytes.
fn is_pat_written(alloc: Global) -> bool {
    let mut programs = ProgramLoop::new();
    let network = programs.push(NETWORK);
    let first = programs.push(FIRST);
    let pat = Pat {
        header: SINGLE,
        programs: programs.programs(),
    };
    let mut out = ArrayVec::new();
    let answers = [network, first, pat.write_to(&mut out)];
    answers == [Ok(()); 3] && are_written(&out, pat.write(alloc), TWO_PROGRAMS)
}

#[test]
fn pats_are_read_and_written(rt: HostRuntime) {
    let one = [Some(FIRST), None, None];
    assert!(rt; programs_of(PAT) == Some((SINGLE, 1, one)));
    let two = [Some(NETWORK), Some(FIRST), None];
    assert!(rt; programs_of(TWO_PROGRAMS) == Some((SINGLE, 2, two)));
    assert!(rt; is_pat_written(rt.alloc()));
    assert!(rt; FIRST.to_bytes() == *b"\x00\x01\xf0\x00");
}

/// Returns whether the part of a PMT before its streams is read as it should be.
fn has_head(pmt: &Pmt<'_>) -> bool {
    [
        pmt.header == SINGLE,
        pmt.pcr_pid == 0x100,
        pmt.program_info.is_empty(),
        pmt.streams.byte_length() == 16,
    ] == [true; 4]
}

fn is_stream(stream: Option<Stream<'_>>, stream_type: u8, pid: u16, descriptors: &[u8]) -> bool {
    match stream {
        Some(stream) => {
            (stream.stream_type, stream.elementary_pid) == (stream_type, pid)
                && stream.descriptors == descriptors
        }
        None => false,
    }
}

/// Returns whether the streams are video without descriptors, then audio in English.
fn has_streams(mut streams: Streams<'_>) -> bool {
    [
        is_stream(streams.next(), 0x02, 0x100, b""),
        is_stream(streams.next(), 0x03, 0x101, b"\x0a\x04eng\x00"),
        streams.next().is_none(),
    ] == [true; 3]
}

fn is_the_pmt_read() -> bool {
    let Ok((section, _)) = Section::read(PMT) else {
        return false;
    };
    match Pmt::read(&section) {
        Ok(pmt) => has_head(&pmt) && has_streams(pmt.streams),
        Err(_) => false,
    }
}

/// Returns whether both writers of a PMT of one stream give its bytes.
fn is_pmt_written(alloc: Global) -> bool {
    let mut streams = StreamLoop::new();
    let audio = streams.push(&Stream {
        stream_type: 3,
        elementary_pid: 0x100,
        descriptors: &[],
    });
    let pmt = Pmt {
        header: SINGLE,
        pcr_pid: 0x101,
        program_info: &[],
        streams: streams.streams(),
    };
    let mut out = ArrayVec::new();
    let answers = [audio, pmt.write_to(&mut out)];
    answers == [Ok(()); 2] && are_written(&out, pmt.write(alloc), ONE_STREAM)
}

#[test]
fn pmts_are_read_and_written(rt: HostRuntime) {
    assert!(rt; is_the_pmt_read());
    assert!(rt; is_pmt_written(rt.alloc()));
}
