//! Finished bytes of the small service measured in the decoder model: worked runs, and each refusal.

use super::services::{ONE, Series, units};
use super::texts::DESCRIPTION;
use super::{changed, described, push_parts};
use counted_io::Counted;
use linked_list_allocator::LocalHeap;
use mux_core::carry;
use std::alloc::{Allocator, Global};
use ts_packet::PacketError;
use tstd::{Fullness, LateUnit, MeasureError, measure};

/// Units that are sent, four packets in the first, fifth, ninth and thirteenth of 24 slots, or of 16; how many slots
/// there are; the units that are declared to `measure`; a byte that is written over; and how many bytes are left at the
/// end.
#[derive(Clone, Copy)]
struct Run {
    sent: Series,
    width: Width,
    slots: u32,
    declared: &'static [Series],
    change: (usize, u8),
    cut: usize,
}

#[derive(Clone, Copy)]
enum Width {
    Wide,
    Narrow,
}

/// Stream, size, DTS and PTS of a unit.
type Record = (u8, u32, u64, u64);

/// Appends the record of a unit of equal bytes.
fn push_record(bytes: &mut Vec<u8>, record: Record, byte: u8) -> bool {
    let (stream, size, dts, pts) = record;
    let stamps = [dts.to_be_bytes(), pts.to_be_bytes()];
    if !push_parts(
        bytes,
        &[&[stream], &size.to_be_bytes(), &stamps[0], &stamps[1]],
    ) {
        return false;
    }
    let length = bytes.len().saturating_add(size as usize);
    bytes.resize(length, byte).is_ok()
}

/// Appends the records of the units.
fn push_records(records: &mut Vec<u8>, series: &Series) -> bool {
    for number in 0..series.count {
        let (size, dts) = (series.size(number) as u32, series.dts(number));
        if !push_record(records, (0, size, dts, dts), series.byte(number)) {
            return false;
        }
    }
    true
}

fn records(alloc: Global, series: &Series) -> Option<Vec<u8>> {
    let mut records = Vec::new(alloc);
    if push_records(&mut records, series) {
        Some(records)
    } else {
        None
    }
}

/// Returns what other slots of the small plan carry, before and after bytes FF: clock references, PAT and PMT in part,
/// nothing.
fn table(slot: u32) -> (&'static [u8], &'static [u8]) {
    match slot % 120 {
        1 | 25 | 49 | 73 | 97 => (
            &[
                0x47, 0x01, 0x01, 0x2f, 0xb7, 0x10, 0x00, 0x00, 0x00, 0x2f, 0x7e, 0xec,
            ],
            &[],
        ),
        2 => (
            &[0x47, 0x40, 0x00, 0x30, 0xb3, 0x00],
            &[0x00, 0x00, 0xb0, 0x0d],
        ),
        3 => (
            &[0x47, 0x50, 0x00, 0x30, 0xb3, 0x00],
            &[0x00, 0x02, 0xb0, 0x12],
        ),
        _ => (&[0x47, 0x1f, 0xff, 0x10], &[]),
    }
}

/// Returns the units' packet in a slot.
fn packet(packets: &[[u8; 188]], width: Width, slot: u32) -> Option<&[u8; 188]> {
    let width = match width {
        Width::Wide => 24,
        Width::Narrow => 16,
    };
    let (round, place) = (slot / width, slot % width);
    if place % 4 == 0 && place < 16 {
        packets.get((round * 4 + place / 4) as usize)
    } else {
        None
    }
}

const FILLING: [u8; 188] = [0xff; 188];

/// Appends the packet of a slot.
fn push_slot(bytes: &mut Vec<u8>, packets: &[[u8; 188]], width: Width, slot: u32) -> bool {
    match packet(packets, width, slot) {
        Some(packet) => bytes.extend_from_slice(packet).is_ok(),
        None => {
            let (head, tail) = table(slot);
            let filling = FILLING.get(head.len() + tail.len()..).unwrap_or(&[]);
            push_parts(bytes, &[head, filling, tail])
        }
    }
}

/// Appends the packets of all slots.
fn push_run(bytes: &mut Vec<u8>, packets: &[[u8; 188]], run: &Run) -> bool {
    for slot in 0..run.slots {
        if !push_slot(bytes, packets, run.width, slot) {
            return false;
        }
    }
    true
}

/// Returns the packets of these records.
fn carried(alloc: Global, records: &[u8]) -> Vec<u8> {
    let mut output = Counted::new(Vec::new(alloc));
    let _ = carry(
        alloc,
        256,
        192,
        false,
        &mut Counted::new(records),
        &mut output,
    );
    output.into_inner()
}

/// Returns the bytes of the run, before any is written over.
fn sent(alloc: Global, run: &Run) -> Option<Vec<u8>> {
    let records = records(alloc, &run.sent)?;
    let units = carried(alloc, &records);
    let (packets, _) = units.as_slice().as_chunks::<188>();
    let mut bytes = Vec::new(alloc);
    if push_run(&mut bytes, packets, run) {
        Some(bytes)
    } else {
        None
    }
}

/// The greatest fullness of the buffers, and the first late unit.
type Numbers = (Sizes, Option<LateUnit>);

/// The fullness of the transport and the main buffer of a stream, and of the transport and the system buffer of a
/// program.
type Sizes = (u64, u64, u64, u64);

fn numbers<A: Allocator>(found: &Fullness<A>) -> Option<Numbers> {
    match (found.streams.as_slice(), found.programs.as_slice()) {
        ([stream], [program]) => Some((
            (
                stream.transport,
                stream.main,
                program.transport,
                program.system,
            ),
            found.late,
        )),
        _ => None,
    }
}

/// Returns the fullness that is measured in bytes that carry these units.
fn answer<A: Allocator + Clone>(
    global: Global,
    alloc: A,
    declared: &[Series],
    bytes: &[u8],
) -> Option<Result<Numbers, MeasureError>> {
    let units = units(global, declared)?;
    match described(global, DESCRIPTION) {
        Some(description) => {
            let found = measure(alloc, &description, &units, bytes);
            drop(description);
            drop(units);
            outcome(found)
        }
        None => {
            drop(units);
            None
        }
    }
}

fn outcome<A: Allocator>(
    found: Result<Fullness<A>, MeasureError>,
) -> Option<Result<Numbers, MeasureError>> {
    match found {
        Ok(found) => {
            let numbers = numbers(&found);
            drop(found);
            Some(Ok(numbers?))
        }
        Err(error) => Some(Err(error)),
    }
}

fn measured<A: Allocator + Clone>(
    global: Global,
    alloc: A,
    run: &Run,
) -> Option<Result<Numbers, MeasureError>> {
    let (at, value) = run.change;
    let bytes = changed(global, &sent(global, run)?, at, value)?;
    let left = bytes.len().saturating_sub(run.cut);
    answer(
        global,
        alloc,
        run.declared,
        bytes.get(..left).unwrap_or(&[]),
    )
}

/// One unit in 18 slots.
const SHORT: Run = Run {
    sent: ONE,
    width: Width::Wide,
    slots: 18,
    declared: &[ONE],
    change: (0, 0x47),
    cut: 0,
};

/// Its last byte leaves 1,170 units of 90 kHz after the start, less than one unit of time before it.
const TIMELY: Series = Series {
    first: 1_170,
    ..ONE
};

const UNTIMELY: Series = Series {
    first: 1_169,
    ..ONE
};

const HUNDRED: Series = Series { count: 100, ..ONE };

/// 42 times a hundred.
const ALL: Series = Series {
    count: 4_200,
    ..ONE
};

/// Any two of them have four packets.
const GROUPED: Series = Series {
    sizes: (520, 150),
    interval: 720,
    count: 20,
    ..ONE
};

const OTHER: Series = Series { stream: 1, ..ONE };

const LONG: Series = Series {
    sizes: (577, 577),
    ..ONE
};

/// Runs, the fullness if known, and the first late unit or the refusal. A packet with the error indicator is left out.
static RUNS: [(Run, Option<Sizes>, Result<Option<LateUnit>, MeasureError>); 12] = [
    (SHORT, Some((1, 590, 127, 346)), Ok(None)),
    (
        Run {
            sent: TIMELY,
            declared: &[TIMELY],
            slots: 13,
            ..SHORT
        },
        None,
        Ok(None),
    ),
    (
        Run {
            sent: UNTIMELY,
            declared: &[UNTIMELY],
            slots: 13,
            ..SHORT
        },
        None,
        Ok(Some(LateUnit {
            stream: 0,
            number: 0,
        })),
    ),
    (
        Run {
            sent: HUNDRED,
            declared: &[HUNDRED],
            slots: 2_420,
            ..SHORT
        },
        Some((1, 590, 127, 346)),
        Ok(None),
    ),
    (
        Run {
            sent: ALL,
            declared: &[ALL],
            slots: 100_800,
            ..SHORT
        },
        Some((1, 590, 127, 346)),
        Ok(None),
    ),
    (
        Run {
            sent: GROUPED,
            declared: &[GROUPED],
            width: Width::Narrow,
            slots: 200,
            ..SHORT
        },
        Some((1, 882, 127, 346)),
        Ok(None),
    ),
    (
        Run {
            declared: &[],
            slots: 1,
            change: (1, 0xc1),
            ..SHORT
        },
        Some((0, 0, 0, 0)),
        Ok(None),
    ),
    (Run { cut: 1, ..SHORT }, None, Err(MeasureError::Length)),
    (
        Run {
            declared: &[],
            ..SHORT
        },
        None,
        Err(MeasureError::Carried),
    ),
    (
        Run {
            declared: &[OTHER],
            ..SHORT
        },
        None,
        Err(MeasureError::Carried),
    ),
    (
        Run {
            declared: &[LONG],
            ..SHORT
        },
        None,
        Err(MeasureError::Carried),
    ),
    (
        Run {
            declared: &[],
            change: (376, 0x46),
            ..SHORT
        },
        None,
        Err(MeasureError::Packet(2, PacketError::Sync)),
    ),
];

fn is_measured(
    alloc: Global,
    run: &Run,
    full: Option<Sizes>,
    wanted: Result<Option<LateUnit>, MeasureError>,
) -> Option<bool> {
    match measured(alloc, alloc, run)? {
        Ok((found, late)) => Some(Ok(late) == wanted && (full == None || full == Some(found))),
        Err(error) => Some(Err(error) == wanted),
    }
}

#[test]
fn runs_are_measured(rt: HostRuntime) {
    for (run, full, wanted) in &RUNS {
        assert!(rt; is_measured(rt.alloc(), run, *full, *wanted) == Some(true));
    }
}

/// Returns whether the run of one unit is measured in a heap of this size; None if the answer is neither that nor
/// Memory.
pub fn is_measured_in(global: Global, room: usize) -> Option<bool> {
    let heap = LocalHeap::new(global, room).ok()?;
    match measured(global, &heap, &SHORT)? {
        Ok(((1, 590, 127, 346), None)) => Some(true),
        Err(MeasureError::Memory) => Some(false),
        _ => None,
    }
}
