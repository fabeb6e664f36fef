//! The streams and the programs of a description, one after another.
ghost use Rattle.std.specs.Prelude.{◌≡◌, ◌<◌, true, None, IfOk};
ghost use Rattle.std.specs.Option.{option_or};
ghost use Rattle.std.specs.List.{list_all};
ghost use Rattle.tstd.specs.Measured.{StreamsMeasured, SystemsMeasured, late_or, late_unit};
ghost use Rattle.tstd.specs.Refusals.{all_carried, is_declared};

use crate::carried::carries;
use crate::fullness::{LateUnit, StreamFullness, SystemFullness};
use crate::streams::measure_stream;
use crate::tables::measure_tables;
use description::Description;
use pes_packet::Unit;
use std::alloc::{AllocError, Allocator};

/// Returns whether each stream carries a beginning of its units.
pub fn all_carried<B: Allocator>(
    description: &Description,
    units: &[(u8, Unit<B>)],
    bytes: &[u8],
) -> bool
    requires { list_all (is_declared description.now) units.now ≡ true }
    ensures { result ≡ all_carried description.now units.now bytes.now 0 description.now.streams }
{
    let (packets, _) = bytes.as_chunks::<188>();
    for (number, stream) in description.streams().iter().enumerate() {
        if !carries(
            stream.pid,
            stream.stream_id,
            description.base0(),
            number as u8,
            units,
            packets,
        ) {
            return false;
        }
    }
    true
}

// Returns the first late unit: `late`, or otherwise unit `number` of this stream, if any.
fn first_of(late: Option<LateUnit>, stream: u8, number: Option<u64>) -> Option<LateUnit>
    ensures { result ≡ option_or late (late_or stream number None) }
{
    match late {
        Some(first) => Some(first),
        None => match number {
            None => None,
            Some(number) => Some(LateUnit { stream, number }),
        },
    }
}

/// Returns the buffers of each stream, and the first late unit.
pub fn measure_streams<A: Allocator + Clone, B: Allocator>(
    alloc: &A,
    description: &Description,
    units: &[(u8, Unit<B>)],
    bytes: &[u8],
) -> Result<(Vec<StreamFullness, A>, Option<LateUnit>), AllocError>
    requires { all_carried description.now units.now bytes.now 0 description.now.streams ≡ true }
    ensures streams { IfOk result (λ found. StreamsMeasured description.now units.now bytes.now found.0.items) }
    ensures late { IfOk result (λ found. found.1 ≡ late_unit description.now units.now bytes.now) }
{
    let (packets, _) = bytes.as_chunks::<188>();
    let rate = description.rate().bits_per_second();
    let mut streams = Vec::new(alloc.clone()?);
    let mut late = None;
    for (number, stream) in description.streams().iter().enumerate() {
        let (fullness, first) = measure_stream(
            alloc,
            rate,
            description.base0(),
            number as u8,
            stream,
            units,
            packets,
        )?;
        streams.push(fullness)?;
        late = first_of(late, number as u8, first);
    }
    Ok((streams, late))
}

/// Returns the buffers of each program's tables.
pub fn measure_systems<A: Allocator + Clone>(
    alloc: &A,
    description: &Description,
    bytes: &[u8],
) -> Result<Vec<SystemFullness, A>, AllocError>
    ensures { IfOk result (λ found. SystemsMeasured description.now bytes.now found.items) }
{
    let (packets, _) = bytes.as_chunks::<188>();
    let rate = description.rate().bits_per_second();
    let mut programs = Vec::new(alloc.clone()?);
    for program in description.programs() {
        programs.push(measure_tables(rate, program.pmt_pid(), packets))?;
    }
    Ok(programs)
}
