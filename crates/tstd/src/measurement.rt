//! Measuring finished bytes.
ghost use Rattle.std.specs.Prelude.{◌≡◌, IfOk};
ghost use Rattle.tstd.specs.Measured.{StreamsMeasured, SystemsMeasured, late_unit};
ghost use Rattle.tstd.specs.Refusals.{Answers, cause};

use crate::all_streams::{all_carried, measure_streams, measure_systems};
use crate::declared::are_declared;
use crate::fullness::Fullness;
use crate::refusal::MeasureError;
use crate::unreadable::first_unreadable;
use description::Description;
use pes_packet::Unit;
use std::alloc::Allocator;

/// Measures the finished bytes of a transport stream, from its first packet on, with the units that it carries, each
/// with the number of its stream: the greatest number of bytes that each buffer of the decoder model holds over all
/// moments, and the first unit that is due in the run and has not left its transport buffer whole by its decoding time,
/// or, of a stream with a multiplexing buffer, is not whole in its elementary stream buffer by then (ISO/IEC 13818-1,
/// 2.4.2.3). Stamps count units of 90 kHz from the first byte, and may be in any order. Packets with
/// the error indicator are left out.
pub fn measure<A: Allocator + Clone, B: Allocator>(
    alloc: A,
    description: &Description,
    units: &[(u8, Unit<B>)],
    bytes: &[u8],
) -> Result<Fullness<A>, MeasureError>
    // Which refusal is given, and when none.
    ensures refused { Answers result (cause description.now units.now bytes.now) }

    // How full the buffers of each stream become.
    ensures streams { IfOk result (λ found. StreamsMeasured description.now units.now bytes.now found.streams) }

    // How full the two buffers of each program's tables become.
    ensures programs { IfOk result (λ found. SystemsMeasured description.now bytes.now found.programs) }

    // Which unit is the first late one.
    ensures late { IfOk result (λ found. found.late ≡ late_unit description.now units.now bytes.now) }
{
    if bytes.len() % 188 != 0 {
        return Err(MeasureError::Length);
    }
    let (packets, _) = bytes.as_chunks::<188>();
    if let Some(refusal) = first_unreadable(packets) {
        return Err(refusal);
    }
    if !are_declared(description.streams(), units) {
        return Err(MeasureError::Carried);
    }
    if !all_carried(description, units, bytes) {
        return Err(MeasureError::Carried);
    }
    let Ok((streams, late)) = measure_streams(&alloc, description, units, bytes) else {
        return Err(MeasureError::Memory);
    };
    let Ok(programs) = measure_systems(&alloc, description, bytes) else {
        return Err(MeasureError::Memory);
    };
    Ok(Fullness {
        streams,
        programs,
        late,
    })
}
