//! Units of a PID, by hand.

mod declaration;
mod moments;

use es_moments::{FoundUnit, LentBytes, WireUnit, written_id};
use pes_packet::Marks;
use std::alloc::{AllocError, Global};

// Returns a unit of these time stamps and this size, DTS first.
pub fn wire_unit(alloc: Global, dts: u64, pts: u64, size: usize) -> Result<WireUnit, AllocError> {
    let bytes = vec![in alloc; 0xa5u8; size]?;
    Ok(WireUnit {
        packet: 0,
        stream_id: 224,
        dts,
        pts,
        marks: Marks::NONE,
        bytes,
    })
}

// Returns units of these stamps and sizes.
pub fn wire(alloc: Global, stamps: &[(u64, u64, usize)]) -> Option<Vec<WireUnit>> {
    let mut units = Vec::new(alloc);
    for (dts, pts, size) in stamps {
        let unit = wire_unit(alloc, *dts, *pts, *size).ok()?;
        let Ok(()) = units.push(unit) else {
            return None;
        };
    }
    Some(units)
}

// Returns the units, borrowed: their bytes stay in place.
pub fn lent<'f>(alloc: Global, units: &'f [WireUnit]) -> Option<Vec<FoundUnit<'f>>> {
    let mut found = Vec::new(alloc);
    for unit in units {
        let bytes = LentBytes {
            body: unit.bytes.as_slice(),
            more: Vec::new(alloc),
        };
        let Ok(()) = found.push(WireUnit {
            packet: unit.packet,
            stream_id: unit.stream_id,
            dts: unit.dts,
            pts: unit.pts,
            marks: unit.marks,
            bytes,
        }) else {
            return None;
        };
    }
    Some(found)
}

fn are_written_ids() -> bool {
    written_id(253, true) == Some(189)
        && written_id(253, false).is_none()
        && written_id(224, true) == Some(224)
}

#[test]
fn written_ids(rt: HostRuntime) {
    assert!(rt; are_written_ids());
}
