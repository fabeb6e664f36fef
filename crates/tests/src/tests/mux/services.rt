//! Services of one plan or two, and units of their stream.

use super::texts::{DESCRIPTION, PLAN, TURNED_PLAN};
use super::{checked, edited, followed};
use mux_core::{Marks, Unit};
use plan_checker::CheckedPlan;
use std::alloc::{Allocator, Global};
use switch_checker::CheckedSwitch;

/// The small service by its plan: a part of its description and what replaces it, and a plan that may follow.
#[derive(Clone, Copy)]
pub struct Service {
    part: &'static str,
    other: &'static str,
    second: &'static str,
}

pub const SMALL: Service = Service {
    part: "rate",
    other: "rate",
    second: PLAN,
};

/// Its lead is long enough for the plan turned by a slot.
pub const PATIENT: Service = Service {
    part: "lead = 1600",
    other: "lead = 1688",
    second: TURNED_PLAN,
};

/// Any two units in a row have at most six packets.
pub const GROUPED: Service = Service {
    part: "lead = 1600",
    other: "lead = 1600\ngroup = 2\ngroup_packets = 6",
    second: PLAN,
};

/// The greatest group: its units take the most memory.
pub const WIDE: Service = Service {
    part: "lead = 1600",
    other: "lead = 1600\ngroup = 64\ngroup_packets = 256",
    second: PLAN,
};

/// The clock begins 92 units of 90 kHz before the end of its base.
pub const LATE_CLOCK: Service = Service {
    part: "ts_id = 1",
    other: "base0 = 8589934500\nts_id = 1",
    second: PLAN,
};

impl Service {
    /// Returns the plan for the description.
    pub fn checked<A: Allocator + Clone>(
        &self,
        global: Global,
        alloc: A,
    ) -> Option<CheckedPlan<A>> {
        let text = edited(global, DESCRIPTION, self.part, self.other)?;
        checked(global, alloc, text.as_str(), PLAN)
    }

    /// Returns the plan, and then the second.
    pub fn switched<A: Allocator + Copy>(
        &self,
        global: Global,
        alloc: A,
    ) -> Option<CheckedSwitch<A>> {
        let first = self.checked(global, alloc)?;
        followed(alloc, first, self.second)
    }
}

/// Units of a stream, each presented at its DTS: two sizes in turn, the first DTS, how far apart they are, how many
/// there are, and the bytes of the first; each next unit has one more.
#[derive(Clone, Copy)]
pub struct Series {
    pub stream: u8,
    pub sizes: (u16, u16),
    pub first: u64,
    pub interval: u64,
    pub count: u16,
    pub byte: u8,
}

impl Series {
    pub fn size(&self, number: u16) -> u16 {
        let (one, other) = self.sizes;
        if number % 2 == 0 { one } else { other }
    }

    pub fn dts(&self, number: u16) -> u64 {
        self.first
            .saturating_add((number as u64).saturating_mul(self.interval))
    }

    pub fn byte(&self, number: u16) -> u8 {
        self.byte.wrapping_add((number % 256) as u8)
    }

    fn unit<A: Allocator>(&self, alloc: A, number: u16) -> Option<Unit<A>> {
        let (size, dts) = (self.size(number) as usize, self.dts(number));
        unit(alloc, size, dts, dts, self.byte(number))
    }

    // Appends all its units.
    fn append_to<A: Allocator + Copy>(
        &self,
        alloc: A,
        units: &mut Vec<(u8, Unit<A>), A>,
    ) -> Option<()> {
        for number in 0..self.count {
            let unit = self.unit(alloc, number)?;
            if units.push((self.stream, unit)).is_err() {
                return None;
            }
        }
        Some(())
    }
}

/// Returns a unit of `size` equal bytes.
pub fn unit<A: Allocator>(alloc: A, size: usize, dts: u64, pts: u64, byte: u8) -> Option<Unit<A>> {
    let bytes = vec![in alloc; byte; size].ok()?;
    let marks = Marks::NONE;
    Some(Unit {
        dts,
        pts,
        marks,
        bytes,
    })
}

/// Returns all units of these series.
pub fn units<A: Allocator + Copy>(alloc: A, all: &[Series]) -> Option<Vec<(u8, Unit<A>), A>> {
    let mut units = Vec::new(alloc);
    for series in all {
        series.append_to(alloc, &mut units)?;
    }
    Some(units)
}

/// A unit of stream 0, of 576 bytes A5.
pub const ONE: Series = Series {
    stream: 0,
    sizes: (576, 576),
    first: 1_600,
    interval: 2_160,
    count: 1,
    byte: 0xa5,
};
