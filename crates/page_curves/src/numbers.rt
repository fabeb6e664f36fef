//! Numbers as text of a page.
ghost use Rattle.std.specs.Prelude.{◌≡◌, ◌++◌, ◌<◌, ◌≤◌, ◌^◌, OnOk, flat_map, string_bytes};
ghost use Rattle.page_curves.specs.Numbers as spec;

use std::alloc::AllocError;
use std::fmt::Write;

// What the groups of three digits of a number count.
const THOUSANDS: [u64; 7] = [
    1_000_000_000_000_000_000,
    1_000_000_000_000_000,
    1_000_000_000_000,
    1_000_000_000,
    1_000_000,
    1_000,
    1,
];

// Appends three digits after a narrow space.
#[tactic(auto, unfolding(crate::specs::Numbers::three_digits))]
fn write_three(text: &mut String, count: u64) -> Result<(), AllocError>
    ensures { OnOk result (string_bytes text.new ≡ string_bytes text.old ++ spec.three_digits count) }
{
    let (hundreds, tens, ones) = (count / 100, count / 10 % 10, count % 10);
    write!(text, "&#8239;{hundreds}{tens}{ones}")
}

// Appends a group of three digits, by its unit: the first group without a space and zeros, and no group before it.
fn write_group(text: &mut String, value: u64, unit: u64) -> Result<(), AllocError>
    ensures { OnOk result (string_bytes text.new ≡ string_bytes text.old ++ spec.group value unit) }
{
    let count = value / unit.max(1);
    if value < unit {
        Ok(())
    } else if count < 1_000 {
        write!(text, "{count}")
    } else {
        write_three(text, count % 1_000)
    }
}

fn write_groups(text: &mut String, value: u64, units: &[u64]) -> Result<(), AllocError>
    ensures { OnOk result (string_bytes text.new
        ≡ string_bytes text.old ++ flat_map (spec.group value) units.now) }
{
    for unit in units {
        write_group(text, value, *unit)?;
    }
    Ok(())
}

/// Appends a number; from 10,000 on in groups of three digits.
#[tactic(auto, unfolding(crate::specs::Numbers::grouped))]
pub fn write_grouped(text: &mut String, value: u64) -> Result<(), AllocError>
    ensures { OnOk result (string_bytes text.new ≡ string_bytes text.old ++ spec.grouped value) }
{
    if value < 10_000 {
        write!(text, "{value}")
    } else {
        write_groups(text, value, &THOUSANDS)
    }
}

/// Appends a number in units that are `unit` times as great, with one decimal place, rounded down.
#[tactic(auto, unfolding(crate::specs::Numbers::tenths))]
pub fn write_tenths(text: &mut String, value: u64, unit: u64) -> Result<(), AllocError>
    requires some { 0 < unit }
    requires bound { unit ≤ 2 ^ 32 }
    ensures { OnOk result (string_bytes text.new ≡ string_bytes text.old ++ spec.tenths value unit) }
{
    let tenths = value % unit * 10 / unit;
    write_grouped(text, value / unit)?;
    write!(text, ".{tenths}")
}
