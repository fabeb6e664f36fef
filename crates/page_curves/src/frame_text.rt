//! The frame of a picture: its scales, and how they are drawn.
ghost use Rattle.std.specs.Prelude.{◌≡◌, ◌++◌, ◌<◌, ◌≤◌, ◌^◌, OnOk, flat_map, string_bytes};
ghost use Rattle.page_curves.specs.Frames as spec;

use crate::bounds::Bounds;
use crate::frame::{ChartUnit, Frame};
use crate::numbers::{write_grouped, write_tenths};
use crate::scale::{
    GREATEST_VALUE, LEFT, WIDTH, above_zero, below_zero, height_of, offset_height, quarter_of,
    scale_for, slots_in,
};
use crate::time_scale::{TimeUnit, step_for};
use std::alloc::AllocError;
use std::fmt::Write;

// What the scale of values is divided into: fifths.
const FIFTHS: [u64; 6] = [0, 1, 2, 3, 4, 5];

// What a scale of differences is divided into: quarters.
const QUARTERS: [u64; 5] = [0, 1, 2, 3, 4];

// The numbers of steps of the scale of times that have a line, if the scale is that long.
const STEP_COUNTS: [u64; 7] = [0, 1, 2, 3, 4, 5, 6];

// Appends a difference, with a sign if it is below 0.
#[tactic(auto, unfolding(crate::specs::Frames::offset_text))]
fn write_offset(text: &mut String, value: u64) -> Result<(), AllocError>
    ensures { OnOk result (string_bytes text.new ≡ string_bytes text.old ++ spec.offset_text value) }
{
    let below = below_zero(value);
    if below > 0 {
        text.push_str("&#8722;")?;
        write_grouped(text, below)
    } else {
        write_grouped(text, above_zero(value))
    }
}

/// Appends a value in the unit of a picture.
#[tactic(auto, unfolding(crate::specs::Frames::value_text))]
pub fn write_value(text: &mut String, unit: ChartUnit, value: u64) -> Result<(), AllocError>
    ensures { OnOk result (string_bytes text.new ≡ string_bytes text.old ++ spec.value_text unit value) }
{
    match unit {
        ChartUnit::BitRate => write_tenths(text, value, 1_000),
        ChartUnit::Bytes => write_grouped(text, value),
        ChartUnit::Time => write_tenths(text, value, 1_000),
        ChartUnit::Nanoseconds => write_grouped(text, value),
        ChartUnit::Offset => write_offset(text, value),
    }
}

/// Returns the name of the unit of a picture.
#[tactic(auto, unfolding(crate::specs::Frames::unit_name))]
pub fn unit_name(unit: ChartUnit) -> &'static str
    ensures { result.now ≡ spec.unit_name unit }
{
    match unit {
        ChartUnit::BitRate => "kbit/s",
        ChartUnit::Bytes => "bytes",
        ChartUnit::Time => "ms",
        ChartUnit::Nanoseconds | ChartUnit::Offset => "ns",
    }
}

#[tactic(auto, unfolding(crate::specs::Frames::level_line))]
fn write_level_line(text: &mut String, y: u64) -> Result<(), AllocError>
    ensures { OnOk result (string_bytes text.new ≡ string_bytes text.old ++ spec.level_line y) }
{
    write!(
        text,
        "<path class=\"grid\" d=\"M900 {y}H9500\"/><text class=\"end\" x=\"840\" y=\"{y}\" dy=\".35em\">"
    )
}

// Appends a line across the picture, with its value.
#[tactic(auto, unfolding(crate::specs::Frames::level_text))]
fn write_level(text: &mut String, unit: ChartUnit, value: u64, y: u64) -> Result<(), AllocError>
    ensures { OnOk result (string_bytes text.new ≡ string_bytes text.old ++ spec.level_text unit value y) }
{
    write_level_line(text, y)?;
    write_value(text, unit, value)?;
    text.push_str("</text>\n")
}

#[tactic(auto, unfolding(crate::specs::Frames::moment_line))]
fn write_moment_line(text: &mut String, x: u64) -> Result<(), AllocError>
    ensures { OnOk result (string_bytes text.new ≡ string_bytes text.old ++ spec.moment_line x) }
{
    write!(
        text,
        "<path class=\"grid\" d=\"M{x} 200V2240\"/><text class=\"mid\" x=\"{x}\" y=\"2400\">"
    )
}

// Appends a line down the picture, with its moment in a unit.
#[tactic(auto, unfolding(crate::specs::Frames::moment_text))]
fn write_moment(text: &mut String, x: u64, moment: u64, unit: TimeUnit) -> Result<(), AllocError>
    ensures { OnOk result (string_bytes text.new ≡ string_bytes text.old ++ spec.moment_text x moment unit) }
{
    let name = unit.name();
    let count = moment / unit.millis();
    write_moment_line(text, x)?;
    write!(text, "{count} {name}</text>\n")
}

// Appends a name above the scale of values.
#[tactic(auto, unfolding(crate::specs::Frames::name_above))]
fn write_name_above(text: &mut String, name: &str) -> Result<(), AllocError>
    ensures { OnOk result (string_bytes text.new ≡ string_bytes text.old ++ spec.name_above name.now) }
{
    write!(
        text,
        "<text class=\"end\" x=\"840\" y=\"30\">{name}</text>\n"
    )
}

// Returns the bounds of a slot; a window without a value has the value 0.
#[tactic(auto, unfolding(crate::specs::Frames::with_absent))]
fn with_absent(bounds: Option<Bounds>, windows: u64) -> Bounds
    ensures { result ≡ spec.with_absent bounds windows }
{
    match bounds {
        None => Bounds {
            count: 0,
            least: 0,
            greatest: 0,
        },
        Some(bounds) if bounds.count < windows => Bounds { least: 0, ..bounds },
        Some(bounds) => bounds,
    }
}

// Returns the least top of a scale: ten of the unit of its values.
#[tactic(auto, unfolding(crate::specs::Frames::least_top))]
fn least_top(unit: ChartUnit) -> u64
    ensures { result ≡ spec.least_top unit }
{
    match unit {
        ChartUnit::BitRate => 10_000,
        ChartUnit::Bytes => 10,
        ChartUnit::Time => 10_000,
        ChartUnit::Nanoseconds | ChartUnit::Offset => 10,
    }
}

impl Frame {
    /// Returns a frame for values up to `greatest`.
    pub fn new(unit: ChartUnit, windows: u64, millis: u32, greatest: u64) -> Frame
        ensures { result ≡ spec.frame unit windows millis greatest }
    {
        Frame {
            unit,
            windows,
            millis,
            top: scale_for(greatest.max(least_top(unit))),
        }
    }

    /// Returns the number of windows.
    pub fn window_count(&self) -> u64
        ensures same { result ≡ spec.window_count self.now }
        ensures bound { result ≤ 2 ^ 38 }
    {
        self.windows.min(1 << 38)
    }

    /// Returns the value at the top of the picture.
    pub fn top_value(&self) -> u64
        ensures same { result ≡ spec.top_value self.now }
        ensures bound { result ≤ 10 ^ 15 }
    {
        self.top.min(GREATEST_VALUE)
    }

    /// Returns the length of all windows in ms.
    pub fn length(&self) -> u64
        ensures same { result ≡ spec.length_of self.now }
        ensures bound { result ≤ 2 ^ 60 }
    {
        self.window_count() * u64::from(self.millis.min(1 << 22))
    }

    // Returns the number of windows of a slot.
    fn windows_in(&self, span: u64, slot: u64) -> u64
        ensures { result ≡ spec.windows_in self.now span slot }
    {
        self.window_count()
            .saturating_sub(span.saturating_mul(slot))
            .min(span)
    }

    /// Returns the bounds that are drawn for a slot.
    #[tactic(auto, unfolding(crate::specs::Frames::shown_of))]
    pub fn shown(&self, span: u64, slot: u64, bounds: Option<Bounds>) -> Option<Bounds>
        ensures { result ≡ spec.shown self.now span slot bounds }
    {
        match self.unit {
            ChartUnit::BitRate => Some(with_absent(bounds, self.windows_in(span, slot))),
            ChartUnit::Bytes => bounds,
            ChartUnit::Time => bounds,
            ChartUnit::Nanoseconds | ChartUnit::Offset => bounds,
        }
    }

    /// Returns the number of slots of `span` windows.
    pub fn slots_of(&self, span: u64) -> u64
        requires { 0 < span }
        ensures same { result ≡ spec.slots_of self.now span }
        ensures some { 0 < result }
        ensures bound { result ≤ 2 ^ 39 }
    {
        slots_in(self.window_count(), span)
    }

    /// Returns how high a value lies.
    #[tactic(auto, unfolding(crate::specs::Frames::height_by))]
    pub fn height(&self, value: u64) -> u64
        ensures { result ≡ spec.height self.now value }
    {
        match self.unit {
            ChartUnit::Offset => offset_height(self.top_value(), value),
            _ => height_of(self.top_value(), value),
        }
    }

    // Appends the line at a number of quarters of the scale of differences.
    fn write_quarter(&self, text: &mut String, quarter: u64) -> Result<(), AllocError>
        ensures { OnOk result (string_bytes text.new ≡ string_bytes text.old ++ spec.quarter_text self.now quarter) }
    {
        let top = self.top_value();
        let value = quarter_of(top, quarter);
        write_level(text, self.unit, value, offset_height(top, value))
    }

    // Appends the lines at some quarters of the scale.
    fn write_quarters(&self, text: &mut String, quarters: &[u64]) -> Result<(), AllocError>
        ensures { OnOk result (string_bytes text.new
            ≡ string_bytes text.old ++ flat_map (spec.quarter_text self.now) quarters.now) }
    {
        for quarter in quarters {
            self.write_quarter(text, *quarter)?;
        }
        Ok(())
    }

    // Appends the scale of values.
    #[tactic(auto, unfolding(crate::specs::Frames::levels_by))]
    fn write_levels(&self, text: &mut String) -> Result<(), AllocError>
        ensures { OnOk result (string_bytes text.new ≡ string_bytes text.old ++ spec.levels_by self.now self.now.unit) }
    {
        match self.unit {
            ChartUnit::Offset => self.write_quarters(text, &QUARTERS),
            _ => self.write_fifths(text, &FIFTHS),
        }
    }

    // Appends the line at a number of fifths of the scale of values.
    fn write_fifth(&self, text: &mut String, fifth: u64) -> Result<(), AllocError>
        ensures { OnOk result (string_bytes text.new ≡ string_bytes text.old ++ spec.fifth_text self.now fifth) }
    {
        let fifth = fifth.min(5);
        let top = self.top_value();
        let value = top * fifth / 5;
        write_level(text, self.unit, value, height_of(top, value))
    }

    // Appends the lines at some fifths of the scale.
    fn write_fifths(&self, text: &mut String, fifths: &[u64]) -> Result<(), AllocError>
        ensures { OnOk result (string_bytes text.new
            ≡ string_bytes text.old ++ flat_map (spec.fifth_text self.now) fifths.now) }
    {
        for fifth in fifths {
            self.write_fifth(text, *fifth)?;
        }
        Ok(())
    }

    // Appends the line after a number of steps of the scale of times, if the scale is that long.
    fn write_step(&self, text: &mut String, count: u64) -> Result<(), AllocError>
        ensures { OnOk result (string_bytes text.new ≡ string_bytes text.old ++ spec.step_text self.now count) }
    {
        let length = self.length();
        let step = step_for(length);
        let moment = step * count.min(6);
        if moment > length {
            return Ok(());
        }
        let x = LEFT + WIDTH * moment / length.max(1);
        write_moment(text, x, moment, TimeUnit::of_step(step))
    }

    // Appends the lines after some steps of the scale.
    fn write_steps(&self, text: &mut String, counts: &[u64]) -> Result<(), AllocError>
        ensures { OnOk result (string_bytes text.new
            ≡ string_bytes text.old ++ flat_map (spec.step_text self.now) counts.now) }
    {
        for count in counts {
            self.write_step(text, *count)?;
        }
        Ok(())
    }

    /// Appends both scales.
    #[tactic(auto, unfolding(crate::specs::Frames::scales_text))]
    pub fn write_scales(&self, text: &mut String) -> Result<(), AllocError>
        ensures { OnOk result (string_bytes text.new ≡ string_bytes text.old ++ spec.scales_text self.now) }
    {
        self.write_levels(text)?;
        self.write_steps(text, &STEP_COUNTS)?;
        write_name_above(text, unit_name(self.unit))
    }
}
