//! The head of a page: what was read, the length and rate of the stream, and the verdict.
ghost use Rattle.std.specs.Prelude.{◌≡◌, ◌++◌, OnOk, string_bytes};
ghost use Rattle.view_page.specs.SummaryText as spec;

use crate::page::Page;
use event_lines::write_seconds;
use events::ReportEnd;
use page_curves::{greatest_value, write_grouped};
use std::alloc::AllocError;
use std::fmt::Write;
use view_rows::short;

/// The bits of a packet, times the ticks of a second.
const PACKET_BITS: u128 = 1_504 * 27_000_000;

// What was read.
#[tactic(auto, unfolding(crate::specs::SummaryText::counts))]
fn write_counts(text: &mut String, end: ReportEnd) -> Result<(), AllocError>
    ensures { OnOk result (string_bytes text.new ≡ string_bytes text.old ++ spec.counts end) }
{
    text.push_str("<p>")?;
    write_grouped(text, end.packets)?;
    text.push_str(" packets, ")?;
    write_grouped(text, end.refused)?;
    text.push_str(" refused, ")?;
    write_grouped(text, end.left)?;
    text.push_str(" bytes after the last.</p>\n")
}

// The bit rate of packets that arrive in a number of ticks, rounded down.
fn mean_rate(packets: u64, ticks: u128) -> u64
    ensures { result ≡ spec.mean_rate packets ticks }
{
    short(u128::from(packets) * PACKET_BITS / ticks.max(1))
}

// A given rate.
#[tactic(auto, unfolding(crate::specs::SummaryText::given))]
fn write_given(text: &mut String, rate: u64) -> Result<(), AllocError>
    ensures { OnOk result (string_bytes text.new ≡ string_bytes text.old ++ spec.given rate) }
{
    text.push_str(" s, at the given rate of ")?;
    write_grouped(text, rate)?;
    text.push_str(" bit/s.</p>\n")
}

// By what clock moments go, if no rate is given.
#[tactic(auto, unfolding(crate::specs::SummaryText::clock_name))]
fn clock_name(stamps: bool) -> &'static str
    ensures { result.now ≡ spec.clock_name stamps }
{
    if stamps {
        " s by the arrival time stamps. Bit rate: "
    } else {
        " s by the clock references. Bit rate: "
    }
}

// The mean rate of a stream.
#[tactic(auto, unfolding(crate::specs::SummaryText::mean_text))]
fn write_mean(text: &mut String, mean: u64) -> Result<(), AllocError>
    ensures { OnOk result (string_bytes text.new ≡ string_bytes text.old ++ spec.mean_text mean) }
{
    write_grouped(text, mean)?;
    text.push_str(" bit/s on average, at most ")
}

// The greatest rate of a window.
#[tactic(auto, unfolding(crate::specs::SummaryText::most_text))]
fn write_most(text: &mut String, most: u64) -> Result<(), AllocError>
    ensures { OnOk result (string_bytes text.new ≡ string_bytes text.old ++ spec.most_text most) }
{
    write_grouped(text, most)?;
    text.push_str(" bit/s in a window.</p>\n")
}

// Both rates of a stream: its mean rate, and the greatest of a window.
#[tactic(auto, unfolding(crate::specs::SummaryText::both_rates))]
fn write_both(text: &mut String, mean: u64, most: u64) -> Result<(), AllocError>
    ensures { OnOk result (string_bytes text.new ≡ string_bytes text.old ++ spec.both_rates mean most) }
{
    write_mean(text, mean)?;
    write_most(text, most)
}

// The measured rates, after the clock that they go by.
#[tactic(auto, unfolding(crate::specs::SummaryText::measured))]
fn write_measured(text: &mut String, page: &Page, ticks: u128) -> Result<(), AllocError>
    ensures { OnOk result (string_bytes text.new ≡ string_bytes text.old ++ spec.measured page.now ticks) }
{
    let most = greatest_value(&page.services.curves.sums.curves);
    text.push_str(clock_name(page.stamps))?;
    write_both(text, mean_rate(page.end.packets, ticks), most)
}

// The rate of a stream.
#[tactic(auto, unfolding(crate::specs::SummaryText::rate_text))]
fn write_rate(text: &mut String, page: &Page, ticks: u128) -> Result<(), AllocError>
    ensures { OnOk result (string_bytes text.new
        ≡ string_bytes text.old ++ spec.rate_text page.now page.now.rate ticks) }
{
    match page.rate {
        None => write_measured(text, page, ticks),
        Some(rate) => write_given(text, rate),
    }
}

// How long a stream is that has moments.
#[tactic(auto, unfolding(crate::specs::SummaryText::length_head))]
fn write_seconds_of(text: &mut String, ticks: u128) -> Result<(), AllocError>
    ensures { OnOk result (string_bytes text.new ≡ string_bytes text.old ++ spec.length_head ticks) }
{
    text.push_str("<p>Length: ")?;
    write_seconds(text, ticks)
}

// How long a stream is that has moments, and its rate.
#[tactic(auto, unfolding(crate::specs::SummaryText::known_length))]
fn write_known(text: &mut String, page: &Page, ticks: u128) -> Result<(), AllocError>
    ensures { OnOk result (string_bytes text.new ≡ string_bytes text.old ++ spec.known_length page.now ticks) }
{
    write_seconds_of(text, ticks)?;
    write_rate(text, page, ticks)
}

// How long a stream is, and its rate, if packets have moments.
#[tactic(auto, unfolding(crate::specs::SummaryText::length_text))]
fn write_length(text: &mut String, page: &Page) -> Result<(), AllocError>
    ensures { OnOk result (string_bytes text.new
        ≡ string_bytes text.old ++ spec.length_text page.now page.now.end.length) }
{
    match page.end.length {
        None => text.push_str("<p>Length: not known; no packet has a moment.</p>\n"),
        Some(ticks) => write_known(text, page, ticks),
    }
}

// How many windows there are.
#[tactic(auto, unfolding(crate::specs::SummaryText::window_count))]
fn write_windows(text: &mut String, windows: u64) -> Result<(), AllocError>
    ensures { OnOk result (string_bytes text.new ≡ string_bytes text.old ++ spec.window_count windows) }
{
    text.push_str("<p>Windows: ")?;
    write_grouped(text, windows)
}

// How long a window is, and how many streams are viewed.
#[tactic(auto, unfolding(crate::specs::SummaryText::stream_count))]
fn write_stream_count(text: &mut String, millis: u32, streams: usize) -> Result<(), AllocError>
    ensures { OnOk result (string_bytes text.new ≡ string_bytes text.old ++ spec.stream_count millis streams) }
{
    write!(
        text,
        " of {millis} ms. Streams with buffers: {streams}.</p>\n"
    )
}

// How many windows there are, and how many streams are viewed.
#[tactic(auto, unfolding(crate::specs::SummaryText::extent))]
fn write_extent(
    text: &mut String,
    windows: u64,
    millis: u32,
    streams: usize,
) -> Result<(), AllocError>
    ensures { OnOk result (string_bytes text.new ≡ string_bytes text.old ++ spec.extent windows millis streams) }
{
    write_windows(text, windows)?;
    write_stream_count(text, millis, streams)
}

/// Appends what was read, the length and rate of the stream, and the verdict.
#[tactic(auto, unfolding(crate::specs::SummaryText::summary))]
pub(crate) fn write_summary(text: &mut String, page: &Page) -> Result<(), AllocError>
    ensures { OnOk result (string_bytes text.new ≡ string_bytes text.old ++ spec.summary page.now) }
{
    write_counts(text, page.end)?;
    write_length(text, page)?;
    write_extent(
        text,
        page.values.windows,
        page.millis,
        page.rows.streams.len(),
    )?;
    text.push_str(page.rows.verdict.as_str())
}
