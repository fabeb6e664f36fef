//! The text of a page.
ghost use Rattle.std.specs.Prelude.{◌≡◌, ◌++◌, OnOk, codes, flat_map, string_bytes};
ghost use Rattle.view_page.specs.PageText as spec;

use crate::fault_tables::write_fault_table;
use crate::page::Page;
use crate::page_heads::{
    apart_text, back_text, buffers_text, checks_text, clocks_text, drifts_text, faults_text,
    front_text, inaccuracies_text, intervals_text, links_text, mains_text, pids_text, rates_text,
    services_text, slacks_text, streams_text, strips_text, systems_text, tables_text,
    transports_text, tree_text,
};
use crate::summary_text::write_summary;
use crate::tree::write_tree;
use page_charts::{write_chart, write_stack, write_strips};
use page_curves::{ChartUnit, Frame, PidCurve, PidLabels, greatest_value};
use std::alloc::AllocError;
use std::fmt::Write;
use std::slice;
use view_rows::{Rows, StreamRow, kinds_text, marks_text, write_carried};

// A picture of curves in one frame.
#[tactic(auto, unfolding(crate::specs::PageText::one_chart))]
fn write_one(
    text: &mut String,
    page: &Page,
    name: &str,
    unit: ChartUnit,
    curves: &[PidCurve],
) -> Result<(), AllocError>
    ensures { OnOk result (string_bytes text.new
        ≡ string_bytes text.old ++ spec.one_chart page.now name.now unit curves.now) }
{
    let frame = Frame::new(
        unit,
        page.values.windows,
        page.millis,
        greatest_value(curves),
    );
    let order = &page.values.rates.curves;
    write_chart(text, name, &frame, &page.labels, order, curves)
}

// A picture of each curve.
fn write_each(
    text: &mut String,
    page: &Page,
    name: &str,
    curves: &[PidCurve],
) -> Result<(), AllocError>
    ensures { OnOk result (string_bytes text.new
        ≡ string_bytes text.old ++ flat_map (spec.buffer_chart page.now name.now) curves.now) }
{
    for entry in curves {
        write_one(text, page, name, ChartUnit::Bytes, slice::from_ref(entry))?;
    }
    Ok(())
}

// A picture of bit rates or of times, after its heading.
fn write_all_in_one(
    text: &mut String,
    head: &str,
    page: &Page,
    name: &str,
    unit: ChartUnit,
    curves: &[PidCurve],
) -> Result<(), AllocError>
    ensures { OnOk result (string_bytes text.new
        ≡ string_bytes text.old ++ (head.now ++ spec.one_chart page.now name.now unit curves.now)) }
{
    text.push_str(head)?;
    write_one(text, page, name, unit, curves)
}

// A picture of each buffer, after a heading.
fn write_buffers(
    text: &mut String,
    head: &str,
    page: &Page,
    name: &str,
    curves: &[PidCurve],
) -> Result<(), AllocError>
    ensures { OnOk result (string_bytes text.new
        ≡ string_bytes text.old ++ (head.now ++ flat_map (spec.buffer_chart page.now name.now) curves.now)) }
{
    text.push_str(head)?;
    write_each(text, page, name, curves)
}

// How full the buffers were, after a heading.
#[tactic(auto, unfolding(crate::specs::PageText::strips))]
fn write_strip_table(text: &mut String, page: &Page) -> Result<(), AllocError>
    ensures { OnOk result (string_bytes text.new ≡ string_bytes text.old ++ spec.strips page.now) }
{
    let frame = Frame::new(ChartUnit::Bytes, page.values.windows, page.millis, 0);
    text.push_str(strips_text())?;
    write_strips(
        text,
        &frame,
        &page.labels,
        &page.values.transports.curves,
        &page.values.mains.curves,
    )
}

// The bit rates.
#[tactic(auto, unfolding(crate::specs::PageText::rates))]
fn write_rates(text: &mut String, page: &Page) -> Result<(), AllocError>
    ensures { OnOk result (string_bytes text.new ≡ string_bytes text.old ++ spec.rates page.now) }
{
    let curves = &page.values.rates.curves;
    let name = "bit rate by PID over time";
    write_all_in_one(text, rates_text(), page, name, ChartUnit::BitRate, curves)
}

// The bit rates of programs.
#[tactic(auto, unfolding(crate::specs::PageText::services))]
fn write_services(text: &mut String, page: &Page) -> Result<(), AllocError>
    ensures { OnOk result (string_bytes text.new ≡ string_bytes text.old ++ spec.services page.now) }
{
    let rates = &page.services.curves.rates.curves;
    let sums = &page.services.curves.sums.curves;
    let unit = ChartUnit::BitRate;
    let frame = Frame::new(unit, page.values.windows, page.millis, greatest_value(sums));
    let name = "bit rate by service over time";
    text.push_str(services_text())?;
    write_stack(text, name, &frame, &page.labels, rates, sums)
}

// The transport buffers.
#[tactic(auto, unfolding(crate::specs::PageText::transports))]
fn write_transports(text: &mut String, page: &Page) -> Result<(), AllocError>
    ensures { OnOk result (string_bytes text.new ≡ string_bytes text.old ++ spec.transports page.now) }
{
    let curves = &page.values.transports.curves;
    let name = "bytes in a transport buffer over time";
    write_buffers(text, transports_text(), page, name, curves)
}

// The main buffers.
#[tactic(auto, unfolding(crate::specs::PageText::mains))]
fn write_mains(text: &mut String, page: &Page) -> Result<(), AllocError>
    ensures { OnOk result (string_bytes text.new ≡ string_bytes text.old ++ spec.mains page.now) }
{
    let curves = &page.values.mains.curves;
    let name = "bytes in a main buffer over time";
    write_buffers(text, mains_text(), page, name, curves)
}

// The times before decoding.
#[tactic(auto, unfolding(crate::specs::PageText::slacks))]
fn write_slacks(text: &mut String, page: &Page) -> Result<(), AllocError>
    ensures { OnOk result (string_bytes text.new ≡ string_bytes text.old ++ spec.slacks page.now) }
{
    let curves = &page.values.slacks.curves;
    let name = "time from a unit's last byte to its DTS over time";
    write_all_in_one(text, slacks_text(), page, name, ChartUnit::Time, curves)
}

// The intervals of clock references.
#[tactic(auto, unfolding(crate::specs::PageText::intervals))]
fn write_intervals(text: &mut String, page: &Page) -> Result<(), AllocError>
    ensures { OnOk result (string_bytes text.new ≡ string_bytes text.old ++ spec.intervals page.now) }
{
    let curves = &page.values.intervals.curves;
    let name = "time between clock references over time";
    write_all_in_one(text, intervals_text(), page, name, ChartUnit::Time, curves)
}

// The inaccuracy of clock references.
#[tactic(auto, unfolding(crate::specs::PageText::inaccuracies))]
fn write_inaccuracies(text: &mut String, page: &Page) -> Result<(), AllocError>
    ensures { OnOk result (string_bytes text.new ≡ string_bytes text.old ++ spec.inaccuracies page.now) }
{
    let curves = &page.values.inaccuracies.curves;
    let name = "inaccuracy of clock references over time";
    let unit = ChartUnit::Nanoseconds;
    write_all_in_one(text, inaccuracies_text(), page, name, unit, curves)
}

// A picture of the drift of program clocks.
#[tactic(auto, unfolding(crate::specs::PageText::drift_chart))]
fn write_drift_chart(
    text: &mut String,
    page: &Page,
    name: &str,
    curves: &[PidCurve],
) -> Result<(), AllocError>
    ensures { OnOk result (string_bytes text.new
        ≡ string_bytes text.old ++ spec.drift_chart page.now name.now curves.now) }
{
    let frame = Frame::new(
        ChartUnit::Offset,
        page.values.windows,
        page.millis,
        page.values.greatest_drift,
    );
    let order = &page.values.rates.curves;
    write_chart(text, name, &frame, &page.labels, order, curves)
}

// The picture of the drift of program clocks, after a heading.
#[tactic(auto, unfolding(crate::specs::PageText::drifts))]
fn write_drifts(text: &mut String, page: &Page) -> Result<(), AllocError>
    ensures { OnOk result (string_bytes text.new ≡ string_bytes text.old ++ spec.drifts page.now) }
{
    let curves = &page.values.drifts.curves;
    let name = "drift of program clocks over time";
    text.push_str(drifts_text())?;
    write_drift_chart(text, page, name, curves)
}

// The times, of units and of clock references.
#[tactic(auto, unfolding(crate::specs::PageText::times))]
fn write_times(text: &mut String, page: &Page) -> Result<(), AllocError>
    ensures { OnOk result (string_bytes text.new ≡ string_bytes text.old ++ spec.times page.now) }
{
    write_slacks(text, page)?;
    write_intervals(text, page)?;
    write_inaccuracies(text, page)?;
    write_drifts(text, page)
}

// The charts.
#[tactic(auto, unfolding(crate::specs::PageText::charts))]
fn write_charts(text: &mut String, page: &Page) -> Result<(), AllocError>
    ensures { OnOk result (string_bytes text.new ≡ string_bytes text.old ++ spec.charts page.now) }
{
    write_rates(text, page)?;
    write_transports(text, page)?;
    write_mains(text, page)?;
    write_times(text, page)
}

// The programs and their PIDs.
#[tactic(auto, unfolding(crate::specs::PageText::program_list))]
fn write_program_list(text: &mut String, page: &Page) -> Result<(), AllocError>
    ensures { OnOk result (string_bytes text.new ≡ string_bytes text.old ++ spec.program_list page.now) }
{
    text.push_str(tree_text())?;
    write_tree(text, &page.labels, &page.services.programs)
}

// The pictures.
#[tactic(auto, unfolding(crate::specs::PageText::pictures))]
fn write_pictures(text: &mut String, page: &Page) -> Result<(), AllocError>
    ensures { OnOk result (string_bytes text.new ≡ string_bytes text.old ++ spec.pictures page.now) }
{
    write_strip_table(text, page)?;
    page.traces.write(text, &page.labels)?;
    write_program_list(text, page)?;
    write_services(text, page)?;
    write_charts(text, page)
}

// A table: its head and its rows.
fn write_table(text: &mut String, head: &str, rows: &String) -> Result<(), AllocError>
    ensures { OnOk result (string_bytes text.new ≡ string_bytes text.old ++ (head.now ++ string_bytes rows.now)) }
{
    text.push_str(head)?;
    text.push_str(rows.as_str())
}

fn write_row_head(text: &mut String, pid: u16) -> Result<(), AllocError>
    ensures { OnOk result (string_bytes text.new ≡ string_bytes text.old ++ spec.row_head pid) }
{
    write!(text, "<tr><td>{pid}")
}

fn write_row_end(text: &mut String, cells: &str) -> Result<(), AllocError>
    ensures { OnOk result (string_bytes text.new ≡ string_bytes text.old ++ (cells.now ++ codes "\n")) }
{
    write!(text, "{cells}\n")
}

// The row of a stream.
#[tactic(auto, unfolding(crate::specs::PageText::stream_row))]
fn write_stream_row(
    text: &mut String,
    labels: &PidLabels,
    row: &StreamRow,
) -> Result<(), AllocError>
    ensures { OnOk result (string_bytes text.new ≡ string_bytes text.old ++ spec.stream_row labels.now row.now) }
{
    write_row_head(text, row.pid)?;
    write_carried(text, labels, row.pid)?;
    write_row_end(text, row.cells.as_str())
}

fn write_stream_rows(
    text: &mut String,
    labels: &PidLabels,
    rows: &[StreamRow],
) -> Result<(), AllocError>
    ensures { OnOk result (string_bytes text.new
        ≡ string_bytes text.old ++ flat_map (spec.stream_row labels.now) rows.now) }
{
    for row in rows {
        write_stream_row(text, labels, row)?;
    }
    Ok(())
}

// The table of streams.
fn write_streams(
    text: &mut String,
    labels: &PidLabels,
    rows: &[StreamRow],
) -> Result<(), AllocError>
    ensures { OnOk result (string_bytes text.new
        ≡ string_bytes text.old ++ (spec.streams_text ++ flat_map (spec.stream_row labels.now) rows.now)) }
{
    text.push_str(streams_text())?;
    write_stream_rows(text, labels, rows)
}

// The tables of buffers, marks and clock references.
#[tactic(auto, unfolding(crate::specs::PageText::figures))]
fn write_figures(text: &mut String, rows: &Rows) -> Result<(), AllocError>
    ensures { OnOk result (string_bytes text.new ≡ string_bytes text.old ++ spec.figures rows.now) }
{
    write_table(text, buffers_text(), &rows.buffers)?;
    write_table(text, marks_text(), &rows.marks)?;
    write_table(text, systems_text(), &rows.systems)?;
    write_table(text, clocks_text(), &rows.clocks)
}

// The tables of faults.
#[tactic(auto, unfolding(crate::specs::PageText::fault_tables))]
fn write_fault_tables(text: &mut String, page: &Page) -> Result<(), AllocError>
    ensures { OnOk result (string_bytes text.new ≡ string_bytes text.old ++ spec.fault_tables page.now) }
{
    write_fault_table(text, kinds_text(), &page.traces, &page.rows.kinds)?;
    write_fault_table(text, faults_text(), &page.traces, &page.rows.faults)
}

// The tables of checks, faults, streams and buffers.
#[tactic(auto, unfolding(crate::specs::PageText::measures))]
fn write_measures(text: &mut String, page: &Page) -> Result<(), AllocError>
    ensures { OnOk result (string_bytes text.new ≡ string_bytes text.old ++ spec.measures page.now) }
{
    write_table(text, checks_text(), &page.rows.checks)?;
    write_fault_tables(text, page)?;
    write_streams(text, &page.labels, &page.rows.streams)?;
    write_figures(text, &page.rows)
}

// The tables of tables and PIDs.
#[tactic(auto, unfolding(crate::specs::PageText::lists))]
fn write_lists(text: &mut String, rows: &Rows) -> Result<(), AllocError>
    ensures { OnOk result (string_bytes text.new ≡ string_bytes text.old ++ spec.lists rows.now) }
{
    write_table(text, tables_text(), &rows.tables)?;
    write_table(text, pids_text(), &rows.pids)?;
    write_table(text, apart_text(), &rows.apart)
}

// The begin of the page: its form, and the links to its parts.
#[tactic(auto, unfolding(crate::specs::PageText::front))]
fn write_front(text: &mut String, page: &Page) -> Result<(), AllocError>
    ensures { OnOk result (string_bytes text.new ≡ string_bytes text.old ++ spec.front page.now) }
{
    text.push_str(front_text())?;
    page.traces.write_section_link(text)?;
    text.push_str(links_text())
}

/// Appends a page.
pub(crate) fn write_page(text: &mut String, page: &Page) -> Result<(), AllocError>
    ensures { OnOk result (string_bytes text.new ≡ string_bytes text.old ++ spec.page_text page.now) }
{
    write_front(text, page)?;
    write_summary(text, page)?;
    write_pictures(text, page)?;
    write_measures(text, page)?;
    write_lists(text, &page.rows)?;
    text.push_str(back_text())
}
