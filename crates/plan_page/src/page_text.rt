//! The text of the page.
ghost use Rattle.std.specs.Prelude.{◌≡◌, ◌++◌, ◌<◌, ◌≤◌, OnOk, length, string_bytes};
ghost use Rattle.plan_page.specs.PageText as spec;

use crate::item_rows::{write_item_rows, write_share};
use crate::lanes::{time_of, write_lanes, write_millis};
use crate::owners::Owner;
use crate::plan_items::{PlanItem, plan_items};
use crate::slot_lists::write_slot_lists;
use plan_checker::CheckedPlan;
use slot_plan::Slot;
use std::alloc::{AllocError, Global};
use std::fmt::Write;

/// The begin of the page with its form, for light and dark.
const FRONT: &str = "<!doctype html>
<html lang=\"en\"><head><meta charset=\"utf-8\"><meta name=\"viewport\" content=\"width=device-width\"><title>Plan of a transport stream</title><style>
:root{color-scheme:light dark;--ink:#1a222d;--soft:#5a6574;--line:#dde2e9;--paper:#fff;--stream:#1f6fd0;--clock:#b9700a;--table:#0f8f62}
@media(prefers-color-scheme:dark){:root{--ink:#e7eaef;--soft:#9ca7b6;--line:#333c48;--paper:#12161c;--stream:#6aaaf5;--clock:#e6a24a;--table:#45c596}}
body{font:15px/1.5 system-ui,sans-serif;color:var(--ink);background:var(--paper);max-width:64em;margin:2em auto;padding:0 1em}
h1{font-size:1.5em;margin:0}h2{font-size:1.1em;margin:2em 0 .2em}p{margin:.2em 0 .6em}.soft,th,summary,.scale{color:var(--soft)}
table{border-collapse:collapse;font-variant-numeric:tabular-nums}th,td{padding:.15em .9em .15em 0;text-align:right;vertical-align:top;border-bottom:1px solid var(--line)}
th{font-weight:500;vertical-align:bottom}.word,.list{text-align:left}.word{white-space:nowrap}.wide{overflow-x:auto}
.lanes{width:100%;min-width:40em}.lanes td{padding:.1em .9em .1em 0;white-space:nowrap;border:0}.lanes .slots{width:100%;padding-right:0}
.lane{display:block;width:100%;height:1.2em;border-bottom:1px solid var(--line);background:repeating-linear-gradient(90deg,var(--line) 0 1px,transparent 1px 25%)}
.lane path,.bar path{fill:none;vector-effect:non-scaling-stroke}.lane path{stroke-width:1.6px}.bar path{stroke:var(--stream);stroke-width:9px}
.stream{stroke:var(--stream)}.clock{stroke:var(--clock)}.table{stroke:var(--table)}.null{stroke:var(--soft);opacity:.6}
.scale{display:grid;grid-template-columns:repeat(4,1fr);text-align:left;line-height:1.3}
.bar{width:10em;height:.8em;border-right:2px solid var(--ink)}
details{margin:.3em 0 0}@media print{details{display:none}}
</style></head><body>
<h1>Plan of a transport stream</h1>
";

const PERIOD: &str =
    "<h2>The slots of a period</h2><p class=\"soft\">An item to a row, a line for each of its slots; the period is repeated.</p>\n";

const CLOSER: &str = "<h2>The first 256 slots</h2>\n";

const ITEMS: &str =
    "<h2>Items</h2><p class=\"soft\">The greatest gap is from a slot of the item to the one that is so many of its slots later, round the period's end too. The mark is the limit.</p><div class=\"wide\"><table><tr><th>PID<th class=\"word\">item<th>program<th>slots<th>share, %<th>bit/s<th>over so many<th>greatest gap, slots<th>ms<th>limit, ms<th class=\"word\">of<th class=\"word\">beside its limit\n";

const BACK: &str = "</table></div>\n</body></html>\n";

#[tactic(auto, unfolding(crate::specs::PageText::front_text))]
fn front_text() -> &'static str
    ensures { result.now ≡ spec.front_text }
{
    FRONT
}

#[tactic(auto, unfolding(crate::specs::PageText::period_text))]
fn period_text() -> &'static str
    ensures { result.now ≡ spec.period_text }
{
    PERIOD
}

#[tactic(auto, unfolding(crate::specs::PageText::closer_text))]
fn closer_text() -> &'static str
    ensures { result.now ≡ spec.closer_text }
{
    CLOSER
}

#[tactic(auto, unfolding(crate::specs::PageText::items_text))]
fn items_text() -> &'static str
    ensures { result.now ≡ spec.items_text }
{
    ITEMS
}

#[tactic(auto, unfolding(crate::specs::PageText::back_text))]
fn back_text() -> &'static str
    ensures { result.now ≡ spec.back_text }
{
    BACK
}

#[tactic(auto, unfolding(crate::specs::PageText::rate_words))]
fn write_rate_words(text: &mut String, rate: u64, count: u64) -> Result<(), AllocError>
    ensures { OnOk result (string_bytes text.new ≡ string_bytes text.old ++ spec.rate_words rate count) }
{
    write!(
        text,
        "<p>{rate} bit/s. A period has {count} slots of 188 bytes, and takes "
    )
}

// The rate and the period.
#[tactic(auto, unfolding(crate::specs::PageText::period_words))]
fn write_period_words(text: &mut String, rate: u64, count: u64) -> Result<(), AllocError>
    requires some { 0 < rate }
    ensures { OnOk result (string_bytes text.new ≡ string_bytes text.old ++ spec.period_words rate count) }
{
    write_rate_words(text, rate, count)?;
    write_millis(text, time_of(count, rate))?;
    text.push_str(" ms. ")
}

#[tactic(auto, unfolding(crate::specs::PageText::count_words))]
fn write_count_words(text: &mut String, count: u64) -> Result<(), AllocError>
    ensures { OnOk result (string_bytes text.new ≡ string_bytes text.old ++ spec.count_words count) }
{
    write!(text, "{count} of them, ")
}

// How many slots are null packets.
#[tactic(auto, unfolding(crate::specs::PageText::null_words))]
fn write_null_words(text: &mut String, count: u64, all: u64) -> Result<(), AllocError>
    requires some { 0 < all }
    requires short { all ≤ 65536 }
    requires part { count ≤ all }
    ensures { OnOk result (string_bytes text.new ≡ string_bytes text.old ++ spec.null_words count all) }
{
    write_count_words(text, count)?;
    write_share(text, count, all)?;
    text.push_str(" %, are null packets.</p>\n")
}

// What the plan is.
fn write_summary(text: &mut String, rate: u64, slots: &[Slot]) -> Result<(), AllocError>
    requires some_rate { 0 < rate }
    requires some { 0 < length slots.now }
    requires short { length slots.now ≤ 65536 }
    ensures { OnOk result (string_bytes text.new ≡ string_bytes text.old ++ spec.summary rate slots.now) }
{
    let all = slots.len() as u64;
    write_period_words(text, rate, all)?;
    write_null_words(text, Owner::Null.count_in(slots), all)
}

// The first slots alone, where there are many.
fn write_closer(
    text: &mut String,
    rate: u64,
    slots: &[Slot],
    items: &[PlanItem],
) -> Result<(), AllocError>
    requires some_rate { 0 < rate }
    ensures { OnOk result (string_bytes text.new
        ≡ string_bytes text.old ++ spec.closer rate slots.now items.now) }
{
    if slots.len() > 256 {
        let front = &slots[..256];
        text.push_str(closer_text())?;
        write_lanes(text, rate, front, items)
    } else {
        Ok(())
    }
}

// The pictures.
#[tactic(auto, unfolding(crate::specs::PageText::pictures))]
fn write_pictures(
    text: &mut String,
    rate: u64,
    slots: &[Slot],
    items: &[PlanItem],
) -> Result<(), AllocError>
    requires some_rate { 0 < rate }
    ensures { OnOk result (string_bytes text.new
        ≡ string_bytes text.old ++ spec.pictures rate slots.now items.now) }
{
    text.push_str(period_text())?;
    write_lanes(text, rate, slots, items)?;
    write_closer(text, rate, slots, items)?;
    write_slot_lists(text, slots, items)
}

// The page of a period's slots.
fn write_page(
    text: &mut String,
    rate: u64,
    slots: &[Slot],
    items: &[PlanItem],
) -> Result<(), AllocError>
    requires some_rate { 0 < rate }
    requires fast { rate ≤ 100000000 }
    requires some { 0 < length slots.now }
    requires short { length slots.now ≤ 65536 }
    ensures { OnOk result (string_bytes text.new
        ≡ string_bytes text.old ++ spec.page_of rate slots.now items.now) }
{
    text.push_str(front_text())?;
    write_summary(text, rate, slots)?;
    write_pictures(text, rate, slots, items)?;
    text.push_str(items_text())?;
    write_item_rows(text, rate, slots, items)?;
    text.push_str(back_text())
}

/// Appends the page of a plan that serves a description.
pub fn write_plan_page(
    alloc: Global,
    plan: &CheckedPlan,
    text: &mut String,
) -> Result<(), AllocError>
    ensures { OnOk result (string_bytes text.new
        ≡ string_bytes text.old ++ spec.page_text plan.now.description plan.now.plan) }
{
    let description = plan.description();
    let items = plan_items(alloc, description)?;
    let rate = description.rate().bits_per_second();
    write_page(text, rate, plan.plan().slots(), &items)
}
