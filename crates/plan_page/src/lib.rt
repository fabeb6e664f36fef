//! The page of a plan that serves a description: its slots over one period, and what each item has of them, as one HTML
//! page with its pictures in it as SVG: no script, and nothing from elsewhere.
//!
//! - [`write_plan_page`]: appends the page.
//!
//! `owners` is what a slot can be for, `plan_items` the items of a description with their limits; `lanes` draws which
//! slots each of them owns, `slot_lists` has these as numbers, and `item_rows` the share and the greatest gap of each.
#![tactic(auto)]

mod item_rows;
mod lanes;
mod owners;
mod page_text;
mod plan_items;
mod slot_lists;
mod table_items;

pub use page_text::write_plan_page;
