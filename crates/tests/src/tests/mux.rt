//! Worked services and plans, runs of the multiplexer, measured streams, and refused memory. A helper that has no
//! answer to give answers None.

mod measuring;
mod memory;
mod plan_texts;
mod runs;
mod services;
mod texts;

use plan_checker::{CheckedPlan, check};
use slot_plan::{Description, Plan};
use std::alloc::{Allocator, Global};
use switch_checker::{CheckedSwitch, check_switch};

/// Returns the text with `other` in place of each `part`.
fn edited(alloc: Global, text: &str, part: &str, other: &str) -> Option<String> {
    text.replace(alloc, part, other).ok()
}

fn described(alloc: Global, text: &str) -> Option<Description> {
    Description::read(alloc, text).ok()
}

fn planned<A: Allocator + Clone>(alloc: A, text: &str) -> Option<Plan<A>> {
    match Plan::read_text(alloc, text.as_bytes()) {
        Ok((plan, _)) => Some(plan),
        Err(_) => None,
    }
}

/// Returns the plan for the description, if it is accepted.
fn checked<A: Allocator + Clone>(
    global: Global,
    alloc: A,
    description: &str,
    plan: &str,
) -> Option<CheckedPlan<A>> {
    let description = described(global, description)?;
    match planned(alloc, plan) {
        Some(plan) => match check(description, plan) {
            Ok(checked) => Some(checked),
            Err((_, description, plan)) => {
                drop(description);
                drop(plan);
                None
            }
        },
        None => {
            drop(description);
            None
        }
    }
}

/// Returns a second plan after the first, if it may follow.
fn followed<A: Allocator + Clone>(
    alloc: A,
    first: CheckedPlan<A>,
    second: &str,
) -> Option<CheckedSwitch<A>> {
    match planned(alloc, second) {
        Some(second) => match check_switch(first, second) {
            Ok(switch) => Some(switch),
            Err((_, first, second)) => {
                drop(first);
                drop(second);
                None
            }
        },
        None => {
            drop(first);
            None
        }
    }
}

/// Appends these parts, one after another.
fn push_parts(whole: &mut Vec<u8>, parts: &[&[u8]]) -> bool {
    for part in parts {
        if whole.extend_from_slice(part).is_err() {
            return false;
        }
    }
    true
}

fn joined(alloc: Global, parts: &[&[u8]]) -> Option<Vec<u8>> {
    let mut whole = Vec::new(alloc);
    if push_parts(&mut whole, parts) {
        Some(whole)
    } else {
        None
    }
}

/// Returns the bytes with the byte at `at` changed.
fn changed(alloc: Global, bytes: &[u8], at: usize, value: u8) -> Option<Vec<u8>> {
    let before = bytes.get(..at).unwrap_or(bytes);
    let after = bytes.get(at.saturating_add(1)..).unwrap_or(&[]);
    joined(alloc, &[before, &[value], after])
}
