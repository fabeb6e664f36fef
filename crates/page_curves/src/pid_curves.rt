//! Curves by PID.
ghost use Rattle.std.specs.Prelude.{◌≡◌, ◌≤◌, length, List, [], OnOk};
ghost use Rattle.page_curves.specs.Curves.{sample};
ghost use Rattle.page_curves.specs.PidCurves.{AreCurves, KeptCurve, opened, with_sample};
ghost use Rattle.page_curves.specs.PidCurves as spec;

use crate::curve::Curve;
use events::PidName;
use std::alloc::{AllocError, Global};

/// The greatest number of curves: later PIDs have no curve.
pub const MOST_CURVES: usize = 256;

/// The curve of a PID, what the PID carries, and the limit of the values, 0 for none.
#[derive(Drop)]
pub struct PidCurve {
    pub pid: u16,
    pub name: PidName,
    pub limit: u64,
    pub curve: Curve,
}

/// Curves in the order of their openings, one for a PID.
///
/// After an `AllocError` they describe no values: drop them.
#[derive(Drop)]
pub struct PidCurves {
    alloc: Global,
    pub curves: Vec<PidCurve>,
}

// Returns whether a PID has a curve.
fn has_pid(curves: &[PidCurve], pid: u16) -> bool
    ensures { (kept : List KeptCurve) → AreCurves curves.now kept → result ≡ spec.has_pid pid kept }
{
    for entry in curves {
        if entry.pid == pid {
            return true;
        }
    }
    false
}

// Returns what a PID carries, if it has a curve.
fn name_in(curves: &[PidCurve], pid: u16) -> Option<PidName>
    ensures { (kept : List KeptCurve) → AreCurves curves.now kept → result ≡ spec.kept_name pid kept }
{
    for entry in curves {
        if entry.pid == pid {
            return Some(entry.name);
        }
    }
    None
}

// Returns whether a PID gets no curve: it has one, or there are already as many as there may be.
fn is_closed(curves: &[PidCurve], pid: u16) -> bool
    ensures { (kept : List KeptCurve) → AreCurves curves.now kept → result ≡ spec.is_closed pid kept }
{
    curves.len() >= MOST_CURVES || has_pid(curves, pid)
}

// Adds the value of a window to the curve of a PID, if it has one.
fn take_in(curves: &mut [PidCurve], pid: u16, number: u64, value: u64) -> Result<(), AllocError>
    ensures { (kept : List KeptCurve) → AreCurves curves.old kept →
        OnOk result (AreCurves curves.new (with_sample pid (sample number value) kept)) }
{
    for entry in curves.iter_mut() {
        if entry.pid == pid {
            return entry.curve.take(number, value);
        }
    }
    Ok(())
}

// Returns the greatest value of a curve and of its limit.
fn greatest_in(entry: &PidCurve) -> u64
    ensures { result ≡ spec.greatest_in entry.now }
{
    entry.limit.max(entry.curve.greatest())
}

impl PidCurves {
    /// Returns no curves.
    pub fn new(alloc: Global) -> PidCurves
        ensures { AreCurves result.curves.items [] }
    {
        PidCurves {
            alloc,
            curves: Vec::new(alloc),
        }
    }

    /// Opens a curve for a PID, unless it has a curve or there are [`MOST_CURVES`].
    pub fn open(&mut self, pid: u16, name: PidName, limit: u64) -> Result<(), AllocError>
        ensures { (kept : List KeptCurve) → AreCurves self.old.curves.items kept →
            OnOk result (AreCurves self.new.curves.items (opened pid name limit kept)) }
    {
        if is_closed(&self.curves, pid) {
            return Ok(());
        }
        self.curves.push(PidCurve {
            pid,
            name,
            limit,
            curve: Curve::new(self.alloc),
        })?;
        Ok(())
    }

    /// Adds the value of a window, if the PID has a curve.
    pub fn take(&mut self, pid: u16, number: u64, value: u64) -> Result<(), AllocError>
        ensures { (kept : List KeptCurve) → AreCurves self.old.curves.items kept →
            OnOk result (AreCurves self.new.curves.items (with_sample pid (sample number value) kept)) }
    {
        take_in(&mut self.curves, pid, number, value)
    }

    /// Returns what the PID carries, if it has a curve.
    pub fn name_of(&self, pid: u16) -> Option<PidName>
        ensures { (kept : List KeptCurve) → AreCurves self.now.curves.items kept → result ≡ spec.kept_name pid kept }
    {
        name_in(&self.curves, pid)
    }
}

/// Returns the greatest value of curves and of their limits.
pub fn greatest_value(curves: &[PidCurve]) -> u64
    ensures { result ≡ spec.greatest_value curves.now }
{
    let mut greatest: u64 = 0;
    for entry in curves {
        greatest = greatest.max(greatest_in(entry));
    }
    greatest
}
