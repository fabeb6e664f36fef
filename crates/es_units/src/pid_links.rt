//! Where the findings of each PID are.

ghost use Rattle.std.specs.Prelude.{◌≡◌, IfOk, List, Option, Some, map, slice_get, ℕ};
ghost use Rattle.pid_findings.specs.Shown.{finding_view};
ghost use Rattle.es_units.specs.PidPlaces as spec;

use pid_findings::Finding;
use std::alloc::{AllocError, Allocator};
use std::marker::Model;

// The number of PIDs that a finding can have.
const PIDS: usize = 65_536;

/// For each PID the place of its first finding, and for each finding the place of the next finding of its PID. A walk
/// by these links visits the findings of one PID only.
#[derive(Drop)]
pub struct PidLinks<A: Allocator> {
    // by PID
    firsts: Vec<usize, A>,
    // by finding
    nexts: Vec<usize, A>,
}

impl<A: Allocator> Model for PidLinks<A> {
    ghost use Rattle.es_units.specs.PidPlaces.{LinksView};

    ghost Value = { LinksView };

    ghost view = { λ l. record { firsts = l.firsts.items; nexts = l.nexts.items } };
}

impl<A: Allocator + Clone> PidLinks<A> {
    /// Returns the links of findings.
    pub fn new(alloc: A, findings: &[Finding<'_, A>]) -> Result<PidLinks<A>, AllocError>
        ensures { IfOk result (λ links. spec.AreLinks links (spec.pids_in (map finding_view findings.now))) }
    {
        let count = findings.len();
        let mut firsts = vec![in alloc.clone()?; count; PIDS]?;
        let mut nexts = vec![in alloc; count; count]?;
        let mut left = count;
        while left > 0 {
            left -= 1;
            if let Some(pid) = findings[left].pid {
                nexts[left] = firsts[pid as usize];
                firsts[pid as usize] = left;
            }
        }
        Ok(PidLinks { firsts, nexts })
    }
}

impl<A: Allocator> PidLinks<A> {
    /// Returns the place of the first finding of a PID; the number of findings, if there is none.
    pub fn first(&self, pid: u16) -> usize
        ensures { (pids : List (Option ℕ)) → spec.AreLinks self.now pids → result ≡ spec.first_place pid pids }
    {
        match self.firsts.get(pid as usize) {
            Some(at) => *at,
            None => self.nexts.len(),
        }
    }

    /// Returns the place of the next finding of the PID of the finding at `at`; the number of findings, if there is
    /// none.
    pub fn next(&self, at: usize) -> usize
        ensures { (pids : List (Option ℕ)) (pid : ℕ) → spec.AreLinks self.now pids →
            slice_get pids at ≡ Some (Some pid) → result ≡ spec.next_place pid at pids }
    {
        match self.nexts.get(at) {
            Some(next) => *next,
            None => self.nexts.len(),
        }
    }
}
