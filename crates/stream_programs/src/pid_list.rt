//! PIDs in their order, with a table of them.

ghost use Rattle.std.specs.Prelude.{◌≡◌, ◌++◌, ◌∷◌, [], IfOk, OnOk};
ghost use Rattle.stream_programs.specs.FreePids.{is_taken, least_free};

use std::alloc::{AllocError, Allocator};
use std::marker::Model;

/// The number of values of 16 bits; 8,192 of them are PIDs.
const NUMBERS: usize = 65_536;

/// PIDs in order, one or more times each.
#[derive(Drop)]
pub struct PidList<A: Allocator> {
    pids: Vec<u16, A>,
    // by PID: whether it is in the list
    taken: [bool; NUMBERS],
}

// A contract sees the PIDs.
impl<A: Allocator> Model for PidList<A> {
    ghost use Rattle.std.specs.Prelude.{List, ℕ};
    ghost use Rattle.stream_programs.specs.PidLists.{MarksTaken};

    ghost Value = { List ℕ };

    ghost view = { λ l. l.pids.items };

    ghost invariant = { λ l. MarksTaken l.taken l.pids.items };
}

impl<A: Allocator> PidList<A> {
    /// Makes a list of no PIDs.
    pub fn new(alloc: A) -> PidList<A>
        ensures { result ≡ [] }
    {
        PidList {
            pids: Vec::new(alloc),
            taken: [false; NUMBERS],
        }
    }

    /// Appends a PID.
    pub fn add(&mut self, pid: u16) -> Result<(), AllocError>
        ensures { OnOk result (self.new ≡ self.old ++ pid ∷ []) }
    {
        self.pids.push(pid)?;
        self.taken[pid as usize] = true;
        Ok(())
    }

    /// Appends PIDs.
    pub fn add_all(&mut self, pids: &[u16]) -> Result<(), AllocError>
        ensures { OnOk result (self.new ≡ self.old ++ pids.now) }
    {
        for pid in pids {
            self.add(*pid)?;
        }
        Ok(())
    }

    /// Makes a list of these PIDs.
    pub fn of(alloc: A, pids: &[u16]) -> Result<PidList<A>, AllocError>
        ensures { IfOk result (λ list. list ≡ pids.now) }
    {
        let mut list = PidList::new(alloc);
        list.add_all(pids)?;
        Ok(list)
    }

    /// Returns whether a PID is in the list.
    pub fn has(&self, pid: u16) -> bool
        ensures { result ≡ is_taken pid self.now }
    {
        self.taken[pid as usize]
    }

    /// Returns the least PID from `from` to 8,190 that is not in the list, if there is one.
    pub fn free_from(&self, from: u16) -> Option<u16>
        ensures { result ≡ least_free from self.now }
    {
        for pid in from..8191 {
            if !self.has(pid) {
                return Some(pid);
            }
        }
        None
    }

    /// Returns the PIDs alone.
    pub fn into_pids(self) -> Vec<u16, A>
        ensures { result.items ≡ self }
    {
        self.pids
    }
}
