//! What the clocks of a stream show while its packets pass.

ghost use Rattle.std.specs.Prelude.{◌≡◌, [], IfOk, OnOk, nat_eq};
ghost use Rattle.std.specs.Map.{lookup};
ghost use Rattle.stamp_repair.specs.DataTimes as spec;

use packet_pcr::FoundPcr;
use pid_map::PidMap;
use std::alloc::{AllocError, Global};
use std::marker::Model;

/// The last base of each clock, by the PID of its references.
#[derive(Drop)]
pub(crate) struct ShownClocks {
    shown: PidMap<u64, Global>,
}

// A contract sees its entries.
impl Model for ShownClocks {
    ghost use Rattle.stamp_repair.specs.DataTimes.{Clocks};

    ghost Value = { Clocks };

    ghost view = { λ c. c.shown.entries };
}

impl ShownClocks {
    /// Returns the clocks before any reference.
    pub(crate) fn new(alloc: Global) -> ShownClocks
        ensures { result ≡ [] }
    {
        ShownClocks {
            shown: PidMap::new(alloc),
        }
    }

    /// Returns what the clock on a PID shows.
    pub(crate) fn of(&self, pid: u16) -> Option<u64>
        ensures { result ≡ lookup (nat_eq pid) self.now }
    {
        self.shown.entries().get(&pid).copied()
    }

    // A clock shows a reference.
    fn show(&mut self, reference: FoundPcr) -> Result<(), AllocError>
        ensures { OnOk result (self.new ≡ spec.with_shown self.old reference) }
    {
        self.shown.insert(reference.pid, reference.base)?;
        Ok(())
    }

    // A clock shows a reference, if it shows nothing yet.
    #[tactic(auto, unfolding(crate::specs::DataTimes::shown_if))]
    fn show_if_none(&mut self, reference: FoundPcr) -> Result<(), AllocError>
        ensures { OnOk result (self.new
            ≡ spec.shown_if (lookup (nat_eq reference.pid) self.old) self.old reference) }
    {
        match self.of(reference.pid) {
            None => self.show(reference),
            Some(_) => Ok(()),
        }
    }

    /// Lets each clock show the first of these references that it has, if it shows nothing yet.
    #[tactic(auto, using(crate::proofs::PassedFindings::shown_more, crate::proofs::PassedFindings::shown_end))]
    pub(crate) fn show_first(&mut self, references: &[FoundPcr]) -> Result<(), AllocError>
        ensures { OnOk result (self.new ≡ spec.first_shown self.old references.now) }
    {
        let mut later = references;
        while let Some((first, rest)) = later.split_first() {
            self.show_if_none(*first)?;
            later = rest;
        }
        Ok(())
    }
}

// Shows the references up to a packet, and returns the references of later packets.
#[tactic(auto, using(crate::proofs::PassedFindings::pass_more, crate::proofs::PassedFindings::pass_stop, crate::proofs::PassedFindings::pass_end))]
fn pass_all<'r>(
    packet: u64,
    clocks: &mut ShownClocks,
    references: &'r [FoundPcr],
) -> Result<&'r [FoundPcr], AllocError>
    ensures clocks { OnOk result (clocks.new ≡ (spec.passed_by packet clocks.old references.now).clocks) }
    ensures later { IfOk result (λ later. later.now ≡ (spec.passed_by packet clocks.old references.now).later) }
{
    let mut later = references;
    while let Some((first, rest)) = later.split_first() {
        if first.packet > packet {
            return Ok(later);
        }
        clocks.show(*first)?;
        later = rest;
    }
    Ok(later)
}

/// What the clocks show, and the references of later packets.
#[derive(Drop)]
pub(crate) struct ClockLine<'r> {
    pub clocks: ShownClocks,
    pub later: &'r [FoundPcr],
}

// A contract sees the references as a list.
impl<'r> Model for ClockLine<'r> {
    ghost use Rattle.stamp_repair.specs.DataTimes.{LineView};

    ghost Value = { LineView };

    ghost view = { λ l. record { clocks = l.clocks; later = l.later.now } };
}

impl<'r> ClockLine<'r> {
    /// Lets a packet pass: the clocks show the references up to it.
    pub(crate) fn pass(&mut self, packet: u64) -> Result<(), AllocError>
        ensures { OnOk result (self.new ≡ spec.passed packet self.old) }
    {
        let later = pass_all(packet, &mut self.clocks, self.later)?;
        self.later = later;
        Ok(())
    }
}
