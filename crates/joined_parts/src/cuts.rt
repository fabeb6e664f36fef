//! Where a recording is cut.

ghost use Rattle.std.specs.Prelude.{◌≡◌, [], IfOk, OnOk, Some, nat_eq};
ghost use Rattle.std.specs.Map.{lookup};
ghost use Rattle.fed_streams.specs.Clocks.{jumps};
ghost use Rattle.joined_parts.specs.Cuts as spec;

use es_moments::distance;
use packet_pcr::FoundPcr;
use pid_map::PidMap;
use std::alloc::{AllocError, Global};
use std::marker::Model;

// The longest step of a clock from one reference to the next, in units of 90 kHz: 10 s.
const MAX_STEP: u64 = 900_000;

// The most cuts of a recording.
const MAX_CUTS: usize = 256;

/// A cut: two references of a clock one after another, between which it jumps.
#[derive(Clone, Copy)]
pub struct Cut {
    /// The PID of the references.
    pub pid: u16,
    /// The packet of the one before.
    pub since: u64,
    /// Its base, in units of 90 kHz.
    pub before: u64,
    /// The packet of the one after.
    pub packet: u64,
    /// Its base.
    pub base: u64,
}

/// The last reference of each clock, by its PID.
#[derive(Drop)]
struct LastReferences {
    last: PidMap<FoundPcr, Global>,
}

// A contract sees its entries.
impl Model for LastReferences {
    ghost use Rattle.joined_parts.specs.Cuts.{LastReferences};

    ghost Value = { LastReferences };

    ghost view = { λ l. l.last.entries };
}

// Whether a clock jumps from what it showed before.
#[tactic(auto, unfolding(fed_streams::specs::Clocks::jumps))]
fn is_jump(before: u64, base: u64) -> bool
    ensures { result ≡ jumps (Some before) base }
{
    distance(before, base) > MAX_STEP
}

// The cut between two references of a clock, if it jumps.
#[tactic(auto, unfolding(crate::specs::Cuts::cut_between))]
fn cut_between(before: Option<FoundPcr>, reference: FoundPcr) -> Option<Cut>
    ensures { result ≡ spec.cut_between before reference }
{
    let before = before?;
    if !is_jump(before.base, reference.base) {
        return None;
    }
    Some(Cut {
        pid: reference.pid,
        since: before.packet,
        before: before.base,
        packet: reference.packet,
        base: reference.base,
    })
}

impl LastReferences {
    // Returns the state before the first reference.
    fn new(alloc: Global) -> LastReferences
        ensures { result ≡ [] }
    {
        LastReferences {
            last: PidMap::new(alloc),
        }
    }

    // Returns the last reference of the clock on a PID.
    fn of(&self, pid: u16) -> Option<FoundPcr>
        ensures { result ≡ lookup (nat_eq pid) self.now }
    {
        self.last.entries().get(&pid).copied()
    }

    // Takes a reference.
    fn take(&mut self, reference: FoundPcr) -> Result<(), AllocError>
        ensures { OnOk result (self.new ≡ spec.with_last self.old reference) }
    {
        self.last.insert(reference.pid, reference)?;
        Ok(())
    }
}

// Adds a cut, if there is room.
#[tactic(auto, unfolding(crate::specs::Cuts::with_cut))]
fn add_cut(cuts: &mut Vec<Cut>, cut: Option<Cut>) -> Result<(), AllocError>
    ensures { OnOk result (cuts.new.items ≡ spec.with_cut cuts.old.items cut) }
{
    let Some(cut) = cut else {
        return Ok(());
    };
    if cuts.len() < MAX_CUTS {
        cuts.push(cut)?;
    }
    Ok(())
}

/// Returns the cuts of a recording with these references.
#[tactic(auto, using(crate::proofs::CutLists::cut_more, crate::proofs::CutLists::cut_end))]
pub(crate) fn cuts_in(alloc: Global, references: &[FoundPcr]) -> Result<Vec<Cut>, AllocError>
    ensures { IfOk result (λ cuts. cuts.items ≡ spec.cuts_in references.now) }
{
    let mut last = LastReferences::new(alloc);
    let mut cuts = Vec::new(alloc);
    let mut later = references;
    while let Some((first, rest)) = later.split_first() {
        let cut = cut_between(last.of(first.pid), *first);
        last.take(*first)?;
        add_cut(&mut cuts, cut)?;
        later = rest;
    }
    Ok(cuts)
}
