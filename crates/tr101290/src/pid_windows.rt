//! The counts of one window.
ghost use Rattle.std.specs.Prelude.{◌≡◌, ◌<◌, OnOk, Some, slice_get};
ghost use Rattle.indexmap.specs.IndexMap.{index_map_len, set_value_at, values};
ghost use Rattle.tr101290.specs.Windows.{counts_in, no_packet, taken, with_one, with_packet};

use pid_map::PidMap;
use std::alloc::{AllocError, Allocator};
use std::marker::Model;

/// The number of packets of a PID, and how many of them have a program_clock_reference.
#[derive(Clone, Copy)]
pub struct PidCounts {
    pub packets: u64,
    pub pcrs: u64,
}

/// Counts by PID, in the order of each PID's first packet.
pub type PidEntries<A> = pid_map::PidEntries<PidCounts, A>;

/// The window of the last packet, and its counts. There is room for each PID once, whatever the number of windows.
#[derive(Drop)]
pub struct PidWindow<A: Allocator> {
    number: u64,
    counts: PidMap<PidCounts, A>,
}

impl<A: Allocator> Model for PidWindow<A> {
    ghost use Rattle.tr101290.specs.Windows.{WindowView};

    ghost Value = { WindowView };

    ghost view = { λ w. record { number = w.number; counts = w.counts.entries } };
}

// Returns these counts with one more packet. They stop at 2^64 - 1.
#[inline(always)]
#[tactic(auto, unfolding(crate::specs::Windows::with_one))]
fn with_one(counts: PidCounts, pcr: bool) -> PidCounts
    ensures { result ≡ with_one counts pcr }
{
    let pcrs = if pcr {
        counts.pcrs.saturating_add(1)
    } else {
        counts.pcrs
    };
    PidCounts {
        packets: counts.packets.saturating_add(1),
        pcrs,
    }
}

// Counts a packet of the PID at an index.
#[inline(always)]
fn count_at<A: Allocator>(counts: &mut PidMap<PidCounts, A>, index: usize, pcr: bool)
    requires { index < index_map_len counts.old }
    ensures { (before : PidCounts) → slice_get (values counts.old) index ≡ Some before →
        counts.new.entries ≡ set_value_at counts.old.entries index (with_one before pcr) }
{
    let before = counts.value_mut(index);
    *before = with_one(*before, pcr);
}

// Counts a packet of a PID.
#[inline(always)]
#[tactic(auto, unfolding(crate::specs::Windows::counts_or_zero), using(crate::proofs::CountedPids::counted_there, crate::proofs::CountedPids::counts_there))]
fn count<A: Allocator + Clone>(
    counts: &mut PidMap<PidCounts, A>,
    pid: u16,
    pcr: bool,
) -> Result<(), AllocError>
    ensures { OnOk result (counts.new.entries ≡ with_packet counts.old.entries pid pcr) }
{
    match counts.index_of(pid) {
        Some(index) => {
            count_at(counts, index, pcr);
            Ok(())
        }
        None => {
            let none = PidCounts {
                packets: 0,
                pcrs: 0,
            };
            counts.insert(pid, with_one(none, pcr))?;
            Ok(())
        }
    }
}

impl<A: Allocator + Copy> PidWindow<A> {
    /// Returns the state before the first packet.
    pub fn new(alloc: A) -> PidWindow<A>
        ensures { result ≡ no_packet }
    {
        PidWindow {
            number: 0,
            counts: PidMap::new(alloc),
        }
    }

    /// Returns the number of the window of the last packet, 0 before the first.
    pub fn number(&self) -> u64
        ensures { result ≡ self.now.number }
    {
        self.number
    }

    /// Returns the counts of the window's PIDs.
    pub fn counts(&self) -> &PidEntries<A>
        ensures { result.now.entries ≡ self.now.counts }
    {
        self.counts.entries()
    }

    /// Takes a packet of a window. If the window is not the last packet's window, the packet is the window's first, and
    /// the counts of the last window are forgotten.
    ///
    /// After an `AllocError` the window describes no packets: drop it.
    #[inline(always)]
    #[tactic(auto, unfolding(crate::specs::Windows::counts_in))]
    pub fn take(&mut self, window: u64, pid: u16, pcr: bool) -> Result<(), AllocError>
        ensures { OnOk result (self.new ≡ taken self.old window pid pcr) }
    {
        if self.number != window {
            self.number = window;
            self.counts.clear();
        }
        count(&mut self.counts, pid, pcr)
    }
}
