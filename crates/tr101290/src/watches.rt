//! The clock references of a stream, PID by PID.
ghost use Rattle.std.specs.Prelude.{◌≡◌, IfOk, OnOk, nat_eq};
ghost use Rattle.std.specs.Map.{lookup};
ghost use Rattle.arrival.specs.Clock.{IsInRange};
ghost use Rattle.ts_packet.specs.Views.{packet_view};
ghost use Rattle.tr101290.specs.PidWatches as spec;

use crate::report::PcrReport;
use crate::sample::pcr_sample;
use crate::watch::{PcrTiming, PcrWatch};
use arrival::PcrSample;
use indexmap::IndexMap;
use std::alloc::{AllocError, Allocator};
use std::hash::{BuildHasherDefault, FoldHasher};
use std::marker::Model;
use ts_packet::Packet;

/// Watches by PID, in the order of each PID's first reference.
pub type PcrEntries<A> = IndexMap<u16, PcrWatch, BuildHasherDefault<FoldHasher>, A>;

/// The references of each PID of a stream so far: a watch a PID.
#[derive(Drop)]
pub struct PcrWatches<A: Allocator> {
    timing: PcrTiming,
    watches: PcrEntries<A>,
}

impl<A: Allocator> Model for PcrWatches<A> {
    ghost use Rattle.tr101290.specs.PidWatches.{WatchesState};

    ghost Value = { WatchesState };

    ghost view = { λ w. record { timing = w.timing; watches = w.watches.entries } };
}

// Returns the watch of a PID.
#[tactic(auto, unfolding(crate::specs::PidWatches::watch_or_new))]
fn watch_of<A: Allocator>(timing: PcrTiming, watches: &PcrEntries<A>, pid: u16) -> PcrWatch
    ensures { result ≡ spec.watch_or_new timing (lookup (nat_eq pid) watches.now.entries) }
{
    match watches.get(&pid) {
        None => PcrWatch::new(timing),
        Some(watch) => *watch,
    }
}

impl<A: Allocator + Copy> PcrWatches<A> {
    /// Returns the state before the first packet.
    pub fn new(alloc: A, timing: PcrTiming) -> PcrWatches<A>
        ensures { result ≡ spec.no_packet timing }
    {
        PcrWatches {
            timing,
            watches: IndexMap::new(alloc),
        }
    }

    /// Returns the watch of each PID.
    pub fn watches(&self) -> &PcrEntries<A>
        ensures { result.now.entries ≡ self.now.watches }
    {
        &self.watches
    }

    fn take_sample(&mut self, pid: u16, sample: PcrSample) -> Result<PcrReport, AllocError>
        requires { IsInRange sample }
        ensures watches { OnOk result (self.new ≡ spec.with_sample self.old pid sample) }
        ensures report { IfOk result (λ report. report ≡ spec.sample_report self.old pid sample) }
    {
        let mut watch = watch_of(self.timing, &self.watches, pid);
        let report = watch.take(sample);
        self.watches.insert(pid, watch)?;
        Ok(report)
    }

    /// Takes the next packet, number `index` of the stream, and returns the report on its reference, if it has one.
    ///
    /// After an `AllocError` the watches describe no stream: drop them.
    #[tactic(auto, unfolding(crate::specs::PidWatches::taken_if, crate::specs::PidWatches::report_if))]
    pub fn take(&mut self, index: u64, packet: &Packet<'_>) -> Result<Option<PcrReport>, AllocError>
        ensures watches { OnOk result (self.new ≡ spec.taken self.old index (packet_view packet.now)) }
        ensures report { IfOk result (λ report. report ≡ spec.report_at self.old index (packet_view packet.now)) }
    {
        match pcr_sample(index, packet) {
            None => Ok(None),
            Some(sample) => Ok(Some(self.take_sample(packet.header.pid, sample)?)),
        }
    }
}
