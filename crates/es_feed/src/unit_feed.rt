//! All streams of a description, finding by finding.

ghost use Rattle.std.specs.Prelude.{◌≡◌, ◌≤◌, ◌++◌, ◌^◌, IfOk, IfSome, OnOk, map};
ghost use Rattle.pid_findings.specs.Shown.{finding_view};
ghost use Rattle.std.specs.Option.{option_to_list};
ghost use Rattle.es_units.specs.Marking.{all_marked};
ghost use Rattle.fed_streams.specs.Feeding as spec;
ghost use Rattle.es_feed.specs.StreamFeeding.{stream_pids};

use es_units::Marking;
use fed_streams::due::Due;
use fed_streams::fed_map::{other_stream, watch};
use fed_streams::fed_streams::{greatest_of, pids_of, place_of, take_at};
use fed_streams::feed_fault::OtherStream;
use fed_streams::origin::Origin;
use fed_streams::restart::{Seen, fallen_after, origin_by, restart_of, seen_of};
use fed_streams::{FedMap, FedStream, FeedFault, NewMap, PacketFault, Restart};
use pes_packet::Unit;
use pid_findings::{Finding, What};
use std::alloc::{AllocError, Global};
use std::collections::VecDeque;
use std::marker::Model;

/// The number for no stream, and for a tick.
pub(crate) const NO_STREAM: u8 = 255;

/// The maps of a description's programs, its streams with their current units, the marks that are asked for, and the
/// clock.
#[derive(Drop)]
pub struct UnitFeed {
    pub(crate) earliest: u64,
    pub(crate) origin: Origin,
    pub(crate) shown: Option<u64>,
    pub(crate) earlier: Option<u64>,
    pub(crate) ticked: u64,
    marking: Marking,
    pub(crate) maps: Vec<FedMap>,
    pub(crate) streams: Vec<FedStream>,
    // the stamp of the last unit, if it fell where no clock is known
    fallen: Option<u64>,
}

// A contract sees the state of each stream.
impl Model for UnitFeed {
    ghost use Rattle.std.specs.Prelude.{◌≤◌, ◌^◌};
    ghost use Rattle.fed_streams.specs.Feeding.{FeedView};
    ghost use Rattle.fed_streams.specs.Origins.{IsOrigin};

    ghost Value = { FeedView };

    ghost view = { λ f. record {
      earliest = f.earliest;
      origin = f.origin;
      shown = f.shown;
      earlier = f.earlier;
      ticked = f.ticked;
      marking = f.marking;
      maps = f.maps.items;
      streams = f.streams.items;
      fallen = f.fallen;
    } };

    ghost invariant = { λ f. IsOrigin f.origin × (f.ticked ≤ 2 ^ 52) };
}

/// Appends a unit or a report, if there is one.
pub(crate) fn push_fed(
    fed: &mut Vec<(u8, Result<Unit, FeedFault>)>,
    one: Option<(u8, Result<Unit, FeedFault>)>,
) -> Result<(), AllocError>
    ensures { OnOk result (fed.new.items ≡ fed.old.items ++ option_to_list one) }
{
    let Some(one) = one else {
        return Ok(());
    };
    fed.push(one)?;
    Ok(())
}

// Returns the report on a map that changes, if one changes.
#[tactic(auto, unfolding(fed_streams::specs::Feeding::map_fed))]
fn reported_map(change: Option<NewMap>) -> Option<(u8, Result<Unit, FeedFault>)>
    ensures { result ≡ spec.map_fed change }
{
    match change {
        None => None,
        Some(change) => Some((NO_STREAM, Err(FeedFault::Map(change)))),
    }
}

// Returns the report on a description of another stream.
#[tactic(auto, unfolding(fed_streams::specs::Feeding::other_fed))]
fn reported_other(other: Option<OtherStream>) -> Option<(u8, Result<Unit, FeedFault>)>
    ensures { result ≡ spec.other_fed other }
{
    match other {
        None => None,
        Some(other) => Some((NO_STREAM, Err(FeedFault::Other(other)))),
    }
}

// What a finding of no PID says of a packet, or of the end of the stream.
#[tactic(auto, unfolding(fed_streams::specs::Feeding::packet_fault, fed_streams::specs::Feeding::packet_fault_of))]
fn packet_fault(finding: &Finding<'_>) -> Option<PacketFault>
    ensures { result ≡ spec.packet_fault (finding_view finding.now) }
{
    if finding.pid.is_some() {
        return None;
    }
    match &finding.what {
        What::BadPacket(_) => Some(PacketFault::Bad(finding.packet)),
        What::Errored => Some(PacketFault::Errored(finding.packet)),
        What::Truncated(part) => Some(PacketFault::Rest(part.bytes().len())),
        _ => None,
    }
}

// Returns the report on a packet, if it is not read.
#[tactic(auto, unfolding(fed_streams::specs::Feeding::packet_fed))]
fn reported_packet(fault: Option<PacketFault>) -> Option<(u8, Result<Unit, FeedFault>)>
    ensures { result ≡ spec.packet_fed fault }
{
    match fault {
        None => None,
        Some(fault) => Some((NO_STREAM, Err(FeedFault::Packet(fault)))),
    }
}

// Returns the report on a restart, if there is one.
#[tactic(auto, unfolding(fed_streams::specs::Feeding::restart_fed))]
fn reported_restart(restart: Option<Restart>) -> Option<(u8, Result<Unit, FeedFault>)>
    ensures { result ≡ spec.restart_fed restart }
{
    match restart {
        None => None,
        Some(restart) => Some((NO_STREAM, Err(FeedFault::Restarted(restart)))),
    }
}

// Returns the greatest DTS so far, if the clock is known.
#[tactic(auto, unfolding(fed_streams::specs::Feeding::greatest_if))]
fn greatest_if(shown: Option<u64>, greatest: u64) -> Option<u64>
    requires { greatest ≤ 2 ^ 52 }
    ensures value { result ≡ spec.greatest_if shown greatest }
    ensures bound { IfSome result (λ greatest. greatest ≤ 2 ^ 52) }
{
    match shown {
        None => None,
        Some(_) => Some(greatest),
    }
}

impl UnitFeed {
    /// Returns the programs' maps and the streams of a description before the first packet, each stream with its number
    /// and its own PID; the first unit is due at `earliest`. The clock is the first program's clock. Findings of a
    /// stream are marked by `marking` before they are fed.
    pub fn new(
        earliest: u64,
        marking: Marking,
        maps: Vec<FedMap>,
        streams: Vec<FedStream>,
    ) -> UnitFeed
        ensures { result ≡ spec.feed_first earliest marking maps.items streams.items }
    {
        UnitFeed {
            earliest,
            origin: Origin::new(),
            shown: None,
            earlier: None,
            ticked: 0,
            marking,
            maps,
            streams,
            fallen: None,
        }
    }

    /// Marks the findings of the streams, before they are taken.
    pub(crate) fn mark(&self, findings: &mut [Finding<'_>])
        ensures { map finding_view findings.new ≡ all_marked self.now.marking (map finding_view findings.old) }
    {
        self.marking.mark_all(findings);
    }

    /// Returns the PIDs of the streams.
    pub(crate) fn pids(&self, alloc: &Global) -> Result<Vec<u16>, AllocError>
        ensures { IfOk result (λ pids. pids.items ≡ stream_pids self.now) }
    {
        pids_of(*alloc, &self.streams)
    }

    /// Returns the greatest DTS of units that were fed and of ticks.
    pub(crate) fn greatest(&self) -> u64
        ensures value { result ≡ spec.greatest_of self.now }
        ensures bound { result ≤ 2 ^ 52 }
    {
        greatest_of(self.ticked, &self.streams)
    }

    /// Returns when units may be due.
    pub(crate) fn due(&self) -> Due
        ensures value { result ≡ spec.due_of self.now }
        ensures bound { IfSome result.greatest (λ greatest. greatest ≤ 2 ^ 52) }
    {
        Due {
            earliest: self.earliest,
            greatest: greatest_if(self.shown, self.greatest()),
        }
    }

    // Takes a finding for the stream with its PID, and returns which unit it makes whole.
    fn take_unit(
        &mut self,
        alloc: &Global,
        finding: &Finding<'_>,
        fed: &mut Vec<(u8, Result<Unit, FeedFault>)>,
    ) -> Result<Seen, AllocError>
        ensures seen { IfOk result (λ seen. seen ≡ spec.seen_in self.old (finding_view finding.now)) }
        ensures feed { OnOk result (self.new ≡ spec.after_unit self.old (finding_view finding.now)) }
        ensures fed { OnOk result (fed.new.items ≡ fed.old.items ++ spec.fed_unit self.old (finding_view finding.now)) }
    {
        let Some(k) = place_of(finding.pid, &self.streams) else {
            return Ok(Seen::NoUnit);
        };
        let due = self.due();
        let found = take_at(&mut self.streams, k, alloc, due, &mut self.origin, finding)?;
        let seen = seen_of(self.shown, found.start, &found.unit);
        push_fed(fed, found.unit)?;
        push_fed(fed, found.reported)?;
        Ok(seen)
    }

    // Continues from a unit that shows that an encoder restarts, if it does.
    fn restart(
        &mut self,
        seen: Seen,
        fed: &mut Vec<(u8, Result<Unit, FeedFault>)>,
    ) -> Result<(), AllocError>
        ensures feed { OnOk result (self.new ≡ spec.restarted self.old seen) }
        ensures fed { OnOk result (fed.new.items ≡ fed.old.items
            ++ option_to_list (spec.restart_fed (spec.restart_in self.old seen))) }
    {
        let restart = restart_of(self.greatest(), self.fallen, seen);
        push_fed(fed, reported_restart(restart))?;
        self.origin = origin_by(self.origin, restart);
        self.fallen = fallen_after(self.fallen, seen);
        Ok(())
    }

    // Takes a finding for the stream with its PID, and continues from a restart that it shows.
    fn take_found(
        &mut self,
        alloc: &Global,
        finding: &Finding<'_>,
        fed: &mut Vec<(u8, Result<Unit, FeedFault>)>,
    ) -> Result<(), AllocError>
        ensures feed { OnOk result (self.new ≡ spec.after_found_in self.old (finding_view finding.now)) }
        ensures fed { OnOk result (fed.new.items
            ≡ fed.old.items ++ spec.fed_found self.old (finding_view finding.now)) }
    {
        let seen = self.take_unit(alloc, finding, fed)?;
        self.restart(seen, fed)
    }

    /// Takes a finding; the unit that it makes whole goes to `fed`, at its moment with the number of its stream, or why
    /// it can't have one, and so does a loss of packets of a stream, a cut of its units, the new version of a map, a
    /// packet that is not read, or a restart.
    ///
    /// After an `AllocError` drop the feed and `fed`: nothing is promised of their contents.
    pub fn take(
        &mut self,
        alloc: &Global,
        finding: &Finding<'_>,
        fed: &mut Vec<(u8, Result<Unit, FeedFault>)>,
    ) -> Result<(), AllocError>
        ensures feed { OnOk result (self.new ≡ spec.after_one self.old (finding_view finding.now)) }
        ensures fed { OnOk result (fed.new.items ≡ fed.old.items ++ spec.fed_one self.old (finding_view finding.now)) }
    {
        push_fed(fed, reported_other(other_stream(&self.maps, finding)))?;
        let change = watch(&mut self.maps, finding);
        push_fed(fed, reported_map(change))?;
        push_fed(fed, reported_packet(packet_fault(finding)))?;
        self.take_found(alloc, finding, fed)
    }

    /// Takes findings, one after another.
    ///
    /// After an `AllocError` drop the feed and `fed`: nothing is promised of their contents.
    pub fn take_all(
        &mut self,
        alloc: &Global,
        findings: &[Finding<'_>],
        fed: &mut Vec<(u8, Result<Unit, FeedFault>)>,
    ) -> Result<(), AllocError>
        ensures feed { OnOk result (self.new ≡ spec.after_all self.old (map finding_view findings.now)) }
        ensures fed { OnOk result (fed.new.items
            ≡ fed.old.items ++ spec.fed_all self.old (map finding_view findings.now)) }
    {
        for finding in findings {
            self.take(alloc, finding, fed)?;
        }
        Ok(())
    }

    /// Ends the findings: feeds the last unit of each stream, in the order of the streams.
    ///
    /// After an `AllocError` drop `fed`: nothing is promised of its contents.
    pub fn finish(self, fed: &mut Vec<(u8, Result<Unit, FeedFault>)>) -> Result<(), AllocError>
        ensures { OnOk result (fed.new.items ≡ fed.old.items ++ spec.fed_ends self) }
    {
        let due = self.due();
        let mut origin = self.origin;
        let mut left = VecDeque::from(self.streams);
        'streams: while let Some(stream) = left.pop_front() {
            push_fed(fed, stream.finish(due, &mut origin))?;
        }
        Ok(())
    }
}
