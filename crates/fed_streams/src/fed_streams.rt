//! The streams of a description, one among them.

ghost use Rattle.std.specs.Prelude.{◌≡◌, ◌<◌, ◌≤◌, ◌^◌, IfOk, IfSome, OnOk, Some, false, length, map, slice_get};
ghost use Rattle.std.specs.Prelude.{slice_set};
ghost use Rattle.pid_findings.specs.Shown.{finding_view};
ghost use Rattle.es_units.specs.UnitSteps.{ended_unit, start_of};
ghost use Rattle.fed_streams.specs.Feeding as spec;
ghost use Rattle.fed_streams.specs.Origins.{IsOrigin};
ghost use Rattle.fed_streams.specs.Ticks as ticks;

use crate::due::Due;
use crate::fed_stream::{FedFound, FedStream};
use crate::feed_fault::FeedFault;
use crate::origin::Origin;
use pes_packet::Unit;
use pid_findings::Finding;
use std::alloc::{AllocError, Global};

/// Returns the first stream of a PID.
pub fn place_of(pid: Option<u16>, streams: &[FedStream]) -> Option<usize>
    ensures value { result ≡ spec.place_from pid 0 streams.now }
    ensures bound { IfSome result (λ k. k < length streams.now) }
{
    for (k, stream) in streams.iter().enumerate() {
        if stream.is_of(pid) {
            return Some(k);
        }
    }
    None
}

/// Returns the PIDs of the streams.
pub fn pids_of(alloc: Global, streams: &[FedStream]) -> Result<Vec<u16>, AllocError>
    ensures { IfOk result (λ pids. pids.items ≡ map (λ s. s.units.pid) streams.now) }
{
    streams.iter().map(|stream| stream.pid()).collect(alloc)
}

/// Returns the greatest DTS of units that were fed and of ticks.
pub fn greatest_of(ticked: u64, streams: &[FedStream]) -> u64
    requires { ticked ≤ 2 ^ 52 }
    ensures value { result ≡ spec.greatest_from ticked streams.now }
    ensures bound { result ≤ 2 ^ 52 }
{
    let mut greatest = ticked;
    for stream in streams {
        greatest = greatest.max(stream.last_dts());
    }
    greatest
}

/// Returns the first stream whose unfinished unit is due by a moment.
pub fn passed_place(origin: Origin, late: u64, streams: &[FedStream]) -> Option<usize>
    requires { IsOrigin origin }
    ensures value { result ≡ ticks.passed_from origin late 0 streams.now }
    ensures bound { IfSome result (λ k. k < length streams.now) }
{
    for (k, stream) in streams.iter().enumerate() {
        if stream.is_passed(origin, late) {
            return Some(k);
        }
    }
    None
}

/// Has the stream at a place take a finding.
pub fn take_at(
    streams: &mut Vec<FedStream>,
    k: usize,
    alloc: &Global,
    due: Due,
    origin: &mut Origin,
    finding: &Finding<'_>,
) -> Result<FedFound, AllocError>
    requires there { k < length streams.old.items }
    requires due { IfSome due.greatest (λ greatest. greatest ≤ 2 ^ 52) }
    requires origin { IsOrigin origin.old }
    ensures fed { (s : spec.FedStreamView) → slice_get streams.old.items k ≡ Some s → IfOk result (λ fed. fed.unit
        ≡ spec.fed_by due origin.old s (spec.whole_by s (finding_view finding.now))) }
    ensures start { (s : spec.FedStreamView) → slice_get streams.old.items k ≡ Some s →
        IfOk result (λ fed. fed.start ≡ start_of (spec.whole_by s (finding_view finding.now))) }
    ensures reported { (s : spec.FedStreamView) → slice_get streams.old.items k ≡ Some s →
        IfOk result (λ fed. fed.reported ≡ spec.reported_fed s (finding_view finding.now)) }
    ensures streams { (s : spec.FedStreamView) → slice_get streams.old.items k ≡ Some s →
        OnOk result (streams.new.items ≡ slice_set streams.old.items k (spec.stream_with due origin.old
        (spec.after_found s (finding_view finding.now)) (spec.whole_by s (finding_view finding.now)))) }
    ensures origin { (s : spec.FedStreamView) → slice_get streams.old.items k ≡ Some s →
        OnOk result (origin.new ≡ spec.origin_after due origin.old (spec.whole_by s (finding_view finding.now))) }
    ensures bound { IsOrigin origin.new }
{
    let stream = &mut streams[k];
    stream.take(alloc, due, origin, finding)
}

/// Ends the unfinished unit of the stream at a place.
pub fn end_at(
    streams: &mut Vec<FedStream>,
    k: usize,
    due: Due,
    origin: &mut Origin,
) -> Option<(u8, Result<Unit, FeedFault>)>
    requires there { k < length streams.old.items }
    requires due { IfSome due.greatest (λ greatest. greatest ≤ 2 ^ 52) }
    requires origin { IsOrigin origin.old }
    ensures fed { (s : spec.FedStreamView) → slice_get streams.old.items k ≡ Some s →
        result ≡ spec.fed_by due origin.old s (ended_unit false s.units.unit) }
    ensures streams { (s : spec.FedStreamView) → slice_get streams.old.items k ≡ Some s →
        streams.new.items ≡ slice_set streams.old.items k (spec.stream_with due origin.old
        (ticks.without_unit s) (ended_unit false s.units.unit)) }
    ensures origin { (s : spec.FedStreamView) → slice_get streams.old.items k ≡ Some s →
        origin.new ≡ spec.origin_after due origin.old (ended_unit false s.units.unit) }
    ensures bound { IsOrigin origin.new }
{
    let stream = &mut streams[k];
    stream.end(due, origin)
}
