//! The units of all streams in one list.

ghost use Rattle.std.specs.Prelude.{◌≡◌, ◌≤◌, ◌<◌, IfOk, IfSome, IfNone, [], None, Some, length, map, slice_get};
ghost use Rattle.es_moments.specs.Merging as spec;

use pes_packet::Unit;
use std::alloc::{AllocError, Allocator};
use std::collections::VecDeque;

// Returns when the next unit of a stream is due.
#[tactic(auto, unfolding(crate::specs::Merging::head_dts))]
fn next_dts<A: Allocator>(queue: &VecDeque<Unit<A>, A>) -> Option<u64>
    ensures { result ≡ spec.head_dts queue.now.items }
{
    match queue.front() {
        Some(unit) => Some(unit.dts),
        None => None,
    }
}

// Returns the earlier of a stream's next unit and the unit found before.
#[tactic(auto, unfolding(crate::specs::Merging::earlier))]
fn earlier(best: Option<(usize, u64)>, k: usize, dts: Option<u64>) -> Option<(usize, u64)>
    ensures { result ≡ spec.earlier best k dts }
{
    let Some(dts) = dts else {
        return best;
    };
    match best {
        None => Some((k, dts)),
        Some((at, least)) => {
            if dts < least {
                Some((k, dts))
            } else {
                Some((at, least))
            }
        }
    }
}

// Returns when the next unit of each stream is due.
fn heads_of<A: Allocator>(
    alloc: A,
    queues: &[VecDeque<Unit<A>, A>],
) -> Result<Vec<Option<u64>, A>, AllocError>
    ensures { IfOk result (λ heads. heads.items ≡ map (λ q. spec.head_dts q.items) queues.now) }
{
    queues.iter().map(|queue| next_dts(queue)).collect(alloc)
}

// Returns the stream whose next unit is due first, the first stream if several are; none if no stream has a unit left.
fn next_stream(heads: &[Option<u64>]) -> Option<(usize, u64)>
    ensures { result ≡ spec.next_head 0 None heads.now }
{
    let mut best = None;
    for (k, dts) in heads.iter().enumerate() {
        best = earlier(best, k, *dts);
    }
    best
}

// Takes the next unit of a stream.
fn take_next<A: Allocator>(queues: &mut Vec<VecDeque<Unit<A>, A>, A>, k: usize) -> Option<Unit<A>>
    requires { k < length queues.old.items }
    ensures some { IfSome result (λ u.
        spec.TakesNext (map (λ q. q.items) queues.old.items) (map (λ q. q.items) queues.new.items) k u) }
    ensures none { IfNone result (slice_get (map (λ q. q.items) queues.old.items) k ≡ Some []) }
{
    queues[k].pop_front()
}

/// Returns the units of up to 256 streams by their DTS, units of equal DTS in the order of the streams, each with
/// the number of its stream. A unit waits for the units before it in its stream, whatever their DTS.
pub fn merged<A: Allocator + Clone>(
    alloc: A,
    streams: Vec<VecDeque<Unit<A>, A>, A>,
) -> Result<Vec<(u8, Unit<A>), A>, AllocError>
    requires { length streams.items ≤ 256 }
    ensures { IfOk result (λ units. spec.AreMerged (map (λ s. s.items) streams.items) units.items) }
{
    let mut queues = streams;
    let mut heads = heads_of(alloc.clone()?, &queues)?;
    let mut units = Vec::new(alloc);
    'units: while let Some((k, _)) = next_stream(&heads) {
        if let Some(unit) = take_next(&mut queues, k) {
            heads[k] = next_dts(&queues[k]);
            units.push((k as u8, unit))?;
        }
    }
    Ok(units)
}
