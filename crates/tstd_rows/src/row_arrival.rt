//! Bytes that arrive at the transport buffer.
ghost use Rattle.std.specs.Prelude.{◌≡◌, ℕ, ◌+◌, ◌*◌, ◌≤◌, None, true};
ghost use Rattle.clock27.specs.Departure.{departures};
ghost use Rattle.clock27.specs.Peak.{most_found};
ghost use Rattle.arrival.specs.Rows.{IsTimed, times_of};
ghost use Rattle.tstd_rows.specs.Buffers.{IsPaced, LeaveSoon, entered, times_left};
ghost use Rattle.tstd_rows.specs.Arriving.{CanArrive, HaveArrived};

use crate::excess::{Excess, ExcessWatch};
use crate::leaving::{Leaving, finds_empty};
use crate::transport_buffer::TransportBuffer;
use arrival::Row;

/// What arriving bytes find, and how they leave.
#[derive(Clone, Copy)]
pub(crate) struct Arrived {
    pub most: u128,
    pub leaving: Leaving,
}

// Ends the current excess, if any. A call of its own: few rows end an excess.
#[inline(never)]
fn end_excess(watch: &mut ExcessWatch, ended: &mut Option<Excess>)
    ensures ended { ended.new ≡ watch.old.under_way }
    ensures under_way { watch.new.under_way ≡ None }
    ensures size { watch.new.size ≡ watch.old.size }
{
    *ended = watch.under_way.take();
}

// Writes the excess that has ended, if a byte may find too many. A call of its own: few rows have such a byte.
#[inline(never)]
fn see_over(
    watch: &mut ExcessWatch,
    buffer: &TransportBuffer,
    row: &Row,
    ended: &mut Option<Excess>,
)
    requires { CanArrive buffer.now watch.old row.now }
    ensures { HaveArrived buffer.now (times_of row.now) watch.old watch.new ended.new }
{
    *ended = watch.enter(buffer, row);
}

// Writes the excess that has ended into `ended`, which must be empty; `most` is the most bytes that a byte finds. If
// no byte finds too many and there is no current excess, nothing is written.
#[inline(always)]
fn see(
    watch: &mut ExcessWatch,
    buffer: &TransportBuffer,
    row: &Row,
    most: u128,
    ended: &mut Option<Excess>,
)
    requires can { CanArrive buffer.now watch.old row.now }
    requires most { most ≡ most_found buffer.now.step buffer.now.last (times_of row.now) }
    requires none { ended.old ≡ None }
    ensures { HaveArrived buffer.now (times_of row.now) watch.old watch.new ended.new }
{
    if most <= u128::from(watch.size) {
        if watch.under_way.is_some() {
            end_excess(watch, ended);
        }
        return;
    }
    // Copies, made here alone: so both stay out of memory where they are not needed.
    let (buffer, row) = (*buffer, *row);
    see_over(watch, &buffer, &row, ended);
}

// Returns whether each byte of a row finds the buffer empty, and there is no current excess.
#[inline(always)]
fn is_quiet(transport: &TransportBuffer, watch: &ExcessWatch, row: &Row) -> bool
    requires { CanArrive transport.now watch.now row.now }
    ensures slow { result ≡ true → transport.now.step * row.now.parts ≤ row.now.pace }
    ensures after { result ≡ true → (transport.now.last + 1) * row.now.parts ≤ row.now.from }
    ensures none { result ≡ true → watch.now.under_way ≡ None }
{
    watch.under_way.is_none() && finds_empty(transport.step, transport.last, row)
}

// Takes bytes that may wait in the buffer. A call of its own: its code is large, and many bytes find the buffer empty.
#[inline(never)]
fn arrive_in_turn(
    transport: &mut TransportBuffer,
    watch: &mut ExcessWatch,
    row: &Row,
    ended: &mut Option<Excess>,
) -> Arrived
    requires can { CanArrive transport.old watch.old row.now }
    requires none { ended.old ≡ None }
    ensures buffer { transport.new ≡ entered transport.old (times_of row.now) }
    ensures paced { IsPaced transport.new }
    ensures most { result.most ≡ most_found transport.old.step transport.old.last (times_of row.now) }
    ensures arrived { HaveArrived transport.old (times_of row.now) watch.old watch.new ended.new }
    ensures left { times_left result.leaving ≡ departures transport.old.step transport.old.last (times_of row.now) }
    ensures last { result.leaving.last ≡ transport.new.last }
    ensures timed { IsTimed result.leaving.waiting × IsTimed result.leaving.free }
    ensures soon { (latest : ℕ) → transport.old.last ≤ latest + transport.old.bytes * transport.old.step →
        row.now.from + row.now.bytes * row.now.pace ≤ latest * row.now.parts →
        LeaveSoon transport.new.step transport.new.bytes transport.new.last result.leaving latest }
{
    let buffer = *transport;
    transport.most = 0;
    let leaving = transport.enter(row);
    let most = transport.most;
    transport.most = buffer.most.max(most);
    see(watch, &buffer, row, most, ended);
    Arrived { most, leaving }
}

/// Takes the bytes of a row that arrive. Writes the excess that has ended into `ended`, which must be empty.
#[inline(always)]
pub(crate) fn arrive(
    transport: &mut TransportBuffer,
    watch: &mut ExcessWatch,
    row: &Row,
    ended: &mut Option<Excess>,
) -> Arrived
    requires can { CanArrive transport.old watch.old row.now }
    requires none { ended.old ≡ None }
    ensures buffer { transport.new ≡ entered transport.old (times_of row.now) }
    ensures paced { IsPaced transport.new }
    ensures most { result.most ≡ most_found transport.old.step transport.old.last (times_of row.now) }
    ensures arrived { HaveArrived transport.old (times_of row.now) watch.old watch.new ended.new }
    ensures left { times_left result.leaving ≡ departures transport.old.step transport.old.last (times_of row.now) }
    ensures last { result.leaving.last ≡ transport.new.last }
    ensures timed { IsTimed result.leaving.waiting × IsTimed result.leaving.free }
    ensures soon { (latest : ℕ) → transport.old.last ≤ latest + transport.old.bytes * transport.old.step →
        row.now.from + row.now.bytes * row.now.pace ≤ latest * row.now.parts →
        LeaveSoon transport.new.step transport.new.bytes transport.new.last result.leaving latest }
{
    if is_quiet(transport, watch, row) {
        let leaving = transport.enter_at_once(row);
        return Arrived { most: 1, leaving };
    }
    // A copy, made here alone: so the row stays out of memory where it is not needed.
    let row = *row;
    arrive_in_turn(transport, watch, &row, ended)
}
