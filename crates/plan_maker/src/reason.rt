//! Why no plan at all can serve a description.

pub mod limits;
pub mod load;
pub mod streams;

ghost use Rattle.std.specs.Prelude.{◌≡◌, ◌++◌, ◌<◌, IfOk, OnOk};
ghost use Rattle.std.specs.Option.{option_to_list};
ghost use Rattle.description_parts.specs.Ranges.{IsStream};
ghost use Rattle.plan_maker.specs.Reasons.{stream_reason, pcr_reasons, table_reasons, stream_reasons};
ghost use Rattle.plan_maker.specs.Reasons.{reasons_of, ReasonLaw};

use limits::{pcr_reason, table_reason};
use load::load_reason;
use slot_plan::{Description, StreamDescription};
use std::alloc::{AllocError, Allocator};
use streams::{drain_reason, lead_reason, leak_reason, main_reason};

/// A number of the description that no plan can keep, with the least number that is no longer a reason. There may be
/// more reasons, and a plan may need a greater number.
#[derive(Clone, Copy)]
pub enum Reason {
    /// The PCR limit of a program is shorter than a slot: the least limit in ms.
    PcrLimit(u8, u64),
    /// The limit of a table is shorter than the slots of a round of its sections: the least limit in ms.
    TableLimit(u8, u64),
    /// The transport buffer of a stream is drained slower than its units arrive: the least rate in bits/s.
    SlowDrain(u8, u64),
    /// The multiplexing buffer of a stream leaks slower than its units arrive: the least rate of the leak in bits/s.
    SlowLeak(u8, u64),
    /// The lead of a stream is too short for its units to arrive and to leave the transport buffer: the least lead in
    /// units of 90 kHz.
    ShortLead(u8, u64),
    /// The main buffer of a stream holds less than the bytes that arrive within its lead: the least size in bytes.
    SmallMain(u8, u64),
    /// The items together ask for more slots than there are: the least rate of the output in bits/s, None if no rate
    /// that a description can have is enough.
    Overload(Option<u64>),
}

/// States that no plan serves a description that has any of these reasons.
pub fn no_plan_serves()
    ensures { ReasonLaw }
{}

/// Returns each reason of these kinds why no plan serves the description: programs, tables, streams, each by number,
/// and then the items together. None does not say that there is a plan.
pub fn reasons<A: Allocator>(
    alloc: A,
    description: &Description,
) -> Result<Vec<Reason, A>, AllocError>
    ensures reasons { IfOk result (λ reasons. reasons.items ≡ reasons_of description.now) }
{
    let mut reasons = Vec::new(alloc);
    push_pcrs(&mut reasons, description)?;
    push_tables(&mut reasons, description)?;
    push_streams(&mut reasons, description)?;
    push(&mut reasons, load_reason(description))?;
    Ok(reasons)
}

/// Appends a reason, if there is one.
fn push<A: Allocator>(
    reasons: &mut Vec<Reason, A>,
    reason: Option<Reason>,
) -> Result<(), AllocError>
    ensures { OnOk result (reasons.new.items ≡ reasons.old.items ++ option_to_list reason) }
{
    if let Some(reason) = reason {
        reasons.push(reason)?;
    }
    Ok(())
}

/// Appends the reasons of the programs' PCRs.
fn push_pcrs<A: Allocator>(
    reasons: &mut Vec<Reason, A>,
    description: &Description,
) -> Result<(), AllocError>
    ensures { OnOk result (reasons.new.items ≡ reasons.old.items ++ pcr_reasons description.now) }
{
    for (i, program) in description.programs().iter().enumerate() {
        push(reasons, pcr_reason(description, i, program))?;
    }
    Ok(())
}

/// Appends the reasons of the tables.
fn push_tables<A: Allocator>(
    reasons: &mut Vec<Reason, A>,
    description: &Description,
) -> Result<(), AllocError>
    ensures { OnOk result (reasons.new.items ≡ reasons.old.items ++ table_reasons description.now) }
{
    for t in 0..description.tables() {
        push(reasons, table_reason(description, t))?;
    }
    Ok(())
}

/// Appends the reasons of stream number `i`.
fn push_stream<A: Allocator>(
    reasons: &mut Vec<Reason, A>,
    description: &Description,
    i: usize,
    stream: &StreamDescription,
) -> Result<(), AllocError>
    requires small { i < 256 }
    requires ranges { IsStream stream.now }
    ensures { OnOk result (reasons.new.items ≡ reasons.old.items ++ stream_reason description.now i stream.now) }
{
    push(reasons, drain_reason(i, stream))?;
    push(reasons, leak_reason(i, stream))?;
    push(reasons, lead_reason(description, i, stream))?;
    push(reasons, main_reason(description, i, stream))
}

/// Appends the reasons of all streams.
fn push_streams<A: Allocator>(
    reasons: &mut Vec<Reason, A>,
    description: &Description,
) -> Result<(), AllocError>
    ensures { OnOk result (reasons.new.items ≡ reasons.old.items ++ stream_reasons description.now) }
{
    for (i, stream) in description.streams().iter().enumerate() {
        push_stream(reasons, description, i, stream)?;
    }
    Ok(())
}
