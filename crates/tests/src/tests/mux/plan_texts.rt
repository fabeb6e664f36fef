//! The limits of plans, the text of the greatest, and the slots that items own.

use slot_plan::{
    Certificate, Item, Plan, PlanError, PlanTextError, ProgramEntry, Slot, StreamEntry, laws,
};
use std::alloc::Global;

/// How many bytes of the text are read, and the slots, streams and programs of the plan.
type Shape = (usize, usize, usize, usize);

/// Returns whether this is the plan's text.
fn is_text(alloc: Global, plan: &Plan, text: &[u8]) -> bool {
    match plan.write_text(alloc) {
        Ok(written) => written.as_bytes() == text,
        Err(_) => false,
    }
}

fn shape_of(plan: &Plan, bytes: usize) -> Shape {
    let certificate = plan.certificate();
    let (streams, programs) = (&certificate.streams, &certificate.programs);
    (bytes, plan.slots().len(), streams.len(), programs.len())
}

/// Returns the numbers of the text, or the line that is refused; None when out of memory, or if the plan has another
/// text.
fn reading(alloc: Global, text: &[u8]) -> Option<Result<Shape, u32>> {
    match Plan::read_text(alloc, text) {
        Ok((plan, bytes)) => {
            let is_text = is_text(alloc, &plan, text.get(..bytes).unwrap_or(&[]));
            let shape = shape_of(&plan, bytes);
            drop(plan);
            if is_text { Some(Ok(shape)) } else { None }
        }
        Err(PlanTextError::Line(line)) => Some(Err(line)),
        Err(PlanTextError::Memory) => None,
    }
}

/// Returns a certificate whose entries have this number.
fn certificate(alloc: Global, streams: usize, programs: usize, number: u64) -> Option<Certificate> {
    let stream = StreamEntry {
        spread: 0,
        start: 0,
        peak: number,
        multiplexing: None,
    };
    let program = ProgramEntry {
        transport_start: 0,
        transport_peak: 0,
        system_start: 0,
        system_peak: number,
    };
    let streams = vec![in alloc; stream; streams].ok()?;
    let programs = vec![in alloc; program; programs].ok()?;
    Some(Certificate { streams, programs })
}

/// A number that no entry may reach.
const END: u64 = 1_000_000_000_000_000_000;

/// A slot, how often it comes, streams, programs and a number in their entries, and why there is no such plan.
type Limit = (Slot, usize, usize, usize, u64, Option<PlanError>);

/// The first three are greatest plans.
static LIMITS: [Limit; 8] = [
    (Slot::Null, 99_999, 256, 256, END - 1, None),
    (Slot::Stream(255), 99_999, 256, 256, END - 1, None),
    (Slot::Table(255), 99_999, 256, 256, END - 1, None),
    (Slot::Null, 100_000, 257, 256, END, Some(PlanError::Slots)),
    (Slot::Null, 1, 257, 0, END, Some(PlanError::Entries)),
    (Slot::Null, 1, 0, 257, 0, Some(PlanError::Entries)),
    (Slot::Null, 1, 1, 0, END, Some(PlanError::Number)),
    (Slot::Null, 1, 0, 1, END, Some(PlanError::Number)),
];

/// Returns the text of such a plan, or why there is none.
fn written(
    alloc: Global,
    made: Result<Plan, (PlanError, Vec<Slot>, Certificate)>,
) -> Option<Result<String, PlanError>> {
    match made {
        Ok(plan) => {
            let text = plan.write_text(alloc);
            drop(plan);
            match text {
                Ok(text) => Some(Ok(text)),
                Err(_) => None,
            }
        }
        Err((error, slots, certificate)) => {
            drop(slots);
            drop(certificate);
            Some(Err(error))
        }
    }
}

/// Returns whether there is such a plan, whose text is read again, or this error.
fn is_limit(alloc: Global, row: &Limit) -> Option<bool> {
    let (slot, count, streams, programs, number, wanted) = *row;
    let slots = vec![in alloc; slot; count].ok()?;
    let certificate = certificate(alloc, streams, programs, number)?;
    match written(alloc, Plan::new(slots, certificate))? {
        Ok(text) => {
            let shape = (text.as_bytes().len(), count, streams, programs);
            Some(wanted == None && reading(alloc, text.as_bytes()) == Some(Ok(shape)))
        }
        Err(error) => Some(wanted == Some(error)),
    }
}

#[test]
fn limits_of_plans(rt: HostRuntime) {
    for row in &LIMITS {
        assert!(rt; is_limit(rt.alloc(), row) == Some(true));
    }
}

/// Items and slots, and whether the slot is the item's own.
static OWNERS: [(Item, Slot, bool); 8] = [
    (Item::Stream(3), Slot::Stream(3), true),
    (Item::Stream(3), Slot::Pcr(3), false),
    (Item::Pcr(3), Slot::Pcr(3), true),
    (Item::Table(3), Slot::Table(3), true),
    (Item::System(2), Slot::Table(0), true),
    (Item::System(2), Slot::Table(3), true),
    (Item::System(2), Slot::Table(2), false),
    (Item::System(2), Slot::Null, false),
];

#[test]
fn owners(rt: HostRuntime) {
    for (item, slot, wanted) in &OWNERS {
        assert!(rt; item.owns(*slot) == *wanted);
    }
    laws::plan_text();
    laws::own_slots();
}
