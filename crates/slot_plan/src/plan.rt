//! A plan: the slots of one period and their certificate.

ghost use Rattle.std.specs.Prelude.{◌≡◌, IfOk, IfErr, None, option_map, string_bytes};
ghost use Rattle.std.specs.List.{list_all};
ghost use Rattle.slot_plan.specs.Links.{AreLinks};
ghost use Rattle.slot_plan.specs.Text.{plan_text};
ghost use Rattle.slot_plan.specs.PlanTexts.{BeginsWithPlan, Refuses};
ghost use Rattle.slot_plan.specs.Refusals.{plan_refusal};
ghost use Rattle.slot_plan.specs.Planned.{plan_error, has_small_numbers, is_small_stream, is_small_program};
ghost use Rattle.slot_plan.specs.Planned.{is_small_multiplexing};

use crate::certificate::{Certificate, MAX_ENTRIES, MultiplexingEntry, ProgramEntry, StreamEntry};
use crate::links::links_of;
use crate::reader::{PlanTextError, plan_at};
use crate::slot::{MAX_SLOTS, Slot};
use crate::text::{write_head, write_programs, write_slots, write_streams};
use crate::words::NUMBER_LIMIT;
use std::alloc::{AllocError, Allocator, Global};
use std::marker::Model;
use thiserror::Error;

/// Why slots and certificate make no plan. The first that holds is given.
#[derive(Clone, Copy, Debug, PartialEq, Eq, Error)]
pub enum PlanError {
    #[error("more than 99,999 slots")]
    Slots,
    #[error("more than 256 entries of a kind")]
    Entries,
    #[error("a number of 10^18 or more")]
    Number,
}

/// The slots of one period, with their claims for the buffers: at most 99,999 slots, at most 256 entries of a kind, each
/// number below 10^18. Whether the claims hold is for the plan checker to say, which is faster with links between slots.
#[derive(Drop)]
pub struct Plan<A: Allocator = Global> {
    slots: Vec<Slot, A>,
    certificate: Certificate<A>,
    links: Option<Vec<u32, A>>,
}

impl<A: Allocator> Model for Plan<A> {
    ghost use Rattle.std.specs.Prelude.{◌≡◌, None, option_map};
    ghost use Rattle.slot_plan.specs.Links.{AreLinks};
    ghost use Rattle.slot_plan.specs.Planned.{Planned, plan_error};

    ghost Value = { Planned };

    ghost view = { λ p. record { slots = p.slots.items; certificate = p.certificate } };

    ghost invariant = { λ p. (plan_error p.slots.items p.certificate ≡ None)
        × AreLinks p.slots.items (option_map (λ links. links.items) p.links) };
}

impl<A: Allocator> Plan<A> {
    /// Returns a plan of these slots with this certificate, or the reason against it.
    pub fn new(
        slots: Vec<Slot, A>,
        certificate: Certificate<A>,
    ) -> Result<Plan<A>, (PlanError, Vec<Slot, A>, Certificate<A>)>
        ensures refusal { plan_refusal result ≡ plan_error slots.items certificate }
        ensures made { IfOk result (λ p. p ≡ record { slots = slots.items; certificate = certificate }) }
        ensures handed_back { IfErr result (λ e. (e.1 ≡ slots) × (e.2 ≡ certificate)) }
    {
        match error_of(&slots, &certificate) {
            Some(error) => Err((error, slots, certificate)),
            None => Ok(Plan {
                slots,
                certificate,
                links: None,
            }),
        }
    }

    /// Returns the same plan, with these links of its slots.
    pub fn linked(self, links: Option<Vec<u32, A>>) -> Plan<A>
        requires { AreLinks self.slots (option_map (λ links. links.items) links) }
        ensures { result ≡ self }
    {
        let Plan {
            slots,
            certificate,
            links: _,
        } = self;
        Plan {
            slots,
            certificate,
            links,
        }
    }

    /// Returns the slots of the period, in order.
    pub fn slots(&self) -> &[Slot]
        ensures slots { result.now ≡ self.now.slots }
        ensures within { plan_error self.now.slots self.now.certificate ≡ None }
    {
        self.slots.as_slice()
    }

    /// Returns the links of the slots, from the last slot to the first, if there are any.
    pub fn links(&self) -> Option<&[u32]>
        ensures { AreLinks self.now.slots (option_map (λ links. links.now) result) }
    {
        match &self.links {
            None => None,
            Some(links) => Some(links.as_slice()),
        }
    }

    /// Returns the plan's claims for its buffers.
    pub fn certificate(&self) -> &Certificate<A>
        ensures certificate { result.now ≡ self.now.certificate }
        ensures within { plan_error self.now.slots self.now.certificate ≡ None }
    {
        &self.certificate
    }

    /// Returns the plan's one text.
    pub fn write_text<B: Allocator>(&self, alloc: B) -> Result<String<B>, AllocError>
        ensures { IfOk result (λ text. string_bytes text ≡ plan_text self.now) }
    {
        let mut text = String::new(alloc);
        write_head(&mut text, self.slots.len())?;
        write_slots(&mut text, &self.slots)?;
        write_streams(&mut text, &self.certificate.streams)?;
        write_programs(&mut text, &self.certificate.programs)?;
        text.push_str("end\n")?;
        Ok(text)
    }
}

impl<A: Allocator + Clone> Plan<A> {
    /// Returns the plan whose text is at the front, and the number of bytes of its text; later bytes are ignored.
    /// Otherwise returns the number of the first wrong line, from 1; if the text ends too soon, the number of the line
    /// that is missing or cut.
    pub fn read_text(alloc: A, text: &[u8]) -> Result<(Plan<A>, usize), PlanTextError>
        ensures read { IfOk result (λ read. BeginsWithPlan text.now read.0 read.1) }
        ensures refused { IfErr result (Refuses text.now) }
    {
        let Ok(second) = alloc.clone() else {
            return Err(PlanTextError::Memory);
        };
        let (slots, certificate, rest) = plan_at(alloc, text)?;
        let bytes = text.len() - rest.len();
        let links = links_of(second, &slots);
        let plan = Plan {
            slots,
            certificate,
            links,
        };
        Ok((plan, bytes))
    }
}

fn error_of<A: Allocator>(slots: &Vec<Slot, A>, certificate: &Certificate<A>) -> Option<PlanError>
    ensures { result ≡ plan_error slots.now.items certificate.now }
{
    if slots.len() > MAX_SLOTS as usize {
        Some(PlanError::Slots)
    } else if certificate.streams.len() > MAX_ENTRIES as usize
        || certificate.programs.len() > MAX_ENTRIES as usize
    {
        Some(PlanError::Entries)
    } else if has_small_numbers(certificate) {
        None
    } else {
        Some(PlanError::Number)
    }
}

/// Returns whether each number of the certificate is below 10^18.
fn has_small_numbers<A: Allocator>(certificate: &Certificate<A>) -> bool
    ensures { result ≡ has_small_numbers certificate.now }
{
    has_small_streams(&certificate.streams) && has_small_programs(&certificate.programs)
}

fn has_small_streams(entries: &[StreamEntry]) -> bool
    ensures { result ≡ list_all is_small_stream entries.now }
{
    entries.iter().all(|entry| is_small_stream(*entry))
}

fn has_small_programs(entries: &[ProgramEntry]) -> bool
    ensures { result ≡ list_all is_small_program entries.now }
{
    entries.iter().all(|entry| is_small_program(*entry))
}

fn is_small_stream(entry: StreamEntry) -> bool
    ensures { result ≡ is_small_stream entry }
{
    entry.spread < NUMBER_LIMIT
        && entry.start < NUMBER_LIMIT
        && entry.peak < NUMBER_LIMIT
        && is_small_multiplexing(entry.multiplexing)
}

fn is_small_multiplexing(claim: Option<MultiplexingEntry>) -> bool
    ensures { result ≡ is_small_multiplexing claim }
{
    match claim {
        None => true,
        Some(claim) => claim.start < NUMBER_LIMIT && claim.peak < NUMBER_LIMIT,
    }
}

fn is_small_program(entry: ProgramEntry) -> bool
    ensures { result ≡ is_small_program entry }
{
    entry.transport_start < NUMBER_LIMIT
        && entry.transport_peak < NUMBER_LIMIT
        && entry.system_start < NUMBER_LIMIT
        && entry.system_peak < NUMBER_LIMIT
}
