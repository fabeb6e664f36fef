//! The units of a PID, given as they become whole.

ghost use Rattle.std.specs.Prelude.{◌≡◌, ◌∷◌, [], IfOk, IfSome, OnOk, OnErr, None, Some, true, false, option_map};
ghost use Rattle.pid_findings.specs.Shown.{finding_view, what_view};
ghost use Rattle.es_units.specs.ApartSteps as apart;
ghost use Rattle.es_units.specs.CarriedUnits as units;
ghost use Rattle.es_moments.specs.WireUnits as wireunits;
ghost use Rattle.es_units.specs.TakenUnits as taken;
ghost use Rattle.es_units.specs.TakenUnits.{OthersStay};
ghost use Rattle.es_units.specs.UnitSteps as spec;
ghost use Rattle.es_units.specs.Shown.{role_view, start_view};

use crate::apart_steps::is_same_after;
use crate::pes_role::{PesRole, UnitStart, is_on, role_of};
use es_moments::{BodyBytes, UnitBytes, WireUnit};
use pes_packet::Marks;
use pid_findings::{Finding, Part, What};
use std::alloc::{AllocError, Allocator};
use std::marker::Model;
use std::mem;

/// Takes the findings of a PID one by one, and gives each unit as soon as it is whole. It holds the bytes of the
/// current unit.
#[derive(Drop)]
pub struct UnitTaker<B: UnitBytes = Vec<u8>> {
    pid: u16,
    split: bool,
    unit: Option<WireUnit<B>>,
}

// A contract sees the state, wherever the bytes of the unit are kept.
impl<B: UnitBytes> Model for UnitTaker<B> {
    ghost use Rattle.es_units.specs.UnitSteps.{UnitsSoFar};

    ghost Value = { UnitsSoFar };

    ghost view = { λ t. record { pid = t.pid; split = t.split; unit = t.unit } };
}

// Returns the unit that starts with this PES packet.
fn started<'f, A, B: BodyBytes<'f, A>>(
    alloc: A,
    first: UnitStart<'f>,
) -> Result<WireUnit<B>, AllocError>
    ensures { IfOk result (λ u. u ≡ start_view first.entry) }
{
    let bytes = B::of_body(alloc, first.body)?;
    Ok(WireUnit {
        packet: first.packet,
        stream_id: first.stream_id,
        dts: first.dts,
        pts: first.pts,
        marks: first.marks,
        bytes,
    })
}

// Moves the body out of a PES packet; empty for any other finding.
#[tactic(auto, unfolding(crate::specs::TakenUnits::body_of))]
fn moved_body<A: Allocator>(alloc: A, what: What<'_, A>) -> Result<Vec<u8, A>, AllocError>
    ensures { IfOk result (λ bytes. bytes.items ≡ taken.body_of (what_view what.entry)) }
{
    let What::Pes { body, .. } = what else {
        return Ok(Vec::new(alloc));
    };
    match body {
        Part::Joined(bytes) => Ok(bytes),
        Part::Span(bytes) => Vec::from_slice(alloc, bytes),
    }
}

// Returns the first PES packet of a unit, if a finding is one: all but its body.
#[tactic(auto, using(crate::proofs::TakenUnits::start_body))]
fn start_in<A: Allocator>(pid: u16, finding: &Finding<'_, A>) -> Option<(u64, u8, u64, u64, Marks)>
    ensures start { IfSome result (λ s. units.role_of pid (finding_view finding.now)
        ≡ units.Start (wireunits.unit_with s.0 s.1 s.2 s.3 s.4 (taken.body_of (what_view finding.now.what)))) }
    ensures on { IfSome result (λ s. finding.now.pid ≡ Some pid) }
{
    if !is_on(pid, finding) {
        return None;
    }
    match role_of(pid, finding) {
        PesRole::Start(first) => Some((
            first.packet,
            first.stream_id,
            first.dts,
            first.pts,
            first.marks,
        )),
        _ => None,
    }
}

// Returns the unit that starts with a finding, if one does, and moves its body out of the finding.
#[tactic(auto, using(crate::proofs::TakenUnits::stay_same, crate::proofs::TakenUnits::stay_moved))]
fn moved_start<A: Allocator + Clone>(
    alloc: &A,
    pid: u16,
    finding: &mut Finding<'_, A>,
) -> Result<Option<WireUnit<Vec<u8, A>>>, AllocError>
    ensures start { IfOk result (λ unit. IfSome unit (λ u. units.role_of pid (finding_view finding.old)
        ≡ units.Start u)) }
    ensures none { IfOk result (λ unit. unit ≡ None → finding.new ≡ finding.old) }
    ensures others { OnOk result (OthersStay pid (finding_view finding.old ∷ []) (finding_view finding.new ∷ [])) }
    ensures pid { OnOk result (finding.new.pid ≡ finding.old.pid) }
{
    let Some((packet, stream_id, dts, pts, marks)) = start_in(pid, finding) else {
        return Ok(None);
    };
    let empty = alloc.clone()?;
    let what = mem::replace(&mut finding.what, What::Duplicate);
    let bytes = moved_body(empty, what)?;
    Ok(Some(WireUnit {
        packet,
        stream_id,
        dts,
        pts,
        marks,
        bytes,
    }))
}

// Returns a unit, if no part of it may be lost and it has bytes.
fn if_whole<B: UnitBytes>(lost: bool, unit: WireUnit<B>) -> Option<WireUnit<B>>
    ensures { result ≡ spec.if_whole lost unit }
{
    if lost || unit.bytes.is_empty() {
        return None;
    }
    Some(unit)
}

// Ends the current unit, and returns it if it is whole and has bytes.
#[tactic(auto, unfolding(crate::specs::UnitSteps::ended_unit))]
fn ended<B: UnitBytes>(lost: bool, unit: Option<WireUnit<B>>) -> Option<WireUnit<B>>
    ensures { result ≡ spec.ended_unit lost unit }
{
    match unit {
        None => None,
        Some(unit) => if_whole(lost, unit),
    }
}

// Appends bytes to the current unit if its stream_id is `id`, and returns whether it is.
#[tactic(auto, unfolding(crate::specs::UnitSteps::has_id, crate::specs::UnitSteps::lengthened))]
fn lengthen<B: UnitBytes>(
    unit: &mut Option<WireUnit<B>>,
    id: u8,
    body: &[u8],
) -> Result<bool, AllocError>
    ensures found { IfOk result (λ found. found ≡ spec.has_id id unit.old) }
    ensures lengthened { IfOk result (λ found. found ≡ true → unit.new ≡ spec.lengthened id body.now unit.old) }
    ensures same { IfOk result (λ found. found ≡ false → unit.new ≡ unit.old) }
    ensures err { OnErr result (unit.new ≡ unit.old) }
{
    let Some(unit) = unit else {
        return Ok(false);
    };
    if unit.stream_id != id {
        return Ok(false);
    }
    unit.bytes.append(body)?;
    Ok(true)
}

impl<B: UnitBytes> UnitTaker<B> {
    /// Returns the state before the first finding of a PID. `split`: whether its units may have several PES packets;
    /// then a loss after a unit may be a part of the unit, and the unit is left out.
    pub fn new(pid: u16, split: bool) -> UnitTaker<B>
        ensures { result ≡ spec.none_so_far pid split }
    {
        UnitTaker {
            pid,
            split,
            unit: None,
        }
    }

    /// Returns the PID.
    pub(crate) fn pid(&self) -> u16
        ensures { result ≡ self.now.pid }
    {
        self.pid
    }

    // Starts the next unit, and returns the unit that it ends.
    fn start(&mut self, next: WireUnit<B>) -> Option<WireUnit<B>>
        ensures given { result ≡ spec.ended_unit false self.old.unit }
        ensures kept { self.new ≡ record self.old { unit = Some next } }
    {
        let before = self.unit.take();
        self.unit = Some(next);
        ended(false, before)
    }

    /// Takes the role of the next finding of its PID, and gives the unit that it makes whole, if there is one.
    #[tactic(auto, unfolding(crate::specs::UnitSteps::made_whole, crate::specs::UnitSteps::goes_on_as), using(crate::proofs::UnitSteps::not_lengthened))]
    pub(crate) fn take_role<'f, A: Allocator + Clone>(
        &mut self,
        alloc: &A,
        role: PesRole<'f>,
    ) -> Result<Option<WireUnit<B>>, AllocError>
    where
        B: BodyBytes<'f, A>,
        ensures given { IfOk result (λ unit. unit
            ≡ spec.made_whole self.old.split self.old.unit (role_view role.entry)) }
        ensures kept { OnOk result (self.new ≡ record self.old {
          unit = spec.goes_on_as self.old.unit (role_view role.entry);
        }) }
        ensures err { OnErr result (self.new ≡ self.old) }
    {
        match role {
            PesRole::Ignored => Ok(None),
            PesRole::Start(first) => Ok(self.start(started(alloc.clone()?, first)?)),
            PesRole::Continuation(id, body) => {
                if lengthen(&mut self.unit, id, body)? {
                    return Ok(None);
                }
                Ok(ended(self.split, self.unit.take()))
            }
            PesRole::Interruption(_) => Ok(ended(self.split, self.unit.take())),
        }
    }

    /// Takes the next finding of a stream, and gives the unit that it makes whole, if there is one.
    #[tactic(auto, unfolding(crate::specs::UnitSteps::made_whole, crate::specs::UnitSteps::goes_on_as))]
    pub fn take<'f, A: Allocator + Clone>(
        &mut self,
        alloc: &A,
        finding: &'f Finding<'_, A>,
    ) -> Result<Option<WireUnit<B>>, AllocError>
    where
        B: BodyBytes<'f, A>,
        ensures given { IfOk result (λ unit. unit
            ≡ spec.made_whole self.old.split self.old.unit (units.role_of self.old.pid (finding_view finding.now))) }
        ensures kept { OnOk result (self.new ≡ spec.after_finding self.old (finding_view finding.now)) }
        ensures err { OnErr result (self.new ≡ self.old) }
    {
        if !is_on(self.pid, finding) {
            return Ok(None);
        }
        self.take_role(alloc, role_of(self.pid, finding))
    }

    /// Returns the packet where the current unit begins, and its DTS as its header has it, modulo 2^33.
    #[tactic(auto, unfolding(crate::specs::UnitSteps::start_of))]
    pub fn under_way(&self) -> Option<(u64, u64)>
        ensures { result ≡ spec.start_of self.now.unit }
    {
        match &self.unit {
            None => None,
            Some(unit) => Some((unit.packet, unit.dts)),
        }
    }

    /// Returns whether the current unit, if it has bytes, is due at the same time as `unit`, which was returned before.
    pub fn is_same_after(&self, unit: &Option<WireUnit<B>>) -> bool
        ensures { result ≡ apart.is_same_after unit.now self.now.unit }
    {
        is_same_after(unit, &self.unit)
    }

    /// Returns the stream_id of the current unit.
    pub(crate) fn stream_id(&self) -> Option<u8>
        ensures { result ≡ option_map (λ u. u.stream_id) self.now.unit }
    {
        match &self.unit {
            None => None,
            Some(unit) => Some(unit.stream_id),
        }
    }

    /// Ends the current unit, if there is one.
    pub fn end(&mut self) -> Option<WireUnit<B>>
        ensures given { result ≡ spec.ended_unit false self.old.unit }
        ensures kept { self.new ≡ record self.old { unit = None } }
    {
        ended(false, self.unit.take())
    }

    /// Ends the findings, and returns the last unit, if there is one.
    pub fn finish(self) -> Option<WireUnit<B>>
        ensures { result ≡ spec.ended_unit false self.unit }
    {
        ended(false, self.unit)
    }
}

impl<A: Allocator + Clone> UnitTaker<Vec<u8, A>> {
    /// Takes a finding as `take` does, but moves the body of a unit's first PES packet out of the finding, which
    /// becomes a `What::Duplicate`.
    #[tactic(auto, unfolding(crate::specs::UnitSteps::made_whole, crate::specs::UnitSteps::goes_on_as))]
    pub(crate) fn take_moved(
        &mut self,
        alloc: &A,
        finding: &mut Finding<'_, A>,
    ) -> Result<Option<WireUnit<Vec<u8, A>>>, AllocError>
        ensures given { IfOk result (λ unit. unit
            ≡ spec.made_whole self.old.split self.old.unit (units.role_of self.old.pid (finding_view finding.old))) }
        ensures kept { OnOk result (self.new ≡ spec.after_finding self.old (finding_view finding.old)) }
        ensures others { OnOk result (OthersStay self.old.pid (finding_view finding.old ∷ [])
            (finding_view finding.new ∷ [])) }
        ensures pid { OnOk result (finding.new.pid ≡ finding.old.pid) }
    {
        match moved_start(alloc, self.pid, finding)? {
            Some(next) => Ok(self.start(next)),
            None => self.take(alloc, finding),
        }
    }
}
