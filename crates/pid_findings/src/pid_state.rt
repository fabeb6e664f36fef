//! The state of a PID, packet by packet.
ghost use Rattle.std.specs.Prelude.{◌≡◌, [], None, Some, IfOk, OnOk, OnErr, true, false};
ghost use Rattle.pid_findings.specs.GoingOn.{plain_entry};
ghost use Rattle.pid_findings.specs.Roles as roles;
ghost use Rattle.pid_findings.specs.Findings as findings;
ghost use Rattle.pid_findings.specs.Bodies.{state_without_body};
ghost use Rattle.pid_findings.specs.Machine as machine;
ghost use Rattle.pid_findings.specs.Shown.{Finds, IsPayloadOf, KeepsJoined, AddsFindingsAt, KeepsFindings, entry_with};
ghost use Rattle.pid_findings.specs.Shown.{is_borrowed, kept_by, payload_list};
ghost use Rattle.pid_findings.specs.Shown.{mark_broken, marked_findings, marked_role, role_borrowed, role_view};

use crate::appending::append_payload;
use crate::beginnings::begin_pes;
use crate::endings::{cut_short, end_before_pointer, end_moved, end_unit};
use crate::finding::{Finding, What};
use crate::going_on::{grow, is_next, keep_plain};
use crate::last::Last;
use crate::marks::{Mark, keep, mark_of};
use crate::open_unit::OpenUnit;
use crate::payload_bytes::PayloadBytes;
use crate::place::{Place, note, note_stray};
use crate::roles::{PayloadRole, role_of};
use crate::sections::sections;
use psi_tables::SectionError;
use std::alloc::{AllocError, Allocator};
use std::marker::Model;
use ts_packet::Packet;

/// The state of a PID: its last packet, and its open unit.
#[derive(Drop)]
pub struct PidState<A: Allocator> {
    last: Option<Last>,
    open_unit: Option<OpenUnit<A>>,
}

impl<A: Allocator> Model for PidState<A> {
    ghost use Rattle.pid_findings.specs.Machine as machine;

    ghost Value = { machine.PidState };

    ghost view = { λ s. record { last = s.last; open_unit = s.open_unit } };
}

// Notes the findings of a start, a scrambled packet, a wrong pointer_field or stray payload; returns the unit that is
// open after it.
#[tactic(auto, unfolding(crate::specs::Findings::by_role, crate::specs::Machine::next_open, crate::specs::Findings::found_appended))]
fn start_unit<'p, 'a: 'p, A: Allocator + Clone>(
    alloc: &A,
    place: Place,
    role: PayloadRole<'p, 'a>,
    open_unit: &Option<OpenUnit<A>>,
    found: &mut Vec<Finding<'a, A>, A>,
) -> Result<Option<OpenUnit<A>>, AllocError>
    requires { role_borrowed place.borrowed role ≡ place.borrowed }
    ensures found { let role = role_view role.entry in
        OnOk result (Finds place found.old.items found.new.items
        (findings.by_role place.packet role (kept_by role open_unit.now))) }
    ensures next { let role = role_view role.entry in
        IfOk result (λ next. next ≡ machine.next_open place.packet role (kept_by role open_unit.now)) }
{
    match role {
        PayloadRole::NoPayload => Ok(None),
        PayloadRole::Continuation(payload) => {
            note_stray(place, payload.len(), found)?;
            Ok(None)
        }
        PayloadRole::Scrambled => {
            note(place, None, What::Scrambled, found)?;
            cut_short(alloc, place, open_unit, found)?;
            Ok(None)
        }
        PayloadRole::PointerPastEnd => {
            note(place, None, What::BadSection(SectionError::Body), found)?;
            cut_short(alloc, place, open_unit, found)?;
            Ok(None)
        }
        PayloadRole::PesStart(access, payload) => {
            end_unit(alloc, place, false, open_unit, found)?;
            begin_pes(alloc, place, access, payload, found)
        }
        PayloadRole::SectionStart(before, payload) => {
            end_before_pointer(alloc, place, before, open_unit, found)?;
            sections(alloc, place, payload, found)
        }
    }
}

// Takes a start, a scrambled packet or a wrong pointer_field, with the unit that is open before it. It stays a call of
// its own: its stack would otherwise be made ready for each packet.
#[inline(never)]
fn start_with_open<'p, 'a: 'p, A: Allocator + Clone>(
    alloc: &A,
    place: Place,
    role: PayloadRole<'p, 'a>,
    open_unit: &mut Option<OpenUnit<A>>,
    found: &mut Vec<Finding<'a, A>, A>,
) -> Result<(), AllocError>
    requires divides { roles.role_divides (role_view role) ≡ true }
    requires borrowed { role_borrowed place.borrowed role ≡ place.borrowed }
    ensures found { OnOk result (Finds place found.old.items found.new.items
        (findings.by_role place.packet (role_view role.entry) open_unit.old)) }
    ensures next { OnOk result (open_unit.new ≡ machine.next_open place.packet (role_view role.entry) open_unit.old) }
    ensures err { OnErr result (open_unit.new ≡ open_unit.old) }
    ensures none { OnErr result (KeepsFindings found.old.items found.new.items) }
{
    let mut new = Vec::new(alloc.clone()?);
    let next = start_unit(alloc, place, role, open_unit, &mut new)?;
    found.append(&mut new)?;
    *open_unit = next;
    Ok(())
}

// Takes the start of a PES packet, with the unit that is open before it. It stays a call of its own, as
// `start_with_open` does.
#[inline(never)]
#[tactic(auto, unfolding(crate::specs::Findings::by_role, crate::specs::Machine::next_open))]
fn start_pes<'p, 'a: 'p, A: Allocator + Clone>(
    alloc: &A,
    place: Place,
    access: bool,
    payload: PayloadBytes<'p, 'a>,
    open_unit: &mut Option<OpenUnit<A>>,
    found: &mut Vec<Finding<'a, A>, A>,
) -> Result<(), AllocError>
    requires { is_borrowed payload ≡ place.borrowed }
    ensures found { OnOk result (Finds place found.old.items found.new.items
        (findings.by_role place.packet (roles.PesStart access (payload_list payload.entry)) open_unit.old)) }
    ensures next { OnOk result (open_unit.new ≡ machine.next_open place.packet
        (roles.PesStart access (payload_list payload.entry)) open_unit.old) }
    ensures err { OnErr result (open_unit.new ≡ open_unit.old) }
    ensures none { OnErr result (KeepsFindings found.old.items found.new.items) }
{
    let mut begun = Vec::new(alloc.clone()?);
    let next = begin_pes(alloc, place, access, payload, &mut begun)?;
    found.reserve(begun.len() + 1)?;
    end_moved(alloc, place, open_unit, found)?;
    let Ok(()) = found.append(&mut begun) else {
        unreachable!()
    };
    *open_unit = next;
    Ok(())
}

// Takes a packet whose counter does not follow: the open unit is cut short, and the packet is read without an open
// unit. It stays a call of its own, as `start_with_open` does.
#[inline(never)]
#[tactic(auto, unfolding(crate::specs::Findings::by_break, crate::specs::Machine::unbroken))]
fn on_counter_break<'p, 'a: 'p, A: Allocator + Clone>(
    alloc: &A,
    place: Place,
    expected: u8,
    counter: u8,
    role: PayloadRole<'p, 'a>,
    open_unit: &mut Option<OpenUnit<A>>,
    found: &mut Vec<Finding<'a, A>, A>,
) -> Result<(), AllocError>
    requires { role_borrowed place.borrowed role ≡ place.borrowed }
    ensures found { OnOk result (Finds place found.old.items found.new.items
        (findings.by_break place.packet (Some (expected, counter)) (role_view role.entry) open_unit.old)) }
    ensures next { OnOk result (open_unit.new ≡ machine.next_open place.packet (role_view role.entry) None) }
    ensures err { OnErr result (open_unit.new ≡ open_unit.old) }
    ensures none { OnErr result (KeepsFindings found.old.items found.new.items) }
{
    let mut new = Vec::new(alloc.clone()?);
    note(
        place,
        None,
        What::CounterBreak {
            expected,
            found: counter,
        },
        &mut new,
    )?;
    cut_short(alloc, place, open_unit, &mut new)?;
    let next = start_unit(alloc, place, role, &None, &mut new)?;
    found.append(&mut new)?;
    *open_unit = next;
    Ok(())
}

// Takes a packet whose counter follows.
#[tactic(auto, unfolding(crate::specs::Findings::by_role, crate::specs::Machine::next_open))]
fn on_next_counter<'p, 'a: 'p, A: Allocator + Clone>(
    alloc: &A,
    place: Place,
    role: PayloadRole<'p, 'a>,
    open_unit: &mut Option<OpenUnit<A>>,
    found: &mut Vec<Finding<'a, A>, A>,
) -> Result<(), AllocError>
    requires { role_borrowed place.borrowed role ≡ place.borrowed }
    ensures found { OnOk result (Finds place found.old.items found.new.items
        (findings.by_role place.packet (role_view role.entry) open_unit.old)) }
    ensures next { OnOk result (open_unit.new ≡ machine.next_open place.packet (role_view role.entry) open_unit.old) }
    ensures err { OnErr result (open_unit.new ≡ open_unit.old) }
    ensures none { OnErr result (KeepsFindings found.old.items found.new.items) }
{
    match role {
        PayloadRole::Continuation(payload) => append_payload(
            alloc, place, payload, open_unit, found,
        ),
        PayloadRole::NoPayload => Ok(()),
        PayloadRole::PesStart(access, payload) => start_pes(
            alloc, place, access, payload, open_unit, found,
        ),
        _ => start_with_open(alloc, place, role, open_unit, found),
    }
}

// Takes a packet with its mark.
#[tactic(auto, unfolding(crate::specs::Findings::by_break, crate::specs::Machine::unbroken, crate::specs::Machine::next_open))]
fn take_marked<'p, 'a: 'p, A: Allocator + Clone>(
    alloc: &A,
    place: Place,
    mark: Mark,
    role: PayloadRole<'p, 'a>,
    open_unit: &mut Option<OpenUnit<A>>,
    found: &mut Vec<Finding<'a, A>, A>,
) -> Result<(), AllocError>
    requires { role_borrowed place.borrowed role ≡ place.borrowed }
    ensures found { OnOk result (Finds place found.old.items found.new.items
        (marked_findings place.packet mark (role_view role.entry) open_unit.old)) }
    ensures next { OnOk result (open_unit.new ≡ machine.next_open place.packet (marked_role mark (role_view role.entry))
        (machine.unbroken (mark_broken mark) open_unit.old)) }
    ensures err { OnErr result (open_unit.new ≡ open_unit.old) }
    ensures none { OnErr result (KeepsFindings found.old.items found.new.items) }
{
    match mark {
        Mark::Duplicate => note(place, None, What::Duplicate, found),
        Mark::Follows => on_next_counter(alloc, place, role, open_unit, found),
        Mark::Breaks(expected, counter) => on_counter_break(
            alloc, place, expected, counter, role, open_unit, found,
        ),
    }
}

impl<A: Allocator + Clone> PidState<A> {
    /// Returns the state before the first packet.
    pub fn new() -> PidState<A>
        ensures { result ≡ machine.fresh }
    {
        PidState {
            last: None,
            open_unit: None,
        }
    }

    /// Takes a packet that has a payload alone, if its counter follows, it continues an open unit that stays open, and
    /// there is memory for it. Returns whether it took the packet; if not, nothing changes.
    pub fn go_on(&mut self, index: u64, bytes: &[u8; 188]) -> bool
        ensures state { result ≡ true → self.new ≡ machine.step self.old (plain_entry index bytes.now) }
        ensures none { result ≡ true → machine.found_by self.old (plain_entry index bytes.now) ≡ [] }
        ensures stays { result ≡ false → self.new ≡ self.old }
    {
        if !is_next(&self.last, bytes) {
            return false;
        }
        let (_, payload) = bytes.split_at(4);
        if !grow(&mut self.open_unit, index, payload) {
            return false;
        }
        keep_plain(&mut self.last, bytes);
        true
    }

    /// Takes a packet of the PID; findings borrow its payload, or copy from it.
    #[tactic(auto, unfolding(crate::specs::Marks::mark, crate::specs::Machine::step_marked, crate::specs::Findings::found_at, crate::specs::Roles::role, crate::specs::Roles::role_of))]
    pub fn step<'p, 'a: 'p>(
        &mut self,
        alloc: &A,
        place: Place,
        bytes: &[u8; 188],
        packet: &Packet<'_>,
        payload: Option<PayloadBytes<'p, 'a>>,
        found: &mut Vec<Finding<'a, A>, A>,
    ) -> Result<(), AllocError>
        requires payload { IsPayloadOf packet.now place.borrowed payload }
        ensures state { OnOk result (self.new ≡ machine.step self.old (entry_with place.packet bytes.now packet.now)) }
        ensures found { OnOk result (Finds place found.old.items found.new.items
            (machine.found_by self.old (entry_with place.packet bytes.now packet.now))) }
        ensures err { OnErr result (self.new ≡ self.old) }
        ensures none { OnErr result (KeepsFindings found.old.items found.new.items) }
    {
        let mark = mark_of(&self.last, place.packet, packet, bytes);
        let role = role_of(packet, payload);
        take_marked(alloc, place, mark, role, &mut self.open_unit, found)?;
        keep(&mut self.last, mark, place.packet, packet, bytes);
        Ok(())
    }

    /// Leaves out the body of an open PES packet whose header can be read.
    pub fn leave_out_body(&mut self)
        ensures { self.new ≡ state_without_body self.old }
    {
        if let Some(unit) = &mut self.open_unit {
            unit.leave_out_body();
        }
    }

    /// Ends the stream.
    #[tactic(auto, using(crate::proofs::FoundViews::says, crate::proofs::FoundViews::joined))]
    pub fn finish<'a>(
        &self,
        alloc: &A,
        place: Place,
        found: &mut Vec<Finding<'a, A>, A>,
    ) -> Result<(), AllocError>
        requires { place.borrowed ≡ false }
        ensures found { OnOk result (AddsFindingsAt place found.old.items found.new.items
            (findings.ended true self.now.open_unit)) }
        ensures joined { OnOk result (KeepsJoined found.old.items found.new.items) }
    {
        end_unit(alloc, place, true, &self.open_unit, found)?;
        Ok(())
    }
}
