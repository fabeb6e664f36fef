//! The states of the PIDs of a stream, in the order of each PID's first packet.
ghost use Rattle.std.specs.Prelude.{◌≡◌, ◌<◌, ◌++◌, [], ℕ, Some, None, OnOk, OnErr, map, false, true, length};
ghost use Rattle.std.specs.Prelude.{slice_get, nat_eq};
ghost use Rattle.indexmap.specs.IndexMap.{index_map_len, get, values, set_value_at};
ghost use Rattle.pid_findings.specs.Bodies.{state_without_body};
ghost use Rattle.demux.specs.StreamBodies.{states_without_bodies};
ghost use Rattle.demux.specs.KeptBodies.{is_kept, state_if, states_but};
ghost use Rattle.pid_findings.specs.Machine as machine;
ghost use Rattle.demux.specs.Stream.{ended_found, state_of, with_state};
ghost use Rattle.pid_findings.specs.Shown.{Finds, KeepsFindings, entry_with, finding_view, KeepsJoined, IsPayloadOf};
ghost use Rattle.pid_findings.specs.Shown.{AddsFindings};
ghost use Rattle.pid_findings.specs.Shown.{with_pid};
ghost use Rattle.pid_findings.specs.Findings as findings;
ghost use Rattle.pid_findings.specs.GoingOn.{plain_entry};

use pid_findings::{Finding, PayloadBytes, PidState, Place};
use pid_map::{PidEntries, PidMap};
use std::alloc::{AllocError, Allocator};
use std::marker::Model;
use ts_packet::Packet;

/// The states of the PIDs.
#[derive(Drop)]
pub(crate) struct States<A: Allocator> {
    by_pid: PidMap<PidState<A>, A>,
}

// A contract sees the states, with their PIDs.
impl<A: Allocator> Model for States<A> {
    ghost use Rattle.demux.specs.Stream as stream;

    ghost Value = { stream.States };

    ghost view = { λ s. s.by_pid.entries };
}

// Takes a packet that continues the open unit of a PID that was seen before.
fn go_on_at<A: Allocator + Copy>(
    states: &mut PidMap<PidState<A>, A>,
    at: usize,
    index: u64,
    bytes: &[u8; 188],
) -> bool
    requires there { at < index_map_len states.old }
    ensures states { (state : machine.PidState) → slice_get (values states.old) at ≡ Some state →
        result ≡ true → states.new.entries ≡ set_value_at states.old.entries at
        (machine.step state (plain_entry index bytes.now)) }
    ensures none { (state : machine.PidState) → slice_get (values states.old) at ≡ Some state →
        result ≡ true → machine.found_by state (plain_entry index bytes.now) ≡ [] }
    ensures stays { (state : machine.PidState) → slice_get (values states.old) at ≡ Some state →
        result ≡ false → states.new.entries ≡ set_value_at states.old.entries at state }
{
    let state = states.value_mut(at);
    state.go_on(index, bytes)
}

// Takes a packet of a PID that was seen before.
fn step_at<'p, 'a: 'p, A: Allocator + Copy>(
    states: &mut PidMap<PidState<A>, A>,
    index: usize,
    place: Place,
    bytes: &[u8; 188],
    packet: &Packet<'_>,
    payload: Option<PayloadBytes<'p, 'a>>,
    found: &mut Vec<Finding<'a, A>, A>,
) -> Result<(), AllocError>
    requires there { index < index_map_len states.old }
    requires payload { IsPayloadOf packet.now place.borrowed payload }
    ensures states { (state : machine.PidState) → slice_get (values states.old) index ≡ Some state →
        OnOk result (states.new.entries ≡ set_value_at states.old.entries index
        (machine.step state (entry_with place.packet bytes.now packet.now))) }
    ensures found { (state : machine.PidState) → slice_get (values states.old) index ≡ Some state →
        OnOk result (Finds place found.old.items found.new.items
        (machine.found_by state (entry_with place.packet bytes.now packet.now))) }
    ensures err { (state : machine.PidState) → slice_get (values states.old) index ≡ Some state →
        OnErr result (states.new.entries ≡ set_value_at states.old.entries index state) }
    ensures none { OnErr result (KeepsFindings found.old.items found.new.items) }
{
    let alloc = *states.entries().allocator();
    let state = states.value_mut(index);
    state.step(&alloc, place, bytes, packet, payload, found)
}

// Takes the first packet of a PID. It stays a call of its own: the new state would otherwise be made ready for each
// packet.
#[inline(never)]
#[tactic(auto, using(crate::proofs::MapSteps::with_is_insert))]
fn step_first<'p, 'a: 'p, A: Allocator + Copy>(
    states: &mut PidMap<PidState<A>, A>,
    place: Place,
    bytes: &[u8; 188],
    packet: &Packet<'_>,
    payload: Option<PayloadBytes<'p, 'a>>,
    found: &mut Vec<Finding<'a, A>, A>,
) -> Result<(), AllocError>
    requires new { get nat_eq states.old place.pid ≡ None }
    requires payload { IsPayloadOf packet.now place.borrowed payload }
    ensures states { OnOk result (states.new.entries ≡ with_state place.pid
        (machine.step machine.fresh (entry_with place.packet bytes.now packet.now)) states.old.entries) }
    ensures found { OnOk result (Finds place found.old.items found.new.items
        (machine.found_by machine.fresh (entry_with place.packet bytes.now packet.now))) }
    ensures err { OnErr result (states.new.entries ≡ states.old.entries) }
    ensures none { OnErr result (KeepsFindings found.old.items found.new.items) }
{
    states.reserve_one()?;
    let alloc = *states.entries().allocator();
    let mut state = PidState::new();
    state.step(&alloc, place, bytes, packet, payload, found)?;
    states.insert(place.pid, state)?;
    Ok(())
}

// Leaves out the body of the open PES packet of a PID.
fn leave_out_at<A: Allocator + Copy>(states: &mut PidMap<PidState<A>, A>, index: usize)
    requires there { index < index_map_len states.old }
    ensures states { (state : machine.PidState) → slice_get (values states.old) index ≡ Some state →
        states.new.entries ≡ set_value_at states.old.entries index (state_without_body state) }
{
    let state = states.value_mut(index);
    state.leave_out_body();
}

// Leaves out the bodies of the open PES packets of all PIDs.
fn leave_out_each<A: Allocator + Copy>(states: &mut PidMap<PidState<A>, A>)
    ensures { states.new.entries ≡ states_without_bodies states.old.entries }
{
    for i in 0..states.entries().len() {
        leave_out_at(states, i);
    }
}

// Returns whether the PID of an entry is among these.
fn is_kept_at<A: Allocator>(states: &PidEntries<PidState<A>, A>, index: usize, kept: &[u16]) -> bool
    ensures { (entry : ℕ × machine.PidState) → slice_get states.now.entries index ≡ Some entry →
        result ≡ is_kept kept.now entry.0 }
{
    match states.get_index(index) {
        None => false,
        Some((pid, _)) => kept.contains(pid),
    }
}

// Leaves out the body of the open PES packet of an entry, if its PID is not among these.
fn leave_out_unless<A: Allocator + Copy>(
    states: &mut PidMap<PidState<A>, A>,
    index: usize,
    kept: &[u16],
)
    requires there { index < index_map_len states.old }
    ensures states { (entry : ℕ × machine.PidState) → slice_get states.old.entries index ≡ Some entry →
        states.new.entries ≡ set_value_at states.old.entries index (state_if (is_kept kept.now entry.0) entry.1) }
{
    if !is_kept_at(states.entries(), index, kept) {
        leave_out_at(states, index);
    }
}

// Leaves out the bodies of the open PES packets of all PIDs but these.
fn leave_out_others<A: Allocator + Copy>(states: &mut PidMap<PidState<A>, A>, kept: &[u16])
    ensures { states.new.entries ≡ states_but kept.now states.old.entries }
{
    for i in 0..states.entries().len() {
        leave_out_unless(states, i, kept);
    }
}

// Appends the findings of the end of the stream on a PID.
fn end_at<'a, A: Allocator + Copy>(
    states: &PidEntries<PidState<A>, A>,
    index: usize,
    packet: u64,
    found: &mut Vec<Finding<'a, A>, A>,
) -> Result<(), AllocError>
    requires { index < index_map_len states.now }
    ensures found { (entry : ℕ × machine.PidState) → slice_get states.now.entries index ≡ Some entry →
        OnOk result (map finding_view found.new.items ≡ map finding_view found.old.items ++ map
        (with_pid entry.0 packet) (findings.ended true entry.1.open_unit)) }
    ensures joined { OnOk result (KeepsJoined found.old.items found.new.items) }
{
    let alloc = *states.allocator();
    match states.get_index(index) {
        None => Ok(()),
        Some((pid, state)) => {
            let place = Place {
                packet,
                pid: *pid,
                borrowed: false,
            };
            state.finish(&alloc, place, found)?;
            Ok(())
        }
    }
}

// Appends the findings of the end of the stream, in the order of the PIDs.
fn end_each<'a, A: Allocator + Copy>(
    states: &PidEntries<PidState<A>, A>,
    packet: u64,
    found: &mut Vec<Finding<'a, A>, A>,
) -> Result<(), AllocError>
    ensures found { OnOk result (AddsFindings found.old.items found.new.items (ended_found packet states.now.entries)) }
    ensures joined { OnOk result (KeepsJoined found.old.items found.new.items) }
{
    for i in 0..states.len() {
        end_at(states, i, packet, found)?;
    }
    Ok(())
}

impl<A: Allocator + Copy> States<A> {
    /// Returns the state before the first packet.
    pub fn new(alloc: A) -> States<A>
        ensures { result ≡ [] }
    {
        States {
            by_pid: PidMap::new(alloc),
        }
    }

    /// Returns the allocator of the states. It has no clause: a contract sees the states without their allocator.
    pub fn allocator(&self) -> &A {
        self.by_pid.entries().allocator()
    }

    /// Takes a packet that has a payload alone, if it continues the open unit of its PID, it has no finding, and
    /// there is memory for it. Returns whether it took the packet; if not, nothing changes.
    pub fn go_on(&mut self, index: u64, pid: u16, bytes: &[u8; 188]) -> bool
        ensures states { let state = state_of pid self.old in result ≡ true →
            self.new ≡ with_state pid (machine.step state (plain_entry index bytes.now)) self.old }
        ensures none { let state = state_of pid self.old in result ≡ true →
            machine.found_by state (plain_entry index bytes.now) ≡ [] }
        ensures stays { result ≡ false → self.new ≡ self.old }
    {
        match self.by_pid.noted(pid) {
            None => false,
            Some(at) => go_on_at(&mut self.by_pid, at, index, bytes),
        }
    }

    /// Takes a packet of a PID.
    #[tactic(auto, using(crate::proofs::MapSteps::with_is_set, crate::proofs::MapSteps::state_at, crate::proofs::MapSteps::state_new, pid_map::proofs::Entries::set_same))]
    pub fn step<'p, 'a: 'p>(
        &mut self,
        place: Place,
        bytes: &[u8; 188],
        packet: &Packet<'_>,
        payload: Option<PayloadBytes<'p, 'a>>,
        found: &mut Vec<Finding<'a, A>, A>,
    ) -> Result<(), AllocError>
        requires payload { IsPayloadOf packet.now place.borrowed payload }
        ensures states { let state = state_of place.pid self.old in
            OnOk result (self.new ≡ with_state place.pid
            (machine.step state (entry_with place.packet bytes.now packet.now)) self.old) }
        ensures found { let state = state_of place.pid self.old in
            OnOk result (Finds place found.old.items found.new.items
            (machine.found_by state (entry_with place.packet bytes.now packet.now))) }
        ensures err { OnErr result (self.new ≡ self.old) }
        ensures none { OnErr result (KeepsFindings found.old.items found.new.items) }
    {
        match self.by_pid.index_of(place.pid) {
            Some(index) => step_at(
                &mut self.by_pid,
                index,
                place,
                bytes,
                packet,
                payload,
                found,
            ),
            None => step_first(&mut self.by_pid, place, bytes, packet, payload, found),
        }
    }

    /// Leaves out the bodies of the open PES packets.
    pub fn leave_out_bodies(&mut self)
        ensures { self.new ≡ states_without_bodies self.old }
    {
        leave_out_each(&mut self.by_pid);
    }

    /// Leaves out the bodies of the open PES packets of all PIDs but these.
    pub fn leave_out_other_bodies(&mut self, kept: &[u16])
        ensures { self.new ≡ states_but kept.now self.old }
    {
        leave_out_others(&mut self.by_pid, kept);
    }

    /// Returns the number of PIDs.
    pub fn len(&self) -> usize
        ensures { result ≡ length self.now }
    {
        self.by_pid.entries().len()
    }

    /// Appends the findings of the end of the stream on the PID at an index, in the order of the PIDs.
    pub fn end_at<'a>(
        &self,
        index: usize,
        packet: u64,
        found: &mut Vec<Finding<'a, A>, A>,
    ) -> Result<(), AllocError>
        requires { index < length self.now }
        ensures found { (entry : ℕ × machine.PidState) → slice_get self.now index ≡ Some entry →
            OnOk result (AddsFindings found.old.items found.new.items (map
            (with_pid entry.0 packet) (findings.ended true entry.1.open_unit))) }
    {
        end_at(self.by_pid.entries(), index, packet, found)
    }

    /// Appends the findings of the end of the stream on each PID, in the order of the PIDs.
    pub fn end<'a>(&self, packet: u64, found: &mut Vec<Finding<'a, A>, A>) -> Result<(), AllocError>
        ensures found { OnOk result (AddsFindings found.old.items found.new.items (ended_found packet self.now)) }
        ensures joined { OnOk result (KeepsJoined found.old.items found.new.items) }
    {
        end_each(self.by_pid.entries(), packet, found)
    }
}
