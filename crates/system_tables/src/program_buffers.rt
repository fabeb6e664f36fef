//! The buffers of the tables of a program.
ghost use Rattle.std.specs.Prelude.{◌≡◌, ◌<◌, ◌≤◌, ◌++◌, ◌^◌, IfOk, OnOk, length};
ghost use Rattle.system_tables.specs.Programs as spec;

use crate::table_excess::{TableExcess, append_ended};
use arrival::Arrival;
use std::alloc::{AllocError, Global};
use std::marker::Model;
use stream_programs::FoundProgram;
use tstd_rows::{EndedExcesses, Excess, SystemView};

// Packets from this one on enter no buffer: the stream is longer than 2^40 bytes.
const LAST_INDEX: u64 = 5_848_000_000;

// The most bytes that enter.
const MOST_BYTES: u64 = 1 << 40;

/// The rate in bits a second whose buffer gives the unit of time: the buffers count time in its units.
pub const DRAIN: u32 = 2_000_000;

// How many of these units a byte takes to leave a buffer that is drained at a 500th of the stream's constant rate.
const STEP_AT_A_500TH: u64 = 500 * DRAIN as u64;

// The last of the PIDs whose packets enter the buffers of every program: PAT, CAT, TSDT and IPMP control information.
const LAST_SYSTEM_PID: u16 = 3;

/// A program, the PID of its map, the buffers of its tables, and the number of excesses of each that have ended.
#[derive(Drop)]
pub struct ProgramTables {
    number: u16,
    map_pid: u16,
    view: SystemView,
    transport_excesses: u64,
    system_excesses: u64,
}

impl Model for ProgramTables {
    ghost use Rattle.system_tables.specs.Programs.{ProgramState};

    ghost Value = { ProgramState };

    ghost view = { λ p. record {
      number = p.number;
      map_pid = p.map_pid;
      transport = p.view.transport;
      system = p.view.system;
      bytes = p.view.bytes;
      transport_excesses = p.transport_excesses;
      system_excesses = p.system_excesses;
    } };
}

// Returns how long a byte takes to leave a system buffer: 25 steps at 80,000 bits a second, and at a constant rate no
// longer than at a 500th of it.
#[tactic(auto, unfolding(crate::specs::Programs::system_step))]
fn system_step(arrival: &Arrival) -> u64
    ensures step { result ≡ spec.system_step arrival.now }
    ensures some { 0 < result }
    ensures slow { result ≤ 2 ^ 33 }
{
    let step = 25 * arrival.step();
    match arrival {
        Arrival::AtRate(_) => step.min(STEP_AT_A_500TH),
        Arrival::Unknown | Arrival::OnLines(_) => step,
    }
}

impl ProgramTables {
    /// Returns the state before the program's first packet.
    pub(crate) fn new(arrival: &Arrival, program: &FoundProgram) -> ProgramTables
        ensures { result ≡ spec.program_of arrival.now program.now }
    {
        ProgramTables {
            number: program.number,
            map_pid: program.map_pid,
            view: SystemView::new(arrival.step(), system_step(arrival)),
            transport_excesses: 0,
            system_excesses: 0,
        }
    }

    /// Returns its number.
    pub fn number(&self) -> u16
        ensures { result ≡ self.now.number }
    {
        self.number
    }

    /// Returns the most bytes that were in its transport buffer.
    pub fn transport_most(&self) -> u128
        ensures { result ≡ spec.transport_most self.now }
    {
        self.view.transport_most()
    }

    /// Returns the most bytes that were in its system buffer.
    pub fn system_most(&self) -> u128
        ensures { result ≡ spec.system_most self.now }
    {
        self.view.system_most()
    }

    /// Returns the number of excesses of its transport buffer that have ended.
    pub fn transport_excesses(&self) -> u64
        ensures { result ≡ self.now.transport_excesses }
    {
        self.transport_excesses
    }

    /// Returns the number of excesses of its system buffer that have ended.
    pub fn system_excesses(&self) -> u64
        ensures { result ≡ self.now.system_excesses }
    {
        self.system_excesses
    }

    /// Returns the current excess of its transport buffer, if it has one.
    pub fn transport_excess(&self) -> Option<Excess>
        ensures { result ≡ self.now.transport.watch.under_way }
    {
        self.view.transport.watch.under_way
    }

    /// Returns the current excess of its system buffer, if it has one.
    pub fn system_excess(&self) -> Option<Excess>
        ensures { result ≡ self.now.system.watch.under_way }
    {
        self.view.system.watch.under_way
    }

    // Takes bytes of the stream from byte `byte` on, and appends the excesses that end with them.
    fn pass(
        &mut self,
        arrival: &Arrival,
        byte: u64,
        count: u64,
        ended: &mut EndedExcesses,
    ) -> Result<(), AllocError>
        requires byte { byte ≤ 2 ^ 41 }
        requires count { count ≤ 188 }
        ensures program { OnOk result (self.new ≡ spec.passed arrival.now byte count self.old) }
        ensures transport { OnOk result (ended.new.transport.items
            ≡ ended.old.transport.items ++ spec.transport_ended arrival.now byte count self.old) }
        ensures system { OnOk result (ended.new.system.items
            ≡ ended.old.system.items ++ spec.system_ended arrival.now byte count self.old) }
    {
        if self.view.bytes + count <= MOST_BYTES && arrival.has_times(byte, count) {
            self.view
                .pass(&arrival.row(u64::from(DRAIN), byte, count), ended)?;
        }
        Ok(())
    }

    // Counts the excesses of each buffer that have ended.
    fn count(&mut self, ended: &EndedExcesses)
        ensures { self.new
            ≡ spec.with_ended (length ended.now.transport.items) (length ended.now.system.items) self.old }
    {
        self.transport_excesses = self
            .transport_excesses
            .saturating_add(ended.transport.len() as u64);
        self.system_excesses = self
            .system_excesses
            .saturating_add(ended.system.len() as u64);
    }

    // Takes a packet of the program's tables, and returns the excesses that end with it.
    fn enter(
        &mut self,
        alloc: Global,
        arrival: &Arrival,
        index: u64,
    ) -> Result<EndedExcesses, AllocError>
        requires { index ≤ 5848000000 }
        ensures program { OnOk result (self.new ≡ spec.with_packet arrival.now index self.old) }
        ensures transport { IfOk result (λ ended. ended.transport.items
            ≡ spec.transport_in arrival.now index self.old) }
        ensures system { IfOk result (λ ended. ended.system.items ≡ spec.system_in arrival.now index self.old) }
    {
        let mut ended = EndedExcesses::new(alloc);
        let byte = 188 * index;
        let lead = arrival.lead(byte).min(188);
        self.pass(arrival, byte, lead, &mut ended)?;
        self.pass(arrival, byte + lead, 188 - lead, &mut ended)?;
        self.count(&ended);
        Ok(ended)
    }

    /// Takes a packet of the stream, with its index and PID, and appends the excesses that end with it.
    pub(crate) fn take(
        &mut self,
        alloc: Global,
        arrival: &Arrival,
        index: u64,
        pid: u16,
        excesses: &mut Vec<TableExcess>,
    ) -> Result<(), AllocError>
        ensures program { OnOk result (self.new ≡ spec.entered arrival.now index pid self.old) }
        ensures excesses { OnOk result (excesses.new.items
            ≡ excesses.old.items ++ spec.excesses_in arrival.now index pid self.old) }
    {
        if index >= LAST_INDEX || (pid > LAST_SYSTEM_PID && pid != self.map_pid) {
            return Ok(());
        }
        let ended = self.enter(alloc, arrival, index)?;
        append_ended(excesses, self.number, &ended)
    }
}
