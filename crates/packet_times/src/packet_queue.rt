//! Packets that wait for a line.
ghost use Rattle.std.specs.Prelude.{◌≡◌, ◌/◌, ◌%◌, ◌∷◌, [], ◌++◌, IfOk, IfSome, OnOk, Result, slice_index, true};
ghost use Rattle.bit_fields.specs.Reading.{Gives};
ghost use Rattle.ts_packet.specs.Reading.{packet_at};
ghost use Rattle.ts_packet.specs.Views.{PacketView, packet_view};
ghost use Rattle.ts_packet.specs.declared.packet.PacketError.{PacketError};
ghost use Rattle.arrival.specs.Clock.{IsInRange};
ghost use Rattle.packet_times.specs.Waiting as spec;

use arrival::{Arrival, ArrivalClock, ClockLine, ClockLines, PcrSample};
use std::alloc::{AllocError, Global};
use std::marker::Model;
use tr101290::pcr_sample;
use ts_packet::{Packet, PacketError, read_packet};
use ts_tables::NamedStreams;

/// The most packets that wait.
pub const MOST_WAITING: usize = 65_536;

/// The PID of null packets, which has no clock references.
const NO_PID: u16 = 8191;

/// The PID of the clock references that time a stream's arrival.
#[derive(Clone, Copy)]
pub enum ClockPid {
    /// PID of the first reference, which has not arrived yet.
    OfFirst,
    /// PCR_PID of a program, before the first tables are known.
    OfProgram(u16),
    /// This one.
    Known(u16),
}

/// The packets of a stream that wait for a line, the clock by whose references it arrives, and the streams that are
/// named.
#[derive(Drop)]
pub struct PacketQueue {
    pid: ClockPid,
    named: NamedStreams,
    clock: ArrivalClock,
    before: Option<ClockLine>,
    packets: u64,
    held: Vec<[u8; 188]>,
}

impl Model for PacketQueue {
    ghost use Rattle.packet_times.specs.Waiting.{QueueState};

    ghost Value = { QueueState };

    ghost view = { λ q. record { pid = q.pid; named = q.named; clock = q.clock; before = q.before; packets = q.packets; held = q.held.items } };
}

// Returns whether references of a PID time the arrival of the stream.
#[tactic(auto, unfolding(crate::specs::Waiting::is_of_clock))]
fn is_of_clock(clock: ClockPid, pid: u16) -> bool
    ensures { result ≡ spec.is_of_clock clock pid }
{
    match clock {
        ClockPid::OfFirst => true,
        ClockPid::OfProgram(_) => false,
        ClockPid::Known(clock) => clock == pid,
    }
}

// Returns the reference of a packet and its PID, if it times the arrival of the stream.
fn reference_of(clock: ClockPid, index: u64, packet: &Packet<'_>) -> Option<(u16, PcrSample)>
    ensures value { result ≡ spec.reference_of clock index (packet_view packet.now) }
    ensures range { IfSome result (λ r. IsInRange r.1) }
{
    if packet.header.transport_error_indicator || !is_of_clock(clock, packet.header.pid) {
        return None;
    }
    let sample = pcr_sample(index, packet)?;
    Some((packet.header.pid, sample))
}

#[tactic(auto, unfolding(crate::specs::Waiting::reference_read))]
fn reference_read(
    clock: ClockPid,
    index: u64,
    read: &Result<Packet<'_>, PacketError>,
) -> Option<(u16, PcrSample)>
    ensures value { (packet : Result PacketView PacketError) → Gives packet_view read.now packet →
        result ≡ spec.reference_read clock index packet }
    ensures range { IfSome result (λ r. IsInRange r.1) }
{
    match read {
        Err(_) => None,
        Ok(packet) => reference_of(clock, index, packet),
    }
}

// Returns whether 188 bytes have no adaptation field.
fn is_plain(bytes: &[u8; 188]) -> bool
    ensures { result ≡ true → slice_index bytes.now 3 / 32 % 2 ≡ 0 }
{
    bytes[3] / 32 % 2 == 0
}

// Returns the reference of 188 bytes and its PID, if it times the arrival of the stream. Bytes that have no adaptation
// field have none, and are not read: most packets have no such field.
fn reference_in(clock: ClockPid, index: u64, bytes: &[u8; 188]) -> Option<(u16, PcrSample)>
    ensures value { result ≡ spec.reference_read clock index (packet_at bytes.now) }
    ensures range { IfSome result (λ r. IsInRange r.1) }
{
    if is_plain(bytes) {
        return None;
    }
    let read = read_packet(bytes);
    reference_read(clock, index, &read)
}

// Returns PCR_PID of a program, once the first tables are known.
#[tactic(auto, unfolding(crate::specs::Waiting::program_pid_in, ts_tables::specs::NamedStreams::clock_by))]
fn program_pid(number: u16, named: &NamedStreams) -> ClockPid
    ensures { result ≡ spec.program_pid number named.now }
{
    match named.found() {
        None => ClockPid::OfProgram(number),
        Some(_) => ClockPid::Known(named.clock_pid(number)),
    }
}

// Returns the sample of a clock beside a packet, as a reference of no PID.
fn given_sample(sample: Option<PcrSample>) -> Option<(u16, PcrSample)>
    requires { IfSome sample IsInRange }
    ensures value { result ≡ spec.given_sample sample }
    ensures range { IfSome result (λ r. IsInRange r.1) }
{
    let sample = sample?;
    Some((NO_PID, sample))
}

// Returns how bytes arrive on these lines.
#[tactic(auto, unfolding(crate::specs::Waiting::arrival_by))]
fn arrival_by(before: Option<ClockLine>, line: Option<ClockLine>) -> Arrival
    ensures { result ≡ spec.arrival_by before line }
{
    match (before, line) {
        (_, None) => Arrival::Unknown,
        (None, Some(line)) => Arrival::OnLines(ClockLines { before: line, line }),
        (Some(before), Some(line)) => Arrival::OnLines(ClockLines { before, line }),
    }
}

impl PacketQueue {
    /// Returns an empty queue for a stream that arrives by the references of that PID.
    pub fn new(alloc: Global, pid: ClockPid) -> PacketQueue
        ensures { result ≡ spec.no_packet pid }
    {
        PacketQueue {
            pid,
            named: NamedStreams::new(alloc),
            clock: ArrivalClock::new(),
            before: None,
            packets: 0,
            held: Vec::new(alloc),
        }
    }

    /// Returns the packets that wait.
    pub fn held(&self) -> &[[u8; 188]]
        ensures { result.now ≡ self.now.held }
    {
        &self.held
    }

    // Takes the reference, if there is one, and returns the line that it gives to the packets that wait.
    #[tactic(auto, unfolding(crate::specs::Waiting::line_by, crate::specs::Waiting::clock_by, crate::specs::Waiting::pid_by))]
    fn take_reference(&mut self, reference: &Option<(u16, PcrSample)>) -> Option<ClockLine>
        requires { IfSome reference.now (λ r. IsInRange r.1) }
        ensures line { result ≡ spec.line_by self.old reference.now }
        ensures clock { self.new.clock ≡ spec.clock_by self.old reference.now }
        ensures pid { self.new.pid ≡ spec.pid_by self.old reference.now }
        ensures before { self.new.before ≡ self.old.before }
        ensures named { self.new.named ≡ self.old.named }
        ensures packets { self.new.packets ≡ self.old.packets }
        ensures held { self.new.held ≡ self.old.held }
    {
        match reference {
            None => None,
            Some((pid, sample)) => {
                self.pid = ClockPid::Known(*pid);
                self.clock.take(*sample)
            }
        }
    }

    // Takes the next packet's reference, if it has one; returns the arrival of the waiting packets, if it is known now.
    #[tactic(auto, unfolding(crate::specs::Waiting::begun_by))]
    fn step(&mut self, reference: &Option<(u16, PcrSample)>) -> Option<Arrival>
        requires { IfSome reference.now (λ r. IsInRange r.1) }
        ensures arrival { result ≡ spec.released_by self.old reference.now }
        ensures queue { self.new ≡ spec.stepped_by self.old reference.now }
    {
        let line = self.take_reference(reference);
        self.packets = self.packets.saturating_add(1);
        if line.is_none() && self.held.len() < MOST_WAITING {
            return None;
        }
        let arrival = arrival_by(self.before, self.clock.line());
        self.before = self.clock.line();
        if reference.is_none() {
            self.clock.begin_anew();
        }
        Some(arrival)
    }

    // Learns the names in a packet, if the PID is not known yet; they apply from the next packet on.
    #[tactic(auto, unfolding(crate::specs::Waiting::named_after, crate::specs::Waiting::pid_after))]
    fn name(&mut self, bytes: &[u8; 188]) -> Result<(), AllocError>
        ensures { OnOk result (self.new ≡ spec.named_by self.old bytes.now) }
    {
        let ClockPid::OfProgram(number) = self.pid else {
            return Ok(());
        };
        self.named.take(bytes)?;
        self.pid = program_pid(number, &self.named);
        Ok(())
    }

    /// Takes the next packet, and returns how the waiting packets arrive, if that is known now. The caller then takes
    /// them, and lets the packet wait.
    pub fn take(&mut self, bytes: &[u8; 188]) -> Result<Option<Arrival>, AllocError>
        ensures arrival { IfOk result (λ arrival. arrival ≡ spec.released self.old bytes.now) }
        ensures queue { OnOk result (self.new ≡ spec.stepped self.old bytes.now) }
    {
        let reference = reference_in(self.pid, self.packets, bytes);
        let arrival = self.step(&reference);
        self.name(bytes)?;
        Ok(arrival)
    }

    /// Takes the sample of a clock beside the next packet, if there is one, in place of clock references, and returns
    /// how the waiting packets arrive, if that is known now. The caller then takes them, and lets the packet wait.
    pub fn take_sample(&mut self, sample: Option<PcrSample>) -> Option<Arrival>
        requires { IfSome sample IsInRange }
        ensures arrival { result ≡ spec.released_with self.old sample }
        ensures queue { self.new ≡ spec.stepped_with self.old sample }
    {
        self.step(&given_sample(sample))
    }

    /// Forgets the waiting packets.
    pub fn clear(&mut self)
        ensures { self.new ≡ spec.with_held self.old [] }
    {
        self.held.clear();
    }

    /// Appends a packet that waits.
    pub fn push(&mut self, bytes: &[u8; 188]) -> Result<(), AllocError>
        ensures { OnOk result (self.new ≡ spec.with_held self.old (self.old.held ++ bytes.now ∷ [])) }
    {
        self.held.push(*bytes)?;
        Ok(())
    }

    /// Returns how the waiting packets arrive at the end of the stream: on the last line.
    pub fn last_arrival(&self) -> Arrival
        ensures { result ≡ spec.last_arrival self.now }
    {
        arrival_by(self.before, self.clock.line())
    }
}
