//! What a stream's packets say one by one: sync, headers, program clock references.
ghost use Rattle.std.specs.Prelude.{◌≡◌, ◌++◌, ◌∷◌, [], ℕ, OnOk, None, Ok, Result};
ghost use Rattle.bit_fields.specs.Reading.{Gives};
ghost use Rattle.pid_findings.specs.GoingOn.{plain_view};
ghost use Rattle.ts_packet.specs.Reading.{packet_at};
ghost use Rattle.ts_packet.specs.Views.{PacketView, packet_view};
ghost use Rattle.monitor.specs.PacketStates.{no_packets, packet_counted_by, packet_watched, packet_watched_by};
ghost use Rattle.monitor.specs.PacketStates.{refusal_rule};

use crate::counts::{PacketCounts, PacketCountsByPid, count_packet};
use crate::fault::{Rule, StreamFault};
use crate::recurrence::RecurrenceWatch;
use pid_findings::pid_in;
use pid_map::PidMap;
use std::alloc::{AllocError, Allocator};
use std::marker::Model;
use ts_packet::{Packet, PacketError, has_pcr};

/// The faults of packets that are refused or in error, the counts of each PID, and the program clock references.
#[derive(Drop)]
pub(crate) struct PacketWatch<A: Allocator> {
    pub faults: Vec<StreamFault, A>,
    packet_counts: PidMap<PacketCounts, A>,
    pub pcr: RecurrenceWatch<A>,
}

impl<A: Allocator> Model for PacketWatch<A> {
    ghost use Rattle.monitor.specs.PacketStates.{PacketState};

    ghost Value = { PacketState };

    ghost view = { λ w. record { faults = w.faults.items; packet_counts = w.packet_counts.entries; pcr = w.pcr } };
}

#[tactic(auto, unfolding(crate::specs::PacketStates::refusal_rule))]
fn refusal_rule(error: PacketError) -> Rule
    ensures { result ≡ refusal_rule error }
{
    match error {
        PacketError::Sync => Rule::Sync,
        PacketError::ReservedControl => Rule::Packet,
        PacketError::FieldTooLong => Rule::Packet,
        PacketError::PartTooLong => Rule::Packet,
    }
}

impl<A: Allocator + Copy> PacketWatch<A> {
    /// Returns the state before the first packet.
    pub fn new(alloc: A, limit_times_rate: u64) -> PacketWatch<A>
        ensures { result ≡ no_packets limit_times_rate }
    {
        PacketWatch {
            faults: Vec::new(alloc),
            packet_counts: PidMap::new(alloc),
            pcr: RecurrenceWatch::new(alloc, limit_times_rate),
        }
    }

    /// Returns the counts of each PID.
    pub fn counts(&self) -> &PacketCountsByPid<A>
        ensures { result.now.entries ≡ self.now.packet_counts }
    {
        self.packet_counts.entries()
    }

    /// Appends a fault: the packet breaks the rule.
    pub fn fail(&mut self, packet: u64, rule: Rule) -> Result<(), AllocError>
        ensures { OnOk result (self.new ≡ record self.old {
          faults = self.old.faults ++
              (record { packet = packet; rule = rule; pid = None }) ∷ [];
        }) }
    {
        self.faults.push(StreamFault {
            packet,
            rule,
            pid: None,
        })?;
        Ok(())
    }

    // Counts a packet that was read.
    #[tactic(auto, unfolding(crate::specs::PacketStates::packet_counted_by))]
    fn count(&mut self, index: u64, packet: &Packet<'_>) -> Result<(), AllocError>
        ensures { OnOk result (self.new ≡ packet_counted_by self.old index (packet_view packet.now)) }
    {
        if packet.header.transport_error_indicator {
            return self.fail(index, Rule::Error);
        }
        let pid = packet.header.pid;
        count_packet(
            &mut self.packet_counts,
            pid,
            packet.header.payload_unit_start_indicator,
        )?;
        if has_pcr(packet) {
            self.pcr.mark(pid, index)?;
        }
        Ok(())
    }

    /// Takes a packet of the stream that has no error, no start and no adaptation field.
    #[tactic(auto, using(crate::proofs::PlainPackets::plain_watched))]
    pub fn go_on(&mut self, bytes: &[u8; 188]) -> Result<(), AllocError>
        requires { packet_at bytes.now ≡ Ok (plain_view bytes.now) }
        ensures { (index : ℕ) → OnOk result (self.new ≡ packet_watched self.old index bytes.now) }
    {
        let pid = pid_in(bytes);
        count_packet(&mut self.packet_counts, pid, false)
    }

    /// Takes a packet of the stream, as it was read.
    #[tactic(auto, unfolding(crate::specs::PacketStates::packet_watched_by))]
    pub fn take(
        &mut self,
        index: u64,
        read: &Result<Packet<'_>, PacketError>,
    ) -> Result<(), AllocError>
        ensures { (packet : Result PacketView PacketError) → Gives packet_view read.now packet →
            OnOk result (self.new ≡ packet_watched_by self.old index packet) }
    {
        match read {
            Ok(packet) => self.count(index, packet),
            Err(error) => self.fail(index, refusal_rule(*error)),
        }
    }
}
