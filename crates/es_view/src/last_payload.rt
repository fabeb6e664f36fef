//! The last payload of a stream, and packets that repeat it.
ghost use Rattle.std.specs.Prelude.{◌≡◌, OnOk};
ghost use Rattle.std.specs.Str.{bytes_eq};
ghost use Rattle.ts_packet.specs.Views.{packet_view};
ghost use Rattle.es_view.specs.LastPayloads as spec;

use std::alloc::{AllocError, Global};
use std::marker::Model;
use ts_packet::{Adaptation, Packet};

/// The continuity_counter and the payload of the last packet of a stream that has a payload.
#[derive(Drop)]
pub struct LastPayload {
    counter: Option<u8>,
    payload: Vec<u8>,
}

impl Model for LastPayload {
    ghost use Rattle.es_view.specs.LastPayloads.{LastView};

    ghost Value = { LastView };

    ghost view = { λ l. record { counter = l.counter; payload = l.payload.items } };
}

#[tactic(auto, unfolding(crate::specs::LastPayloads::same_counter))]
fn same_counter(before: Option<u8>, counter: u8) -> bool
    ensures { result ≡ spec.same_counter before counter }
{
    match before {
        None => false,
        Some(before) => before == counter,
    }
}

fn same_bytes(bytes: &[u8], other: &[u8]) -> bool
    ensures { result ≡ bytes_eq bytes.now other.now }
{
    bytes == other
}

// Returns whether a packet has discontinuity_indicator.
#[tactic(auto, unfolding(crate::specs::LastPayloads::is_announced))]
fn is_announced(packet: &Packet<'_>) -> bool
    ensures { result ≡ spec.is_announced (packet_view packet.now).adaptation }
{
    match packet.adaptation {
        Some(Adaptation::Flagged(parts)) => parts.discontinuity_indicator,
        _ => false,
    }
}

impl LastPayload {
    /// Returns the state before the first packet.
    pub fn new(alloc: Global) -> LastPayload
        ensures { result ≡ spec.no_payload }
    {
        LastPayload {
            counter: None,
            payload: Vec::new(alloc),
        }
    }

    /// Returns whether a packet repeats the payload.
    pub(crate) fn is_repeated(&self, packet: &Packet<'_>) -> bool
        ensures { result ≡ spec.is_repeated self.now (packet_view packet.now) }
    {
        packet.payload.is_some()
            && same_counter(self.counter, packet.header.continuity_counter)
            && same_bytes(packet.payload.unwrap_or(&[]), &self.payload)
            && !is_announced(packet)
    }

    /// Keeps the payload of a packet, if the packet has one.
    pub(crate) fn keep(&mut self, packet: &Packet<'_>) -> Result<(), AllocError>
        ensures { OnOk result (self.new ≡ spec.kept self.old (packet_view packet.now)) }
    {
        if let Some(payload) = packet.payload {
            self.payload.clear();
            self.payload.extend_from_slice(payload)?;
            self.counter = Some(packet.header.continuity_counter);
        }
        Ok(())
    }
}
