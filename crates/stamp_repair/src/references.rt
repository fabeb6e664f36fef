//! The clock references of packets (ISO/IEC 13818-1, 2.4.3.4 and 2.4.3.5), while bytes come.

ghost use Rattle.std.specs.Prelude.{◌≡◌, ◌≤◌, ◌<◌, ◌+◌, ◌++◌, ◌∷◌, [], IfOk, OnOk, length, take};
ghost use Rattle.stamp_repair.specs.References as spec;

use arrayvec::ArrayVec;
use packet_pcr::{FoundPcr, pcr_at};
use std::alloc::{AllocError, Global};
use std::marker::Model;

// Held bytes and the last one, which make a packet whole.
fn joined(held: &[u8], last: u8) -> [u8; 188]
    requires { length held.now ≡ 187 }
    ensures { result ≡ held.now ++ last ∷ [] }
{
    let mut whole = ArrayVec::<u8, 188>::new();
    let (Ok(()), Ok(())) = (
        whole.try_extend_from_slice(held),
        whole.try_extend_from_slice(&[last]),
    ) else {
        unreachable!()
    };
    match whole.into_inner() {
        Ok(bytes) => bytes,
        Err(_) => unreachable!(),
    }
}

/// The clock references of the packets of a stream so far, and the bytes of a packet that is not whole yet.
#[derive(Drop)]
pub struct ReferenceLog {
    packets: u64,
    held: ArrayVec<u8, 187>,
    found: Vec<FoundPcr>,
}

// A contract sees its parts as lists.
impl Model for ReferenceLog {
    ghost use Rattle.stamp_repair.specs.References.{LogView};

    ghost Value = { LogView };

    ghost view = { λ l. record { packets = l.packets; held = l.held.items; found = l.found.items } };
}

impl ReferenceLog {
    /// Returns the log before the first byte.
    pub fn new(alloc: Global) -> ReferenceLog
        ensures { result ≡ spec.no_packet }
    {
        ReferenceLog {
            packets: 0,
            held: ArrayVec::new(),
            found: Vec::new(alloc),
        }
    }

    /// Returns the references, in the order of their packets.
    pub fn into_references(self) -> Vec<FoundPcr>
        ensures { result.items ≡ self.found }
    {
        self.found
    }

    // Takes a packet; no byte is held after it.
    fn take_packet(&mut self, bytes: &[u8; 188]) -> Result<(), AllocError>
        ensures { OnOk result (self.new ≡ spec.with_packet self.old bytes.now) }
    {
        if let Some(reference) = pcr_at(self.packets, bytes) {
            self.found.push(reference)?;
        }
        self.packets = self.packets.saturating_add(1);
        self.held.clear();
        Ok(())
    }

    // Takes a byte.
    #[tactic(auto, using(crate::proofs::LoggedBytes::byte_held, crate::proofs::LoggedBytes::byte_ends))]
    fn take_byte(&mut self, byte: u8) -> Result<(), AllocError>
        ensures { OnOk result (self.new ≡ spec.completed self.old (self.old.held ++ byte ∷ [])) }
    {
        if self.held.len() < 187 {
            self.held.push(byte);
            return Ok(());
        }
        let packet = joined(self.held.as_slice(), byte);
        self.take_packet(&packet)
    }

    // Takes the next byte, and returns how many that are.
    #[tactic(auto, using(crate::proofs::LoggedBytes::byte_logged))]
    fn take_one(&mut self, bytes: &[u8]) -> Result<usize, AllocError>
        requires { 0 < length bytes.now }
        ensures some { IfOk result (λ n. 0 < n) }
        ensures within { IfOk result (λ n. n ≤ length bytes.now) }
        ensures logged { IfOk result (λ n. self.new ≡ spec.logged self.old (take n bytes.now)) }
    {
        self.take_byte(bytes[0])?;
        Ok(1)
    }

    // Takes the next packet, if it is whole and no byte is held, else one byte, and returns how many bytes these are.
    fn advance(&mut self, bytes: &[u8]) -> Result<usize, AllocError>
        requires { 0 < length bytes.now }
        ensures some { IfOk result (λ n. 0 < n) }
        ensures within { IfOk result (λ n. n ≤ length bytes.now) }
        ensures logged { IfOk result (λ n. self.new ≡ spec.logged self.old (take n bytes.now)) }
    {
        if !self.held.is_empty() {
            return self.take_one(bytes);
        }
        match bytes.first_chunk::<188>() {
            None => self.take_one(bytes),
            Some(packet) => {
                self.take_packet(packet)?;
                Ok(188)
            }
        }
    }

    /// Takes the next bytes of the stream, however many.
    pub fn push(&mut self, bytes: &[u8]) -> Result<(), AllocError>
        ensures { OnOk result (self.new ≡ spec.logged self.old bytes.now) }
    {
        let mut at = 0;
        while at < bytes.len() {
            let (_, rest) = bytes.split_at(at);
            let taken = self.advance(rest)?;
            at += taken;
        }
        Ok(())
    }
}
