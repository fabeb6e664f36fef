//! The clock reference of a packet (ISO/IEC 13818-1, 2.4.3.4 and 2.4.3.5).

ghost use Rattle.std.specs.Prelude.{◌≡◌, Result, option_map};
ghost use Rattle.bit_fields.specs.Reading.{Gives};
ghost use Rattle.ts_packet.specs.Views.{PacketView, adaptation_view, field_view, packet_view};
ghost use Rattle.ts_packet.specs.declared.packet.PacketError.{PacketError};
ghost use Rattle.packet_pcr.specs.PacketPcr as spec;

use ts_packet::{Adaptation, AdaptationField, Packet, PacketError, read_packet};

/// A clock reference.
#[derive(Clone, Copy)]
pub struct FoundPcr {
    /// The packet's index in the stream.
    pub packet: u64,
    /// Its PID.
    pub pid: u16,
    /// program_clock_reference_base, in units of 90 kHz.
    pub base: u64,
    /// discontinuity_indicator.
    pub discontinuity: bool,
}

// Returns the clock reference of an adaptation field.
#[tactic(auto, unfolding(crate::specs::PacketPcr::pcr_with))]
fn pcr_in_field(packet: u64, pid: u16, parts: &AdaptationField<'_>) -> Option<FoundPcr>
    ensures { result ≡ spec.pcr_in_field packet pid (field_view parts.now) }
{
    let pcr = parts.pcr?;
    Some(FoundPcr {
        packet,
        pid,
        base: pcr.base,
        discontinuity: parts.discontinuity_indicator,
    })
}

// Returns the clock reference that may be in an adaptation field.
#[tactic(auto, unfolding(crate::specs::PacketPcr::pcr_in))]
fn pcr_in(packet: u64, pid: u16, adaptation: &Option<Adaptation<'_>>) -> Option<FoundPcr>
    ensures { result ≡ spec.pcr_in packet pid (option_map adaptation_view adaptation.now) }
{
    match adaptation {
        None => None,
        Some(Adaptation::Empty) => None,
        Some(Adaptation::Flagged(parts)) => pcr_in_field(packet, pid, parts),
    }
}

/// Returns the clock reference of a packet, as it was read.
#[tactic(auto, unfolding(crate::specs::PacketPcr::pcr_read))]
pub fn found_pcr(index: u64, read: &Result<Packet<'_>, PacketError>) -> Option<FoundPcr>
    ensures { (packet : Result PacketView PacketError) → Gives packet_view read.now packet →
        result ≡ spec.pcr_read index packet }
{
    match read {
        Err(_) => None,
        Ok(packet) => {
            if packet.header.transport_error_indicator {
                return None;
            }
            pcr_in(index, packet.header.pid, &packet.adaptation)
        }
    }
}

/// Returns the clock reference in the bytes of a packet.
pub fn pcr_at(index: u64, bytes: &[u8; 188]) -> Option<FoundPcr>
    ensures { result ≡ spec.pcr_at index bytes.now }
{
    let read = read_packet(bytes);
    found_pcr(index, &read)
}

impl FoundPcr {
    /// Returns whether the PCR belongs to the clock on a PID.
    #[tactic(auto, unfolding(crate::specs::PacketPcr::is_on))]
    pub fn is_on(self, pid: Option<u16>) -> bool
        ensures { result ≡ spec.is_on self.pid pid }
    {
        match pid {
            None => false,
            Some(pid) => pid == self.pid,
        }
    }
}
