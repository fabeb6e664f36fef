//! The loop of transport streams that a network information section holds, as it is built.

ghost use Rattle.std.specs.Prelude.{◌≡◌, is_some, true};
ghost use Rattle.psi_tables.specs.Loops.{loop_at};
ghost use Rattle.dvb_tables.specs.declared.transport_stream_loop.TheConstants.{GREATEST_TRANSPORT_STREAM_LOOP};

use crate::transport_stream::{TransportStream, TransportStreams};
use arrayvec::ArrayVec;
use psi_tables::SectionError;

/// The bytes that a section has room for after the front of a network information table.
pub const GREATEST_TRANSPORT_STREAM_LOOP: usize = 1008;

/// Transport streams that are being built: whole entries, kept as their bytes one after another, without
/// memory; as many as fit in one section.
#[derive(Drop)]
pub struct TransportStreamLoop {
    bytes: ArrayVec<u8, 1008>,
    ghost whole: { is_some (loop_at 6 bytes.items) ≡ true },
}

impl TransportStreamLoop {
    ghost use Rattle.std.specs.Prelude.{◌↔◌, ◌≤◌, [], ◌∷◌, ◌++◌, length, IsOk, OnOk, OnErr, IfErr};
    ghost use Rattle.dvb_tables.specs.TransportStreams.{transport_stream_view, transport_streams_of};
    ghost use Rattle.dvb_tables.specs.TransportStreams.{transport_streams_bytes, transport_stream_loop_of};

    /// Returns no transport streams.
    #[tactic(auto, unfolding(crate::specs::TransportStreams::transport_stream_loop_of))]
    pub fn new() -> TransportStreamLoop
        ensures { transport_stream_loop_of result ≡ [] }
    {
        TransportStreamLoop {
            bytes: ArrayVec::new(),
        }
    }

    /// Returns the transport streams, in order.
    #[tactic(auto, unfolding(crate::specs::TransportStreams::transport_stream_loop_of))]
    pub fn transport_streams(&self) -> TransportStreams<'_>
        ensures { transport_streams_of result ≡ transport_stream_loop_of self.now }
    {
        TransportStreams::of_whole(self.bytes.as_slice())
    }

    /// Adds a transport stream at the end, or refuses it as `TooLong` if the section has no room for it.
    #[tactic(auto, unfolding(crate::specs::TransportStreams::transport_stream_loop_of))]
    pub fn push(&mut self, transport_stream: &TransportStream<'_>) -> Result<(), SectionError>
        ensures variant { IsOk result ↔ (length (transport_streams_bytes (transport_stream_loop_of self.old
            ++ transport_stream_view transport_stream.now ∷ [])) ≤ GREATEST_TRANSPORT_STREAM_LOOP) }
        ensures ok { OnOk result (transport_stream_loop_of self.new
            ≡ transport_stream_loop_of self.old ++ transport_stream_view transport_stream.now ∷ []) }
        ensures too_long { IfErr result (λ e. e ≡ SectionError.TooLong) }
        ensures unchanged { OnErr result (self.new ≡ self.old) }
    {
        let room = GREATEST_TRANSPORT_STREAM_LOOP - self.bytes.len();
        if room < 6 + transport_stream.descriptors.len() {
            return Err(SectionError::TooLong);
        }
        transport_stream.append_to(&mut self.bytes);
        Ok(())
    }
}
