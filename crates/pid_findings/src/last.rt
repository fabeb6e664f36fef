//! The state of a packet that marks the next packet of its PID.
ghost use Rattle.std.specs.Prelude.{◌≡◌};
ghost use Rattle.std.specs.Str.{bytes_eq};
ghost use Rattle.ts_packet.specs.PcrBytes.{without_pcr};

use std::marker::Model;
use ts_packet::is_same_without_pcr;

/// The last packet of a PID.
#[derive(Drop)]
pub struct Last {
    pub(crate) duplicate: bool,
    pub(crate) has_payload: bool,
    pub(crate) counter: u8,
    pub(crate) has_pcr: bool,
    pub(crate) bytes: [u8; 188],
}

impl Model for Last {
    ghost use Rattle.pid_findings.specs.Marks.{LastView};
    ghost use Rattle.ts_packet.specs.PcrBytes.{without_pcr};

    ghost Value = { LastView };

    ghost view = { λ l. record {
      duplicate = l.duplicate;
      has_payload = l.has_payload;
      counter = l.counter;
      content = without_pcr l.has_pcr l.bytes;
    } };
}

impl Last {
    /// Returns whether all bytes except a program clock reference's bytes equal these.
    pub fn has_content(&self, has_pcr: bool, bytes: &[u8; 188]) -> bool
        ensures { result ≡ bytes_eq (without_pcr has_pcr bytes.now) self.now.content }
    {
        is_same_without_pcr(bytes, has_pcr, &self.bytes, self.has_pcr)
    }
}
