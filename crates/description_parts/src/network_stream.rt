//! A transport stream of a network, with its descriptors there (EN 300 468, 5.2.1).

ghost use Rattle.std.specs.Prelude.{◌≡◌, ◌≤◌, List, length};

use description_values::DescriptorLoop;
use std::marker::Model;

/// A transport stream of the network other than this one.
#[derive(Drop)]
pub struct NetworkStream {
    pub transport_stream_id: u16,
    pub original_network_id: u16,
    pub descriptors: DescriptorLoop,
}

/// At most 64 transport streams, in order. A contract sees their list.
#[derive(Drop)]
pub struct NetworkStreams {
    pub(crate) streams: Vec<NetworkStream>,
}

impl Model for NetworkStreams {
    ghost use Rattle.std.specs.Prelude.{List, ◌≤◌, length};
    ghost use Rattle.description_parts.specs.declared.network_stream.NetworkStream.{NetworkStream};

    ghost Value = { List NetworkStream };

    ghost view = { λ s. s.streams.items };

    ghost invariant = { λ s. length s.streams.items ≤ 64 };
}

impl NetworkStreams {
    /// Returns them as a slice.
    pub fn as_slice(&self) -> &[NetworkStream]
        ensures value { result.now ≡ self.now }
        ensures few { length self.now ≤ 64 }
    {
        self.streams.as_slice()
    }
}
