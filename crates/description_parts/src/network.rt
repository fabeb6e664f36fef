//! The network that the transport stream belongs to.

ghost use Rattle.std.specs.Prelude.{◌≡◌, ◌≤◌, List, ℕ, length};

use crate::network_stream::NetworkStreams;
use arrayvec::ArrayVec;
use std::marker::Model;

/// The descriptors of the network, or of its transport stream: at most 700 bytes, and a name, or channel numbers of at most 64
/// services. A contract sees these bytes.
#[derive(Drop)]
pub struct NetworkDescriptors {
    pub(crate) bytes: ArrayVec<u8, 966>,
}

impl Model for NetworkDescriptors {
    ghost Value = { List ℕ };

    ghost view = { λ d. d.bytes.items };
}

impl NetworkDescriptors {
    /// Returns the bytes as they are written.
    pub fn as_bytes(&self) -> &[u8]
        ensures value { result.now ≡ self.now }
        ensures fits { length self.now ≤ 966 }
    {
        self.bytes.as_slice()
    }
}

/// The network (EN 300 468, 5.2.1).
#[derive(Drop)]
pub struct Network {
    pub id: u16,
    pub network_descriptors: NetworkDescriptors,
    /// The descriptors of this transport stream.
    pub descriptors: NetworkDescriptors,
    /// The other transport streams.
    pub streams: NetworkStreams,
}
