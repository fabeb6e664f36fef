//! Bytes that wait for a write.

ghost use Rattle.std.specs.Prelude.{◌≡◌, ◌≤◌, ◌+◌, ◌++◌, [], drop, length, take};

use std::marker::Model;

/// The most bytes that wait for one write.
pub(crate) const ROOM: usize = 1 << 16;

/// Bytes that wait for a write. Where they are written nothing is done to the room that they had.
#[derive(Drop)]
pub(crate) struct PendingBytes {
    room: [u8; ROOM],
    size: usize,
}

// A contract sees the bytes.
impl Model for PendingBytes {
    ghost use Rattle.std.specs.Prelude.{◌≤◌, take};
    ghost use Rattle.es_feed.specs.Records.{PendingView};

    ghost Value = { PendingView };

    ghost view = { λ p. record { items = take p.size p.room } };

    ghost invariant = { λ p. p.size ≤ 65536 };
}

// Overwrites the bytes from a place on.
fn overwrite(room: &mut [u8], at: usize, part: &[u8])
    requires { at + length part.now ≤ length room.old }
    ensures { room.new ≡ take at room.old ++ (part.now ++ drop (at + length part.now) room.old) }
{
    let (_, free) = room.split_at_mut(at);
    let (next, _) = free.split_at_mut(part.len());
    next.copy_from_slice(part);
}

impl PendingBytes {
    /// Returns no excesses.
    pub(crate) fn new() -> PendingBytes
        ensures { result.items ≡ [] }
    {
        PendingBytes {
            room: [0; ROOM],
            size: 0,
        }
    }

    /// Returns how many further bytes there is room for.
    pub(crate) fn free(&self) -> usize
        ensures { result + length self.now.items ≡ 65536 }
    {
        ROOM - self.size
    }

    /// Returns the bytes.
    pub(crate) fn as_slice(&self) -> &[u8]
        ensures { result.now ≡ self.now.items }
    {
        let (bytes, _) = self.room.split_at(self.size);
        bytes
    }

    /// Forgets them.
    pub(crate) fn clear(&mut self)
        ensures { self.new.items ≡ [] }
    {
        self.size = 0;
    }

    /// Appends bytes, for which there is room.
    pub(crate) fn append(&mut self, part: &[u8])
        requires { length self.old.items + length part.now ≤ 65536 }
        ensures { self.new.items ≡ self.old.items ++ part.now }
    {
        overwrite(&mut self.room, self.size, part);
        self.size += part.len();
    }
}
