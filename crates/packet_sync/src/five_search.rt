//! The search for five packets in a row, while the bytes of a stream arrive.

ghost use Rattle.std.specs.Prelude.{◌≡◌, ◌≤◌, ◌<◌, ◌+◌, ◌-◌, ◌^◌, ◌++◌, [], false, IfOk, List, OnOk, ℕ, drop, length, take};
ghost use Rattle.packet_sync.specs.PacketSearch.{IsSearchOf};
ghost use Rattle.packet_sync.specs.NoStreams as spec;

use crate::sync_bytes::{PACKET_SIZE, are_apart};
use std::alloc::{AllocError, Global};
use std::marker::Model;

/// Packets are searched for in this number of bytes at the front of a stream: 4 MiB.
const SEARCHED: usize = 1 << 22;

/// The number of bytes before the fifth sync byte of five packets in a row.
const FOUR_PACKETS: usize = 752;

/// The search for five packets in a row. It holds at most 752 bytes.
#[derive(Drop)]
pub(crate) struct FiveSearch {
    alloc: Global,
    size: usize,
    found: bool,
    tail: Vec<u8>,
}

// A contract sees the last bytes as a list.
impl Model for FiveSearch {
    ghost use Rattle.std.specs.Prelude.{◌≤◌};
    ghost use Rattle.packet_sync.specs.PacketSearch.{FiveView};

    ghost Value = { FiveView };

    ghost view = { λ s. record { size = s.size; found = s.found; tail = s.tail.items } };

    ghost invariant = { λ s. s.size ≤ 4194304 };
}

// Returns whether five packets in a row begin at this place.
#[tactic(auto, unfolding(crate::specs::NoStreams::are_five))]
fn are_five(bytes: &[u8], at: usize) -> bool
    requires { at < 2 ^ 63 }
    ensures { result ≡ spec.are_five bytes.now at }
{
    are_apart(bytes, at, PACKET_SIZE) && are_apart(bytes, at + 2 * PACKET_SIZE, PACKET_SIZE)
}

// Returns whether five packets in a row begin at some place.
fn has_five(bytes: &[u8]) -> bool
    ensures { result ≡ spec.has_five bytes.now }
{
    for at in 0..bytes.len() {
        if are_five(bytes, at) {
            return true;
        }
    }
    false
}

// Returns the bytes of a piece that are searched, if `size` bytes before it were searched.
fn searched_part(piece: &[u8], size: usize) -> &[u8]
    requires { size ≤ 4194304 }
    ensures { result.now ≡ take (4194304 - size) piece.now }
{
    let (next, _) = piece.split_at((SEARCHED - size).min(piece.len()));
    next
}

// Returns the last 752 bytes, or all if they are fewer.
fn last_bytes(bytes: &[u8]) -> &[u8]
    ensures { result.now ≡ drop (length bytes.now - 752) bytes.now }
{
    let (_, tail) = bytes.split_at(bytes.len().saturating_sub(FOUR_PACKETS));
    tail
}

// Returns two pieces as one.
fn joined(alloc: Global, some: &[u8], others: &[u8]) -> Result<Vec<u8>, AllocError>
    ensures { IfOk result (λ bytes. bytes.items ≡ some.now ++ others.now) }
{
    let mut bytes = Vec::from_slice(alloc, some)?;
    bytes.extend_from_slice(others)?;
    Ok(bytes)
}

impl FiveSearch {
    /// Returns the state before the first byte.
    pub(crate) fn new(alloc: Global) -> FiveSearch
        ensures { (bytes : List ℕ) → bytes ≡ [] → IsSearchOf bytes result }
    {
        FiveSearch {
            alloc,
            size: 0,
            found: false,
            tail: Vec::new(alloc),
        }
    }

    // Searches the next bytes of the first 4 MiB. `bytes`: the last 752 bytes before them, or all if they are fewer, and
    // these.
    fn search(&mut self, bytes: &[u8], next: &[u8]) -> Result<(), AllocError>
        requires { self.old.size + length next.now ≤ 4194304 }
        ensures size { OnOk result (self.new.size ≡ self.old.size + length next.now) }
        ensures searched { (part : List ℕ) → IsSearchOf part self.old →
            (self.old.found ≡ false → bytes.now ≡ drop (length part - 752) part ++ next.now) →
            OnOk result (IsSearchOf (part ++ next.now) self.new) }
    {
        if self.found {
            self.size += next.len();
            return Ok(());
        }
        let tail = Vec::from_slice(self.alloc, last_bytes(bytes))?;
        self.size += next.len();
        self.found = has_five(bytes);
        self.tail = tail;
        Ok(())
    }

    // Searches the next bytes of the first 4 MiB, behind a copy of the last ones.
    fn search_joined(&mut self, next: &[u8]) -> Result<(), AllocError>
        requires { self.old.size + length next.now ≤ 4194304 }
        ensures size { OnOk result (self.new.size ≡ self.old.size + length next.now) }
        ensures searched { (part : List ℕ) → IsSearchOf part self.old →
            OnOk result (IsSearchOf (part ++ next.now) self.new) }
    {
        let bytes = joined(self.alloc, &self.tail, next)?;
        self.search(&bytes, next)?;
        Ok(())
    }

    // Searches the next bytes of the first 4 MiB; all but the first 752 in place.
    fn search_all(&mut self, next: &[u8]) -> Result<(), AllocError>
        requires { self.old.size + length next.now ≤ 4194304 }
        ensures { (part : List ℕ) → IsSearchOf part self.old →
            OnOk result (IsSearchOf (part ++ next.now) self.new) }
    {
        if next.len() <= FOUR_PACKETS {
            return self.search_joined(next);
        }
        let (front, later) = next.split_at(FOUR_PACKETS);
        self.search_joined(front)?;
        self.search(next, later)?;
        Ok(())
    }

    /// Takes the next bytes of a stream.
    pub(crate) fn take(&mut self, piece: &[u8]) -> Result<(), AllocError>
        ensures { (bytes : List ℕ) → IsSearchOf (take 4194304 bytes) self.old →
            OnOk result (IsSearchOf (take 4194304 (bytes ++ piece.now)) self.new) }
    {
        let next = searched_part(piece, self.size);
        self.search_all(next)?;
        Ok(())
    }

    /// Returns whether five packets in a row are in the first 4 MiB.
    pub(crate) fn has_five(&self) -> bool
        ensures { (bytes : List ℕ) → IsSearchOf (take 4194304 bytes) self.now →
            result ≡ spec.has_five (take 4194304 bytes) }
    {
        self.found
    }

    /// Returns whether the first 4 MiB came, without five packets in a row.
    pub(crate) fn lacks_five(&self) -> bool
        ensures { (bytes : List ℕ) → IsSearchOf (take 4194304 bytes) self.now → result ≡ spec.lacks_five bytes }
    {
        self.size == SEARCHED && !self.found
    }
}
