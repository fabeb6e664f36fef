//! How the bytes of a unit are kept: as a copy, or where they were found.

ghost use Rattle.std.specs.Prelude.{◌≡◌, ◌++◌, ◌==◌, ℕ, List, length, IfOk, OnOk, OnErr};

use std::alloc::{AllocError, Allocator, Global};
use std::marker::Model;

/// The bytes of a unit.
pub trait UnitBytes: Sized + Drop {
    ghost bytes: { Self → List ℕ };

    /// Returns whether there are none.
    fn is_empty(&self) -> bool
        ensures { result ≡ (length (bytes self.now) == 0) };

    /// Appends a copy of the bytes of another PES packet.
    fn append(&mut self, body: &[u8]) -> Result<(), AllocError>
        ensures ok { OnOk result (bytes self.new ≡ bytes self.old ++ body.now) }
        ensures err { OnErr result (bytes self.new ≡ bytes self.old) };
}

/// Bytes of a unit that can start with the body of a PES packet.
pub trait BodyBytes<'f, A>: UnitBytes {
    /// Returns the bytes of a unit that starts with this body.
    fn of_body(alloc: A, body: &'f [u8]) -> Result<Self, AllocError>
        ensures { IfOk result (λ b. Self.bytes b ≡ body.now) };
}

impl<A: Allocator> UnitBytes for Vec<u8, A> {
    ghost bytes = { λ v. v.items };

    fn is_empty(&self) -> bool {
        self.len() == 0
    }

    fn append(&mut self, body: &[u8]) -> Result<(), AllocError> {
        self.extend_from_slice(body)?;
        Ok(())
    }
}

impl<'f, A: Allocator> BodyBytes<'f, A> for Vec<u8, A> {
    fn of_body(alloc: A, body: &'f [u8]) -> Result<Vec<u8, A>, AllocError> {
        Vec::from_slice(alloc, body)
    }
}

/// Bytes of a unit; the first PES packet's bytes stay in its finding.
#[derive(Drop)]
pub struct LentBytes<'f, A: Allocator = Global> {
    /// The body of the first PES packet.
    pub body: &'f [u8],
    /// The bytes of the PES packets that continue it.
    pub more: Vec<u8, A>,
}

// A contract sees the bytes, and not where they are kept.
impl<'f, A: Allocator> Model for LentBytes<'f, A> {
    ghost Value = { List ℕ };

    ghost view = { λ b. b.body.now ++ b.more.items };
}

impl<'f, A: Allocator> LentBytes<'f, A> {
    /// Returns how many bytes there are.
    pub fn len(&self) -> usize
        ensures { result ≡ length self.now }
    {
        self.body.len() + self.more.len()
    }
}

impl<'f, A: Allocator> UnitBytes for LentBytes<'f, A> {
    ghost bytes = { λ b. b };

    fn is_empty(&self) -> bool {
        self.body.is_empty() && self.more.is_empty()
    }

    fn append(&mut self, body: &[u8]) -> Result<(), AllocError> {
        self.more.extend_from_slice(body)?;
        Ok(())
    }
}

impl<'f, A: Allocator> BodyBytes<'f, A> for LentBytes<'f, A> {
    fn of_body(alloc: A, body: &'f [u8]) -> Result<LentBytes<'f, A>, AllocError> {
        let more = Vec::new(alloc);
        Ok(LentBytes { body, more })
    }
}
