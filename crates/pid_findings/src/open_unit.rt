//! The open unit of a PID: a section or a PES packet that has begun and is not decided.
ghost use Rattle.std.specs.Prelude.{◌≡◌, ◌≤◌, ◌++◌, [], IfOk, OnOk, OnErr, length, option_map, replicate};
ghost use Rattle.pid_findings.specs.OpenUnits.{max_unbounded_pes};
ghost use Rattle.pid_findings.specs.Bodies.{unit_without_body};

use crate::verdicts::head_of;
use arrayvec::ArrayVec;
use pes_packet::PesHeader;
use std::alloc::{AllocError, Allocator};
use std::marker::Model;

/// The kind of an open unit.
#[derive(Clone, Copy)]
pub enum UnitKind {
    Section,
    Pes,
}

/// A section or a PES packet from its first byte on, as far as it has come: at most 8,388,608 bytes.
///
/// The bytes of a PES packet's header are kept apart once it is read, so that the body can be moved to the finding. If
/// nobody reads the body, it is left out: the number of its bytes is kept, and they are read as zeros.
#[derive(Drop)]
pub(crate) struct OpenUnit<A: Allocator> {
    // the packet of its first byte
    pub packet: u64,
    pub kind: UnitKind,
    // of a PES packet: whether that packet has the random_access_indicator
    pub access: bool,
    // of a PES packet, once it is read and kept apart
    pub header: Option<PesHeader>,
    // its bytes, none until then: at most 264, since PES_header_data_length has 8 bits (ISO/IEC 13818-1, 2.4.3.6)
    pub front: ArrayVec<u8, 264>,
    // the number of the bytes after them that are left out
    pub left_out: usize,
    // the bytes after these
    pub bytes: Vec<u8, A>,
    // fewer bytes than these do not decide it
    pub least: usize,
}

impl<A: Allocator> Model for OpenUnit<A> {
    ghost use Rattle.std.specs.Prelude.{◌++◌, replicate};
    ghost use Rattle.pid_findings.specs.OpenUnits as units;

    ghost Value = { units.OpenUnit };

    ghost view = { λ u. record {
      packet = u.packet;
      kind = u.kind;
      access = u.access;
      bytes = u.front.items ++ (replicate u.left_out 0 ++ u.bytes.items);
    } };

    ghost invariant = { λ u. units.IsOpen u.header u.kind u.front.items
        (u.front.items ++ (replicate u.left_out 0 ++ u.bytes.items)) u.least
        × units.FollowsHeader u.header u.left_out };
}

impl<A: Allocator + Clone> OpenUnit<A> {
    /// Returns all its bytes, with room for `more` bytes.
    pub fn joined(&self, alloc: &A, more: usize) -> Result<Vec<u8, A>, AllocError>
        ensures { IfOk result (λ joined. joined.items ≡ self.now.bytes) }
    {
        let all = self.len().saturating_add(more);
        let mut joined = Vec::with_capacity(alloc.clone()?, all)?;
        joined.extend_from_slice(&self.front)?;
        push_zeros(&mut joined, self.left_out)?;
        joined.extend_from_slice(&self.bytes)?;
        Ok(joined)
    }
}

impl<A: Allocator> OpenUnit<A> {
    /// Returns the number of its bytes.
    pub fn len(&self) -> usize
        ensures len { result ≡ length self.now.bytes }
        ensures bound { result ≤ max_unbounded_pes }
    {
        self.front.len() + self.left_out + self.bytes.len()
    }

    // Sets apart the header of a PES packet, if it can be read, and leaves out the bytes after it.
    fn set_apart(&mut self)
        requires { self.old.kind ≡ UnitKind.Pes }
        ensures { self.new ≡ unit_without_body self.old }
    {
        if self.header.is_some() {
            self.left_out += self.bytes.len();
            give_back(&mut self.bytes);
            return;
        }
        let head = head_of(&self.bytes);
        let Some(header) = head.header else {
            return;
        };
        let Ok(()) = self.front.try_extend_from_slice(head.front) else {
            unreachable!()
        };
        self.left_out = head.rest.len();
        self.least = head.least;
        self.header = Some(header);
        give_back(&mut self.bytes);
    }

    /// Leaves out the body of a PES packet whose header can be read: its bytes are given back, and their number is
    /// kept.
    pub fn leave_out_body(&mut self)
        ensures { self.new ≡ unit_without_body self.old }
    {
        match self.kind {
            UnitKind::Section => {}
            UnitKind::Pes => self.set_apart(),
        }
    }
}

// Gives back the bytes, and their memory.
fn give_back<A: Allocator>(bytes: &mut Vec<u8, A>)
    ensures { bytes.new.items ≡ [] }
{
    bytes.clear();
    bytes.shrink_to_fit();
}

// Appends zeros.
fn push_zeros<A: Allocator>(bytes: &mut Vec<u8, A>, count: usize) -> Result<(), AllocError>
    ensures { OnOk result (bytes.new.items ≡ bytes.old.items ++ replicate count 0) }
{
    let Some(all) = bytes.len().checked_add(count) else {
        return Err(AllocError);
    };
    bytes.resize(all, 0)
}

/// Writes the bytes that are left out, as zeros, before the bytes that are kept.
pub(crate) fn fill<A: Allocator + Clone>(
    alloc: &A,
    left_out: &mut usize,
    bytes: &mut Vec<u8, A>,
) -> Result<(), AllocError>
    ensures none { OnOk result (left_out.new ≡ 0) }
    ensures bytes { OnOk result (bytes.new.items ≡ replicate left_out.old 0 ++ bytes.old.items) }
    ensures same { OnErr result (left_out.new ≡ left_out.old) }
    ensures err { OnErr result (bytes.new.items ≡ bytes.old.items) }
{
    if *left_out == 0 {
        return Ok(());
    }
    let all = left_out.saturating_add(bytes.len());
    let mut whole = Vec::with_capacity(alloc.clone()?, all)?;
    push_zeros(&mut whole, *left_out)?;
    whole.extend_from_slice(bytes)?;
    *bytes = whole;
    *left_out = 0;
    Ok(())
}
