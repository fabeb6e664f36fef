//! Fields in packets, each once for a PID.

ghost use Rattle.std.specs.Prelude.{◌≡◌, ◌<◌, ◌++◌, ◌==◌, [], ◌∷◌, List, OnErr, OnOk, length, slice_index};
ghost use Rattle.std.specs.Int.{bit_at};
ghost use Rattle.packet_sync.specs.FieldsLeftOut as spec;
ghost use Rattle.packet_sync.specs.FieldMasks.{AreMasks, SetsBit};
ghost use Rattle.packet_sync.specs.Fields.{number_of};
ghost use Rattle.packet_sync.specs.declared.left_out.FieldLeftOut.{FieldLeftOut as NotedField};

use crate::field::Field;
use crate::left_out::FieldLeftOut;
use std::alloc::{AllocError, Allocator};
use std::marker::Model;

/// The number of PIDs: a PID has 13 bits (ISO/IEC 13818-1, 2.4.3.3).
const PIDS: usize = 8192;

/// Fields in packets, each once for a PID, in the order of their first packets. A field is found by its PID, without a
/// search.
#[derive(Drop)]
pub(crate) struct NotedFields<A: Allocator> {
    fields: Vec<FieldLeftOut, A>,
    // By PID: the bit at the number of each field that is noted. Empty before the first field.
    masks: Vec<u16, A>,
}

// A contract sees the fields as a list. The masks agree with them.
impl<A: Allocator> Model for NotedFields<A> {
    ghost use Rattle.std.specs.Prelude.{List};
    ghost use Rattle.packet_sync.specs.FieldMasks.{AreMasks};
    ghost use Rattle.packet_sync.specs.declared.left_out.FieldLeftOut.{FieldLeftOut};

    ghost Value = { List FieldLeftOut };

    ghost view = { λ n. n.fields.items };

    ghost invariant = { λ n. AreMasks n.masks.items n.fields.items };
}

// Returns the mask of a PID; 0 before the first field.
fn mask_of(masks: &[u16], pid: u16) -> u16
    ensures { result ≡ slice_index masks.now pid }
{
    match masks.get(pid as usize) {
        Some(mask) => *mask,
        None => 0,
    }
}

// Returns whether the bit at a field's number is set.
fn is_set(mask: u16, number: u8) -> bool
    requires { number < 16 }
    ensures { result ≡ (bit_at mask number == 1) }
{
    (mask >> number) % 2 == 1
}

// Sets the bit at a field's number.
fn with_bit(mask: u16, number: u8) -> u16
    requires { number < 16 }
    ensures { SetsBit mask number result }
{
    mask | 1 << number
}

// Makes the masks, unless they are made.
fn make_masks<A: Allocator>(masks: &mut Vec<u16, A>) -> Result<(), AllocError>
    ensures made { (found : List NotedField) → AreMasks masks.old.items found →
        OnOk result (AreMasks masks.new.items found) }
    ensures size { (found : List NotedField) → AreMasks masks.old.items found →
        OnOk result (length masks.new.items ≡ 8192) }
    ensures err { OnErr result (masks.new.items ≡ masks.old.items) }
{
    if masks.is_empty() {
        masks.resize(PIDS, 0)?;
    }
    Ok(())
}

// Sets the bit of a field in the mask of a PID.
fn set_bit<A: Allocator>(masks: &mut Vec<u16, A>, pid: u16, number: u8)
    requires size { length masks.old.items ≡ 8192 }
    requires pid { pid < 8192 }
    requires number { number < 16 }
    ensures { (found : List NotedField) (f : NotedField) → f.pid ≡ pid → number_of f.field ≡ number →
        AreMasks masks.old.items found → AreMasks masks.new.items (found ++ f ∷ []) }
{
    let mask = with_bit(mask_of(masks, pid), number);
    masks[pid as usize] = mask;
}

impl<A: Allocator> NotedFields<A> {
    // Returns whether a field of a PID is noted.
    fn has(&self, pid: u16, field: Field) -> bool
        requires { pid < 8192 }
        ensures { result ≡ spec.is_noted self.now pid field }
    {
        is_set(mask_of(&self.masks, pid), field.number())
    }

    // Appends a field of a PID.
    fn append(&mut self, pid: u16, field: Field) -> Result<(), AllocError>
        requires { pid < 8192 }
        ensures { OnOk result (self.new ≡ self.old ++ record { pid = pid; field = field } ∷ []) }
    {
        make_masks(&mut self.masks)?;
        self.fields.push(FieldLeftOut { pid, field })?;
        set_bit(&mut self.masks, pid, field.number());
        Ok(())
    }

    /// Appends a field of a PID, if it is in a packet and not noted yet.
    #[tactic(auto, unfolding(crate::specs::FieldsLeftOut::with_field))]
    pub(crate) fn note(&mut self, pid: u16, field: Field, present: bool) -> Result<(), AllocError>
        requires { pid < 8192 }
        ensures { OnOk result (self.new ≡ spec.with_field pid field present self.old) }
    {
        if present && !self.has(pid, field) {
            self.append(pid, field)?;
        }
        Ok(())
    }

    /// Returns the fields.
    pub(crate) fn into_fields(self) -> Vec<FieldLeftOut, A>
        ensures { result.items ≡ self }
    {
        self.fields
    }
}

impl<A: Allocator + Copy> NotedFields<A> {
    /// Returns no field.
    pub(crate) fn new(alloc: A) -> NotedFields<A>
        ensures { result ≡ [] }
    {
        NotedFields {
            fields: Vec::new(alloc),
            masks: Vec::new(alloc),
        }
    }
}
