//! The search for packets at the front of an input, while its bytes arrive.

ghost use Rattle.std.specs.Prelude.{◌≡◌, ◌≤◌, ◌++◌, ◌&&◌, ◌||◌, not, [], List, OnOk, ℕ, is_some, take, true};
ghost use Rattle.packet_sync.specs.OtherPackets.{other_packets};
ghost use Rattle.packet_sync.specs.PacketSearch.{IsSearched};
ghost use Rattle.packet_sync.specs.FrontForms.{form_of};
ghost use Rattle.packet_sync.specs.NoStreams as spec;

use crate::file_form::FileForm;
use crate::five_search::FiveSearch;
use crate::front_form::form_of;
use crate::packet_sizes::{FRONT, OtherPackets, other_packets};
use std::alloc::{AllocError, Global};
use std::marker::Model;

/// The search for packets at the front of a stream. It holds the first 409 bytes, and at most 752 others.
#[derive(Drop)]
pub struct PacketSearch {
    front: Vec<u8>,
    five: FiveSearch,
}

// A contract sees the first bytes as a list.
impl Model for PacketSearch {
    ghost use Rattle.packet_sync.specs.PacketSearch.{SearchView};

    ghost Value = { SearchView };

    ghost view = { λ s. record { front = s.front.items; five = s.five } };
}

// Appends bytes to the first ones, as far as these go.
fn lengthen_front(front: &mut Vec<u8>, piece: &[u8]) -> Result<(), AllocError>
    ensures { (stream : List ℕ) → front.old.items ≡ take 409 stream →
        OnOk result (front.new.items ≡ take 409 (stream ++ piece.now)) }
{
    let missing = FRONT.saturating_sub(front.len());
    let (next, _) = piece.split_at(missing.min(piece.len()));
    front.extend_from_slice(next)?;
    Ok(())
}

// Returns whether there are no packets: `lacks`: none are in the first 4 MiB; `five`: five in a row are in the bytes.
fn lacks_by(lacks: bool, known: bool, five: bool) -> bool
    ensures { result ≡ (lacks || known && not five) }
{
    lacks || (known && !five)
}

// Returns what an input is, if it has no packets (`lacks`) and no packets of another size at its front.
#[tactic(auto, unfolding(crate::specs::NoStreams::no_stream_by))]
fn no_stream_by(other: Option<OtherPackets>, lacks: bool, form: FileForm) -> Option<FileForm>
    ensures { result ≡ spec.no_stream_by other lacks form }
{
    match other {
        Some(_) => None,
        None => { if lacks { Some(form) } else { None } }
    }
}

impl PacketSearch {
    /// Returns the state before the first byte.
    pub fn new(alloc: Global) -> PacketSearch
        ensures { (bytes : List ℕ) → bytes ≡ [] → IsSearched bytes result }
    {
        PacketSearch {
            front: Vec::new(alloc),
            five: FiveSearch::new(alloc),
        }
    }

    /// Takes the next bytes.
    pub fn take(&mut self, piece: &[u8]) -> Result<(), AllocError>
        ensures { (bytes : List ℕ) → IsSearched bytes self.old →
            OnOk result (IsSearched (bytes ++ piece.now) self.new) }
    {
        lengthen_front(&mut self.front, piece)?;
        self.five.take(piece)?;
        Ok(())
    }

    /// Returns which packets of another size are at the front, if any.
    pub fn other_packets(&self) -> Option<OtherPackets>
        ensures { (bytes : List ℕ) → IsSearched bytes self.now → result ≡ other_packets bytes }
    {
        other_packets(&self.front)
    }

    /// Returns what the bytes are, if they are no transport stream.
    pub fn no_stream(&self) -> Option<FileForm>
        ensures { (bytes : List ℕ) → IsSearched bytes self.now → result ≡ spec.no_stream bytes }
    {
        let form = form_of(&self.front);
        let lacks = lacks_by(
            self.five.lacks_five(),
            form.is_known(),
            self.five.has_five(),
        );
        no_stream_by(self.other_packets(), lacks, form)
    }

    /// Returns whether the bytes are known to be no transport stream, whatever bytes follow.
    pub fn is_settled(&self) -> bool
        ensures { (bytes more : List ℕ) → IsSearched bytes self.now → result ≡ true →
            is_some (spec.no_stream (bytes ++ more)) ≡ true }
    {
        match self.other_packets() {
            Some(_) => false,
            None => self.five.lacks_five(),
        }
    }
}
