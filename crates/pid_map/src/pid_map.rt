//! A map by PID.
ghost use Rattle.std.specs.Prelude.{◌≡◌, ◌<◌, [], Some, is_some, nat_eq, position, slice_get};
ghost use Rattle.std.specs.Prelude.{IfOk, IfSome, OnOk, OnErr, IsOk};
ghost use Rattle.std.specs.Borrow.{Lends, sem};
ghost use Rattle.std.specs.Map.{keys_of, lookup};
ghost use Rattle.indexmap.specs.IndexMap.{index_map_len, insert_entry, spare, with_value_at, values};

use indexmap::IndexMap;
use std::alloc::{AllocError, AllocFailed, Allocator};
use std::hash::{BuildHasherDefault, FoldHasher};
use std::marker::Model;

/// Entries by PID, in the order of each PID's first packet.
pub type PidEntries<V, A> = IndexMap<u16, V, BuildHasherDefault<FoldHasher>, A>;

// For how many PIDs it is kept where their entries are.
const PLACES: usize = 64;

/// Entries by PID, in the order of each PID's first packet, and the places of the last PIDs' entries.
#[derive(Drop)]
pub struct PidMap<V, A: Allocator> {
    entries: PidEntries<V, A>,
    // by the rest of a PID: where the entry of the last one with that rest is, if it is there
    places: [usize; PLACES],
}

// A contract sees the entries.
impl<V, A: Allocator> Model for PidMap<V, A> {
    ghost use Rattle.pid_map.specs.PidMaps.{PidEntries, pid_entries_code};

    ghost Value = { PidEntries V };

    ghost coded = { pid_entries_code V.code };

    ghost view = { λ m. m.entries };
}

impl<V, A: Allocator> PidMap<V, A> {
    ghost use Rattle.pid_map.specs.contracts.pid_map.PidMap.{the_row};

    /// Returns no entries.
    pub fn new(alloc: A) -> PidMap<V, A>
    where
        A: Copy,
        ensures entries { result.entries ≡ [] }
    {
        PidMap {
            entries: IndexMap::new(alloc),
            places: [0; PLACES],
        }
    }

    /// Returns the entries.
    #[inline(always)]
    pub fn entries(&self) -> &PidEntries<V, A>
        ensures { result.now ≡ self.now }
    {
        &self.entries
    }

    /// Returns the index of the PID's entry, if it is the entry of the last PID with the same rest. It searches
    /// nothing.
    #[inline(always)]
    pub fn noted(&self, pid: u16) -> Option<usize>
        ensures index { IfSome result (λ i. position (nat_eq pid) (keys_of self.now.entries) ≡ Some i) }
        ensures within { IfSome result (λ i. i < index_map_len self.now) }
        ensures value { IfSome result (λ i. slice_get (values self.now) i ≡ lookup (nat_eq pid) self.now.entries) }
    {
        let place = self.places[pid as usize % PLACES];
        if place < self.entries.len() {
            if let Some((at, _)) = self.entries.get_index(place) {
                if *at == pid {
                    return Some(place);
                }
            }
        }
        None
    }

    /// Returns whether a PID has an entry.
    #[inline(always)]
    #[tactic(auto, using(crate::proofs::Entries::found_there))]
    pub fn contains(&self, pid: u16) -> bool
        ensures { result ≡ is_some (lookup (nat_eq pid) self.now.entries) }
    {
        self.noted(pid).is_some() || self.entries.get(&pid).is_some()
    }

    /// Returns the index of the entry of a PID. It is searched for where it is not noted, and then noted.
    #[inline(always)]
    #[tactic(auto, using(crate::proofs::Entries::found_there))]
    pub fn index_of(&mut self, pid: u16) -> Option<usize>
        ensures same { self.new ≡ self.old }
        ensures index { result ≡ position (nat_eq pid) (keys_of self.old.entries) }
        ensures within { IfSome result (λ i. i < index_map_len self.old) }
        ensures value { IfSome result (λ i. slice_get (values self.old) i ≡ lookup (nat_eq pid) self.old.entries) }
        ensures found { is_some result ≡ is_some (lookup (nat_eq pid) self.old.entries) }
    {
        if let Some(index) = self.noted(pid) {
            return Some(index);
        }
        let index = self.entries.get_index_of(&pid)?;
        self.places[pid as usize % PLACES] = index;
        Some(index)
    }

    /// Returns the value at an index, to write.
    #[inline(always)]
    pub fn value_mut(&mut self, index: usize) -> &mut V
        requires { index < index_map_len self.old }
        ensures* writes_back { sem 𝓛 (Lends (the_row V.row A.row A.Allocator) V.row self.entry result
            (with_value_at self.old index)) }
        ensures value { slice_get (values self.old) index ≡ Some result.now }
    {
        &mut self.entries[index]
    }

    /// Removes all entries.
    pub fn clear(&mut self)
    where
        V: Drop,
        ensures { self.new.entries ≡ [] }
    {
        self.entries.clear();
    }
}

impl<V, A: Allocator + Clone> PidMap<V, A> {
    /// Makes room for an entry more.
    pub fn reserve_one(&mut self) -> Result<(), AllocError>
        ensures entries { self.new.entries ≡ self.old.entries }
        ensures room { OnOk result (0 < spare self.new) }
    {
        self.entries.reserve(1)
    }

    /// Inserts an entry: where the PID has one its value is replaced and returned, else it is the last.
    pub fn insert(&mut self, pid: u16, value: V) -> Result<Option<V>, AllocFailed<(u16, V)>>
        ensures before { IfOk result (λ before. before ≡ lookup (nat_eq pid) self.old.entries) }
        ensures entries { OnOk result (self.new.entries ≡ insert_entry nat_eq self.old.entries pid value) }
        ensures err { OnErr result (self.new.entries ≡ self.old.entries) }
        ensures succeeds { 0 < spare self.old → IsOk result }
    {
        self.entries.insert(pid, value)
    }
}
