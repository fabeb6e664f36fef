//! Sets of pairs of a PID and a program_number.

ghost use Rattle.std.specs.Prelude.{◌≡◌, ◌<◌, OnOk, is_some, nat_eq};
ghost use Rattle.std.specs.Map.{lookup};
ghost use Rattle.indexmap.specs.IndexMap.{insert_entry, spare};
ghost use Rattle.stream_programs.specs.NumberPairs.{pair_key};

use indexmap::IndexMap;
use std::alloc::{AllocError, Allocator};
use std::hash::{BuildHasherDefault, FoldHasher};

/// Pairs of a PID and a number, each by its key, with its number.
pub(crate) type NumberPairs<A> = IndexMap<u32, u16, BuildHasherDefault<FoldHasher>, A>;

// Returns the key of a PID and a number; each pair has its own key.
fn key_of(pid: u16, number: u16) -> u32
    ensures { result ≡ pair_key pid number }
{
    u32::from(pid) * 65_536 + u32::from(number)
}

/// Returns whether a pair is among these.
pub(crate) fn has_pair<A: Allocator>(pairs: &NumberPairs<A>, pid: u16, number: u16) -> bool
    ensures value { result ≡ is_some (lookup (nat_eq (pair_key pid number)) pairs.now.entries) }
    ensures number { number < 65_536 }
{
    pairs.contains_key(&key_of(pid, number))
}

/// Makes room for a pair more.
pub(crate) fn reserve_pair<A: Allocator + Copy>(
    pairs: &mut NumberPairs<A>,
) -> Result<(), AllocError>
    ensures same { pairs.new.entries ≡ pairs.old.entries }
    ensures room { OnOk result (0 < spare pairs.new) }
{
    pairs.reserve(1)
}

/// Adds a pair, for which there is room.
pub(crate) fn add_pair<A: Allocator + Copy>(pairs: &mut NumberPairs<A>, pid: u16, number: u16)
    requires room { 0 < spare pairs.old }
    ensures added { pairs.new.entries ≡ insert_entry nat_eq pairs.old.entries (pair_key pid number) number }
    ensures number { number < 65_536 }
{
    let Ok(_) = pairs.insert(key_of(pid, number), number) else {
        unreachable!();
    };
}
