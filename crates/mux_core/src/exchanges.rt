//! Elements that move from one vector to another by number.

ghost use Rattle.std.specs.Prelude.{◌≡◌, ℕ, ◌<◌, slice_get, slice_index_or, set, length};
ghost use Rattle.mux_core.specs.Exchanges.{exchanged, IsOnce};

use std::alloc::Allocator;
use std::mem;

// Exchanges an element for the one of a number, if there is one.
fn exchange_one<T, A: Allocator>(to: &mut T, from: &mut Vec<T, A>, number: usize)
    ensures to { to.new ≡ slice_index_or from.old.items number to.old }
    ensures from { from.new.items ≡ set from.old.items number to.old }
{
    if let Some(there) = from.get_mut(number) {
        mem::swap(to, there);
    }
}

/// Exchanges each element for the one of its number in the other vector, if it has a number.
pub fn exchange<T, A: Allocator>(
    to: &mut Vec<T, A>,
    from: &mut Vec<T, A>,
    numbers: &[Option<usize>],
)
    requires size { length numbers.now ≡ length to.old.items }
    requires once { IsOnce numbers.now }
    ensures { (k : ℕ) → slice_get to.new.items k ≡ exchanged to.old.items from.old.items numbers.now k }
{
    for place in 0..numbers.len() {
        if let Some(number) = numbers[place] {
            exchange_one(&mut to[place], from, number);
        }
    }
}
