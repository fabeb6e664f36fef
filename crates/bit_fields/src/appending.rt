//! Appending bytes to a vector of fixed capacity, as each writer of a format does.

ghost use Rattle.std.specs.Prelude.{◌≡◌, ◌+◌, ◌≤◌, ◌++◌, length};
ghost use Rattle.arrayvec.specs.ArrayVec.{array_vec_len};

use arrayvec::ArrayVec;

/// Appends bytes, for which there is room. It takes no memory.
pub fn append<const N: usize>(out: &mut ArrayVec<u8, N>, bytes: &[u8])
    requires { array_vec_len out.old + length bytes.now ≤ N }
    ensures items { out.new.items ≡ out.old.items ++ bytes.now }
    ensures len { array_vec_len out.new ≡ array_vec_len out.old + length bytes.now }
{
    let _ = out.try_extend_from_slice(bytes);
}
