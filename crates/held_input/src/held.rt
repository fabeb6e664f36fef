//! A reader that shows which bytes it holds.
ghost use Rattle.std.specs.Prelude.{◌≡◌, ℕ, [], List, IfSome};
ghost use Rattle.std.specs.Io.{StartsWith};

use counted_io::{Counted, Source};
use std::io::Read;

/// A reader that shows which bytes it holds: its next reads give these bytes, and call no device for them.
pub trait HeldInput: Source {
    ghost held: { Self → List ℕ };

    /// Returns the bytes that it holds. Where the bytes that are left are known, they are the first of these.
    fn held(&self) -> &[u8]
        ensures value { result.now ≡ held self.now }
        ensures front { IfSome (Self.remaining self.now) (λ xs. StartsWith xs result.now) };
}

/// Holds no bytes, as far as it knows.
impl<T: Read> HeldInput for Counted<T> {
    ghost held = { λ _. [] };

    fn held(&self) -> &[u8] {
        &[]
    }
}
