//! An input, read to its end piece by piece.
ghost use Rattle.std.specs.Prelude.{◌≡◌, ℕ, ◌%◌, ◌^◌, ◌<◌, ◌≤◌, ◌++◌, List, [], OnOk, IfOk, IfErr, length};
ghost use Rattle.devices.specs.Devices.{reads};
ghost use Rattle.devices.specs.WholeInput.{ReadsNext, TakesInput, longest_input};

use crate::halt::Halt;
use counted_io::{Source, read_part};
use std::alloc::Global;

/// The greatest number of bytes of an input.
pub const LONGEST_INPUT: usize = 1 << 40;

/// A type that takes the bytes of an input, piece by piece.
pub trait PieceTaker {
    // Each piece but the last has a multiple of this number of bytes.
    ghost unit: { ℕ };

    // From the first state on it has taken these bytes, which left the second.
    ghost has_taken: { Self → List ℕ → Self → Type 0 };

    /// Takes the next piece.
    fn take_piece(&mut self, piece: &[u8]) -> Result<(), Halt>
        ensures taken { (first : Self) (bytes : List ℕ) → length bytes % unit ≡ 0 → has_taken first bytes self.old
            → OnOk result (has_taken first (bytes ++ piece.now) self.new) }
        ensures memory { IfErr result (λ halt. halt ≡ Halt.Memory) };
}

/// Returns a piece of this many bytes.
pub fn new_piece(alloc: Global, size: usize) -> Result<Vec<u8>, Halt>
    ensures ok { IfOk result (λ piece. length piece.items ≡ size) }
    ensures err { IfErr result (λ halt. halt ≡ Halt.Memory) }
{
    match vec![in alloc; 0u8; size] {
        Ok(piece) => Ok(piece),
        Err(_) => Err(Halt::Memory),
    }
}

/// Reads the next bytes of the input into a piece, fewer than it holds only if the input ends, and returns their
/// number.
pub fn read_piece<R: Source>(input: &mut R, piece: &mut [u8]) -> Result<usize, Halt>
    ensures { ReadsNext (reads R.Source input.old input.new) piece.new result }
{
    match read_part(input, piece) {
        Ok(n) => Ok(n),
        Err(_) => Err(Halt::Read),
    }
}

/// Returns the size of an input, if it is no longer than the longest input.
pub fn size_within(size: usize) -> Result<usize, Halt>
    ensures ok { IfOk result (λ n. (n ≡ size) × (size ≤ longest_input)) }
    ensures err { IfErr result (λ halt. (halt ≡ Halt.Read) × (longest_input < size)) }
{
    if size <= LONGEST_INPUT {
        Ok(size)
    } else {
        Err(Halt::Read)
    }
}

/// Reads the input to its end into `piece`, again and again, and gives the taker what was read.
fn take_pieces<R: Source, T: PieceTaker>(
    input: &mut R,
    piece: &mut [u8],
    taker: &mut T,
) -> Result<usize, Halt>
    requires some { 0 < length piece.old }
    requires bound { length piece.old ≤ 2 ^ 32 }
    requires unit { length piece.old % T.unit ≡ 0 }
    requires start { T.has_taken taker.old [] taker.old }
    ensures { TakesInput (λ bytes. T.has_taken taker.old bytes taker.new)
        (reads R.Source input.old input.new) result }
{
    let mut size = 0;
    while size <= LONGEST_INPUT {
        let n = read_piece(input, piece)?;
        taker.take_piece(&piece[..n])?;
        size += n;
        if n < piece.len() {
            return size_within(size);
        }
    }
    Err(Halt::Read)
}

/// Reads the whole input, of 2^40 bytes at most, in pieces of `size` bytes, gives each to the taker, and returns the
/// number of bytes.
pub fn take_input<R: Source, T: PieceTaker>(
    alloc: Global,
    input: &mut R,
    size: usize,
    taker: &mut T,
) -> Result<usize, Halt>
    requires some { 0 < size }
    requires bound { size ≤ 2 ^ 32 }
    requires unit { size % T.unit ≡ 0 }
    requires start { T.has_taken taker.old [] taker.old }
    ensures { TakesInput (λ bytes. T.has_taken taker.old bytes taker.new)
        (reads R.Source input.old input.new) result }
{
    let mut piece = new_piece(alloc, size)?;
    take_pieces(input, &mut piece, taker)
}
