//! An input, read whole.
ghost use Rattle.std.specs.Prelude.{◌≡◌};
ghost use Rattle.std.specs.Result.{result_map_both};
ghost use Rattle.devices.specs.Devices.{reads};
ghost use Rattle.devices.specs.WholeInput.{ReadsInput};

use crate::halt::Halt;
use crate::piece_taker::{PieceTaker, take_input};
use counted_io::Source;
use std::alloc::Global;

/// The size of a piece in bytes.
const PIECE: usize = 1 << 18;

impl PieceTaker for Vec<u8> {
    ghost unit = { 1 };

    ghost has_taken = { λ first bytes now. now.items ≡ bytes };

    fn take_piece(&mut self, piece: &[u8]) -> Result<(), Halt> {
        match self.extend_from_slice(piece) {
            Ok(()) => Ok(()),
            Err(_) => Err(Halt::Memory),
        }
    }
}

/// Reads the whole input, of 2^40 bytes at most.
pub fn read_whole<R: Source>(alloc: Global, input: &mut R) -> Result<Vec<u8>, Halt>
    ensures { ReadsInput (reads R.Source input.old input.new)
        (result_map_both (λ bytes. bytes.items) (λ halt. halt) result) }
{
    let mut bytes = Vec::new(alloc);
    take_input(alloc, input, PIECE, &mut bytes)?;
    Ok(bytes)
}
