//! A loop of programs that is being written.

ghost use Rattle.std.specs.Prelude.{◌≡◌, ◌%◌, length};

use crate::error::SectionError;
use crate::pat::programs::{Program, Programs};
use arrayvec::ArrayVec;
use bit_fields::append;

/// The entries of a PAT that is being built: up to 253, which is all that a section has room
/// for. It holds them in place and takes no memory.
#[derive(Drop)]
pub struct ProgramLoop {
    bytes: ArrayVec<u8, 1012>,
    ghost whole: { length bytes.items % 4 ≡ 0 },
}

impl ProgramLoop {
    ghost use Rattle.std.specs.Prelude.{◌+◌, ◌*◌, ◌<◌, ◌≤◌, [], ◌∷◌, ◌++◌, ◌↔◌, IsOk, OnOk, IfErr, OnErr};
    ghost use Rattle.arrayvec.specs.ArrayVec.{array_vec_len};
    ghost use Rattle.psi_tables.specs.ProgramAssociation.{program_loop_of, programs_of};

    /// Returns a loop without entries.
    #[tactic(auto, unfolding(crate::specs::ProgramAssociation::program_loop_of, crate::specs::ProgramAssociation::programs_in))]
    pub fn new() -> ProgramLoop
        ensures { program_loop_of result ≡ [] }
    {
        ProgramLoop {
            bytes: ArrayVec::new(),
        }
    }

    /// Adds an entry at the end. Returns `TooLong`, and the loop as it was, if it has 253.
    pub fn push(&mut self, program: Program) -> Result<(), SectionError>
        requires { program.pid < 8192 }
        ensures variant { IsOk result ↔ (length (program_loop_of self.old) < 253) }
        ensures ok { OnOk result (program_loop_of self.new ≡ program_loop_of self.old ++ program ∷ []) }
        ensures too_long { IfErr result (λ e. e ≡ SectionError.TooLong) }
        ensures unchanged { OnErr result (program_loop_of self.new ≡ program_loop_of self.old) }
    {
        if self.count() == 253 {
            return Err(SectionError::TooLong);
        }
        append(&mut self.bytes, &program.to_bytes());
        Ok(())
    }

    fn count(&self) -> usize
        ensures entries { result ≡ length (program_loop_of self.now) }
        ensures bytes { 4 * result ≡ array_vec_len self.now.bytes }
        ensures room { result ≤ 253 }
    {
        self.bytes.len() / 4
    }

    /// Returns the entries, over the bytes of the loop.
    #[tactic(auto, unfolding(crate::specs::ProgramAssociation::program_loop_of))]
    pub fn programs(&self) -> Programs<'_>
        ensures { programs_of result ≡ program_loop_of self.now }
    {
        Programs::over(self.bytes.as_slice())
    }
}
