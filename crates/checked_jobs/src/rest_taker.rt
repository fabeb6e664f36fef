//! What takes the bytes after a job's plans, as they come.
ghost use Rattle.std.specs.Prelude.{◌≡◌, ◌++◌, List, ℕ, OnOk, IfErr, ⊤};

use devices::Halt;

/// What takes the bytes after a job's plans, as they come.
pub trait RestTaker {
    // It has taken these bytes.
    ghost has_taken: { Self → List ℕ → Type 0 };

    /// Takes the next bytes.
    fn take_rest(&mut self, bytes: &[u8]) -> Result<(), Halt>
        ensures taken { (before : List ℕ) → has_taken self.old before
            → OnOk result (has_taken self.new (before ++ bytes.now)) }
        ensures memory { IfErr result (λ halt. halt ≡ Halt.Memory) };
}

/// Discards the bytes.
#[derive(Drop)]
pub struct Dropped {}

impl RestTaker for Dropped {
    ghost has_taken = { λ now bytes. ⊤ };

    fn take_rest(&mut self, bytes: &[u8]) -> Result<(), Halt> {
        Ok(())
    }
}
