//! The source of a table's sections.

ghost use Rattle.std.specs.Prelude.{◌≡◌, ℕ, List};

use arrayvec::ArrayVec;

/// The sections of a table, as they are at each moment.
pub trait SectionSource {
    /// The bytes of a section, by its number from 0, at a moment in seconds since 1970-01-01T00:00:00 UTC.
    ghost bytes: { Self → ℕ → ℕ → List ℕ };

    /// Leaves in `out` exactly these bytes, none if there is no such section.
    fn write_section(&self, section: usize, moment: u64, out: &mut ArrayVec<u8, 4096>)
        ensures { out.new.items ≡ bytes self.now section moment };
}
