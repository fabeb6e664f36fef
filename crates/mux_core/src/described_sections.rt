//! The sections of a table, as its description has them.
ghost use Rattle.mux_core.specs.SlotSteps.{section_bytes};

use arrayvec::ArrayVec;
use slot_plan::Description;
use table_rounds::SectionSource;

/// A table of a description, by its number.
#[derive(Clone, Copy)]
pub(crate) struct DescribedSections<'a> {
    pub description: &'a Description,
    pub table: usize,
}

impl<'a> SectionSource for DescribedSections<'a> {
    ghost bytes = { λ s. section_bytes s.description.now s.table };

    fn write_section(&self, section: usize, moment: u64, out: &mut ArrayVec<u8, 4096>) {
        if self.table < self.description.tables()
            && section < self.description.sections(self.table)
        {
            self.description.text(self.table, section, moment, out);
        } else {
            out.clear();
        }
    }
}
