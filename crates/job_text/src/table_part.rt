//! A private table of a service description.

ghost use Rattle.std.specs.Prelude.{◌≡◌, ◌++◌, OnOk, string_bytes};
ghost use Rattle.job_text.specs.DescriptionParts.{table_view};
ghost use Rattle.job_text.specs.Texts.{table_back, table_front, table_text};

use crate::key_line::{write_digits, write_digits_list, write_header, write_number, write_numbers};
use std::alloc::{AllocError, Global};

/// Ready-made sections on a PID of their own in a description, and their entry in the PMT of a program (ISO/IEC
/// 13818-1, 2.4.4.8).
#[derive(Clone, Copy)]
pub struct TablePart<'a> {
    pub pid: u16,
    /// The greatest time between two starts of a section, in ms.
    pub limit: u16,
    /// The bytes of each section.
    pub sections: &'a [Vec<u8>],
    /// The number of the program whose PMT names it.
    pub program: u16,
    pub stream_type: u8,
    /// Whole descriptors of the table in that PMT.
    pub descriptors: &'a [u8],
}

impl TablePart<'_> {
    /// Appends an empty line, `[[table]]`, and its lines: every key.
    pub fn write_text(&self, alloc: Global, text: &mut String) -> Result<(), AllocError>
        ensures { OnOk result (string_bytes text.new ≡ string_bytes text.old ++ table_text (table_view self.now)) }
    {
        self.write_front(alloc, text)?;
        self.write_back(alloc, text)
    }

    // Appends the lines up to its program.
    fn write_front(&self, alloc: Global, text: &mut String) -> Result<(), AllocError>
        ensures { OnOk result (string_bytes text.new ≡ string_bytes text.old ++ table_front (table_view self.now)) }
    {
        let numbers = [
            ("limit", self.limit as u64),
            ("pid", self.pid as u64),
            ("program", self.program as u64),
        ];
        write_header(text, "table")?;
        write_digits(alloc, text, "descriptors", self.descriptors)?;
        write_numbers(text, &numbers)
    }

    // Appends the lines of its sections and its stream_type.
    fn write_back(&self, alloc: Global, text: &mut String) -> Result<(), AllocError>
        ensures { OnOk result (string_bytes text.new ≡ string_bytes text.old ++ table_back (table_view self.now)) }
    {
        write_digits_list(alloc, text, "sections", self.sections)?;
        write_number(text, "stream_type", self.stream_type as u64)
    }
}
