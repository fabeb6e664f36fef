//! An event of a service description.

ghost use Rattle.std.specs.Prelude.{◌≡◌, ◌++◌, None, OnOk, Some, string_bytes};
ghost use Rattle.job_text.specs.DescriptionParts.{event_view};
ghost use Rattle.job_text.specs.KeyLines.{number_lines};
ghost use Rattle.job_text.specs.Texts.{event_lines, event_names, event_numbers, event_place, event_text};

use crate::key_line::{write_header, write_named, write_number, write_numbers, write_string};
use std::alloc::{AllocError, Allocator};

/// An event of a service in a description (EN 300 468, 5.2.4 and 6.2.37).
#[derive(Clone, Copy)]
pub struct EventPart<'a> {
    /// The number of its program.
    pub program: u16,
    /// event_id.
    pub id: u16,
    /// When it begins, `YYYY-MM-DDThh:mm:ss`.
    pub start: &'a str,
    /// In seconds.
    pub duration: u32,
    /// The language of its name and its text, by ISO 639-2.
    pub language: &'a str,
    pub name: &'a str,
    pub text: &'a str,
    /// All of its descriptors, if its language, name and text do not give exactly these.
    pub descriptors: Option<&'a [u8]>,
}

impl EventPart<'_> {
    /// Appends an empty line, `[[event]]`, and its lines: every key, with either `language`, `name` and `text`, or
    /// `descriptors` with the name as a comment.
    pub fn write_text<A: Allocator + Clone>(&self, text: &mut String<A>) -> Result<(), AllocError>
        ensures { OnOk result (string_bytes text.new ≡ string_bytes text.old ++ event_text (event_view self.now)) }
    {
        write_header(text, "event")?;
        match self.descriptors {
            None => self.write_by_texts(text),
            Some(descriptors) => self.write_by_bytes(descriptors, text),
        }
    }

    // Appends its lines with the keys of its texts.
    fn write_by_texts<A: Allocator>(&self, text: &mut String<A>) -> Result<(), AllocError>
        ensures { OnOk result (string_bytes text.new ≡ string_bytes text.old
            ++ event_lines None (event_view self.now)) }
    {
        self.write_numbers(text)?;
        self.write_names(text)?;
        self.write_place(text)?;
        write_string(text, "text", self.text)
    }

    // Appends its lines with all of its descriptors.
    fn write_by_bytes<A: Allocator + Clone>(
        &self,
        descriptors: &[u8],
        text: &mut String<A>,
    ) -> Result<(), AllocError>
        ensures { OnOk result (string_bytes text.new ≡ string_bytes text.old
            ++ event_lines (Some descriptors.now) (event_view self.now)) }
    {
        write_named(text, "descriptors", descriptors, self.name)?;
        self.write_numbers(text)?;
        self.write_place(text)
    }

    // Appends the lines of its duration and its event_id.
    fn write_numbers<A: Allocator>(&self, text: &mut String<A>) -> Result<(), AllocError>
        ensures { OnOk result (string_bytes text.new ≡ string_bytes text.old
            ++ number_lines (event_numbers (event_view self.now))) }
    {
        let numbers = [("duration", self.duration as u64), ("id", self.id as u64)];
        write_numbers(text, &numbers)
    }

    // Appends the lines of its language and its name.
    fn write_names<A: Allocator>(&self, text: &mut String<A>) -> Result<(), AllocError>
        ensures { OnOk result (string_bytes text.new ≡ string_bytes text.old ++ event_names (event_view self.now)) }
    {
        write_string(text, "language", self.language)?;
        write_string(text, "name", self.name)
    }

    // Appends the lines of its program and its start.
    fn write_place<A: Allocator>(&self, text: &mut String<A>) -> Result<(), AllocError>
        ensures { OnOk result (string_bytes text.new ≡ string_bytes text.old ++ event_place (event_view self.now)) }
    {
        write_number(text, "program", self.program as u64)?;
        write_string(text, "start", self.start)
    }
}
