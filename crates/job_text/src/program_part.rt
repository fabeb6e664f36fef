//! A program of a service description.

ghost use Rattle.std.specs.Prelude.{◌≡◌, ◌++◌, None, OnOk, Some, string_bytes};
ghost use Rattle.job_text.specs.DescriptionParts.{program_view};
ghost use Rattle.job_text.specs.Texts.{program_back, program_text, program_front, program_clock, program_service};

use crate::key_line::{
    write_header, write_hex, write_if_any, write_named, write_number, write_string,
};
use std::alloc::{AllocError, Allocator};

/// A program and its service in a description (ISO/IEC 13818-1, 2.4.4.8; EN 300 468, 5.2.3 and 6.2.33).
#[derive(Clone, Copy)]
pub struct ProgramPart<'a> {
    /// program_number, and service_id.
    pub number: u16,
    /// The PID of its PMT.
    pub pmt_pid: u16,
    /// The PID of its clock references, with no other contents, if it does not share the description's.
    pub pcr_pid: Option<u16>,
    /// The greatest time between two clock references, in ms.
    pub pcr_limit: u8,
    /// Whole descriptors of the program in its PMT.
    pub descriptors: &'a [u8],
    /// running_status of its service, if it is not 4 (running).
    pub running_status: Option<u16>,
    pub service_type: u8,
    pub provider: &'a str,
    pub name: &'a str,
    /// All descriptors of its service, if service_type, provider and name do not give exactly these.
    pub service_descriptors: Option<&'a [u8]>,
}

impl ProgramPart<'_> {
    /// Appends an empty line, `[[program]]`, and its lines: every key, but `descriptors` only if there are any,
    /// `pcr_pid` and `running_status` only if it has one, and either `service_type`, `provider` and `name`, or
    /// `service_descriptors` with the name as a comment.
    pub fn write_text<A: Allocator + Clone>(&self, text: &mut String<A>) -> Result<(), AllocError>
        ensures { OnOk result (string_bytes text.new ≡ string_bytes text.old ++ program_text (program_view self.now)) }
    {
        self.write_front(text)?;
        match self.service_descriptors {
            None => self.write_by_texts(text),
            Some(descriptors) => self.write_by_bytes(descriptors, text),
        }
    }

    // Appends its other lines with the keys of its service.
    fn write_by_texts<A: Allocator>(&self, text: &mut String<A>) -> Result<(), AllocError>
        ensures { OnOk result (string_bytes text.new ≡ string_bytes text.old
            ++ program_back None (program_view self.now)) }
    {
        write_string(text, "name", self.name)?;
        self.write_clock(text)?;
        self.write_service(text)
    }

    // Appends its other lines with all descriptors of its service.
    fn write_by_bytes<A: Allocator + Clone>(
        &self,
        descriptors: &[u8],
        text: &mut String<A>,
    ) -> Result<(), AllocError>
        ensures { OnOk result (string_bytes text.new ≡ string_bytes text.old
            ++ program_back (Some descriptors.now) (program_view self.now)) }
    {
        self.write_clock(text)?;
        write_number(text, "pmt_pid", self.pmt_pid as u64)?;
        write_if_any(text, "running_status", self.running_status)?;
        write_named(text, "service_descriptors", descriptors, self.name)
    }

    // Appends its first lines.
    fn write_front<A: Allocator + Clone>(&self, text: &mut String<A>) -> Result<(), AllocError>
        ensures { OnOk result (string_bytes text.new ≡ string_bytes text.old ++ program_front (program_view self.now)) }
    {
        write_header(text, "program")?;
        write_hex(text, "descriptors", self.descriptors)
    }

    // Appends the lines from its number to its clock.
    fn write_clock<A: Allocator>(&self, text: &mut String<A>) -> Result<(), AllocError>
        ensures { OnOk result (string_bytes text.new ≡ string_bytes text.old ++ program_clock (program_view self.now)) }
    {
        write_number(text, "number", self.number as u64)?;
        write_number(text, "pcr_limit", self.pcr_limit as u64)?;
        write_if_any(text, "pcr_pid", self.pcr_pid)
    }

    // Appends the lines after its clock.
    fn write_service<A: Allocator>(&self, text: &mut String<A>) -> Result<(), AllocError>
        ensures { OnOk result (string_bytes text.new ≡ string_bytes text.old
            ++ program_service (program_view self.now)) }
    {
        write_number(text, "pmt_pid", self.pmt_pid as u64)?;
        write_string(text, "provider", self.provider)?;
        write_if_any(text, "running_status", self.running_status)?;
        write_number(text, "service_type", self.service_type as u64)
    }
}
