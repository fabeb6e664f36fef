//! The head of a service description.

ghost use Rattle.std.specs.Prelude.{◌≡◌, ◌++◌, OnOk, string_bytes};
ghost use Rattle.job_text.specs.DescriptionParts.{heading_view};
ghost use Rattle.job_text.specs.Texts.{heading_back, heading_numbers, heading_text};

use crate::key_line::{write_flag, write_if_any, write_number, write_set, write_string};
use std::alloc::{AllocError, Allocator};

/// The heading of a description: the whole transport stream.
#[derive(Clone, Copy)]
pub struct Heading<'a> {
    /// The rate, in bits a second.
    pub rate: u32,
    /// The moment of the first slot, as `YYYY-MM-DDThh:mm:ss` in UTC.
    pub start: &'a str,
    /// The system clock as the run begins, in units of 90 kHz.
    pub base0: u64,
    pub transport_stream_id: u16,
    pub original_network_id: u16,
    /// Whether there is a service description table (EN 300 468, 5.2.3).
    pub sdt: bool,
    /// Whether there is a time and date table (EN 300 468, 5.2.5).
    pub tdt: bool,
    /// Whether it has the limits of a whole transponder.
    pub transponder: bool,
    /// The PID of the clock references that programs share, if they share one.
    pub clock_pid: Option<u16>,
}

impl Heading<'_> {
    /// Appends its lines: every key, also the keys with defaults, but `transponder` only if it is true, and `clock_pid`
    /// only if it has one.
    pub fn write_text<A: Allocator>(&self, text: &mut String<A>) -> Result<(), AllocError>
        ensures { OnOk result (string_bytes text.new ≡ string_bytes text.old ++ heading_text (heading_view self.now)) }
    {
        self.write_numbers(text)?;
        write_flag(text, "sdt", self.sdt)?;
        write_string(text, "start", self.start)?;
        self.write_back(text)
    }

    // Appends the lines of its numbers up to its rate.
    fn write_numbers<A: Allocator>(&self, text: &mut String<A>) -> Result<(), AllocError>
        ensures { OnOk result (string_bytes text.new ≡ string_bytes text.old
            ++ heading_numbers (heading_view self.now)) }
    {
        write_number(text, "base0", self.base0)?;
        write_if_any(text, "clock_pid", self.clock_pid)?;
        write_number(text, "original_network_id", self.original_network_id as u64)?;
        write_number(text, "rate", self.rate as u64)
    }

    // Appends the lines after its start.
    fn write_back<A: Allocator>(&self, text: &mut String<A>) -> Result<(), AllocError>
        ensures { OnOk result (string_bytes text.new ≡ string_bytes text.old ++ heading_back (heading_view self.now)) }
    {
        write_flag(text, "tdt", self.tdt)?;
        write_set(text, "transponder", self.transponder)?;
        write_number(text, "ts_id", self.transport_stream_id as u64)
    }
}
