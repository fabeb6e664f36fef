//! The lines of a report on a writer.
ghost use Rattle.std.specs.Prelude.{take};
ghost use Rattle.std.specs.Io.KnownBytes.{Appends};
ghost use Rattle.monitor.specs.ReportLines.{report_text};
ghost use Rattle.monitor.specs.Written.{CountsSent, NamesDevice, sent_of};

use crate::reports::Report;
use counted_io::{Sink, write_part};
use std::alloc::Allocator;
use thiserror::Error;

/// Why a report was not written whole.
#[derive(Clone, Copy, Debug, PartialEq, Eq, Error)]
pub enum ReportWriteError {
    #[error("out of memory")]
    Memory,
    /// The writer failed. It took exactly the first `sent` bytes of the text.
    #[error("the writer failed after {sent} bytes")]
    Device { sent: u64 },
}

// Writes the whole text.
fn write_whole<W: Sink>(text: &str, to: &mut W) -> Result<u64, ReportWriteError>
    ensures written { Appends (W.contents to.old) (W.contents to.new) (take (sent_of result) text.now) }
    ensures ends { CountsSent text.now result }
    ensures fault { NamesDevice result (W.fault_count to.old) (W.fault_count to.new) }
{
    match write_part(to, text.as_bytes()) {
        Ok(()) => Ok(text.len() as u64),
        Err(fault) => Err(ReportWriteError::Device {
            sent: fault.taken as u64,
        }),
    }
}

impl<A: Allocator> Report<A> {
    /// Writes the lines of the report, and returns their number of bytes. The text is made whole, and leaves as one
    /// part.
    pub fn write<B: Allocator, W: Sink>(
        &self,
        alloc: B,
        to: &mut W,
    ) -> Result<u64, ReportWriteError>
        // A writer whose bytes are known has the report after its earlier bytes.
        ensures written { Appends (W.contents to.old) (W.contents to.new)
            (take (sent_of result) (report_text self.now)) }
        ensures ends { CountsSent (report_text self.now) result }
        ensures fault { NamesDevice result (W.fault_count to.old) (W.fault_count to.new) }
    {
        match self.write_text(alloc) {
            Ok(text) => write_whole(&text, to),
            Err(_) => Err(ReportWriteError::Memory),
        }
    }
}
