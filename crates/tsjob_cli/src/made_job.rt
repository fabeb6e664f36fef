//! What the program writes for words, in memory.
ghost use Rattle.std.specs.Prelude.{◌≡◌, map};
ghost use Rattle.devices.specs.Devices.{reads, writes};
ghost use Rattle.devices.specs.Files.{files_of};
ghost use Rattle.tsjob_cli.specs.MadeJobs as spec;

use crate::program::run;
use counted_io::{Counted, Sink, Source};
use devices::NamedFiles;
use std::alloc::Global;

/// What the program wrote, and its status.
#[derive(Drop)]
pub struct MadeJob {
    pub bytes: Vec<u8>,
    pub status: u8,
}

/// Returns what the program writes for these words.
pub fn make_job<F: NamedFiles, R: Source, E: Sink>(
    alloc: Global,
    words: &[&str],
    files: &F,
    input: &mut R,
    faults: &mut E,
) -> MadeJob
    ensures { spec.MakesJob (map (λ s. s.now) words.now)
        (files_of (F.contents_of files.now) (F.opens files.now) F.never_fails)
        (reads R.Source input.old input.new) (writes E.Sink faults.old faults.new) result.bytes.items result.status }
{
    let mut job = Counted::new(Vec::new(alloc));
    let status = run(alloc, words, files, input, &mut job, faults);
    MadeJob {
        bytes: job.into_inner(),
        status,
    }
}

impl MadeJob {
    /// Returns whether the output is a job: bytes were written, to the end.
    pub fn is_job(&self) -> bool
        ensures { result ≡ spec.is_job self.now.bytes.items self.now.status }
    {
        self.status <= 1 && self.bytes.len() > 0
    }

    // Returns whether the output is kept: a job, or an empty output with status 0.
    pub(crate) fn is_kept(&self) -> bool
        ensures { result ≡ spec.is_kept self.now.bytes.items self.now.status }
    {
        self.is_job() || self.status == 0
    }
}
