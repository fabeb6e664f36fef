//! `tsair`: a constant-rate MPEG-2 transport stream multiplexer without end (ISO/IEC 13818-1, EN 300 468, TR 101 290).
//!
//! The program is `tsair_cli::run` over any files, a reader and two writers; `devices::run_program` runs it over the real ones.
#![tactic(auto)]

use counted_io::Sink;
use devices::{NamedFiles, OutputFiles, Program, run_program};
use held_input::HeldInput;
use std::alloc::Global;
use std::process::ExitCode;
use tsair_cli::{report_usage, run, writes_bytes};

struct Tsair;

impl Program for Tsair {
    fn run<F: NamedFiles + OutputFiles, R: HeldInput, W: Sink, E: Sink>(
        alloc: Global,
        words: &[&str],
        files: &F,
        input: &mut R,
        output: &mut W,
        faults: &mut E,
    ) -> u8 {
        run(alloc, words, files, input, output, faults)
    }

    fn report_usage<E: Sink>(faults: &mut E) -> u8 {
        report_usage(faults)
    }

    fn writes_bytes(alloc: Global, words: &[&str]) -> bool {
        match writes_bytes(alloc, words) {
            Ok(is) => is,
            Err(_) => false,
        }
    }

    fn awaits(words: &[&str]) -> Option<&'static str> {
        if words.iter().any(|word| *word == "--unframe") {
            Some("frames of unit records\n")
        } else {
            Some("a job\n")
        }
    }
}

fn main(rt: HostRuntime) -> ExitCode {
    run_program::<Tsair>(&rt)
}
