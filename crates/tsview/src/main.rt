//! `tsview`: the content of an MPEG-2 transport stream, and what a receiver's buffers hold, line by line (ISO/IEC
//! 13818-1, TR 101 290).
//!
//! The program is `tsview_cli::run` over any reader and two writers; `devices::run_program` runs it over the real ones.
#![tactic(auto)]

use counted_io::Sink;
use devices::{NamedFiles, Program, run_program};
use held_input::HeldInput;
use std::alloc::Global;
use std::process::ExitCode;
use tsview_cli::{report_usage, run};

struct Tsview;

impl Program for Tsview {
    fn run<F: NamedFiles, R: HeldInput, W: Sink, E: Sink>(
        alloc: Global,
        words: &[&str],
        files: &F,
        input: &mut R,
        output: &mut W,
        faults: &mut E,
    ) -> u8 {
        run(alloc, words, files, input, output, faults)
    }

    fn report_usage<E: Sink>(faults: &mut E) -> u8 {
        report_usage(faults)
    }

    fn writes_bytes(_alloc: Global, _words: &[&str]) -> bool {
        false
    }

    fn awaits(words: &[&str]) -> Option<&'static str> {
        if words.iter().any(|word| *word == "--plan") {
            Some("a job\n")
        } else {
            Some("a transport stream\n")
        }
    }
}

fn main(rt: HostRuntime) -> ExitCode {
    run_program::<Tsview>(&rt)
}
