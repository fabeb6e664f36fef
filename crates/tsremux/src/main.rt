//! `tsremux`: transport streams to one multiplex at a constant rate (ISO/IEC 13818-1, EN 300 468).
//!
//! The program is `tsremux_cli::run` over any reader and two writers; `devices::run_program` runs it over the real
//! ones.
#![tactic(auto)]

use counted_io::Sink;
use devices::{NamedFiles, OutputFiles, Program, run_program};
use held_input::HeldInput;
use std::alloc::Global;
use std::process::ExitCode;
use tsremux_cli::{report_usage, run};

struct Tsremux;

impl Program for Tsremux {
    fn run<F: NamedFiles + OutputFiles, R: HeldInput, W: Sink, E: Sink>(
        alloc: Global,
        words: &[&str],
        files: &F,
        input: &mut R,
        output: &mut W,
        faults: &mut E,
    ) -> u8 {
        run(alloc, words, files, input, output, faults)
    }

    fn report_usage<E: Sink>(faults: &mut E) -> u8 {
        report_usage(faults)
    }

    fn writes_bytes(_alloc: Global, _words: &[&str]) -> bool {
        false
    }

    fn awaits(words: &[&str]) -> Option<&'static str> {
        if words.iter().any(|word| *word == "--description") {
            Some("unit records\n")
        } else {
            Some("a transport stream\n")
        }
    }
}

fn main(rt: HostRuntime) -> ExitCode {
    run_program::<Tsremux>(&rt)
}
