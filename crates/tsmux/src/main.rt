//! `tsmux`: a constant-rate MPEG-2 transport stream multiplexer (ISO/IEC 13818-1, EN 300 468, TR 101 290).
//!
//! The program is `tsmux_cli::run` over any reader and two writers; `devices::run_reporting_program` runs it over the
//! real ones.
#![tactic(auto)]

use counted_io::Sink;
use devices::{NamedFiles, Program, run_reporting_program};
use held_input::HeldInput;
use std::alloc::Global;
use std::process::ExitCode;
use tsmux_cli::{report_usage, run};

struct Tsmux;

impl Program for Tsmux {
    fn run<F: NamedFiles, R: HeldInput, W: Sink, E: Sink>(
        alloc: Global,
        words: &[&str],
        _files: &F,
        input: &mut R,
        output: &mut W,
        faults: &mut E,
    ) -> u8 {
        run(alloc, words, input, output, faults)
    }

    fn report_usage<E: Sink>(faults: &mut E) -> u8 {
        report_usage(faults)
    }

    fn writes_bytes(_alloc: Global, _words: &[&str]) -> bool {
        false
    }

    fn awaits(_words: &[&str]) -> Option<&'static str> {
        None
    }
}

fn main(rt: HostRuntime) -> ExitCode {
    run_reporting_program::<Tsmux>(&rt)
}
