//! A program over the real reader and writers.
ghost use Rattle.std.specs.Prelude.{◌≡◌, ◌⊎◌, None, codes};
ghost use Rattle.std.specs.List.{list_any};
ghost use Rattle.std.specs.Process.{exit_status};
ghost use Rattle.std.specs.Str.{bytes_eq};

use crate::files::NamedFiles;
use crate::halt::{Halt, report_halt};
use crate::lines::report_text;
use crate::output_files::OutputFiles;
use crate::patient::Patient;
use crate::watched::Watched;
use counted_io::{Counted, Sink};
use held_input::{BufferedInput, HeldInput};
use std::alloc::Global;
use std::cell::Cell;
use std::env;
use std::fs::metadata;
use std::io::{self, BufReader, Error, ErrorKind, IsTerminal, Read, Stderr, Stdin, Stdout, Write};
use std::process::ExitCode;

/// The room of the input's buffer, in bytes: as much as one call reads from a pipe. A read of as many bytes or more
/// bypasses the buffer.
const INPUT_ROOM: usize = 1 << 16;

/// The report before the first read from a terminal, up to what is read.
const AWAITED: &str = "standard input is a terminal: waiting for ";

/// The report for bytes that would be written to a terminal.
const SHOWN_BYTES: &str = "standard output is a terminal: name a file by > FILE\n";

/// A program over any files, a reader that shows which bytes it holds, and two writers.
pub trait Program {
    /// Reads the input, writes the output, reports faults, and returns the exit status. It may open files by name, and
    /// write files by name. It has no clause here: the call of each program has its own, as `tsmux_cli::run`.
    fn run<F: NamedFiles + OutputFiles, R: HeldInput, W: Sink, E: Sink>(
        alloc: Global,
        words: &[&str],
        files: &F,
        input: &mut R,
        output: &mut W,
        faults: &mut E,
    ) -> u8;

    /// Writes the usage, and returns the exit status.
    fn report_usage<E: Sink>(faults: &mut E) -> u8
        ensures { result ≡ 2 };

    /// Returns whether these words ask for bytes on standard output that are no text, and `run` does not refuse a
    /// terminal itself.
    fn writes_bytes(alloc: Global, words: &[&str]) -> bool;

    /// Returns the name of what the program reads on standard input, and a line feed; none if it reports nothing before
    /// it reads.
    fn awaits(words: &[&str]) -> Option<&'static str>;
}

/// The writers of a process: the types say which is which.
#[derive(Drop)]
struct Writers<W, E> {
    output: Counted<W>,
    faults: Counted<E>,
}

/// Standard output, which notes whether its reader has gone away.
#[derive(Drop)]
struct PipedOutput<'a> {
    inner: Patient<'a, Stdout>,
    is_gone: &'a Cell<bool>,
}

impl Write for PipedOutput<'_> {
    ghost contents = { λ _. None };

    fn write(&mut self, buf: &[u8]) -> io::Result<usize> {
        let written = self.inner.write(buf);
        if is_broken(&written) {
            self.is_gone.set(true);
        }
        written
    }

    fn flush(&mut self) -> io::Result<()> {
        self.inner.flush()
    }
}

/// Standard error, until the reader of standard output has gone away. It takes all later bytes, and writes none.
#[derive(Drop)]
struct PipedFaults<'a> {
    inner: Patient<'a, Stderr>,
    is_gone: &'a Cell<bool>,
}

impl Write for PipedFaults<'_> {
    ghost contents = { λ _. None };

    fn write(&mut self, buf: &[u8]) -> io::Result<usize> {
        if self.is_gone.get() {
            return Ok(buf.len());
        }
        self.inner.write(buf)
    }

    fn flush(&mut self) -> io::Result<()> {
        self.inner.flush()
    }
}

/// Standard input. Before the first read from a terminal it reports what the program waits for.
#[derive(Drop)]
struct AwaitedInput<'a> {
    inner: Patient<'a, Stdin>,
    to: Counted<Stderr>,
    note: Option<&'static str>,
}

impl Read for AwaitedInput<'_> {
    ghost remaining = { λ _. None };

    fn read(&mut self, buf: &mut [u8]) -> io::Result<usize> {
        if let Some(note) = self.note {
            report_text(&mut self.to, AWAITED);
            report_text(&mut self.to, note);
            self.note = None;
        }
        self.inner.read(buf)
    }
}

/// Returns whether a call of a writer failed because its reader has gone away.
fn is_broken(written: &io::Result<usize>) -> bool {
    match written {
        Ok(_) => false,
        Err(error) => match error.kind() {
            ErrorKind::BrokenPipe => true,
            _ => false,
        },
    }
}

/// Returns the exit code of a process for a status.
fn exit_code(status: u8) -> ExitCode
    ensures { exit_status result ≡ status }
{
    ExitCode::from(status)
}

/// Returns the status if the command line can't be read: out of memory, or a word is not UTF-8, which is a usage error.
fn without_words<P: Program, E: Sink>(error: Error, faults: &mut E) -> u8
    ensures { (result ≡ 2) ⊎ (result ≡ 3) }
{
    match error.kind() {
        ErrorKind::OutOfMemory => report_halt(faults, Halt::Memory),
        _ => P::report_usage(faults),
    }
}

/// Returns whether the words ask for progress.
fn ask_for_progress(words: &[&str]) -> bool
    ensures { result ≡ list_any (λ word. bytes_eq word.now (codes "--progress")) words.now }
{
    words.iter().any(|word| *word == "--progress")
}

/// Returns the number of the input's bytes, if it is a file.
fn input_size(rt: &HostRuntime) -> Option<u64> {
    let known = metadata(rt, "/dev/stdin").ok()?;
    if known.is_file() {
        Some(known.len())
    } else {
        None
    }
}

/// Returns standard input, which reports what the program waits for if it is a terminal.
fn awaited_input<'a>(rt: &'a HostRuntime, awaited: Option<&'static str>) -> AwaitedInput<'a> {
    AwaitedInput {
        inner: Patient::new(rt.stdin(), rt),
        to: Counted::new(rt.stderr()),
        note: if rt.stdin().is_terminal() {
            awaited
        } else {
            None
        },
    }
}

/// Returns standard input, which shows its progress if the words ask for it and standard error is a terminal.
fn input_of<'a>(
    rt: &'a HostRuntime,
    words: &[&str],
    awaited: Option<&'static str>,
) -> Watched<AwaitedInput<'a>, Counted<Stderr>, &'a HostRuntime> {
    let input = awaited_input(rt, awaited);
    let to = Counted::new(rt.stderr());
    if ask_for_progress(words) && rt.stderr().is_terminal() {
        Watched::showing(input, to, rt, input_size(rt))
    } else {
        Watched::silent(input, to, rt)
    }
}

/// Returns whether these words ask for bytes that are no text, and standard output is a terminal.
fn is_shown_bytes<P: Program>(rt: &HostRuntime, words: &[&str]) -> bool {
    rt.stdout().is_terminal() && P::writes_bytes(rt.alloc(), words)
}

/// Returns the status of a program with the words of the command line.
fn status_of<P: Program, W: Write, E: Write>(rt: &HostRuntime, writers: &mut Writers<W, E>) -> u8 {
    let args = match env::args(rt) {
        Ok(args) => args,
        Err(error) => return without_words::<P, Counted<E>>(error, &mut writers.faults),
    };
    let words: Vec<String> = match args.skip(1).collect(rt.alloc()) {
        Ok(words) => words,
        Err(_) => return report_halt(&mut writers.faults, Halt::Memory),
    };
    let texts: Vec<&str> = match words.iter().map(|word| word.as_str()).collect(rt.alloc()) {
        Ok(texts) => texts,
        Err(_) => return report_halt(&mut writers.faults, Halt::Memory),
    };
    if is_shown_bytes::<P>(rt, &texts) {
        report_text(&mut writers.faults, SHOWN_BYTES);
        return 2;
    }
    let input = input_of(rt, &texts, P::awaits(&texts));
    let Ok(reader) = BufReader::with_capacity(rt.alloc(), INPUT_ROOM, input) else {
        return report_halt(&mut writers.faults, Halt::Memory);
    };
    P::run::<HostRuntime, _, Counted<W>, Counted<E>>(
        rt.alloc(),
        texts.as_slice(),
        rt,
        &mut BufferedInput::new(reader),
        &mut writers.output,
        &mut writers.faults,
    )
}

/// Runs a program with the words of the command line, from standard input to standard output and standard error. If the
/// reader of standard output goes away, as of the pipe `tsview FILE | head`, nothing more is reported. The
/// function has no clause: its status depends on the words, files and devices of the process, and no contract knows
/// these.
pub fn run_program<P: Program>(rt: &HostRuntime) -> ExitCode {
    let is_gone = Cell::new(false);
    let output = PipedOutput {
        inner: Patient::new(rt.stdout(), rt),
        is_gone: &is_gone,
    };
    let faults = PipedFaults {
        inner: Patient::new(rt.stderr(), rt),
        is_gone: &is_gone,
    };
    let mut writers = Writers {
        output: Counted::new(output),
        faults: Counted::new(faults),
    };
    exit_code(status_of::<P, _, _>(rt, &mut writers))
}

/// Runs a program in the same way, except that it also reports that the reader of standard output has gone away. The
/// function has no clause, for the same reason.
pub fn run_reporting_program<P: Program>(rt: &HostRuntime) -> ExitCode {
    let mut writers = Writers {
        output: Counted::new(Patient::new(rt.stdout(), rt)),
        faults: Counted::new(Patient::new(rt.stderr(), rt)),
    };
    exit_code(status_of::<P, _, _>(rt, &mut writers))
}
