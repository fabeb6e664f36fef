//! What `--version` prints.
ghost use Rattle.std.specs.Prelude.{◌≡◌, IfOk, map, string_bytes};
ghost use Rattle.devices.specs.Devices.{Device, IsUntouched, writes};
ghost use Rattle.word_faults.specs.UsageReport as spec;

use counted_io::Sink;
use devices::{Halt, report_halt, write_text};
use std::alloc::{AllocError, Global};

/// Returns whether the words are `--version` alone.
pub fn is_version(words: &[&str]) -> bool
    ensures { result ≡ spec.is_version (map (λ s. s.now) words.now) }
{
    match words {
        [word] => *word == "--version",
        _ => false,
    }
}

// Returns the program, its version, and the logic in which it is proved.
fn version_text(alloc: Global, program: &str) -> Result<String, AllocError>
    ensures { IfOk result (λ s. string_bytes s ≡ spec.version_text program.now) }
{
    let mut text = String::new(alloc);
    text.push_str(program)?;
    text.push_str(" 1.0, logic dac8208d650f15bf\n")?;
    Ok(text)
}

/// Returns whether the words ask for the version alone, by its long or its short name.
pub fn asks_version(words: &[&str]) -> bool
    ensures { result ≡ spec.asks_version (map (λ s. s.now) words.now) }
{
    match words {
        [word] => *word == "--version" || *word == "-V",
        _ => false,
    }
}

/// Writes a text, and returns the status.
pub(crate) fn print_text<W: Sink, E: Sink>(text: &str, output: &mut W, faults: &mut E) -> u8
    ensures { (input : Device) → IsUntouched input → spec.Prints text.now input
        (writes W.Sink output.old output.new) (writes E.Sink faults.old faults.new) result }
{
    match write_text(text, output) {
        Ok(()) => 0,
        Err(halt) => report_halt(faults, halt),
    }
}

/// Writes the version of a program of this name, and returns the status.
pub fn print_version<W: Sink, E: Sink>(
    alloc: Global,
    program: &str,
    output: &mut W,
    faults: &mut E,
) -> u8
    ensures { (input : Device) → IsUntouched input → spec.Prints (spec.version_text program.now) input
        (writes W.Sink output.old output.new) (writes E.Sink faults.old faults.new) result }
{
    let Ok(text) = version_text(alloc, program) else {
        return report_halt(faults, Halt::Memory);
    };
    print_text(text.as_str(), output, faults)
}
