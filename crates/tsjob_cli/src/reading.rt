//! The bytes of files that are named, one after another.
ghost use Rattle.std.specs.Prelude.{◌≡◌, ◌++◌, OnOk, map};
ghost use Rattle.std.specs.Result.{result_map_both};
ghost use Rattle.devices.specs.Devices.{writes};
ghost use Rattle.devices.specs.Files.{files_of};
ghost use Rattle.tsjob_cli.specs.ReadFiles as spec;

use counted_io::Sink;
use devices::{Halt, NamedFiles, read_whole, report_halt, report_of};
use std::alloc::{AllocError, Global};

// Reports why a file that was opened has no bytes, and returns the status.
fn report_unread<E: Sink>(name: &str, halt: Halt, faults: &mut E) -> u8
    ensures reports_text { spec.ReportsUnreadFile name.now halt (writes E.Sink faults.old faults.new) }
    ensures status { result ≡ 3 }
{
    match halt {
        Halt::Memory => {
            report_halt(faults, Halt::Memory);
        }
        Halt::Read => report_of(name, ": can't be read\n", faults),
        Halt::Write => report_of(name, ": can't be read\n", faults),
    }
    3
}

// Returns the bytes of the file of a name; if there are none, reports why, and returns the status.
fn read_file<F: NamedFiles, E: Sink>(
    alloc: Global,
    files: &F,
    name: &str,
    faults: &mut E,
) -> Result<Vec<u8>, u8>
    ensures { spec.ReadsFile (files_of (F.contents_of files.now) (F.opens files.now) F.never_fails) name.now
        (writes E.Sink faults.old faults.new)
        (result_map_both (λ bytes. bytes.items) (λ status. status) result) }
{
    let Some(mut file) = files.open_named(name) else {
        report_of(name, ": can't be opened\n", faults);
        return Err(3);
    };
    match read_whole(alloc, &mut file) {
        Ok(bytes) => Ok(bytes),
        Err(halt) => Err(report_unread(name, halt, faults)),
    }
}

// Appends bytes.
fn append(all: &mut Vec<u8>, bytes: &[u8]) -> Result<(), AllocError>
    ensures { OnOk result (all.new.items ≡ all.old.items ++ bytes.now) }
{
    all.extend_from_slice(bytes)
}

/// Returns the bytes of the files of these names, one after another; if one can't be read, reports why, and returns the
/// status.
pub fn read_files<F: NamedFiles, E: Sink>(
    alloc: Global,
    files: &F,
    names: &[&str],
    faults: &mut E,
) -> Result<Vec<u8>, u8>
    ensures { spec.ReadsAll (files_of (F.contents_of files.now) (F.opens files.now) F.never_fails)
        (map (λ s. s.now) names.now) (writes E.Sink faults.old faults.new)
        (result_map_both (λ bytes. bytes.items) (λ status. status) result) }
{
    let mut all = Vec::new(alloc);
    for name in names {
        match read_file(alloc, files, name, faults) {
            Ok(bytes) => match append(&mut all, &bytes) {
                Ok(()) => {}
                Err(_) => return Err(report_halt(faults, Halt::Memory)),
            },
            Err(status) => return Err(status),
        }
    }
    Ok(all)
}
