//! A file that is written whole or not at all, and reports, in words, of a fault of a named file.
ghost use Rattle.std.specs.Prelude.{◌≡◌};
ghost use Rattle.devices.specs.Devices.{writes};
ghost use Rattle.devices.specs.Saving as spec;

use crate::files::FileFault;
use crate::lines::{report_text, write_bytes};
use crate::output_files::OutputFiles;
use counted_io::Sink;

/// Reports the name of a file, and this text.
pub fn report_of<E: Sink>(name: &str, text: &str, faults: &mut E)
    ensures { spec.ReportsText name.now text.now (writes E.Sink faults.old faults.new) }
{
    report_text(faults, name);
    report_text(faults, text);
}

/// Reports why the file of a name can't be created, and returns the status.
pub fn report_uncreated<E: Sink>(name: &str, fault: FileFault, faults: &mut E) -> u8
    ensures reports_text { spec.ReportsText name.now (spec.uncreated_text fault) (writes E.Sink faults.old faults.new) }
    ensures status { result ≡ 3 }
{
    match fault {
        FileFault::Missing => report_of(name, ": can't be created: no such folder\n", faults),
        FileFault::Denied => report_of(name, ": can't be created: no permission\n", faults),
        FileFault::Folder => report_of(name, ": can't be created: is a folder\n", faults),
        FileFault::Busy => report_of(name, ": another run writes it\n", faults),
        FileFault::Other => report_of(name, ": can't be created\n", faults),
    }
    3
}

// Gives a new file its name; if that fails, reports it. Returns the status.
fn keep<F: OutputFiles, E: Sink>(
    files: &F,
    file: F::Writer,
    name: &str,
    ended: u8,
    faults: &mut E,
) -> u8
    ensures { spec.Keeps (F.keeps files.now name.now) name.now ended (writes E.Sink faults.old faults.new) result }
{
    if files.keep_file(name, file) {
        return ended;
    }
    report_of(name, ": can't be renamed\n", faults);
    3
}

/// Writes bytes to a new file, gives it this name, and returns `ended`; or removes the file, reports its fault, and
/// returns 3.
pub fn save_file<F: OutputFiles, E: Sink>(
    files: &F,
    file: F::Writer,
    name: &str,
    bytes: &[u8],
    ended: u8,
    faults: &mut E,
) -> u8
    ensures { spec.SavesFile (F.keeps files.now name.now) (F.Writer.contents file) name.now bytes.now ended
        (writes E.Sink faults.old faults.new) result }
{
    let mut file = file;
    match write_bytes(bytes, &mut file) {
        Ok(()) => keep(files, file, name, ended, faults),
        Err(_) => {
            files.discard_file(file);
            report_of(name, ": can't be written\n", faults);
            3
        }
    }
}

/// Writes bytes to a new file, gives it this name, and returns `ended`; otherwise reports its fault, and returns 3.
pub fn save_named<F: OutputFiles, E: Sink>(
    files: &F,
    name: &str,
    bytes: &[u8],
    ended: u8,
    faults: &mut E,
) -> u8
    ensures { spec.SavesNamed (F.creates files.now name.now) (F.keeps files.now name.now) name.now bytes.now ended
        (writes E.Sink faults.old faults.new) result }
{
    match files.create_named(name) {
        Ok(file) => save_file(files, file, name, bytes, ended, faults),
        Err(fault) => report_uncreated(name, fault, faults),
    }
}
