//! Files that are written by name, and what standard output is.
ghost use Rattle.std.specs.Prelude.{◌≡◌, ℕ, List, [], None, Some, Option, Bool, IfOk};
ghost use Rattle.devices.specs.Files.{IsAsKnown, fault_of};
ghost use Rattle.devices.specs.declared.files.FileFault.{FileFault};

use crate::files::FileFault;
use crate::unfinished::{is_named, new_unfinished};
use counted_io::{Counted, Sink};
use std::alloc::Global;
use std::fs::{File, canonicalize, metadata, remove_file, rename};
use std::io::{self, ErrorKind, IsTerminal, Write};
use std::os::unix::fs::MetadataExt;

/// Files that are written by name: a new file has its name when it is whole, and not before.
pub trait OutputFiles {
    type Writer: Sink + Drop;

    // Why a file of a name can't be created, or that it can, if that is known.
    ghost creates: { Self → List ℕ → Option (Option FileFault) };

    // Whether a new file can be given a name, if that is known.
    ghost keeps: { Self → List ℕ → Option Bool };

    // Whether standard output is a terminal, if that is known.
    ghost shows: { Self → Option Bool };

    /// Returns a writer of a new file that is to have this name, or why it can't be created.
    fn create_named(&self, name: &str) -> Result<Self::Writer, FileFault>
        ensures empty { IfOk result (λ writer. (bytes : List ℕ) →
            Self.Writer.contents writer ≡ Some bytes → bytes ≡ []) }
        ensures creates { IsAsKnown (creates self.now name.now) (fault_of result) };

    /// Gives a new file its name, in place of a file that had it. Returns whether it has the name now.
    fn keep_file(&self, name: &str, writer: Self::Writer) -> bool
        ensures { IsAsKnown (keeps self.now name.now) result };

    /// Removes a new file. It has no clause: no contract sees the files of a folder.
    fn discard_file(&self, writer: Self::Writer);

    /// Returns whether standard output is a terminal.
    fn shows_output(&self) -> bool
        ensures { IsAsKnown (shows self.now) result };
}

/// The two names of a new file.
#[derive(Drop)]
struct NewNames {
    /// The name under which it is written.
    unfinished: String,
    /// The name that it is to have.
    wanted: String,
}

/// A new file, with its lock. It is written in place if its name is the name of a device or a pipe: then it has no
/// other name.
#[derive(Drop)]
pub struct NewFile {
    file: File,
    names: Option<NewNames>,
}

impl Write for NewFile {
    ghost contents = { λ _. None };

    fn write(&mut self, buf: &[u8]) -> io::Result<usize> {
        self.file.write(buf)
    }

    fn flush(&mut self) -> io::Result<()> {
        Ok(())
    }
}

/// Returns the two names of a file that is to have this name.
fn new_names(alloc: Global, path: &str) -> Option<NewNames> {
    let mut wanted = String::new(alloc);
    wanted.push_str(path).ok()?;
    let mut unfinished = String::new(alloc);
    unfinished.push_str(path).ok()?;
    unfinished.push_str(".unfinished").ok()?;
    Some(NewNames { unfinished, wanted })
}

/// Returns a new file in the same folder as `path`, the file that has or will have this name; with this mode, if given.
fn create_beside(rt: &HostRuntime, path: &str, mode: Option<u32>) -> Result<NewFile, FileFault> {
    let Some(names) = new_names(rt.alloc(), path) else {
        return Err(FileFault::Other);
    };
    let file = new_unfinished(rt, names.unfinished.as_str(), mode)?;
    Ok(NewFile {
        file,
        names: Some(names),
    })
}

/// Returns a new file with this mode in the same folder as the plain file of this name; if the name is a link, as the file
/// that it leads to.
fn create_in_place_of(rt: &HostRuntime, name: &str, mode: u32) -> Result<NewFile, FileFault> {
    match canonicalize(rt, name) {
        Ok(path) => create_beside(rt, path.as_str(), Some(mode)),
        Err(error) => Err(FileFault::of(error.kind())),
    }
}

/// Returns a writer of the device or the pipe of this name.
fn open_device(rt: &HostRuntime, name: &str) -> Result<NewFile, FileFault> {
    match File::create(rt, name) {
        Ok(file) => Ok(NewFile { file, names: None }),
        Err(error) => Err(FileFault::of(error.kind())),
    }
}

/// Returns a new file that is to have this name.
fn create_new(rt: &HostRuntime, name: &str) -> Result<NewFile, FileFault> {
    match metadata(rt, name) {
        Ok(known) => {
            if known.is_file() {
                create_in_place_of(rt, name, known.mode() & 0o777)
            } else {
                open_device(rt, name)
            }
        }
        Err(error) => match error.kind() {
            ErrorKind::NotFound => create_beside(rt, name, None),
            kind => Err(FileFault::of(kind)),
        },
    }
}

impl OutputFiles for HostRuntime {
    type Writer = Counted<NewFile>;

    ghost creates = { λ _ _. None };

    ghost keeps = { λ _ _. None };

    ghost shows = { λ _. None };

    fn create_named(&self, name: &str) -> Result<Counted<NewFile>, FileFault> {
        match create_new(self, name) {
            Ok(file) => Ok(Counted::new(file)),
            Err(fault) => Err(fault),
        }
    }

    fn keep_file(&self, _name: &str, writer: Counted<NewFile>) -> bool {
        let NewFile { file, names } = writer.into_inner();
        let is_kept = match names {
            Some(names) => {
                let unfinished = names.unfinished.as_str();
                is_named(self, unfinished, &file)
                    && rename(self, unfinished, names.wanted.as_str()).is_ok()
            }
            None => true,
        };
        // After the rename: the drop of the file frees its lock.
        drop(file);
        is_kept
    }

    fn discard_file(&self, writer: Counted<NewFile>) {
        let NewFile { file, names } = writer.into_inner();
        if let Some(names) = names {
            let unfinished = names.unfinished.as_str();
            if is_named(self, unfinished, &file) {
                let _ = remove_file(self, unfinished);
            }
        }
        drop(file);
    }

    fn shows_output(&self) -> bool {
        self.stdout().is_terminal()
    }
}
