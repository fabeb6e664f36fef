//! Files that are opened by name.
ghost use Rattle.std.specs.Prelude.{◌≡◌, ℕ, List, None, Option, IfSome, Bool, true, false, is_some};
ghost use Rattle.counted_io.specs.Device.{Failed};
ghost use Rattle.devices.specs.Files.{IsAsKnown};

use counted_io::{Counted, Source};
use std::fs::File;
use std::io::ErrorKind;

/// Why a file is not created.
#[derive(Clone, Copy, Debug, PartialEq, Eq)]
pub enum FileFault {
    /// A folder of its name is missing.
    Missing,
    /// Permissions forbid it.
    Denied,
    /// Its name is the name of a folder.
    Folder,
    /// Another run writes the file.
    Busy,
    /// Another reason.
    Other,
}

impl FileFault {
    /// Returns the fault for an error of the system.
    pub(crate) fn of(kind: ErrorKind) -> FileFault {
        match kind {
            ErrorKind::NotFound | ErrorKind::NotADirectory => FileFault::Missing,
            ErrorKind::PermissionDenied | ErrorKind::ReadOnlyFilesystem => FileFault::Denied,
            ErrorKind::IsADirectory => FileFault::Folder,
            _ => FileFault::Other,
        }
    }

    /// Returns the fault for an error of the system, unless it is that the file is missing.
    pub(crate) fn unless_missing(kind: ErrorKind) -> Result<(), FileFault> {
        match kind {
            ErrorKind::NotFound => Ok(()),
            kind => Err(FileFault::of(kind)),
        }
    }
}

/// Files that can be opened by name, to be read.
pub trait NamedFiles {
    type Reader: Source + Drop;

    // The bytes of the file of a name, if known.
    ghost contents_of: { Self → List ℕ → Option (List ℕ) };

    // Whether it can be opened, if known.
    ghost opens: { Self → List ℕ → Option Bool };

    // Whether it is known that no read of a file fails.
    ghost never_fails: { Bool };

    /// Opens a file before its first byte; none if it can't be opened.
    fn open_named(&self, name: &str) -> Option<Self::Reader>
        ensures reader { IfSome result (λ reader. Self.Reader.remaining reader ≡ contents_of self.now name.now) }
        ensures opens { IsAsKnown (opens self.now name.now) (is_some result) };

    // Where that is known, no reader counts a failure.
    ghost counts_none: { never_fails ≡ true → (before after : Self.Reader) →
        Failed (Self.Reader.fault_count before) (Self.Reader.fault_count after) → ⊥ };
}

impl NamedFiles for HostRuntime {
    type Reader = Counted<File>;

    ghost contents_of = { λ _ _. None };

    ghost opens = { λ _ _. None };

    ghost never_fails = { false };

    fn open_named(&self, name: &str) -> Option<Counted<File>> {
        match File::open(self, name) {
            Ok(file) => Some(Counted::new(file)),
            Err(_) => None,
        }
    }

    ghost counts_none = { λ never before after failed. let no : ⊥ = cc in no };
}
