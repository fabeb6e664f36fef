//! The file `OUT.unfinished`, under which a program writes OUT. A program makes it anew, and so never writes through a
//! link, and locks it; the lock ends with the program. No contract sees the files of a folder: `tools/real-devices` tests
//! these functions.
use crate::files::FileFault;
use std::fs::{File, Permissions, TryLockError, remove_file, symlink_metadata};
use std::io::ErrorKind;
use std::os::unix::fs::{MetadataExt, OpenOptionsExt, PermissionsExt};

/// How often a file is made again if another run removes it before it is locked.
const TRIES: u32 = 100;

/// Returns whether a name is the name of this open file, and not of a link to it.
pub(crate) fn is_named(rt: &HostRuntime, name: &str, file: &File) -> bool {
    let Ok(named) = symlink_metadata(rt, name) else {
        return false;
    };
    let Ok(open) = file.metadata() else {
        return false;
    };
    named.dev() == open.dev() && named.ino() == open.ino()
}

/// Locks a file. Returns whether another run has its lock; a file system without locks has none.
fn is_locked(file: &File) -> bool {
    match file.try_lock() {
        Ok(()) => false,
        Err(TryLockError::WouldBlock) => true,
        Err(TryLockError::Error(_)) => false,
    }
}

/// Removes the plain file of this name, which an earlier run has left; refused if another run has its lock.
fn remove_left_file(rt: &HostRuntime, name: &str) -> Result<(), FileFault> {
    let file = match File::open(rt, name) {
        Ok(file) => file,
        Err(error) => return FileFault::unless_missing(error.kind()),
    };
    if is_locked(&file) {
        return Err(FileFault::Busy);
    }
    // Another run may have removed it since, and have made its own.
    if !is_named(rt, name, &file) {
        return Ok(());
    }
    remove_name(rt, name)
}

/// Removes a name.
fn remove_name(rt: &HostRuntime, name: &str) -> Result<(), FileFault> {
    match remove_file(rt, name) {
        Ok(()) => Ok(()),
        Err(error) => FileFault::unless_missing(error.kind()),
    }
}

/// Removes what has this name: a file that an earlier run has left, or a link, a pipe or a device, which is not opened.
fn remove_left(rt: &HostRuntime, name: &str) -> Result<(), FileFault> {
    match symlink_metadata(rt, name) {
        Ok(known) => {
            if known.is_file() {
                remove_left_file(rt, name)
            } else {
                remove_name(rt, name)
            }
        }
        Err(error) => FileFault::unless_missing(error.kind()),
    }
}

/// Makes a file that was not there, with this mode if one is given; none if something has the name.
fn make_file(rt: &HostRuntime, name: &str, mode: Option<u32>) -> Result<Option<File>, FileFault> {
    let mut options = File::options();
    options
        .write(true)
        .create_new(true)
        .mode(mode.unwrap_or(0o666));
    let file = match options.open(rt, name) {
        Ok(file) => file,
        Err(error) => {
            return match error.kind() {
                ErrorKind::AlreadyExists => Ok(None),
                kind => Err(FileFault::of(kind)),
            };
        }
    };
    if let Some(mode) = mode {
        // What the process leaves out of new files' modes; without it the mode allows less, and never more.
        let _ = file.set_permissions(Permissions::from_mode(mode));
    }
    Ok(Some(file))
}

/// Returns a new file of this name, locked, with this mode if one is given.
pub(crate) fn new_unfinished(
    rt: &HostRuntime,
    name: &str,
    mode: Option<u32>,
) -> Result<File, FileFault> {
    for _ in 0..TRIES {
        match make_file(rt, name, mode)? {
            Some(file) => {
                if !is_locked(&file) && is_named(rt, name, &file) {
                    return Ok(file);
                }
            }
            None => remove_left(rt, name)?,
        }
    }
    Err(FileFault::Busy)
}
