//! The opening of a journal's file.

use crate::end::{Cause, JournalEnd};
use crate::failed::Operation;
use crate::fault::{FileFault, JournalFault};
use crate::store::SystemFile;
use std::fs::{File, OpenOptions, TryLockError};
use std::io;
use std::os::fd::AsRawFd;
use std::path::Path;
use std::rt::Files;

/// The greatest descriptor of a standard stream.
const LAST_STREAM: i32 = 2;

// The folder in which a file of this name is.
fn folder_of(path: &str) -> &str {
    match Path::new(path).parent() {
        Some(folder) if !folder.as_os_str().is_empty() => folder.as_os_str(),
        _ => ".",
    }
}

// Opens a file to be read, and to be written at its end. It is made where there is none. It never has the descriptor
// of a standard stream that was closed, which what is told would go to.
fn open_file<R: Files<File = File>>(rt: &R, path: &str) -> io::Result<File> {
    let mut options = OpenOptions::new();
    options.read(true).append(true).create(true);
    let file = options.open(rt, path)?;
    if file.as_raw_fd() > LAST_STREAM {
        return Ok(file);
    }
    file.try_clone()
}

// Refuses any other than a regular file.
fn require_regular<'a>(path: &'a str, file: &File) -> Result<(), JournalEnd<'a>> {
    match file.metadata() {
        Ok(found) if found.is_file() => Ok(()),
        Ok(_) => {
            let error = io::Error::other("it is no regular file");
            Err(JournalEnd::failed(path, Operation::Open, error))
        }
        Err(error) => Err(JournalEnd::failed(path, Operation::Stat, error)),
    }
}

// Locks a file without waiting.
fn lock<'a>(path: &'a str, file: &File) -> Result<(), JournalEnd<'a>> {
    match file.try_lock() {
        Ok(()) => Ok(()),
        Err(TryLockError::WouldBlock) => Err(JournalEnd {
            path,
            cause: Cause::Fault(JournalFault::File(FileFault::InUse)),
        }),
        Err(TryLockError::Error(error)) => Err(JournalEnd::failed(path, Operation::Lock, error)),
    }
}

// Waits until the names in a folder have reached its device.
fn sync_folder<'a, R: Files<File = File>>(rt: &R, path: &'a str) -> Result<(), JournalEnd<'a>> {
    match File::open(rt, path) {
        Ok(folder) => match folder.sync_all() {
            Ok(()) => Ok(()),
            Err(error) => Err(JournalEnd::failed(path, Operation::Sync, error)),
        },
        Err(error) => Err(JournalEnd::failed(path, Operation::Open, error)),
    }
}

/// Opens the file of a journal, which is made where there is none, and locks it without waiting. Any other than a
/// regular file is refused. Where it is to reach its device, so has its name.
pub fn open_journal<'a, R: Files<File = File>>(
    rt: &'a R,
    path: &'a str,
    is_synced: bool,
) -> Result<SystemFile<'a, R>, JournalEnd<'a>> {
    let file = match open_file(rt, path) {
        Ok(file) => file,
        Err(error) => return Err(JournalEnd::failed(path, Operation::Open, error)),
    };
    require_regular(path, &file)?;
    lock(path, &file)?;
    if is_synced {
        sync_folder(rt, folder_of(path))?;
    }
    match SystemFile::new(rt, path, file) {
        Ok(file) => Ok(file),
        Err(error) => Err(JournalEnd::failed(path, Operation::Stat, error)),
    }
}
