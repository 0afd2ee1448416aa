//! The dumps of a folder, a file for each name.

ghost use Rattle.std.specs.Prelude.{None};

use crate::folder::{FolderFault, claim_file, forget_file, give_file_back, path_of, put_file};
use host_ports::{Store, StoreFault};
use rdma_types::Name;
use std::alloc::Global;
use std::io;
use std::io::{ErrorKind, Write};
use std::rt::Files;

/// A folder of the file system: a file for each name, for its owner alone.
///
/// Several processes may use one folder, and each may die at any time. No dump takes the place of another. Beside the file of a
/// name `f` lie files of its own for each call, which nobody else writes: `f.0.part` while it is written, and `f.0.taken` while it is
/// claimed.
///
/// - `publish` writes the bytes to a file with the ending `.part`, syncs it, and gives it the name by a hard link, which fails where
///   the name has a file; then it removes the other name and syncs the folder.
/// - `claim` renames the file, with the ending `.taken`, and reads it once. Of two processes that claim one name one gets it.
/// - `finish` syncs the folder, so that the name is gone, and removes the file. `give_back` gives it its name by a hard link.
///
/// What is no regular file, and one of more than `LONGEST_DUMP` bytes, is not opened. Of a call that failed, a sentence is written
/// that has the path and what the system said.
#[derive(Drop)]
pub struct FolderStore<'a, R, E> {
    alloc: Global,
    files: &'a R,
    folder: &'a str,
    errors: E,
    claim: Option<Claim>,
}

/// A file that was claimed, and the path that it had.
#[derive(Drop)]
struct Claim {
    path: String,
    aside: String,
}

/// What the store answers for a call of the system that failed.
fn fault_of(error: &io::Error) -> StoreFault {
    match error.kind() {
        ErrorKind::OutOfMemory => StoreFault::OutOfMemory,
        ErrorKind::AlreadyExists => StoreFault::Taken,
        _ => StoreFault::Failed,
    }
}

/// Writes what the system said of a call for the file of a path, where it can be written.
fn tell<E: Write>(errors: &mut E, alloc: Global, path: &str, error: &io::Error) {
    if let Ok(text) = format!(in alloc; "jichurpa serve: the depot failed: {path}: {error}\n") {
        let _ = errors.write_all(text.as_bytes());
    }
}

/// What the store answers for a call of the system that failed, which it tells unless memory ran out or the name has a file.
fn told<E: Write>(errors: &mut E, alloc: Global, path: &str, error: &io::Error) -> StoreFault {
    let fault = fault_of(error);
    if fault == StoreFault::Failed {
        tell(errors, alloc, path, error);
    }
    fault
}

impl<'a, R: Files, E: Write> FolderStore<'a, R, E> {
    /// A store in that folder, with a writer of sentences. The first `publish` makes the folder, where it is not there.
    pub fn at(alloc: Global, files: &'a R, folder: &'a str, errors: E) -> FolderStore<'a, R, E> {
        FolderStore {
            alloc,
            files,
            folder,
            errors,
            claim: None,
        }
    }

    /// What the store answers for a folder that did not do what it was asked of a name.
    fn refused(&mut self, name: &Name, fault: FolderFault) -> StoreFault {
        match fault {
            FolderFault::Taken => StoreFault::Taken,
            FolderFault::Missing => StoreFault::Missing,
            FolderFault::Failed(error) if error.kind() == ErrorKind::OutOfMemory => {
                StoreFault::OutOfMemory
            }
            FolderFault::Failed(error) => {
                if let Ok(path) = path_of(self.alloc, self.folder, name) {
                    tell(&mut self.errors, self.alloc, path.as_str(), &error);
                }
                StoreFault::Failed
            }
        }
    }
}

impl<'a, R: Files, E: Write> Store for FolderStore<'a, R, E> {
    ghost dumps = { λ _. None };

    ghost claims = { λ _. None };

    fn publish(&mut self, alloc: Global, name: Name, bytes: &[u8]) -> Result<(), StoreFault> {
        match put_file(self.files, alloc, self.folder, &name, bytes) {
            Ok(()) => Ok(()),
            Err(fault) => Err(self.refused(&name, fault)),
        }
    }

    fn claim(&mut self, alloc: Global, name: Name) -> Result<Vec<u8>, StoreFault> {
        match claim_file(self.files, alloc, self.folder, &name) {
            Ok(claimed) => {
                self.claim = Some(Claim {
                    path: claimed.path,
                    aside: claimed.aside,
                });
                Ok(claimed.bytes)
            }
            Err(fault) => Err(self.refused(&name, fault)),
        }
    }

    fn finish(&mut self) -> Result<(), StoreFault> {
        let Some(claim) = &self.claim else {
            return Err(StoreFault::Missing);
        };
        match forget_file(self.files, self.folder, claim.aside.as_str()) {
            Ok(()) => Ok(()),
            Err(error) => Err(told(&mut self.errors, self.alloc, claim.path.as_str(), &error)),
        }
    }

    fn give_back(&mut self) -> Result<(), StoreFault> {
        let Some(claim) = &self.claim else {
            return Err(StoreFault::Missing);
        };
        match give_file_back(self.files, claim.aside.as_str(), claim.path.as_str()) {
            Ok(()) => Ok(()),
            Err(error) => Err(told(&mut self.errors, self.alloc, claim.path.as_str(), &error)),
        }
    }
}
