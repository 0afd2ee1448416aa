//! Files of a folder that hold dumps, and what of them outlives a process that dies.

use crate::folder_depot::LONGEST_DUMP;
use rdma_types::Name;
use std::alloc::Global;
use std::fs::{OpenFile, OpenOptions};
use std::io::{ErrorKind, Read, Write};
use std::os::unix::fs::OpenOptionsExt;
use std::rt::Files;
use std::{fs, io, str};

/// The ending of a file that is being written. No name has a point, so a file with an ending is none of the store's.
const PART: &str = "part";

/// The ending of a file that was claimed.
const TAKEN: &str = "taken";

/// Files with one ending that may lie beside the one of a name.
const MOST_BESIDE: u32 = 10_000;

/// Only the owner may read and write.
const OWNER_ALONE: u32 = 0o600;

/// Why a folder did not do what it was asked.
#[derive(Debug, Drop)]
pub enum FolderFault {
    /// The name has a file.
    Taken,
    /// The name has no file.
    Missing,
    /// The system refused a call, or the file is none of a dump.
    Failed(io::Error),
}

impl From<io::Error> for FolderFault {
    fn from(error: io::Error) -> FolderFault {
        FolderFault::Failed(error)
    }
}

/// A file that was claimed: nobody else knows its path.
#[derive(Drop)]
pub struct Claimed {
    /// The path that it had.
    pub path: String,
    /// Its path now, with an ending.
    pub aside: String,
    /// Its bytes.
    pub bytes: Vec<u8>,
}

/// A new file beside the one of a name.
#[derive(Drop)]
struct Beside<F> {
    path: String,
    file: F,
}

/// Whether there are bytes to be read: a regular file that is not too long has them, unless it is empty. A file that the system
/// makes up, as `/proc/kmsg`, has no length, and to read it may wait for ever.
fn has_bytes(there: &fs::Metadata) -> io::Result<bool> {
    if !there.is_file() {
        let words = "it is no regular file";
        return Err(io::Error::new(ErrorKind::InvalidData, words));
    }
    if there.len() > LONGEST_DUMP {
        let words = "it has more bytes than the longest dump";
        return Err(io::Error::new(ErrorKind::InvalidData, words));
    }
    Ok(there.len() > 0)
}

/// Reads a regular file that is not too long.
fn read_file<R: Files>(files: &R, alloc: Global, path: &str) -> io::Result<Vec<u8>> {
    let mut bytes = Vec::new(alloc);
    // (looked at before it is opened, since to open a pipe waits for a writer, and to open a device may do more)
    if has_bytes(&fs::metadata(files, path)?)? {
        let opened = fs::open(files, path)?;
        opened.take(LONGEST_DUMP).read_to_end(&mut bytes)?;
    }
    Ok(bytes)
}

/// Makes an empty file that only its owner may read and write. None where there is one under the path.
fn make_file<R: Files>(files: &R, path: &str) -> io::Result<Option<R::File>> {
    let made = OpenOptions::new()
        .write(true)
        .create_new(true)
        .mode(OWNER_ALONE)
        .open(files, path);
    match made {
        Ok(file) => Ok(Some(file)),
        Err(error) if error.kind() == ErrorKind::AlreadyExists => Ok(None),
        Err(error) => Err(error),
    }
}

/// Writes a new file whole, and to disk.
fn write_file<F: Write + OpenFile + Drop>(mut file: F, bytes: &[u8]) -> io::Result<()> {
    file.write_all(bytes)?;
    file.sync_all()
}

/// Writes to disk which names a folder has, where its file system can do that for a folder.
fn sync_folder<R: Files>(files: &R, folder: &str) -> io::Result<()> {
    match fs::open(files, folder)?.sync_all() {
        Err(error) if error.kind() == ErrorKind::InvalidInput => Ok(()),
        synced => synced,
    }
}

/// The folder that has the folder of a path.
fn folder_above(path: &str) -> &str {
    match path.rsplit_once('/') {
        None => ".",
        Some((above, _)) if above.is_empty() => "/",
        Some((above, _)) => above,
    }
}

/// Makes the folder, where it is not there.
fn make_folder<R: Files>(files: &R, folder: &str) -> io::Result<()> {
    if fs::exists(files, folder)? {
        return Ok(());
    }
    fs::create_dir_all(files, folder)?;
    sync_folder(files, folder_above(folder))
}

/// The path of the file of a name.
pub(crate) fn path_of(alloc: Global, folder: &str, name: &Name) -> io::Result<String> {
    let Ok(name) = str::from_utf8(name.as_bytes()) else {
        return Err(ErrorKind::InvalidInput.into());
    };
    Ok(format!(in alloc; "{folder}/{name}")?)
}

/// Makes a file beside the one of a name, with an ending and the first number that no other has.
fn make_beside<R: Files>(
    files: &R,
    alloc: Global,
    path: &str,
    ending: &str,
) -> io::Result<Beside<R::File>> {
    for number in 0..MOST_BESIDE {
        let path = format!(in alloc; "{path}.{number}.{ending}")?;
        if let Some(file) = make_file(files, path.as_str())? {
            return Ok(Beside { path, file });
        }
    }
    let words = "too many files of this name lie beside it";
    Err(io::Error::new(ErrorKind::AlreadyExists, words))
}

/// Renames the file of a path in place of a new one beside it. The path that it has then.
fn set_aside<R: Files>(files: &R, alloc: Global, path: &str, ending: &str) -> io::Result<String> {
    let beside = make_beside(files, alloc, path, ending)?;
    match fs::rename(files, path, beside.path.as_str()) {
        Ok(()) => Ok(beside.path),
        Err(error) => {
            let _ = fs::remove_file(files, beside.path.as_str());
            Err(error)
        }
    }
}

/// Writes bytes to a new file beside the one of a name, and to disk. The path that it has.
fn write_beside<R: Files>(
    files: &R,
    alloc: Global,
    path: &str,
    bytes: &[u8],
) -> io::Result<String> {
    let part = make_beside(files, alloc, path, PART)?;
    match write_file(part.file, bytes) {
        Ok(()) => Ok(part.path),
        Err(error) => {
            // (a file that is not whole is of no use)
            let _ = fs::remove_file(files, part.path.as_str());
            Err(error)
        }
    }
}

/// Takes the name of a file away again that was published in vain. Where another process claimed the file by then, it was not in
/// vain: it has what was put.
fn withdraw<R: Files>(
    files: &R,
    alloc: Global,
    path: &str,
    error: io::Error,
) -> Result<(), FolderFault> {
    match set_aside(files, alloc, path, PART) {
        Ok(aside) => {
            let _ = fs::remove_file(files, aside.as_str());
            Err(FolderFault::Failed(error))
        }
        Err(gone) if gone.kind() == ErrorKind::NotFound => Ok(()),
        // (it still has the name, and so must count as put)
        Err(_) => Ok(()),
    }
}

/// Removes the other name of a file that was published, and writes the folder to disk.
fn settle<R: Files>(files: &R, folder: &str, part: &str) -> io::Result<()> {
    fs::remove_file(files, part)?;
    sync_folder(files, folder)
}

/// Gives a whole file a name that has none.
fn publish<R: Files>(files: &R, part: &str, path: &str) -> Result<(), FolderFault> {
    match fs::hard_link(files, part, path) {
        Ok(()) => Ok(()),
        Err(error) => {
            let _ = fs::remove_file(files, part);
            if error.kind() == ErrorKind::AlreadyExists {
                return Err(FolderFault::Taken);
            }
            Err(FolderFault::Failed(error))
        }
    }
}

/// Puts bytes under a name that has no file: a new file is written, and gets the name when it is whole and on disk.
///
/// # Errors
///
/// `Taken` where the name has a file, and `Failed`. The name then has the file that it had.
pub fn put_file<R: Files>(
    files: &R,
    alloc: Global,
    folder: &str,
    name: &Name,
    bytes: &[u8],
) -> Result<(), FolderFault> {
    let path = path_of(alloc, folder, name)?;
    make_folder(files, folder)?;
    let part = write_beside(files, alloc, path.as_str(), bytes)?;
    publish(files, part.as_str(), path.as_str())?;
    match settle(files, folder, part.as_str()) {
        Ok(()) => Ok(()),
        Err(error) => withdraw(files, alloc, path.as_str(), error),
    }
}

/// Claims the file of a name, and reads it: of two processes that claim it, one gets it.
///
/// # Errors
///
/// `Missing` where the name has no file, and `Failed`. The name then has its file again; or that lies beside it, with the ending
/// `.taken`, where another file has the name by then.
pub fn claim_file<R: Files>(
    files: &R,
    alloc: Global,
    folder: &str,
    name: &Name,
) -> Result<Claimed, FolderFault> {
    let path = path_of(alloc, folder, name)?;
    match claim(files, alloc, path) {
        Ok(claimed) => Ok(claimed),
        Err(error) if error.kind() == ErrorKind::NotFound => Err(FolderFault::Missing),
        Err(error) => Err(FolderFault::Failed(error)),
    }
}

/// .. by its path.
fn claim<R: Files>(files: &R, alloc: Global, path: String) -> io::Result<Claimed> {
    // (what is no file of a dump is left where it is)
    has_bytes(&fs::metadata(files, path.as_str())?)?;
    let aside = set_aside(files, alloc, path.as_str(), TAKEN)?;
    match read_file(files, alloc, aside.as_str()) {
        Ok(bytes) => Ok(Claimed { path, aside, bytes }),
        Err(error) => {
            let _ = give_file_back(files, aside.as_str(), path.as_str());
            Err(error)
        }
    }
}

/// Gives a claimed file its name back, unless another has that by now.
///
/// # Errors
///
/// It has not the name; it is where it was.
pub fn give_file_back<R: Files>(files: &R, aside: &str, path: &str) -> io::Result<()> {
    fs::hard_link(files, aside, path)?;
    // (it is no matter if this fails: the file has the name, and another one that nobody uses)
    let _ = fs::remove_file(files, aside);
    Ok(())
}

/// Writes to disk that a claimed file has lost its name, and removes it.
///
/// # Errors
///
/// It is there still.
pub fn forget_file<R: Files>(files: &R, folder: &str, aside: &str) -> io::Result<()> {
    sync_folder(files, folder)?;
    fs::remove_file(files, aside)
}
