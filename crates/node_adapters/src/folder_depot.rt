//! The files of a folder, one for each name.

ghost use Rattle.std.specs.Prelude.{◌≡◌, ◌≤◌, None, OnOk, IsErrOf};
ghost use Rattle.host_ports.specs.Streams.{FaultsCounted};
ghost use Rattle.host_ports.specs.declared.depot.DepotFault.TheVariants as fault;

use host_ports::{Depot, DepotFault};
use rdma_types::Name;
use std::alloc::Global;
use std::fs::{OpenFile, OpenOptions};
use std::io::{ErrorKind, Read, Write};
use std::os::unix::fs::{MetadataExt, OpenOptionsExt};
use std::rt::Files;
use std::{fs, io, str};

/// The folder, where the process runs.
const FOLDER: &str = "depot";

/// The ending of a file that is being written. No name has a point, so a file with an ending is none of the depot's.
const PART: &str = "part";

/// The ending of a file that is being taken out.
const TAKEN: &str = "taken";

/// The ending of a file that lost its name to a later one.
const REPLACED: &str = "replaced";

/// Files with one ending that may lie beside the one of a name, and turns that a file may take to get its name.
const MOST_BESIDE: u32 = 10_000;

/// Only the owner may read and write.
const OWNER_ALONE: u32 = 0o600;

/// Bytes of the longest dump of a context on a device. Its regions and payloads are the 8,192 pages of a device, 33,554,432
/// bytes. All else is at most: 27 for the head, 1,090 for 64 domains, 10,242 for 256 regions, 24,118,850 for 64 completion
/// queues with 16,384 entries each, and 1,368,962 for 64 queue pairs with 256 requests and 256 receives each.
pub(crate) const LONGEST_DUMP: u64 = 59_053_603;

/// A folder of the file system, whose faults are counted: a file for each name.
///
/// A file is opened when it is asked for, and no other one is. What is no regular file, and one of more than `LONGEST_DUMP`
/// bytes, is a fault, and is not opened. A file without bytes is not opened either: the system tells such a length of files
/// that it makes up, as `/proc/kmsg`, and to read one of them may wait for ever.
///
/// Several processes may use one folder, and each may die at any time: no dump is lost but by `take`, which returns it. Beside
/// the file of a name `f` lie files of its own for each call, `f.0.part` and so on, which nobody else writes.
///
/// - `put` writes the bytes to a file with the ending `.part`, and gives it the name when it is whole and on disk. A file that
///   has the name is set aside first, with the ending `.replaced`. After a crash the name has its old bytes, the new ones or
///   none, and whatever it has not lies beside it. Where a whole file could not be given the name, it stays beside it.
/// - `take` renames the file, with the ending `.taken`, before it is read. So of two processes that take a name one gets the
///   bytes; one that ends in between leaves them there. Where the name was looked at before and has another file since, the
///   file is given its name back, and the call fails.
#[derive(Drop)]
pub struct FolderDepot<'a, R> {
    files: &'a R,
    folder: &'a str,
    fault_count: u64,
    last_fault: Option<FileFault>,
    looked: Option<Looked>,
}

/// The name of the file of a call that failed, and what the system said of it.
#[derive(Drop)]
struct FileFault {
    name: Name,
    error: io::Error,
}

/// Which file was found under a name when that was looked at last.
#[derive(Clone, Copy)]
struct Looked {
    name: Name,
    file: FileMark,
}

/// What tells a file from one that was written later: where it is stored, its length and when it was written.
#[derive(Clone, Copy, PartialEq, Eq)]
struct FileMark {
    device: u64,
    number: u64,
    length: u64,
    seconds: i64,
    nanoseconds: i64,
}

/// The bytes of a file.
#[derive(Drop)]
struct FileRead {
    file: FileMark,
    bytes: Vec<u8>,
}

/// A new file beside the one of a name.
#[derive(Drop)]
struct Beside<F> {
    path: String,
    file: F,
}

/// What is said of a file tells it from others.
fn mark_of(there: &fs::Metadata) -> FileMark {
    FileMark {
        device: there.dev(),
        number: there.ino(),
        length: there.len(),
        seconds: there.mtime(),
        nanoseconds: there.mtime_nsec(),
    }
}

/// Whether there are bytes to be read: a regular file that is not too long has them, unless it is empty.
///
/// # Errors
///
/// It is no such file.
fn has_bytes(there: &fs::Metadata) -> io::Result<bool> {
    if !there.is_file() {
        let words = "it is no regular file";
        return Err(io::Error::new(ErrorKind::InvalidData, words));
    }
    if there.len() > LONGEST_DUMP {
        let words = "it has more bytes than the longest dump";
        return Err(io::Error::new(ErrorKind::InvalidData, words));
    }
    Ok(there.len() > 0)
}

/// Reads a regular file that is not too long.
fn read_file<R: Files>(files: &R, alloc: Global, path: &str) -> io::Result<FileRead> {
    let mut bytes = Vec::new(alloc);
    // (looked at before it is opened, since to open a pipe waits for a writer, and to open a device may do more)
    let seen = fs::metadata(files, path)?;
    if !has_bytes(&seen)? {
        let file = mark_of(&seen);
        return Ok(FileRead { file, bytes });
    }
    let opened = fs::open(files, path)?;
    // (and once more, since another file may have come under the path meanwhile)
    let there = opened.metadata()?;
    let file = mark_of(&there);
    if has_bytes(&there)? {
        opened.take(LONGEST_DUMP + 1).read_to_end(&mut bytes)?;
    }
    if bytes.len() as u64 > LONGEST_DUMP {
        let words = "it grew longer than the longest dump";
        return Err(io::Error::new(ErrorKind::InvalidData, words));
    }
    Ok(FileRead { file, bytes })
}

/// Makes an empty file that only its owner may read and write. None where there is one under the path.
fn make_file<R: Files>(files: &R, path: &str) -> io::Result<Option<R::File>> {
    let made = OpenOptions::new()
        .write(true)
        .create_new(true)
        .mode(OWNER_ALONE)
        .open(files, path);
    match made {
        Ok(file) => Ok(Some(file)),
        Err(error) if error.kind() == ErrorKind::AlreadyExists => Ok(None),
        Err(error) => Err(error),
    }
}

/// Writes a new file whole, and to disk.
fn write_file<F: Write + OpenFile + Drop>(mut file: F, bytes: &[u8]) -> io::Result<()> {
    file.write_all(bytes)?;
    file.sync_all()
}

/// Writes to disk which names a folder has, where its file system can do that for a folder.
fn sync_folder<R: Files>(files: &R, folder: &str) -> io::Result<()> {
    match fs::open(files, folder)?.sync_all() {
        Err(error) if error.kind() == ErrorKind::InvalidInput => Ok(()),
        synced => synced,
    }
}

/// The folder that has the folder of a path.
fn folder_above(path: &str) -> &str {
    match path.rsplit_once('/') {
        None => ".",
        Some((above, _)) if above.is_empty() => "/",
        Some((above, _)) => above,
    }
}

/// Gives a file that was set aside its name back. Where another has the name by now, or the system refuses it, it stays where
/// it is.
fn give_back<R: Files>(files: &R, aside: &str, path: &str) {
    if fs::hard_link(files, aside, path).is_ok() {
        let _ = fs::remove_file(files, aside);
    }
}

/// .. where one was set aside.
fn give_any_back<R: Files>(files: &R, aside: &Option<String>, path: &str) {
    if let Some(aside) = aside {
        give_back(files, aside.as_str(), path);
    }
}

impl<'a, R: Files> FolderDepot<'a, R> {
    /// The folder `depot` where the process runs, without a fault so far. The first `put` makes it, where it is not there.
    pub fn new(files: &'a R) -> FolderDepot<'a, R> {
        FolderDepot::at(files, FOLDER)
    }

    /// .. another folder.
    pub fn at(files: &'a R, folder: &'a str) -> FolderDepot<'a, R> {
        FolderDepot {
            files,
            folder,
            fault_count: 0,
            last_fault: None,
            looked: None,
        }
    }

    /// The path of the file of the last call that failed, and what the system said of it. None where no call failed, and where
    /// memory runs out.
    pub fn reason(&self, alloc: Global) -> Option<String> {
        match &self.last_fault {
            None => None,
            Some(fault) => {
                let path = self.path_of(alloc, &fault.name).ok()?;
                let error = &fault.error;
                format!(in alloc; "{path}: {error}").ok()
            }
        }
    }

    /// The path of the file of a name.
    fn path_of(&self, alloc: Global, name: &Name) -> io::Result<String> {
        let Ok(name) = str::from_utf8(name.as_bytes()) else {
            return Err(ErrorKind::InvalidInput.into());
        };
        let folder = self.folder;
        Ok(format!(in alloc; "{folder}/{name}")?)
    }

    /// Makes a file beside the one of a name, with an ending and the first number that no other has.
    fn make_beside(&self, alloc: Global, path: &str, ending: &str) -> io::Result<Beside<R::File>> {
        for number in 0..MOST_BESIDE {
            let path = format!(in alloc; "{path}.{number}.{ending}")?;
            if let Some(file) = make_file(self.files, path.as_str())? {
                return Ok(Beside { path, file });
            }
        }
        let words = "too many files of this name lie beside it";
        Err(io::Error::new(ErrorKind::AlreadyExists, words))
    }

    /// Takes the file of a name for this call alone: it is renamed in place of a new one beside it. The path that it has then.
    fn claim(&self, alloc: Global, path: &str, ending: &str) -> io::Result<String> {
        let beside = self.make_beside(alloc, path, ending)?;
        match fs::rename(self.files, path, beside.path.as_str()) {
            Ok(()) => Ok(beside.path),
            Err(error) => {
                let _ = fs::remove_file(self.files, beside.path.as_str());
                Err(error)
            }
        }
    }

    /// Makes the folder, where it is not there.
    fn make_folder(&self) -> io::Result<()> {
        if fs::exists(self.files, self.folder)? {
            return Ok(());
        }
        fs::create_dir_all(self.files, self.folder)?;
        sync_folder(self.files, folder_above(self.folder))
    }

    /// Writes bytes to a new file beside the one of a name. The path that it has.
    fn write_beside(&self, alloc: Global, path: &str, bytes: &[u8]) -> io::Result<String> {
        let part = self.make_beside(alloc, path, PART)?;
        match write_file(part.file, bytes) {
            Ok(()) => Ok(part.path),
            Err(error) => {
                // (a file that is not whole is of no use)
                let _ = fs::remove_file(self.files, part.path.as_str());
                Err(error)
            }
        }
    }

    /// Gives a whole file the name. One that has the name is set aside first, and the path that it has then is returned. Where
    /// the call fails, that one has its name again.
    fn publish(&self, alloc: Global, part: &str, path: &str) -> io::Result<Option<String>> {
        let mut aside = None;
        for _ in 0..MOST_BESIDE {
            match fs::hard_link(self.files, part, path) {
                Ok(()) => return Ok(aside),
                Err(error) if error.kind() == ErrorKind::AlreadyExists => {}
                Err(error) => {
                    give_any_back(self.files, &aside, path);
                    return Err(error);
                }
            }
            match self.claim(alloc, path, REPLACED) {
                Ok(claimed) => aside = Some(claimed),
                // (another process took it meanwhile)
                Err(error) if error.kind() == ErrorKind::NotFound => {}
                Err(error) => {
                    give_any_back(self.files, &aside, path);
                    return Err(error);
                }
            }
        }
        let words = "other processes put this name all the time";
        Err(io::Error::new(ErrorKind::ResourceBusy, words))
    }

    /// Removes the other name of a file that was published, and writes the folder to disk.
    fn finish(&self, part: &str) -> io::Result<()> {
        fs::remove_file(self.files, part)?;
        sync_folder(self.files, self.folder)
    }

    /// Writes a file beside the one of the name, and gives it the name when it is whole.
    fn replace(&self, alloc: Global, name: &Name, bytes: &[u8]) -> io::Result<()> {
        let path = self.path_of(alloc, name)?;
        self.make_folder()?;
        let part = self.write_beside(alloc, path.as_str(), bytes)?;
        let aside = self.publish(alloc, part.as_str(), path.as_str())?;
        match self.finish(part.as_str()) {
            Ok(()) => Ok(()),
            Err(error) => {
                // (nobody is told that it is there, so it goes back beside the name)
                let _ = self.claim(alloc, path.as_str(), PART);
                give_any_back(self.files, &aside, path.as_str());
                Err(error)
            }
        }
    }

    /// The bytes of the file of a name.
    fn read(&self, alloc: Global, name: &Name) -> io::Result<FileRead> {
        let path = self.path_of(alloc, name)?;
        read_file(self.files, alloc, path.as_str())
    }

    /// Whether a file is another than the one that was found when its name was looked at last.
    fn is_other(&self, name: &Name, file: &FileMark) -> bool {
        match &self.looked {
            None => false,
            Some(looked) => looked.name.as_bytes() == name.as_bytes() && looked.file != *file,
        }
    }

    /// Reads a file that was claimed, and removes it once the folder is on disk.
    fn read_claimed(&self, alloc: Global, name: &Name, taken: &str) -> io::Result<Vec<u8>> {
        let read = read_file(self.files, alloc, taken)?;
        if self.is_other(name, &read.file) {
            let words = "another file came under the name after it was read";
            return Err(io::Error::new(ErrorKind::InvalidData, words));
        }
        sync_folder(self.files, self.folder)?;
        fs::remove_file(self.files, taken)?;
        Ok(read.bytes)
    }

    /// Takes the file of a name out: it is claimed, read and removed. One that cannot be read is given its name back.
    fn take_out(&self, alloc: Global, name: &Name) -> io::Result<Vec<u8>> {
        let path = self.path_of(alloc, name)?;
        // (what is no file of a dump is left where it is)
        has_bytes(&fs::metadata(self.files, path.as_str())?)?;
        let taken = self.claim(alloc, path.as_str(), TAKEN)?;
        match self.read_claimed(alloc, name, taken.as_str()) {
            Ok(bytes) => Ok(bytes),
            Err(error) => {
                give_back(self.files, taken.as_str(), path.as_str());
                Err(error)
            }
        }
    }

    /// Notes which file was found under a name.
    fn note(&mut self, name: Name, read: io::Result<FileRead>) -> io::Result<Vec<u8>>
        ensures { self.new.fault_count ≡ self.old.fault_count }
    {
        match read {
            Ok(read) => {
                let file = read.file;
                self.looked = Some(Looked { name, file });
                Ok(read.bytes)
            }
            Err(error) => {
                self.looked = None;
                Err(error)
            }
        }
    }

    /// Why a call failed; to be out of memory is no fault of the folder.
    fn failed(&mut self, name: Name, error: io::Error) -> DepotFault
        ensures short { result ≡ fault.OutOfMemory → self.new.fault_count ≡ self.old.fault_count }
        ensures faults_counted { result ≡ fault.Failed
            → FaultsCounted self.old.fault_count self.new.fault_count }
        ensures there { result ≡ fault.Missing → ⊥ }
        ensures faults_monotone { self.old.fault_count ≤ self.new.fault_count }
    {
        if error.kind() == ErrorKind::OutOfMemory {
            return DepotFault::OutOfMemory;
        }
        self.fault_count = self.fault_count.saturating_add(1);
        self.last_fault = Some(FileFault { name, error });
        DepotFault::Failed
    }

    /// The bytes that were found, or why there are none.
    fn found(&mut self, name: Name, read: io::Result<Vec<u8>>) -> Result<Vec<u8>, DepotFault>
        ensures faults_unchanged { OnOk result (self.new.fault_count ≡ self.old.fault_count) }
        ensures short { IsErrOf result fault.OutOfMemory
            → self.new.fault_count ≡ self.old.fault_count }
        ensures absent { IsErrOf result fault.Missing
            → self.new.fault_count ≡ self.old.fault_count }
        ensures faults_counted { IsErrOf result fault.Failed
            → FaultsCounted self.old.fault_count self.new.fault_count }
        ensures faults_monotone { self.old.fault_count ≤ self.new.fault_count }
    {
        match read {
            Ok(bytes) => Ok(bytes),
            Err(error) if error.kind() == ErrorKind::NotFound => Err(DepotFault::Missing),
            Err(error) => Err(self.failed(name, error)),
        }
    }
}

impl<'a, R: Files> Depot for FolderDepot<'a, R> {
    ghost held = { λ _. None };

    ghost faults = { λ d. d.fault_count };

    ghost never_fails = { λ _. ⊥ };

    fn put(&mut self, alloc: Global, name: Name, bytes: &[u8]) -> Result<(), DepotFault> {
        self.looked = None;
        match self.replace(alloc, &name, bytes) {
            Ok(()) => Ok(()),
            Err(error) => Err(self.failed(name, error)),
        }
    }

    fn look(&mut self, alloc: Global, name: Name) -> Result<Vec<u8>, DepotFault> {
        let read = self.read(alloc, &name);
        let bytes = self.note(name, read);
        self.found(name, bytes)
    }

    fn take(&mut self, alloc: Global, name: Name) -> Result<Vec<u8>, DepotFault> {
        let read = self.take_out(alloc, &name);
        self.looked = None;
        self.found(name, read)
    }
}
