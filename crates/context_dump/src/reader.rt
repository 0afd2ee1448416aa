//! A dump that is read by pieces.

ghost use Rattle.std.specs.Prelude.{◌≡◌, ◌++◌, [], length, IfOk, IfErr, IfSome, true, false};
ghost use Rattle.protocol.specs.Dumps.{Dumps, Good, read_dump};
ghost use Rattle.protocol.specs.Lawful.{IsLawful};
ghost use Rattle.dump_reader.specs.Steps.{IsFault};
ghost use Rattle.dump_reader.specs.ReadProgress.{Stands};
ghost use Rattle.context_dump.specs.Pieces.{Feeds, fault_in, goes_on, is_bad, unless_short};

use dump_reader::{DumpFault, Offence, ReadProgress};
use protocol::{ContextImage, DumpWhy};
use std::alloc::Global;
use std::marker::Model;

/// A reader of a dump whose bytes come in pieces of any lengths. It finds a fault with the piece that has the last byte of
/// the field at fault, and reads each group of fields once it has come whole.
///
/// It keeps the bytes beside what was read of them, so it takes about twice the memory of the image.
#[derive(Drop)]
pub struct DumpReader {
    alloc: Global,
    /// All bytes so far, up to those of the piece that has a fault.
    bytes: Vec<u8>,
    /// What was read of them; where it is nothing, they are to be read from the first.
    way: Option<ReadProgress>,
    fault: Option<Offence>,
}

impl Model for DumpReader {
    ghost use Rattle.std.specs.Prelude.{ℕ, List, IfSome};
    ghost use Rattle.dump_reader.specs.ReadProgress.{Stands};
    ghost use Rattle.context_dump.specs.Pieces.{Keeps};

    ghost Value = { List ℕ };

    ghost view = { λ r. r.bytes.items };

    ghost invariant = { λ r. IfSome r.way (λ way. Stands way r.bytes.items) × Keeps r.bytes.items r.fault };
}

/// Whether reading can go on with more bytes.
fn may_go_on(read: &Result<(), DumpFault>) -> bool
    ensures { result ≡ goes_on read.now }
{
    match read {
        Ok(()) => true,
        Err(DumpFault::BadDump { why, .. }) => matches!(why, DumpWhy::Short),
        Err(DumpFault::OutOfMemory) => false,
    }
}

/// A reading that can go on.
fn if_it_may_go_on(way: ReadProgress, read: &Result<(), DumpFault>) -> Option<ReadProgress>
    ensures { IfSome result (λ w. (w ≡ way) × (goes_on read.now ≡ true)) }
{
    if may_go_on(read) { Some(way) } else { None }
}

/// What was read of bytes, or else their first fields.
fn take_up(
    alloc: Global,
    bytes: &[u8],
    held: Option<ReadProgress>,
) -> Result<ReadProgress, DumpFault>
    requires { IfSome held (λ way. Stands way bytes.now) }
    ensures stands { IfOk result (λ way. Stands way bytes.now) }
    ensures fault { IfErr result (IsFault (read_dump bytes.now)) }
{
    match held {
        Some(way) => Ok(way),
        None => Ok(ReadProgress::begin(alloc, bytes)?),
    }
}

/// Reads on as far as the bytes go.
fn read_on(alloc: Global, bytes: &[u8], held: &mut Option<ReadProgress>) -> Result<(), DumpFault>
    requires { IfSome held.old (λ way. Stands way bytes.now) }
    ensures way { IfSome held.new (λ way. Stands way bytes.now) }
    ensures whole { IfOk result (λ u. is_bad (read_dump bytes.now) ≡ false) }
    ensures fault { IfErr result (IsFault (read_dump bytes.now)) }
{
    let mut way = take_up(alloc, bytes, held.take())?;
    let read = way.go_on(bytes);
    *held = if_it_may_go_on(way, &read);
    read
}

/// More bytes may come where they ended too early.
fn bad_unless_short(place: usize, why: DumpWhy) -> Result<(), DumpFault>
    ensures { result ≡ unless_short place why }
{
    match why {
        DumpWhy::Short => Ok(()),
        _ => Err(DumpFault::BadDump { place, why }),
    }
}

/// Reads a piece behind the bytes so far. When out of memory, these are as before.
fn read_piece(
    alloc: Global,
    bytes: &mut Vec<u8>,
    way: &mut Option<ReadProgress>,
    piece: &[u8],
) -> Result<(), DumpFault>
    requires stands { IfSome way.old (λ w. Stands w bytes.old.items) }
    requires sound { is_bad (read_dump bytes.old.items) ≡ false }
    ensures stands { IfSome way.new (λ w. Stands w bytes.new.items) }
    ensures fed { Feeds bytes.old.items piece.now bytes.new.items result }
{
    let before = bytes.len();
    bytes.extend_from_slice(piece)?;
    match read_on(alloc, bytes, way) {
        Ok(()) => Ok(()),
        Err(DumpFault::BadDump { place, why }) => bad_unless_short(place, why),
        Err(DumpFault::OutOfMemory) => {
            *way = None;
            bytes.truncate(before);
            Err(DumpFault::OutOfMemory)
        }
    }
}

/// The fault to keep.
fn lasting_fault(read: &Result<(), DumpFault>) -> Option<Offence>
    ensures { result ≡ fault_in read.now }
{
    match read {
        Err(DumpFault::BadDump { place, why }) => Some(Offence {
            place: *place,
            why: *why,
        }),
        _ => None,
    }
}

/// The image that bytes are a dump of, as far as they were not read.
fn read_rest(
    alloc: Global,
    bytes: &[u8],
    held: Option<ReadProgress>,
) -> Result<ContextImage, DumpFault>
    requires { IfSome held (λ way. Stands way bytes.now) }
    ensures image { IfOk result (λ image. read_dump bytes.now ≡ Good image (length bytes.now) []) }
    ensures fault { IfErr result (IsFault (read_dump bytes.now)) }
{
    let mut way = take_up(alloc, bytes, held)?;
    way.go_on(bytes)?;
    Ok(way.into_image()?)
}

/// The same, and what is known of an image that was read.
fn read_image(
    alloc: Global,
    bytes: &[u8],
    held: Option<ReadProgress>,
) -> Result<ContextImage, DumpFault>
    requires { IfSome held (λ way. Stands way bytes.now) }
    ensures image { IfOk result (λ image. read_dump bytes.now ≡ Good image (length bytes.now) []) }
    ensures dumps { IfOk result (λ image. Dumps image bytes.now) }
    ensures lawful { IfOk result IsLawful }
    ensures fault { IfErr result (IsFault (read_dump bytes.now)) }
{
    let _bytes = bytes;
    read_rest(alloc, bytes, held)
}

impl DumpReader {
    /// A reader of no bytes. It takes no memory.
    pub fn make(alloc: Global) -> DumpReader
        ensures { result ≡ [] }
    {
        DumpReader {
            alloc,
            bytes: Vec::new(alloc),
            way: None,
            fault: None,
        }
    }

    /// Takes more bytes. Errors: `BadDump` with the fault that the bytes have whatever bytes follow, which is answered
    /// from then on; or `OutOfMemory`, and the reader is then as before.
    pub fn feed(&mut self, piece: &[u8]) -> Result<(), DumpFault>
        ensures { Feeds self.old piece.now self.new result }
    {
        if let Some(fault) = self.fault {
            return Err(DumpFault::from(fault));
        }
        let read = read_piece(self.alloc, &mut self.bytes, &mut self.way, piece);
        self.fault = lasting_fault(&read);
        read
    }

    /// The image that all bytes are a dump of: what `decode_dump` of them answers. Errors: `BadDump` with the first
    /// fault of the bytes and its place where they are no dump, or `OutOfMemory`.
    pub fn finish(self) -> Result<ContextImage, DumpFault>
        ensures image { IfOk result (λ image. read_dump self ≡ Good image (length self) []) }
        ensures dumps { IfOk result (λ image. Dumps image self) }
        ensures lawful { IfOk result IsLawful }
        ensures fault { IfErr result (IsFault (read_dump self)) }
    {
        let DumpReader {
            alloc,
            bytes,
            way,
            fault,
        } = self;
        match fault {
            Some(fault) => Err(DumpFault::from(fault)),
            None => read_image(alloc, &bytes, way),
        }
    }
}
