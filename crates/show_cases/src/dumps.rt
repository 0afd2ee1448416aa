//! Dumps: that bytes are one, or else what is wrong with them first and where. Each is read in one piece, and in pieces of
//! 1, 2, 7 and 4,096 bytes; a dump is written again, in one piece and in pieces. Where two ways differ, that is said.

ghost use Rattle.std.specs.Prelude.{◌<◌, IfOk};
ghost use Rattle.protocol.specs.Lawful.{IsLawful};

use context_dump::{DumpFault, DumpReader, DumpWriter, decode_dump, encode_dump};
use protocol::{ContextImage, DumpWhy};
use std::alloc::{AllocError, Global};

/// A reason in one word.
fn word(why: DumpWhy) -> &'static str {
    match why {
        DumpWhy::Short => "short",
        DumpWhy::Magic => "magic",
        DumpWhy::Version => "version",
        DumpWhy::Name => "name",
        DumpWhy::Count => "count",
        DumpWhy::Field => "field",
        DumpWhy::Trailing => "trailing",
    }
}

/// Whether bytes are those of a dump, but for its version, which is written as 2.
fn are_alike(dump: &[u8], written: &[u8]) -> bool {
    dump.len() == written.len()
        && dump.len() >= 10
        && dump[..9] == written[..9]
        && written[9] == 2
        && dump[10..] == written[10..]
}

/// The bytes of an image, seven at a time, up to a little more than so many.
fn write_in_sevens(alloc: Global, image: &ContextImage, most: usize) -> Result<Vec<u8>, AllocError>
    requires { IsLawful image.now }
{
    let mut bytes = Vec::new(alloc);
    let mut writer = DumpWriter::make(image);
    let mut piece = [0; 7];
    for _ in 0..=most / 7 {
        let count = writer.fill(&mut piece);
        bytes.extend_from_slice(&piece[..count])?;
    }
    Ok(bytes)
}

/// What is said of an image that bytes are a dump of.
fn say_image(alloc: Global, bytes: &[u8], image: &ContextImage) -> Result<String, AllocError>
    requires { IsLawful image.now }
{
    let written = encode_dump(alloc, image)?;
    let said = if !are_alike(bytes, &written) {
        "ok, but written otherwise"
    } else if write_in_sevens(alloc, image, written.len())? != written {
        "ok, but written otherwise in pieces"
    } else {
        "ok"
    };
    String::from_str(alloc, said)
}

fn say_read(
    alloc: Global,
    bytes: &[u8],
    read: Result<ContextImage, DumpFault>,
) -> Result<String, AllocError>
    requires { IfOk read IsLawful }
{
    match read {
        Ok(image) => say_image(alloc, bytes, &image),
        Err(DumpFault::BadDump { place, why }) => format!(in alloc; "bad {place} {}", word(why)),
        Err(DumpFault::OutOfMemory) => Err(AllocError),
    }
}

/// What the bytes are a dump of, where they come in pieces of a size.
fn decode_in_pieces(alloc: Global, bytes: &[u8], size: usize) -> Result<ContextImage, DumpFault>
    requires { 0 < size }
    ensures { IfOk result IsLawful }
{
    let mut reader = DumpReader::make(alloc);
    for piece in bytes.chunks(size) {
        reader.feed(piece)?;
    }
    reader.finish()
}

/// What is said of the bytes of a dump, and of the same bytes in pieces where that differs.
pub fn say(alloc: Global, bytes: &[u8]) -> Result<String, AllocError> {
    let said = say_read(alloc, bytes, decode_dump(alloc, bytes))?;
    for size in [1, 2, 7, 4096] {
        let again = say_read(alloc, bytes, decode_in_pieces(alloc, bytes, size))?;
        if again != said {
            return format!(in alloc; "{said}, but in pieces of {size} {again}");
        }
    }
    Ok(said)
}
