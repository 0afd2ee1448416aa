//! Dumps, whole.

ghost use Rattle.std.specs.Prelude.{◌≡◌, [], length, IfOk, IfErr};
ghost use Rattle.protocol.specs.Dumps.{Dumps, Good, read_dump};
ghost use Rattle.protocol.specs.Lawful.{IsLawful};
ghost use Rattle.dump_reader.specs.Steps.{IsFault};

use crate::fault::DumpFault;
use crate::read_progress::ReadProgress;
use protocol::ContextImage;
use std::alloc::Global;

fn read_whole(alloc: Global, bytes: &[u8]) -> Result<ContextImage, DumpFault>
    ensures image { IfOk result (λ image. read_dump bytes.now ≡ Good image (length bytes.now) []) }
    ensures fault { IfErr result (IsFault (read_dump bytes.now)) }
{
    let mut way = ReadProgress::begin(alloc, bytes)?;
    way.go_on(bytes)?;
    Ok(way.into_image()?)
}

/// The image that bytes are a dump of, in version 1 or 2. The image keeps the rules. Errors: `BadDump` with the first
/// fault, field by field from the first, where the bytes are no dump; or `OutOfMemory`.
pub fn decode_dump(alloc: Global, bytes: &[u8]) -> Result<ContextImage, DumpFault>
    ensures image { IfOk result (λ image. read_dump bytes.now ≡ Good image (length bytes.now) []) }
    ensures dumps { IfOk result (λ image. Dumps image bytes.now) }
    ensures lawful { IfOk result IsLawful }
    ensures fault { IfErr result (IsFault (read_dump bytes.now)) }
{
    let _bytes = bytes;
    read_whole(alloc, bytes)
}
