//! Dumps cut short, changed byte by byte and read in pieces, and each call once with ample memory.

ghost use Rattle.std.specs.Prelude.{◌<◌, IfOk};
ghost use Rattle.protocol.specs.Lawful.{IsLawful};

use super::*;
use protocol::{ContextImage, DumpWhy};
use std::alloc::{AllocError, Global};
use std::process::Abort;
use std::test::Fail;

/// A context without anything, as another implementation writes it.
const EMPTY: [&str; 1] = ["4d494744554d50000002027a390000000000000000"];

/// Two ends, one of them in Error, as another implementation writes them.
const ENDS: [&str; 6] = [
    "4d494744554d500000020162000101700001026d310000000000000000800000000008010100000401000005000000000000",
    "00000001016300000040000000000002027130000100010000000000000001000801000200010a000002138a000100000101",
    "0000000064000000c80001100000000000000000000000000000000000000000000000000000000000000000000000000000",
    "00000000000000000000000000000001000000000000000f0100000400000000000080000000000802713100010002000000",
    "0000000020000102000200020a000002138a000100000001000000000500fffffe0700010000000000000001000000000000",
    "00010000000000000001000000000000000100000000000000000000000000000000000000000000",
];

/// Each part that a dump can have, but a Write in progress; written by hand.
const BUSY: [&str; 44] = [
    // MIGDUMP and 00.
    "4d494744554d5000",
    // Version 2, the name a.
    "00020161",
    // Domains o and p.
    "0002016f0170",
    // A region m of the second domain.
    "0001016d0001",
    // Base 16,384, length 288.
    "000000000000400000000120",
    // All rights, its keys.
    "0f0100000201000003",
    // Its bytes.
    "000102030405060708090a0b0c0d0e0f101112131415161718191a1b1c1d1e1f",
    "202122232425262728292a2b2c2d2e2f303132333435363738393a3b3c3d3e3f",
    "404142434445464748494a4b4c4d4e4f505152535455565758595a5b5c5d5e5f",
    "606162636465666768696a6b6c6d6e6f707172737475767778797a7b7c7d7e7f",
    "808182838485868788898a8b8c8d8e8f909192939495969798999a9b9c9d9e9f",
    "a0a1a2a3a4a5a6a7a8a9aaabacadaeafb0b1b2b3b4b5b6b7b8b9babbbcbdbebf",
    "c0c1c2c3c4c5c6c7c8c9cacbcccdcecfd0d1d2d3d4d5d6d7d8d9dadbdcdddedf",
    "e0e1e2e3e4e5e6e7e8e9eaebecedeeeff0f1f2f3f4f5f6f7f8f9fafbfcfdfeff",
    "000102030405060708090a0b0c0d0e0f101112131415161718191a1b1c1d1e1f",
    // A completion queue c of 16, with two entries.
    "000101630000001000000002",
    // A receive, with an immediate.
    "000100020000000000000007050000000004010a0b0c0d",
    // A flushed Write.
    "0001000300000000000000090005000000000000000000",
    // Two ends.
    "0002",
    // An end p with its number, domain and queues.
    "017000010002000100000000",
    // Its depths, in Rts.
    "0008000401",
    // Its partner at 10.0.0.3.
    "000300020a00000312b70002000100",
    // Terms.
    "010000000064000000c8070704",
    // Numbers of the requester.
    "0000000000000005000000000000000500000000000000070000000000000007",
    // Counted expiries and waits.
    "010200",
    // What the responder waits for.
    "00000000000000090000000003",
    // A Send in progress, 256 bytes of it done.
    "0100000100",
    // Its receive.
    "000000000000000801000002000000000000400000000120",
    // Two kept replies.
    "02000000000000000200000000000000140000000000000004000000000000000a",
    // Four untold requests.
    "0004",
    // A signaled Write of four bytes.
    "000000000000000100010000000000000004",
    "01000002000000000000400000000000000080000300000300000000000000000000000000000000",
    // Its bytes.
    "aabbccdd",
    // A Send of three with an immediate.
    "000000000000000201030102030400000003",
    "01000002000000000000400100000000000000000000000000000000000000000000000000000000",
    // Its bytes.
    "eeff11",
    // A Read.
    "000000000000000302000000000000000120",
    "01000002000000000000400000000000000080000300000300000000000000000000000000000000",
    // A fenced compare and swap.
    "000000000000000403050000000000000008",
    "01000002000000000000400800000000000080080300000300000000000000070000000000000006",
    // An unused receive.
    "0001",
    "000000000000000b01000002000000000000401000000010",
    // An end q.
    "017100010003000100000000",
    // In Init, with nothing.
    "000100010000000000",
];

/// The bytes of a dump whose digits are in parts.
fn bytes_of(alloc: Global, parts: &[&str]) -> Result<Vec<u8>, Fail> {
    let mut bytes = Vec::new(alloc);
    for part in parts {
        bytes.extend_from_slice(&hex::decode(alloc, part)?)?;
    }
    Ok(bytes)
}

/// What the bytes are a dump of, where they come in pieces of a size.
fn decode_in_pieces(alloc: Global, bytes: &[u8], size: usize) -> Result<ContextImage, DumpFault>
    requires { 0 < size }
    ensures { IfOk result IsLawful }
{
    let mut reader = DumpReader::make(alloc);
    for piece in bytes.chunks(size) {
        reader.feed(piece)?;
    }
    reader.finish()
}

/// What was read: the bytes of the image as they are written again, and the fault.
fn tell(
    alloc: Global,
    read: Result<ContextImage, DumpFault>,
) -> Result<(Vec<u8>, Option<DumpFault>), AllocError>
    requires { IfOk read IsLawful }
{
    match read {
        Ok(image) => Ok((encode_dump(alloc, &image)?, None)),
        Err(DumpFault::OutOfMemory) => Err(AllocError),
        Err(fault) => Ok((Vec::new(alloc), Some(fault))),
    }
}

fn read_whole(alloc: Global, bytes: &[u8]) -> Result<(Vec<u8>, Option<DumpFault>), AllocError> {
    tell(alloc, decode_dump(alloc, bytes))
}

fn read_in_pieces(
    alloc: Global,
    bytes: &[u8],
    size: usize,
) -> Result<(Vec<u8>, Option<DumpFault>), AllocError>
    requires { 0 < size }
{
    tell(alloc, decode_in_pieces(alloc, bytes, size))
}

fn short(place: usize) -> Option<DumpFault> {
    Some(DumpFault::BadDump {
        place,
        why: DumpWhy::Short,
    })
}

/// Each prefix of a dump but the whole is too short, read in one piece and in pieces.
fn fronts_are_short(rt: &impl Abort, alloc: Global, dump: &[u8]) -> Result<(), Fail> {
    for count in 0..dump.len() {
        let front = &dump[..count];
        let (_, whole) = read_whole(alloc, front)?;
        let (_, pieced) = read_in_pieces(alloc, front, 7)?;
        assert_eq!(rt;
            [whole, pieced],
            [short(count), short(count)],
            "{count} bytes"
        );
    }
    Ok(())
}

#[test]
fn fronts_of_dumps_are_short(rt: HostRuntime) -> Result<(), Fail> {
    for parts in [EMPTY.as_slice(), ENDS.as_slice(), BUSY.as_slice()] {
        let dump = bytes_of(rt.alloc(), parts)?;
        fronts_are_short(&rt, rt.alloc(), &dump)?;
    }
    Ok(())
}

/// A dump with one byte of it changed is read alike in one piece and in pieces.
fn compare_changed(
    rt: &impl Abort,
    alloc: Global,
    dump: &[u8],
    at: usize,
    value: u8,
) -> Result<(), Fail> {
    let mut changed = dump.to_vec(alloc)?;
    if let Some(byte) = changed.get_mut(at) {
        *byte = value;
    }
    let whole = read_whole(alloc, &changed)?;
    let pieced = read_in_pieces(alloc, &changed, 3)?;
    assert!(rt; whole == pieced, "{value} at {at}");
    Ok(())
}

#[test]
fn changed_dumps_are_read_alike(rt: HostRuntime) -> Result<(), Fail> {
    let dump = bytes_of(rt.alloc(), &ENDS)?;
    for (at, byte) in dump.iter().enumerate() {
        for value in [0, 1, 255, *byte ^ 255] {
            compare_changed(&rt, rt.alloc(), &dump, at, value)?;
        }
    }
    Ok(())
}

/// The fault that a reader finds, if any.
fn feed(reader: &mut DumpReader, piece: &[u8]) -> Option<DumpFault> {
    reader.feed(piece).err()
}

/// The fault that a reader ends with.
fn finish(reader: DumpReader) -> Option<DumpFault> {
    reader.finish().err()
}

/// The fault that a reader finds in bytes, five at a time, if it answered it from there on.
fn feed_in_fives(reader: &mut DumpReader, bytes: &[u8]) -> Option<DumpFault> {
    let mut found = None;
    let mut same = true;
    for piece in bytes.chunks(5) {
        let read = feed(reader, piece);
        same &= found.is_none() || found == read;
        found = read;
    }
    if same { found } else { None }
}

/// What a reader answers of bytes: at the piece with the fault, at two more pieces and at the end.
fn answers_of(alloc: Global, bytes: &[u8]) -> [Option<DumpFault>; 4] {
    let mut reader = DumpReader::make(alloc);
    let found = feed_in_fives(&mut reader, bytes);
    let none = feed(&mut reader, b"");
    let more = feed(&mut reader, b"MIGDUMP");
    [found, none, more, finish(reader)]
}

/// The same of a dump and a byte more, with one byte of it changed.
fn answers_of_changed(alloc: Global, at: usize, value: u8) -> Result<[Option<DumpFault>; 4], Fail> {
    let mut bytes = bytes_of(alloc, &ENDS)?;
    bytes.push(0)?;
    if let Some(byte) = bytes.get_mut(at) {
        *byte = value;
    }
    Ok(answers_of(alloc, &bytes))
}

/// A reader that found a fault in the bytes of a dump answers it from then on.
#[test]
fn faults_are_kept(rt: HostRuntime) -> Result<(), Fail> {
    for (at, value, place, why) in [
        (7, 1, 0, DumpWhy::Magic),
        (9, 3, 8, DumpWhy::Version),
        (11, 32, 10, DumpWhy::Name),
        (12, 255, 12, DumpWhy::Count),
        (22, 1, 21, DumpWhy::Field),
        (290, 0, 290, DumpWhy::Trailing),
    ] {
        let answers = answers_of_changed(rt.alloc(), at, value)?;
        let fault = Some(DumpFault::BadDump { place, why });
        assert_eq!(rt; answers, [fault; 4]);
    }
    Ok(())
}

/// The bytes of an image, five at a time.
fn written_in_fives(alloc: Global, image: &ContextImage, most: usize) -> Result<Vec<u8>, AllocError>
    requires { IsLawful image.now }
{
    let mut bytes = Vec::new(alloc);
    let mut writer = DumpWriter::make(image);
    let mut piece = [0; 5];
    for _ in 0..most {
        let count = writer.fill(&mut piece);
        bytes.extend_from_slice(&piece[..count])?;
    }
    Ok(bytes)
}

/// The bytes of a dump that was read and written again, whole and five at a time, and how many they are told to be.
fn written_again(alloc: Global, dump: &[u8]) -> Result<(Vec<u8>, Vec<u8>, u64), Fail> {
    let image = decode_dump(alloc, dump)?;
    let whole = encode_dump(alloc, &image)?;
    let in_fives = written_in_fives(alloc, &image, dump.len())?;
    Ok((whole, in_fives, dump_length(&image)))
}

#[test]
fn an_image_goes_both_ways(rt: HostRuntime) -> Result<(), Fail> {
    let dump = bytes_of(rt.alloc(), &BUSY)?;
    let (whole, in_fives, count) = written_again(rt.alloc(), &dump)?;
    let (pieced, fault) = read_in_pieces(rt.alloc(), &dump, 1)?;
    let same = [whole == dump, in_fives == dump, pieced == dump];
    assert_eq!(rt; (same, fault), ([true; 3], None));
    assert_eq!(rt; count, whole.len() as u64);
    Ok(())
}

/// A dump in lines.
fn lines_of(alloc: Global, dump: &[u8]) -> Result<Vec<u8>, Fail> {
    let image = decode_dump(alloc, dump)?;
    Ok(dump_text(alloc, &image)?)
}

#[test]
fn an_image_is_told_in_lines(rt: HostRuntime) -> Result<(), Fail> {
    let alloc = rt.alloc();
    let lines = lines_of(alloc, &bytes_of(alloc, &BUSY)?)?;
    let wanted =
        b"context a\ndomain o\ndomain p\nregion m 01000002 01000003 16384 288\ncq c 16 2\nqp p 010002 rts 4 1 2\nqp q 010003 init 0 0 0\n";
    assert_eq!(rt; lines.as_slice(), wanted.as_slice());
    Ok(())
}
