//! What no clause says: that calls succeed with ample memory, and runs whose outcome is known.

ghost use Rattle.std.specs.Prelude.{◌<◌, None};

use host_ports::{
    Depot, DepotFault, EmptyDepot, Failed, MemDepot, MemSink, MemSource, ReadAllFault, Sink,
    Source, WriteFault, read_all, write_all_of,
};
use indexmap::IndexMap;
use rdma_types::Name;
use std::alloc::{AllocError, Global};

/// A source that gives a byte a call, and fails at a chosen byte.
#[derive(Drop)]
struct Drip {
    bytes: &'static [u8],
    at: usize,
    broken_at: usize,
    faults: u64,
}

impl Source for Drip {
    ghost left = { λ _. None };

    ghost faults = { λ s. s.faults };

    ghost never_fails = { λ _. ⊥ };

    fn read(&mut self, out: &mut [u8]) -> Result<usize, Failed> {
        if self.at == self.broken_at {
            self.faults = self.faults.saturating_add(1);
            return Err(Failed);
        }
        match self.bytes.get(self.at) {
            Some(byte) if !out.is_empty() => {
                out[0] = *byte;
                self.at = self.at.saturating_add(1);
                Ok(1)
            }
            _ => Ok(0),
        }
    }
}

/// A sink that takes a byte a call, and then answers 0.
#[derive(Drop)]
struct Trickle {
    bytes: [u8; 8],
    count: usize,
    full_at: usize,
    faults: u64,
}

impl Sink for Trickle {
    ghost held = { λ _. None };

    ghost faults = { λ s. s.faults };

    ghost room = { λ _. 0 };

    fn write(&mut self, bytes: &[u8]) -> Result<usize, Failed> {
        if bytes.is_empty() {
            return Ok(0);
        }
        if self.count >= self.full_at || self.count >= 8 {
            self.faults = self.faults.saturating_add(1);
            return Ok(0);
        }
        self.bytes[self.count] = bytes[0];
        self.count += 1;
        Ok(1)
    }
}

/// Whether so many bytes are read to their end.
fn is_read(alloc: Global, length: usize) -> Result<bool, AllocError>
    requires { length < usize.MAX }
{
    let input = vec![in alloc; 7u8; length]?;
    let mut source = MemSource::make(input.clone()?, Vec::new(alloc));
    Ok(match read_all(alloc, &mut source, length) {
        Ok(bytes) => bytes == input,
        Err(_) => false,
    })
}

#[test]
fn reads_all_in_memory(rt: HostRuntime) -> Result<(), AllocError> {
    for length in [0, 1, 4095, 4096, 4097, 10_000] {
        assert!(rt; is_read(rt.alloc(), length)?, "{length} bytes");
    }
    Ok(())
}

/// Reads 10,000 bytes up to a limit, where one call fails: the error, and the count of bytes left.
fn read_in_part(
    alloc: Global,
    limit: usize,
    failing: u64,
) -> Result<(Option<ReadAllFault>, usize), AllocError>
    requires { limit < usize.MAX }
{
    let input = vec![in alloc; 7u8; 10_000]?;
    let mut source = MemSource::make(input, vec![in alloc; failing]?);
    let fault = read_all(alloc, &mut source, limit).err();
    Ok((fault, source.left().len()))
}

#[test]
fn stops_short_of_the_end(rt: HostRuntime) -> Result<(), AllocError> {
    let long = read_in_part(rt.alloc(), 9_999, 4)?;
    let far_too_long = read_in_part(rt.alloc(), 10, 4)?;
    let broken = read_in_part(rt.alloc(), 65_536, 3)?;
    let wanted = [
        (Some(ReadAllFault::TooLong), 0),
        (Some(ReadAllFault::TooLong), 9_989),
        (Some(ReadAllFault::ReadFault), 1_808),
    ];
    assert_eq!(rt; [long, far_too_long, broken], wanted);
    Ok(())
}

/// What the writes of three lines answer where the third call fails, how many faults there were, and whether two lines are held.
fn third_fails(alloc: Global) -> Result<([Result<(), WriteFault>; 3], u64, bool), AllocError> {
    let mut sink = MemSink::make(Vec::new(alloc), vec![in alloc; 3]?, 64)?;
    let first = write_all_of(&mut sink, b"ok\n");
    let second = write_all_of(&mut sink, b"ok\n");
    let third = write_all_of(&mut sink, b"ok\n");
    let faults = sink.faults();
    let held = sink.into_held().as_slice() == b"ok\nok\n".as_slice();
    Ok(([first, second, third], faults, held))
}

#[test]
fn stops_at_a_write_that_fails(rt: HostRuntime) -> Result<(), AllocError> {
    let told = third_fails(rt.alloc())?;
    assert_eq!(rt; told, ([Ok(()), Ok(()), Err(WriteFault)], 1, true));
    Ok(())
}

/// What a write answers where there is room for a part, whether the part is held, and how much room is left.
fn room_ends(alloc: Global) -> Result<(Result<(), WriteFault>, bool, usize), AllocError> {
    let mut sink = MemSink::make(b"> ".to_vec(alloc)?, Vec::new(alloc), 4)?;
    let answer = write_all_of(&mut sink, b"hello");
    Ok((answer, sink.held() == b"> hell".as_slice(), sink.room()))
}

#[test]
fn stops_where_the_room_ends(rt: HostRuntime) -> Result<(), AllocError> {
    assert_eq!(rt; room_ends(rt.alloc())?, (Err(WriteFault), true, 0));
    Ok(())
}

/// Whether the bytes of a drip are read, where it is broken at one.
fn is_dripped(alloc: Global, broken_at: usize) -> Result<bool, ReadAllFault> {
    let mut source = Drip {
        bytes: b"piece",
        at: 0,
        broken_at,
        faults: 0,
    };
    let bytes = read_all(alloc, &mut source, 5)?;
    Ok(bytes.as_slice() == b"piece".as_slice())
}

#[test]
fn reads_byte_by_byte(rt: HostRuntime) {
    let told = [is_dripped(rt.alloc(), 9), is_dripped(rt.alloc(), 3)];
    assert_eq!(rt; told, [Ok(true), Err(ReadAllFault::ReadFault)]);
}

/// What a write answers where so many bytes are taken, and the bytes.
fn trickled(full_at: usize) -> (Result<(), WriteFault>, [u8; 8]) {
    let mut sink = Trickle {
        bytes: [0; 8],
        count: 0,
        full_at,
        faults: 0,
    };
    (write_all_of(&mut sink, b"piece"), sink.bytes)
}

#[test]
fn writes_byte_by_byte(rt: HostRuntime) {
    let wanted = [
        (Ok(()), *b"piece\0\0\0"),
        (Err(WriteFault), *b"pie\0\0\0\0\0"),
    ];
    assert_eq!(rt; [trickled(8), trickled(3)], wanted);
}

/// Whether the bytes `two` are held under a name.
fn look(depot: &mut impl Depot, alloc: Global, name: Name) -> Result<bool, DepotFault> {
    let bytes = depot.look(alloc, name)?;
    Ok(bytes.as_slice() == b"two".as_slice())
}

/// Whether the bytes `two` are taken from under a name.
fn take(depot: &mut impl Depot, alloc: Global, name: Name) -> Result<bool, DepotFault> {
    let bytes = depot.take(alloc, name)?;
    Ok(bytes.as_slice() == b"two".as_slice())
}

/// What a depot answers that puts twice under a name, looks there and under another one, and takes three times.
fn all_of(
    depot: &mut impl Depot,
    alloc: Global,
    name: Name,
    other: Name,
) -> ([Result<(), DepotFault>; 2], [Result<bool, DepotFault>; 5]) {
    let puts = [
        depot.put(alloc, name, b"one"),
        depot.put(alloc, name, b"two"),
    ];
    let looks = [look(depot, alloc, name), look(depot, alloc, other)];
    let takes = [take(depot, alloc, name), take(depot, alloc, name)];
    let gone = take(depot, alloc, name);
    (puts, [looks[0], looks[1], takes[0], takes[1], gone])
}

/// The same of a depot in memory whose fifth call fails, and how many calls failed.
fn told(
    alloc: Global,
    name: Name,
    other: Name,
) -> Result<
    (
        [Result<(), DepotFault>; 2],
        [Result<bool, DepotFault>; 5],
        u64,
    ),
    AllocError,
> {
    let mut depot = MemDepot::make(IndexMap::new(alloc), vec![in alloc; 5]?);
    let (puts, told) = all_of(&mut depot, alloc, name, other);
    Ok((puts, told, depot.faults()))
}

#[test]
fn holds_and_hands_out(rt: HostRuntime) -> Result<(), AllocError> {
    let (a, b) = (Name::read(b"a").unwrap(), Name::read(b"b").unwrap());
    let wanted = [
        Ok(true),
        Err(DepotFault::Missing),
        Err(DepotFault::Failed),
        Ok(true),
        Err(DepotFault::Missing),
    ];
    assert_eq!(rt; told(rt.alloc(), a, b)?, ([Ok(()); 2], wanted, 1));
    Ok(())
}

#[test]
fn holds_nothing(rt: HostRuntime) {
    let a = Name::read(b"a").unwrap();
    let told = all_of(&mut EmptyDepot, rt.alloc(), a, a);
    let wanted = (
        [Err(DepotFault::OutOfMemory); 2],
        [Err(DepotFault::Missing); 5],
    );
    assert_eq!(rt; told, wanted);
}
