//! Datagrams of random bytes, and datagrams with flipped bits, thrown at a node.

ghost use Rattle.std.specs.Prelude.{None};

use crate::runs::endings::{Ending, ONE, TWO, end_of};
use host_ports::{EmptyDepot, Failed, Got, Link, MemSink, MemTicks};
use node_engine::{NodePorts, run_node};
use rand_core::Rng;
use rand_pcg::Lcg64Xsh32;
use rdma_types::Address;
use roce_headers::decode;
use std::alloc::{AllocError, Global};
use std::process::Abort;
use std::str;

/// Datagrams in a round, and rounds of a test: 25,000 datagrams, and 100,000 in the four tests.
const DATAGRAMS: u32 = 1_000;

const ROUNDS: u64 = 25;

/// The number of the one queue pair.
const NUMBER: u32 = 0x02_0001;

/// Two regions, one of them reachable, and an end with four receives, which sends nothing of itself.
const SCRIPT: &[u8] = b"context b
domain b.p
region b.n b.p 8192 4096 lwra
region b.m b.p 65536 4096 lr
cq b.c 16
qp b.q b.p b.c b.c 8 8
link b.q 010001 10.0.0.1 mtu 256 psn 200 100 retry 7 rnr 7 reads 4
store b.n 8192 cafe
store b.m 65536 beef
recv b.q 1 02000002 8448 64
recv b.q 2 02000002 8512 64
recv b.q 3 02000002 8576 64
recv b.q 4 02000002 8640 64
serve 1000
load b.n 8192 4096
load b.m 65536 4096
poll b.c 16
";

/// A write, a write with an immediate, a send, a read, an addition, an acknowledgement, a NAK of a husk and a RESUME, each of
/// the queue pair 010001 to 020001. The bytes 9 to 11 are the packet number.
const BASES: [&[u8]; 8] = [
    b"\x0a\x00\xff\xff\x00\x02\x00\x01\x80\x00\x00\x64\x00\x00\x00\x00\x00\x00\x20\x00\x02\x00\x00\x03\x00\x00\x00\x04\xde\xad\xbe\xef\x00\x00\x00\x00",
    b"\x0b\x00\xff\xff\x00\x02\x00\x01\x80\x00\x00\x64\x00\x00\x00\x00\x00\x00\x20\x40\x02\x00\x00\x03\x00\x00\x00\x04\x00\x00\x00\x2a\xde\xad\xbe\xef\x00\x00\x00\x00",
    b"\x04\x00\xff\xff\x00\x02\x00\x01\x80\x00\x00\x64\x01\x02\x03\x04\x05\x06\x07\x08\x00\x00\x00\x00",
    b"\x0c\x00\xff\xff\x00\x02\x00\x01\x80\x00\x00\x64\x00\x00\x00\x00\x00\x00\x20\x00\x02\x00\x00\x03\x00\x00\x00\x08\x00\x00\x00\x00",
    b"\x14\x00\xff\xff\x00\x02\x00\x01\x80\x00\x00\x64\x00\x00\x00\x00\x00\x00\x20\x80\x02\x00\x00\x03\x00\x00\x00\x00\x00\x00\x00\x05\x00\x00\x00\x00\x00\x00\x00\x00\x00\x00\x00\x00",
    b"\x11\x00\xff\xff\x00\x02\x00\x01\x00\x00\x00\xc8\x1f\x00\x00\x01\x00\x00\x00\x00",
    b"\x11\x00\xff\xff\x00\x02\x00\x01\x00\x00\x00\x00\x65\x00\x00\x00\x00\x00\x00\x00",
    b"\x1e\x00\xff\xff\x00\x02\x00\x01\x00\x00\x00\x00\x00\x00\x00\x01\x0a\x00\x00\x01\x12\xb7\x00\x00\x00\x00\x00\x00",
];

/// Whether bytes are no datagram, or one to no queue pair of the node: these must change nothing.
fn is_for_none(bytes: &[u8]) -> bool {
    match decode(bytes) {
        Ok(datagram) => datagram.dest != NUMBER,
        Err(_) => true,
    }
}

/// Random bytes. Gives their count.
fn put_random(words: &mut Lcg64Xsh32, out: &mut [u8]) -> usize {
    let length = (words.next_u32() % 100) as usize;
    for byte in out.iter_mut().take(length) {
        *byte = (words.next_u32() >> 24) as u8;
    }
    length.min(out.len())
}

/// The base with that number; behind the first six packet numbers from 96 to 127 come. Gives the count of its bytes.
fn put_base(words: &mut Lcg64Xsh32, out: &mut [u8]) -> usize {
    let base = BASES[(words.next_u32() % 8) as usize];
    let length = base.len().min(out.len());
    out[..length].copy_from_slice(&base[..length]);
    if length > 11 && words.next_u32() % 4 != 0 {
        out[11] = 96 + (words.next_u32() % 32) as u8;
    }
    length
}

/// A base with up to three flipped bits, in a quarter of the cases cut off. Gives the count of its bytes.
fn put_flipped(words: &mut Lcg64Xsh32, out: &mut [u8]) -> usize {
    let length = put_base(words, out);
    for _ in 0..words.next_u32() % 4 {
        let bit = words.next_u32() as usize;
        if let Some(byte) = out.get_mut(bit / 8 % 48) {
            *byte ^= 1 << (bit % 8);
        }
    }
    if words.next_u32() % 4 == 0 {
        return (words.next_u32() as usize % 48).min(length);
    }
    length
}

/// A link on which the datagrams of a generator come. What is sent over it is counted, and goes into a digest (FNV-1a).
#[derive(Drop)]
struct Storm {
    words: Lcg64Xsh32,
    left: u32,
    /// Whether datagrams for none come too.
    is_whole: bool,
    given: u32,
    sent: u32,
    digest: u64,
}

impl Storm {
    fn new(seed: u64, is_whole: bool) -> Storm {
        Storm {
            words: Lcg64Xsh32::new(seed, 1),
            left: DATAGRAMS,
            is_whole,
            given: 0,
            sent: 0,
            digest: 0xcbf2_9ce4_8422_2325,
        }
    }

    fn put(&mut self, out: &mut [u8]) -> usize {
        if self.words.next_u32() % 2 == 0 {
            put_random(&mut self.words, out)
        } else {
            put_flipped(&mut self.words, out)
        }
    }

    fn digest(&mut self, bytes: &[u8]) {
        for byte in bytes {
            self.digest = (self.digest ^ u64::from(*byte)).wrapping_mul(0x0100_0000_01b3);
        }
    }
}

impl Link for Storm {
    ghost waiting = { λ _. None };

    ghost sent = { λ _. None };

    ghost faults = { λ _. 0 };

    ghost never_fails = { λ _. ⊥ };

    ghost room = { λ _. 0 };

    fn start(&mut self, _own: Address) -> Result<(), Failed> {
        Ok(())
    }

    fn send_to(&mut self, to: Address, bytes: &[u8]) -> Result<(), Failed> {
        self.sent = self.sent.saturating_add(1);
        self.digest(&to.ip.to_be_bytes());
        self.digest(&to.port.to_be_bytes());
        self.digest(bytes);
        Ok(())
    }

    fn take(&mut self, out: &mut [u8]) -> Result<Got, Failed> {
        for _ in 0..self.left {
            self.left = self.left.saturating_sub(1);
            let length = self.put(out).min(out.len());
            if self.is_whole || !is_for_none(&out[..length]) {
                self.given = self.given.saturating_add(1);
                return Ok(Got::Datagram { from: ONE, length });
            }
        }
        Ok(Got::Nothing)
    }
}

/// How a node ended to which a storm came, what it wrote, and the storm.
fn weathered(
    alloc: Global,
    seed: u64,
    is_whole: bool,
) -> Result<(Ending, Vec<u8>, Storm), AllocError> {
    let mut ports = NodePorts {
        link: Storm::new(seed, is_whole),
        output: MemSink::make(Vec::new(alloc), Vec::new(alloc), 65_536)?,
        depot: EmptyDepot,
        ticks: MemTicks::make(Vec::new(alloc)),
    };
    let answer = run_node(alloc, 2, TWO, SCRIPT, &mut ports);
    let NodePorts { link, output, .. } = ports;
    Ok((end_of(&answer), output.into_held(), link))
}

/// What stands behind the line that tells how many datagrams were taken.
fn told_behind(text: &[u8]) -> &str {
    let text = str::from_utf8(text).unwrap_or("");
    match text.split_once("served ") {
        Some((_, rest)) => rest,
        None => "",
    }
}

/// The regions and completions, without the count of datagrams.
fn regions_in(text: &[u8]) -> &str {
    match told_behind(text).split_once('\n') {
        Some((_, rest)) => rest,
        None => "",
    }
}

/// A node to which all come is at the end as one to which those for none do not come: it sent the same, and its regions and
/// completions are the same.
fn is_weathered(rt: &impl Abort, alloc: Global, seed: u64) -> Result<(u32, u32), AllocError> {
    let (whole_ending, whole_text, whole) = weathered(alloc, seed, true)?;
    let (part_ending, part_text, part) = weathered(alloc, seed, false)?;
    assert_eq!(rt;
        (whole_ending, part_ending),
        (Ending::Answered, Ending::Answered)
    );
    assert_eq!(rt; whole.given, DATAGRAMS);
    assert!(rt; part.given < DATAGRAMS);
    assert_eq!(rt;
        (whole.sent, whole.digest),
        (part.sent, part.digest),
        "at {seed}"
    );
    assert!(rt; regions_in(&whole_text).starts_with("bytes "));
    assert_eq!(rt;
        regions_in(&whole_text),
        regions_in(&part_text),
        "at {seed}"
    );
    Ok((part.given, part.sent))
}

/// Rounds from this seed on: those for none change nothing, and others reach the end, and some of them are answered.
fn are_weathered(rt: &impl Abort, alloc: Global, first: u64) -> Result<(), AllocError> {
    let mut all_given = 0u32;
    let mut all_sent = 0u32;
    for round in 0..ROUNDS {
        let (given, sent) = is_weathered(rt, alloc, first.saturating_add(round))?;
        all_given = all_given.saturating_add(given);
        all_sent = all_sent.saturating_add(sent);
    }
    assert!(rt; all_given > 6_000, "at {first}");
    assert!(rt; all_sent > 100, "at {first}");
    Ok(())
}

#[test]
fn what_is_for_none_changes_nothing_from_seed_0(rt: HostRuntime) -> Result<(), AllocError> {
    are_weathered(&rt, rt.alloc(), 0)
}

#[test]
fn what_is_for_none_changes_nothing_from_seed_25(rt: HostRuntime) -> Result<(), AllocError> {
    are_weathered(&rt, rt.alloc(), 25)
}

#[test]
fn what_is_for_none_changes_nothing_from_seed_50(rt: HostRuntime) -> Result<(), AllocError> {
    are_weathered(&rt, rt.alloc(), 50)
}

#[test]
fn what_is_for_none_changes_nothing_from_seed_75(rt: HostRuntime) -> Result<(), AllocError> {
    are_weathered(&rt, rt.alloc(), 75)
}
