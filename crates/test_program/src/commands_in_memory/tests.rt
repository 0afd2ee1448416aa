//! What no clause says: that each command succeeds where memory is ample, and what is held where each read and each write fails
//! in turn.

use commands::run_serial;
use host_ports::{MemDepot, MemLink, MemSink, MemSource, MemTicks};
use indexmap::IndexMap;
use node_engine::NodePorts;
use rdma_types::{Address, Items, Name};
use std::alloc::{AllocError, Global};
use std::process::Abort;

const OPENING: &[u8] = b"device 1 10.0.0.1
device 2 10.0.0.2
context a 1
context b 2
domain a.p
domain b.p
region a.m a.p 4096 1024 lwra
region b.n b.p 8192 1024 lwra
cq a.c 16
cq b.c 16
qp a.q a.p a.c a.c 8 8
qp b.q b.p b.c b.c 8 8
connect a.q b.q mtu 256 psn 100 200 retry 7 rnr 7 reads 4
";

const OPENED: &[u8] = b"ok
ok
ok
ok
ok
ok
region 01000002 01000003
region 02000002 02000003
ok
ok
qp 010001
qp 020001
ok
";

/// Four bytes are written, acknowledged, polled and loaded.
const ONE_WRITE: &[u8] = b"store a.m 4096 deadbeef
write a.q 1 01000002 4096 4 8192 02000003
go a.q
wire 1
deliver 1
deliver 2
poll a.c 4
load b.n 8192 4
";

const ONE_WRITE_TOLD: &[u8] = b"ok
ok
sent 1
wire 0a00ffff000200018000006400000000000020000200000300000004deadbeef00000000
took ack sent 2
took acked
wc 010001 1 write 0 4
bytes deadbeef
";

/// Eight bytes are read, and then a number is added to them.
const READ_AND_ATOMIC: &[u8] = b"store b.n 8192 0000000000000025
read a.q 1 01000002 4096 8 8192 02000003
go a.q
deliver 1
deliver 2
add a.q 2 01000002 4104 8192 02000003 5
go a.q
deliver 3
deliver 4
poll a.c 1
load a.m 4104 8
load b.n 8192 8
";

const READ_AND_ATOMIC_TOLD: &[u8] = b"ok
ok
sent 1
took bytes sent 2
took landed
ok
sent 3
took old sent 4
took landed
wc 010001 1 read 0 8
bytes 0000000000000025
bytes 000000000000002a
";

/// After the first of three packets the context that they are for moves to another device.
const MOVE: &[u8] = b"device 3 10.0.0.3
write a.q 1 01000002 4096 600 8192 02000003
go a.q
go a.q
deliver 1
stop b
deliver 2
deliver 3
restore b 3
settle
poll a.c 4
";

const MOVE_TOLD: &[u8] = b"ok
ok
sent 1
sent 2
took acted
stopped
took stopped sent 3
took paused
ok
quiet 0
wc 010001 1 write 0 600
";

/// One write of four bytes from one region to another.
const RECORDED: &[u8] = b"device 1 10.0.0.1
device 2 10.0.0.2
device 3 10.0.0.3
context a 1
context b 2
domain a.p
domain b.p
region a.m a.p 4096 64 lwra
region b.n b.p 8192 64 lwra
cq a.c 16
cq b.c 16
qp a.q a.p a.c a.c 8 8
qp b.q b.p b.c b.c 8 8
connect a.q b.q mtu 256 psn 100 200 retry 7 rnr 7 reads 4
store a.m 4096 DEADBEEF
 write  a.q 1 01000002 4096 4 8192 02000003
go a.q
deliver 1
deliver 2
poll a.c 4
poll a.c 4
load b.n 8192 4
";

/// Its trace.
const TRACE: &[u8] = b"v context a made
= ok
v context b made
= ok
v domain a.p
= ok
v domain b.p
= ok
v region a.m a.p 4096 64 lwra
= region 01000002 01000003
v region b.n b.p 8192 64 lwra
= region 02000002 02000003
v cq a.c 16
= ok
v cq b.c 16
= ok
v qp a.q a.p a.c a.c 8 8
= qp 010001
v qp b.q b.p b.c b.c 8 8
= qp 020001
v connect a.q b.q mtu 256 psn 100 200 retry 7 rnr 7 reads 4
= ok
v store a.m 4096 deadbeef
= ok
v write a.q 1 01000002 4096 4 8192 02000003
= ok
i run a.q 4
i tell a.q
v poll a.c 4
= wc 010001 1 write 0 4
v poll a.c 4
= none
v load b.n 8192 4
= bytes deadbeef
end
";

/// A device of a node hears a write, and acknowledges it.
const SERVING: &[u8] = b"context b
domain b.p
region b.n b.p 8192 64 lwra
cq b.c 16
qp b.q b.p b.c b.c 8 8
link b.q 010001 10.0.0.1 mtu 256 psn 200 100 retry 7 rnr 7 reads 4
serve 3
load b.n 8192 4
stop b f
";

const SERVED: &[u8] = b"ok
ok
region 02000002 02000003
ok
qp 020001
ok
served 1
bytes deadbeef
stopped
";

/// Where the write comes from, and the write.
const PEER: Address = Address {
    ip: 0x0a00_0001,
    port: 4791,
};

const WRITE: [u8; 36] = [
    10, 0, 255, 255, 0, 2, 0, 1, 128, 0, 0, 100, 0, 0, 0, 0, 0, 0, 32, 0, 2, 0, 0, 3, 0, 0, 0, 4,
    0xde, 0xad, 0xbe, 0xef, 0, 0, 0, 0,
];

/// A command, its input, the dump that is held under the name `e`, and the calls of the input, the output, the depot and the
/// link that fail; 0 is none.
#[derive(Clone, Copy)]
struct Run<'a> {
    words: &'a str,
    input: &'a [u8],
    dump: &'a [u8],
    read: u64,
    write: u64,
    call: u64,
    link: u64,
}

/// A script that is played.
fn play(script: &[u8], read: u64, write: u64) -> Run<'_> {
    Run {
        words: "play",
        input: script,
        dump: b"",
        read,
        write,
        call: 0,
        link: 0,
    }
}

/// A dump that is shown.
fn show(dump: &[u8], call: u64) -> Run<'_> {
    Run {
        words: "show-dump e",
        input: b"",
        dump,
        read: 0,
        write: 0,
        call,
        link: 0,
    }
}

/// A trace that is audited.
fn audit(trace: &[u8]) -> Run<'_> {
    let mut run = play(trace, 0, 0);
    run.words = "audit";
    run
}

/// A script that is recorded; the write of that number fails.
fn record_of(script: &[u8], write: u64) -> Run<'_> {
    let mut run = play(script, 0, write);
    run.words = "record";
    run
}

/// A script of a node.
fn node(script: &[u8]) -> Run<'_> {
    let mut run = play(script, 0, 0);
    run.words = "node 2 10.0.0.2";
    run
}

/// The words of a line with one space between them.
fn words_of(alloc: Global, line: &str) -> Result<Vec<String>, AllocError> {
    let mut words = Vec::new(alloc);
    for word in line.split(' ') {
        words.push(String::from_str(alloc, word)?)?;
    }
    Ok(words)
}

fn source_of(alloc: Global, input: &[u8], failing: u64) -> Result<MemSource, AllocError> {
    let input = Vec::from_slice(alloc, input)?;
    Ok(MemSource::make(input, vec![in alloc; failing]?))
}

fn sink_of(alloc: Global, failing: u64) -> Result<MemSink, AllocError> {
    MemSink::make(Vec::new(alloc), vec![in alloc; failing]?, 65_536)
}

/// A dump under the name `e`.
fn held_of(alloc: Global, dump: &[u8]) -> Result<IndexMap<Name, Items<u8>>, AllocError> {
    let mut held = IndexMap::new(alloc);
    if let Some(name) = Name::read(b"e") {
        let bytes = Items::new(Vec::from_slice(alloc, dump)?);
        let _before = held.insert(name, bytes).map_err(|_| AllocError)?;
    }
    Ok(held)
}

fn depot_of(alloc: Global, dump: &[u8], failing: u64) -> Result<MemDepot, AllocError> {
    let held = held_of(alloc, dump)?;
    Ok(MemDepot::make(held, vec![in alloc; failing]?))
}

/// A link on which the write waits.
fn link_of(alloc: Global, failing: u64) -> Result<MemLink, AllocError> {
    let write = Items::new(Vec::from_slice(alloc, WRITE.as_slice())?);
    let mut waiting = Vec::new(alloc);
    waiting.push((PEER, write))?;
    MemLink::make(alloc, waiting, vec![in alloc; failing]?, 4)
}

/// The objects of a run.
fn ports_of(
    alloc: Global,
    run: &Run<'_>,
) -> Result<NodePorts<MemLink, MemSink, MemDepot, MemTicks>, AllocError> {
    Ok(NodePorts {
        link: link_of(alloc, run.link)?,
        output: sink_of(alloc, run.write)?,
        depot: depot_of(alloc, run.dump, run.call)?,
        ticks: MemTicks::make(Vec::new(alloc)),
    })
}

/// The status of a run, and what it wrote.
fn ran(alloc: Global, run: &Run<'_>) -> Result<(u8, Vec<u8>), AllocError> {
    let words = words_of(alloc, run.words)?;
    let mut source = source_of(alloc, run.input, run.read)?;
    let mut ports = ports_of(alloc, run)?;
    let status = run_serial(alloc, &words, &mut source, &mut ports);
    Ok((status, ports.output.into_held()))
}

/// How many lines there are.
fn lines_in(text: &[u8]) -> usize {
    text.iter().filter(|b| **b == b'\n').count()
}

/// The status of a run, whether these answers begin with what it wrote, and how many lines that is.
fn told(alloc: Global, run: &Run<'_>, answers: &[u8]) -> Result<(u8, bool, usize), AllocError> {
    let (status, held) = ran(alloc, run)?;
    Ok((status, answers.starts_with(&held), lines_in(&held)))
}

/// A script is answered. Where the write of an answer fails, the answers before it are held; where one of the two reads
/// fails, nothing is.
fn stops_where_a_call_fails(
    rt: &impl Abort,
    alloc: Global,
    script: &[u8],
    answers: &[u8],
) -> Result<(), AllocError> {
    let count = lines_in(answers);
    assert_eq!(rt;
        told(alloc, &play(script, 0, 0), answers)?,
        (0, true, count)
    );
    for k in 0..count {
        let cut = told(alloc, &play(script, 0, k as u64 + 1), answers)?;
        assert_eq!(rt; cut, (5, true, k));
    }
    for read in 1..3 {
        let unread = told(alloc, &play(script, read, 0), answers)?;
        assert_eq!(rt; unread, (4, true, 0));
    }
    Ok(())
}

/// The bytes of both, one behind the other.
fn joined(alloc: Global, one: &[u8], two: &[u8]) -> Result<Vec<u8>, AllocError> {
    let mut both = Vec::from_slice(alloc, one)?;
    both.extend_from_slice(two)?;
    Ok(both)
}

/// The same of these lines and answers behind the opening.
fn stops_in(rt: &impl Abort, alloc: Global, lines: &[u8], told: &[u8]) -> Result<(), AllocError> {
    let script = joined(alloc, OPENING, lines)?;
    let answers = joined(alloc, OPENED, told)?;
    stops_where_a_call_fails(rt, alloc, &script, &answers)
}

#[test]
fn stops_in_scripts(rt: HostRuntime) -> Result<(), AllocError> {
    stops_in(&rt, rt.alloc(), ONE_WRITE, ONE_WRITE_TOLD)?;
    stops_in(&rt, rt.alloc(), READ_AND_ATOMIC, READ_AND_ATOMIC_TOLD)?;
    stops_in(&rt, rt.alloc(), MOVE, MOVE_TOLD)
}

/// The last line is written word by word; where a write of it fails, the status is that of the output.
#[test]
fn stops_in_a_last_line(rt: HostRuntime) -> Result<(), AllocError> {
    let script = b"device 1 10.0.0.1\n\nfly\n";
    let answers = b"ok\nbad line 3 column 1 word\n";
    assert_eq!(rt;
        told(rt.alloc(), &play(script, 0, 0), answers)?,
        (3, true, 2)
    );
    for write in 1..14 {
        let (status, is_begin, lines) = told(rt.alloc(), &play(script, 0, write), answers)?;
        assert!(rt; status == 5 && is_begin && lines < 2, "at {write}");
    }
    Ok(())
}

#[test]
fn sums_a_generated_script_up(rt: HostRuntime) -> Result<(), AllocError> {
    let mut bulk = play(b"", 0, 0);
    bulk.words = "bulk 7 4 1000 5";
    let line = b"bulk lines 2539 completions 1264 success 1264 left 0\n";
    assert_eq!(rt; told(rt.alloc(), &bulk, line)?, (0, true, 1));
    Ok(())
}

#[test]
fn shows_a_dump(rt: HostRuntime) -> Result<(), AllocError> {
    let whole = b"MIGDUMP\x00\x00\x02\x01e\x00\x00\x00\x00\x00\x00\x00\x00".as_slice();
    let shown = told(rt.alloc(), &show(whole, 0), b"context e\n")?;
    let short = told(rt.alloc(), &show(&whole[..19], 0), b"bad dump 19 short\n")?;
    let failed = told(rt.alloc(), &show(whole, 1), b"depot fault\n")?;
    assert_eq!(rt;
        [shown, short, failed],
        [(0, true, 1), (3, true, 1), (7, true, 1)]
    );
    Ok(())
}

/// A recorded run is legal; with another byte at its end it is not, and without its end it is no trace.
#[test]
fn audits_a_trace(rt: HostRuntime) -> Result<(), AllocError> {
    let alloc = rt.alloc();
    let front = &TRACE[..TRACE.len() - 6];
    let wrong = joined(alloc, front, b"e\nend\n")?;
    let unended = &TRACE[..TRACE.len() - 4];
    let legal = told(alloc, &audit(TRACE), b"legal 16 2\n")?;
    let illegal = told(alloc, &audit(&wrong), b"illegal 34 answer\n")?;
    let bad = told(alloc, &audit(unended), b"bad line 35 column 1 missing\n")?;
    assert_eq!(rt;
        [legal, illegal, bad],
        [(0, true, 1), (13, true, 1), (3, true, 1)]
    );
    Ok(())
}

/// The trace of a script is written in one write; where a line settles nothing of it is written.
#[test]
fn records_a_script(rt: HostRuntime) -> Result<(), AllocError> {
    let alloc = rt.alloc();
    let settling = joined(alloc, OPENING, MOVE)?;
    let done = told(alloc, &record_of(RECORDED, 0), TRACE)?;
    let unwritten = told(alloc, &record_of(RECORDED, 1), TRACE)?;
    let settles = told(
        alloc,
        &record_of(&settling, 0),
        b"bad line 23 column 1 word\n",
    )?;
    assert_eq!(rt;
        [done, unwritten, settles],
        [(0, true, 35), (5, true, 0), (3, true, 1)]
    );
    Ok(())
}

/// A node over a link in memory does its lines; each object that fails gives its status.
#[test]
fn serves_a_write(rt: HostRuntime) -> Result<(), AllocError> {
    let alloc = rt.alloc();
    let done = told(alloc, &node(SERVING), SERVED)?;
    let mut unread = node(SERVING);
    unread.read = 1;
    let unread = told(alloc, &unread, SERVED)?;
    let mut unwritten = node(SERVING);
    unwritten.write = 3;
    let unwritten = told(alloc, &unwritten, SERVED)?;
    let mut unlinked = node(SERVING);
    unlinked.link = 1;
    let unlinked = told(alloc, &unlinked, b"link fault\n")?;
    let mut unstored = node(SERVING);
    unstored.call = 1;
    let answers = &SERVED[..SERVED.len() - 8];
    let unstored = told(alloc, &unstored, &joined(alloc, answers, b"depot fault\n")?)?;
    assert_eq!(rt;
        [done, unread, unwritten, unlinked, unstored],
        [
            (0, true, 9),
            (4, true, 0),
            (5, true, 2),
            (6, true, 1),
            (7, true, 9),
        ]
    );
    Ok(())
}
