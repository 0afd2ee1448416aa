//! What is held where each call of the outside fails in turn, and how each fault is told.

use crate::runs::endings::{Ending, ONE, TWO, end_of, missing};
use crate::runs::scripts::{ACK, MOVED, MOVING, OPENED, OPENING, RESUME, WRITE};
use host_ports::{EmptyDepot, MemDepot, MemLink, MemSink, MemTicks, ShutLink};
use indexmap::IndexMap;
use node_engine::{NodePorts, run_node};
use rdma_types::{Items, Name};
use std::alloc::{AllocError, Global};
use std::process::Abort;

/// The calls of the link, the output and the depot that fail, counted from 1; 0 is none. And the room of the output.
#[derive(Clone, Copy)]
struct Failing {
    link: u64,
    write: u64,
    depot: u64,
    room: usize,
}

const NONE: Failing = Failing {
    link: 0,
    write: 0,
    depot: 0,
    room: 65_536,
};

/// The bytes of both, one behind the other.
fn joined(alloc: Global, one: &[u8], two: &[u8]) -> Result<Vec<u8>, AllocError> {
    let mut both = Vec::from_slice(alloc, one)?;
    both.extend_from_slice(two)?;
    Ok(both)
}

/// A link on which the write waits, with room for eight datagrams.
fn link_of(alloc: Global, failing: u64) -> Result<MemLink, AllocError> {
    let write = Items::new(Vec::from_slice(alloc, &WRITE)?);
    let waiting = vec![in alloc; (ONE, write)]?;
    MemLink::make(alloc, waiting, vec![in alloc; failing]?, 8)
}

fn sink_of(alloc: Global, failing: u64, room: usize) -> Result<MemSink, AllocError> {
    MemSink::make(Vec::new(alloc), vec![in alloc; failing]?, room)
}

/// A depot with these bytes under the name `f`, where there are any.
fn depot_of(alloc: Global, bytes: &[u8], failing: u64) -> Result<MemDepot, AllocError> {
    let mut held = IndexMap::new(alloc);
    if let Some(name) = Name::read(b"f")
        && !bytes.is_empty()
    {
        let bytes = Items::new(Vec::from_slice(alloc, bytes)?);
        let _before = held.insert(name, bytes).map_err(|_| AllocError)?;
    }
    Ok(MemDepot::make(held, vec![in alloc; failing]?))
}

type Ports = NodePorts<MemLink, MemSink, MemDepot, MemTicks>;

fn ports_of(alloc: Global, bytes: &[u8], failing: Failing) -> Result<Ports, AllocError> {
    Ok(NodePorts {
        link: link_of(alloc, failing.link)?,
        output: sink_of(alloc, failing.write, failing.room)?,
        depot: depot_of(alloc, bytes, failing.depot)?,
        ticks: MemTicks::make(vec![in alloc; 7u64]?),
    })
}

/// How the run of a script ended, and what was written.
fn ran(
    alloc: Global,
    script: &[u8],
    bytes: &[u8],
    failing: Failing,
) -> Result<(Ending, Vec<u8>), AllocError> {
    let mut ports = ports_of(alloc, bytes, failing)?;
    let answer = run_node(alloc, 2, TWO, script, &mut ports);
    let NodePorts { output, .. } = ports;
    Ok((end_of(&answer), output.into_held()))
}

/// How many lines there are.
fn lines_in(text: &[u8]) -> usize {
    text.iter().filter(|b| **b == b'\n').count()
}

/// How the run of the move ended, whether its answers begin with what was written, and how many lines that is.
fn moved(alloc: Global, failing: Failing) -> Result<(Ending, bool, usize), AllocError> {
    let script = joined(alloc, OPENING, MOVING)?;
    let answers = joined(alloc, OPENED, MOVED)?;
    let (ending, held) = ran(alloc, &script, b"", failing)?;
    Ok((ending, answers.starts_with(&held), lines_in(&held)))
}

#[test]
fn a_context_goes_through_a_file(rt: HostRuntime) -> Result<(), AllocError> {
    let script = joined(rt.alloc(), OPENING, MOVING)?;
    let mut ports = ports_of(rt.alloc(), b"", NONE)?;
    let answer = run_node(rt.alloc(), 2, TWO, &script, &mut ports);
    assert_eq!(rt; Some(end_of(&answer)), missing());
    let answers = joined(rt.alloc(), OPENED, MOVED)?;
    assert_eq!(rt; ports.output.held(), answers.as_slice());
    let sent = ports.link.sent();
    assert_eq!(rt; sent.len(), 3);
    for ((to, bytes), wanted) in sent.iter().zip([RESUME.as_slice(), &ACK, &RESUME]) {
        assert_eq!(rt; *to, ONE);
        assert_eq!(rt; bytes.as_slice(), wanted);
    }
    Ok(())
}

/// The link starts before the first line; `go` sends; a turn takes, acknowledges and sends. Each answer before is held.
#[test]
fn each_call_of_the_link_fails(rt: HostRuntime) -> Result<(), AllocError> {
    for (call, lines) in [(1, 0), (2, 13), (3, 14), (4, 14), (5, 14)] {
        let failing = Failing { link: call, ..NONE };
        assert_eq!(rt;
            moved(rt.alloc(), failing)?,
            (Ending::LinkFault, true, lines),
            "at {call}"
        );
    }
    let (ending, _, lines) = moved(rt.alloc(), Failing { link: 6, ..NONE })?;
    assert_eq!(rt; (Some(ending), lines), (missing(), 15));
    Ok(())
}

/// `stop` puts; the first restore looks, the second looks and takes, the third looks.
#[test]
fn each_call_of_the_depot_fails(rt: HostRuntime) -> Result<(), AllocError> {
    for (call, lines) in [(1, 7), (2, 9), (3, 11), (4, 11), (5, 15)] {
        let failing = Failing {
            depot: call,
            ..NONE
        };
        assert_eq!(rt;
            moved(rt.alloc(), failing)?,
            (Ending::DepotFault, true, lines),
            "at {call}"
        );
    }
    let (ending, _, lines) = moved(rt.alloc(), Failing { depot: 6, ..NONE })?;
    assert_eq!(rt; (Some(ending), lines), (missing(), 15));
    Ok(())
}

/// Each answer is one write.
#[test]
fn each_write_fails(rt: HostRuntime) -> Result<(), AllocError> {
    for lines in 0..15 {
        let failing = Failing {
            write: lines as u64 + 1,
            ..NONE
        };
        assert_eq!(rt;
            moved(rt.alloc(), failing)?,
            (Ending::WriteFault, true, lines),
            "at {lines}"
        );
    }
    let (ending, _, lines) = moved(rt.alloc(), Failing { write: 16, ..NONE })?;
    assert_eq!(rt; (Some(ending), lines), (missing(), 15));
    Ok(())
}

/// An output that is full holds as much of the answers as it has room for.
#[test]
fn each_output_is_full(rt: HostRuntime) -> Result<(), AllocError> {
    let script = joined(rt.alloc(), OPENING, MOVING)?;
    let answers = joined(rt.alloc(), OPENED, MOVED)?;
    for room in 0..answers.len() {
        let (ending, held) = ran(rt.alloc(), &script, b"", Failing { room, ..NONE })?;
        assert_eq!(rt; ending, Ending::WriteFault, "at {room}");
        assert_eq!(rt; held.as_slice(), &answers[..room]);
    }
    Ok(())
}

/// A link on which nothing is sent and a depot that has no room.
#[test]
fn a_depot_without_room(rt: HostRuntime) -> Result<(), AllocError> {
    let script = joined(rt.alloc(), OPENING, MOVING)?;
    let mut ports = NodePorts {
        link: ShutLink,
        output: sink_of(rt.alloc(), 0, 65_536)?,
        depot: EmptyDepot,
        ticks: MemTicks::make(Vec::new(rt.alloc())),
    };
    let answer = run_node(rt.alloc(), 2, TWO, &script, &mut ports);
    assert_eq!(rt; end_of(&answer), Ending::OutOfMemory);
    let held = ports.output.held();
    assert!(rt; held.starts_with(OPENED));
    assert_eq!(rt; lines_in(held), 7);
    Ok(())
}

/// What ends a run by itself, with a dump that is cut off in the depot.
#[test]
fn a_run_ends_where_its_script_is_bad(rt: HostRuntime) -> Result<(), AllocError> {
    let short = b"MIGDUMP\x00\x00\x01\x01e\x00\x00\x00\x00\x00\x00\x00";
    for (script, wanted, lines) in [
        (b"".as_slice(), Ending::Answered, 0),
        (b"# nothing\n\n", Ending::Answered, 0),
        (b"context b\nfly\n", Ending::BadLine(2, 1), 1),
        (b"context b\ngo b.q 1\n", Ending::BadLine(2, 8), 1),
        (b"serve 0\n", Ending::BadLine(1, 7), 0),
        (b"device 1 10.0.0.1\n", Ending::BadLine(1, 1), 0),
        (b"context b\nrestore f\n", Ending::BadDump(19), 1),
    ] {
        let (ending, held) = ran(rt.alloc(), script, short, NONE)?;
        assert_eq!(rt; (ending, lines_in(&held)), (wanted, lines));
    }
    Ok(())
}
