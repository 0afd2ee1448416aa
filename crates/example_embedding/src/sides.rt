//! The two applications: `a` begins on machine 1, and `b` on machine 2.

ghost use Rattle.std.specs.Prelude.{◌≡◌, ◌≤◌, ◌<◌, ◌^◌};

use crate::fault::Fault;
use crate::machines::{Machines, address_of, name, object};
use protocol::Event;
use rdma_types::{Kind, Request, Rights, Shape, Terms};

/// A context with a domain and a region of 1,024 bytes, whose base is 4096 for each machine.
fn region(machines: &mut Machines, id: u8, context: &[u8]) -> Result<(), Fault> {
    machines.step(
        id,
        Event::MakeContext {
            name: name(context)?,
        },
    )?;
    let domain = object(context, b"p")?;
    machines.step(id, Event::MakeDomain { name: domain })?;
    let region = Event::MakeRegion {
        name: object(context, b"m")?,
        domain: Some(domain.name),
        base: u64::from(id) * 4096,
        length: 1024,
        rights: Rights(15),
    };
    machines.step(id, region)?;
    Ok(())
}

/// A completion queue, and a queue pair that uses it both ways.
fn pair(machines: &mut Machines, id: u8, context: &[u8]) -> Result<(), Fault> {
    let cq = object(context, b"c")?;
    let capacity = 16;
    machines.step(id, Event::MakeCq { name: cq, capacity })?;
    let pair = Event::MakeQp {
        name: object(context, b"q")?,
        domain: Some(name(b"p")?),
        send_cq: Some(cq.name),
        recv_cq: Some(cq.name),
        send_depth: 8,
        recv_depth: 8,
    };
    machines.step(id, pair)?;
    Ok(())
}

/// Connects an end to the queue pair of the other machine, at MTU 256. The applications have told each other their queue pair
/// numbers: those of a device begin with its id.
fn connect(machines: &mut Machines, id: u8, context: &[u8], starts: (u32, u32)) -> Result<(), Fault>
    requires id { (1 ≤ id) × (id ≤ 2) }
    requires own { starts.0 < 2 ^ 24 }
    requires other { starts.1 < 2 ^ 24 }
{
    let partner = 3 - id;
    let terms = Terms {
        mtu: 256,
        own_start: starts.0,
        peer_start: starts.1,
        retry: 7,
        rnr: 7,
        reads: 4,
    };
    let event = Event::Connect {
        end: object(context, b"q")?,
        peer: u32::from(partner) * 65536 + 1,
        partner: address_of(partner),
        terms,
    };
    machines.step(id, event)?;
    Ok(())
}

/// Makes both contexts and connects their ends.
pub(crate) fn open(machines: &mut Machines) -> Result<(), Fault> {
    region(machines, 1, b"a")?;
    pair(machines, 1, b"a")?;
    region(machines, 2, b"b")?;
    pair(machines, 2, b"b")?;
    connect(machines, 1, b"a", (100, 200))?;
    connect(machines, 2, b"b", (200, 100))
}

/// `a` writes the first bytes of its region to that of `b`, whose remote key it was told.
pub(crate) fn write(machines: &mut Machines, length: u32) -> Result<(), Fault> {
    let request = Request {
        id: 1,
        shape: Shape {
            kind: Kind::Write,
            length,
            remote: 8192,
            rkey: 0x0200_0003,
            imm: None,
            swap_add: 0,
            compare: 0,
        },
        lkey: 0x0100_0002,
        local: 4096,
        signaled: true,
        fence: false,
    };
    let end = object(b"a", b"q")?;
    machines.step(1, Event::PostSend { end, request })?;
    Ok(())
}

/// The completions of `a`.
pub(crate) fn poll(machines: &mut Machines) -> Result<(), Fault> {
    let cq = object(b"a", b"c")?;
    machines.step(1, Event::Poll { cq, max: 4 })?;
    Ok(())
}
