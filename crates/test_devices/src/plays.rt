//! What contexts `a` and `b` ask, and what is said to it.

ghost use Rattle.std.specs.Prelude.{◌≡◌};
ghost use Rattle.rdma_types.specs.Shapes.{IsLawfulShape};

use crate::net::{Net, Said, object};
use protocol::Event;
use rdma_types::{Items, Kind, Receive, Request, Shape};

/// The local key of the region of `a`, whose base is 4096.
const LOCAL_A: u32 = 0x0100_0002;

/// The local key of the region of `b`, whose base is 8192.
const LOCAL_B: u32 = 0x0200_0002;

/// The remote key of the region of `b`.
const REMOTE_B: u32 = 0x0200_0003;

/// A Write to an address of the region of `b`.
pub(crate) fn write(length: u32, remote: u64) -> Shape
    ensures { IsLawfulShape result }
{
    Shape {
        kind: Kind::Write,
        length,
        remote,
        rkey: REMOTE_B,
        imm: None,
        swap_add: 0,
        compare: 0,
    }
}

pub(crate) fn send(length: u32) -> Shape
    ensures { IsLawfulShape result }
{
    Shape {
        kind: Kind::Send,
        length,
        remote: 0,
        rkey: 0,
        imm: None,
        swap_add: 0,
        compare: 0,
    }
}

/// A Read of the beginning of the region of `b`.
pub(crate) fn read(length: u32) -> Shape
    ensures { IsLawfulShape result }
{
    Shape {
        kind: Kind::Read,
        length,
        remote: 8192,
        rkey: REMOTE_B,
        imm: None,
        swap_add: 0,
        compare: 0,
    }
}

/// A request of `a`, whose local place is at an address.
pub(crate) fn post(net: &mut Net, id: u64, local: u64, shape: Shape) -> Option<Said>
    requires { IsLawfulShape shape }
{
    let end = object(b"a", b"q")?;
    let request = Request {
        id,
        shape,
        lkey: LOCAL_A,
        local,
        signaled: true,
        fence: false,
    };
    net.ask(1, Event::PostSend { end, request })
}

/// Bytes of the owner, at the beginning of the region of `a`.
pub(crate) fn store(net: &mut Net, bytes: Vec<u8>) -> Option<Said> {
    let region = object(b"a", b"m")?;
    let bytes = Items::new(bytes);
    net.ask(
        1,
        Event::Store {
            region,
            at: 4096,
            bytes,
        },
    )
}

/// A receive of `b`, with number 9 and at address 8192.
pub(crate) fn receive(net: &mut Net, length: u32) -> Option<Said> {
    let end = object(b"b", b"q")?;
    let receive = Receive {
        id: 9,
        lkey: LOCAL_B,
        local: 8192,
        length,
    };
    net.ask(2, Event::PostRecv { end, receive })
}

/// The next packet of an end.
pub(crate) fn go(net: &mut Net, place: u8, context: &[u8]) -> Option<Said> {
    let end = object(context, b"q")?;
    net.ask(place, Event::Transmit { end })
}

/// The retransmission timeout of the end of `a`.
pub(crate) fn expire(net: &mut Net, place: u8) -> Option<Said> {
    let end = object(b"a", b"q")?;
    net.ask(place, Event::Expire { end })
}
