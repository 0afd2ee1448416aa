//! Context `a` on device 1 and context `b` on device 2, each with a region, a completion queue and connected queue
//! pairs. What a call gives is None where memory is short or a step is answered otherwise.

ghost use Rattle.std.specs.Prelude.{◌≡◌, ◌≤◌, ◌<◌, ◌^◌};
ghost use Rattle.protocol.specs.Events.{IsLawfulEvent};

use crate::net::{Net, Said, address_of, object};
use protocol::Event;
use rdma_types::{Keys, Name, Rights, Terms};
use std::alloc::Global;

/// Makes something, where that is answered.
fn made(net: &mut Net, place: u8, event: Event, said: Said) -> Option<()>
    requires { IsLawfulEvent event }
{
    let told = net.ask(place, event)?;
    (told == said).then_some(())
}

/// A context with domain `p`.
fn context(net: &mut Net, place: u8, context: &[u8]) -> Option<()> {
    let whole = Name::read(context)?;
    made(net, place, Event::MakeContext { name: whole }, Said::Done)?;
    let domain = object(context, b"p")?;
    made(net, place, Event::MakeDomain { name: domain }, Said::Done)
}

/// Region `m` of 1,024 bytes, whose base is 4096 for each place. Its keys have the device's id in their top 8 bits; those
/// of the first region have 2 and 3 below.
fn region(net: &mut Net, place: u8, context: &[u8]) -> Option<()> {
    let event = Event::MakeRegion {
        name: object(context, b"m")?,
        domain: Some(Name::read(b"p")?),
        base: u64::from(place) * 4096,
        length: 1024,
        rights: Rights(15),
    };
    let local = u32::from(place) * 0x0100_0000 + 2;
    let keys = Keys {
        local,
        remote: local + 1,
    };
    made(net, place, event, Said::Region(keys))
}

/// Completion queue `c` of 16 entries.
fn queue(net: &mut Net, place: u8, context: &[u8]) -> Option<()> {
    let event = Event::MakeCq {
        name: object(context, b"c")?,
        capacity: 16,
    };
    made(net, place, event, Said::Done)
}

/// Queue pair `q` in Init, with room for 8 requests and 8 receives. Its number has the device's id in the top 8 of 24
/// bits, and below it how many were made.
fn pair(net: &mut Net, place: u8, context: &[u8], number: u32) -> Option<()> {
    let cq = Some(Name::read(b"c")?);
    let event = Event::MakeQp {
        name: object(context, b"q")?,
        domain: Some(Name::read(b"p")?),
        send_cq: cq,
        recv_cq: cq,
        send_depth: 8,
        recv_depth: 8,
    };
    made(net, place, event, Said::Qp(number))
}

/// Connects an end to the queue pair of the other device, at MTU 256. Requests of `a` start at 100, and those of `b` at 200.
fn connect(net: &mut Net, place: u8, context: &[u8], peer: u32, starts: (u32, u32)) -> Option<()>
    requires place { place ≤ 3 }
    requires peer { peer < 2 ^ 24 }
    requires own { starts.0 < 2 ^ 24 }
    requires other { starts.1 < 2 ^ 24 }
{
    let terms = Terms {
        mtu: 256,
        own_start: starts.0,
        peer_start: starts.1,
        retry: 7,
        rnr: 7,
        reads: 4,
    };
    let event = Event::Connect {
        end: object(context, b"q")?,
        peer,
        partner: address_of(3 - place),
        terms,
    };
    made(net, place, event, Said::Done)
}

/// A context with its domain, its region, its completion queue and a queue pair of this number.
fn side(net: &mut Net, place: u8, text: &[u8], number: u32) -> Option<()> {
    context(net, place, text)?;
    region(net, place, text)?;
    queue(net, place, text)?;
    pair(net, place, text, number)
}

/// Makes both contexts, and connects their queue pairs.
fn open(net: &mut Net) -> Option<()> {
    side(net, 1, b"a", 0x010001)?;
    side(net, 2, b"b", 0x020001)?;
    connect(net, 1, b"a", 0x020001, (100, 200))?;
    connect(net, 2, b"b", 0x010001, (200, 100))
}

/// Both contexts, and connected queue pairs `q`.
pub(crate) fn opened(alloc: Global) -> Option<Net> {
    let mut net = Net::make(alloc)?;
    open(&mut net)?;
    Some(net)
}
