//! An end of a connection, where memory is ample.

ghost use Rattle.endpoint_core.specs.Sound.{HoldsQueue};

use endpoint_core::{BadState, EndSend, Endpoint};
use rdma_types::{Address, Name, Terms};
use requester::Transmit;
use std::alloc::Global;
use std::test::Fail;

const TERMS: Terms = Terms {
    mtu: 256,
    own_start: 0,
    peer_start: 0,
    retry: 0,
    rnr: 0,
    reads: 1,
};

const HOME: Address = Address {
    ip: 0x0a00_0001,
    port: 4791,
};

/// Whether a first connect is done, a second one is refused, and nothing is to be sent then.
fn connect_twice(end: &mut Endpoint) -> [bool; 3]
    requires { HoldsQueue end.old.send_depth end.old.unlinked end.old.link }
{
    let first = end.connect(131_073, HOME, &TERMS);
    let second = end.connect(131_073, HOME, &TERMS);
    if second.is_ok() {
        return [first.is_ok(), false, false];
    }
    let idle = end.transmit() == EndSend::Transmit(Transmit::Idle);
    [first.is_ok(), second == Err(BadState), idle]
}

/// The same of a new end.
fn connected(alloc: Global) -> Result<[bool; 3], Fail> {
    let domain = Name::read(b"d").ok_or("name")?;
    let mut end = Endpoint::make(alloc, 65_537, domain, 2, 2)?;
    Ok(connect_twice(&mut end))
}

#[test]
fn an_end_connects_once(rt: HostRuntime) -> Result<(), Fail> {
    assert_eq!(rt; connected(rt.alloc())?, [true; 3]);
    Ok(())
}
