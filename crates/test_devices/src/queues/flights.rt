//! The store on values from outside.

use fabric::{DatagramState, Fabric};
use rdma_types::{Address, Items, Sent};
use std::alloc::{AllocError, Global};

const ONE: Address = Address {
    ip: 0x0A00_0001,
    port: 4791,
};

const TWO: Address = Address {
    ip: 0x0A00_0002,
    port: 4791,
};

/// A datagram of one byte to the second device.
fn datagram(alloc: Global, number: Option<u64>) -> Result<Sent, AllocError> {
    Ok(Sent {
        to: TWO,
        number,
        bytes: Items::new(vec![in alloc; 7]?),
    })
}

/// Sends it, where a number is left.
fn send(fabric: &mut Fabric, s: Sent) {
    if fabric.next() < 1 << 63 {
        let _ = fabric.send(ONE, s);
    }
}

/// A store of datagrams with these numbers.
fn sent(alloc: Global, numbers: &[Option<u64>]) -> Result<Fabric, AllocError> {
    let mut fabric = Fabric::make(alloc)?;
    for number in numbers {
        let next = datagram(alloc, *number)?;
        send(&mut fabric, next);
    }
    Ok(fabric)
}

/// What a look at a datagram shows, in a word.
fn seen(fabric: &Fabric, k: u64, now: u64) -> &'static str {
    match fabric.look(k, now) {
        DatagramState::Here(_) => "here",
        DatagramState::Aged => "aged",
        DatagramState::Lost => "lost",
        DatagramState::Gone => "gone",
    }
}

/// The number after two datagrams, and what looks show at the first, the second and none.
fn looks(alloc: Global) -> Result<(u64, [&'static str; 4]), AllocError> {
    let fabric = sent(alloc, &[Some(5), None])?;
    let in_time = seen(&fabric, 1, 5 + 4_194_304);
    let late = seen(&fabric, 1, 6 + 4_194_304);
    let unnumbered = seen(&fabric, 2, u64::MAX);
    Ok((
        fabric.next(),
        [in_time, late, unnumbered, seen(&fabric, 3, 0)],
    ))
}

#[test]
fn a_late_datagram_is_aged(rt: HostRuntime) -> Result<(), AllocError> {
    assert_eq!(rt; looks(rt.alloc())?, (3, ["here", "aged", "here", "gone"]));
    Ok(())
}

/// The oldest one that is pending: of all, after the first two are lost and taken, and at the end.
fn pending(fabric: &mut Fabric) -> [Option<u64>; 3] {
    let all = fabric.pending();
    fabric.lose(2);
    fabric.took(1);
    let left = fabric.pending();
    fabric.took(4);
    fabric.took(3);
    [all, left, fabric.pending()]
}

/// The same of four datagrams, and then what looks show at the first two, and whether the second is kept.
fn lost_and_taken(
    alloc: Global,
) -> Result<([Option<u64>; 3], [&'static str; 2], bool), AllocError> {
    let mut fabric = sent(alloc, &[Some(0); 4])?;
    let told = pending(&mut fabric);
    let looks = [seen(&fabric, 1, 0), seen(&fabric, 2, 0)];
    Ok((told, looks, fabric.kept(2).is_some()))
}

#[test]
fn lost_and_taken_ones_are_not_pending(rt: HostRuntime) -> Result<(), AllocError> {
    let told = lost_and_taken(rt.alloc())?;
    assert_eq!(rt; told, ([Some(1), Some(3), None], ["here", "lost"], true));
    Ok(())
}
