//! The memory of datagrams, which is given back and filled again.

use crate::net::Net;
use crate::opening::opened;
use crate::plays::{post, read, write};
use std::alloc::Global;

/// Posts a Read, a Write of few bytes, and one of a whole packet.
fn ask(net: &mut Net) -> Option<()> {
    let _ = post(net, 1, 4096, read(4))?;
    let _ = post(net, 2, 4096, write(100, 8192))?;
    let _ = post(net, 3, 4096, write(256, 8192))?;
    Some(())
}

/// The room of their datagrams.
fn rooms(net: &mut Net) -> Option<[usize; 3]> {
    ask(net)?;
    Some([net.room(1, b"a")?, net.room(1, b"a")?, net.room(1, b"a")?])
}

/// The same twice: the second time in memory that was given back.
fn twice(alloc: Global) -> Option<[[usize; 3]; 2]> {
    let mut net = opened(alloc)?;
    Some([rooms(&mut net)?, rooms(&mut net)?])
}

/// A tiny buffer, a small one, and a large one for a packet at MTU 256.
#[test]
fn datagrams_lie_in_buffers_of_three_kinds(rt: HostRuntime) {
    let told = twice(rt.alloc());
    assert!(rt; told == Some([[64, 256, 348], [64, 256, 348]]));
}
