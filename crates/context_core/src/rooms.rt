//! Memory for one datagram, and a datagram that is written into it.

ghost use Rattle.std.specs.Prelude.{◌≡◌, ◌≤◌, None, OnOk, length, vec_capacity};
ghost use Rattle.protocol.specs.Wire.{Fits, wire_of};
ghost use Rattle.roce_headers.specs.Packets.{packet};
ghost use Rattle.context_core.specs.Rooms.{HasRoomFor, HoldsBytes};

use crate::datagrams::{FEW_BYTES, FEWEST_BYTES, written};
use rdma_types::Items;
use roce_headers::{Datagram, encoded_len};
use std::alloc::{AllocError, Global};

/// Memory for one datagram, each part kept until a datagram uses it: buffers for 64 bytes, for 256 bytes and for more.
#[derive(Drop)]
pub struct DatagramRoom {
    pub(crate) tiny: Option<Vec<u8>>,
    pub(crate) small: Option<Vec<u8>>,
    pub(crate) large: Option<Vec<u8>>,
}

impl DatagramRoom {
    /// No buffer.
    pub fn none() -> DatagramRoom
        ensures { (result.tiny ≡ None) × (result.small ≡ None) × (result.large ≡ None) }
    {
        DatagramRoom {
            tiny: None,
            small: None,
            large: None,
        }
    }

    /// The buffer for a datagram of so many bytes, which is gone from here then.
    fn buffer_for(&mut self, count: usize) -> Vec<u8>
        requires { HasRoomFor self.old count }
        ensures { count ≤ vec_capacity result }
    {
        if count <= FEWEST_BYTES {
            return self.tiny.take().unwrap();
        }
        if count <= FEW_BYTES {
            return self.small.take().unwrap();
        }
        self.large.take().unwrap()
    }

    /// The bytes of a datagram, in the buffer for as many. It takes no other memory.
    #[inline(always)]
    pub fn write(&mut self, d: &Datagram<'_>) -> Items<u8>
        requires fits { Fits (packet d.now) }
        requires room { HasRoomFor self.old (length (wire_of (packet d.now))) }
        ensures { result ≡ wire_of (packet d.now) }
    {
        let mut memory = self.buffer_for(encoded_len(d));
        memory.clear();
        written(d, memory)
    }
}
