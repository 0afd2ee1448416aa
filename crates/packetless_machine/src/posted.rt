//! Requests that were posted, and bytes that were offered for them.
#![tactic(auto)]

ghost use Rattle.std.specs.Prelude.{◌≡◌};
ghost use Rattle.rdma_types.specs.Kinds.{size_of};
ghost use Rattle.packetless_machine.specs.Verbs.{request_names};

use rdma_types::Request;
use std::marker::Model;

/// A request, with the bytes that a Write or Send took as it was posted.
#[derive(Drop)]
pub struct IdealRequest {
    pub(crate) request: Request,
    pub(crate) payload: Vec<u8>,
}

impl Model for IdealRequest {
    ghost use Rattle.rdma_types.specs.Objects.{Posted as PostedRecord};

    ghost Value = { PostedRecord };

    ghost view = { λ p. record { request = p.request; payload = p.payload.items } };
}

impl IdealRequest {
    /// How many bytes its message has.
    pub fn length(&self) -> u32
        ensures { result ≡ size_of self.now }
    {
        self.request.shape.length
    }

    /// It is not empty, and names a local key.
    pub fn names(&self, key: u32) -> bool
        ensures { result ≡ request_names key self.now }
    {
        self.request.shape.length != 0 && self.request.lkey == key
    }
}

/// Bytes that the peer offered for a Read. They end before byte 2^32 of its message.
#[derive(Drop)]
pub struct Offered {
    /// The place of the Read among the posted requests.
    pub(crate) request: usize,
    /// The byte of the message where the offered bytes begin, counted from 0.
    pub(crate) offset: u32,
    pub(crate) bytes: Vec<u8>,
}

impl Model for Offered {
    ghost use Rattle.std.specs.Prelude.{◌+◌, ◌<◌, ◌^◌, length};
    ghost use Rattle.packetless_machine.specs.Machine.{Offered as OfferedRecord};

    ghost Value = { OfferedRecord };

    ghost view = { λ o. record { request = o.request; offset = o.offset; bytes = o.bytes.items } };

    ghost invariant = { λ o. o.offset + length o.bytes.items < 2 ^ 32 };
}
