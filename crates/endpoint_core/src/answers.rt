//! What the calls of an end answer.

use memory_keys::RegionRange;
use rdma_types::{Address, ArrivalEffect};
use requester::Transmit;
use roce_headers::Syndrome;

/// The end is connected already.
#[derive(Clone, Copy, Debug, PartialEq, Eq)]
pub struct BadState;

/// What an end sends, or why nothing is sent.
#[derive(Clone, Copy, Debug, PartialEq, Eq)]
pub enum EndSend {
    /// A request packet, or why none is sent.
    Transmit(Transmit),
    /// RESUME with the end's move count; the device adds its own address.
    Resume { count: u32 },
}

/// What an end answers a datagram with.
#[derive(Clone, Copy)]
pub enum EndReply {
    Nothing,
    /// An acknowledge or a NAK.
    Acknowledge {
        number: u64,
        syndrome: Syndrome,
    },
    /// The bytes at `spot` in so many READ responses, the first with number `first`.
    ReadBytes {
        spot: RegionRange,
        first: u64,
        pieces: u64,
    },
    /// The old value of an atomic.
    Old {
        number: u64,
        old: u64,
    },
    /// RESUME_ACK with this body.
    ResumeAck {
        count: u32,
        address: Address,
    },
}

/// What a datagram did at an end, and what it is answered with.
#[derive(Clone, Copy)]
pub struct EndEffect {
    pub took: ArrivalEffect,
    pub reply: EndReply,
}

/// READ responses that may be due: the bytes at `spot`, the first with number `first`, and the count of finished messages
/// that they tell.
#[derive(Clone, Copy)]
pub struct DueRead {
    pub spot: RegionRange,
    pub first: u64,
    pub msn: u32,
}
