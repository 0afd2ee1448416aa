//! What a responder answers, and its parts.

use memory_keys::RegionRange;
use rdma_types::{DropReason, Receive, RefusalReason};

/// What a request does, and which answer is due. An acknowledgement is for the number before the expected one, as it is
/// after the call; a NAK, and that no receive is ready, is for the expected one.
#[derive(Clone, Copy, Debug, PartialEq, Eq)]
pub enum Reply {
    /// The packet acted, and no answer is due.
    Acted,
    /// It acted, and is to be acknowledged.
    Ack,
    /// The bytes of the spot, as they are now, in so many READ responses from number `first` on, also for a repeat.
    ReadBytes {
        spot: RegionRange,
        first: u64,
        pieces: u64,
    },
    /// The old value that packet `number` found, also for a repeat.
    AtomicOld {
        number: u64,
        old: u64,
    },
    /// The packet is ahead, which is answered by a sequence error NAK.
    SequenceNak,
    /// No receive is there, which is answered by an RNR NAK.
    NotReady,
    /// The packet is refused by a NAK, and the end is to go to Error.
    Refused(RefusalReason),
    /// A repeated SEND or WRITE is acknowledged again.
    DupAck,
    /// No answer is due, and nothing happened.
    Silent(DropReason),
}

/// The message that arrives in pieces.
#[derive(Clone, Copy)]
pub enum Flow {
    /// There is none.
    Idle,
    /// A SEND, with so many of its bytes in its receive.
    Send { done: u32, receive: Receive },
    /// A WRITE to a spot, with so many of its bytes there.
    Write { spot: RegionRange, done: u32 },
}

/// What a responder says of itself, but for the kept replies.
#[derive(Clone, Copy)]
pub struct ResponderParts {
    /// The number of the next packet to execute.
    pub expected: u64,
    /// Whether a sequence error NAK was sent since the last progress.
    pub nak_sent: bool,
    /// Finished messages, in 24 bits.
    pub msn: u32,
    /// The message in progress.
    pub flow: Flow,
}
