//! What the calls of a requester answer.

ghost use Rattle.std.specs.Prelude.{◌≡◌, max};

use rdma_types::WcStatus;
use transport::segmenter::PacketHead;

/// What is sent next, or why nothing is.
#[derive(Clone, Copy, Debug, PartialEq, Eq)]
pub enum Transmit {
    /// The packet of this number, of the request at place `index` of the queue.
    Sent {
        number: u64,
        index: usize,
        head: PacketHead,
    },
    /// Every posted packet is sent.
    Idle,
    /// 64 request packets are unacknowledged; a Read counts as one (this project's choice).
    WindowFull,
    /// As many Reads and atomics are unacknowledged as the terms allow.
    ReadsFull,
    /// The next request is fenced, and an earlier Read or atomic has not landed.
    Fenced,
    /// The timer of receiver not ready runs.
    Waiting,
}

/// What a response did. What is told by it is handed out by `next_told`.
#[derive(Clone, Copy, Debug, PartialEq, Eq)]
pub enum ResponseEffect {
    /// The oldest unacknowledged number rose.
    Acked,
    /// Its payload lands in the place of the request at `index`, `off` bytes in.
    Landed { index: usize, off: u32 },
    /// The old value lands in the place of the request at `index`.
    OldLanded { index: usize, old: u64 },
    /// The next number went back to the oldest unacknowledged one.
    Rewound,
    /// The end waits for the timer of receiver not ready.
    Waits,
    /// The end fails with this status, which the oldest request that is not told gets.
    Ended(WcStatus),
    /// Nothing.
    Useless,
}

/// What an expiry of the retransmission timer did (this project's choice).
#[derive(Clone, Copy, Debug, PartialEq, Eq)]
pub enum Expiry {
    /// So many are counted since the oldest unacknowledged number rose, and all is sent again from there.
    Counted(u8),
    /// The retries of the terms are spent, and the end fails.
    Spent,
    /// Nothing is in flight, or the timer of receiver not ready runs.
    NotCounted,
}

/// The numbers of a requester.
#[derive(Clone, Copy, Debug, PartialEq, Eq)]
pub struct RequesterParts {
    /// The number of the first packet of the oldest request that is not told.
    pub first: u64,
    /// The oldest unacknowledged number.
    pub una: u64,
    /// The next number to send.
    pub next: u64,
    /// One past the highest number sent.
    pub top: u64,
    /// Counted expiries since `una` rose.
    pub spent: u8,
    /// Waits for a receive since `una` rose; 255 stays.
    pub waits: u8,
    /// The timer of receiver not ready runs.
    pub rnr_wait: bool,
}

impl RequesterParts {
    /// Numbers below `n` are acknowledged.
    pub(crate) fn with_una(self, n: u64) -> RequesterParts
        ensures { result ≡ record self { una = n; next = max self.next n; spent = 0; waits = 0 } }
    {
        RequesterParts {
            una: n,
            next: self.next.max(n),
            spent: 0,
            waits: 0,
            ..self
        }
    }

    /// The next number goes to `n`.
    pub(crate) fn with_next(self, n: u64) -> RequesterParts
        ensures { result ≡ record self { next = n; top = max self.top n } }
    {
        RequesterParts {
            next: n,
            top: self.top.max(n),
            ..self
        }
    }

    /// All is sent again from the oldest unacknowledged number on.
    pub(crate) fn rewound(self) -> RequesterParts
        ensures { result ≡ record self { next = self.una } }
    {
        RequesterParts {
            next: self.una,
            ..self
        }
    }

    /// So many expiries are counted, and all is sent again.
    pub(crate) fn counted(self, spent: u8) -> RequesterParts
        ensures { result ≡ record self { next = self.una; spent = spent } }
    {
        RequesterParts {
            next: self.una,
            spent,
            ..self
        }
    }

    /// So many waits are counted, and all is sent again; the timer of receiver not ready runs or not.
    pub(crate) fn waited(self, waits: u8, rnr_wait: bool) -> RequesterParts
        ensures { result ≡ record self { next = self.una; waits = waits; rnr_wait = rnr_wait } }
    {
        RequesterParts {
            next: self.una,
            waits,
            rnr_wait,
            ..self
        }
    }
}
