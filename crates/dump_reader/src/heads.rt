//! The groups of fields between two lists.

use protocol::{CqImage, Progress};
use rdma_types::{Address, Keys, Kind, Name, Rights, Terms};

/// A region without its bytes.
#[derive(Clone, Copy)]
pub struct RegionImageHead {
    pub name: Name,
    pub domain: u16,
    pub base: u64,
    pub length: u32,
    pub rights: Rights,
    pub keys: Keys,
}

/// A completion queue without its entries.
#[derive(Clone, Copy)]
pub struct QueueHead {
    pub name: Name,
    pub capacity: u32,
    /// The place of the capacity in the dump.
    pub place: usize,
    /// How many entries follow.
    pub count: u32,
}

/// A queue pair up to its state.
#[derive(Clone, Copy)]
pub struct EndImageHead {
    pub name: Name,
    pub number: u32,
    pub domain: u16,
    pub send_cq: u16,
    pub recv_cq: u16,
    pub send_depth: u16,
    pub recv_depth: u16,
    /// 0 Init, 1 Rts, 2 Error.
    pub state: u8,
}

/// The partner of a connected end.
#[derive(Clone, Copy)]
pub struct Peer {
    pub peer: u32,
    pub partner: Address,
    pub moves: u16,
    pub partner_moves: u16,
    pub resuming: bool,
}

/// The numbers of the requester.
#[derive(Clone, Copy)]
pub struct Numbers {
    pub first: u64,
    pub una: u64,
    pub next: u64,
    pub top: u64,
}

/// What both halves of an end wait for.
#[derive(Clone, Copy)]
pub struct Waiting {
    pub spent: u8,
    pub waits: u8,
    pub rnr_wait: bool,
    pub expected: u64,
    pub nak_sent: bool,
    pub msn: u32,
}

/// What a connected end has, but for its kept replies.
#[derive(Clone, Copy)]
pub struct LinkImageHead {
    pub ended: bool,
    pub peer: Peer,
    pub terms: Terms,
    pub numbers: Numbers,
    pub waiting: Waiting,
    pub progress: Progress,
    /// How many kept replies follow.
    pub count: u8,
}

/// A completion queue, with the place of its capacity in the dump.
#[derive(Drop)]
pub struct PlacedQueue {
    pub queue: CqImage,
    pub place: usize,
}

/// A request up to its length.
#[derive(Clone, Copy)]
pub struct RequestHead {
    pub id: u64,
    pub kind: Kind,
    /// 1 signaled, 2 immediate, 4 fenced.
    pub flags: u8,
    pub imm: u32,
    pub length: u32,
}

/// The first fields, up to the count of domains.
#[derive(Clone, Copy)]
pub struct DumpHead {
    pub version: u16,
    pub name: Name,
    pub count: u16,
}

/// Where a request stands among the untold ones of its end.
#[derive(Clone, Copy)]
pub struct RequestPosition {
    pub version: u16,
    /// How many there are, and how many stand before it.
    pub count: u16,
    pub index: u16,
    /// The number past those before it.
    pub low: u64,
    /// A Read or atomic stands before it.
    pub landing: bool,
}

/// What stands before a request, and how many untold ones its end has.
#[derive(Clone, Copy)]
pub struct EarlierRequests {
    pub count: u16,
    /// The number past those before it.
    pub low: u64,
    /// A Read or atomic stands before it.
    pub landing: bool,
}
