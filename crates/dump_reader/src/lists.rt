//! What was read of a dump so far, and where its reading stands.

ghost use Rattle.std.specs.Prelude.{◌≡◌, ◌++◌, ◌∷◌, [], OnOk, OnErr};

use crate::heads::{
    EarlierRequests, EndImageHead, LinkImageHead, PlacedQueue, QueueHead, RegionImageHead,
};
use byte_run::ByteRun;
use protocol::{EndImage, KeptReply, PostedImage, RegionImage};
use rdma_types::{Completion, Name, Receive, Request};
use std::alloc::{AllocError, Global};

/// The lists of an image as far as they were read. Those of one queue and of one queue pair move into it when it is
/// whole.
#[derive(Drop)]
pub struct Lists {
    pub alloc: Global,
    pub domains: Vec<Name>,
    pub regions: Vec<RegionImage>,
    /// The bytes of the region or payload that is being read.
    pub run: ByteRun,
    pub queues: Vec<PlacedQueue>,
    pub entries: Vec<Completion>,
    pub ends: Vec<EndImage>,
    pub kept: Vec<KeptReply>,
    pub untold: Vec<PostedImage>,
    pub unused: Vec<Receive>,
}

/// What is read next. A number says how many more things of a list follow the one that is next; in a queue pair the last
/// one says how many queue pairs follow it. Of bytes, how many are missing.
#[derive(Clone, Copy)]
pub enum ReadState {
    Domain(u16),
    RegionCount,
    Region(u16),
    Bytes(RegionImageHead, u32, u16),
    QueueCount,
    Queue(u16),
    Entry(QueueHead, u32, u16),
    EndCount,
    End(u16),
    Link(EndImageHead, u16),
    Kept(EndImageHead, LinkImageHead, u8, u16),
    Untold(EndImageHead, Option<LinkImageHead>, u16),
    Request(EndImageHead, LinkImageHead, EarlierRequests, u16, u16),
    Payload(EndImageHead, LinkImageHead, EarlierRequests, u16, u16, Request, u32),
    Unused(EndImageHead, Option<LinkImageHead>, u16),
    Receive(EndImageHead, Option<LinkImageHead>, u16, u16),
    Done,
}

impl Lists {
    /// Nothing was read. It takes no memory.
    pub fn make(alloc: Global) -> Lists
        ensures { result.domains.items ≡ [] }
    {
        Lists {
            alloc,
            domains: Vec::new(alloc),
            regions: Vec::new(alloc),
            run: ByteRun::make(alloc),
            queues: Vec::new(alloc),
            entries: Vec::new(alloc),
            ends: Vec::new(alloc),
            kept: Vec::new(alloc),
            untold: Vec::new(alloc),
            unused: Vec::new(alloc),
        }
    }
}

/// Puts an item at the end. Errors: `AllocError` when out of memory; the list is as it was.
pub fn push<T: Drop>(list: &mut Vec<T>, item: T) -> Result<(), AllocError>
    ensures ok { OnOk result (list.new.items ≡ list.old.items ++ item ∷ []) }
    ensures err { OnErr result (list.new.items ≡ list.old.items) }
{
    list.push(item)?;
    Ok(())
}
