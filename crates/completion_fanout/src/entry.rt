//! What is handed out.

use rdma_types::Completion;

/// A completion, and its place among all that were handed out, from 0 on.
#[derive(Clone, Copy, Debug, PartialEq, Eq)]
pub struct FanEntry {
    pub place: u64,
    pub completion: Completion,
}

/// What stands in the queue: an entry, or an end mark, after which no entry comes.
#[derive(Clone, Copy, Debug, PartialEq, Eq)]
pub enum QueueItem {
    Entry(FanEntry),
    End,
}
