//! Work that was posted to a queue pair, in posting order (IBA chapter 10).

mod copying;
mod laws;
mod posted;
mod queue;

pub use copying::{copy_recvs, copy_sends};
pub use laws::requests_stay_as_posted;
pub use posted::QueuedRequest;
pub use queue::WorkQueue;
use rdma_types::Receive;

/// The requests of a queue pair that are not told yet.
pub type SendQueue = WorkQueue<QueuedRequest>;

/// The unused receives of a queue pair.
pub type RecvQueue = WorkQueue<Receive>;
