//! Equal queues over memory of their own.

ghost use Rattle.std.specs.Prelude.{◌≡◌, IfOk};

use crate::work_queues::{RecvQueue, SendQueue};
use std::alloc::{AllocError, Global};

/// An equal queue of requests, for a copy of their pool. Errors: `AllocError` when out of memory.
pub fn copy_sends(alloc: Global, queue: &SendQueue) -> Result<SendQueue, AllocError>
    ensures { IfOk result (λ q. q ≡ queue.now) }
{
    let mut copy = SendQueue::make(alloc, queue.depth())?;
    for i in 0..queue.len() {
        let posted = queue.at(i).unwrap();
        copy.post(posted.in_copied_pool()).unwrap();
    }
    Ok(copy)
}

/// An equal queue of receives. Errors: `AllocError` when out of memory.
pub fn copy_recvs(alloc: Global, queue: &RecvQueue) -> Result<RecvQueue, AllocError>
    ensures { IfOk result (λ q. q ≡ queue.now) }
{
    let mut copy = RecvQueue::make(alloc, queue.depth())?;
    for i in 0..queue.len() {
        copy.post(*queue.at(i).unwrap()).unwrap();
    }
    Ok(copy)
}
