//! Work that is flushed.

ghost use Rattle.std.specs.Prelude.{◌≡◌, ◌≤◌, ◌<◌, ◌+◌, ◌∷◌, ◌++◌, [], length, map};
ghost use Rattle.page_pool.specs.Pool.{IsIn};
ghost use Rattle.protocol.specs.EndWords.{failed_receive, failed_request};
ghost use Rattle.protocol.specs.Requester.{emptied_at, end_of_queue, failing};
ghost use Rattle.requester.specs.Sending.{bare, bares, sender_of};
ghost use Rattle.end_completions.specs.Completing.{listed, settled};
ghost use Rattle.end_completions.specs.Payloads.{AreApart, GivesBack};

use crate::completing::{done, received};
use end_queues::completion_queue::Cq;
use end_queues::work_queues::{QueuedRequest, RecvQueue};
use page_pool::PagePool;
use rdma_types::{Receive, WcStatus};
use requester::Requester;

/// Completes one request with a status other than success.
pub fn fail_one(p: QueuedRequest, number: u32, status: WcStatus, pool: &mut PagePool, cq: &mut Cq)
    requires lives { IsIn pool.old p.payload.list }
    requires reserved { 0 < cq.old.reserved }
    ensures queue { cq.new ≡ settled 1 (failed_request number status (bare p) ∷ []) cq.old }
    ensures pool { GivesBack pool.old pool.new (p ∷ []) }
{
    cq.push(done(number, &p, status, 0));
    pool.give(p.payload.list);
}

/// Completes all requests, signaled or not: the oldest with the status, and the others flushed. The pages of their payloads
/// are free, and all numbers are the first one past the last request.
pub fn flush_requests(
    requester: &mut Requester,
    number: u32,
    status: WcStatus,
    pool: &mut PagePool,
    cq: &mut Cq,
)
    requires payloads { AreApart pool.old requester.old.items }
    requires reserved { length requester.old.items ≤ cq.old.reserved }
    ensures terms { requester.new.terms ≡ requester.old.terms }
    ensures depth { requester.new.depth ≡ requester.old.depth }
    ensures items { requester.new.items ≡ [] }
    ensures numbers { sender_of requester.new ≡ emptied_at
        (end_of_queue requester.old.terms (sender_of requester.old)) }
    ensures queue { cq.new ≡ settled (length requester.old.items)
        (failing number status (bares requester.old.items)) cq.old }
    ensures pool { GivesBack pool.old pool.new requester.old.items }
{
    let mut status = status;
    while let Some(p) = requester.cut() {
        fail_one(p, number, status, pool, cq);
        status = WcStatus::Flush;
    }
}

/// Completes a receive that no message used to its end, flushed.
pub fn flush_one(r: Receive, number: u32, cq: &mut Cq)
    requires { 0 < cq.old.reserved }
    ensures { cq.new ≡ settled 1 (failed_receive number WcStatus.Flush r ∷ []) cq.old }
{
    cq.push(received(number, &r, WcStatus::Flush));
}

/// Completes the receive in use, if there is one, and then the unused ones, flushed.
pub fn flush_receives(recvs: &mut RecvQueue, in_use: Option<Receive>, number: u32, cq: &mut Cq)
    requires { length (listed in_use ++ recvs.old.items) ≤ cq.old.reserved }
    ensures items { recvs.new ≡ record recvs.old { items = [] } }
    ensures queue { cq.new ≡ settled (length (listed in_use ++ recvs.old.items))
        (map (failed_receive number WcStatus.Flush) (listed in_use ++ recvs.old.items)) cq.old }
{
    if let Some(r) = in_use {
        flush_one(r, number, cq);
    }
    flush_unused(recvs, number, cq);
}

/// Completes the unused receives, flushed.
fn flush_unused(recvs: &mut RecvQueue, number: u32, cq: &mut Cq)
    requires { length recvs.old.items ≤ cq.old.reserved }
    ensures items { recvs.new ≡ record recvs.old { items = [] } }
    ensures queue { cq.new ≡ settled (length recvs.old.items)
        (map (failed_receive number WcStatus.Flush) recvs.old.items) cq.old }
{
    while let Some(r) = recvs.drop_front() {
        flush_one(r, number, cq);
    }
}
