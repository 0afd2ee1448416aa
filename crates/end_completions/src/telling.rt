//! Requests that are told.

ghost use Rattle.std.specs.Prelude.{◌≡◌, ◌≤◌, ◌<◌, ◌∷◌, [], drop, length, take};
ghost use Rattle.page_pool.specs.Pool.{IsIn};
ghost use Rattle.protocol.specs.Requester.{after_telling, told_completions};
ghost use Rattle.requester.specs.Sending.{sender_of};
ghost use Rattle.end_completions.specs.Completing.{settled, told_count, told_one};
ghost use Rattle.end_completions.specs.Payloads.{AreApart, GivesBack};

use crate::completing::done;
use end_queues::completion_queue::Cq;
use end_queues::work_queues::QueuedRequest;
use page_pool::PagePool;
use rdma_types::WcStatus;
use requester::Requester;

/// Tells one request: a signaled one completes, an unsignaled one gives its reserved place back.
fn tell_one(p: QueuedRequest, number: u32, pool: &mut PagePool, cq: &mut Cq)
    requires lives { IsIn pool.old p.payload.list }
    requires reserved { 0 < cq.old.reserved }
    ensures queue { cq.new ≡ settled 1 (told_one number p) cq.old }
    ensures pool { GivesBack pool.old pool.new (p ∷ []) }
{
    if p.request.signaled {
        cq.push(done(number, &p, WcStatus::Success, p.request.shape.length));
    } else {
        cq.unreserve();
    }
    pool.give(p.payload.list);
}

/// Tells the requests whose numbers are all acknowledged, in posting order. Each signaled one completes, each unsignaled one
/// gives its reserved place back, and the pages of their payloads are free.
pub fn tell(requester: &mut Requester, number: u32, pool: &mut PagePool, cq: &mut Cq)
    requires payloads { AreApart pool.old requester.old.items }
    requires reserved { length requester.old.items ≤ cq.old.reserved }
    ensures terms { requester.new.terms ≡ requester.old.terms }
    ensures depth { requester.new.depth ≡ requester.old.depth }
    ensures numbers { sender_of requester.new ≡ after_telling requester.old.terms
        (sender_of requester.old) }
    ensures items { requester.new.items ≡ drop (told_count requester.old) requester.old.items }
    ensures queue { cq.new ≡ settled (told_count requester.old)
        (told_completions number requester.old.terms (sender_of requester.old)) cq.old }
    ensures pool { GivesBack pool.old pool.new
        (take (told_count requester.old) requester.old.items) }
{
    while let Some(p) = requester.next_told() {
        tell_one(p, number, pool, cq);
    }
}
