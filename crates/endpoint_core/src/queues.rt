//! Work that completes into the queue at a place.

ghost use Rattle.std.specs.Prelude.{◌≡◌, ◌≤◌, ◌<◌, ◌∷◌, ◌++◌, [], drop, length, map, take};
ghost use Rattle.page_pool.specs.Pool.{IsIn};
ghost use Rattle.rdma_types.specs.declared.requests.WcStatus.TheVariants.{Flush};
ghost use Rattle.protocol.specs.EndWords.{failed_receive, failed_request};
ghost use Rattle.protocol.specs.Requester.{after_telling, emptied_at, end_of_queue, failing, told_completions};
ghost use Rattle.requester.specs.Sending.{bare, bares, sender_of};
ghost use Rattle.end_completions.specs.Completing.{listed, told_count};
ghost use Rattle.end_completions.specs.Payloads.{AreApart, GivesBack};
ghost use Rattle.endpoint_core.specs.Queues.{reserved_in, settle_at};

use end_completions::{fail_one, flush_receives, flush_requests, tell};
use end_queues::completion_queue::Cq;
use end_queues::work_queues::{QueuedRequest, RecvQueue};
use indexmap::IndexMap;
use page_pool::PagePool;
use rdma_types::{Completion, Name, Receive, WcStatus};
use requester::Requester;

/// Puts a completion into the queue at a place, where one is reserved.
pub fn push_at(queues: &mut IndexMap<Name, Cq>, place: u32, completion: Completion)
    requires there { place < length queues.old.entries }
    requires reserved { 0 < reserved_in queues.old.entries place }
    ensures { queues.new.entries ≡ settle_at queues.old.entries place 1 (completion ∷ []) }
{
    let cq = queues.get_index_mut(place as usize).unwrap();
    cq.push(completion);
}

/// Tells the requests whose numbers are all acknowledged.
pub fn tell_at(
    queues: &mut IndexMap<Name, Cq>,
    place: u32,
    requester: &mut Requester,
    number: u32,
    pool: &mut PagePool,
)
    requires there { place < length queues.old.entries }
    requires payloads { AreApart pool.old requester.old.items }
    requires reserved { length requester.old.items ≤ reserved_in queues.old.entries place }
    ensures terms { requester.new.terms ≡ requester.old.terms }
    ensures depth { requester.new.depth ≡ requester.old.depth }
    ensures numbers { sender_of requester.new ≡ after_telling requester.old.terms
        (sender_of requester.old) }
    ensures items { requester.new.items ≡ drop (told_count requester.old) requester.old.items }
    ensures queues { queues.new.entries
        ≡ settle_at queues.old.entries place (told_count requester.old) (told_completions number requester.old.terms (sender_of requester.old)) }
    ensures pool { GivesBack pool.old pool.new
        (take (told_count requester.old) requester.old.items) }
{
    let cq = queues.get_index_mut(place as usize).unwrap();
    tell(requester, number, pool, cq);
}

/// Completes all requests, the oldest with a status and the others flushed.
pub fn flush_requests_at(
    queues: &mut IndexMap<Name, Cq>,
    place: u32,
    requester: &mut Requester,
    number: u32,
    status: WcStatus,
    pool: &mut PagePool,
)
    requires there { place < length queues.old.entries }
    requires payloads { AreApart pool.old requester.old.items }
    requires reserved { length requester.old.items ≤ reserved_in queues.old.entries place }
    ensures terms { requester.new.terms ≡ requester.old.terms }
    ensures depth { requester.new.depth ≡ requester.old.depth }
    ensures items { requester.new.items ≡ [] }
    ensures numbers { sender_of requester.new ≡ emptied_at
        (end_of_queue requester.old.terms (sender_of requester.old)) }
    ensures queues { queues.new.entries
        ≡ settle_at queues.old.entries place (length requester.old.items) (failing number status (bares requester.old.items)) }
    ensures pool { GivesBack pool.old pool.new requester.old.items }
{
    let cq = queues.get_index_mut(place as usize).unwrap();
    flush_requests(requester, number, status, pool, cq);
}

/// Completes the receive in use, if there is one, and then the unused ones, flushed.
pub fn flush_receives_at(
    queues: &mut IndexMap<Name, Cq>,
    place: u32,
    recvs: &mut RecvQueue,
    in_use: Option<Receive>,
    number: u32,
)
    requires there { place < length queues.old.entries }
    requires reserved { length (listed in_use ++ recvs.old.items)
        ≤ reserved_in queues.old.entries place }
    ensures items { recvs.new ≡ record recvs.old { items = [] } }
    ensures queues { queues.new.entries
        ≡ settle_at queues.old.entries place (length (listed in_use ++ recvs.old.items)) (map (failed_receive number Flush) (listed in_use ++ recvs.old.items)) }
{
    let cq = queues.get_index_mut(place as usize).unwrap();
    flush_receives(recvs, in_use, number, cq);
}

/// Completes one request with a status other than success, and frees its pages.
pub fn fail_at(
    queues: &mut IndexMap<Name, Cq>,
    place: u32,
    p: QueuedRequest,
    number: u32,
    status: WcStatus,
    pool: &mut PagePool,
)
    requires there { place < length queues.old.entries }
    requires lives { IsIn pool.old p.payload.list }
    requires reserved { 0 < reserved_in queues.old.entries place }
    ensures queues { queues.new.entries ≡ settle_at queues.old.entries place 1
        (failed_request number status (bare p) ∷ []) }
    ensures pool { GivesBack pool.old pool.new (p ∷ []) }
{
    let cq = queues.get_index_mut(place as usize).unwrap();
    fail_one(p, number, status, pool, cq);
}
