//! Whether the work of queue pairs names a region.

ghost use Rattle.std.specs.Prelude.{◌≡◌, ◌≤◌, ◌==◌, ◌&&◌, ◌||◌, List, All, length, map, not};
ghost use Rattle.rdma_types.specs.Lists.{some};
ghost use Rattle.rdma_types.specs.declared.names.Name.{Name};
ghost use Rattle.page_pool.specs.Pool.{Pool};
ghost use Rattle.end_queues.specs.Completions.{Queue};
ghost use Rattle.protocol.specs.Refusals.{names_key, progress_names};
ghost use Rattle.endpoint_core.specs.Ends.{Names, end_in};
ghost use Rattle.context_core.specs.Context.{end_of};
ghost use Rattle.context_core.specs.Naming.{IsFit};

use crate::EndSlot;
use end_queues::work_queues::RecvQueue;
use endpoint_core::Endpoint;
use indexmap::IndexMap;
use rdma_types::Name;
use requester::Requester;
use responder::{Flow, Responder};

/// Whether bytes are named under this key.
fn has_key(lkey: u32, length: u32, key: u32) -> bool
    ensures { result ≡ (lkey == key && not (length == 0)) }
{
    lkey == key && length != 0
}

/// Whether an untold request with bytes names the region with a local key.
fn is_requested(requester: &Requester, depth: u32, key: u32) -> bool
    requires { length requester.now.items ≤ depth }
    ensures { result ≡ some (λ p. p.request.lkey == key
        && not (p.request.shape.length == 0)) requester.now.items }
{
    for place in 0..depth {
        let Some(p) = requester.posted(place as usize) else {
            return false;
        };
        if has_key(p.request.lkey, p.request.shape.length, key) {
            return true;
        }
    }
    false
}

/// Whether an unused receive with bytes names the region with a local key.
fn is_awaited(recvs: &RecvQueue, key: u32) -> bool
    ensures { result ≡ some (λ r. r.lkey == key && not (r.length == 0)) recvs.now.items }
{
    for place in 0..recvs.len() {
        let Some(r) = recvs.at(place) else {
            return false;
        };
        if has_key(r.lkey, r.length, key) {
            return true;
        }
    }
    false
}

/// Whether the message in progress names the region with a local key.
fn is_written(responder: &Responder, key: u32) -> bool
    ensures { result ≡ progress_names key responder.now.receiver.progress }
{
    match responder.parts().flow {
        Flow::Idle => false,
        Flow::Send { done: _, receive } => receive.lkey == key,
        Flow::Write { spot, done: _ } => spot.region == key,
    }
}

/// Whether the work of a queue pair names the region with a local key.
fn is_named_by(end: &Endpoint, key: u32) -> bool
    requires { IsFit end.now }
    ensures { (pool : Pool) (names : Names) → result ≡ names_key key (end_in pool names end.now) }
{
    let awaited = is_awaited(&end.recvs, key);
    let Some(link) = &end.link else {
        return awaited;
    };
    let requested = is_requested(&link.requester, end.send_depth, key);
    is_one(requested, awaited, is_written(&link.responder, key))
}

/// Whether one of these holds.
fn is_one(a: bool, b: bool, c: bool) -> bool
    ensures { result ≡ (a || (b || c)) }
{
    a || b || c
}

/// Whether the work of a queue pair of the context names the region with a local key.
pub fn is_named(ends: &IndexMap<Name, EndSlot>, key: u32) -> bool
    requires { All (λ e. IsFit e.1.endpoint) ends.now.entries }
    ensures { (pool : Pool) (queues : List (Name × Queue))
        → result ≡ some (names_key key) (map (end_of pool queues) ends.now.entries) }
{
    for place in 0..ends.len() {
        let (_, slot) = ends.get_index(place).unwrap();
        if is_named_by(&slot.endpoint, key) {
            return true;
        }
    }
    false
}
