//! Completions handed to consumers in threads.

ghost use Rattle.std.specs.Prelude.{◌≡◌, ◌<◌, ◌≤◌, [], Bool, length, vec_len, IfOk};
ghost use Rattle.crossbeam_queue.specs.Passes.{view, IsPassOf};
ghost use Rattle.completion_fanout.specs.Fanned.{IsFanned};
ghost use Rattle.completion_fanout.specs.Rule.{root_share, writer_share};

use crate::consumers::consume_all;
use crate::entry::FanEntry;
use crate::feeding::{Feeder, Source};
use crate::finishing::{HandedOut, finish};
use crate::moves::{lend, make};
use crate::rule::{FanPass, FanQueue};
use crate::serving::PopGate;
use rdma_types::Items;
use std::alloc::{AllocError, Global};
use std::sync::Wait;
use std::thread;
use std::thread::{Scope, Threads};

/// Room for that many entries, for each consumer.
fn rooms(alloc: Global, consumers: u32, entries: usize) -> Result<Vec<Items<FanEntry>>, AllocError>
    ensures { IfOk result (λ rooms. vec_len rooms ≡ consumers) }
{
    let mut rooms = Vec::with_capacity(alloc, consumers as usize)?;
    for _ in 0..consumers {
        rooms.push(Items::new(Vec::with_capacity(alloc, entries)?))?;
    }
    Ok(rooms)
}

/// Runs all in a scope, and joins them.
fn run<
    's,
    E,
    R: Threads + Wait + Sync,
    G: PopGate + Sync,
    S: Source + Send + Drop + 's,
    L: FnOnce(bool) -> T,
    T: Drop,
>(
    scope: &'s Scope<'s, E>,
    rt: &'s R,
    alloc: Global,
    queue: &'s FanQueue,
    gate: &'s G,
    root: FanPass,
    rooms: Vec<Items<FanEntry>>,
    feeder: Feeder<S>,
    beside: L,
) -> Result<(HandedOut, S, T), AllocError>
    requires root { IsPassOf queue.now root × (view root ≡ root_share 1023 [] 0) }
    requires feeder { IsPassOf queue.now feeder.pass × (view feeder.pass ≡ writer_share [] 0) }
    requires marks { feeder.consumers ≡ vec_len rooms }
    requires given { S.given feeder.source ≡ [] }
    requires rooms { (0 < vec_len rooms) × (vec_len rooms ≤ 4) }
    requires beside { (b : Bool) → L.pre beside b }
    ensures fanned { IfOk result (λ out. IsFanned (S.given out.1) out.0.taken out.0.left) }
    ensures lists { IfOk result (λ out. length out.0.taken ≡ vec_len rooms) }
    ensures none { IfOk result (λ out. out.0.left ≡ []) }
    ensures ended { IfOk result (λ out. S.ended out.1) }
{
    let all = consume_all(scope, rt, queue, gate, root, rooms, feeder, beside);
    let fed = all.feeding.join(rt, queue);
    let (out, source) = finish(
        rt,
        alloc,
        queue,
        all.root,
        all.lists,
        all.is_out_of_memory,
        fed,
    )?;
    Ok((out, source, all.beside))
}

/// Hands the completions of a source, in their order, to 1 to 4 consumers over a queue of that many places, and of one for each
/// consumer at least. Each consumer takes in a thread of its own, and one thread puts; the caller runs `beside` when all are
/// started. The source is asked until it has ended. Each completion that it gave is taken once, under its place, and nothing is
/// left. A thread whose start is refused is run by the caller after that: first the one who puts, and then each such consumer.
/// `beside` is told whether the one who puts is among them. `most` is for how many completions each consumer has room from the
/// start.
///
/// It may wait, and does so for ever where the starts of the one who puts and of all consumers are refused, and the completions
/// and an end mark for each consumer do not fit in the queue. So a caller who is told so makes its source end.
///
/// # Errors
///
/// `AllocError` when out of memory. Where that happens to a consumer, all run to their ends first: it drops what it takes from
/// then on.
pub fn hand_out<
    R: Threads + Wait + Sync,
    G: PopGate + Sync,
    S: Source + Send + Drop,
    L: FnOnce(bool) -> T,
    T: Drop,
>(
    rt: &R,
    alloc: Global,
    consumers: u32,
    capacity: usize,
    most: usize,
    gate: &G,
    source: S,
    beside: L,
) -> Result<(HandedOut, S, T), AllocError>
    requires consumers { (1 ≤ consumers) × (consumers ≤ 4) }
    requires given { S.given source ≡ [] }
    requires beside { (b : Bool) → L.pre beside b }
    ensures fanned { IfOk result (λ out. IsFanned (S.given out.1) out.0.taken out.0.left) }
    ensures lists { IfOk result (λ out. length out.0.taken ≡ consumers) }
    ensures none { IfOk result (λ out. out.0.left ≡ []) }
    ensures ended { IfOk result (λ out. S.ended out.1) }
{
    let rooms = rooms(alloc, consumers, most)?;
    let (queue, mut root) = make(alloc, capacity.max(consumers as usize))?;
    let pass = lend(&queue, &mut root);
    let row = &queue;
    thread::scope(
        thread::scope_env(),
        rt,
        move |scope| -> Result<(HandedOut, S, T), AllocError>
            requires { IsPassOf row.now root × (view root ≡ root_share 1023 [] 0)
                × IsPassOf row.now pass × (view pass ≡ writer_share [] 0)
                × (consumers ≡ vec_len rooms) × (0 < vec_len rooms) × (vec_len rooms ≤ 4)
                × (S.given source ≡ []) × ((b : Bool) → L.pre beside b) }
            ensures { IfOk result (λ out. IsFanned (S.given out.1) out.0.taken out.0.left
                × (length out.0.taken ≡ vec_len rooms) × (out.0.left ≡ [])
                × S.ended out.1) }
        {
            let feeder = Feeder {
                pass,
                source,
                consumers,
            };
            run(scope, rt, alloc, row, gate, root, rooms, feeder, beside)
        },
    )
}
