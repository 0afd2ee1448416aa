//! Consumers in threads.

ghost use Rattle.std.specs.Prelude.{◌≡◌, ◌<◌, ◌≤◌, ◌+◌, [], Bool, vec_capacity, vec_len};
ghost use Rattle.crossbeam_queue.specs.Passes.{view, IsPassOf};
ghost use Rattle.completion_fanout.specs.Feeding.{IsFeeding};
ghost use Rattle.completion_fanout.specs.Rule.{root_share, writer_share};
ghost use Rattle.completion_fanout.specs.Served.{AreServed, IsServed};

use crate::entry::FanEntry;
use crate::feeding::{Feeder, Feeding, Source, start};
use crate::moves::{join, split};
use crate::rule::{FanPass, FanQueue};
use crate::serving::{PopGate, Served, ServingPlace, consume};
use rdma_types::Items;
use std::sync::Wait;
use std::thread::{Scope, Threads};

/// The consumers' numbers begin after this one.
const BEFORE_CONSUMERS: u32 = 100;

/// Consumers that have ended, the one who puts, and what was done beside.
#[derive(Drop)]
pub(crate) struct AllServed<'a, S: Source, T> {
    pub root: FanPass,
    /// What consumers 101, 102 and so on took.
    pub lists: Vec<Items<FanEntry>>,
    /// Whether there was no memory for an entry of one of them.
    pub is_out_of_memory: bool,
    pub feeding: Feeding<'a, S>,
    pub beside: T,
}

/// Joins a consumer that has ended.
fn take_in<'a, S: Source + Drop, T: Drop>(
    queue: &FanQueue,
    all: AllServed<'a, S, T>,
    served: Served,
) -> AllServed<'a, S, T>
    requires all { AreServed queue.now (view all.root).parts all.root all.lists.items
        all.is_out_of_memory }
    requires parts { 0 < (view all.root).parts }
    requires room { vec_len all.lists < vec_capacity all.lists }
    requires feeding { IsFeeding S.given S.ended queue.now all.feeding }
    requires served { IsServed queue.now served }
    ensures all { AreServed queue.now ((view all.entry.root).parts + 1) result.root
        result.lists.items result.is_out_of_memory }
    ensures lists { vec_len result.lists ≡ vec_len all.entry.lists + 1 }
    ensures room { vec_capacity result.lists ≡ vec_capacity all.entry.lists }
    ensures feeding { IsFeeding S.given S.ended queue.now result.feeding }
{
    let AllServed {
        mut root,
        mut lists,
        is_out_of_memory,
        feeding,
        beside,
    } = all;
    let Served {
        pass,
        taken,
        is_out_of_memory: is_short,
    } = served;
    join(queue, &mut root, pass);
    lists.push_reserved(taken);
    AllServed {
        root,
        lists,
        is_out_of_memory: is_out_of_memory || is_short,
        feeding,
        beside,
    }
}

/// Runs a consumer for each room, of at most 4, in a thread of its own, then who puts, in a thread too, and then `beside`, by
/// the caller; and joins the consumers. A consumer whose start is refused is run by the caller after all that.
pub(crate) fn consume_all<
    's,
    E,
    R: Threads + Wait + Sync,
    G: PopGate + Sync,
    S: Source + Send + Drop + 's,
    L: FnOnce(bool) -> T,
    T: Drop,
>(
    scope: &'s Scope<'s, E>,
    rt: &'s R,
    queue: &'s FanQueue,
    gate: &'s G,
    mut root: FanPass,
    mut rooms: Vec<Items<FanEntry>>,
    feeder: Feeder<S>,
    beside: L,
) -> AllServed<'s, S, T>
    requires pass { IsPassOf queue.now root }
    requires root { view root ≡ root_share (view root).parts [] 0 }
    requires parts { vec_len rooms + 1 ≤ (view root).parts }
    requires few { vec_len rooms ≤ 4 }
    requires feeder { IsPassOf queue.now feeder.pass × (view feeder.pass ≡ writer_share [] 0) }
    requires given { S.given feeder.source ≡ [] }
    requires beside { (b : Bool) → L.pre beside b }
    ensures all { AreServed queue.now (view root).parts result.root result.lists.items
        result.is_out_of_memory }
    ensures lists { vec_len result.lists ≡ vec_len rooms }
    ensures room { vec_capacity result.lists ≡ vec_capacity rooms }
    ensures feeding { IsFeeding S.given S.ended queue.now result.feeding }
{
    let Some(room) = rooms.pop() else {
        let (feeding, beside) = start(scope, rt, queue, feeder, beside);
        return AllServed {
            root,
            lists: rooms,
            is_out_of_memory: false,
            feeding,
            beside,
        };
    };
    let consumer = BEFORE_CONSUMERS + rooms.len() as u32 + 1;
    let pass = split(queue, &mut root);
    let started = scope.spawn_with(ServingPlace(queue), move || {
        consume(rt, queue, gate, consumer, pass, room)
    });
    let all = consume_all(scope, rt, queue, gate, root, rooms, feeder, beside);
    let served = match started {
        Ok(handle) => handle.join(rt),
        Err(refused) => (refused.value)(),
    };
    take_in(queue, all, served)
}
