//! The one who puts.

ghost use Rattle.std.specs.Prelude.{◌≡◌, ◌++◌, ◌∷◌, [], Bool, List, MatchOption};
ghost use Rattle.crossbeam_queue.specs.Passes.{view, IsPassOf};
ghost use Rattle.completion_fanout.specs.Feeding.{IsFeeding};
ghost use Rattle.completion_fanout.specs.Rule.{writer_share};
ghost use Rattle.completion_fanout.specs.Served.{IsFed};

use crate::entry::{FanEntry, QueueItem};
use crate::moves::put;
use crate::rule::{FanPass, FanQueue};
use rdma_types::Completion;
use std::sync::Wait;
use std::thread;
use std::thread::{Promise, PromisedHandle, Scope, Threads};

/// Where the completions come from.
pub trait Source {
    ghost use Rattle.rdma_types.specs.declared.requests.Completion.{Completion};

    // The completions that it has given, in their order.
    ghost given: { Self → List Completion };

    // It has ended: no more come.
    ghost ended: { Self → Type 0 };

    /// The next completion; None where it has ended. It may wait.
    fn next<R: Wait>(&mut self, rt: &R) -> Option<Completion>
        ensures { MatchOption result ((given self.new ≡ given self.old) × ended self.new) (λ c. given self.new ≡ given self.old ++ c ∷ []) };
}

/// The one who puts, before it begins.
#[derive(Drop)]
pub(crate) struct Feeder<S> {
    pub pass: FanPass,
    pub source: S,
    /// How many end marks to put.
    pub consumers: u32,
}

/// The one who puts, when it has ended.
#[derive(Drop)]
pub(crate) struct PutResult<S> {
    pub pass: FanPass,
    pub source: S,
}

/// Puts so many end marks.
fn put_ends<R: Wait>(rt: &R, queue: &FanQueue, mut pass: FanPass, marks: u32) -> FanPass
    requires pass { IsPassOf queue.now pass }
    requires writer { view pass ≡ writer_share (view pass).put 0 }
    ensures pass { IsPassOf queue.now result }
    ensures put { view result ≡ writer_share (view pass).put marks }
{
    for _ in 0..marks {
        put(rt, queue, &mut pass, QueueItem::End);
    }
    pass
}

/// Puts the completions of the source, with the places 0, 1, 2 and so on, until it has ended; and then an end mark for each
/// consumer. It would wait for ever after 2^64 - 1 completions.
fn feed<R: Wait, S: Source>(rt: &R, queue: &FanQueue, feeder: Feeder<S>) -> PutResult<S>
    requires pass { IsPassOf queue.now feeder.pass × (view feeder.pass ≡ writer_share [] 0) }
    requires given { S.given feeder.source ≡ [] }
    ensures fed { IsFed queue.now result.pass (S.given result.source) }
    ensures ended { S.ended result.source }
    ensures marks { (view result.pass).marks ≡ feeder.consumers }
{
    let Feeder {
        mut pass,
        mut source,
        consumers,
    } = feeder;
    for place in 0..u64::MAX {
        let Some(completion) = source.next(rt) else {
            return PutResult {
                pass: put_ends(rt, queue, pass, consumers),
                source,
            };
        };
        let entry = FanEntry { place, completion };
        put(rt, queue, &mut pass, QueueItem::Entry(entry));
    }
    for _ in rt.forever() {
        thread::yield_now();
    }
    unreachable!()
}

/// That the one who puts into this queue has ended as it should.
#[derive(Clone, Copy)]
pub(crate) struct PutPlace<'a>(&'a FanQueue);

impl<'a, S: Source> Promise<PutResult<S>> for PutPlace<'a> {
    ghost use Rattle.completion_fanout.specs.Served.{IsFed};

    ghost kept_by = { λ p fed. IsFed p.0.now fed.pass (S.given fed.source) × S.ended fed.source };
}

/// The one who puts: in a thread, or run by the caller.
#[derive(Drop)]
pub(crate) enum Feeding<'a, S: Source> {
    There(PromisedHandle<PutResult<S>, PutPlace<'a>>),
    Here(PutResult<S>),
}

impl<'a, S: Source> Feeding<'a, S> {
    /// Waits until it has ended.
    pub fn join<R: Threads>(self, rt: &R, queue: &FanQueue) -> PutResult<S>
        requires { IsFeeding S.given S.ended queue.now self }
        ensures fed { IsFed queue.now result.pass (S.given result.source) }
        ensures ended { S.ended result.source }
    {
        match self {
            Feeding::There(handle) => handle.join(rt),
            Feeding::Here(fed) => fed,
        }
    }
}

/// Starts the one who puts in a thread, and runs `beside`, which is told whether that start is refused. Where it is, the caller
/// then puts.
pub(crate) fn start<
    's,
    E,
    R: Threads + Wait + Sync,
    S: Source + Send + Drop + 's,
    L: FnOnce(bool) -> T,
    T: Drop,
>(
    scope: &'s Scope<'s, E>,
    rt: &'s R,
    queue: &'s FanQueue,
    feeder: Feeder<S>,
    beside: L,
) -> (Feeding<'s, S>, T)
    requires feeder { IsPassOf queue.now feeder.pass × (view feeder.pass ≡ writer_share [] 0) }
    requires given { S.given feeder.source ≡ [] }
    requires beside { (b : Bool) → L.pre beside b }
    ensures { IsFeeding S.given S.ended queue.now result.0 }
{
    let started = scope.spawn_with(PutPlace(queue), move || feed(rt, queue, feeder));
    let done = beside(started.is_err());
    let feeding = match started {
        Ok(handle) => Feeding::There(handle),
        Err(refused) => Feeding::Here((refused.value)()),
    };
    (feeding, done)
}
