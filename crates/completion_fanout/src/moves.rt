//! The steps of the queue.

ghost use Rattle.std.specs.Prelude.{◌≡◌, ◌<◌, true, IfOk, MatchOption, None};
ghost use Rattle.crossbeam_queue.specs.Passes.{view, IsPassOf};
ghost use Rattle.completion_fanout.specs.Fanned.{IsRising, places};
ghost use Rattle.completion_fanout.specs.Rule.{IsTake, IsWhole, MayPut, after_cut, after_lend, after_put, first_share, joined_with, lent_share, new_share, returned_with};

use crate::entry::QueueItem;
use crate::rule::{FanPass, FanQueue, IncreasingPlaces, Lend, Puts, SplitPass, Takes};
use std::alloc::{AllocError, Global};
use std::sync::Wait;
use std::thread;

/// An empty queue of that many places, and the pass with all parts. Errors: `AllocError` when out of memory.
#[tactic(auto, using(crate::proofs::Steps::begins))]
pub fn make(alloc: Global, capacity: usize) -> Result<(FanQueue, FanPass), AllocError>
    requires { 0 < capacity }
    ensures { IfOk result (λ q. IsPassOf q.0 q.1 × (view q.1 ≡ first_share)) }
{
    FanQueue::ruled(alloc, capacity)
}

/// Cuts off a pass that takes.
pub fn split(queue: &FanQueue, pass: &mut FanPass) -> FanPass
    requires pass { IsPassOf queue.now pass.old }
    requires parts { 1 < (view pass.old).parts }
    ensures old { IsPassOf queue.now pass.new × (view pass.new ≡ after_cut (view pass.old)) }
    ensures new { IsPassOf queue.now result × (view result ≡ new_share) }
{
    queue.another::<SplitPass>(pass)
}

/// Cuts off the pass that puts.
pub fn lend(queue: &FanQueue, pass: &mut FanPass) -> FanPass
    requires pass { IsPassOf queue.now pass.old }
    requires parts { 1 < (view pass.old).parts }
    requires puts { (view pass.old).puts ≡ true }
    ensures old { IsPassOf queue.now pass.new × (view pass.new ≡ after_lend (view pass.old)) }
    ensures new { IsPassOf queue.now result × (view result ≡ lent_share (view pass.old)) }
{
    queue.another::<Lend>(pass)
}

/// Puts a parcel, and waits while the queue is full.
pub fn put<R: Wait>(rt: &R, queue: &FanQueue, pass: &mut FanPass, parcel: QueueItem)
    requires pass { IsPassOf queue.now pass.old }
    requires may { MayPut (view pass.old) parcel }
    ensures pass { IsPassOf queue.now pass.new }
    ensures put { view pass.new ≡ after_put (view pass.old) parcel }
{
    for _ in rt.forever() {
        if queue.push_as::<Puts, R>(rt, pass, parcel).is_ok() {
            break;
        }
        thread::yield_now();
    }
}

/// Takes the oldest parcel; None where the queue was empty, of which a pass with all parts learns that all was taken.
pub fn take<R: Wait>(rt: &R, queue: &FanQueue, pass: &mut FanPass) -> Option<QueueItem>
    requires pass { IsPassOf queue.now pass.old }
    requires parts { 0 < (view pass.old).parts }
    ensures pass { IsPassOf queue.now pass.new }
    ensures took { MatchOption result (view pass.new
        ≡ view pass.old) (λ x. IsTake (view pass.old) x (view pass.new)) }
    ensures empty { result ≡ None → (view pass.old).parts ≡ 1024 → (view pass.old).puts ≡ true
        → IsWhole (view pass.old) }
{
    queue.pop_as::<Takes, R>(rt, pass)
}

/// Joins a pass that takes; the places of what it took rise.
pub fn join(queue: &FanQueue, pass: &mut FanPass, mut other: FanPass)
    requires passes { IsPassOf queue.now pass.old × IsPassOf queue.now other }
    requires parts { 0 < (view pass.old).parts }
    ensures pass { IsPassOf queue.now pass.new }
    ensures joined { view pass.new ≡ joined_with (view pass.old) (view other) }
    ensures rising { IsRising (places (view other).taken) }
{
    queue.learn_as::<IncreasingPlaces>(&mut other);
    queue.absorb::<SplitPass>(pass, other);
}

/// Joins the pass that puts.
pub fn give_back(queue: &FanQueue, pass: &mut FanPass, other: FanPass)
    requires passes { IsPassOf queue.now pass.old × IsPassOf queue.now other }
    requires parts { 0 < (view pass.old).parts }
    requires puts { (view other).puts ≡ true }
    ensures pass { IsPassOf queue.now pass.new }
    ensures joined { view pass.new ≡ returned_with (view pass.old) (view other) }
{
    queue.absorb::<Lend>(pass, other);
}
