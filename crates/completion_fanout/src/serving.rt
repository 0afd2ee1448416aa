//! What consumers do.

ghost use Rattle.std.specs.Prelude.{◌≡◌, ◌<◌};
ghost use Rattle.crossbeam_queue.specs.Passes.{view, IsPassOf};
ghost use Rattle.completion_fanout.specs.Rule.{new_share};
ghost use Rattle.completion_fanout.specs.Served.{IsServed};

use crate::entry::{FanEntry, QueueItem};
use crate::moves::take;
use crate::rule::{FanPass, FanQueue};
use rdma_types::Items;
use std::sync::Wait;
use std::thread;
use std::thread::Promise;

/// Called by each consumer before each of its pops. Tests hold a consumer there.
pub trait PopGate {
    fn pass(&self, consumer: u32);
}

/// The gate that is always open.
#[derive(Clone, Copy, Drop)]
pub struct OpenGate;

impl PopGate for OpenGate {
    fn pass(&self, _consumer: u32) {}
}

/// A consumer that has ended.
#[derive(Drop)]
pub struct Served {
    pub pass: FanPass,
    /// What it took, in its order, as far as there was memory for it.
    pub taken: Items<FanEntry>,
    /// Whether there was no memory for one of its entries.
    pub is_out_of_memory: bool,
}

/// That a consumer of this queue has ended as it should.
#[derive(Clone, Copy)]
pub(crate) struct ServingPlace<'a>(pub(crate) &'a FanQueue);

impl<'a> Promise<Served> for ServingPlace<'a> {
    ghost use Rattle.completion_fanout.specs.Served.{IsServed};

    ghost kept_by = { λ p s. IsServed p.0.now s };
}

/// Takes parcels until it takes an end mark, and drops the entries; it waits while the queue is empty.
fn discard<R: Wait, G: PopGate>(
    rt: &R,
    queue: &FanQueue,
    gate: &G,
    consumer: u32,
    pass: &mut FanPass,
)
    requires pass { IsPassOf queue.now pass.old }
    requires parts { (view pass.old).parts ≡ 1 }
    ensures pass { IsPassOf queue.now pass.new }
    ensures parts { (view pass.new).parts ≡ 1 }
    ensures marked { 0 < (view pass.new).ended }
{
    for _ in rt.forever() {
        gate.pass(consumer);
        match take(rt, queue, pass) {
            Some(QueueItem::Entry(_)) => (),
            Some(QueueItem::End) => return,
            None => thread::yield_now(),
        }
    }
    unreachable!()
}

/// Takes parcels until it takes an end mark; it waits while the queue is empty. The room is emptied first, and is for the
/// entries. Once there is no memory for an entry, it drops what it takes: so the queue does not stay full.
pub fn consume<R: Wait, G: PopGate>(
    rt: &R,
    queue: &FanQueue,
    gate: &G,
    consumer: u32,
    mut pass: FanPass,
    room: Items<FanEntry>,
) -> Served
    requires { IsPassOf queue.now pass × (view pass ≡ new_share) }
    ensures { IsServed queue.now result }
{
    let mut taken = room.into_vec();
    taken.clear();
    for _ in rt.forever() {
        if taken.try_reserve(1).is_err() {
            discard(rt, queue, gate, consumer, &mut pass);
            return Served {
                pass,
                taken: Items::new(taken),
                is_out_of_memory: true,
            };
        }
        gate.pass(consumer);
        match take(rt, queue, &mut pass) {
            Some(QueueItem::Entry(entry)) => taken.push(entry).unwrap(),
            Some(QueueItem::End) => {
                return Served {
                    pass,
                    taken: Items::new(taken),
                    is_out_of_memory: false,
                };
            }
            None => thread::yield_now(),
        }
    }
    unreachable!()
}
