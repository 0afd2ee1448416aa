//! Completion queues.
#![tactic(auto, unfolding(crate::specs::Machine::completed), using(crate::proofs::Places::by_names))]

ghost use Rattle.std.specs.Prelude.{◌≡◌, ◌++◌, drop, take, length, IfOk, OnErr, OnOk, []};
ghost use Rattle.packetless_machine.specs.Machine.{longer, completed};

use crate::named::{Named, place_of};
use rdma_types::{Completion, Name};
use std::alloc::{AllocError, Global};
use std::marker::Model;

/// A completion queue.
#[derive(Drop)]
pub struct Queue {
    name: Name,
    pub(crate) capacity: u32,
    pub(crate) entries: Vec<Completion>,
}

impl Model for Queue {
    ghost use Rattle.rdma_types.specs.Objects.{CompletionQueue};

    ghost Value = { CompletionQueue };

    ghost view = { λ q. record { name = q.name; capacity = q.capacity; entries = q.entries.items } };
}

impl Named for Queue {
    ghost named = { λ q. q.name };

    fn name(&self) -> Name {
        self.name
    }
}

impl Queue {
    /// An empty completion queue of this name, for `capacity` entries.
    pub fn make(alloc: Global, name: Name, capacity: u32) -> Queue
        ensures { result ≡ record { name = name; capacity = capacity; entries = [] } }
    {
        Queue {
            name,
            capacity,
            entries: Vec::new(alloc),
        }
    }

    /// Completions are added at the end. Errors: `AllocError` when out of memory; nothing has changed.
    pub fn complete(&mut self, more: &[Completion]) -> Result<(), AllocError>
        ensures ok { OnOk result (self.new ≡ longer self.old more.now) }
        ensures err { OnErr result (self.new ≡ self.old) }
    {
        self.entries.extend_from_slice(more)
    }

    /// Copies of the oldest entries, at most so many. Errors: `AllocError` when out of memory.
    pub fn oldest(&self, alloc: Global, max: u32) -> Result<Vec<Completion>, AllocError>
        ensures { IfOk result (λ v. v.items ≡ take max self.now.entries) }
    {
        let count = self.entries.len().min(max as usize);
        Vec::from_slice(alloc, &self.entries[..count])
    }

    /// The oldest entries are taken out, at most so many. Errors: `AllocError` when out of memory; nothing has changed.
    pub fn drop_oldest(&mut self, alloc: Global, max: u32) -> Result<(), AllocError>
        ensures ok { OnOk result (self.new
            ≡ record self.old { entries = drop max self.old.entries }) }
        ensures err { OnErr result (self.new ≡ self.old) }
    {
        let count = self.entries.len().min(max as usize);
        self.entries = Vec::from_slice(alloc, &self.entries[count..])?;
        Ok(())
    }

    /// An equal queue. Errors: `AllocError` when out of memory.
    pub fn copied(&self, alloc: Global) -> Result<Queue, AllocError>
        ensures { IfOk result (λ q. q ≡ self.now) }
    {
        let entries = Vec::from_slice(alloc, &self.entries)?;
        Ok(Queue {
            name: self.name,
            capacity: self.capacity,
            entries,
        })
    }
}

/// Equal queues. Errors: `AllocError` when out of memory.
pub fn copied(alloc: Global, queues: &[Queue]) -> Result<Vec<Queue>, AllocError>
    ensures { IfOk result (λ v. v.items ≡ queues.now) }
{
    let mut all = Vec::new(alloc);
    for queue in queues {
        all.push(queue.copied(alloc)?)?;
    }
    Ok(all)
}

/// Completions are added to the queue of a name. Errors: `AllocError` when out of memory; the queues are as they were.
pub fn complete(queues: &mut Vec<Queue>, name: Name, more: &[Completion]) -> Result<(), AllocError>
    ensures ok { OnOk result (queues.new.items ≡ completed name more.now queues.old.items) }
    ensures err { OnErr result (queues.new.items ≡ queues.old.items) }
{
    let place = place_of(queues, name);
    match queues.get_mut(place) {
        Some(queue) => queue.complete(more),
        None => Ok(()),
    }
}
