//! Equal contexts over memory of their own.

ghost use Rattle.std.specs.Prelude.{◌≡◌, [], IfOk, IsOk, OnOk};

use crate::state::{ContextState, EndSlot};
use end_queues::completion_queue::Cq;
use indexmap::{IndexMap, IndexSet};
use rdma_types::Name;
use std::alloc::{AllocError, Global};

/// Puts equal domains into an empty set.
fn copy_domains(copy: &mut IndexSet<Name>, domains: &IndexSet<Name>) -> Result<(), AllocError>
    requires { copy.old.keys ≡ [] }
    ensures { OnOk result (copy.new.keys ≡ domains.now.keys) }
{
    for i in 0..domains.len() {
        copy.insert(*domains.get_index(i).unwrap())?;
    }
    Ok(())
}

/// Puts equal completion queues into an empty map.
fn copy_queues(
    alloc: Global,
    copy: &mut IndexMap<Name, Cq>,
    queues: &IndexMap<Name, Cq>,
) -> Result<(), AllocError>
    requires { copy.old.entries ≡ [] }
    ensures { OnOk result (copy.new.entries ≡ queues.now.entries) }
{
    for i in 0..queues.len() {
        let (name, queue) = queues.get_index(i).unwrap();
        copy.insert(*name, queue.copy(alloc)?)?;
    }
    Ok(())
}

/// Puts equal queue pairs into an empty map, for a copy of the pool of their payloads.
fn copy_ends(
    alloc: Global,
    copy: &mut IndexMap<Name, EndSlot>,
    ends: &IndexMap<Name, EndSlot>,
) -> Result<(), AllocError>
    requires { copy.old.entries ≡ [] }
    ensures { OnOk result (copy.new.entries ≡ ends.now.entries) }
{
    for i in 0..ends.len() {
        let (name, slot) = ends.get_index(i).unwrap();
        copy.insert(*name, slot.copy(alloc)?)?;
    }
    Ok(())
}

impl EndSlot {
    /// An equal queue pair, for a copy of the pool of its payloads. Errors: `AllocError` when out of memory.
    fn copy(&self, alloc: Global) -> Result<EndSlot, AllocError>
        ensures { IfOk result (λ slot. slot ≡ self.now) }
    {
        Ok(EndSlot {
            send: self.send,
            recv: self.recv,
            endpoint: self.endpoint.copy(alloc)?,
        })
    }
}

impl ContextState {
    ghost use Rattle.context_core.specs.Context.{no_holding};

    /// Puts all else of a context into one that has its regions alone.
    fn fill(&mut self, alloc: Global, other: &ContextState) -> Result<(), AllocError>
        requires { self.old ≡ record no_holding { regions = other.now.regions } }
        ensures { OnOk result (self.new ≡ other.now) }
    {
        copy_domains(&mut self.domains, &other.domains)?;
        copy_queues(alloc, &mut self.queues, &other.queues)?;
        copy_ends(alloc, &mut self.ends, &other.ends)
    }

    /// An equal context, for a copy of the pool where its bytes lie. Errors: `AllocError` when out of memory.
    pub fn copy(&self, alloc: Global) -> Result<ContextState, AllocError>
        ensures { IfOk result (λ s. s ≡ self.now) }
    {
        let regions = self.regions.copy(alloc)?;
        let mut copy = ContextState {
            domains: IndexSet::new(alloc),
            regions,
            queues: IndexMap::new(alloc),
            ends: IndexMap::new(alloc),
        };
        let filled = copy.fill(alloc, self);
        copy.once(filled)
    }

    /// The context itself, once what fills it has come to its end. Errors: what that met.
    pub(crate) fn once(self, filled: Result<(), AllocError>) -> Result<ContextState, AllocError>
        ensures same { IfOk result (λ s. s ≡ self) }
        ensures filled { OnOk result (IsOk filled) }
    {
        filled?;
        Ok(self)
    }
}
