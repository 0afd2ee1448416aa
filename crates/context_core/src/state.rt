//! What a context holds.

ghost use Rattle.std.specs.Prelude.{◌≡◌};
ghost use Rattle.rdma_types.specs.declared.names.Name.{Name};
ghost use Rattle.page_pool.specs.Pool.{Pool};
ghost use Rattle.protocol.specs.DeviceStep.{new_context};

use end_queues::completion_queue::Cq;
use endpoint_core::Endpoint;
use indexmap::{IndexMap, IndexSet};
use memory_keys::Regions;
use rdma_types::Name;
use std::alloc::Global;
use std::marker::Model;

/// A queue pair, and the places of its two completion queues.
#[derive(Drop)]
pub struct EndSlot {
    pub send: u32,
    pub recv: u32,
    pub endpoint: Endpoint,
}

/// What an application holds of a device, in order of making; its bytes lie in the device's pool of pages.
#[derive(Drop)]
pub struct ContextState {
    pub(crate) domains: IndexSet<Name>,
    pub(crate) regions: Regions,
    pub(crate) queues: IndexMap<Name, Cq>,
    pub(crate) ends: IndexMap<Name, EndSlot>,
}

impl Model for ContextState {
    ghost use Rattle.context_core.specs.Context.{Holding};

    ghost Value = { Holding };

    ghost view = { λ s. record { domains = s.domains.keys; regions = s.regions; queues = s.queues.entries; ends = s.ends.entries } };
}

impl ContextState {
    ghost use Rattle.context_core.specs.Context.{IsContext, context_in, no_holding};

    /// Nothing.
    pub fn make(alloc: Global) -> ContextState
        ensures empty { result ≡ no_holding }
        ensures view { (pool : Pool) (n : Name) → context_in pool n result ≡ new_context n }
        ensures is { (pool : Pool) → IsContext pool result }
    {
        ContextState {
            domains: IndexSet::new(alloc),
            regions: Regions::make(alloc),
            queues: IndexMap::new(alloc),
            ends: IndexMap::new(alloc),
        }
    }
}
