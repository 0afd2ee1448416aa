//! Readers, which take no memory.

ghost use Rattle.std.specs.Prelude.{◌≡◌, Some, IfNone, IfSome, IsSome, bytes_eq, length, position, slice_get};
ghost use Rattle.std.specs.Option.{option_map};
ghost use Rattle.rdma_types.specs.Causes.{first_cause};
ghost use Rattle.rdma_types.specs.declared.names.Name.{Name};
ghost use Rattle.page_pool.specs.Pool.{Pool};
ghost use Rattle.protocol.specs.Refusals.{connected_causes};
ghost use Rattle.context_core.specs.Context.{context_in};
ghost use Rattle.context_core.specs.Links.{IsConnectedAt};

use crate::{ContextState, ends};
use rdma_types::{Keys, Name, Refusal};

impl ContextState {
    /// How many queue pairs there are.
    pub fn end_count(&self) -> usize
        ensures { (pool : Pool) (n : Name) → result ≡ length (context_in pool n self.now).ends }
    {
        self.ends.len()
    }

    /// The place of the queue pair with a name. It stays, since queue pairs are only added.
    pub fn place_of_end(&self, name: Name) -> Option<usize>
        ensures { (pool : Pool) (n : Name) → result
            ≡ position (λ e. bytes_eq name e.name) (context_in pool n self.now).ends }
    {
        self.ends.get_index_of(&name)
    }

    /// The place of the connected queue pair with a name; None where it is in Init or there is none.
    pub fn connected_place(&self, name: Name) -> Option<usize>
        ensures place { (pool : Pool) (n : Name) → IfSome result (λ i. IsConnectedAt (context_in pool n self.now) name i) }
        ensures none { (pool : Pool) (n : Name)
            → IfNone result (IsSome (first_cause (connected_causes (context_in pool n self.now) name))) }
    {
        ends::connected(&self.ends, name).ok()
    }

    /// Why the transmission of a queue pair is refused, where it is: there is none of the name, or it is in Init.
    pub fn transmit_refusal(&self, name: Name) -> Refusal
        ensures { (pool : Pool) (n : Name) → IsSome (first_cause (connected_causes (context_in pool n self.now) name))
            → first_cause (connected_causes (context_in pool n self.now) name) ≡ Some result }
    {
        if self.ends.contains_key(&name) {
            Refusal::BadState
        } else {
            Refusal::NoSuch
        }
    }

    /// The keys of the region at a place; None where there are fewer.
    pub fn keys_at(&self, place: usize) -> Option<Keys>
        ensures { (pool : Pool) (n : Name) → result
            ≡ option_map (λ r. r.keys) (slice_get (context_in pool n self.now).regions place) }
    {
        let head = self.regions.at(place)?;
        Some(head.keys)
    }
}
