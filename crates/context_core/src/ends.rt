//! The queue pairs of a context, found by their names.

ghost use Rattle.std.specs.Prelude.{◌≡◌, ◌<◌, ◌++◌, ◌∷◌, List, [], None, Some, IfOk, IfSome, IsSome, bytes_eq, length, map, position, slice_get};
ghost use Rattle.std.specs.Map.{keys_of, lookup};
ghost use Rattle.std.specs.Result.{result_err};
ghost use Rattle.indexmap.specs.IndexMap.{spare};
ghost use Rattle.rdma_types.specs.Causes.{first_cause};
ghost use Rattle.rdma_types.specs.declared.names.Name.{Name};
ghost use Rattle.page_pool.specs.Pool.{Pool};
ghost use Rattle.end_queues.specs.Completions.{Queue};
ghost use Rattle.protocol.specs.Refusals.{connected_causes};
ghost use Rattle.protocol.specs.State.{Context};
ghost use Rattle.context_core.specs.Causes.{connect_causes};
ghost use Rattle.context_core.specs.Context.{end_of};

use crate::EndSlot;
use indexmap::IndexMap;
use rdma_types::{Name, Refusal};

/// The place of a connected queue pair. Errors: `NoSuch` where no queue pair has the name, and `BadState` where it is
/// in Init.
pub fn connected(ends: &IndexMap<Name, EndSlot>, name: Name) -> Result<usize, Refusal>
    ensures refused { (pool : Pool) (queues : List (Name × Queue)) (c : Context) → c.ends ≡ map (end_of pool queues) ends.now.entries
        → result_err result ≡ first_cause (connected_causes c name) }
    ensures place { IfOk result (λ i. position (bytes_eq name) (keys_of ends.now.entries)
        ≡ Some i) }
    ensures there { IfOk result (λ i. i < length ends.now.entries) }
    ensures linked { IfOk result (λ i. IfSome (slice_get ends.now.entries i)
        (λ e. IsSome e.1.endpoint.link)) }
{
    let Some(place) = ends.get_index_of(&name) else {
        return Err(Refusal::NoSuch);
    };
    let (_, slot) = ends.get_index(place).unwrap();
    if slot.endpoint.link.is_none() {
        return Err(Refusal::BadState);
    }
    Ok(place)
}

/// The place of a queue pair in Init. Errors: `NoSuch` where no queue pair has the name, and `BadState` where it is
/// connected.
pub fn unconnected(ends: &IndexMap<Name, EndSlot>, name: Name) -> Result<usize, Refusal>
    ensures refused { (pool : Pool) (queues : List (Name × Queue)) (c : Context) → c.ends ≡ map (end_of pool queues) ends.now.entries
        → result_err result ≡ first_cause (connect_causes c name) }
    ensures place { IfOk result (λ i. position (bytes_eq name) (keys_of ends.now.entries)
        ≡ Some i) }
    ensures there { IfOk result (λ i. i < length ends.now.entries) }
    ensures init { IfOk result (λ i. IfSome (slice_get ends.now.entries i) (λ e. e.1.endpoint.link
        ≡ None)) }
{
    let Some(place) = ends.get_index_of(&name) else {
        return Err(Refusal::NoSuch);
    };
    let (_, slot) = ends.get_index(place).unwrap();
    if slot.endpoint.link.is_some() {
        return Err(Refusal::BadState);
    }
    Ok(place)
}

/// Puts a queue pair of a new name behind the others, in room that is kept for it. It takes no memory.
pub fn append(ends: &mut IndexMap<Name, EndSlot>, name: Name, slot: EndSlot)
    requires absent { lookup (bytes_eq name) ends.old.entries ≡ None }
    requires room { 0 < spare ends.old }
    ensures { ends.new.entries ≡ ends.old.entries ++ (name, slot) ∷ [] }
{
    ends.insert(name, slot).unwrap();
}
