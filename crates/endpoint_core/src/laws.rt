//! What an end reserves and keeps, in the words of the protocol's rules.

ghost use Rattle.std.specs.Prelude.{◌≡◌, ℕ, List, Some, All, bytes_eq, slice_get};
ghost use Rattle.std.specs.List.{IsDistinct};
ghost use Rattle.std.specs.Map.{keys_of};
ghost use Rattle.rdma_types.specs.declared.names.Name.{Name};
ghost use Rattle.page_pool.specs.Pool.{Pool, bytes_of};
ghost use Rattle.end_queues.specs.Completions.{Queue};
ghost use Rattle.memory_keys.specs.declared.RegisteredRegion.{RegisteredRegion};
ghost use Rattle.protocol.specs.Refusals.{reserved_by};
ghost use Rattle.endpoint_core.specs.declared.end.Endpoint.{Endpoint};
ghost use Rattle.endpoint_core.specs.Ends.{Names, end_in, untold_by};
ghost use Rattle.endpoint_core.specs.Queues.{StandsAt, promised};
ghost use Rattle.endpoint_core.specs.Sound.{IsEnd};

/// The places that an end's work is promised in a queue are those that the protocol reserves for it there, where no two
/// queues have a name.
pub fn reservations_are_the_protocols()
    ensures { (queues : List (Name × Queue)) (names : Names) (send recv : ℕ) → IsDistinct bytes_eq (keys_of queues)
        → StandsAt queues names.send_cq send → StandsAt queues names.recv_cq recv
        → (pool : Pool) (e : Endpoint) (place : ℕ) (name : Name) → slice_get (keys_of queues) place ≡ Some name
        → reserved_by name (end_in pool names e) ≡ promised send recv e place }
{}

/// An end whose requests' payloads are as they were in another pool is the same end there, in the protocol's words too.
pub fn an_end_stays()
    ensures sound { (old new : Pool) (held : List RegisteredRegion) (e : Endpoint) → All (λ p. bytes_of new p.payload.list ≡ bytes_of old p.payload.list) (untold_by e.link)
        → IsEnd old held e → IsEnd new held e }
    ensures same { (old new : Pool) (names : Names) (e : Endpoint) → All (λ p. bytes_of new p.payload.list ≡ bytes_of old p.payload.list) (untold_by e.link)
        → end_in new names e ≡ end_in old names e }
{}
