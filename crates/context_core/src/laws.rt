//! What contexts of one device are to each other.

ghost use Rattle.std.specs.Prelude.{ℕ, ◌≡◌, [], Contains};
ghost use Rattle.rdma_types.specs.declared.names.Name.{Name};
ghost use Rattle.page_pool.specs.Pool.{Pool, IsIn, bytes_of};
ghost use Rattle.protocol.specs.Memory.{pages_of_context};
ghost use Rattle.context_core.specs.Context.{Holding, IsContext, context_in, lists_of, no_holding};

/// A context is the same over two pools in which its own lists have the same bytes; its lists live in the pool; its name is
/// that of its device, and its pages are the same under each.
pub fn a_context_looks_at_its_own_lists()
    ensures same { (old new : Pool) (h : Holding) (n : Name) → ((list : ℕ) → Contains (lists_of h) list → bytes_of new list ≡ bytes_of old list)
        → context_in new n h ≡ context_in old n h }
    ensures stays { (old new : Pool) (h : Holding) → ((list : ℕ) → Contains (lists_of h) list → bytes_of new list ≡ bytes_of old list)
        → IsContext old h → IsContext new h }
    ensures lives { (pool : Pool) (h : Holding) (list : ℕ) → IsContext pool h
        → Contains (lists_of h) list → IsIn pool list }
    ensures name { (pool : Pool) (h : Holding) (n : Name) → (context_in pool n h).name ≡ n }
    ensures nothing { lists_of no_holding ≡ [] }
    ensures pages { (pool : Pool) (h : Holding) (n other : Name)
        → pages_of_context (context_in pool n h) ≡ pages_of_context (context_in pool other h) }
{}
