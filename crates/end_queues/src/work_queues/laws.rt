//! What a send queue says in the words of the protocol's rules.

ghost use Rattle.std.specs.Prelude.{ℕ, List, [], ◌≡◌, ◌≢◌, ◌∷◌, ◌++◌, drop, slice_get, Option};
ghost use Rattle.std.specs.Option.{option_map};
ghost use Rattle.page_pool.specs.Pool.{Pool, Puts};
ghost use Rattle.end_queues.specs.Postings.{Queue, posting, without_front};
ghost use Rattle.end_queues.specs.declared.work_queues.posted.QueuedRequest.{QueuedRequest};
ghost use Rattle.end_queues.specs.Untold.{posted_in, untold_in};

/// The list of posted requests grows and shrinks as the queue does, and a request's bytes stay as they were posted,
/// whatever is done to the pool's other lists.
pub fn requests_stay_as_posted()
    ensures posting { (pool : Pool) (q : Queue QueuedRequest) (p : QueuedRequest)
        → untold_in pool (posting q p).items ≡ untold_in pool q.items ++ posted_in pool p ∷ [] }
    ensures telling { (pool : Pool) (q : Queue QueuedRequest)
        → untold_in pool (without_front q).items ≡ drop 1 (untold_in pool q.items) }
    ensures at { (pool : Pool) (ps : List QueuedRequest) (i : ℕ)
        → slice_get (untold_in pool ps) i ≡ option_map (posted_in pool) (slice_get ps i) }
    ensures stays { (old new : Pool) (list : ℕ) (bytes : Option (List ℕ)) (p : QueuedRequest)
        → Puts old new list bytes → p.payload.list ≢ list → posted_in new p ≡ posted_in old p }
{}
