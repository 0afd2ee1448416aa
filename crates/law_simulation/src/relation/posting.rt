//! The law of posting and polling.

ghost use Rattle.std.specs.Prelude.{ℕ};
ghost use Rattle.rdma_types.specs.declared.names.ObjName.{ObjName};
ghost use Rattle.rdma_types.specs.declared.requests.Receive.{Receive};
ghost use Rattle.rdma_types.specs.declared.requests.Request.{Request};
ghost use Rattle.protocol.specs.declared.events.Event.TheVariants.{PostSend, PostRecv, Poll};
ghost use Rattle.protocol.specs.declared.events.WorldEvent.TheVariants.{At};
ghost use Rattle.law_simulation.specs.Law.{AlwaysFollows};

/// The machine follows the posting of requests and of receives, and polls.
pub fn posting_follows()
    ensures send { (o : ObjName) (request : Request) → AlwaysFollows (At (PostSend o request)) }
    ensures receive { (o : ObjName) (receive : Receive) → AlwaysFollows (At (PostRecv o receive)) }
    ensures poll { (o : ObjName) (most : ℕ) → AlwaysFollows (At (Poll o most)) }
{}
