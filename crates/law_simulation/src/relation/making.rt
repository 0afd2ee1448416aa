//! The law of the start, and of events that make and connect things.

ghost use Rattle.std.specs.Prelude.{ℕ, Option};
ghost use Rattle.rdma_types.specs.declared.names.Name.{Name};
ghost use Rattle.rdma_types.specs.declared.names.ObjName.{ObjName};
ghost use Rattle.rdma_types.specs.declared.requests.Address.{Address};
ghost use Rattle.rdma_types.specs.declared.requests.Terms.{Terms};
ghost use Rattle.rdma_types.specs.declared.rights.Rights.{Rights};
ghost use Rattle.protocol.specs.State.{empty_world};
ghost use Rattle.protocol.specs.declared.events.Event.TheVariants.{MakeDomain, MakeRegion, MakeCq, MakeQp};
ghost use Rattle.protocol.specs.declared.events.WorldEvent.TheVariants.{AddDevice, At, Connect, MakeContext};
ghost use Rattle.packetless_machine.specs.Machine.{empty};
ghost use Rattle.law_simulation.specs.Stands.{Stands};
ghost use Rattle.law_simulation.specs.Law.{AlwaysFollows};

/// The empty world stands for the empty machine.
pub fn starts()
    ensures { Stands empty_world empty }
{}

/// The machine follows the making of devices, contexts, domains, regions, completion queues and queue pairs, and the
/// connecting of two queue pairs.
pub fn making_follows()
    ensures device { (id : ℕ) (address : Address) → AlwaysFollows (AddDevice id address) }
    ensures context { (name : Name) (device : ℕ) → AlwaysFollows (MakeContext name device) }
    ensures domain { (o : ObjName) → AlwaysFollows (At (MakeDomain o)) }
    ensures region { (o : ObjName) (domain : Option Name) (base length : ℕ) (rights : Rights)
        → AlwaysFollows (At (MakeRegion o domain base length rights)) }
    ensures queue { (o : ObjName) (capacity : ℕ) → AlwaysFollows (At (MakeCq o capacity)) }
    ensures queue_pair { (o : ObjName) (domain send_cq recv_cq : Option Name)
        (send_depth recv_depth : ℕ)
        → AlwaysFollows (At (MakeQp o domain send_cq recv_cq send_depth recv_depth)) }
    ensures connect { (one two : ObjName) (terms : Terms) → AlwaysFollows (Connect one two terms) }
{}
