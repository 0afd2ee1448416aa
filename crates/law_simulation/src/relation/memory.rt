//! The law of memory.

ghost use Rattle.std.specs.Prelude.{ℕ, List};
ghost use Rattle.rdma_types.specs.declared.names.ObjName.{ObjName};
ghost use Rattle.protocol.specs.declared.events.Event.TheVariants.{DropRegion, Store, Load};
ghost use Rattle.protocol.specs.declared.events.WorldEvent.TheVariants.{At};
ghost use Rattle.law_simulation.specs.Law.{AlwaysFollows};

/// The machine follows an owner's writes and reads of its regions, and the dropping of one.
pub fn memory_follows()
    ensures store { (o : ObjName) (address : ℕ) (bytes : List ℕ)
        → AlwaysFollows (At (Store o address bytes)) }
    ensures load { (o : ObjName) (address length : ℕ) → AlwaysFollows (At (Load o address length)) }
    ensures drop { (o : ObjName) → AlwaysFollows (At (DropRegion o)) }
{}
