//! The law of transmitting, of expiries, and of the timer of a receiver that was not ready.

ghost use Rattle.rdma_types.specs.declared.names.ObjName.{ObjName};
ghost use Rattle.protocol.specs.declared.events.Event.TheVariants.{Transmit, Expire, RnrOver};
ghost use Rattle.protocol.specs.declared.events.WorldEvent.TheVariants.{At};
ghost use Rattle.law_simulation.specs.Law.{AlwaysFollows};

/// The machine follows a transmission by no step, whatever is sent or not sent; an expiry by one step where it is counted,
/// and by none else; and the end of the timer of a receiver that was not ready by no step.
pub fn sending_follows()
    ensures transmit { (o : ObjName) → AlwaysFollows (At (Transmit o)) }
    ensures expire { (o : ObjName) → AlwaysFollows (At (Expire o)) }
    ensures rnr_over { (o : ObjName) → AlwaysFollows (At (RnrOver o)) }
{}
