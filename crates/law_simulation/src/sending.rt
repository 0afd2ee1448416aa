//! The law between the packet protocol and the packetless machine, for what a requester does by itself: it transmits, and
//! counts expiries.
//!
//! The functions have no code. Each promises the law for the events that it names.

ghost use Rattle.rdma_types.specs.declared.names.ObjName.{ObjName};
ghost use Rattle.protocol.specs.State.{empty_world};
ghost use Rattle.protocol.specs.declared.events.Event.TheVariants.{Transmit};
ghost use Rattle.protocol.specs.declared.events.WorldEvent.TheVariants.{At};
ghost use Rattle.packetless_machine.specs.Machine.{empty};
ghost use Rattle.law_simulation.specs.Law.{Follows};

mod sending;

use crate::relation::{network_follows, starts};
pub use sending::sending_follows;

// How a crate above uses the law: it calls the functions, and cites what they promise.
fn first_transmission_follows()
    ensures { (o : ObjName) → Follows empty_world empty (At (Transmit o)) }
{
    starts();
    network_follows();
    sending_follows();
}
