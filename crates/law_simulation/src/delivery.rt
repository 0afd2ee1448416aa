//! The law of deliveries: the machine follows each delivery of a datagram, where it follows each kind of datagram at the
//! ends that live in Rts. `specs/Delivered.antt` says what must hold of each kind.
//!
//! The functions have no code. Each promises the law that it names.

ghost use Rattle.std.specs.Prelude.{ℕ};
ghost use Rattle.protocol.specs.declared.events.WorldEvent.TheVariants.{Deliver};
ghost use Rattle.law_simulation.specs.Packets.{Class, IsAck};
ghost use Rattle.law_simulation.specs.Named.{AlwaysFollowsByName};
ghost use Rattle.law_simulation.specs.Delivered.{FollowsAway, FollowsKind, HusksAnswer, IsOwed, AreAllTaken};

/// The machine follows a delivery that brings nothing, since the datagram is gone, lost or aged: it makes no step.
pub fn away_follows()
    ensures { FollowsAway }
{}

/// The machine follows each delivery of a datagram of one kind, where it follows that kind at each end that lives in Rts,
/// and a husk's answer keeps the relation. It makes no step where no device has the address, no end there has the number,
/// or the end is in Error.
pub fn kind_follows()
    ensures { (c : Class) → HusksAnswer → IsOwed c → FollowsKind c }
{}

/// The machine follows each delivery by the steps that are named, where it follows each kind of datagram.
pub fn deliveries_follow()
    ensures { AreAllTaken → (k : ℕ) → AlwaysFollowsByName (Deliver k) }
{}

// How a crate above uses the law: it calls the function, and cites what it promises.
fn acks_follow()
    ensures { HusksAnswer → IsOwed IsAck → FollowsKind IsAck }
{
    kind_follows();
}
