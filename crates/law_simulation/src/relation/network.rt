//! The law of the network's store.

ghost use Rattle.std.specs.Prelude.{ℕ};
ghost use Rattle.protocol.specs.declared.events.WorldEvent.TheVariants.{Lose, Wire};
ghost use Rattle.law_simulation.specs.Law.{AlwaysFollows};

/// The machine follows the loss of a datagram, and a look at one: it makes no step.
pub fn network_follows()
    ensures lose { (k : ℕ) → AlwaysFollows (Lose k) }
    ensures wire { (k : ℕ) → AlwaysFollows (Wire k) }
{}
