//! A clock.

ghost use Rattle.std.specs.Prelude.{ℕ, List, Option};
ghost use Rattle.host_ports.specs.Links.{TellsMoment};

/// A clock that counts ticks from a moment of its own. It never fails.
pub trait Ticks {
    // What it is to answer, call after call, where that is told; behind it 0.
    ghost to_come: { Self → Option (List ℕ) };

    /// The ticks until now.
    fn now(&mut self) -> u64
        ensures { TellsMoment (to_come self.old) (to_come self.new) result };
}
