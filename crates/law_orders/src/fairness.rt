//! What the test of an order answers.

ghost use Rattle.std.specs.Prelude.{◌≡◌, ◌↔◌, IsTrue};
ghost use Rattle.law_orders.specs.declared.fairness.Fairness.TheVariants.{Fair};

/// Why a step makes an order unfair.
#[derive(Clone, Copy, Debug, PartialEq, Eq)]
pub enum UnfairCause {
    /// Threads may not ask for the event: it connects one end alone, or a field is out of its range.
    NotAskable,
    /// No device takes the posted request: a field that its kind does not use is set, or an atomic has another length than 8.
    Unlawful,
    /// A verb is asked of a device where its context neither lives nor left a husk.
    NotAtHome,
    /// A stop is made while the partner of one of the context's ends is carried or Resuming.
    PartnerMoves,
    /// Every datagram that may have arrived is more than 2^22 packet numbers late.
    TooLate,
    /// A context is made whose name another has, on a device or carried.
    NameTaken,
}

/// Whether an order is fair.
#[derive(Clone, Copy, Debug, PartialEq, Eq)]
pub enum Fairness {
    Fair,
    /// The first step that is not fair: its place in the order, counted from 0, and the first cause.
    Unfair { cause: UnfairCause, place: u64 },
}

impl Fairness {
    /// Whether the order is fair.
    pub fn is_fair(self) -> bool
        ensures { IsTrue result ↔ (self ≡ Fair) }
    {
        matches!(self, Fairness::Fair)
    }
}
