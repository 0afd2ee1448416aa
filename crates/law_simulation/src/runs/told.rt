//! Requests are finished for their owner in the order of their posting.

ghost use Rattle.law_simulation.specs.Told.{TellsByOne};

/// At the machine the requests of a queue pair are finished for their owner one after the other, in the order of posting and each
/// once, until it fails, and then all are: a step leaves the count of those that are finished, or finishes the next one.
pub fn requests_are_told_in_order()
    ensures { TellsByOne }
{}
