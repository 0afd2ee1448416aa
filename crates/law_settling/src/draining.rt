//! The law of draining: a settling delivers what is pending until nothing is.
//!
//! The function does nothing. It promises the law that it names.

ghost use Rattle.law_settling.specs.Drained.{DrainingDrains};

/// After draining nothing is pending: a datagram is answered, its answer may be answered by a husk, and nothing answers a husk.
pub fn draining_drains()
    ensures { DrainingDrains }
{}
