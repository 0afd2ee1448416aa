//! One device over a real link: what a script of a node asks of the outside, call after call, and what its runs leave.
//!
//! The functions do nothing. Each promises the law that it names.
#![tactic(auto)]

ghost use Rattle.node_rules.specs.Laws.{CallsGoOn, TurnsAreEvents, WholeRunsAreTheFunction};

/// Where link, depot, clock and output tell what they hold, the calls of a plan leave what the function says: also the calls
/// before one that is refused, from which the rest of the plan goes where the whole was going.
pub fn what_is_told_decides_a_run()
    ensures calls { CallsGoOn }
    ensures whole { WholeRunsAreTheFunction }
{}

/// What turns of serving do to the device is a list of arrivals, transmissions, expiries and ends of RNR timers.
pub fn turns_are_events()
    ensures { TurnsAreEvents }
{}
