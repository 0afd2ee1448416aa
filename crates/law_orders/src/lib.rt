//! Fair orders of the steps of devices are legal for the packetless machine, whatever devices they begin with; and which orders
//! are fair, as a test of each step that tells which step is not and why (this project's choice).
//!
//! The functions of laws do nothing. Each promises the law that it names; one is that the test is exact. Other functions decide those
//! parts of the test that an event alone tells.
#![tactic(auto)]

mod asked;
mod exactness;
mod fairness;

ghost use Rattle.order_rules.specs.AnyOpening.{AnyFairOrderIsLegal, AnyFairOrderLeadsOn, AnyShortOrderIsARun, PreparedOrdersAreLegal, PreparedWorldsAreOpenings};
ghost use Rattle.order_rules.specs.Bridge.{FairOrdersAreLegal, ShortOrdersAreRuns, WorkIsFair};

pub use asked::{is_askable, is_lawfully_posted};
pub use exactness::{askable_is_tested, fair_runs_are_legal, fairness_is_exact};
pub use fairness::{Fairness, UnfairCause};
use law_simulation::runs::{events_follow, law_holds, runs_follow};
use order_rules::{copies_stand, devices_open_apart};

/// Each fair order leads on from any opening, however long it is: the packetless machine goes on by a run in which applications
/// hear the same, and the devices after the order are an opening again, if every stopped context was restored.
pub fn any_fair_order_leads_on()
    ensures { AnyFairOrderLeadsOn }
{
    events_follow();
    runs_follow();
    copies_stand();
}

/// Each fair order is legal, however long it is and whatever opening it begins with: what applications make and hear in it, the
/// packetless machine may make and answer from the state that the opening stands for.
pub fn any_fair_order_is_legal()
    ensures { AnyFairOrderIsLegal }
{
    any_fair_order_leads_on();
}

/// A fair order from any opening that has sent nothing, in which at most 16,384 datagrams are sent, is a run of world events: it
/// leads to the devices and the carried images of that world, and applications hear the same.
pub fn any_short_order_is_a_run()
    ensures { AnyShortOrderIsARun }
{
    events_follow();
    runs_follow();
    copies_stand();
}

/// Whatever devices, contexts, regions, queues and connections are prepared, they are an opening.
pub fn prepared_worlds_are_openings()
    ensures { PreparedWorldsAreOpenings }
{
    law_holds();
}

/// Each fair order of prepared devices is legal, with what was heard while they were prepared before it.
pub fn prepared_orders_are_legal()
    ensures { PreparedOrdersAreLegal }
{
    prepared_worlds_are_openings();
    any_fair_order_is_legal();
}

/// Each fair order of the built-in opening is legal, however long it is: what applications make and hear in it, the packetless
/// machine may make and answer.
pub fn fair_orders_are_legal()
    ensures { FairOrdersAreLegal }
{
    prepared_orders_are_legal();
}

/// An order of additions and polls at one context and of moves of the other is fair, if at most 2^22 additions are accepted.
pub fn work_is_fair()
    ensures { WorkIsFair }
{
    events_follow();
    runs_follow();
    copies_stand();
    devices_open_apart();
    prepared_worlds_are_openings();
}

/// A fair order of the built-in opening in which at most 16,384 datagrams are sent is a run of world events: it leads to the
/// devices and the carried images of that world, and applications hear the same.
pub fn short_orders_are_runs()
    ensures { ShortOrdersAreRuns }
{
    prepared_worlds_are_openings();
    any_short_order_is_a_run();
}
