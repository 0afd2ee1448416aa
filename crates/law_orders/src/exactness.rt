//! What the tests of the definitions say. The functions do nothing; each promises the law that it names.

ghost use Rattle.law_orders.specs.Asked.{AskableIsTested};
ghost use Rattle.law_orders.specs.Fairness.{FairRunsAreLegal, FairnessIsExact};

use crate::{any_fair_order_is_legal, prepared_orders_are_legal};

/// An event passes the test exactly where threads may ask for it.
pub fn askable_is_tested()
    ensures { AskableIsTested }
{}

/// A world order has the answer `Fair` exactly where it is fair and its requests are lawful, and else that of its first line that
/// is not.
pub fn fairness_is_exact()
    ensures { FairnessIsExact }
{
    askable_is_tested();
}

/// What applications make and hear in a world order that has the answer `Fair` is legal for the packetless machine, from each state
/// that its opening stands for, and after each list of events that prepares it.
pub fn fair_runs_are_legal()
    ensures { FairRunsAreLegal }
{
    fairness_is_exact();
    any_fair_order_is_legal();
    prepared_orders_are_legal();
}
