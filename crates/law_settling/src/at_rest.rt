//! The law of rest: after settling nothing is pending, and an end that is Running has nothing in flight, or waits for a receive
//! without limit.
//!
//! The functions do nothing. Each promises the law that it names.

ghost use Rattle.law_settling.specs.Rests.{SettlingRests};

use crate::bound::settling_ends;
use crate::draining::draining_drains;
use crate::steps::{settling_follows, settling_is_events};
use crate::weights::taking_lightens;
use law_simulation::runs::events_follow;

/// After settling nothing is pending. A live end that is Running and waits for its RNR timer has rnr 7, and one that does not wait
/// has nothing in flight.
pub fn settling_rests()
    ensures { SettlingRests }
{
    taking_lightens();
    events_follow();
    settling_ends();
    draining_drains();
    settling_is_events();
    settling_follows();
}
