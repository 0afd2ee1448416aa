//! The law of telling: after settling an end that is Running and does not wait for a receive has no untold request.
//!
//! The functions do nothing. Each promises the law that it names.

ghost use Rattle.law_settling.specs.Tells.{SettlingTells};

use crate::at_rest::settling_rests;
use crate::bound::settling_ends;
use crate::draining::draining_drains;
use crate::sending_stops::{sending_spares, sending_stops, stopped_is_told};
use crate::weights::taking_lightens;
use law_simulation::runs::events_follow;

/// After settling a live end that is Running and does not wait for its RNR timer has no untold request.
pub fn settling_tells()
    ensures { SettlingTells }
{
    taking_lightens();
    events_follow();
    draining_drains();
    settling_ends();
    settling_rests();
    sending_stops();
    sending_spares();
    stopped_is_told();
}
