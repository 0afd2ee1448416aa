//! The law of what is waited for: after settling an end that runs and waits for its RNR timer lacks a receive at its partner.
//!
//! The functions do nothing. Each promises the law that it names.

ghost use Rattle.law_settling.specs.Wants.{SettlingWants};

use crate::at_rest::settling_rests;
use crate::bound::settling_ends;
use crate::draining::draining_drains;
use crate::weights::taking_lightens;
use law_simulation::runs::events_follow;

/// After settling an end that runs and waits for its RNR timer has rnr 7, and its first untold request is current, needs a receive
/// and finds none unused at its partner.
pub fn settling_wants()
    ensures { SettlingWants }
{
    taking_lightens();
    events_follow();
    settling_ends();
    draining_drains();
    settling_rests();
}
