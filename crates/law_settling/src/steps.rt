//! The laws of settling's steps: each is an event of the world, and the machine follows it.
//!
//! The functions do nothing. Each promises the law that it names.

ghost use Rattle.law_settling.specs.Settling.{SettlingFollows, SettlingFollowsByName, SettlingHasEvents, SettlingIsEvents};

use law_simulation::runs::{events_follow, runs_follow, steps_are_named};

/// Settling is made of deliveries, transmissions, expiries and ends of RNR timers.
pub fn settling_is_events()
    ensures { SettlingIsEvents }
{}

/// The machine follows each run of such events, so that the world stands for a state of it after each.
pub fn settling_follows()
    ensures { SettlingFollows }
{
    runs_follow();
    events_follow();
}

/// Settling is made of exactly the events that `settling_events` names, in their order, and the machine follows them by the steps
/// that `run_steps` names.
pub fn settling_is_named()
    ensures events { SettlingHasEvents }
    ensures follows { SettlingFollowsByName }
{
    steps_are_named();
}
