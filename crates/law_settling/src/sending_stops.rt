//! The laws of quiet: the sends of an end in one round stop by themselves, and where nothing is sent and nothing in flight, nothing
//! is untold.
//!
//! The functions do nothing. Each promises the law that it names.

ghost use Rattle.law_settling.specs.Spares.{SendingSpares};
ghost use Rattle.law_settling.specs.Stops.{SendingStops};
ghost use Rattle.law_settling.specs.Told.{StoppedIsTold};

use crate::draining::draining_drains;
use crate::weights::taking_lightens;
use law_simulation::runs::events_follow;

/// An end sends in a round until it has nothing to send now: the limit that the definition gives it is not met.
pub fn sending_stops()
    ensures { SendingStops }
{
    draining_drains();
    taking_lightens();
    events_follow();
}

/// An end that runs, does not wait for its RNR timer, has nothing in flight and now sends nothing has no untold request.
pub fn stopped_is_told()
    ensures { StoppedIsTold }
{}

/// Where an end sends a piece and what comes of it is drained, every other end keeps its requester, or goes to Error, or is Paused.
pub fn sending_spares()
    ensures { SendingSpares }
{
    taking_lightens();
    events_follow();
}
