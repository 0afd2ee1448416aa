//! The law of settling's bound: settling ends, by a round in which nothing changed and no timer or expiry was stepped, within 32
//! rounds for each unit of its load.
//!
//! The functions do nothing. Each promises the law that it names.

ghost use Rattle.law_settling.specs.Ends.{SettlingEnds};

use crate::draining::draining_drains;
use crate::weights::taking_lightens;
use law_simulation::runs::events_follow;

/// Settling ends within its bound, by the first round in which nothing changed and nothing was stepped.
pub fn settling_ends()
    ensures { SettlingEnds }
{
    draining_drains();
    taking_lightens();
    events_follow();
}
