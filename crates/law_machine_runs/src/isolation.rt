//! Isolation: what a context holds is changed only by its owner and by its own connections; its memory by a partner only where a key
//! grants it.
//!
//! In each run of the packetless machine a byte of a region changes only so:
//!
//! - its owner stores there, or makes or drops the region;
//! - a message that its owner awaits lands: the answer to its own READ or atomic, or a SEND in a receive that it posted;
//! - a partner's WRITE or atomic acts on it, and at that step the request's remote key, the region's domain, rights and addresses grant
//!   the request its whole range, with that byte.
//!
//! A queue pair changes only by its owner's verbs and by steps of its connection, a completion queue with the queue pairs that complete
//! there, and all else only by verbs. After any run of a world, with losses and moves, an event changes what contexts hold only by the
//! machine's steps at that event. How far bytes reach that arrive at a device, `law_arrivals` says.
//!
//! The functions do nothing. Each promises the law that it names.

ghost use Rattle.law_machine_runs.specs.Isolation.{OnlyOwnersChange, RunsAreIsolated, WorldsAreIsolated};

use law_simulation::runs::{law_holds, steps_are_named};

/// In each run of the machine a step leaves what contexts hold as it is, but for what it may change. A byte of a region changes only
/// by a verb of its owner, by what lands for work that its owner posted, or by a partner's request whose key and rights grant that byte
/// at that step. A queue pair changes only by its owner's verbs and by the steps of its connection, a completion queue by verbs of its
/// owner and with queue pairs that complete there, and all else only by verbs of its owner.
pub fn runs_are_isolated()
    ensures run { RunsAreIsolated }
    ensures owners { OnlyOwnersChange }
{}

/// The same of worlds with devices, packets, losses and moves: after any run of a world, an event leaves what contexts hold as it is,
/// wherever they are, but for what the machine's steps at this event may change.
pub fn worlds_are_isolated()
    ensures { WorldsAreIsolated }
{
    law_holds();
    steps_are_named();
}
