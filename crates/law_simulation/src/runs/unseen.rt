//! What moves, the network and a requester's own clock do not change.

ghost use Rattle.law_simulation.specs.Unseen.{UnseenChangesNothing};

use crate::runs::law_holds;

/// In each run, a stop, a restore or a release, a loss, a look at a datagram, a transmission and the end of an RNR timer change
/// nothing that an owner has: no byte of memory, no completion, no receive, and no request.
pub fn unseen_changes_nothing()
    ensures { UnseenChangesNothing }
{
    law_holds();
}
