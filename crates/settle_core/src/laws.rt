//! What every settling leaves, by the laws of settling.

ghost use Rattle.std.specs.Prelude.{All};
ghost use Rattle.protocol.specs.Lawful.{IsLawful};
ghost use Rattle.protocol.specs.State.{World};
ghost use Rattle.settle_core.specs.Quieted.{IsQuieted};
ghost use Rattle.world_core.specs.Settled.{IsSettled};
ghost use Rattle.world_core.specs.declared.settling.Quiet.{Quiet};

use law_settling::steps::settling_is_named;
use law_settling::unfinished::settling_leaves;

/// What a `Settler` leaves, whichever it is, is quiet, where the carried images keep the rules: the packetless machine follows
/// the settling of each whole world whose last datagrams the old one keeps, event by event and by exactly the steps that are named; nothing is pending; and each end with untold
/// requests is listed once, in order, with the first reason that holds.
pub fn settled_worlds_are_quiet()
    ensures { (old new : World) (q : Quiet) → All IsLawful old.carried → IsSettled old new q
        → IsQuieted old new q.unfinished }
{
    settling_leaves();
    settling_is_named();
}
