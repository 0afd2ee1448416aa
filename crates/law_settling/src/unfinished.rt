//! The law of what is left: after settling the world is quiet, and the protocol's list of unfinished ends tells why.
//!
//! The function does nothing. It promises the law that it names.

ghost use Rattle.law_settling.specs.Leaves.{SettlingLeaves};

use crate::at_rest::settling_rests;
use crate::completes::settling_tells;
use crate::lacks_receive::settling_wants;

/// After settling a world whose carried images keep the rules, no datagram is pending, and each end with untold requests is listed
/// once, in order, with the first reason that holds: its context is carried, it is Paused, it is Resuming, or it lacks a receive.
pub fn settling_leaves()
    ensures { SettlingLeaves }
{
    settling_rests();
    settling_tells();
    settling_wants();
}
