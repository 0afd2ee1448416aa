//! The law of responses: what must hold of each kind of response that arrives at an end in Rts does hold, and so the
//! machine follows their deliveries.
//!
//! The functions do nothing. Each promises the law that it names.

ghost use Rattle.std.specs.Prelude.{Bool};
ghost use Rattle.law_simulation.specs.Packets.{IsAck, IsSequenceNak, IsRefusal, IsReceiverNotReady, IsAtomicResponse, IsReadResponse};
ghost use Rattle.law_simulation.specs.Delivered.{FollowsKind, HusksAnswer};

mod responses;

use crate::delivery::kind_follows;
pub use responses::{
    acks_are_taken, atomic_responses_are_taken, read_responses_are_taken,
    receiver_not_ready_is_taken, refusals_are_taken, sequence_naks_are_taken,
};

/// The machine follows each delivery of a response, where a husk's answer keeps the relation.
pub fn responses_follow()
    ensures acks { HusksAnswer → FollowsKind IsAck }
    ensures sequence_naks { HusksAnswer → FollowsKind IsSequenceNak }
    ensures refusals { HusksAnswer → (is_access : Bool) → FollowsKind (IsRefusal is_access) }
    ensures receiver_not_ready { HusksAnswer → FollowsKind IsReceiverNotReady }
    ensures atomic_responses { HusksAnswer → FollowsKind IsAtomicResponse }
    ensures read_responses { HusksAnswer → FollowsKind IsReadResponse }
{
    kind_follows();
    acks_are_taken();
    sequence_naks_are_taken();
    refusals_are_taken();
    receiver_not_ready_is_taken();
    atomic_responses_are_taken();
    read_responses_are_taken();
}
