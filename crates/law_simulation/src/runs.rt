//! The laws of whole runs: where the machine follows each event, it follows each list of events, and what applications hear in
//! it is legal.
//!
//! The functions do nothing. Each promises the law that it names.

ghost use Rattle.law_simulation.specs.Delivered.{AreAllTaken, RequestsAreTaken};
ghost use Rattle.protocol.specs.declared.events.WorldEvent.{WorldEvent};
ghost use Rattle.law_simulation.specs.Law.{AlwaysFollows, Law};
ghost use Rattle.law_simulation.specs.Named.{EventsFollowByName, NamedIsMore, RunsFollowByName};
ghost use Rattle.law_simulation.specs.Runs.{IsHeardLegal, RunsFollow};

mod once;
mod spent;
mod told;
mod unseen;

use crate::atomics::{atomics_are_taken, repeated_atomics_are_answered};
use crate::delivery::deliveries_follow;
use crate::move_messages::{husks_answer, messages_are_taken};
use crate::refusals::idle_turns_are_taken;
use crate::relation::{making_follows, memory_follows, network_follows, posting_follows, starts};
use crate::repeated_reads::rereads_are_taken;
use crate::requests::{
    early_requests_are_taken, reads_have_their_turn, sends_are_taken, writes_are_taken,
};
use crate::responses::{
    acks_are_taken, atomic_responses_are_taken, read_responses_are_taken,
    receiver_not_ready_is_taken, refusals_are_taken, sequence_naks_are_taken,
};
use crate::sending::sending_follows;
use crate::stop_restore::{release_follows, restore_follows, stop_follows};
pub use once::requests_act_once;
pub use spent::limits_are_spent;
pub use told::requests_are_told_in_order;
pub use unseen::unseen_changes_nothing;

/// The machine follows each run of events that it always follows, and what applications hear in a run that it follows from the
/// empty world on is legal.
pub fn runs_follow()
    ensures run { RunsFollow }
    ensures heard { IsHeardLegal }
{}

/// The machine follows each request that arrives at an end in Rts: the expected one by the step that acts on it, by its refusal,
/// or by Dry; a repeat, and one that is ahead, as their answers say; and none where the end is Paused.
pub fn requests_are_taken()
    ensures { RequestsAreTaken }
{
    early_requests_are_taken();
    writes_are_taken();
    sends_are_taken();
    reads_have_their_turn();
    rereads_are_taken();
    atomics_are_taken();
    repeated_atomics_are_answered();
    idle_turns_are_taken();
}

/// The machine follows each datagram of any kind that arrives at an end in Rts, and a husk's answer keeps the relation.
pub fn datagrams_are_taken()
    ensures { AreAllTaken }
{
    requests_are_taken();
    husks_answer();
    messages_are_taken();
    acks_are_taken();
    sequence_naks_are_taken();
    refusals_are_taken();
    receiver_not_ready_is_taken();
    atomic_responses_are_taken();
    read_responses_are_taken();
}

/// The machine always follows each event: every verb, every transmission, expiry and timer, every loss, stop, restore and
/// release, and the delivery of every datagram that was ever sent.
pub fn events_follow()
    ensures { (e : WorldEvent) → AlwaysFollows e }
{
    making_follows();
    memory_follows();
    network_follows();
    posting_follows();
    sending_follows();
    stop_follows();
    restore_follows();
    release_follows();
    deliveries_follow();
    datagrams_are_taken();
}

/// The whole law: the empty world stands for the empty machine; the machine follows each event in range, from any world that
/// stands, and so each run; and what applications hear in a run is legal.
pub fn law_holds()
    ensures { Law }
{
    starts();
    runs_follow();
    events_follow();
}

/// The steps have names: at each event in range, from any world that stands, the machine follows by exactly the steps that
/// `event_steps` gives, and so it follows each run by `run_steps`. To follow by the named steps is more than to follow.
pub fn steps_are_named()
    ensures events { EventsFollowByName }
    ensures runs { RunsFollowByName }
    ensures more { NamedIsMore }
{
    events_follow();
    deliveries_follow();
    datagrams_are_taken();
}
