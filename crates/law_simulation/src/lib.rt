//! The law between the packet protocol and the packetless machine: whatever happens to a world of packets, the machine
//! makes steps that bring it to a state that the world stands for, and hears what the applications hear.
//!
//! `relation` has the relation itself, and the events that move no datagram. A module stands for each other kind of event,
//! and `runs` puts them together: `events_follow`, `runs_follow`, `law_holds`. The functions do nothing. Each promises the
//! law that it names.
#![tactic(auto)]

pub mod atomics;
pub mod delivery;
pub mod move_messages;
pub mod refusals;
pub mod relation;
pub mod repeated_reads;
pub mod requests;
pub mod responses;
pub mod runs;
pub mod sending;
pub mod stop_restore;
