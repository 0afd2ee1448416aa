//! The laws of settling: it is made of events (`steps`), ends within its bound (`bound`), leaves nothing pending (`at_rest`),
//! and lists each end with untold requests with the reason that the packetless machine sees (`unfinished`).
//!
//! The other modules are the steps on the way there. The functions do nothing. Each promises the law that it names.
#![tactic(auto)]

pub mod at_rest;
pub mod bound;
pub mod completes;
pub mod draining;
pub mod lacks_receive;
pub mod own_names;
pub mod places;
pub mod sending_stops;
pub mod steps;
pub mod unfinished;
pub mod weights;
