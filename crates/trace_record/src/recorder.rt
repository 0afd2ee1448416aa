//! The record of a run: a script is played in a world, and the packetless machine follows it beside the world (this
//! project's choice).
//!
//! [`record_trace`] writes each verb that counts as made, with its answer, and each inner step of the machine where it
//! happens. The audit of a trace needs the machine alone.

mod arrivals;
mod events;
mod lines;
mod recording;
mod verbs;

pub use recording::record_trace;
