//! The record of a run as text: how it is written, and its audit by the packetless machine.
#![tactic(auto)]

pub mod trace_audit;
pub mod trace_writer;
