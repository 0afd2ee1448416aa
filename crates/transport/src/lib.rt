//! The parts of the transport that take no memory: packet sequence numbers, how messages are cut into packets, the
//! replies that are kept for repeated atomic requests, and the state of moving.
#![tactic(auto)]

pub mod atomic_replay;
pub mod move_core;
pub mod psn_math;
pub mod segmenter;
