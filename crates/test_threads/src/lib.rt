//! Tests of threads over shared devices.
#![tactic(auto)]

pub mod fanout;
pub mod runs_in_threads;
