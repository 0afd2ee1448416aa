//! Worked examples of nodes: scripts evaluated by the prover, and runs over links in memory.
#![tactic(auto)]

pub mod composition;
pub mod plans;
pub mod runs;
