//! Worked examples of the packetless machine, of the written protocol, of the relation between both, and of emptying,
//! evaluated by the prover.
#![tactic(auto)]

pub mod evacuation;
pub mod machine;
pub mod orders;
pub mod protocol_runs;
pub mod relation;
