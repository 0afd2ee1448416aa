//! A script is played and recorded, with the packetless machine beside the world.
#![tactic(auto)]

pub mod recorder;
pub mod trace_steps;
