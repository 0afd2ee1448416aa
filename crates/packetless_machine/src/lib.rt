//! The packetless machine: contexts, memory and connected ends, with no packets, devices or addresses.
#![tactic(auto)]

mod acts;
mod answers;
mod context;
mod end;
mod kinds;
mod machine;
mod mark;
mod named;
mod numbers;
mod owner;
mod passed;
mod posted;
mod queue;
mod reading;
mod refusals;
mod region;
mod reply;
mod step;
mod steps;
mod turns;
mod verbs;
mod work;

pub use machine::PacketlessMachine;
pub use reply::Reply;
pub use steps::{IdealFault, MachineStep};
