//! One device over a real link: a script of a node is read line after line, and each line is answered before the next one is
//! read (the language is this project's choice).
#![tactic(auto)]

mod activity;
mod faults;
mod lines;
mod ports;
mod running;
mod state;
mod stepping;
mod turns;

pub use faults::NodeFault;
pub use ports::NodePorts;
pub use running::run_node;
