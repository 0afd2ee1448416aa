//! One device over a real link that a supervisor drives by lines as they come, and that is served all the while (the language
//! is this project's choice).
#![tactic(auto)]

mod arriving;
mod expiring;
mod faults;
mod lines;
mod links;
mod ports;
mod printing;
mod restoring;
mod running;
mod sending;
mod showing;
mod state;
mod stepping;
mod stopping;
mod timers;
mod waiting;

pub use faults::ServeFault;
pub use ports::ServePorts;
pub use running::{ServeOptions, run_serve};
