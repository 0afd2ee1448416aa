//! Runs of threads that were planned, and the check that a run is as planned (this project's choice).
#![tactic(auto)]

mod adding;
mod additions;
mod completing;
mod findings;
mod opening;
mod plan;
mod planned;
mod tallies;
mod working;

pub use additions::addition;
pub use plan::{PlanFault, ThreadPlan};
pub use planned::planned_run;
