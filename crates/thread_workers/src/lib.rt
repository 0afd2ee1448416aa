//! Runs of workers that add to one word while its context moves: by threads, or by one caller (this project's choice).
#![tactic(auto)]

mod alone;
mod events;
mod gate;
mod hand;
mod moving;
mod site;
mod threads;
mod working;

pub use alone::run_alone;
pub use events::{StepEffect, polls};
pub use gate::{FreeGate, Gate};
pub use hand::Stepper;
pub use run_check::Run;
pub use site::SharedDevices;
pub use thread_plan::{PlanFault, ThreadPlan};
pub use threads::run_threads;
pub use working::{OF_A, pump};
