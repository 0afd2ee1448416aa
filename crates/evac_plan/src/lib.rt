//! Emptying a device: all settles, and then its contexts move to other devices one by one, each before the next one leaves.
#![tactic(auto)]

mod asking;
mod evacuating;
mod fault;
mod moving;
mod steps;

pub use evac_rules::{Shifted, StayReason};
pub use evacuating::evacuate;
pub use fault::EvacFault;
