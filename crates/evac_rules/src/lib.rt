//! How a device is emptied: its contexts move to other devices one by one. The rules are definitions over the written
//! protocol; this crate has the plain types that they and the call speak of.
#![tactic(auto)]

mod moves;

pub use moves::{Shifted, StayReason};
