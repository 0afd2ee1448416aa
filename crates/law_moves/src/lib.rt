//! Laws of contexts that move: what a stop gives, and what emptying a device does.
#![tactic(auto)]

pub mod evacuation;
pub mod stopped_images;
