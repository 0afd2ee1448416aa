//! Laws of devices: a step keeps what is right of a device, and which answers are silent.
#![tactic(auto)]

pub mod device_sound;
pub mod replies;
