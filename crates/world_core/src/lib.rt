//! A world of devices, with the network between them and the images of stopped contexts that are carried from one to
//! another. It does what the written protocol says of a world, step by step.
#![tactic(auto)]

mod finding;
mod index;
mod laws;
mod lives;
mod making;
mod moving;
mod network;
mod readers;
mod running;
mod settling;
mod stops;
mod world;

pub use device_core::{ContextImage, Device, Event, LinkView, LiveEnd};
pub use fabric::Flight;
pub use laws::{refusals_are_answered, steps_are_followed};
pub use protocol::WorldEvent;
pub use settling::{Quiet, Settler};
pub use world::World;
