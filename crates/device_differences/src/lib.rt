//! Where two devices differ: the first field in which they do, and the two values that it has. Nothing here takes memory.
//! What is told, and in which order, is this project's choice.
#![tactic(auto)]

mod between;
mod laws;
mod links;
mod lists;
mod memory;
mod requests;
mod values;

pub use between::{apart, names, numbers};
pub use laws::differences_tell_devices_apart;
pub use links::work;
pub use lists::{name_sets, queues};
pub use memory::regions;
