//! One device: its contexts, the husks of those that moved away, and the pages that all of them share; and its step on
//! one event.
#![tactic(auto)]

mod arriving;
mod coming;
mod copying;
mod device;
mod differing;
mod events;
mod finding;
mod husks;
mod index;
mod leaving;
mod lives;
mod making;
mod moving;
mod named;
mod readers;
mod running;
mod telling;

pub use context_core::{Answered, Draft, LinkView, LiveEnd, SendRow};
pub use device::Device;
pub use finding::{EndPlace, FoundEnd, destination};
pub use protocol::{ContextImage, Event, Outcome};
pub use rdma_types::{Address, EndView, Name, ObjName, Sent};
