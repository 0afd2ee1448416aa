//! What a device and its programs read from and write to, also a served device: a control that gives it lines as they come, and a
//! store that never puts one dump in the place of another.
//!
//! Each object of the outside is a trait. Its ghost members tell what the object holds, and count
//! its faults; an adapter of the real world tells no content, and the versions in memory tell all.
#![tactic(auto)]

mod control;
mod depot;
mod link;
mod mem_control;
mod mem_depot;
mod mem_link;
mod mem_sink;
mod mem_source;
mod mem_store;
mod mem_ticks;
mod reading;
mod store;
mod ticks;
mod writing;

pub use control::{Control, Heard};
pub use depot::{Depot, DepotFault};
pub use link::{Got, LONGEST_DATAGRAM, Link};
pub use mem_control::MemControl;
pub use mem_depot::{EmptyDepot, MemDepot};
pub use mem_link::{MemLink, ShutLink};
pub use mem_sink::MemSink;
pub use mem_source::MemSource;
pub use mem_store::MemStore;
pub use mem_ticks::MemTicks;
pub use reading::{ReadAllFault, Source, read_all};
pub use store::{Store, StoreFault};
use thiserror::Error;
pub use ticks::Ticks;
pub use writing::{Sink, WriteFault, write_all_of};

/// A call of the outside failed. The object counted the fault.
#[derive(Clone, Copy, Debug, Error)]
#[error("the call failed")]
pub struct Failed;
