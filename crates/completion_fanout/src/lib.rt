//! Completions handed to several consumers over one queue: each is taken once; and those that threads drain from a shared device
//! and hand out so (this project's choice).
#![tactic(auto)]

mod consumers;
mod dealing;
mod drainer;
mod entry;
mod fanning;
mod feeding;
mod finishing;
mod handing;
mod moves;
mod plan;
mod pumping;
mod rule;
mod running;
mod serving;
mod told;

pub use entry::{FanEntry, QueueItem};
pub use fanning::{FanRun, fan_out};
pub use feeding::Source;
pub use finishing::HandedOut;
pub use handing::hand_out;
pub use moves::{give_back, join, lend, make, put, split, take};
pub use plan::FanPlan;
pub use rule::{FanPass, FanQueue, Share};
pub use running::{FannedRun, run_fan_out};
pub use serving::{OpenGate, PopGate};
