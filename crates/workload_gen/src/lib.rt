//! The generated script: connections, messages and moves by the words of a generator, and the line that sums up a run
//! of it (this project's choice).
#![tactic(auto)]

mod laws;
mod message;
mod opening;
mod plan;
mod schedule;
mod summary;
mod writing;

pub use laws::{messages_lie_in_their_regions, moves_stand_in_order};
pub use plan::{Mix, plan_of};
pub use summary::summary_of;
