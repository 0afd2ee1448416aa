//! The queues of a connection: completion queues, and the queues of posted sends and receives.
#![tactic(auto)]

pub mod completion_queue;
pub mod work_queues;
