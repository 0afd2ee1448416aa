//! Tests of queues of work and of completions, and of the network's store.
//!
//! The crates `completion_queue`, `work_queues` and `fabric` are tested here, so that their proofs are not made twice.

#[cfg(test)]
mod completions;
#[cfg(test)]
mod flights;
#[cfg(test)]
mod works;
