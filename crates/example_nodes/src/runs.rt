//! Tests of nodes over links, clocks, depots and outputs in memory.
//!
//! The crate `node_engine` is tested here, so that its proofs are not made twice.

#[cfg(test)]
mod endings;
#[cfg(test)]
mod failing;
#[cfg(test)]
mod hostile;
#[cfg(test)]
mod scripts;
