//! Tests of names and lists, of what a program reads and writes, and of its words and generated scripts.
//!
//! The crates `rdma_types`, `host_ports`, `workload_gen` and `command_line` are tested here, so that their proofs are
//! not made twice.

#[cfg(test)]
mod command_words;
#[cfg(test)]
mod names;
#[cfg(test)]
mod ports;
#[cfg(test)]
mod scripts;
