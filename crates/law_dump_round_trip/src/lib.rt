//! The grammar of dumps both ways: what is written reads back, and what is read is a dump.
#![tactic(auto)]

mod laws;

pub use laws::{a_fault_stays, what_is_read_is_a_dump, what_is_written_reads_back};
