//! What the program does for the words of a command, over any input, output and depot: `run_serial`.
//!
//! The program itself, with the process' own input, output and files, is the crate `rdma_cli`.
#![tactic(auto)]

mod commands;
mod serial;
mod stop;
mod telling;
mod text_sink;
mod writing;

pub use serial::run_serial;
