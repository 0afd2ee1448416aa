//! The command line of the program: which command its words spell, what the words of `serve` ask for, and the sentence for people on
//! a run that was not done.
//!
//! The words of other commands are held against the table of commands by a rule of this crate. Those that pass are split by `clap`,
//! which can refuse them only when out of memory.
#![tactic(auto)]

mod command;
pub mod error_sentences;
mod ids;
mod rule;
pub mod serve_words;
mod splitting;

pub use command::Command;
pub use rule::{number, small};
