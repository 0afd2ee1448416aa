//! The commands that write one line: those that run threads, and that of letters; and one function for all commands.
#![tactic(auto)]

pub mod endings;
pub mod mail_calls;
pub mod thread_calls;
pub mod tool;
