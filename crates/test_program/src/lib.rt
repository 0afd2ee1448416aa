//! Tests of the commands of the program, of its parts, and of letters.
#![tactic(auto)]

pub mod commands_in_memory;
pub mod letters;
pub mod parts;
