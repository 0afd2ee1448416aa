//! Laws of whole scripts: those that are generated, and what each settling in a script leaves.
#![tactic(auto)]

pub mod generated_scripts;
pub mod settled_scripts;
